//! What batches promise, as a law over the definitions.
ghost use Rattle.transition_batches.specs.Laws.{BatchCarries};

/// What is evidence for a slow line in a batch is evidence on its own two frames, under the same held inputs.
pub fn batch_carries()
    ensures { BatchCarries }
{}
