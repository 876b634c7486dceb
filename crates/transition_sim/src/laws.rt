//! What the answers on two frames say of a slow line.
ghost use Rattle.transition_sim.specs.Laws.{TestDetectsTransition, ShownHasNoTransition};

use evidence::shown_is_redundant;

/// Every pattern that agrees with a test of the two frames detects the transition fault.
pub fn test_detects_transition()
    ensures { TestDetectsTransition }
{}

/// A tree without Open on the two frames, or a refutation, shows that no pattern that obeys the held inputs detects the transition fault.
pub fn shown_has_no_transition()
    ensures { ShownHasNoTransition }
{
    shown_is_redundant();
}
