//! Laws of faults in a fanout-free region: functions that do nothing, whose contracts are the laws.
ghost use Rattle.regions.specs.Laws.{ReachesHead, ObservedByHead, DetectedByHead};
ghost use Rattle.regions.specs.Turned.{TurnedWordsSettleAsBits};

/// With a fault the head of its region differs exactly where the fault reaches it.
pub fn reaches_head()
    ensures { ReachesHead }
{}

/// Every point observes with the fault what it observes where the head alone is turned over.
pub fn observed_by_head()
    ensures { ObservedByHead }
{}

/// Bit j of settled words settles as the bits of pattern j, turned over where the mask has the bit.
pub fn turned_words_settle_as_bits()
    ensures { TurnedWordsSettleAsBits }
{}

/// A fault is detected at a point exactly where it reaches the head, and the point observes the head turned over.
pub fn detected_by_head()
    ensures { DetectedByHead }
{}
