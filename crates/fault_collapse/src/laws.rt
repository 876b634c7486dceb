//! Laws of classes: functions that do nothing, whose contracts are the laws.
ghost use Rattle.fault_collapse.specs.Laws.{BitsControl, ClassesOnce, DetectedAlike, EquivalentAgree, EquivalentAgreeBy};

use netlist::{holds_everywhere, settles_once, some_settles};

/// Equivalent faults give the same outputs and the same next state, over any values whose gates are controlled as those of bits.
pub fn equivalent_agree_by<V>()
    ensures { EquivalentAgreeBy V }
{
    holds_everywhere();
    settles_once::<V>();
    some_settles::<V>();
}

/// Bits are such values.
pub fn bits_control()
    ensures { BitsControl }
{}

/// Equivalent faults give the same outputs and the same next state for every pattern.
pub fn equivalent_agree()
    ensures { EquivalentAgree }
{
    equivalent_agree_by::<bool>();
    bits_control();
}

/// Equivalent faults are detected by the same patterns at the same points.
pub fn detected_alike()
    ensures { DetectedAlike }
{
    equivalent_agree();
    some_settles::<bool>();
}

/// A netlist's faults have one list of classes.
pub fn classes_once()
    ensures { ClassesOnce }
{}
