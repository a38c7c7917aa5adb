//! The law of a meter over any calls on it.
ghost use Rattle.meter_core.specs.Calls.{OneSetARound};

/// A meter answers one set in a round: the first that no refusal but `OtherSet` could stop.
pub fn one_set()
    ensures { OneSetARound }
{}
