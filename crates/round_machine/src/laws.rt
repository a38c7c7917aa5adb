//! The law of a round over any calls on it.
ghost use Rattle.round_machine.specs.Calls.{TotalsAreOfFresh};

/// A total is the frame total of the words that were taken Fresh.
pub fn totals()
    ensures { TotalsAreOfFresh }
{}
