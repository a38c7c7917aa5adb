//! What holds of every journal. Each law is a contract with an empty body.

ghost use Rattle.head_end.specs.Statements.{TotalsAreExact, LinesStay};

/// Where the frames have the words of readings and masks, a total is the plain sum of the survivors' readings.
pub fn exact_totals()
    ensures { TotalsAreExact }
{}

/// What is said for a tick that has passed is said of it again, whatever has come since.
pub fn lines_stay()
    ensures { LinesStay }
{}
