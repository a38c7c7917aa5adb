//! What holds of possible lines and of honest runs. Each law is a contract with an empty body.

ghost use Rattle.audit_check.specs.Lengths.{TranscriptsAreShort, ReportsAreShort};
ghost use Rattle.audit_check.specs.Statements.{PossibleBefore, OpenedRoundsStay, JournalsAreTold, HonestAreAccepted};

/// Lines that are possible up to one line are possible up to the line before it, and what they open stays as it was.
pub fn possible_lines()
    ensures before { PossibleBefore }
    ensures opened { OpenedRoundsStay }
{}

/// The lines of a book are possible but for the bound on totals.
pub fn journals()
    ensures { JournalsAreTold }
{}

/// An honest transcript and its report are accepted.
pub fn honest_runs()
    ensures { HonestAreAccepted }
{}

/// The texts of a run have at most 2^28 bytes.
pub fn short_texts()
    ensures transcript { TranscriptsAreShort }
    ensures report { ReportsAreShort }
{}
