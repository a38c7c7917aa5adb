//! What holds of everything that is said. Each law is a contract with an empty body.

ghost use Rattle.apart_lines.specs.Statements.{TicksCanBeSaid, AnnouncementsCanBeSaid, ReadingsCanBeSaid, AnswersCanBeSaid};

/// All that a head end and a meter have to say has a line.
pub fn all_can_be_said()
    ensures ticks { TicksCanBeSaid }
    ensures again { AnnouncementsCanBeSaid }
    ensures readings { ReadingsCanBeSaid }
    ensures answers { AnswersCanBeSaid }
{}
