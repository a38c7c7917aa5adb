//! What becomes of a parcel by its commit.

ghost use Rattle.std.specs.Prelude.{◌≡◌, ◌++◌, ◌∷◌, ◌<◌, [], List, Some, None, length, slice_index_or};
ghost use Rattle.event_schedule.specs.declared.Line.{Line as LineView};
ghost use Rattle.collector_workers.specs.Outcomes.{IsTold};

use crate::mark::Mark;
use event_schedule::Line;
use shared_book::{CommitError, Reply};
use transcript_log::Lines;

/// What became of a parcel: its mark, and the line that it added where it is accepted.
#[derive(Clone, Copy)]
pub struct Outcome {
    pub mark: Mark,
    pub line: Option<Line>,
}

impl Outcome {
    /// That of a parcel that added no line.
    fn without_line(mark: Mark) -> Outcome
        ensures { result ≡ record { mark = mark; line = None } }
    {
        Outcome { mark, line: None }
    }
}

/// That at a place.
pub(crate) fn outcome_at(outcomes: &[Outcome], at: usize) -> Outcome
    requires { at < length outcomes.now }
    ensures { result ≡ slice_index_or outcomes.now at result }
{
    Outcome {
        mark: outcomes[at].mark,
        line: outcomes[at].line,
    }
}

/// The last of some lines.
fn last(lines: &Lines) -> Option<Line>
    ensures { (front : List LineView) (line : LineView) → lines.now.items ≡ front ++ line ∷ [] → result ≡ Some line }
{
    match lines.len().checked_sub(1) {
        Some(at) => Some(lines.at(at)),
        None => None,
    }
}

/// What became of a parcel, by what its commit came to; where it was made, its line is the last of these.
pub(crate) fn outcome_of(came: &Result<Reply, CommitError>, lines: &Lines) -> Outcome
    ensures { IsTold came.now lines.now.items result }
{
    match came {
        Ok(reply) => Outcome {
            mark: Mark::Made(*reply),
            line: last(lines),
        },
        Err(CommitError::Frame(e)) => Outcome::without_line(Mark::Bad(*e)),
        Err(CommitError::Take(e)) => Outcome::without_line(Mark::Refused(*e)),
        Err(CommitError::Place) => Outcome::without_line(Mark::OutOfPlan),
    }
}
