//! The audit: whether a report is what the frames of a transcript say. It is handed no key and no reading.
#![tactic(auto)]

mod answers;
mod auditing;
mod comparing;
mod judging;
mod meeting;
mod opened;
mod passing;
mod replay;
mod telling;
mod totals;

pub use answers::{AuditCounts, AuditError, Inspected};
pub use auditing::{Replayed, inspect};
pub use judging::TextJudge;
pub use opened::OpenedRounds;
pub use passing::replay_text;

pub mod laws;
