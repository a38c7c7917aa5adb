//! The words of the command line, what a command comes to, and the texts that are said of it: usage, version and complaints.
#![tactic(auto)]

mod complaints;
mod disagreement;
mod known;
mod meter_parts;
mod outcome;
mod parsing;
mod role_parts;
mod text_fault;
mod unread;
mod unwritten;
mod usage;
mod words;

pub use complaints::complaint;
pub use disagreement::Disagreement;
pub use known::{KnownMeter, known_sets};
pub use outcome::{Outcome, status};
pub use parsing::parse;
pub use text_fault::TextFault;
pub use unread::Unread;
pub use unwritten::Unwritten;
pub use usage::{USAGE, VERSION};
pub use words::{
    AuditFiles, BillFiles, BillWords, CollectFiles, Command, ConvertFiles, HideFiles, HideWords,
    InspectFiles, LoadWords, MakeWords, MeterFiles, PartsWords, Period, PlaceWords, PooledWords,
    PublicFiles, RegisterFiles, RegisterWords, ResumeFiles, ResumeWords, RingTwinWords, RingWords,
    RunFiles, RunWords, Size, TwinFiles,
};
