//! A batch of parcels that workers bring to one book.
#![tactic(auto)]

mod batch;
mod crew;
mod gate;
mod mark;
mod outcome;
mod worker;
mod workers;
mod workload;

pub use batch::{collect, gather};
pub use crew::Crew;
pub use gate::{Free, Gate};
pub use mark::{CollectRefused, Collected, Mark};
pub use outcome::Outcome;
pub use workers::Workers;
