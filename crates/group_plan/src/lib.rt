//! Plans: the groups of meters, the rounds in which each meter takes part, and the tables over their places.
#![tactic(auto)]

mod name;
mod plan;
mod table;
mod tag;

pub use name::Name;
pub use plan::{GroupPlan, Plan, PlanError, Span, SpanError};
pub use table::{Presence, Readings};
pub use tag::{Kind, Tag};
