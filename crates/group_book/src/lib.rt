//! The book of a plan: what was sent and taken in every round, and the journal of it.
#![tactic(auto)]

mod answers;
mod book;
mod copies;
mod group_pages;
pub mod laws;
mod lines;
mod page;
mod places;
mod start;
mod words;

pub use answers::{Outcome, OutcomeState, SendAnswer, TakeError};
pub use book::{Book, Parts};
pub use group_pages::GroupPages;
