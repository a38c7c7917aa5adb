//! A book that threads share by groups: one history of commits, each made while the pages of its group are out with a pass.
#![tactic(auto)]

mod calls;
mod commits;
mod handed;
mod law;
mod parcel;
mod parts;
mod shared;
mod threads;
mod turn;
mod writes;

pub use parcel::{CommitError, Parcel, Reply, Request};
pub use parts::{BeginRefused, Pass, SharedBook};
pub use threads::crosses_threads;
pub use turn::Turn;
