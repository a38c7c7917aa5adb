//! The head end and the meters that stand apart are those of every tick run. All laws.
#![tactic(auto)]

pub mod laws;
