//! Runs by ticks: their order, their fates, and the rows and the summary that the fates alone decide.
#![tactic(auto)]

pub mod laws;
