//! Rounds as graphs of masks.
#![tactic(auto)]

pub mod laws;
