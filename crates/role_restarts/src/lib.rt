//! The start of a head end and of a meter over what is left of a journal: behind a kill, and behind a crash of its disk.
#![tactic(auto)]

pub mod laws;
