//! What is left of a journal: behind a cut of its bytes, and on a disk that crashes.
#![tactic(auto)]

pub mod laws;
