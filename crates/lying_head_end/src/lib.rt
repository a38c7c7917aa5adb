//! A head end that lies: what it learns from the meters, whatever it tells them.
#![tactic(auto)]

pub mod laws;
