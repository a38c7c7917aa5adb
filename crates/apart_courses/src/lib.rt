//! Courses of a head end and meters that stand apart: what may happen to them, and the schedule that this is. All laws.
#![tactic(auto)]

pub mod laws;
