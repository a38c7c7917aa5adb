//! What a carrier, and a head end that stands apart from its meters, see of the readings. All laws.
#![tactic(auto)]

pub mod laws;
