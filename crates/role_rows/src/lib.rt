//! Worked rows of the roles over wires in memory: all tests.
#![tactic(auto)]

#[cfg(test)]
mod head_end_rows;
#[cfg(test)]
mod meter_rows;
#[cfg(test)]
mod wires;
