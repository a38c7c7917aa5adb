//! Worked rows of the programs that stand apart, over values: the head end and the meter. They are tests alone.
#![tactic(auto)]

#[cfg(test)]
mod frames;
#[cfg(test)]
mod head_end_rows;
#[cfg(test)]
mod line_rows;
#[cfg(test)]
mod meter_rows;
