//! Worked rows of wires: lines that come in, a journal that is appended to and opened again, in memory and over real files. They
//! are tests alone.
#![tactic(auto)]

#[cfg(test)]
mod rows;
