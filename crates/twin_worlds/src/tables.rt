//! The tables of readings of a twin.

use group_plan::Readings;

/// Two tables of readings: the first gives a transcript, and the second is to take its place.
#[derive(Clone, Copy)]
pub struct ReadingTables<'a> {
    pub first: &'a Readings,
    pub second: &'a Readings,
}
