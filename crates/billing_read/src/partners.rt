//! Places of readings, and partners of a reading.

/// Where a reading stands: a meter of a group in a round, all counted from 0.
#[derive(Clone, Copy)]
pub struct ReadingPlace {
    pub group: u16,
    pub round: u32,
    pub meter: u8,
}

/// Where one watt-hour can go: another round, another meter of the same group, and a sign. With plus the reading and that of the
/// partner rise by 1, and the meter's in the partner's round and the partner's in the reading's fall by 1; with minus the contrary.
#[derive(Clone, Copy)]
pub struct Partner {
    pub round: u32,
    pub meter: u8,
    pub plus: bool,
}
