//! How two tables of readings disagree.

/// How two tables of readings disagree. All numbers of places are counted from 0.
#[derive(Clone, Copy)]
pub enum Disagreement {
    /// One table alone has a reading of this meter in this round.
    Presence {
        group: u16,
        round: u32,
        meter: u8,
    },
    /// The two tables have other readings of this meter in this round, who is one of those that share what they know.
    Known {
        group: u16,
        round: u32,
        meter: u8,
    },
    /// The two tables have these sums, in watt-hours, over the survivors of this opened round; or, against meters that share
    /// what they know, over the other survivors of this round that is open to them.
    Total {
        group: u16,
        round: u32,
        first: u64,
        second: u64,
    },
    /// The two tables have these sums, in watt-hours, over the opened component of masks in this round that has this least member.
    Component {
        group: u16,
        round: u32,
        least: u8,
        first: u64,
        second: u64,
    },
}
