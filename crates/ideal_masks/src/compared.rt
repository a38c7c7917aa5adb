//! A round under two tables of readings.
ghost use Rattle.std.specs.Prelude.{◌≡◌, ◌<◌, ◌≤◌, IsTrue, sum_by};
ghost use Rattle.group_plan.specs.Plans.{is_place};
ghost use Rattle.group_plan.specs.Tables.{reading};
ghost use Rattle.missing_round.specs.Words.{word};
ghost use Rattle.event_schedule.specs.Tables.{reading_at};
ghost use Rattle.ideal_masks.specs.Chains.{IsCompared, pool_in, size_of, deltas_of, own_deltas_of, are_below};

use crate::pool::is_known;
use group_book::Book;
use group_plan::Readings;
use missing_round::MeterSet;

/// A round whose two tables of readings are compared for a pool of meters, with a book of the events.
#[derive(Clone, Copy)]
pub(crate) struct Compared<'a> {
    /// The meters of the pool, by group.
    pub known: &'a [MeterSet],
    pub first: &'a Readings,
    pub second: &'a Readings,
    pub book: &'a Book,
    pub group: u16,
    pub round: u32,
}

/// The reading of a place in watt-hours, 0 where there is none.
pub fn reading_or_zero(readings: &Readings, group: u16, round: u32, meter: u8) -> u64
    requires { IsTrue (is_place readings.now.plan group round meter) }
    ensures { result ≡ reading_at (reading readings.now.table) group round meter }
{
    readings.get(group, round, meter).unwrap_or(0)
}

impl<'a> Compared<'a> {
    /// How many meters the group has.
    pub(crate) fn meters(&self) -> u32
        ensures meters { result ≡ size_of self.now }
        ensures few { result ≤ 256 }
    {
        self.book.plan().meters(self.group)
    }

    /// The reading of a meter in the first table, 0 where it has none.
    pub(crate) fn first_reading(&self, meter: u8) -> u64
        requires compared { IsCompared self.now }
        requires meter { meter < size_of self.now }
        ensures { result ≡ reading_at (reading self.now.first.now.table) self.now.group self.now.round meter }
    {
        reading_or_zero(self.first, self.group, self.round, meter)
    }

    /// The reading of a meter in the second table, 0 where it has none.
    pub(crate) fn second_reading(&self, meter: u8) -> u64
        requires compared { IsCompared self.now }
        requires meter { meter < size_of self.now }
        ensures { result ≡ reading_at (reading self.now.second.now.table) self.now.group self.now.round meter }
    {
        reading_or_zero(self.second, self.group, self.round, meter)
    }

    /// By how much a meter's reading is more in the first table, modulo 2^64.
    pub(crate) fn delta(&self, meter: u8) -> u64
        requires compared { IsCompared self.now }
        requires meter { meter < size_of self.now }
        ensures { result ≡ deltas_of self.now meter }
    {
        let more = self.first_reading(meter);
        more.wrapping_sub(self.second_reading(meter))
    }

    /// Whether a meter of the group is in the pool.
    pub(crate) fn is_known(&self, meter: u8) -> bool
        ensures { result ≡ pool_in self.now self.now.group meter }
    {
        is_known(self.known, self.group, meter)
    }

    /// The delta of a meter outside the pool, 0 of one in it.
    pub(crate) fn own_delta(&self, meter: u8) -> u64
        requires compared { IsCompared self.now }
        requires meter { meter < size_of self.now }
        ensures { result ≡ own_deltas_of self.now meter }
    {
        if self.is_known(meter) {
            0
        } else {
            self.delta(meter)
        }
    }

    /// The sum of the deltas of these meters, modulo 2^64.
    pub(crate) fn sum_of_deltas(&self, meters: MeterSet) -> u64
        requires compared { IsCompared self.now }
        requires meters { IsTrue (are_below (size_of self.now) meters) }
        ensures { result ≡ word (sum_by (deltas_of self.now) meters) }
    {
        let mut total = 0u64;
        for meter in meters.members() {
            total = total.wrapping_add(self.delta(meter));
        }
        total
    }
}
