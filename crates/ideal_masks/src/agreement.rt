//! Whether two tables of readings agree.
ghost use Rattle.std.specs.Prelude.{◌≡◌, ◌<◌, ◌+◌, ◌≤◌, IsTrue, length, Option, is_some};
ghost use Rattle.group_plan.specs.Plans.{is_place, size, IsWithinLimits};
ghost use Rattle.group_plan.specs.Tables.{reading, IsReadingTable};
ghost use Rattle.missing_round.specs.Words.{word};
ghost use Rattle.event_schedule.specs.Tables.{plain_sum};
ghost use Rattle.group_book.specs.Books.{shape_of, past};
ghost use Rattle.ideal_masks.specs.OffsetEnds.{AreAlikeBefore, HaveOneTotalBeforeFor};
ghost use Rattle.ideal_masks.specs.AgreementParts.{PresenceGoesOn, PresenceEnds, known_reading, AreKnownBefore, KnownGoesOn, KnownEnds, TotalsGoOn, TotalsEnd, AreOfOne};
ghost use Rattle.ideal_masks.specs.Pools.{pool_of};
ghost use Rattle.ideal_masks.specs.Chains.{IsCompared, pool_in, are_below};

use crate::chain::open_others;
use crate::compared::{Compared, reading_or_zero};
use crate::pool::is_known;
use crate::{Differ, PoolDiffer};
use group_book::Book;
use group_plan::Readings;
use missing_round::MeterSet;

// ---- presence

// Whether the table has a reading at the place.
fn has_reading(readings: &Readings, group: u16, round: u32, meter: u8) -> bool
    requires { IsTrue (is_place readings.now.plan group round meter) }
    ensures { result ≡ is_some (reading readings.now.table group round meter) }
{
    readings.get(group, round, meter).is_some()
}

// Whether the tables have a reading of the same meters in the round.
fn check_meters(first: &Readings, second: &Readings, group: u16, round: u32) -> Result<(), Differ>
    requires plan { second.now.plan ≡ first.now.plan }
    requires round { round < first.now.plan.rounds }
    requires before { AreAlikeBefore (reading first.now.table) (reading second.now.table) group round 0 }
    ensures { PresenceGoesOn first.now second.now group (round + 1) result }
{
    let _first = first.plan();
    let _second = second.plan();
    for meter in 0..first.plan().meters(group) {
        let meter = meter as u8;
        if has_reading(first, group, round, meter) != has_reading(second, group, round, meter) {
            return Err(Differ::Presence {
                group,
                round,
                meter,
            });
        }
    }
    Ok(())
}

// Whether the tables have a reading of the same meters in each round of the group.
fn check_rounds(first: &Readings, second: &Readings, group: u16) -> Result<(), Differ>
    requires plan { second.now.plan ≡ first.now.plan }
    requires before { AreAlikeBefore (reading first.now.table) (reading second.now.table) group 0 0 }
    ensures { PresenceGoesOn first.now second.now (group + 1) 0 result }
{
    let _first = first.plan();
    let _second = second.plan();
    for round in 0..first.plan().rounds() {
        check_meters(first, second, group, round)?;
    }
    Ok(())
}

/// Whether the tables have their readings at the same places, or else the first place where they haven't.
pub fn check_presence(first: &Readings, second: &Readings) -> Result<(), Differ>
    requires { second.now.plan ≡ first.now.plan }
    ensures ends { PresenceEnds first.now second.now result }
    ensures first { IsReadingTable first.now.plan first.now.table }
    ensures second { IsReadingTable second.now.plan second.now.table }
    ensures limits { IsWithinLimits first.now.plan }
{
    let _first = first.plan();
    let _second = second.plan();
    for group in 0..first.plan().groups().len() {
        check_rounds(first, second, group as u16)?;
    }
    Ok(())
}

// ---- readings of the pool

// The reading of a place that the pool knows, none where the meter isn't in it.
fn known_reading(
    known: &[MeterSet],
    readings: &Readings,
    group: u16,
    round: u32,
    meter: u8,
) -> Option<u64>
    requires { IsTrue (is_place readings.now.plan group round meter) }
    ensures { result ≡ known_reading (pool_of known.now) (reading readings.now.table) group round meter }
{
    if is_known(known, group, meter) {
        readings.get(group, round, meter)
    } else {
        None
    }
}

// Whether the tables have the same readings of the meters of the pool in the round.
fn check_known_meters(
    known: &[MeterSet],
    first: &Readings,
    second: &Readings,
    group: u16,
    round: u32,
) -> Result<(), PoolDiffer>
    requires plan { second.now.plan ≡ first.now.plan }
    requires round { round < first.now.plan.rounds }
    requires before { AreKnownBefore (pool_of known.now) (reading first.now.table) (reading second.now.table) group round 0 }
    ensures { KnownGoesOn (pool_of known.now) first.now second.now group (round + 1) result }
{
    let _first = first.plan();
    let _second = second.plan();
    for meter in 0..first.plan().meters(group) {
        let meter = meter as u8;
        let one = known_reading(known, first, group, round, meter);
        if one != known_reading(known, second, group, round, meter) {
            return Err(PoolDiffer::Known {
                group,
                round,
                meter,
            });
        }
    }
    Ok(())
}

// Whether the tables have the same readings of the meters of the pool in each round of the group.
fn check_known_rounds(
    known: &[MeterSet],
    first: &Readings,
    second: &Readings,
    group: u16,
) -> Result<(), PoolDiffer>
    requires plan { second.now.plan ≡ first.now.plan }
    requires before { AreKnownBefore (pool_of known.now) (reading first.now.table) (reading second.now.table) group 0 0 }
    ensures { KnownGoesOn (pool_of known.now) first.now second.now (group + 1) 0 result }
{
    let _first = first.plan();
    let _second = second.plan();
    for round in 0..first.plan().rounds() {
        check_known_meters(known, first, second, group, round)?;
    }
    Ok(())
}

/// Whether the tables have the same readings of the meters of the pool, or else the first place where they haven't.
pub(crate) fn check_known(
    known: &[MeterSet],
    first: &Readings,
    second: &Readings,
) -> Result<(), PoolDiffer>
    requires { second.now.plan ≡ first.now.plan }
    ensures { KnownEnds (pool_of known.now) first.now second.now result }
{
    let _first = first.plan();
    let _second = second.plan();
    for group in 0..first.plan().groups().len() {
        check_known_rounds(known, first, second, group as u16)?;
    }
    Ok(())
}

// ---- totals

/// The sum of the readings of these meters, modulo 2^64.
pub fn sum_of_readings(readings: &Readings, group: u16, round: u32, meters: MeterSet) -> u64
    requires round { round < readings.now.plan.rounds }
    requires meters { IsTrue (are_below (size readings.now.plan.groups group) meters) }
    ensures sum { result ≡ word (plain_sum (reading readings.now.table) group round meters) }
    ensures table { IsReadingTable readings.now.plan readings.now.table }
    ensures limits { IsWithinLimits readings.now.plan }
{
    let _rounds = readings.plan().rounds();
    let mut sum = 0u64;
    for meter in meters.members() {
        sum = sum.wrapping_add(reading_or_zero(readings, group, round, meter));
    }
    sum
}

impl<'a> Compared<'a> {
    // Whether the tables have one sum over the survivors outside the pool, where all of these have answered.
    fn check_total(&self) -> Result<(), Differ>
        requires compared { IsCompared self.now }
        requires before { HaveOneTotalBeforeFor (pool_in self.now) (shape_of self.now.book.now) (reading self.now.first.now.table) (reading self.now.second.now.table) (past self.now.book.now) self.now.group self.now.round }
        ensures { TotalsGoOn (pool_in self.now) self.now.first.now self.now.second.now self.now.book.now self.now.group (self.now.round + 1) result }
    {
        let Some(others) = open_others(self.book, self.known, self.group, self.round) else {
            return Ok(());
        };
        let first = sum_of_readings(self.first, self.group, self.round, others);
        let second = sum_of_readings(self.second, self.group, self.round, others);
        if first != second {
            return Err(Differ::Total {
                group: self.group,
                round: self.round,
                first,
                second,
            });
        }
        Ok(())
    }
}

// Whether the tables have one sum over the survivors outside the pool in each round of the group that is open to it.
fn check_group(
    known: &[MeterSet],
    first: &Readings,
    second: &Readings,
    book: &Book,
    group: u16,
) -> Result<(), Differ>
    requires plans { AreOfOne first.now second.now book.now }
    requires group { group < length book.now.presence.plan.groups }
    requires before { HaveOneTotalBeforeFor (pool_of known.now) (shape_of book.now) (reading first.now.table) (reading second.now.table) (past book.now) group 0 }
    ensures { TotalsGoOn (pool_of known.now) first.now second.now book.now (group + 1) 0 result }
{
    for round in 0..book.plan().rounds() {
        let compared = Compared {
            known,
            first,
            second,
            book,
            group,
            round,
        };
        compared.check_total()?;
    }
    Ok(())
}

/// Whether the tables have one sum over the survivors outside the pool of each round that is open to it, or else the first
/// round where they haven't.
pub(crate) fn check_totals(
    known: &[MeterSet],
    first: &Readings,
    second: &Readings,
    book: &Book,
) -> Result<(), Differ>
    requires { AreOfOne first.now second.now book.now }
    ensures { TotalsEnd (pool_of known.now) first.now second.now book.now result }
{
    for group in 0..book.plan().groups().len() {
        check_group(known, first, second, book, group as u16)?;
    }
    Ok(())
}
