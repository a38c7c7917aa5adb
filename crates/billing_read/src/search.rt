//! The first partner of a reading, found in one pass over the period.
ghost use Rattle.std.specs.Prelude.{◌≡◌, ◌<◌, ◌≤◌, ◌+◌, ◌↔◌, ◌&&◌, nat_le, nat_lt, IsTrue, IfOk, IfSome};
ghost use Rattle.group_plan.specs.Plans.{is_place};
ghost use Rattle.group_plan.specs.Tables.{reading, IsReadingTable};
ghost use Rattle.event_schedule.specs.Events.{events_of};
ghost use Rattle.group_book.specs.Books.{shape_of, past};
ghost use Rattle.ideal_masks.specs.Chains.{IsOpened};
ghost use Rattle.billing_read.specs.Partners.{CanMove, CanExchange, KeepsTotal};
ghost use Rattle.billing_read.specs.PartnerEnds.{IsFirst, IsFirstPartner, IsHiddenBy};
ghost use Rattle.billing_read.specs.Searches.{IsSearch, PartnerOf, HasNoneBefore, IsFirstBefore, Keeps};

use crate::{Partner, ReadingPlace};
use group_book::Book;
use group_plan::Readings;
use ideal_masks::{opened_survivors, replay_events};
use missing_round::MeterSet;
use std::alloc::{AllocError, Global};
use transcript_log::Transcript;

/// The largest reading, in watt-hours.
const MOST: u64 = (1 << 40) - 1;

// A reading whose partner is looked for.
#[derive(Clone, Copy)]
struct Search<'a> {
    readings: &'a Readings,
    book: &'a Book,
    from: u32,
    until: u32,
    place: ReadingPlace,
    // The survivors of its round, where that is opened.
    survivors: Option<MeterSet>,
}

// Whether there is a reading that can rise by 1, or fall by 1.
fn can_move(plus: bool, reading: Option<u64>) -> bool
    ensures { IsTrue result ↔ CanMove plus reading }
{
    match reading {
        None => false,
        Some(value) => if plus { value < MOST } else { value > 0 },
    }
}

// Whether both meters are among the survivors of a round, or neither is; or the round isn't opened.
fn keeps_total(survivors: &Option<MeterSet>, one: u8, other: u8) -> bool
    ensures { IsTrue result ↔ Keeps survivors.now one other }
{
    match *survivors {
        None => true,
        Some(survivors) => survivors.has(one) == survivors.has(other),
    }
}

impl<'a> Search<'a> {
    // The reading of a meter of the group.
    fn reading(&self, round: u32, meter: u8) -> Option<u64>
        requires { IsTrue (is_place self.now.readings.now.plan self.now.place.group round meter) }
        ensures { result ≡ reading self.now.readings.now.table self.now.place.group round meter }
    {
        self.readings.get(self.place.group, round, meter)
    }

    // Whether the four readings can move.
    fn can_exchange(&self, partner: &Partner) -> bool
        requires search { IsSearch self.now }
        requires place { IsTrue (is_place self.now.readings.now.plan self.now.place.group partner.now.round partner.now.meter) }
        ensures { IsTrue result ↔ CanExchange (reading self.now.readings.now.table) self.now.place.group self.now.place.round self.now.place.meter partner.now }
    {
        partner.round != self.place.round
            && partner.meter != self.place.meter
            && can_move(
                partner.plus,
                self.reading(self.place.round, self.place.meter),
            )
            && can_move(partner.plus, self.reading(partner.round, partner.meter))
            && can_move(!partner.plus, self.reading(self.place.round, partner.meter))
            && can_move(!partner.plus, self.reading(partner.round, self.place.meter))
    }

    // Whether it is a partner, in a round of the period with these survivors where it is opened.
    fn is_partner(&self, survivors: &Option<MeterSet>, partner: &Partner) -> bool
        requires search { IsSearch self.now }
        requires place { IsTrue (is_place self.now.readings.now.plan self.now.place.group partner.now.round partner.now.meter) }
        requires from { self.now.from ≤ partner.now.round }
        requires until { partner.now.round < self.now.until }
        requires opened { IsOpened (shape_of self.now.book.now) self.now.place.group partner.now.round (past self.now.book.now) survivors.now }
        ensures { IsTrue result ↔ PartnerOf self.now partner.now }
    {
        keeps_total(&self.survivors, self.place.meter, partner.meter)
            && keeps_total(survivors, self.place.meter, partner.meter)
            && self.can_exchange(partner)
    }

    // The partner at a meter, with plus or else with minus.
    fn partner_at(&self, survivors: &Option<MeterSet>, round: u32, meter: u8) -> Option<Partner>
        requires search { IsSearch self.now }
        requires place { IsTrue (is_place self.now.readings.now.plan self.now.place.group round meter) }
        requires from { self.now.from ≤ round }
        requires until { round < self.now.until }
        requires opened { IsOpened (shape_of self.now.book.now) self.now.place.group round (past self.now.book.now) survivors.now }
        requires before { HasNoneBefore (PartnerOf self.now) round meter }
        ensures { IsFirstBefore (PartnerOf self.now) round (meter + 1) result }
    {
        let up = Partner {
            round,
            meter,
            plus: true,
        };
        if self.is_partner(survivors, &up) {
            return Some(up);
        }
        let down = Partner {
            round,
            meter,
            plus: false,
        };
        if self.is_partner(survivors, &down) {
            return Some(down);
        }
        None
    }

    // The first partner in a round of the period.
    fn partner_in(&self, round: u32) -> Option<Partner>
        requires search { IsSearch self.now }
        requires round { round < self.now.readings.now.plan.rounds }
        requires from { self.now.from ≤ round }
        requires until { round < self.now.until }
        requires before { HasNoneBefore (PartnerOf self.now) round 0 }
        ensures { IsFirstBefore (PartnerOf self.now) (round + 1) 0 result }
    {
        let survivors = opened_survivors(self.book, self.place.group, round);
        for meter in 0..self.readings.plan().meters(self.place.group) {
            let found = self.partner_at(&survivors, round, meter as u8);
            if found.is_some() {
                return found;
            }
        }
        None
    }

    // The first partner.
    fn first_partner(&self) -> Option<Partner>
        requires { IsSearch self.now }
        ensures { IsFirst (PartnerOf self.now) result }
    {
        for round in self.from..self.until.min(self.readings.plan().rounds()) {
            let found = self.partner_in(round);
            if found.is_some() {
                return found;
            }
        }
        None
    }
}

// Whether the plan has the place, and its round lies in the period.
fn is_in_period(readings: &Readings, from: u32, until: u32, place: ReadingPlace) -> bool
    ensures test { result ≡ (is_place readings.now.plan place.group place.round place.meter && nat_le from place.round && nat_lt place.round until) }
    ensures table { IsReadingTable readings.now.plan readings.now.table }
{
    let plan = readings.plan();
    let is_place = place.round < plan.rounds() && u32::from(place.meter) < plan.meters(place.group);
    is_place && from <= place.round && place.round < until
}

/// The first partner of a reading in the rounds from `from` up to below `until`, by round, then by meter, plus before minus; none
/// exactly where there is none. It reads the events of the transcript, and no word.
pub fn partner(
    alloc: Global,
    readings: &Readings,
    transcript: &Transcript,
    from: u32,
    until: u32,
    place: ReadingPlace,
) -> Result<Option<Partner>, AllocError>
    requires { readings.now.plan ≡ transcript.now.plan }
    ensures first { IfOk result (IsFirstPartner readings.now (events_of transcript.now.entries) from until place.group place.round place.meter) }
    ensures hidden { IfOk result (λ found. IfSome found (IsHiddenBy readings.now (events_of transcript.now.entries) from until place.group place.round place.meter)) }
{
    if !is_in_period(readings, from, until, place) {
        return Ok(None);
    }
    let book = replay_events(alloc, readings, transcript)?;
    let search = Search {
        readings,
        book: &book,
        from,
        until,
        place,
        survivors: opened_survivors(&book, place.group, place.round),
    };
    Ok(search.first_partner())
}
