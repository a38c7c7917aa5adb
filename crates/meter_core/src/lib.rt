//! What a meter answers: at most one missing set in each round.
#![tactic(auto)]

ghost use Rattle.std.specs.Prelude.{◌≡◌, ◌<◌, ◌≤◌, true, length, IfOk};
ghost use Rattle.missing_round.specs.Sets.{is_member};
ghost use Rattle.meter_core.specs.Meters.{new_meter, marked, Hears};

pub mod laws;
mod notes;

use crate::notes::Notes;
use missing_round::MeterSet;
use std::alloc::{AllocError, Global};
use std::marker::Model;

/// What a meter says to an announcement.
#[derive(Clone, Copy, Debug, PartialEq, Eq)]
pub enum Heard {
    /// It answers, and keeps the set for the round.
    Answer,
    /// It answers the set that it has kept, once more.
    AnswerAgain,
    /// It doesn't answer.
    Refused(Why),
}

/// Why a meter doesn't answer; the first that applies.
#[derive(Clone, Copy, Debug, PartialEq, Eq)]
pub enum Why {
    /// The round is not one of its rounds, or the set has a meter that is no member of it.
    OutOfPlan,
    /// The meter has not read the round.
    NotRead,
    /// The set has the meter itself.
    SelfMissing,
    /// So many survivors are left, fewer than the floor.
    Thin(u16),
    /// Another set, this one, is kept for the round.
    OtherSet(MeterSet),
}

/// One meter of a group, over all rounds.
#[derive(Drop)]
pub struct Meter {
    meter: u8,
    floor: u16,
    notes: Notes,
}

impl Model for Meter {
    ghost use Rattle.meter_core.specs.Meters.{MeterView};

    ghost Value = { MeterView };

    ghost view = { λ m. record { meter = m.meter; floor = m.floor; notes = m.notes } };
}

impl Meter {
    /// The meter of this number, in a group of this floor, before it reads any of the rounds.
    pub fn new(alloc: Global, meter: u8, floor: u16, rounds: u32) -> Result<Meter, AllocError>
        requires least_floor { 2 ≤ floor }
        requires most_floor { floor ≤ 256 }
        requires least_rounds { 1 ≤ rounds }
        requires most_rounds { rounds ≤ 4096 }
        ensures { IfOk result (λ m. m ≡ new_meter meter floor rounds) }
    {
        let notes = Notes::new(alloc, rounds as usize)?;
        Ok(Meter {
            meter,
            floor,
            notes,
        })
    }

    /// Marks the round as read and sent to these members, of which the meter is one.
    #[inline(always)]
    pub fn mark_read(&mut self, round: u32, members: &MeterSet)
        requires round { round < length self.old.notes }
        requires member { is_member self.old.meter members.now ≡ true }
        ensures { self.new ≡ marked self.old round members.now }
    {
        if self.notes.members(round as usize).is_none() {
            self.notes.mark(round as usize, *members);
        }
    }

    /// Hears of the missing set that is announced for the round.
    #[inline(always)]
    pub fn hear(&mut self, round: u32, missing: &MeterSet) -> Heard
        ensures { Hears self.old round missing.now result self.new }
    {
        if round as usize >= self.notes.len() {
            return Heard::Refused(Why::OutOfPlan);
        }
        let Some(members) = self.notes.members(round as usize) else {
            return Heard::Refused(Why::NotRead);
        };
        if missing.minus(members).len() > 0 {
            return Heard::Refused(Why::OutOfPlan);
        }
        if missing.has(self.meter) {
            return Heard::Refused(Why::SelfMissing);
        }
        let survivors = members.len().saturating_sub(missing.len());
        if survivors < self.floor {
            return Heard::Refused(Why::Thin(survivors));
        }
        match self.notes.kept(round as usize) {
            None => {
                self.notes.keep(round as usize, *missing);
                Heard::Answer
            }
            Some(kept) if kept == *missing => Heard::AnswerAgain,
            Some(kept) => Heard::Refused(Why::OtherSet(kept)),
        }
    }
}
