//! The meter: what it keeps, and what it says to a reading and to an announcement.

ghost use Rattle.std.specs.Prelude.{◌≡◌, ◌<◌, ◌^◌, [], List, true, false, None, slice_index_or, IfOk, replicate};
ghost use Rattle.missing_round.specs.Sets.{is_member};
ghost use Rattle.meter_core.specs.Meters.{is_within};
ghost use Rattle.meter_apart.specs.declared.answers.Noted.{Noted};
ghost use Rattle.meter_apart.specs.Kept.{KeepsNotes};
ghost use Rattle.meter_apart.specs.Parts.{takes_part, members_in};
ghost use Rattle.meter_apart.specs.Replies.{standing, is_answer, reading_frame, answer_frame};

use crate::answers::{FrameRefusal, Noted, ReadingRefusal};
use crate::keys::MeterKeys;
use crate::part::Part;
use blind_core::{answer, masked};
use group_plan::Kind;
use meter_core::{Heard, Meter};
use meter_frames::Frame;
use missing_round::MeterSet;
use std::alloc::{AllocError, Global};

/// A meter that stands apart: the readings that were marked, and what it has heard of each round. It takes the memory of the
/// rounds when it begins, and no more whatever comes.
#[derive(Drop)]
pub struct MeterApart {
    keys: MeterKeys,
    /// The reading that was marked for each round, in watt-hours.
    readings: Vec<Option<u64>>,
    core: Meter,
    ghost keeps: { KeepsNotes keys.part readings.items core },
}

/// No reading of any round.
fn no_readings(alloc: Global, rounds: usize) -> Result<Vec<Option<u64>>, AllocError>
    ensures { IfOk result (λ readings. readings.items ≡ replicate rounds None) }
{
    vec![in alloc; None; rounds]
}

/// Whether a set is answered for the first time.
fn is_answer(heard: Heard) -> bool
    ensures { result ≡ is_answer heard }
{
    match heard {
        Heard::Answer => true,
        Heard::AnswerAgain | Heard::Refused(_) => false,
    }
}

impl MeterApart {
    ghost use Rattle.meter_apart.specs.Meter.{meter_keys, meter_part, meter_masks, IsAfter, SaysReading, SaysAnswer, Follows, MarksReading, HearsSet};

    /// A meter before its first reading.
    pub fn new(alloc: Global, keys: MeterKeys) -> Result<MeterApart, AllocError>
        ensures keys { IfOk result (λ made. meter_keys made ≡ keys) }
        ensures state { IfOk result (λ made. IsAfter [] made) }
    {
        let part = keys.part();
        let readings = no_readings(alloc, part.rounds() as usize)?;
        let core = Meter::new(alloc, part.meter(), part.floor(), part.rounds())?;
        Ok(MeterApart {
            keys,
            readings,
            core,
        })
    }

    /// What the meter has of its plan.
    pub fn part(&self) -> &Part
        ensures { result.now ≡ meter_part self.now }
    {
        self.keys.part()
    }

    /// Says the frame of a reading, in watt-hours. The first reading of a round is marked, and no other one is said.
    pub fn read(&mut self, round: u32, reading: u64) -> Result<Frame, ReadingRefusal>
        ensures keys { meter_keys self.new ≡ meter_keys self.old }
        ensures says { (journal : List Noted) → IsAfter journal self.old → SaysReading self.old journal round reading result self.new }
    {
        match self.standing(round, reading) {
            Err(refusal) => Err(refusal),
            Ok(None) => {
                self.mark(round, reading);
                Ok(self.reading_frame(round, reading))
            }
            Ok(Some(before)) => {
                if before == reading {
                    Ok(self.reading_frame(round, reading))
                } else {
                    Err(ReadingRefusal::Twice)
                }
            }
        }
    }

    /// Answers an announcement. The first set that it answers in a round is kept, and it answers no other one.
    pub fn hear(&mut self, frame: &Frame) -> Result<Frame, FrameRefusal>
        ensures keys { meter_keys self.new ≡ meter_keys self.old }
        ensures says { (journal : List Noted) → IsAfter journal self.old → SaysAnswer self.old journal frame.now result self.new }
    {
        let tag = frame.tag;
        if !self.keys.part.is_to_me(tag) {
            return Err(FrameRefusal::Tag);
        }
        match self.hear_set(tag.round, &frame.missing) {
            Heard::Answer => Ok(self.answer_frame(tag.round, &frame.missing)),
            Heard::AnswerAgain => Ok(self.answer_frame(tag.round, &frame.missing)),
            Heard::Refused(why) => Err(FrameRefusal::Why(why)),
        }
    }

    /// Goes on by a line of a journal, and answers whether it can follow those before it. Another line changes nothing.
    pub fn follow(&mut self, line: &Noted) -> bool
        ensures keys { meter_keys self.new ≡ meter_keys self.old }
        ensures follows { (journal : List Noted) → IsAfter journal self.old → Follows self.old journal line.now result self.new }
    {
        match line {
            Noted::Read { round, reading } => self.follow_reading(*round, *reading),
            Noted::Kept { round, set } => is_answer(self.hear_set(*round, set)),
        }
    }

    // What stops a reading, or else the one that was marked for the round before.
    fn standing(&self, round: u32, reading: u64) -> Result<Option<u64>, ReadingRefusal>
        ensures { result ≡ standing (meter_part self.now) (slice_index_or self.now.readings.items round None) round reading }
    {
        if !self.keys.part.takes_part(round) {
            return Err(ReadingRefusal::Round);
        }
        if reading >= 1 << 40 {
            return Err(ReadingRefusal::Range);
        }
        Ok(self.readings[round as usize])
    }

    // Marks the first reading of a round.
    fn mark(&mut self, round: u32, reading: u64)
        requires member { takes_part (meter_part self.old) round ≡ true }
        requires first { slice_index_or self.old.readings.items round None ≡ None }
        ensures { MarksReading self.old round reading self.new }
    {
        let members = self.keys.part.members(round);
        self.readings[round as usize] = Some(reading);
        self.core.mark_read(round, &members);
    }

    // Marks the reading of a journal's line, and answers whether it is the first of its round.
    fn follow_reading(&mut self, round: u32, reading: u64) -> bool
        ensures keys { meter_keys self.new ≡ meter_keys self.old }
        ensures follows { (journal : List Noted) → IsAfter journal self.old → Follows self.old journal (Noted.Read round reading) result self.new }
    {
        match self.standing(round, reading) {
            Ok(None) => {
                self.mark(round, reading);
                true
            }
            Ok(Some(_)) | Err(_) => false,
        }
    }

    // Hears of a missing set.
    fn hear_set(&mut self, round: u32, set: &MeterSet) -> Heard
        ensures { HearsSet self.old round set.now result self.new }
    {
        self.core.hear(round, set)
    }

    // The frame of a reading.
    fn reading_frame(&self, round: u32, reading: u64) -> Frame
        requires member { takes_part (meter_part self.now) round ≡ true }
        requires small { reading < 2 ^ 40 }
        ensures { result ≡ reading_frame (meter_part self.now) (meter_masks self.now) round reading }
    {
        let members = self.keys.part.members(round);
        Frame {
            tag: self.keys.part.own_tag(Kind::Reading, round),
            missing: MeterSet::empty(),
            word: masked(
                &self.keys,
                0,
                &members,
                round,
                self.keys.part.meter(),
                reading,
            ),
        }
    }

    // The frame of an answer.
    fn answer_frame(&self, round: u32, missing: &MeterSet) -> Frame
        requires round { round < (meter_part self.now).home.rounds }
        requires within { is_within missing.now (members_in (meter_part self.now) round) ≡ true }
        requires other { is_member (meter_part self.now).meter missing.now ≡ false }
        ensures { result ≡ answer_frame (meter_part self.now) (meter_masks self.now) round missing.now }
    {
        Frame {
            tag: self.keys.part.own_tag(Kind::Answer, round),
            missing: *missing,
            word: answer(&self.keys, 0, round, self.keys.part.meter(), missing),
        }
    }
}
