//! One round of a group: its verdicts, its closing, its ending and its total.
#![tactic(auto)]

ghost use Rattle.std.specs.Prelude.{◌≡◌, ◌≤◌, true};
ghost use Rattle.missing_round.specs.Sets.{is_member};
ghost use Rattle.round_machine.specs.Rounds.{new_round, TakesReading, has_floor, total, Closes, TakesAnswer, Ends};

pub mod laws;

use missing_round::MeterSet;
use mod_word::Word;
use std::marker::Model;

/// What became of a frame that was taken.
#[derive(Clone, Copy, Debug, PartialEq, Eq)]
pub enum Verdict {
    /// The first of its kind from this meter, and in time.
    Fresh,
    /// One of its kind from this meter was Fresh before.
    Again,
    /// After the close, for a reading; after the end, for an answer.
    Late,
    /// Not asked for: no such frame was sent with effect, or the meter is no survivor of an announced round.
    Void,
}

/// What became of a close.
#[derive(Clone, Copy, Debug, PartialEq, Eq)]
pub enum Closing {
    /// There are enough survivors; this is the missing set that they are told.
    Announced(MeterSet),
    /// There are fewer survivors than the floor; this is the missing set.
    Thin(MeterSet),
    /// The round was closed before.
    Already,
}

/// What became of an end.
#[derive(Clone, Copy, Debug, PartialEq, Eq)]
pub enum Ending {
    /// The sum of the readings of the survivors, in watt-hours.
    Total(u64),
    /// The survivors whose answer was not taken; nothing is published.
    Lacking(MeterSet),
    /// There are fewer survivors than the floor; nothing is published.
    Thin,
    /// The round had ended before.
    Already,
    /// The round is not closed.
    NotClosed,
}

/// One round of one group. It keeps two sums of words and no word.
#[derive(Clone, Copy)]
pub struct Round {
    members: MeterSet,
    floor: u16,
    taken: MeterSet,
    answered: MeterSet,
    closed: bool,
    ended: bool,
    reading_sum: Word,
    answer_sum: Word,
}

impl Model for Round {
    ghost use Rattle.round_machine.specs.Rounds.{RoundView};

    ghost Value = { RoundView };

    ghost view = { λ r. record { members = r.members; floor = r.floor; taken = r.taken; answered = r.answered; closed = r.closed; ended = r.ended; reading_sum = r.reading_sum; answer_sum = r.answer_sum } };

    ghost inverse = { λ s. record { members = s.members; floor = s.floor; taken = s.taken; answered = s.answered; closed = s.closed; ended = s.ended; reading_sum = s.reading_sum; answer_sum = s.answer_sum } };
}

impl Round {
    /// A round over these members, which is thin with fewer survivors than `floor`.
    pub fn new(members: MeterSet, floor: u16) -> Round
        requires least { 2 ≤ floor }
        requires most { floor ≤ 256 }
        ensures { result ≡ new_round members floor }
    {
        Round {
            members,
            floor,
            taken: MeterSet::empty(),
            answered: MeterSet::empty(),
            closed: false,
            ended: false,
            reading_sum: Word(0),
            answer_sum: Word(0),
        }
    }

    /// Takes the reading word of a meter.
    pub fn take_reading(&mut self, meter: u8, word: Word) -> Verdict
        requires { is_member meter self.old.members ≡ true }
        ensures { TakesReading self.old meter word result self.new }
    {
        if self.taken.has(meter) {
            Verdict::Again
        } else if self.closed {
            Verdict::Late
        } else {
            self.taken = self.taken.with(meter);
            self.reading_sum = self.reading_sum.add(word);
            Verdict::Fresh
        }
    }

    /// Closes the round to readings.
    pub fn close(&mut self) -> Closing
        ensures { Closes self.old result self.new }
    {
        if self.closed {
            return Closing::Already;
        }
        self.closed = true;
        let missing = self.members.minus(self.taken);
        if self.has_floor() {
            Closing::Announced(missing)
        } else {
            Closing::Thin(missing)
        }
    }

    /// Takes the answer word of a meter.
    pub fn take_answer(&mut self, meter: u8, word: Word) -> Verdict
        requires { is_member meter self.old.members ≡ true }
        ensures { TakesAnswer self.old meter word result self.new }
    {
        if !(self.closed && self.has_floor() && self.taken.has(meter)) {
            Verdict::Void
        } else if self.answered.has(meter) {
            Verdict::Again
        } else if self.ended {
            Verdict::Late
        } else {
            self.answered = self.answered.with(meter);
            self.answer_sum = self.answer_sum.add(word);
            Verdict::Fresh
        }
    }

    /// Ends the round.
    pub fn end(&mut self) -> Ending
        ensures { Ends self.old result self.new }
    {
        if !self.closed {
            return Ending::NotClosed;
        }
        if self.ended {
            return Ending::Already;
        }
        self.ended = true;
        if !self.has_floor() {
            return Ending::Thin;
        }
        let lacking = self.taken.minus(self.answered);
        if lacking.len() > 0 {
            return Ending::Lacking(lacking);
        }
        Ending::Total(self.total())
    }

    /// The meters whose reading was taken.
    pub fn survivors(&self) -> MeterSet
        ensures { result ≡ self.now.taken }
    {
        self.taken
    }

    /// Whether there are as many survivors as the floor asks.
    fn has_floor(&self) -> bool
        ensures { result ≡ has_floor self.now }
    {
        self.taken.len() >= self.floor
    }

    /// The sum of the reading words less the sum of the answer words.
    fn total(&self) -> u64
        ensures { result ≡ total self.now }
    {
        let readings = self.reading_sum.value();
        let answers = self.answer_sum.value();
        readings.wrapping_sub(answers)
    }
}
