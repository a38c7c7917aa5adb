//! One round as a book keeps it.

ghost use Rattle.std.specs.Prelude.{◌≡◌, ◌≤◌, [], IsTrue};
ghost use Rattle.missing_round.specs.Sets.{is_member};
ghost use Rattle.group_plan.specs.declared.Kind.TheVariants.{Announcement};
ghost use Rattle.round_machine.specs.Rounds.{new_round, Closes, Ends};
ghost use Rattle.group_book.specs.Pages.{announced_in, state_in, can_take, PageTakes};

use crate::OutcomeState;
use group_plan::Kind;
use missing_round::MeterSet;
use mod_word::Word;
use round_machine::{Closing, Ending, Round, Verdict};
use std::marker::Model;

/// The round, who took its announcement, and what was announced and has come of it.
#[derive(Clone, Copy)]
pub(crate) struct Page {
    round: Round,
    told: MeterSet,
    announced: Option<MeterSet>,
    state: OutcomeState,
}

impl Model for Page {
    ghost use Rattle.std.specs.Prelude.{true};
    ghost use Rattle.group_book.specs.Pages.{PageView, announced_in, state_in, Keeps};

    ghost Value = { PageView };

    ghost view = { λ p. record { round = p.round; told = p.told } };

    ghost invariant = { λ p. Keeps p.round p.announced p.state };

    ghost inverse = { λ v. record { round = v.round; told = v.told; announced = announced_in v.round; state = state_in v.round } };

    ghost inverse_ok = { λ p keeps. λ k. record { round = p.round; told = p.told; announced = keeps.announced k; state = keeps.state k } };
}

impl Page {
    /// A round that is open and has taken no frame.
    pub fn new(members: MeterSet, floor: u16) -> Page
        requires least { 2 ≤ floor }
        requires most { floor ≤ 256 }
        ensures { result ≡ record { round = new_round members floor; told = [] } }
    {
        Page {
            round: Round::new(members, floor),
            told: MeterSet::empty(),
            announced: None,
            state: OutcomeState::Running,
        }
    }

    /// The missing set, where it was announced.
    pub fn announced(&self) -> Option<MeterSet>
        ensures { result ≡ announced_in self.now.round }
    {
        self.announced
    }

    /// The meters whose reading was taken.
    pub fn survivors(&self) -> MeterSet
        ensures { result ≡ self.now.round.taken }
    {
        self.round.survivors()
    }

    /// Whether the meter took its announcement.
    pub fn is_told(&self, meter: u8) -> bool
        ensures { result ≡ is_member meter self.now.told }
    {
        self.told.has(meter)
    }

    /// What the round has come to.
    pub fn state(&self) -> OutcomeState
        ensures { result ≡ state_in self.now.round }
    {
        self.state
    }

    /// Takes a frame that was sent with effect.
    pub fn take(&mut self, kind: Kind, meter: u8, word: Word) -> Verdict
        requires { IsTrue (can_take kind self.old meter) }
        ensures { PageTakes self.old kind meter word result self.new }
    {
        match kind {
            Kind::Reading => self.round.take_reading(meter, word),
            Kind::Announcement => self.tell(meter),
            Kind::Answer => self.round.take_answer(meter, word),
        }
    }

    /// Takes the announcement of a meter.
    fn tell(&mut self, meter: u8) -> Verdict
        ensures { PageTakes self.old Announcement meter 0 result self.new }
    {
        if self.told.has(meter) {
            return Verdict::Again;
        }
        self.told = self.told.with(meter);
        Verdict::Fresh
    }

    /// Closes the round, and keeps the missing set where it is announced.
    pub fn close(&mut self) -> Closing
        ensures round { Closes self.old.round result self.new.round }
        ensures told { self.new.told ≡ self.old.told }
    {
        let closing = self.round.close();
        if let Closing::Announced(missing) = closing {
            self.announced = Some(missing);
        }
        closing
    }

    /// Ends the round, and keeps what it came to.
    pub fn end(&mut self) -> Ending
        ensures round { Ends self.old.round result self.new.round }
        ensures told { self.new.told ≡ self.old.told }
    {
        let ending = self.round.end();
        match ending {
            Ending::Total(sum) => self.state = OutcomeState::Total(sum),
            Ending::Lacking(set) => self.state = OutcomeState::Lacking(set),
            Ending::Thin => self.state = OutcomeState::Thin,
            Ending::Already | Ending::NotClosed => {}
        }
        ending
    }
}
