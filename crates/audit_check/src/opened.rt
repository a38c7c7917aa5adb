//! The opened rounds: how many have no total, and the fewest survivors of any.

ghost use Rattle.std.specs.Prelude.{◌≡◌, ◌*◌, ◌^◌, ◌<◌, ◌≤◌, if◌then◌else◌, IsTrue, None, length};
ghost use Rattle.std.specs.List.{list_all};
ghost use Rattle.event_schedule.specs.Schedule.{is_answer_sent};
ghost use Rattle.group_book.specs.Books.{has_round, shape_of, past};
ghost use Rattle.audit_check.specs.OpenedParts.{IsOpenedBy, published_by, IsFewer, CountsRound, HasFewest, CountsGroup, AreCountedBy};

use audit_rounds::Rounds;
use group_book::OutcomeState;
use group_plan::{Kind, Tag};
use missing_round::MeterSet;

/// What the opened rounds of a transcript come to.
#[derive(Clone, Copy)]
pub struct OpenedRounds {
    /// How many of them have no total.
    pub without_total: u32,
    /// The fewest survivors of any of them, with a total or without; none where no round is opened.
    pub fewest: Option<u16>,
}

// Whether a meter has sent its answer.
fn has_answered(rounds: &Rounds, group: u16, round: u32, meter: u8) -> bool
    ensures { result ≡ is_answer_sent (shape_of rounds.now) group round meter (past rounds.now) }
{
    let tag = Tag {
        group,
        round,
        meter,
        kind: Kind::Answer,
    };
    rounds.posted(tag).is_some()
}

// Whether all of these meters have sent their answer.
fn have_answered(rounds: &Rounds, group: u16, round: u32, meters: MeterSet) -> bool
    ensures { result ≡ list_all (λ i. is_answer_sent (shape_of rounds.now) group round i (past rounds.now)) meters }
{
    for meter in meters.members() {
        if !has_answered(rounds, group, round, meter) {
            return false;
        }
    }
    true
}

// The survivors of a round, where it is opened: it is announced, and all of them have sent their answer.
fn opened_survivors(rounds: &Rounds, group: u16, round: u32) -> Option<MeterSet>
    requires { IsTrue (has_round rounds.now group round) }
    ensures { IsOpenedBy rounds.now group round result }
{
    if rounds.announced(group, round).is_none() {
        return None;
    }
    let survivors = rounds.outcome(group, round).survivors;
    if have_answered(rounds, group, round, survivors) {
        Some(survivors)
    } else {
        None
    }
}

// 0 where the total of a round is published, and else 1.
fn without_total(rounds: &Rounds, group: u16, round: u32) -> u32
    requires { IsTrue (has_round rounds.now group round) }
    ensures { result ≡ (if published_by rounds.now group round then 0 else 1) }
{
    match rounds.outcome(group, round).state {
        OutcomeState::Total(_) => 0,
        OutcomeState::Running => 1,
        OutcomeState::Lacking(_) => 1,
        OutcomeState::Thin => 1,
    }
}

// The fewer of some survivors, where there are any, and of those of one round more.
fn fewer(fewest: Option<u16>, survivors: u16) -> u16
    ensures { IsFewer fewest survivors result }
{
    match fewest {
        None => survivors,
        Some(fewest) => if fewest <= survivors {
            fewest
        } else {
            survivors
        },
    }
}

impl OpenedRounds {
    // No round is counted.
    fn none() -> OpenedRounds
        ensures { result ≡ record { without_total = 0; fewest = None } }
    {
        OpenedRounds {
            without_total: 0,
            fewest: None,
        }
    }

    // Counts a round, where it is opened.
    fn count(&mut self, rounds: &Rounds, group: u16, round: u32)
        requires known { IsTrue (has_round rounds.now group round) }
        requires few { self.old.without_total < 2 ^ 31 }
        ensures { CountsRound rounds.now group round self.old self.new }
    {
        let Some(survivors) = opened_survivors(rounds, group, round) else {
            return;
        };
        self.without_total += without_total(rounds, group, round);
        self.fewest = Some(fewer(self.fewest, survivors.len()));
    }

    // Counts the rounds of a group.
    fn count_group(&mut self, rounds: &Rounds, group: u16)
        requires group { group < length rounds.now.presence.plan.groups }
        requires few { self.old.without_total ≤ group * 4096 }
        requires before { HasFewest rounds.now group 0 self.old.fewest }
        ensures { CountsGroup rounds.now group self.old self.new }
    {
        for round in 0..rounds.plan().rounds() {
            self.count(rounds, group, round);
        }
    }
}

/// The opened rounds.
pub(crate) fn opened_rounds(rounds: &Rounds) -> OpenedRounds
    ensures { AreCountedBy rounds.now result }
{
    let mut opened = OpenedRounds::none();
    for group in 0..rounds.plan().groups().len() {
        opened.count_group(rounds, group as u16);
    }
    opened
}
