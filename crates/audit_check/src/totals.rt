//! Frame totals, by the posted frames of each round.

ghost use Rattle.std.specs.Prelude.{◌≡◌, ◌-◌, ◌*◌, ◌^◌, ◌≤◌, length, sum_by, IsTrue};
ghost use Rattle.missing_round.specs.Words.{word};
ghost use Rattle.event_schedule.specs.Frames.{word_or_zero, first_word, contents_of_lines};
ghost use Rattle.group_book.specs.Books.{has_round};
ghost use Rattle.audit_check.specs.Answers.{MayOpen};
ghost use Rattle.audit_check.specs.Deciding.{Decides};

use audit_rounds::Rounds;
use group_plan::{Kind, Tag};
use meter_frames::Frame;
use missing_round::MeterSet;
use mod_word::Word;

/// The most that one reading can be, in watt-hours.
const MOST: u64 = (1 << 40) - 1;

// The word of a posted frame; a meter that sent none counts for nothing.
fn word_or_zero(posted: Option<Frame>) -> Word
    ensures { result ≡ word_or_zero posted }
{
    match posted {
        Some(frame) => frame.word,
        None => Word(0),
    }
}

// The sum of the words that these meters sent under a kind.
fn sum_of(rounds: &Rounds, group: u16, round: u32, kind: Kind, meters: MeterSet) -> Word
    ensures { result ≡ word (sum_by (λ i. first_word group round i kind rounds.now.journal) meters) }
{
    let mut sum = Word(0);
    for meter in meters.members() {
        let tag = Tag {
            group,
            round,
            meter,
            kind,
        };
        sum = sum.add(word_or_zero(rounds.posted(tag)));
    }
    sum
}

// The sum of the reading words of these meters less the sum of their answer words.
fn frame_total(rounds: &Rounds, group: u16, round: u32, meters: MeterSet) -> u64
    ensures { result ≡ (contents_of_lines rounds.now.journal).total group round meters }
{
    let readings = sum_of(rounds, group, round, Kind::Reading, meters);
    let answers = sum_of(rounds, group, round, Kind::Answer, meters);
    readings.sub(answers).value()
}

// Whether the frame total of these meters is no more than their readings can be.
fn is_within(rounds: &Rounds, group: u16, round: u32, meters: MeterSet) -> bool
    ensures { Decides ((contents_of_lines rounds.now.journal).total group round meters ≤ (2 ^ 40 - 1) * length meters) result }
{
    frame_total(rounds, group, round, meters) <= MOST * u64::from(meters.len())
}

fn is_same(one: MeterSet, other: MeterSet) -> bool
    ensures { Decides (one ≡ other) result }
{
    one == other
}

/// Whether the meters that have answered don't open the round, or its frame total is no more than the survivors' readings can be.
pub(crate) fn may_open(rounds: &Rounds, group: u16, round: u32, answered: MeterSet) -> bool
    requires { IsTrue (has_round rounds.now group round) }
    ensures { MayOpen rounds.now group round answered result }
{
    let survivors = rounds.outcome(group, round).survivors;
    if is_same(survivors, answered) {
        is_within(rounds, group, round, survivors)
    } else {
        true
    }
}
