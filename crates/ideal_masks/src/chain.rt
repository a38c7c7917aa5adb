//! The chain of a round: of the survivors outside a pool those that answered, ascending, and the least silent one.
ghost use Rattle.std.specs.Prelude.{◌≡◌, ◌&&◌, IsTrue};
ghost use Rattle.missing_round.specs.Sets.{is_member};
ghost use Rattle.std.specs.List.{filter};
ghost use Rattle.event_schedule.specs.Schedule.{is_answer_sent};
ghost use Rattle.group_book.specs.Books.{shape_of, past, has_round};
ghost use Rattle.ideal_masks.specs.Pools.{Pool, pool_of, others as others_of};
ghost use Rattle.ideal_masks.specs.Chains.{IsChain, IsOpenTo, IsOpened};

use crate::pool::known_in;
use group_book::Book;
use group_plan::{Kind, Tag};
use missing_round::MeterSet;

/// An announced round: its survivors outside the pool, those of them that sent their answer, and the least that sent none.
#[derive(Clone, Copy)]
pub struct Chain {
    pub others: MeterSet,
    pub answered: MeterSet,
    pub end: Option<u8>,
}

/// A pair word that moves, by its higher meter.
#[derive(Clone, Copy)]
pub(crate) struct Link {
    pub high: u8,
    pub by: u64,
}

/// Whether the meter sent its answer.
pub(crate) fn is_answer_sent(book: &Book, group: u16, round: u32, meter: u8) -> bool
    ensures { result ≡ is_answer_sent (shape_of book.now) group round meter (past book.now) }
{
    let tag = Tag {
        group,
        round,
        meter,
        kind: Kind::Answer,
    };
    book.posted(tag).is_some()
}

// Whether the meter is one of these survivors, and sent its answer.
fn has_answered(book: &Book, group: u16, round: u32, others: MeterSet, meter: u8) -> bool
    ensures { result ≡ (is_member meter others && is_answer_sent (shape_of book.now) group round meter (past book.now)) }
{
    others.has(meter) && is_answer_sent(book, group, round, meter)
}

// Those of the survivors outside a pool that sent their answer.
fn answered(book: &Book, group: u16, round: u32, others: MeterSet) -> MeterSet
    ensures { (pool : Pool) → others ≡ others_of pool (shape_of book.now) group round (past book.now) →
        result ≡ filter (λ i. is_answer_sent (shape_of book.now) group round i (past book.now)) others }
{
    let mut answered = MeterSet::empty();
    for meter in 0..book.plan().meters(group) {
        if has_answered(book, group, round, others, meter as u8) {
            answered = answered.with(meter as u8);
        }
    }
    answered
}

/// The chain of a round for a pool, where the round is announced.
pub fn chain_of(book: &Book, known: &[MeterSet], group: u16, round: u32) -> Option<Chain>
    requires { IsTrue (has_round book.now group round) }
    ensures { IsChain (pool_of known.now) (shape_of book.now) group round (past book.now) result }
{
    if book.announced(group, round).is_none() {
        return None;
    }
    let survivors = book.outcome(group, round).survivors;
    let others = survivors.minus(known_in(known, group));
    let answered = answered(book, group, round, others);
    Some(Chain {
        others,
        answered,
        end: others.minus(answered).nth(0),
    })
}

/// The survivors of a round outside a pool, where the round is open to it: it is announced, and all of them sent their answer.
pub(crate) fn open_others(
    book: &Book,
    known: &[MeterSet],
    group: u16,
    round: u32,
) -> Option<MeterSet>
    requires { IsTrue (has_round book.now group round) }
    ensures { IsOpenTo (pool_of known.now) (shape_of book.now) group round (past book.now) result }
{
    let Some(chain) = chain_of(book, known, group, round) else {
        return None;
    };
    if chain.answered != chain.others {
        return None;
    }
    Some(chain.others)
}

/// The survivors of a round, where it is opened: it is announced, and all of them sent their answer.
pub fn opened_survivors(book: &Book, group: u16, round: u32) -> Option<MeterSet>
    requires { IsTrue (has_round book.now group round) }
    ensures { IsOpened (shape_of book.now) group round (past book.now) result }
{
    open_others(book, &[], group, round)
}
