//! The pair words of a round that move: those of neighbours in its chain.
ghost use Rattle.std.specs.Prelude.{◌≡◌, ◌<◌, ◌+◌, ◌-◌, ◌++◌, take, length, slice_get, sum_by, OnOk};
ghost use Rattle.std.specs.List.{flat_map, range_with_len};
ghost use Rattle.missing_round.specs.Words.{word};
ghost use Rattle.missing_round.specs.Sets.{without};
ghost use Rattle.pair_keys.specs.declared.KeyId.TheVariants.{Pair};
ghost use Rattle.group_book.specs.Books.{shape_of, past};
ghost use Rattle.ideal_masks.specs.Pools.{chain_for};
ghost use Rattle.ideal_masks.specs.Offsets.{pair_move};
ghost use Rattle.ideal_masks.specs.Moves.{moved};
ghost use Rattle.ideal_masks.specs.Chains.{IsCompared, pool_in, size_of, deltas_of, IsChainOf, IsRow, IsWalk, next_of, link_to, pairs_of};

use crate::Offset;
use crate::chain::{Chain, Link};
use crate::compared::Compared;
use crate::moved::push_moved;
use missing_round::MeterSet;
use pair_keys::KeyId;
use std::alloc::AllocError;

/// A walk along the meters of a group: those that answered and are still ahead, and the sum of the deltas of those passed.
#[derive(Clone, Copy)]
struct Walk {
    ahead: MeterSet,
    sum: u64,
}

impl Walk {
    // Passes a meter that answered.
    fn pass(&mut self, meter: u8, delta: u64)
        ensures ahead { self.new.ahead ≡ without meter self.old.ahead }
        ensures sum { self.new.sum ≡ word (self.old.sum + delta) }
    {
        self.ahead = self.ahead.without(meter);
        self.sum = self.sum.wrapping_add(delta);
    }

    // The link from a meter that answered, and is passed, to the next of the chain.
    fn next_link(&self, low: u8, end: Option<u8>) -> Option<Link>
        ensures { result ≡ link_to low self.now.sum (next_of self.now.ahead end) }
    {
        let next = match self.ahead.nth(0) {
            Some(next) => Some(next),
            None => end,
        };
        match next {
            Some(high) if low < high => Some(Link { high, by: self.sum }),
            _ => None,
        }
    }

    // The link from the silent end of the chain to the last of those ahead.
    fn last_link(&self, low: u8, by: u64) -> Option<Link>
        ensures { result ≡ link_to low by (slice_get self.now.ahead (length self.now.ahead - 1)) }
    {
        match self.ahead.nth(self.ahead.len().saturating_sub(1)) {
            Some(high) if low < high => Some(Link { high, by }),
            _ => None,
        }
    }
}

// Adds the pair word of a link.
fn add_link(
    group: u16,
    round: u32,
    low: u8,
    link: Option<Link>,
    moves: &mut Vec<Offset>,
) -> Result<(), AllocError>
    ensures { (f : _) (n : _) → IsRow f low n link →
        OnOk result (moves.new.items ≡ moves.old.items ++ flat_map (λ j. moved (Pair group low j) round (f j)) (range_with_len (low + 1) (n - (low + 1)))) }
{
    let Some(link) = link else {
        return Ok(());
    };
    let id = KeyId::Pair {
        group: group.into(),
        low: low.into(),
        high: link.high.into(),
    };
    push_moved(id, round, link.by, moves)
}

impl<'a> Compared<'a> {
    // The link of which a meter is the lower one. The walk passes the meter.
    fn link(&self, chain: &Chain, total: u64, walk: &mut Walk, low: u8) -> Option<Link>
        requires compared { IsCompared self.now }
        requires chain { IsChainOf (pool_in self.now) (shape_of self.now.book.now) self.now.group self.now.round (past self.now.book.now) chain.now }
        requires total { total ≡ word (sum_by (deltas_of self.now) chain.now.answered) }
        requires meter { low < size_of self.now }
        requires walk { IsWalk (deltas_of self.now) chain.now.answered low walk.old }
        ensures row { IsRow (pair_move (deltas_of self.now) 0 (chain_for (pool_in self.now) (shape_of self.now.book.now) self.now.group self.now.round (past self.now.book.now)) low) low (size_of self.now) result }
        ensures walk { IsWalk (deltas_of self.now) chain.now.answered (low + 1) walk.new }
    {
        if chain.answered.has(low) {
            walk.pass(low, self.delta(low));
            walk.next_link(low, chain.end)
        } else if chain.end == Some(low) {
            walk.last_link(low, 0u64.wrapping_sub(total))
        } else {
            None
        }
    }

    /// Adds the pair words that move, by the lower meter and then by the higher.
    pub(crate) fn add_pairs(
        &self,
        chain: &Chain,
        total: u64,
        moves: &mut Vec<Offset>,
    ) -> Result<(), AllocError>
        requires compared { IsCompared self.now }
        requires chain { IsChainOf (pool_in self.now) (shape_of self.now.book.now) self.now.group self.now.round (past self.now.book.now) chain.now }
        requires total { total ≡ word (sum_by (deltas_of self.now) chain.now.answered) }
        ensures { OnOk result (moves.new.items ≡ moves.old.items ++ pairs_of self.now) }
    {
        let mut walk = Walk {
            ahead: chain.answered,
            sum: 0,
        };
        for low in 0..self.meters() {
            let link = self.link(chain, total, &mut walk, low as u8);
            add_link(self.group, self.round, low as u8, link, moves)?;
        }
        Ok(())
    }
}
