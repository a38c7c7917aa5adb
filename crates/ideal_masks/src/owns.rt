//! The own words of a round that move, and all its moved words.
ghost use Rattle.std.specs.Prelude.{◌≡◌, ◌<◌, ◌++◌, false, sum_by, OnOk};
ghost use Rattle.missing_round.specs.Words.{word};
ghost use Rattle.pair_keys.specs.declared.KeyId.TheVariants.{Own};
ghost use Rattle.group_book.specs.Books.{shape_of, past};
ghost use Rattle.event_schedule.specs.Schedule.{is_announced};
ghost use Rattle.ideal_masks.specs.Chains.{IsCompared, IsChainOf, pool_in, size_of, deltas_of, others_moves_of, own_moves_of, owns_of, pairs_of};

use crate::Offset;
use crate::chain::{Chain, chain_of, is_answer_sent};
use crate::compared::Compared;
use crate::moved::push_moved;
use pair_keys::KeyId;
use std::alloc::AllocError;

impl<'a> Compared<'a> {
    // By how much the own word of a meter outside the pool moves in an announced round: `total` is the sum of the deltas of
    // those of its chain that answered.
    fn others_move(&self, chain: &Chain, total: u64, meter: u8) -> u64
        requires compared { IsCompared self.now }
        requires chain { IsChainOf (pool_in self.now) (shape_of self.now.book.now) self.now.group self.now.round (past self.now.book.now) chain.now }
        requires total { total ≡ word (sum_by (deltas_of self.now) chain.now.answered) }
        requires meter { meter < size_of self.now }
        ensures { result ≡ word (others_moves_of self.now meter) }
    {
        if is_answer_sent(self.book, self.group, self.round, meter) {
            0
        } else if chain.end == Some(meter) {
            self.delta(meter).wrapping_add(total)
        } else {
            self.delta(meter)
        }
    }

    // By how much the own word of a meter moves in an announced round.
    fn own_move(&self, chain: &Chain, total: u64, meter: u8) -> u64
        requires compared { IsCompared self.now }
        requires chain { IsChainOf (pool_in self.now) (shape_of self.now.book.now) self.now.group self.now.round (past self.now.book.now) chain.now }
        requires total { total ≡ word (sum_by (deltas_of self.now) chain.now.answered) }
        requires meter { meter < size_of self.now }
        ensures { result ≡ word (own_moves_of self.now meter) }
    {
        if self.is_known(meter) {
            0
        } else {
            self.others_move(chain, total, meter)
        }
    }

    // The key whose words are the meter's own.
    fn own_id(&self, meter: u8) -> KeyId
        ensures { result ≡ Own self.now.group meter }
    {
        KeyId::Own {
            group: self.group.into(),
            meter: meter.into(),
        }
    }

    // Adds the own words that move in an announced round, by meter.
    fn add_owns(&self, chain: &Chain, total: u64, moves: &mut Vec<Offset>) -> Result<(), AllocError>
        requires compared { IsCompared self.now }
        requires chain { IsChainOf (pool_in self.now) (shape_of self.now.book.now) self.now.group self.now.round (past self.now.book.now) chain.now }
        requires total { total ≡ word (sum_by (deltas_of self.now) chain.now.answered) }
        ensures { OnOk result (moves.new.items ≡ moves.old.items ++ owns_of self.now) }
    {
        for meter in 0..self.meters() {
            let by = self.own_move(chain, total, meter as u8);
            push_moved(self.own_id(meter as u8), self.round, by, moves)?;
        }
        Ok(())
    }

    // Adds the own words that move in a round that isn't announced, by meter.
    fn add_deltas(&self, moves: &mut Vec<Offset>) -> Result<(), AllocError>
        requires compared { IsCompared self.now }
        requires open { is_announced (shape_of self.now.book.now) self.now.group self.now.round (past self.now.book.now) ≡ false }
        ensures { OnOk result (moves.new.items ≡ moves.old.items ++ owns_of self.now) }
    {
        for meter in 0..self.meters() {
            let by = self.own_delta(meter as u8);
            push_moved(self.own_id(meter as u8), self.round, by, moves)?;
        }
        Ok(())
    }

    /// Adds the words of the round that move: own words, and then pair words.
    pub(crate) fn add_round(&self, moves: &mut Vec<Offset>) -> Result<(), AllocError>
        requires { IsCompared self.now }
        ensures { OnOk result (moves.new.items ≡ moves.old.items ++ (owns_of self.now ++ pairs_of self.now)) }
    {
        let Some(chain) = chain_of(self.book, self.known, self.group, self.round) else {
            return self.add_deltas(moves);
        };
        let total = self.sum_of_deltas(chain.answered);
        self.add_owns(&chain, total, moves)?;
        self.add_pairs(&chain, total, moves)
    }
}
