//! The survivors of a round on their ring, and their components.
ghost use Rattle.std.specs.Prelude.{◌≡◌, ◌<◌, ◌||◌, ℕ, nat_lt, true, [], IsTrue, IfOk, length, replicate, slice_index_or, if◌then◌else◌};
ghost use Rattle.std.specs.List.{list_all, list_any};
ghost use Rattle.missing_round.specs.Sets.{is_member};
ghost use Rattle.sparse_masks.specs.Trees.{joined_to, touches, widened, around};
ghost use Rattle.group_book.specs.Books.{shape_of, past, has_round};
ghost use Rattle.sparse_masks.specs.Rounds.{graph_of, IsRingRound, AreJoined, AreComponents, RoundEnds};

use crate::neighbours::neighbours_among;
use group_book::Book;
use ideal_masks::chain_of;
use missing_round::MeterSet;
use std::alloc::{AllocError, Global};

/// An announced round of a group: its survivors, and those of them that sent their answer.
#[derive(Clone, Copy)]
pub(crate) struct Round {
    /// How many places away a neighbour is at most.
    pub width: u8,
    /// How many meters the group has.
    pub meters: u32,
    pub survivors: MeterSet,
    pub answered: MeterSet,
}

// Whether one of these meters is in the set.
fn meets(meters: MeterSet, set: MeterSet) -> bool
    ensures { result ≡ list_any (λ i. is_member i set) meters }
{
    for meter in meters.members() {
        if set.has(meter) {
            return true;
        }
    }
    false
}

// Puts the set in the place of each of its meters.
fn put_each(set: MeterSet, sets: &mut [MeterSet])
    requires { list_all (λ i. nat_lt i (length sets.old)) set ≡ true }
    ensures long { length sets.new ≡ length sets.old }
    ensures each { (i : ℕ) → slice_index_or sets.new i [] ≡ (if is_member i set then set else slice_index_or sets.old i []) }
{
    for meter in set.members() {
        sets[meter as usize] = set;
    }
}

// An empty set for each of so many meters.
fn no_sets(alloc: Global, meters: usize) -> Result<Vec<MeterSet>, AllocError>
    ensures { IfOk result (λ sets. sets.items ≡ replicate meters []) }
{
    vec![in alloc; MeterSet::empty(); meters]
}

/// A round of a book, where it is announced.
pub(crate) fn round_of(book: &Book, width: u8, group: u16, round: u32) -> Option<Round>
    requires { IsTrue (has_round book.now group round) }
    ensures { RoundEnds width (shape_of book.now) group round (past book.now) result }
{
    let Some(chain) = chain_of(book, &[], group, round) else {
        return None;
    };
    Some(Round {
        width,
        meters: book.plan().meters(group),
        survivors: chain.others,
        answered: chain.answered,
    })
}

impl Round {
    /// Whether each of these survivors answered.
    pub(crate) fn is_opened(&self, component: MeterSet) -> bool
        ensures { result ≡ list_all (graph_of self.now).answered component }
    {
        component.minus(self.answered).len() == 0
    }

    // The survivors with which a meter is joined.
    fn joined_to(&self, meter: u8) -> MeterSet
        ensures { result ≡ joined_to (graph_of self.now) meter }
    {
        neighbours_among(self.width, self.meters, meter, &self.survivors)
    }

    /// By meter, the survivors with which it is joined.
    pub(crate) fn all_joined(&self, alloc: Global) -> Result<Vec<MeterSet>, AllocError>
        requires { IsRingRound self.now }
        ensures { IfOk result (λ sets. AreJoined self.now sets.items) }
    {
        let mut sets = Vec::new(alloc);
        for meter in 0..self.meters {
            sets.push(self.joined_to(meter as u8))?;
        }
        Ok(sets)
    }

    // Whether the meter is in the set, or touches it.
    fn is_near(&self, joined: &[MeterSet], set: MeterSet, meter: u8) -> bool
        requires joined { AreJoined self.now joined.now }
        requires meter { meter < self.now.meters }
        ensures { result ≡ (is_member meter set || touches (graph_of self.now) set meter) }
    {
        set.has(meter) || meets(joined[meter as usize], set)
    }

    // The set, and the survivors that touch it.
    pub(crate) fn widened(&self, joined: &[MeterSet], set: MeterSet) -> MeterSet
        requires round { IsRingRound self.now }
        requires joined { AreJoined self.now joined.now }
        ensures { result ≡ widened (graph_of self.now) set }
    {
        let mut wider = self.survivors;
        for meter in self.survivors.members() {
            if !self.is_near(joined, set, meter) {
                wider = wider.without(meter);
            }
        }
        wider
    }

    // The meter alone, where it is a survivor.
    pub(crate) fn alone(&self, meter: u8) -> MeterSet
        ensures { result ≡ around (graph_of self.now) meter 0 }
    {
        self.survivors.minus(self.survivors.without(meter))
    }

    // Puts in the place of each meter its component.
    fn fill(&self, sets: &mut [MeterSet])
        requires round { IsRingRound self.now }
        requires none { sets.old ≡ replicate self.now.meters [] }
        ensures { AreComponents self.now sets.new }
    {
        for meter in self.survivors.members() {
            if sets[meter as usize].len() == 0 {
                put_each(self.component(meter), sets);
            }
        }
    }

    /// By meter, its component.
    pub(crate) fn components(&self, alloc: Global) -> Result<Vec<MeterSet>, AllocError>
        requires { IsRingRound self.now }
        ensures { IfOk result (λ sets. AreComponents self.now sets.items) }
    {
        let mut sets = no_sets(alloc, self.meters as usize)?;
        self.fill(sets.as_mut_slice());
        Ok(sets)
    }
}
