//! The tree of each component of a round, and how the words of its masks move along it.
ghost use Rattle.std.specs.Prelude.{ℕ, ◌≡◌, ◌<◌, nat_lt, true, IfOk, length, sum_by, slice_index_or, if◌then◌else◌};
ghost use Rattle.std.specs.List.{filter, list_all};
ghost use Rattle.missing_round.specs.Words.{word};
ghost use Rattle.missing_round.specs.Sets.{is_member};
ghost use Rattle.mask_graphs.specs.Moves.{load};
ghost use Rattle.sparse_masks.specs.Trees.{joined_to, component, root, steps_between, parent, is_one, passes, gathered, tree_own_move, tree_pair_move};
ghost use Rattle.sparse_masks.specs.Rounds.{graph_of, IsRingRound, AreJoined, AreComponents};
ghost use Rattle.sparse_masks.specs.TreeParts.{delta_in, AreRanks, AreParents};

use crate::round::Round;
use missing_round::MeterSet;
use std::alloc::{AllocError, Global};

// Puts so many steps in the place of each of these meters.
fn put_steps(steps: u16, meters: MeterSet, ranks: &mut [u16])
    requires { list_all (λ i. nat_lt i (length ranks.old)) meters ≡ true }
    ensures long { length ranks.new ≡ length ranks.old }
    ensures each { (i : ℕ) → slice_index_or ranks.new i 0 ≡ (if is_member i meters then steps else slice_index_or ranks.old i 0) }
{
    for meter in meters.members() {
        ranks[meter as usize] = steps;
    }
}

impl Round {
    // The root of the component of a meter, which has these members.
    fn root(&self, members: MeterSet, meter: u8) -> u8
        requires { members ≡ component (graph_of self.now) meter }
        ensures { result ≡ root (graph_of self.now) meter }
    {
        let least = members.nth(0).unwrap_or(meter);
        let silent = members.minus(self.answered);
        silent.nth(0).unwrap_or(least)
    }

    // Puts in the place of each meter of a component how many steps it is from this one of them to it.
    fn put_ranks(&self, joined: &[MeterSet], from: u8, ranks: &mut [u16])
        requires round { IsRingRound self.now }
        requires joined { AreJoined self.now joined.now }
        requires long { length ranks.old ≡ self.now.meters }
        ensures long { length ranks.new ≡ length ranks.old }
        ensures each { (i : ℕ) → slice_index_or ranks.new i 0 ≡ (if is_member i (component (graph_of self.now) from) then steps_between (graph_of self.now) from i else slice_index_or ranks.old i 0) }
    {
        let mut reached = self.alone(from);
        put_steps(0, reached, ranks);
        for steps in 0..self.survivors.len() {
            let wider = self.widened(joined, reached);
            if wider == reached {
                return;
            }
            put_steps(steps + 1, wider.minus(reached), ranks);
            reached = wider;
        }
    }

    // Puts in the place of each survivor how many steps it is from its root to it.
    fn fill_ranks(&self, joined: &[MeterSet], components: &[MeterSet], ranks: &mut [u16])
        requires round { IsRingRound self.now }
        requires joined { AreJoined self.now joined.now }
        requires components { AreComponents self.now components.now }
        requires long { length ranks.old ≡ self.now.meters }
        ensures { AreRanks self.now self.now.meters ranks.new }
    {
        for meter in self.survivors.members() {
            if self.root(components[meter as usize], meter) == meter {
                self.put_ranks(joined, meter, ranks);
            }
        }
    }

    // By meter, how many steps it is from its root to it, where it is a survivor.
    fn ranks(
        &self,
        alloc: Global,
        joined: &[MeterSet],
        components: &[MeterSet],
    ) -> Result<Vec<u16>, AllocError>
        requires round { IsRingRound self.now }
        requires joined { AreJoined self.now joined.now }
        requires components { AreComponents self.now components.now }
        ensures { IfOk result (λ ranks. AreRanks self.now self.now.meters ranks.items) }
    {
        let mut ranks = vec![in alloc; 0; self.meters as usize]?;
        self.fill_ranks(joined, components, ranks.as_mut_slice());
        Ok(ranks)
    }

    // The parent of a survivor, of which these are joined to it.
    fn survivor_parent(&self, joined: MeterSet, ranks: &[u16], meter: u8) -> Option<u8>
        requires round { IsRingRound self.now }
        requires joined { joined ≡ joined_to (graph_of self.now) meter }
        requires ranks { AreRanks self.now self.now.meters ranks.now }
        requires survivor { is_member meter self.now.survivors ≡ true }
        ensures { result ≡ parent (graph_of self.now) meter }
    {
        let rank = ranks[meter as usize];
        for other in joined.members() {
            if u32::from(ranks[other as usize]) + 1 == u32::from(rank) {
                return Some(other);
            }
        }
        None
    }

    // The parent of a meter, none where it is no survivor.
    fn parent(&self, joined: &[MeterSet], ranks: &[u16], meter: u8) -> Option<u8>
        requires round { IsRingRound self.now }
        requires joined { AreJoined self.now joined.now }
        requires ranks { AreRanks self.now self.now.meters ranks.now }
        requires meter { meter < self.now.meters }
        ensures { result ≡ parent (graph_of self.now) meter }
    {
        if self.survivors.has(meter) {
            self.survivor_parent(joined[meter as usize], ranks, meter)
        } else {
            None
        }
    }

    // The same, by meter.
    fn parents_by(
        &self,
        alloc: Global,
        joined: &[MeterSet],
        ranks: &[u16],
    ) -> Result<Vec<Option<u8>>, AllocError>
        requires round { IsRingRound self.now }
        requires joined { AreJoined self.now joined.now }
        requires ranks { AreRanks self.now self.now.meters ranks.now }
        ensures { IfOk result (λ parents. AreParents self.now parents.items) }
    {
        let mut parents = Vec::new(alloc);
        for meter in 0..self.meters {
            parents.push(self.parent(joined, ranks, meter as u8))?;
        }
        Ok(parents)
    }

    /// By meter, its parent in the tree of its component; none of a root, and of a meter that is no survivor.
    pub(crate) fn parents(
        &self,
        alloc: Global,
        joined: &[MeterSet],
        components: &[MeterSet],
    ) -> Result<Vec<Option<u8>>, AllocError>
        requires round { IsRingRound self.now }
        requires joined { AreJoined self.now joined.now }
        requires components { AreComponents self.now components.now }
        ensures { IfOk result (λ parents. AreParents self.now parents.items) }
    {
        let ranks = self.ranks(alloc, joined, components)?;
        self.parents_by(alloc, joined, &ranks)
    }

    // Whether the way from a meter to its root passes another one.
    fn passes(&self, parents: &[Option<u8>], through: u8, from: u8) -> bool
        requires round { IsRingRound self.now }
        requires parents { AreParents self.now parents.now }
        requires from { from < self.now.meters }
        ensures { result ≡ passes (graph_of self.now) (length self.now.survivors) through from }
    {
        let mut at = from;
        for _steps in 0..self.survivors.len() {
            if at == through {
                return true;
            }
            let up = parents[at as usize];
            match up {
                Some(next) => at = next,
                None => return false,
            }
        }
        at == through
    }

    // The survivors whose way to the root passes a meter.
    fn passing(&self, parents: &[Option<u8>], through: u8) -> MeterSet
        requires round { IsRingRound self.now }
        requires parents { AreParents self.now parents.now }
        ensures { result ≡ filter (passes (graph_of self.now) (length self.now.survivors) through) self.now.survivors }
    {
        let mut passing = self.survivors;
        for from in self.survivors.members() {
            if !self.passes(parents, through, from) {
                passing = passing.without(from);
            }
        }
        passing
    }

    // The sum of the deltas of those of these meters that answered, modulo 2^64.
    fn sum_answered(&self, members: MeterSet, deltas: &[u64]) -> u64
        requires { list_all (λ i. nat_lt i (length deltas.now)) members ≡ true }
        ensures { result ≡ word (sum_by (load (graph_of self.now) (delta_in deltas.now)) members) }
    {
        let mut sum = 0u64;
        for meter in members.members() {
            if self.answered.has(meter) {
                sum = sum.wrapping_add(deltas[meter as usize]);
            }
        }
        sum
    }

    // What a survivor gathered: the sum of the deltas of those that answered, over it and all whose way passes it, modulo 2^64.
    fn gathered(&self, parents: &[Option<u8>], deltas: &[u64], through: u8) -> u64
        requires round { IsRingRound self.now }
        requires parents { AreParents self.now parents.now }
        requires deltas { length deltas.now ≡ self.now.meters }
        ensures { result ≡ word (gathered (graph_of self.now) (delta_in deltas.now) through) }
    {
        self.sum_answered(self.passing(parents, through), deltas)
    }

    // What a meter hands to another one, which is its parent; 0 to each other.
    fn handed(&self, parents: &[Option<u8>], deltas: &[u64], from: u8, to: u8) -> u64
        requires round { IsRingRound self.now }
        requires parents { AreParents self.now parents.now }
        requires deltas { length deltas.now ≡ self.now.meters }
        requires from { from < self.now.meters }
        ensures { result ≡ word (if is_one (parent (graph_of self.now) from) to then gathered (graph_of self.now) (delta_in deltas.now) from else 0) }
    {
        let up = parents[from as usize];
        match up {
            Some(parent) if parent == to => self.gathered(parents, deltas, from),
            _ => 0,
        }
    }

    /// By how much the pair word of two meters moves, the lower one first, modulo 2^64.
    pub(crate) fn pair_move(&self, parents: &[Option<u8>], deltas: &[u64], low: u8, high: u8) -> u64
        requires round { IsRingRound self.now }
        requires parents { AreParents self.now parents.now }
        requires deltas { length deltas.now ≡ self.now.meters }
        requires low { low < self.now.meters }
        requires high { high < self.now.meters }
        ensures { result ≡ word (tree_pair_move (graph_of self.now) (delta_in deltas.now) low high) }
    {
        let up = self.handed(parents, deltas, low, high);
        let down = self.handed(parents, deltas, high, low);
        up.wrapping_sub(down)
    }

    /// By how much the own word of a meter moves, modulo 2^64. Its component has these members.
    pub(crate) fn own_move(&self, members: MeterSet, deltas: &[u64], meter: u8) -> u64
        requires round { IsRingRound self.now }
        requires members { members ≡ component (graph_of self.now) meter }
        requires deltas { length deltas.now ≡ self.now.meters }
        requires meter { meter < self.now.meters }
        ensures { result ≡ word (tree_own_move (graph_of self.now) (delta_in deltas.now) meter) }
    {
        if self.answered.has(meter) {
            return 0;
        }
        let by = deltas[meter as usize];
        if self.root(members, meter) == meter {
            by.wrapping_add(self.sum_answered(members, deltas))
        } else {
            by
        }
    }
}
