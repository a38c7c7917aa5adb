//! The table of ring masks over another table of masks.
ghost use Rattle.std.specs.Prelude.{◌≡◌, map};
ghost use Rattle.std.specs.List.{filter};
ghost use Rattle.group_plan.specs.Plans.{size};
ghost use Rattle.mask_stream.specs.Ends.{between};
ghost use Rattle.sparse_masks.specs.Neighbours.{ring, are_neighbours};

use crate::neighbours::{are_neighbours, neighbours_among};
use group_plan::Plan;
use mask_stream::{MaskRow, Masks};
use missing_round::MeterSet;
use mod_word::Word;

/// The ring masks of a table of masks: its own words, and its words of the pairs of neighbours. Each other pair word is 0, and
/// the table below isn't asked for it.
#[derive(Clone, Copy)]
pub struct RingMasks<'m, M> {
    masks: &'m M,
    plan: &'m Plan,
    width: u8,
}

impl<'m, M: Masks> RingMasks<'m, M> {
    /// The ring masks of these masks of the plan: a meter shares words with those at most `width` places away, 1 to 128.
    pub fn new(masks: &'m M, plan: &'m Plan, width: u8) -> RingMasks<'m, M>
        requires { M.plan masks.now ≡ plan.now }
        ensures plan { ⟦<RingMasks<'m, M> as Masks>⟧.plan result ≡ M.plan masks.now }
        ensures words { ⟦<RingMasks<'m, M> as Masks>⟧.table result ≡ ring width plan.now.groups (M.table masks.now) }
    {
        RingMasks { masks, plan, width }
    }

    // Whether two meters of a group are neighbours.
    fn are_neighbours(&self, group: u16, one: u8, other: u8) -> bool
        ensures { result ≡ are_neighbours self.now.width (size self.now.plan.now.groups group) one other }
    {
        are_neighbours(self.width, self.plan.meters(group), one, other)
    }

    // The words of a meter with each of these others: with each that is one of the neighbours its word in the row, in order, and
    // with each other 0.
    fn spread(
        &self,
        group: u16,
        round: u32,
        meter: u8,
        others: &MeterSet,
        neighbours: MeterSet,
        row: &MaskRow,
    ) -> MaskRow
        requires neighbours { neighbours ≡ filter (are_neighbours self.now.width (size self.now.plan.now.groups group) meter) others.now }
        requires row { row.now.items ≡ map (between ((M.table self.now.masks.now).pair group round) meter) neighbours }
        ensures { result.items ≡ map (between ((ring self.now.width self.now.plan.now.groups (M.table self.now.masks.now)).pair group round) meter) others.now }
    {
        let words = row.as_slice();
        let mut place = 0;
        let mut spread = MaskRow::new();
        for other in others.members() {
            if neighbours.has(other) {
                spread.push(words[place]);
                place += 1;
            } else {
                spread.push(0);
            }
        }
        spread
    }
}

impl<'m, M: Masks> Masks for RingMasks<'m, M> {
    ghost plan = { λ s. M.plan s.masks.now };

    ghost table = { λ s. ring s.width s.plan.now.groups (M.table s.masks.now) };

    fn own(&self, group: u16, round: u32, meter: u8) -> Word {
        self.masks.own(group, round, meter)
    }

    fn pair(&self, group: u16, round: u32, low: u8, high: u8) -> Word {
        if self.are_neighbours(group, low, high) {
            self.masks.pair(group, round, low, high)
        } else {
            Word(0)
        }
    }

    fn owns(&self, group: u16, round: u32, meters: &MeterSet) -> MaskRow {
        self.masks.owns(group, round, meters)
    }

    fn pairs(&self, group: u16, round: u32, meter: u8, others: &MeterSet) -> MaskRow {
        let neighbours = neighbours_among(self.width, self.plan.meters(group), meter, others);
        let row = self.masks.pairs(group, round, meter, &neighbours);
        self.spread(group, round, meter, others, neighbours, &row)
    }

    fn own_rounds(&self, group: u16, first: u32, meter: u8) -> [u64; 8] {
        self.masks.own_rounds(group, first, meter)
    }

    fn pair_rounds(&self, group: u16, first: u32, low: u8, high: u8) -> [u64; 8] {
        if self.are_neighbours(group, low, high) {
            self.masks.pair_rounds(group, first, low, high)
        } else {
            [0; 8]
        }
    }
}
