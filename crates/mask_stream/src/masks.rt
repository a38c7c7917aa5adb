//! Tables of mask words.
ghost use Rattle.std.specs.Prelude.{◌≡◌, ℕ, ◌+◌, ◌^◌, ◌<◌, IsTrue, map, slice_index};
ghost use Rattle.std.specs.List.{list_all};
ghost use Rattle.group_plan.specs.Plans.{PlanView, is_place};
ghost use Rattle.missing_round.specs.Masks.{Masks as MaskTable};
ghost use Rattle.mask_stream.specs.Ends.{is_other, between};

use arrayvec::ArrayVec;
use missing_round::MeterSet;
use mod_word::Word;

/// The values of mask words of one round, in the order of their meters: at most 256.
pub type MaskRow = ArrayVec<u64, 256>;

/// A table of mask words over the places of a plan.
pub trait Masks {
    /// The plan whose places have words.
    ghost plan: { Self → PlanView };

    /// The words.
    ghost table: { Self → MaskTable };

    /// The own word of a meter in a round.
    fn own(&self, group: u16, round: u32, meter: u8) -> Word
        requires { IsTrue (is_place (plan self.now) group round meter) }
        ensures { result ≡ (table self.now).own group round meter };

    /// The word of a pair of meters in a round, the lower meter first.
    fn pair(&self, group: u16, round: u32, low: u8, high: u8) -> Word
        requires place { IsTrue (is_place (plan self.now) group round high) }
        requires order { low < high }
        ensures { result ≡ (table self.now).pair group round low high };

    /// The own words of these meters in a round.
    fn owns(&self, group: u16, round: u32, meters: &MeterSet) -> MaskRow
        requires { IsTrue (list_all (is_place (plan self.now) group round) meters.now) }
        ensures { result.items ≡ map ((table self.now).own group round) meters.now }
    {
        let mut row = MaskRow::new();
        for meter in meters.members() {
            row.push(self.own(group, round, meter).value());
        }
        row
    }

    /// The words of the pairs of a meter with each of these other meters in a round.
    fn pairs(&self, group: u16, round: u32, meter: u8, others: &MeterSet) -> MaskRow
        requires meter { IsTrue (is_place (plan self.now) group round meter) }
        requires others { IsTrue (list_all (is_other (plan self.now) group round meter) others.now) }
        ensures { result.items ≡ map (between ((table self.now).pair group round) meter) others.now }
    {
        let mut row = MaskRow::new();
        for other in others.members() {
            let word = if meter < other {
                self.pair(group, round, meter, other)
            } else {
                self.pair(group, round, other, meter)
            };
            row.push(word.value());
        }
        row
    }

    /// The values of the own words of a meter in eight rounds one after another, `first` and the next seven.
    fn own_rounds(&self, group: u16, first: u32, meter: u8) -> [u64; 8]
        requires fits { first + 7 < 2 ^ 32 }
        requires place { IsTrue (is_place (plan self.now) group (first + 7) meter) }
        ensures { (j : ℕ) → j < 8 → slice_index result j ≡ (table self.now).own group (first + j) meter }
    {
        let mut words = [0; 8];
        for round in 0..8u32 {
            words[round as usize] = self.own(group, first + round, meter).value();
        }
        words
    }

    /// The values of the words of a pair of meters, the lower meter first, in eight rounds one after another.
    fn pair_rounds(&self, group: u16, first: u32, low: u8, high: u8) -> [u64; 8]
        requires fits { first + 7 < 2 ^ 32 }
        requires place { IsTrue (is_place (plan self.now) group (first + 7) high) }
        requires order { low < high }
        ensures { (j : ℕ) → j < 8 → slice_index result j ≡ (table self.now).pair group (first + j) low high }
    {
        let mut words = [0; 8];
        for round in 0..8u32 {
            words[round as usize] = self.pair(group, first + round, low, high).value();
        }
        words
    }
}
