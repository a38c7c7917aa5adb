//! The words that the meters of a round answer to one missing set.
ghost use Rattle.std.specs.Prelude.{◌≡◌, ℕ, true, false, IsTrue, length, map, slice_index};
ghost use Rattle.std.specs.List.{list_all};
ghost use Rattle.group_plan.specs.Plans.{is_place};
ghost use Rattle.missing_round.specs.Sets.{is_member};
ghost use Rattle.missing_round.specs.Words.{word, share, answer_word};
ghost use Rattle.mask_stream.specs.Ends.{is_other, between};
ghost use Rattle.blind_core.specs.Blind.{are_places};
ghost use Rattle.blind_core.specs.Answers.{with_shares, with_all_shares};

use crate::words::with_share;
use mask_stream::{MaskRow, Masks};
use missing_round::MeterSet;

// The sums of these meters, each with its share of the pair word with the missing meter.
#[tactic(auto, unfolding(crate::specs::Answers::with_shares))]
fn add_shares<M: Masks>(
    masks: &M,
    group: u16,
    round: u32,
    meters: &MeterSet,
    missing: u8,
    sums: &MaskRow,
) -> MaskRow
    requires missing { IsTrue (is_place (M.plan masks.now) group round missing) }
    requires meters { IsTrue (list_all (is_other (M.plan masks.now) group round missing) meters.now) }
    requires long { length sums.now.items ≡ length meters.now }
    ensures { result.items ≡ with_shares ((M.table masks.now).pair group round) missing meters.now sums.now.items }
{
    let row = masks.pairs(group, round, missing, meters);
    let words = row.as_slice();
    let before = sums.as_slice();
    let mut place = 0;
    let mut after = MaskRow::new();
    for meter in meters.members() {
        after.push(with_share(before[place], words[place], meter, missing));
        place += 1;
    }
    after
}

// The own word of each of these meters with its shares of the pair words with all missing meters, modulo 2^64.
#[tactic(auto, unfolding(crate::specs::Answers::with_all_shares))]
fn answer_sums<M: Masks>(
    masks: &M,
    group: u16,
    round: u32,
    meters: &MeterSet,
    missing: &MeterSet,
) -> MaskRow
    requires meters { IsTrue (are_places (M.plan masks.now) group round meters.now) }
    requires missing { IsTrue (are_places (M.plan masks.now) group round missing.now) }
    requires apart { (i : ℕ) → is_member i meters.now ≡ true → is_member i missing.now ≡ false }
    ensures { result.items ≡ with_all_shares ((M.table masks.now).pair group round) missing.now meters.now (map ((M.table masks.now).own group round) meters.now) }
{
    let mut sums = masks.owns(group, round, meters);
    for other in missing.members() {
        sums = add_shares(masks, group, round, meters, other, &sums);
    }
    sums
}

// Learns that a number of 64 bits is a word.
fn word_of(number: u64) -> u64
    ensures { result ≡ word number }
{
    number
}

/// The values of the words that these meters answer to a missing set, of which none is missing itself, each at its meter's
/// place: its own word, and its shares of the pair words with the missing meters. Each mask word is asked once.
pub fn answers<M: Masks>(
    masks: &M,
    group: u16,
    round: u32,
    meters: &MeterSet,
    missing: &MeterSet,
) -> [u64; 256]
    requires meters { IsTrue (are_places (M.plan masks.now) group round meters.now) }
    requires missing { IsTrue (are_places (M.plan masks.now) group round missing.now) }
    requires apart { (i : ℕ) → is_member i meters.now ≡ true → is_member i missing.now ≡ false }
    ensures { (i : ℕ) → is_member i meters.now ≡ true → slice_index result i ≡ answer_word ((M.table masks.now).own group round) ((M.table masks.now).pair group round) i missing.now }
{
    let sums = answer_sums(masks, group, round, meters, missing);
    let mut words = [0u64; 256];
    let mut place = 0;
    for meter in meters.members() {
        words[meter as usize] = word_of(sums[place]);
        place += 1;
    }
    words
}
