//! The words of one meter.
ghost use Rattle.std.specs.Prelude.{◌≡◌, ℕ, ◌+◌, ◌<◌, ◌^◌, true, false, not, ◌==◌, IsTrue, sum_by};
ghost use Rattle.std.specs.List.{list_all};
ghost use Rattle.group_plan.specs.Plans.{is_place};
ghost use Rattle.missing_round.specs.Sets.{is_member};
ghost use Rattle.missing_round.specs.Words.{word, share, reading_word, answer_word};
ghost use Rattle.mask_stream.specs.Ends.{is_other, between};
ghost use Rattle.blind_core.specs.Blind.{are_places};

use mask_stream::Masks;
use missing_round::MeterSet;
use mod_word::Word;

// The total and what a pair word adds to it: the word at the lower meter, and what takes it away at the higher one.
pub(crate) fn with_share(total: u64, pair_word: u64, meter: u8, other: u8) -> u64
    requires { not (other == meter) ≡ true }
    ensures { (pair : ℕ → ℕ → ℕ) → pair_word ≡ between pair meter other → result ≡ word (total + share pair meter other) }
{
    if meter < other {
        total.wrapping_add(pair_word)
    } else {
        total.wrapping_sub(pair_word)
    }
}

// The sum of the shares of `meter` with each of these, modulo 2^64.
fn shares<M: Masks>(masks: &M, group: u16, round: u32, meter: u8, others: &MeterSet) -> u64
    requires meter { IsTrue (is_place (M.plan masks.now) group round meter) }
    requires others { IsTrue (list_all (is_other (M.plan masks.now) group round meter) others.now) }
    ensures { word result ≡ word (sum_by (share ((M.table masks.now).pair group round) meter) others.now) }
{
    let row = masks.pairs(group, round, meter, others);
    let words = row.as_slice();
    let mut place = 0;
    let mut total = 0u64;
    for other in others.members() {
        total = with_share(total, words[place], meter, other);
        place += 1;
    }
    total
}

/// The word that hides a meter's reading: the reading, its own word, and its shares of the pair words with the other
/// members.
pub fn masked<M: Masks>(
    masks: &M,
    group: u16,
    members: &MeterSet,
    round: u32,
    meter: u8,
    reading: u64,
) -> Word
    requires members { IsTrue (are_places (M.plan masks.now) group round members.now) }
    requires meter { is_member meter members.now ≡ true }
    requires small { reading < 2 ^ 40 }
    ensures { result ≡ reading_word ((M.table masks.now).own group round) ((M.table masks.now).pair group round) members.now meter reading }
{
    let own = masks.own(group, round, meter).value();
    let others = members.without(meter);
    let shares = shares(masks, group, round, meter, &others);
    Word(reading.wrapping_add(own).wrapping_add(shares))
}

/// The word that a meter answers to a missing set: its own word, and its shares of the pair words with the missing
/// meters.
pub fn answer<M: Masks>(masks: &M, group: u16, round: u32, meter: u8, missing: &MeterSet) -> Word
    requires missing { IsTrue (are_places (M.plan masks.now) group round missing.now) }
    requires meter { IsTrue (is_place (M.plan masks.now) group round meter) }
    requires other { is_member meter missing.now ≡ false }
    ensures { result ≡ answer_word ((M.table masks.now).own group round) ((M.table masks.now).pair group round) meter missing.now }
{
    let own = masks.own(group, round, meter).value();
    Word(own.wrapping_add(shares(masks, group, round, meter, missing)))
}
