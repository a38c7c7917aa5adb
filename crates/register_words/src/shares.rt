//! The words that a meter adds for some others, in all registers at once.
ghost use Rattle.std.specs.Prelude.{◌≡◌, ℕ, ◌+◌, ◌<◌, if◌then◌else◌, IsTrue, slice_index};
ghost use Rattle.std.specs.List.{list_all};
ghost use Rattle.group_plan.specs.Plans.{size};
ghost use Rattle.pair_keys.specs.Keys.{table_of};
ghost use Rattle.missing_round.specs.Words.{answer_word, minus, word};
ghost use Rattle.register_words.specs.Blocks.{is_end};
ghost use Rattle.register_words.specs.Words.{register_streams};

use crate::blocks::Blocks;
use crate::rows::answer_blocks;
use crate::sums::{add, take_away};
use missing_round::MeterSet;
use pair_keys::KeyTable;

// Adds the words of a pair at its lower meter, or takes them away at its higher one.
#[inline(always)]
fn add_share(sums: &mut [u64; 8], words: &[u64; 8], is_lower: bool)
    ensures { (k : ℕ) → k < 8 → slice_index sums.new k ≡ (if is_lower then word (slice_index sums.old k + slice_index words.now k) else word (slice_index sums.old k + minus (slice_index words.now k))) }
{
    if is_lower {
        add(sums, words);
    } else {
        take_away(sums, words);
    }
}

/// What a meter answers in each register to a missing set that lacks it: its own word, and its shares of the pair words with the
/// missing meters.
pub(crate) fn answer_words(
    blocks: &mut Blocks,
    keys: &KeyTable,
    group: u16,
    round: u32,
    meter: u8,
    missing: &MeterSet,
) -> [u64; 8]
    requires meter { meter < size (table_of keys.now).plan.groups group }
    requires missing { IsTrue (list_all (is_end (table_of keys.now).plan group meter) missing.now) }
    ensures { (k : ℕ) → k < 8 → slice_index result k ≡ answer_word ((register_streams k (table_of keys.now)).own group round) ((register_streams k (table_of keys.now)).pair group round) meter missing.now }
{
    answer_blocks(blocks, keys, group, round, meter, missing);
    let row = blocks.as_slice();
    let mut total = row[0];
    let mut place = 1;
    for other in missing.members() {
        add_share(&mut total, &row[place], meter < other);
        place += 1;
    }
    total
}
