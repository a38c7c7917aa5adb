//! Rows of blocks: the words of all registers of the keys of some meters.
ghost use Rattle.std.specs.Prelude.{◌≡◌, ◌+◌, ◌<◌, ◌≤◌, ◌∷◌, ◌++◌, IsTrue, Some, length, map, nat_lt, slice_index};
ghost use Rattle.std.specs.List.{list_all};
ghost use Rattle.group_plan.specs.Plans.{size};
ghost use Rattle.missing_round.specs.Sets.{IsSet};
ghost use Rattle.pair_keys.specs.Keys.{table_of};
ghost use Rattle.pair_keys.specs.declared.KeyId.TheVariants.{Own};
ghost use Rattle.register_words.specs.Blocks.{is_end, made_with, pair_of};
ghost use Rattle.register_words.specs.Words.{words_of};

use crate::blocks::{Blocks, KeyBatch};
use mask_stream::MaskRow;
use missing_round::MeterSet;
use pair_keys::KeyTable;

// The key of two meters.
fn pair_key(keys: &KeyTable, group: u16, meter: u8, other: u8) -> &[u8; 32]
    requires meter { meter < size (table_of keys.now).plan.groups group }
    requires other { IsTrue (is_end (table_of keys.now).plan group meter other) }
    ensures { Some result.now ≡ (table_of keys.now).key (pair_of group meter other) }
{
    if meter < other {
        keys.pair(group, meter, other)
    } else {
        keys.pair(group, other, meter)
    }
}

// Puts the keys of a meter with each of these others.
fn put_pairs(
    batch: &mut KeyBatch,
    blocks: &mut Blocks,
    keys: &KeyTable,
    group: u16,
    meter: u8,
    others: &MeterSet,
)
    requires meter { meter < size (table_of keys.now).plan.groups group }
    requires others { IsTrue (list_all (is_end (table_of keys.now).plan group meter) others.now) }
    requires room { length blocks.old.items + length batch.old.keys ≤ 1 }
    ensures round { batch.new.round ≡ batch.old.round }
    ensures fits { length blocks.new.items + length batch.new.keys ≤ 257 }
    ensures set { IsSet others.now }
    ensures made { made_with batch.new blocks.new.items ≡ made_with batch.old blocks.old.items ++ map (λ j. words_of ((table_of keys.now).key (pair_of group meter j)) batch.old.round) others.now }
{
    for other in others.members() {
        batch.put(pair_key(keys, group, meter, other), blocks);
    }
}

/// Makes the words of a meter's keys with each of these others.
pub(crate) fn pair_blocks(
    blocks: &mut Blocks,
    keys: &KeyTable,
    group: u16,
    round: u32,
    meter: u8,
    others: &MeterSet,
)
    requires meter { meter < size (table_of keys.now).plan.groups group }
    requires others { IsTrue (list_all (is_end (table_of keys.now).plan group meter) others.now) }
    ensures made { blocks.new.items ≡ map (λ j. words_of ((table_of keys.now).key (pair_of group meter j)) round) others.now }
    ensures set { IsSet others.now }
{
    blocks.clear();
    let mut batch = KeyBatch::new(round);
    put_pairs(&mut batch, blocks, keys, group, meter, others);
    batch.finish(blocks);
}

/// Makes the words of a meter's own key, and then of its key with each of these others.
pub(crate) fn answer_blocks(
    blocks: &mut Blocks,
    keys: &KeyTable,
    group: u16,
    round: u32,
    meter: u8,
    others: &MeterSet,
)
    requires meter { meter < size (table_of keys.now).plan.groups group }
    requires others { IsTrue (list_all (is_end (table_of keys.now).plan group meter) others.now) }
    ensures { blocks.new.items ≡ words_of ((table_of keys.now).key (Own group meter)) round ∷ map (λ j. words_of ((table_of keys.now).key (pair_of group meter j)) round) others.now }
{
    blocks.clear();
    let mut batch = KeyBatch::new(round);
    batch.put(keys.own(group, meter), blocks);
    put_pairs(&mut batch, blocks, keys, group, meter, others);
    batch.finish(blocks);
}

/// Makes the words of the own keys of these meters.
pub(crate) fn own_blocks(
    blocks: &mut Blocks,
    keys: &KeyTable,
    group: u16,
    round: u32,
    meters: &MeterSet,
)
    requires { IsTrue (list_all (λ i. nat_lt i (size (table_of keys.now).plan.groups group)) meters.now) }
    ensures made { blocks.new.items ≡ map (λ i. words_of ((table_of keys.now).key (Own group i)) round) meters.now }
    ensures set { IsSet meters.now }
{
    blocks.clear();
    let mut batch = KeyBatch::new(round);
    for meter in meters.members() {
        batch.put(keys.own(group, meter), blocks);
    }
    batch.finish(blocks);
}

/// The words of a register in these blocks.
pub(crate) fn register_row(blocks: &Blocks, register: u8) -> MaskRow
    requires register { register < 8 }
    requires room { length blocks.now.items ≤ 256 }
    ensures { result.items ≡ map (λ block. slice_index block register) blocks.now.items }
{
    let mut row = MaskRow::new();
    for block in blocks.as_slice() {
        row.push(block[register as usize]);
    }
    row
}
