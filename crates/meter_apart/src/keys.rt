//! The keys of a meter, as a table of mask words.

ghost use Rattle.std.specs.Prelude.{◌≡◌, slice_index_or, None};
ghost use Rattle.mask_stream.specs.KeyStreams.{word_of};
ghost use Rattle.meter_apart.specs.Keys.{has_key, is_complete};

use crate::part::Part;
use chacha_lanes::stream_word;
use mask_stream::Masks;
use mod_word::Word;

/// A meter's part of a plan and its keys, as mask words over the plan of its group alone. A word that needs another key is 0; the
/// meter needs none.
#[derive(Drop)]
pub struct MeterKeys {
    pub(crate) part: Part,
    own: [u8; 32],
    /// The key of the pair with each meter, by its number.
    pairs: Vec<Option<[u8; 32]>>,
}

/// The mask word of a key in a round, 0 where there is no key.
fn word_of(key: Option<[u8; 32]>, round: u32) -> Word
    ensures { result ≡ word_of key round }
{
    match key {
        None => Word(0),
        Some(key) => Word(stream_word(&key, round)),
    }
}

/// The key of the pair with a meter, where there is one.
fn key_with(pairs: &[Option<[u8; 32]>], meter: u32) -> Option<[u8; 32]>
    ensures { result ≡ slice_index_or pairs.now meter None }
{
    if meter as usize >= pairs.len() {
        return None;
    }
    pairs[meter as usize]
}

/// Whether the other one is the meter itself, or there is a key of their pair.
fn has_key(pairs: &[Option<[u8; 32]>], meter: u8, other: u32) -> bool
    ensures { result ≡ has_key meter pairs.now other }
{
    other == u32::from(meter) || key_with(pairs, other).is_some()
}

/// Whether there is a key for each pair of the meter in a group of so many.
fn is_complete(pairs: &[Option<[u8; 32]>], meter: u8, meters: u32) -> bool
    ensures { result ≡ is_complete meter meters pairs.now }
{
    for other in 0..meters {
        if !has_key(pairs, meter, other) {
            return false;
        }
    }
    true
}

impl MeterKeys {
    ghost use Rattle.meter_apart.specs.Keys.{MakesKeys, pair_key, part_of};

    /// The keys of the meter that has this part: its own, and those of its pairs by the number of the other meter. `None` where
    /// the key of a pair is lacking.
    pub fn new(part: Part, own: [u8; 32], pairs: Vec<Option<[u8; 32]>>) -> Option<MeterKeys>
        ensures { MakesKeys part own pairs.items result }
    {
        if !is_complete(&pairs, part.meter(), part.meters()) {
            return None;
        }
        Some(MeterKeys { part, own, pairs })
    }

    /// What the meter has of its plan.
    pub fn part(&self) -> &Part
        ensures { result.now ≡ part_of self.now }
    {
        &self.part
    }

    // The key of a pair of the first group, where the meter is an end of it.
    fn pair_key(&self, low: u8, high: u8) -> Option<[u8; 32]>
        ensures { result ≡ pair_key self.now.part.meter self.now.pairs.items low high }
    {
        if low == self.part.meter() {
            key_with(&self.pairs, u32::from(high))
        } else if high == self.part.meter() {
            key_with(&self.pairs, u32::from(low))
        } else {
            None
        }
    }
}

impl Masks for MeterKeys {
    ghost use Rattle.meter_apart.specs.Keys.{plan_of, words_of};

    ghost plan = { plan_of };

    ghost table = { words_of };

    fn own(&self, group: u16, round: u32, meter: u8) -> Word {
        if group == 0 && meter == self.part.meter() {
            word_of(Some(self.own), round)
        } else {
            Word(0)
        }
    }

    fn pair(&self, group: u16, round: u32, low: u8, high: u8) -> Word {
        if group == 0 {
            word_of(self.pair_key(low, high), round)
        } else {
            Word(0)
        }
    }
}
