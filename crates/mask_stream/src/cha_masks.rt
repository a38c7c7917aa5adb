//! The table of the mask words of keys.
ghost use Rattle.std.specs.Prelude.{◌≡◌, ◌<◌, Some, IsTrue, if◌then◌else◌, nat_lt};

use crate::{MaskRow, Masks};
use chacha_lanes::{WordRow, stream_word, words_of_rounds};
use missing_round::MeterSet;
use mod_word::Word;
use pair_keys::KeyTable;

/// The mask words of the keys of a plan, each made by ChaCha20 when it is asked for.
#[derive(Clone, Copy)]
pub struct ChaMasks<'k> {
    keys: &'k KeyTable,
}

impl<'k> ChaMasks<'k> {
    ghost use Rattle.pair_keys.specs.Keys.{table_of};
    ghost use Rattle.mask_stream.specs.KeyStreams.{streams};
    ghost use Rattle.mask_stream.specs.ChaMaskTables.{plan_of, words_of};

    /// The mask words of these keys.
    pub fn new(keys: &'k KeyTable) -> ChaMasks<'k>
        ensures plan { plan_of result ≡ (table_of keys.now).plan }
        ensures words { words_of result ≡ streams (table_of keys.now) }
    {
        ChaMasks { keys }
    }
}

impl<'k> Masks for ChaMasks<'k> {
    ghost use Rattle.mask_stream.specs.ChaMaskTables.{plan_of, words_of};

    ghost plan = { plan_of };

    ghost table = { words_of };

    fn own(&self, group: u16, round: u32, meter: u8) -> Word {
        Word(stream_word(self.keys.own(group, meter), round))
    }

    fn pair(&self, group: u16, round: u32, low: u8, high: u8) -> Word {
        Word(stream_word(self.keys.pair(group, low, high), round))
    }

    fn owns(&self, group: u16, round: u32, meters: &MeterSet) -> MaskRow {
        let mut row = WordRow::new(round);
        for meter in meters.members() {
            row.put(self.keys.own(group, meter));
        }
        row.words()
    }

    fn pairs(&self, group: u16, round: u32, meter: u8, others: &MeterSet) -> MaskRow {
        let mut row = WordRow::new(round);
        for other in others.members() {
            let key = if meter < other {
                self.keys.pair(group, meter, other)
            } else {
                self.keys.pair(group, other, meter)
            };
            row.put(key);
        }
        row.words()
    }

    fn own_rounds(&self, group: u16, first: u32, meter: u8) -> [u64; 8] {
        words_of_rounds(self.keys.own(group, meter), first)
    }

    fn pair_rounds(&self, group: u16, first: u32, low: u8, high: u8) -> [u64; 8] {
        words_of_rounds(self.keys.pair(group, low, high), first)
    }
}
