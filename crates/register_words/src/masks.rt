//! The mask table of a register.
ghost use Rattle.std.specs.Prelude.{◌≡◌, ◌<◌};

use crate::blocks::Blocks;
use crate::rows::{own_blocks, pair_blocks, register_row};
use crate::word::word_of_register;
use chacha_lanes::block_words_of_rounds;
use mask_stream::{MaskRow, Masks};
use missing_round::MeterSet;
use mod_word::Word;
use pair_keys::KeyTable;

/// The words of a register of the keys of a plan, each made by ChaCha20 when it is asked for.
#[derive(Clone, Copy)]
pub struct RegisterMasks<'k> {
    keys: &'k KeyTable,
    register: u8,
    ghost within: { register < 8 },
}

impl<'k> RegisterMasks<'k> {
    ghost use Rattle.pair_keys.specs.Keys.{table_of};
    ghost use Rattle.register_words.specs.MaskTables.{plan_of, table_words};
    ghost use Rattle.register_words.specs.Words.{register_streams};

    /// The words of a register, 0 to 7, of these keys.
    pub fn new(keys: &'k KeyTable, register: u8) -> RegisterMasks<'k>
        requires { register < 8 }
        ensures plan { plan_of result ≡ (table_of keys.now).plan }
        ensures words { table_words result ≡ register_streams register (table_of keys.now) }
    {
        RegisterMasks { keys, register }
    }
}

impl<'k> Masks for RegisterMasks<'k> {
    ghost use Rattle.register_words.specs.MaskTables.{plan_of, table_words};

    ghost plan = { plan_of };

    ghost table = { table_words };

    fn own(&self, group: u16, round: u32, meter: u8) -> Word {
        word_of_register(self.keys.own(group, meter), round, self.register)
    }

    fn pair(&self, group: u16, round: u32, low: u8, high: u8) -> Word {
        word_of_register(self.keys.pair(group, low, high), round, self.register)
    }

    fn owns(&self, group: u16, round: u32, meters: &MeterSet) -> MaskRow {
        let mut blocks = Blocks::new();
        own_blocks(&mut blocks, self.keys, group, round, meters);
        register_row(&blocks, self.register)
    }

    fn pairs(&self, group: u16, round: u32, meter: u8, others: &MeterSet) -> MaskRow {
        let mut blocks = Blocks::new();
        pair_blocks(&mut blocks, self.keys, group, round, meter, others);
        register_row(&blocks, self.register)
    }

    fn own_rounds(&self, group: u16, first: u32, meter: u8) -> [u64; 8] {
        block_words_of_rounds(self.keys.own(group, meter), first, self.register as usize)
    }

    fn pair_rounds(&self, group: u16, first: u32, low: u8, high: u8) -> [u64; 8] {
        block_words_of_rounds(
            self.keys.pair(group, low, high),
            first,
            self.register as usize,
        )
    }
}
