//! Blocks: the words of all registers of some keys.
ghost use Rattle.std.specs.Prelude.{◌≡◌, ◌+◌, ◌<◌, ◌≤◌, [], ◌∷◌, ◌++◌, Some, length, map, take};
ghost use Rattle.arrayvec.specs.ArrayVec.{array_vec_len};
ghost use Rattle.register_words.specs.Blocks.{made_with};
ghost use Rattle.register_words.specs.Words.{words_of};

use arrayvec::ArrayVec;
use chacha_lanes::stream_blocks;
use std::marker::Model;

/// The words of the eight registers of each of some keys: at most 257. It is long, so it is made once and filled again.
pub(crate) type Blocks = ArrayVec<[u64; 8], 257>;

// Adds the words of the first `count` keys.
fn add_blocks(blocks: &mut Blocks, keys: &[[u8; 32]; 8], count: usize, round: u32)
    requires count { count ≤ 8 }
    requires room { array_vec_len blocks.old + count ≤ 257 }
    ensures { blocks.new.items ≡ blocks.old.items ++ map (λ key. words_of (Some key) round) (take count keys.now) }
{
    let made = stream_blocks(keys, round);
    for key in 0..count {
        blocks.push(made[key]);
    }
}

/// Keys whose words in one round are not made yet: at most eight, which are made at once.
#[derive(Drop)]
pub(crate) struct KeyBatch {
    round: u32,
    /// Those that wait come first.
    keys: [[u8; 32]; 8],
    waiting: usize,
}

impl Model for KeyBatch {
    ghost use Rattle.register_words.specs.Blocks.{BatchView, batch_of, KeepsBatch};

    ghost Value = { BatchView };

    ghost view = { λ s. batch_of s.round s.keys s.waiting };

    ghost invariant = { λ s. KeepsBatch s.keys s.waiting };
}

impl KeyBatch {
    /// No key.
    pub(crate) fn new(round: u32) -> KeyBatch
        ensures { result ≡ record { round = round; keys = [] } }
    {
        KeyBatch {
            round,
            keys: [[0; 32]; 8],
            waiting: 0,
        }
    }

    /// Puts a key behind those that wait. The words of these are made first, where they are eight.
    pub(crate) fn put(&mut self, key: &[u8; 32], blocks: &mut Blocks)
        requires { length blocks.old.items + length self.old.keys < 257 }
        ensures round { self.new.round ≡ self.old.round }
        ensures made { made_with self.new blocks.new.items ≡ made_with self.old blocks.old.items ++ words_of (Some key.now) self.old.round ∷ [] }
    {
        if self.waiting == 8 {
            add_blocks(blocks, &self.keys, 8, self.round);
            self.waiting = 0;
        }
        self.keys[self.waiting] = *key;
        self.waiting += 1;
    }

    /// Makes the words of the keys that wait.
    pub(crate) fn finish(self, blocks: &mut Blocks)
        requires { length blocks.old.items + length self.keys ≤ 257 }
        ensures { blocks.new.items ≡ made_with self blocks.old.items }
    {
        add_blocks(blocks, &self.keys, self.waiting, self.round);
    }
}
