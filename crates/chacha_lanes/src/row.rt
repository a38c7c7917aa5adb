//! Rows of mask words.
ghost use Rattle.std.specs.Prelude.{◌≡◌, ◌+◌, ◌<◌, ◌≤◌, [], ◌∷◌, ◌++◌, length, map, take};
ghost use Rattle.arrayvec.specs.ArrayVec.{array_vec_len};
ghost use Rattle.chacha_lanes.specs.Stream.{mask_word};

use crate::words::{stream_word, stream_words};
use arrayvec::ArrayVec;
use std::marker::Model;

// Adds the words of the first `count` keys.
fn add_words(words: &mut ArrayVec<u64, 256>, keys: &[[u8; 32]; 8], count: usize, round: u32)
    requires count { count ≤ 8 }
    requires room { array_vec_len words.old + count ≤ 256 }
    ensures { words.new.items ≡ words.old.items ++ map (λ key. mask_word key round) (take count keys.now) }
{
    let made = stream_words(keys, round);
    for key in 0..count {
        words.push(made[key]);
    }
}

/// The mask words of keys in one round, in the order of the keys: at most 256. They are made eight at a time.
#[derive(Drop)]
pub struct WordRow {
    round: u32,
    words: ArrayVec<u64, 256>,
    /// The keys whose words are not made yet come first.
    keys: [[u8; 32]; 8],
    waiting: usize,
}

impl Model for WordRow {
    ghost use Rattle.chacha_lanes.specs.Rows.{Row, row_of, KeepsRow};

    ghost Value = { Row };

    ghost view = { λ s. row_of s.round s.words.items s.keys s.waiting };

    ghost invariant = { λ s. KeepsRow s.words.items s.keys s.waiting };
}

impl WordRow {
    /// A row of no words.
    pub fn new(round: u32) -> WordRow
        ensures { result ≡ record { round = round; words = [] } }
    {
        WordRow {
            round,
            words: ArrayVec::new(),
            keys: [[0; 32]; 8],
            waiting: 0,
        }
    }

    /// Puts the mask word of a key at the end.
    pub fn put(&mut self, key: &[u8; 32])
        requires { length self.old.words < 256 }
        ensures { self.new ≡ record self.old { words = self.old.words ++ mask_word key.now self.old.round ∷ [] } }
    {
        if self.waiting == 8 {
            add_words(&mut self.words, &self.keys, 8, self.round);
            self.waiting = 0;
        }
        self.keys[self.waiting] = *key;
        self.waiting += 1;
    }

    /// The words.
    pub fn words(self) -> ArrayVec<u64, 256>
        ensures { result.items ≡ self.words }
    {
        let round = self.round;
        let mut words = self.words;
        match self.waiting {
            0 => {}
            1 => words.push(stream_word(&self.keys[0], round)),
            waiting => add_words(&mut words, &self.keys, waiting, round),
        }
        words
    }
}
