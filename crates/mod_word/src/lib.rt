//! Words: numbers modulo 2^64.
#![tactic(auto)]

ghost use Rattle.std.specs.Prelude.{◌≡◌, ◌+◌, ◌^◌, ◌<◌, if◌then◌else◌};
ghost use Rattle.std.specs.List.{sum};
ghost use Rattle.mod_word.specs.Word.{word, negative};

use std::marker::Model;

/// A number modulo 2^64: a mask, a hidden reading or a total.
#[derive(Clone, Copy, Debug, PartialEq, Eq)]
pub struct Word(pub u64);

impl Model for Word {
    ghost use Rattle.std.specs.Prelude.{ℕ};

    ghost Value = { ℕ };

    ghost view = { λ w. w.0 };

    ghost inverse = { λ n. record { 0 = n } };
}

impl Word {
    /// The sum of the two.
    pub fn add(self, other: Word) -> Word
        ensures { result ≡ word (self + other) }
    {
        Word(self.0.wrapping_add(other.0))
    }

    /// The other word taken away from this one.
    pub fn sub(self, other: Word) -> Word
        ensures { result ≡ word (self + negative other) }
    {
        Word(self.0.wrapping_sub(other.0))
    }

    /// The word as it is, or its negative where `minus`.
    pub fn signed(self, minus: bool) -> Word
        ensures { result ≡ (if minus then word (negative self) else self) }
    {
        if minus {
            Word(0u64.wrapping_sub(self.0))
        } else {
            self
        }
    }

    /// The sum of all of them, 0 where there is none.
    pub fn sum(words: &[Word]) -> Word
        ensures { result ≡ word (sum words.now) }
    {
        let mut total = 0u64;
        for word in words {
            total = total.wrapping_add(word.0);
        }
        Word(total)
    }

    /// The number, below 2^64.
    pub fn value(self) -> u64
        ensures { result ≡ self }
    {
        self.0
    }
}
