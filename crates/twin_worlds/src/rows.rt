//! The words that move.

ghost use Rattle.std.specs.Prelude.{◌≡◌};

use mod_word::Word;
use pair_keys::KeyId;
use std::marker::Model;

/// A mask word that moves: its key and its round, counted from 0, the word of the key's stream, and the moved word.
#[derive(Clone, Copy)]
pub struct MovedRow {
    pub id: KeyId,
    pub round: u32,
    pub old: Word,
    pub new: Word,
}

/// The mask words that move between two worlds, in the order of the masks file.
#[derive(Drop)]
pub struct MovedWords {
    rows: Vec<MovedRow>,
}

impl Model for MovedWords {
    ghost use Rattle.std.specs.Prelude.{List};
    ghost use Rattle.twin_worlds.specs.declared.rows.MovedRow.{MovedRow};

    ghost Value = { List MovedRow };

    ghost view = { λ m. m.rows.items };
}

impl MovedWords {
    /// These rows.
    pub(crate) fn of(rows: Vec<MovedRow>) -> MovedWords
        ensures { result ≡ rows.items }
    {
        MovedWords { rows }
    }

    /// The rows, in order.
    pub fn rows(&self) -> &[MovedRow]
        ensures { result.now ≡ self.now }
    {
        &self.rows
    }
}
