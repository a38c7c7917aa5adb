//! Rows of side words.
ghost use Rattle.std.specs.Prelude.{◌≡◌};

use mod_word::Word;
use std::marker::Model;

/// The words of a reading or an answer in the further registers.
#[derive(Clone, Copy, PartialEq, Eq)]
pub struct SideRow {
    /// The number of its line in the transcript's text, counted from 1.
    pub line: u64,
    /// How many further registers there are: 1 to 7.
    pub count: u8,
    /// The words of registers 1 to `count`, and 0 past them.
    pub words: [Word; 7],
}

/// The side words of a transcript: a row for each reading and each answer that was sent, in order.
#[derive(Drop)]
pub struct SideWords {
    rows: Vec<SideRow>,
}

impl Model for SideWords {
    ghost use Rattle.std.specs.Prelude.{List};
    ghost use Rattle.register_words.specs.declared.row.SideRow.{SideRow};

    ghost Value = { List SideRow };

    ghost view = { λ words. words.rows.items };
}

impl SideWords {
    /// These rows.
    pub(crate) fn of(rows: Vec<SideRow>) -> SideWords
        ensures { result ≡ rows.items }
    {
        SideWords { rows }
    }

    /// The rows, in order.
    pub fn rows(&self) -> &[SideRow]
        ensures { result.now ≡ self.now }
    {
        self.rows.as_slice()
    }
}
