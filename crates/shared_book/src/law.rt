//! The rule of the words and of the pages, and each step that it allows.

use crate::handed::Handed;
use crate::turn::View;
use atomic_table::{Join, Play, Split, TableRule};
use group_book::Book;
use std::snapshot::Snapshot;

/// What a table is told when it is made: the book that it opens with.
#[derive(Drop)]
pub struct Key {
    pub book: Snapshot<Book>,
}

/// The rule of the words and of the slots, one of each for a group.
pub struct Law;

impl TableRule<Option<Handed>, View, Key> for Law {
    ghost use Rattle.std.specs.Prelude.{[]};
    ghost use Rattle.shared_book.specs.Law.{Kept};
    ghost use Rattle.shared_book.specs.Opened.{newcomer};

    ghost holds = { λ key s. Kept key.book.value s };

    ghost first = { λ key. newcomer key.book.value 0 [] };
}

/// Takes the pages of a group out, where they are at home.
pub struct TakeOut;

impl Play<Option<Handed>, View> for TakeOut {
    ghost use Rattle.shared_book.specs.Law.{Tries};

    ghost then = { Tries };
}

/// Hands the pages of a group back, with their lines.
pub struct HandBack;

impl Play<Option<Handed>, View> for HandBack {
    ghost use Rattle.shared_book.specs.Law.{GivesBack};

    ghost then = { GivesBack };
}

/// Cuts a pass in two.
pub struct Fork;

impl Split<View> for Fork {
    ghost use Rattle.shared_book.specs.Opened.{parent, child};

    ghost left = { parent };

    ghost right = { child };
}

/// Tells the first pass of another.
pub struct Meet;

impl Join<View> for Meet {
    ghost use Rattle.shared_book.specs.Opened.{met, spent};

    ghost both = { met };

    ghost spent = { spent };
}

/// Learns what was told.
pub struct Learn;

impl Play<Option<Handed>, View> for Learn {
    ghost use Rattle.shared_book.specs.Law.{Learns};

    ghost then = { Learns };
}
