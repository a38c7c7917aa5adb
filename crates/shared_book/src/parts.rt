//! A shared book and its passes.

ghost use Rattle.std.specs.Prelude.{◌≡◌, ◌≤◌, ◌<◌, [], length, vec_len, vec_capacity};
ghost use Rattle.shared_book.specs.Rests.{Rests};

use crate::handed::Handed;
use crate::law::{Key, Law};
use crate::turn::View;
use atomic_table::{Seat, Table};
use group_book::{Book, GroupPages};
use group_plan::Presence;
use std::alloc::Global;
use transcript_log::Lines;

/// A book between threads: the pages of each group in a slot of their own, and a word that says whether they are out with a pass.
#[derive(Drop)]
pub struct SharedBook {
    pub(crate) table: Table<Option<Handed>, View, Key, Law, Global>,
    pub(crate) presence: Presence,
    /// The lines that the book was opened with.
    pub(crate) journal: Lines,
    /// For so many more there is room.
    pub(crate) lines: u64,
    /// Room for the pages of all groups, once they are all at home for good.
    pub(crate) room: Vec<GroupPages>,
    ghost presence_is: { presence ≡ table.shared.key.book.value.presence },
    ghost journal_is: { journal.items ≡ table.shared.key.book.value.journal },
    ghost lines_fit: { lines ≤ journal.spare },
    ghost words_are: { table.shared.table_id.words ≡ length presence.plan.groups },
    ghost slots_are: { table.shared.table_id.slots ≡ length presence.plan.groups },
    ghost some_group: { 1 ≤ length presence.plan.groups },
    ghost empty: { (room.items ≡ []) × (vec_len room ≡ 0) },
    ghost roomy: { length presence.plan.groups ≤ vec_capacity room },
}

/// The right to commit on a shared book. A thread has one of its own.
#[derive(Drop)]
pub struct Pass {
    pub(crate) seat: Seat<Option<Handed>, View>,
    pub(crate) number: u32,
    pub(crate) made: u32,
    pub(crate) out: u32,
    ghost rests: { Rests seat.me },
    ghost number_is: { seat.me.0.number ≡ number },
    ghost made_is: { seat.me.0.made ≡ made },
    ghost out_is: { seat.me.0.out ≡ out },
    ghost out_few: { out ≤ made },
}

/// There was no memory to open the book. It comes back.
#[derive(Drop)]
pub struct BeginRefused {
    pub book: Book,
}
