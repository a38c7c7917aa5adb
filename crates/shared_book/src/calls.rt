//! The calls on a shared book: open, split, join and shut.

ghost use Rattle.std.specs.Prelude.{◌≡◌, ◌+◌, ◌^◌, ◌<◌, ◌≤◌, [], IfOk, IfErr, None, length, map, replicate, vec_len, vec_capacity};
ghost use Rattle.group_book.specs.Replay.{AreReplayed};
ghost use Rattle.shared_book.specs.Passes.{new_pass, SplitEnds, JoinEnds};
ghost use Rattle.shared_book.specs.Ends.{opening, view, room_of, IsPassOf, ShutEnds};

use crate::handed::{Handed, put_in, take_all, take_out};
use crate::law::{Fork, Key, Learn, Meet};
use crate::parts::{BeginRefused, Pass, SharedBook};
use atomic_table::{Refused, Table};
use group_book::{Book, GroupPages, Parts};
use group_plan::Presence;
use std::alloc::{AllocError, Global};
use std::snapshot::Snapshot;
use transcript_log::Lines;

impl Pass {
    /// How many passes were split from it so far.
    pub fn made(&self) -> u32
        ensures { result ≡ (view self.now).made }
    {
        self.made
    }

    /// How many of these were not joined yet.
    pub fn out(&self) -> u32
        ensures { result ≡ (view self.now).out }
    {
        self.out
    }
}

impl SharedBook {
    /// Who has a reading.
    pub fn presence(&self) -> &Presence
        ensures { result.now ≡ (opening self.now).presence }
    {
        &self.presence
    }

    /// A further pass, which has seen what the first has.
    pub fn split(&self, pass: &mut Pass) -> Pass
        requires pass { IsPassOf self.now pass.old }
        requires first { (view pass.old).number ≡ 0 }
        requires free { (view pass.old).held ≡ None }
        requires few { (view pass.old).made + 1 < 2 ^ 32 }
        ensures passes { IsPassOf self.now pass.new × IsPassOf self.now result }
        ensures ends { SplitEnds (view pass.old) (view pass.new) (view result) }
    {
        let seat = self.table.shared.split_seat::<Fork>(&mut pass.seat);
        pass.made += 1;
        pass.out += 1;
        Pass {
            seat,
            number: pass.made,
            made: 0,
            out: 0,
        }
    }

    /// Takes a pass back: the first then knows what the other has seen and done.
    pub fn join(&self, pass: &mut Pass, other: Pass)
        requires passes { IsPassOf self.now pass.old × IsPassOf self.now other }
        requires first { (view pass.old).number ≡ 0 }
        requires free { ((view pass.old).held ≡ None) × ((view other).held ≡ None) }
        ensures pass { IsPassOf self.now pass.new }
        ensures ends { JoinEnds (view pass.old) (view other) (view pass.new) }
    {
        let Pass {
            seat,
            number: _,
            made: _,
            out: _,
        } = other;
        let shelf = &self.table.shared;
        shelf.join_seat::<Meet>(&mut pass.seat, seat);
        shelf.load::<Learn>(&mut pass.seat, 0);
        pass.out -= 1;
    }

    /// Ends the sharing. The pass is the first, and no other is out. What comes back stands for the pass's history; the lines of its
    /// turns are with those that made them.
    pub fn shut(self, pass: Pass) -> Parts
        requires pass { IsPassOf self pass }
        requires first { (view pass).number ≡ 0 }
        requires free { (view pass).held ≡ None }
        requires none_out { (view pass).out ≡ 0 }
        ensures ends { ShutEnds (opening self) (view pass) result }
        ensures room { room_of self ≤ result.journal.spare }
    {
        let SharedBook {
            table,
            presence,
            journal,
            lines: _,
            mut room,
        } = self;
        let Pass {
            seat,
            number: _,
            made: _,
            out: _,
        } = pass;
        let mut closed = table.close_with(seat);
        take_all(&mut closed, &mut room);
        closed.free();
        Parts {
            presence,
            groups: room,
            journal,
        }
    }
}

/// A word for each group, whose pages are at home.
fn words_of(alloc: Global, groups: usize) -> Result<Vec<u64>, AllocError>
    ensures { IfOk result (λ v. v.items ≡ replicate groups 0) }
{
    vec![in alloc; 0; groups]
}

/// The memory that a shared book has beside its book's.
#[derive(Drop)]
struct Room {
    words: Vec<u64>,
    slots: Vec<Option<Handed>>,
    groups: Vec<GroupPages>,
}

/// Room for so many groups.
fn room_for(alloc: Global, groups: usize) -> Result<Room, AllocError>
    ensures words { IfOk result (λ r. r.words.items ≡ replicate groups 0) }
    ensures slots { IfOk result (λ r. (r.slots.items ≡ []) × (vec_len r.slots ≡ 0) × (groups ≤ vec_capacity r.slots)) }
    ensures groups { IfOk result (λ r. (r.groups.items ≡ []) × (vec_len r.groups ≡ 0) × (groups ≤ vec_capacity r.groups)) }
{
    Ok(Room {
        words: words_of(alloc, groups)?,
        slots: Vec::with_capacity(alloc, groups)?,
        groups: Vec::with_capacity(alloc, groups)?,
    })
}

/// The parts of a book, with room for so many lines; as they were where there is no memory for it.
fn with_lines(parts: Parts, lines: u64) -> Result<Parts, Parts>
    ensures ok { IfOk result (λ r. (r.presence ≡ parts.presence) × (r.groups ≡ parts.groups) × (r.journal.items ≡ parts.journal.items) × (lines ≤ r.journal.spare)) }
    ensures err { IfErr result (λ r. (r.presence ≡ parts.presence) × (r.groups ≡ parts.groups) × (r.journal.items ≡ parts.journal.items)) }
{
    let Parts {
        presence,
        groups,
        mut journal,
    } = parts;
    let came = journal.reserve(lines);
    let parts = Parts {
        presence,
        groups,
        journal,
    };
    match came {
        Ok(()) => Ok(parts),
        Err(_) => Err(parts),
    }
}

/// The shared book of the parts of a book, where there is memory for its table.
fn begin_with(
    alloc: Global,
    key: Key,
    parts: Parts,
    room: Room,
    lines: u64,
) -> Result<(SharedBook, Pass), BeginRefused>
    requires key { (key.book.value.presence ≡ parts.presence) × (key.book.value.journal ≡ parts.journal.items) }
    requires groups { AreReplayed parts.presence parts.journal.items parts.groups.items }
    requires lines { lines ≤ parts.journal.spare }
    requires words { room.words.items ≡ replicate (length parts.presence.plan.groups) 0 }
    requires slots { (room.slots.items ≡ []) × (vec_len room.slots ≡ 0) × (length parts.presence.plan.groups ≤ vec_capacity room.slots) }
    requires room { (room.groups.items ≡ []) × (vec_len room.groups ≡ 0) × (length parts.presence.plan.groups ≤ vec_capacity room.groups) }
    ensures ok { IfOk result (λ r. (opening r.0 ≡ key.book.value) × IsPassOf r.0 r.1 × (view r.1 ≡ new_pass 0 [])) }
    ensures lines { IfOk result (λ r. room_of r.0 ≡ lines) }
    ensures err { IfErr result (λ e. (e.book.presence ≡ parts.presence) × (e.book.journal ≡ parts.journal.items)) }
{
    let Parts {
        presence,
        groups,
        journal,
    } = parts;
    let Room {
        words,
        mut slots,
        groups: mut room,
    } = room;
    put_in(groups, &mut slots, &journal);
    match Table::new(alloc, &words, slots, &key) {
        Ok((table, seat)) => Ok((
            SharedBook {
                table,
                presence,
                journal,
                lines,
                room,
            },
            Pass {
                seat,
                number: 0,
                made: 0,
                out: 0,
            },
        )),
        Err(Refused { slots }) => {
            take_out(slots, &mut room);
            let book = Book::of_parts(
                alloc,
                Parts {
                    presence,
                    groups: room,
                    journal,
                },
            );
            Err(BeginRefused { book })
        }
    }
}

impl SharedBook {
    /// Opens a book to threads: the shared book, and its first pass. When it is shut, its journal has room for so many lines. At `Err`
    /// there was no memory, and the book comes back with its lines.
    pub fn begin(alloc: Global, book: Book, lines: u64) -> Result<(SharedBook, Pass), BeginRefused>
        ensures ok { IfOk result (λ r. (opening r.0 ≡ book) × IsPassOf r.0 r.1 × (view r.1 ≡ new_pass 0 [])) }
        ensures lines { IfOk result (λ r. room_of r.0 ≡ lines) }
        ensures err { IfErr result (λ e. (e.book.presence ≡ book.presence) × (e.book.journal ≡ book.journal)) }
    {
        let key = Key {
            book: Snapshot::of(&book),
        };
        let Ok(room) = room_for(alloc, book.plan().groups().len()) else {
            return Err(BeginRefused { book });
        };
        match with_lines(book.into_parts(), lines) {
            Ok(parts) => begin_with(alloc, key, parts, room, lines),
            Err(parts) => Err(BeginRefused {
                book: Book::of_parts(alloc, parts),
            }),
        }
    }
}
