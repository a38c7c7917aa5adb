//! The notes of a meter in a small form: 8 bytes a round, beside the sets that they name.

ghost use Rattle.std.specs.Prelude.{◌≡◌, ◌↔◌, ◌^◌, ◌+◌, ◌<◌, ◌≤◌, ◌++◌, List, [], ◌∷◌, Some, None, ℕ, All, IsTrue, IfOk, length, replicate, slice_index_or, slice_set, vec_len, vec_capacity};
ghost use Rattle.missing_round.specs.Sets.{members};
ghost use Rattle.meter_core.specs.Meters.{blank};
ghost use Rattle.meter_core.specs.SmallNotes.{bits_at, set_at, IsPlaced, IsNotePlaced, StandsAt, Grows};

use missing_round::MeterSet;
use std::alloc::{AllocError, Global};
use std::marker::Model;
use std::mem::size_of;

/// How many blocks of 64 bits the two sets of a round take at most.
const BLOCKS_A_ROUND: usize = 8;

/// Where a set stands in a list of blocks of 64 bits.
#[derive(Clone, Copy)]
enum SetPlace {
    /// There is no set.
    Nowhere,
    /// In the block here: its meters are below 64.
    One(u16),
    /// In four blocks from here on.
    Four(u16),
}

/// Where the two sets of a note stand.
#[derive(Clone, Copy)]
struct SmallNote {
    members: SetPlace,
    kept: SetPlace,
}

// A meter has one for each round, so its size counts.
const _: () = prove!(size_of::<SmallNote>() <= 8);

/// The note of a round of which nothing is known.
const BLANK: SmallNote = SmallNote {
    members: SetPlace::Nowhere,
    kept: SetPlace::Nowhere,
};

/// A note for each round. A set that is the same as in the round before is kept once.
#[derive(Drop)]
pub(crate) struct Notes {
    notes: Vec<SmallNote>,
    blocks: Vec<u64>,
}

impl Model for Notes {
    ghost use Rattle.std.specs.Prelude.{List, map, vec_capacity};
    ghost use Rattle.meter_core.specs.Notes.{Note};
    ghost use Rattle.meter_core.specs.SmallNotes.{note_in, AreKept};

    ghost Value = { List Note };

    ghost view = { λ n. map (note_in n.blocks.items) n.notes.items };

    ghost invariant = { λ n. AreKept n.blocks.items (vec_capacity n.blocks) n.notes.items };
}

fn bits_at(blocks: &[u64], place: SetPlace) -> Option<[u64; 4]>
    requires { IsPlaced (length blocks.now) place }
    ensures { result ≡ bits_at blocks.now place }
{
    match place {
        SetPlace::Nowhere => None,
        SetPlace::One(at) => Some([blocks[at as usize], 0, 0, 0]),
        SetPlace::Four(at) => {
            let at = at as usize;
            Some([blocks[at], blocks[at + 1], blocks[at + 2], blocks[at + 3]])
        }
    }
}

fn set_of(bits: [u64; 4]) -> MeterSet
    ensures { result ≡ members bits }
{
    let Ok(set) = MeterSet::from_bits(256, bits) else {
        unreachable!()
    };
    set
}

fn set_at(blocks: &[u64], place: SetPlace) -> Option<MeterSet>
    requires { IsPlaced (length blocks.now) place }
    ensures { result ≡ set_at blocks.now place }
{
    match bits_at(blocks, place) {
        None => None,
        Some(bits) => Some(set_of(bits)),
    }
}

/// Whether these bits stand at the place.
fn stands_at(blocks: &[u64], place: SetPlace, bits: [u64; 4]) -> bool
    requires { IsPlaced (length blocks.now) place }
    ensures { IsTrue result ↔ (bits_at blocks.now place ≡ Some bits) }
{
    match bits_at(blocks, place) {
        None => false,
        Some(there) => there == bits,
    }
}

fn push_all(blocks: &mut Vec<u64>, bits: [u64; 4])
    requires { vec_len blocks.old + 4 ≤ vec_capacity blocks.old }
    ensures items { blocks.new.items ≡ blocks.old.items ++ bits }
    ensures capacity { vec_capacity blocks.new ≡ vec_capacity blocks.old }
{
    let [a, b, c, d] = bits;
    blocks.push_reserved(a);
    blocks.push_reserved(b);
    blocks.push_reserved(c);
    blocks.push_reserved(d);
}

/// Adds the bits of a set, in one block where this is enough.
fn add_bits(blocks: &mut Vec<u64>, bits: [u64; 4]) -> SetPlace
    requires room { vec_len blocks.old + 4 ≤ vec_capacity blocks.old }
    requires few { vec_capacity blocks.old ≤ 2 ^ 15 }
    ensures place { StandsAt blocks.new.items bits result }
    ensures blocks { Grows blocks.old.items blocks.new.items }
    ensures capacity { vec_capacity blocks.new ≡ vec_capacity blocks.old }
{
    let at = blocks.len() as u16;
    let [low, second, third, fourth] = bits;
    if second == 0 && third == 0 && fourth == 0 {
        blocks.push_reserved(low);
        return SetPlace::One(at);
    }
    push_all(blocks, bits);
    SetPlace::Four(at)
}

/// The place of a set's bits, which are added where others stand at the place before.
fn place_of(blocks: &mut Vec<u64>, before: SetPlace, bits: [u64; 4]) -> SetPlace
    requires room { vec_len blocks.old + 4 ≤ vec_capacity blocks.old }
    requires few { vec_capacity blocks.old ≤ 2 ^ 15 }
    requires before { IsPlaced (length blocks.old.items) before }
    ensures place { StandsAt blocks.new.items bits result }
    ensures blocks { Grows blocks.old.items blocks.new.items }
    ensures capacity { vec_capacity blocks.new ≡ vec_capacity blocks.old }
{
    if stands_at(blocks, before, bits) {
        return before;
    }
    add_bits(blocks, bits)
}

/// The note before one, a blank one where it is the first.
fn note_before(notes: &[SmallNote], at: usize) -> SmallNote
    requires { at < length notes.now }
    ensures { (n : ℕ) → All (IsNotePlaced n) notes.now → IsNotePlaced n result }
{
    if at == 0 {
        return BLANK;
    }
    notes[at - 1]
}

impl Notes {
    /// Blank notes for so many rounds.
    pub(crate) fn new(alloc: Global, rounds: usize) -> Result<Notes, AllocError>
        requires { rounds ≤ 4096 }
        ensures { IfOk result (λ made. made ≡ replicate rounds blank) }
    {
        // The room for sets takes no memory until a set stands there.
        let blocks = Vec::with_capacity(alloc, BLOCKS_A_ROUND * rounds)?;
        let notes = vec![in alloc; BLANK; rounds]?;
        Ok(Notes { notes, blocks })
    }

    /// How many rounds there are.
    pub(crate) fn len(&self) -> usize
        ensures { result ≡ length self.now }
    {
        self.notes.len()
    }

    /// The members of a round, once they are noted.
    pub(crate) fn members(&self, round: usize) -> Option<MeterSet>
        requires { round < length self.now }
        ensures { result ≡ (slice_index_or self.now round blank).members }
    {
        set_at(&self.blocks, self.notes[round].members)
    }

    /// The answered set of a round, once it is noted.
    pub(crate) fn kept(&self, round: usize) -> Option<MeterSet>
        requires { round < length self.now }
        ensures { result ≡ (slice_index_or self.now round blank).kept }
    {
        set_at(&self.blocks, self.notes[round].kept)
    }

    /// Notes the members of a round that has none yet.
    pub(crate) fn mark(&mut self, round: usize, members: MeterSet)
        requires round { round < length self.old }
        requires first { (slice_index_or self.old round blank).members ≡ None }
        ensures { self.new ≡ slice_set self.old round (record { members = Some members; kept = (slice_index_or self.old round blank).kept }) }
    {
        let before = note_before(&self.notes, round).members;
        let place = place_of(&mut self.blocks, before, members.bits());
        self.notes[round].members = place;
    }

    /// Notes the answered set of a round that has none yet.
    pub(crate) fn keep(&mut self, round: usize, kept: MeterSet)
        requires round { round < length self.old }
        requires first { (slice_index_or self.old round blank).kept ≡ None }
        ensures { self.new ≡ slice_set self.old round (record { members = (slice_index_or self.old round blank).members; kept = Some kept }) }
    {
        let before = note_before(&self.notes, round).kept;
        let place = place_of(&mut self.blocks, before, kept.bits());
        self.notes[round].kept = place;
    }
}
