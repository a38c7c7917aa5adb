//! The sets of meters and the words of lines, kept small: 12 bytes for both, beside a list of the sets.

ghost use Rattle.std.specs.Prelude.{◌≡◌, ◌↔◌, ◌^◌, ◌*◌, ◌+◌, ◌-◌, ◌<◌, ◌≤◌, ◌++◌, [], ◌∷◌, List, ℕ, Some, IsTrue, IfOk, OnOk, length, slice_get, vec_len, vec_capacity};
ghost use Rattle.transcript_log.specs.Extras.{extra_at, extra_in, IsSetAt, Grows};

use missing_round::MeterSet;
use mod_word::Word;
use std::alloc::{AllocError, Global};
use std::marker::Model;
use std::mem::size_of;

/// How many may be kept, so that the place of each has 32 bits.
const MOST_EXTRAS: usize = 0xffff_ffff;

/// What a line has beside its 12 bytes: a set of meters and a word.
#[derive(Clone, Copy)]
pub(crate) struct Extra {
    pub set: MeterSet,
    pub word: Word,
}

/// An extra, with the place of its set. The word stands in two halves: with a number of 64 bits this would take 16 bytes.
#[derive(Clone, Copy)]
struct SmallExtra {
    set: u32,
    low: u32,
    high: u32,
}

// A run keeps one for each frame, so its size counts.
const _: () = prove!(size_of::<SmallExtra>() <= 12);

/// A list of extras. Those one after another that have the same set of meters keep it once.
#[derive(Drop)]
pub(crate) struct Extras {
    extras: Vec<SmallExtra>,
    sets: Vec<MeterSet>,
}

impl Model for Extras {
    ghost use Rattle.std.specs.Prelude.{map, vec_len, vec_capacity};
    ghost use Rattle.transcript_log.specs.Extras.{ExtrasView};

    ghost Value = { ExtrasView };

    ghost use Rattle.transcript_log.specs.Extras.{extra_in, spare_of, HaveSets};

    ghost view = { λ e. record { items = map (extra_in e.sets.items) e.extras.items; spare = spare_of (vec_capacity e.extras) (vec_len e.extras) (vec_capacity e.sets) (vec_len e.sets) } };

    ghost invariant = { λ e. HaveSets e.sets.items e.extras.items };
}

fn is_last(sets: &[MeterSet], set: MeterSet) -> bool
    ensures { IsTrue result ↔ (slice_get sets.now (length sets.now - 1) ≡ Some set) }
{
    match sets.last() {
        None => false,
        Some(last) => *last == set,
    }
}

/// The place of a set, which is added where the last one differs from it.
fn add_set(sets: &mut Vec<MeterSet>, set: MeterSet) -> u32
    requires room { vec_len sets.old < vec_capacity sets.old }
    requires few { vec_len sets.old < 2 ^ 32 - 1 }
    ensures place { IsSetAt sets.new.items result set }
    ensures sets { Grows sets.old.items sets.new.items }
    ensures capacity { vec_capacity sets.new ≡ vec_capacity sets.old }
{
    let len = sets.len();
    if is_last(sets, set) {
        return (len - 1) as u32;
    }
    sets.push_reserved(set);
    len as u32
}

/// A word of its halves.
fn joined(low: u32, high: u32) -> Word
    ensures { result ≡ low + 2 ^ 32 * high }
{
    Word(u64::from(low) | (u64::from(high) << 32))
}

fn small_extra(set: u32, word: Word) -> SmallExtra
    ensures place { result.set ≡ set }
    ensures word { result.low + 2 ^ 32 * result.high ≡ word }
{
    let number = word.value();
    SmallExtra {
        set,
        low: (number & 0xffff_ffff) as u32,
        high: (number >> 32) as u32,
    }
}

fn extra_in(sets: &[MeterSet], extra: SmallExtra) -> Extra
    requires { extra.set < length sets.now }
    ensures { result ≡ extra_in sets.now extra }
{
    Extra {
        set: sets[extra.set as usize],
        word: joined(extra.low, extra.high),
    }
}

impl Extras {
    /// No extra.
    pub(crate) fn new(alloc: Global) -> Extras
        ensures { result.items ≡ [] }
    {
        Extras {
            extras: Vec::new(alloc),
            sets: Vec::new(alloc),
        }
    }

    /// Makes room for so many extras, of which there are at most 2^32 - 1; `AllocError` where these may be more.
    pub(crate) fn reserve(&mut self, extras: usize) -> Result<(), AllocError>
        ensures room { OnOk result (extras ≤ self.new.spare) }
        ensures items { self.new.items ≡ self.old.items }
        ensures spare { self.old.spare ≤ self.new.spare }
    {
        if MOST_EXTRAS - self.extras.len() < extras {
            return Err(AllocError);
        }
        self.extras.reserve(extras)?;
        self.sets.reserve(extras)
    }

    /// For how many more extras there is room.
    pub(crate) fn spare(&self) -> usize
        ensures { result ≡ self.now.spare }
    {
        let extras = self.extras.capacity().min(MOST_EXTRAS) - self.extras.len();
        let sets = self.sets.capacity() - self.sets.len();
        extras.min(sets)
    }

    /// How many extras there are. It is the place of the next one.
    pub(crate) fn len(&self) -> u32
        ensures { result ≡ length self.now.items }
    {
        self.extras.len() as u32
    }

    /// The extra at a place, counted from 0.
    pub(crate) fn at(&self, at: u32) -> Extra
        requires { at < length self.now.items }
        ensures { result ≡ extra_at self.now.items at }
    {
        extra_in(&self.sets, self.extras[at as usize])
    }

    /// Adds an extra where there is room for it.
    pub(crate) fn push_reserved(&mut self, extra: Extra)
        requires { 0 < self.old.spare }
        ensures items { self.new.items ≡ self.old.items ++ extra ∷ [] }
        ensures spare { self.old.spare ≤ self.new.spare + 1 }
    {
        let set = add_set(&mut self.sets, extra.set);
        self.extras.push_reserved(small_extra(set, extra.word));
    }

    /// Forgets all extras, and keeps their memory for others.
    pub(crate) fn clear(&mut self)
        ensures { self.new.items ≡ [] }
    {
        self.extras.clear();
        self.sets.clear();
    }

    /// The same extras. For how many more there is room is not said.
    pub(crate) fn try_copy(&self) -> Result<Extras, AllocError>
        ensures { IfOk result (λ copy. copy.items ≡ self.now.items) }
    {
        Ok(Extras {
            extras: self.extras.clone()?,
            sets: self.sets.clone()?,
        })
    }
}
