//! Lists of stamps that are kept small: equal ones one after another take 12 bytes, however many there are.

ghost use Rattle.std.specs.Prelude.{◌≡◌, ◌<◌, ◌^◌, ◌+◌, ◌≤◌, [], ◌++◌, true, false, IfOk, OnOk, OnErr, drop, length, replicate};
ghost use Rattle.transcript_log.specs.Stretches.{stamps_in};

use crate::transcript::{Stamp, fate_is};
use std::alloc::{AllocError, Global};
use std::marker::Model;
use std::mem::size_of;

/// So many stamps one after another, all the same.
#[derive(Clone, Copy)]
struct Stretch {
    stamp: Stamp,
    count: u32,
}

// A run can have one for each Send, so its size counts.
const _: () = prove!(size_of::<Stretch>() <= 12);

/// A list of stamps. Equal ones one after another are kept once, with their number.
#[derive(Drop)]
pub(crate) struct Stretches {
    stretches: Vec<Stretch>,
    len: usize,
}

impl Model for Stretches {
    ghost use Rattle.std.specs.Prelude.{◌≡◌, List, length};
    ghost use Rattle.transcript_log.specs.declared.transcript.Stamp.{Stamp};
    ghost use Rattle.transcript_log.specs.Stretches.{stamps_in};

    ghost Value = { List Stamp };

    ghost view = { λ s. stamps_in s.stretches.items };

    ghost invariant = { λ s. s.len ≡ length (stamps_in s.stretches.items) };
}

/// Whether two stamps are the same.
fn is_same(one: &Stamp, other: &Stamp) -> bool
    ensures { result ≡ true → one.now ≡ other.now }
{
    fate_is(one.fate);
    fate_is(other.fate);
    one == other
}

/// Makes the last stretch longer by so many, where it has this stamp and its count has room for them.
fn lengthen(stretches: &mut [Stretch], stamp: &Stamp, count: u32) -> bool
    ensures longer { result ≡ true → stamps_in stretches.new ≡ stamps_in stretches.old ++ replicate count stamp.now }
    ensures same { result ≡ false → stretches.new ≡ stretches.old }
{
    match stretches.last_mut() {
        Some(last) if is_same(&last.stamp, stamp) && last.count <= u32::MAX - count => {
            last.count += count;
            true
        }
        _ => false,
    }
}

/// Adds so many of a stamp: to the last stretch where that may be, else as a stretch of their own.
fn add(stretches: &mut Vec<Stretch>, stamp: Stamp, count: u32) -> Result<(), AllocError>
    ensures ok { OnOk result (stamps_in stretches.new.items ≡ stamps_in stretches.old.items ++ replicate count stamp) }
    ensures err { OnErr result (stamps_in stretches.new.items ≡ stamps_in stretches.old.items) }
{
    if lengthen(stretches, &stamp, count) {
        return Ok(());
    }
    stretches.reserve(1)?;
    stretches.push_reserved(Stretch { stamp, count });
    Ok(())
}

/// The stamps that stretches stand for, one by one, with memory for about so many.
fn spell_out(alloc: Global, count: usize, stretches: &[Stretch]) -> Result<Vec<Stamp>, AllocError>
    ensures { IfOk result (λ stamps. stamps.items ≡ stamps_in stretches.now) }
{
    let mut stamps = Vec::with_capacity(alloc, count)?;
    for stretch in stretches {
        let len = stamps.len() + stretch.count as usize;
        stamps.resize(len, stretch.stamp)?;
    }
    Ok(stamps)
}

/// The place of the first of the last stretches that have at least so many stamps, and how many these have.
fn last_stretches(stretches: &[Stretch], wanted: usize) -> (usize, usize)
    requires enough { wanted ≤ length (stamps_in stretches.now) }
    requires few { length (stamps_in stretches.now) < 2 ^ 64 }
    ensures place { result.0 ≤ length stretches.now }
    ensures len { result.1 ≡ length (stamps_in (drop result.0 stretches.now)) }
    ensures enough { wanted ≤ result.1 }
{
    let mut at = stretches.len();
    let mut len = 0;
    while len < wanted {
        at -= 1;
        len += stretches[at].count as usize;
    }
    (at, len)
}

impl Stretches {
    /// No stamp, with memory for about so many stretches.
    pub(crate) fn with_room(alloc: Global, stretches: usize) -> Result<Stretches, AllocError>
        ensures { IfOk result (λ made. made ≡ []) }
    {
        Ok(Stretches {
            stretches: Vec::with_capacity(alloc, stretches)?,
            len: 0,
        })
    }

    /// How many stamps there are.
    pub(crate) fn len(&self) -> usize
        ensures { result ≡ length self.now }
    {
        self.len
    }

    /// Adds so many of a stamp at the end.
    pub(crate) fn push(&mut self, stamp: Stamp, count: u32) -> Result<(), AllocError>
        requires { length self.old + count < 2 ^ 64 }
        ensures ok { OnOk result (self.new ≡ self.old ++ replicate count stamp) }
        ensures err { OnErr result (self.new ≡ self.old) }
    {
        add(&mut self.stretches, stamp, count)?;
        self.len += count as usize;
        Ok(())
    }

    /// The stamps one by one.
    pub(crate) fn spelled_out(&self) -> Result<Vec<Stamp>, AllocError>
        ensures { IfOk result (λ stamps. stamps.items ≡ self.now) }
    {
        spell_out(*self.stretches.allocator(), self.len, &self.stretches)
    }

    /// The stamps from a place on, one by one.
    pub(crate) fn tail(&self, from: usize) -> Result<Vec<Stamp>, AllocError>
        requires { from ≤ length self.now }
        ensures { IfOk result (λ stamps. stamps.items ≡ drop from self.now) }
    {
        let alloc = *self.stretches.allocator();
        let wanted = self.len - from;
        let (first, len) = last_stretches(&self.stretches, wanted);
        let stamps = spell_out(alloc, len, &self.stretches[first..])?;
        Vec::from_slice(alloc, &stamps[len - wanted..])
    }
}
