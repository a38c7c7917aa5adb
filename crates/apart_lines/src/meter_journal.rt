//! The lines of a meter's journal.

ghost use Rattle.std.specs.Prelude.{◌≡◌, ◌++◌, ◌^◌, OnOk, Some};
ghost use Rattle.field_texts.specs.Numbers.{number_of, within};
ghost use Rattle.field_texts.specs.Sets.{set_of};
ghost use Rattle.meter_apart.specs.declared.answers.Noted.TheVariants.{Read, Kept};
ghost use Rattle.apart_lines.specs.Journals.{noted_text, noted_of, in_round, HasNoted, IsNotedOf};

use crate::fields::{Fields, split};
use field_texts::{put_number, put_set, read_number, read_number_within, read_set};
use meter_apart::Noted;
use missing_round::MeterSet;
use std::alloc::AllocError;

// The reading that was marked for a round.
fn read(round: &[u8], reading: &[u8]) -> Option<Noted>
    ensures { result ≡ in_round Read (within 0 (2 ^ 32) (number_of round.now)) (number_of reading.now) }
{
    let Some(round) = read_number_within(round, 0, 1 << 32) else {
        return None;
    };
    match read_number(reading) {
        Some(reading) => Some(Noted::Read {
            round: round as u32,
            reading,
        }),
        None => None,
    }
}

// The set that is kept for a round.
fn kept(round: &[u8], set: &[u8]) -> Option<Noted>
    ensures { result ≡ in_round Kept (within 0 (2 ^ 32) (number_of round.now)) (set_of 256 set.now) }
{
    let Some(round) = read_number_within(round, 0, 1 << 32) else {
        return None;
    };
    match read_set(set, 256) {
        Some(set) => Some(Noted::Kept {
            round: round as u32,
            set,
        }),
        None => None,
    }
}

// What a line says.
#[tactic(auto, unfolding(crate::specs::Journals::noted_of))]
fn noted(line: &[u8]) -> Option<Noted>
    ensures { result ≡ noted_of line.now }
{
    match split(line) {
        Fields::Three(word, round, rest) => {
            if word == b"r".as_slice() {
                read(round, rest)
            } else if word == b"s".as_slice() {
                kept(round, rest)
            } else {
                None
            }
        }
        Fields::One(_) | Fields::Two(_, _) | Fields::More(_) => None,
    }
}

/// What a line of a meter's journal says, without its newline; nothing where it is of another form.
#[tactic(auto, using(crate::proofs::JournalLemmas::noted_read))]
pub fn read_noted(line: &[u8]) -> Option<Noted>
    ensures read { result ≡ noted_of line.now }
    ensures written { IsNotedOf line.now result }
{
    noted(line)
}

// Appends the line of a reading that was marked.
#[tactic(auto, using(crate::proofs::JournalLemmas::noted_again), unfolding(crate::specs::Journals::noted_text))]
fn put_read(out: &mut Vec<u8>, round: u32, reading: u64) -> Result<(), AllocError>
    ensures text { OnOk result (out.new.items ≡ out.old.items ++ noted_text (Read round reading)) }
    ensures has { HasNoted (Read round reading) }
{
    out.extend_from_slice(b"r,")?;
    put_number(out, u64::from(round))?;
    out.extend_from_slice(b",")?;
    put_number(out, reading)
}

// What the types of a round and of a set say of them.
fn kept_fits(round: u32, set: MeterSet)
    ensures { HasNoted (Kept round set) }
{
    let _bits = set.bits();
}

// Appends the line of a set that is kept.
#[tactic(auto, unfolding(crate::specs::Journals::noted_text))]
fn put_kept(out: &mut Vec<u8>, round: u32, set: MeterSet) -> Result<(), AllocError>
    ensures text { OnOk result (out.new.items ≡ out.old.items ++ noted_text (Kept round set)) }
    ensures has { HasNoted (Kept round set) }
{
    kept_fits(round, set);
    out.extend_from_slice(b"s,")?;
    put_number(out, u64::from(round))?;
    out.extend_from_slice(b",")?;
    put_set(out, set)
}

/// Appends a line of a meter's journal, without its newline. At `Err` a part may stand at the end.
#[tactic(auto, using(crate::proofs::JournalLemmas::noted_again))]
pub fn put_noted(out: &mut Vec<u8>, line: &Noted) -> Result<(), AllocError>
    ensures text { OnOk result (out.new.items ≡ out.old.items ++ noted_text line.now) }
    // So `read_noted` gives the line back.
    ensures read_back { noted_of (noted_text line.now) ≡ Some line.now }
{
    match line {
        Noted::Read { round, reading } => put_read(out, *round, *reading),
        Noted::Kept { round, set } => put_kept(out, *round, *set),
    }
}
