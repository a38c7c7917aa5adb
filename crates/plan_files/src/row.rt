//! What the fields of a row may hold.
ghost use Rattle.std.specs.Prelude.{◌≡◌, ◌<◌, ◌≤◌, ◌==◌, ◌^◌, [], bytes_eq, length, nat_lt, slice_index_or, take};
ghost use Rattle.std.specs.List.{list_all};
ghost use Rattle.plan_files.specs.KeptRows.{IsKept, fields_in, most_bytes, most_fields};
ghost use Rattle.plan_files.specs.RegisterParts.{ReadsField, ReadsNumbers};
ghost use Rattle.plan_files.specs.PlanRows.{has_fields, key_in, name_in, number_in};

use crate::fault::FileCause;
use crate::kept_row::FileRow;
use crate::key::read_key;
use arrayvec::ArrayVec;
use field_texts::{cut, read_number, read_number_within};
use group_plan::Name;

/// The largest reading, in watt-hours.
const MOST_READING: u64 = (1 << 40) - 1;

/// The numbers of a field, one for each register.
pub type Numbers = ArrayVec<u64, 8>;

/// The bound of all numbers but readings.
const NUMBER_BOUND: u64 = 1 << 32;

/// What is kept of the field at a place, counted from 0; empty past the end of the row.
pub fn kept_field<'r>(row: &'r FileRow<'_>, place: usize) -> &'r [u8]
    requires kept { IsKept row.now }
    requires place { place < most_fields }
    ensures { result.now ≡ take most_bytes (slice_index_or (fields_in row.now) place []) }
{
    match row.kept.get(place) {
        Some(field) => field,
        None => &[],
    }
}

/// Whether the field at a place is this word.
#[tactic(auto, using(crate::proofs::KeptLemmas::same_word))]
pub fn is_word(row: &FileRow<'_>, place: usize, word: &[u8]) -> bool
    requires kept { IsKept row.now }
    requires place { place < most_fields }
    requires short { length word.now < most_bytes }
    ensures { result ≡ bytes_eq (slice_index_or (fields_in row.now) place []) word.now }
{
    kept_field(row, place) == word
}

/// Whether a row has so many fields.
pub fn is_long(row: &FileRow<'_>, count: usize) -> bool
    requires kept { IsKept row.now }
    requires few { count < most_fields }
    ensures { result ≡ (length (fields_in row.now) == count) }
{
    row.kept.len() == count
}

/// Refuses a row that hasn't this many fields.
#[tactic(auto, unfolding(crate::specs::PlanRows::has_fields))]
pub fn check_fields(row: &FileRow<'_>, count: usize) -> Result<(), FileCause>
    requires kept { IsKept row.now }
    requires few { count < most_fields }
    ensures { result ≡ has_fields count (fields_in row.now) }
{
    if !is_long(row, count) {
        return Err(FileCause::Fields);
    }
    Ok(())
}

/// The number below 2^32 in the field at a place.
#[tactic(auto, unfolding(crate::specs::PlanRows::number_in), using(crate::proofs::KeptLemmas::same_number))]
pub fn number_field(row: &FileRow<'_>, place: usize) -> Result<u32, FileCause>
    requires kept { IsKept row.now }
    requires place { place < most_fields }
    ensures { result ≡ number_in (fields_in row.now) place }
{
    match read_number_within(kept_field(row, place), 0, NUMBER_BOUND) {
        Some(number) => Ok(number as u32),
        None => Err(FileCause::Number),
    }
}

/// The key of 64 hexadecimal digits of either case in the field at a place.
#[tactic(auto, unfolding(crate::specs::PlanRows::key_in), using(crate::proofs::KeptLemmas::same_key))]
pub fn key_field(row: &FileRow<'_>, place: usize) -> Result<[u8; 32], FileCause>
    requires kept { IsKept row.now }
    requires place { place < most_fields }
    ensures { result ≡ key_in (fields_in row.now) place }
{
    match read_key(kept_field(row, place)) {
        Some(key) => Ok(key),
        None => Err(FileCause::Hex),
    }
}

/// The name in the field at a place.
#[tactic(auto, unfolding(crate::specs::PlanRows::name_in), using(crate::proofs::KeptLemmas::same_name))]
pub fn name_field(row: &FileRow<'_>, place: usize) -> Result<Name, FileCause>
    requires kept { IsKept row.now }
    requires place { place < most_fields }
    ensures { result ≡ name_in (fields_in row.now) place }
{
    match Name::new(kept_field(row, place)) {
        Some(name) => Ok(name),
        None => Err(FileCause::Name),
    }
}

// The numbers below 2^64 that a text writes, joined by `+`, where there are so many.
fn read_numbers(text: &[u8], count: usize) -> Option<Numbers>
    requires { (1 ≤ count) × (count ≤ 8) }
    ensures { ReadsNumbers count text.now result }
{
    let mut numbers = Numbers::new();
    let mut rest = text;
    for _done in 0..count - 1 {
        let Some((part, after)) = cut(b'+', rest) else {
            return None;
        };
        let Some(number) = read_number(part) else {
            return None;
        };
        numbers.push(number);
        rest = after;
    }
    let Some(number) = read_number(rest) else {
        return None;
    };
    numbers.push(number);
    Some(numbers)
}

// Whether each of them is a reading.
fn are_readings(numbers: &[u64]) -> bool
    ensures { result ≡ list_all (λ n. nat_lt n (2 ^ 40)) numbers.now }
{
    for number in numbers {
        if *number > MOST_READING {
            return false;
        }
    }
    true
}

// The readings that a field says, one for each of so many registers, of a member of the round or of a meter that is none.
#[tactic(auto, using(crate::proofs::RegisterLemmas::field_absent, crate::proofs::RegisterLemmas::field_alien, crate::proofs::RegisterLemmas::field_bad, crate::proofs::RegisterLemmas::field_far, crate::proofs::RegisterLemmas::reads_numbers))]
fn readings(text: &[u8], count: usize, is_member: bool) -> Result<Option<Numbers>, FileCause>
    requires { (1 ≤ count) × (count ≤ 8) }
    ensures { ReadsField count is_member text.now result }
{
    if text.is_empty() {
        return Ok(None);
    }
    if !is_member {
        return Err(FileCause::NotMember);
    }
    match read_numbers(text, count) {
        None => Err(FileCause::Number),
        Some(numbers) if are_readings(&numbers) => Ok(Some(numbers)),
        Some(_) => Err(FileCause::Range),
    }
}

/// The readings that the field at a place says, one for each of so many registers, of a member of the round or of a meter that is none.
pub fn readings_field(
    row: &FileRow<'_>,
    place: usize,
    count: usize,
    is_member: bool,
) -> Result<Option<Numbers>, FileCause>
    requires kept { IsKept row.now }
    requires place { place < most_fields }
    requires count { (1 ≤ count) × (count ≤ 8) }
    ensures { ReadsField count is_member (slice_index_or (fields_in row.now) place []) result }
{
    readings(kept_field(row, place), count, is_member)
}
