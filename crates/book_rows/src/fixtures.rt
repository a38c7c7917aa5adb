//! What several modules share: frames of readings, books of the group `north`, how lines are compared, and assertions, each of
//! which is made in one place, since every assertion of a body is proved by itself.

ghost use Rattle.std.specs.Prelude.{◌≡◌, ◌≤◌, IfOk, []};
ghost use Rattle.group_plan.specs.declared.Kind.TheVariants.{Reading};
ghost use Rattle.shared_book.specs.Passes.{new_pass};
ghost use Rattle.shared_book.specs.Ends.{view, IsPassOf};

use event_schedule::Line;
use group_book::{Book, SendAnswer};
use group_plan::{Plan, Presence, Readings};
use meter_frames::{Frame, encode};
use missing_round::MeterSet;
use mod_word::Word;
use row_fixtures::{group, plan_of_north, reading_tag, table};
use shared_book::{Parcel, Pass, SharedBook};
use std::alloc::Global;
use std::fmt::Debug;
use std::process::Abort;
use std::test::Fail;

/// Looks for this value.
pub(crate) fn check_same<T: PartialEq + Debug>(rt: &impl Abort, came: &T, value: &T, row: &str) {
    assert_eq!(rt; came, value, "at {row}");
}

/// Looks for these values.
pub(crate) fn check_all<T: PartialEq + Debug>(
    rt: &impl Abort,
    came: &[T],
    values: &[T],
    row: &str,
) {
    assert_eq!(rt; came, values, "at {row}");
}

/// Asks whether a fact is so.
pub(crate) fn check(rt: &impl Abort, is_so: bool, row: &str) {
    assert!(rt; is_so, "at {row}");
}

/// The frame of a reading in round 0.
pub(crate) fn reading_frame(meter: u8, word: u64) -> Frame
    ensures tag { result.tag ≡ record { group = 0; round = 0; meter = meter; kind = Reading } }
    ensures missing { result.missing ≡ [] }
{
    Frame {
        tag: reading_tag(0, 0, meter),
        missing: MeterSet::empty(),
        word: Word(word),
    }
}

pub(crate) fn parcel(meter: u8, word: u64) -> Parcel {
    Parcel::Bytes(encode(&reading_frame(meter, word)))
}

// Who of `north` has a reading in one round: its first meters, whose readings these are.
fn presence_of_north(alloc: Global, readings: &[u64]) -> Result<Presence, Fail> {
    let plan = plan_of_north(alloc, 1)?;
    let readings = table(alloc, &plan, readings)?;
    Ok(Presence::of(alloc, &readings)?)
}

/// A book without lines, with room for so many.
pub(crate) fn book_of(alloc: Global, presence: &Presence, lines: u64) -> Result<Book, Fail> {
    let mut book = Book::new(alloc, presence.plan(), presence)?;
    book.reserve(lines)?;
    Ok(book)
}

/// A book of `north` in one round with the readings of its first meters, and room for so many lines.
pub(crate) fn book_of_north(alloc: Global, readings: &[u64], lines: u64) -> Result<Book, Fail> {
    book_of(alloc, &presence_of_north(alloc, readings)?, lines)
}

fn send_reading(book: &mut Book, meter: u8, word: u64) -> Result<(), Fail> {
    book.reserve(1)?;
    match book.send(reading_frame(meter, word)) {
        SendAnswer::Sent => Ok(()),
        _ => Err("not sent".into()),
    }
}

/// A book of `north` after the Sends of readings under these words, with room for four lines.
pub(crate) fn sent_book(alloc: Global, readings: &[u64], words: &[u64]) -> Result<Book, Fail>
    ensures { IfOk result (λ book. 4 ≤ book.spare) }
{
    let mut book = book_of_north(alloc, readings, 0)?;
    let mut meter = 0u8;
    for word in words {
        send_reading(&mut book, meter, *word)?;
        meter = meter.wrapping_add(1);
    }
    book.reserve(4)?;
    Ok(book)
}

/// Shares a book.
pub(crate) fn shared_of(alloc: Global, book: Book) -> Result<(SharedBook, Pass), Fail>
    ensures { IfOk result (λ r. IsPassOf r.0 r.1 × (view r.1 ≡ new_pass 0 [])) }
{
    match SharedBook::begin(alloc, book, 0) {
        Ok(begun) => Ok(begun),
        Err(_) => Err(Fail::new("no memory")),
    }
}

/// A book of the groups `north` and `south`, of three meters each, in one round, without a reading.
pub(crate) fn book_of_two(alloc: Global) -> Result<Book, Fail> {
    let groups = [group(b"north", 3, 2)?, group(b"south", 3, 2)?];
    let plan = Plan::new(alloc, &groups, 1, 1, 2)?;
    let presence = Presence::of(alloc, &Readings::new(alloc, &plan)?)?;
    book_of(alloc, &presence, 0)
}

/// Whether the two lines are one.
pub(crate) fn is_same(line: &Line, other: &Line) -> bool {
    *line == *other
}
