//! A book after the Sends of three readings, whose frames are the parcels.

ghost use Rattle.std.specs.Prelude.{◌≡◌, ◌≤◌, IfOk, OnOk, None, []};
ghost use Rattle.shared_book.specs.Passes.{new_pass};
ghost use Rattle.shared_book.specs.Ends.{view, IsPassOf};

use crate::fixtures::{check_same, parcel, sent_book, shared_of};
use meter_frames::FrameError;
use round_machine::Verdict;
use shared_book::{CommitError, Parcel, Pass, Reply, SharedBook};
use std::alloc::Global;
use std::process::Abort;
use std::sync::Wait;
use std::test::Fail;
use transcript_log::Lines;

const FRESH: Reply = Reply::Took(Verdict::Fresh);

const AGAIN: Reply = Reply::Took(Verdict::Again);

const READINGS: [u64; 3] = [10, 10, 10];

const WORDS: [u64; 3] = [100, 101, 102];

/// The book of these rows, shared.
fn begun(alloc: Global) -> Result<(SharedBook, Pass), Fail>
    ensures { IfOk result (λ r. IsPassOf r.0 r.1 × (view r.1 ≡ new_pass 0 [])) }
{
    shared_of(alloc, sent_book(alloc, &READINGS, &WORDS)?)
}

/// No line, with room for so many.
fn room_for(alloc: Global, count: u64) -> Result<Lines, Fail>
    ensures { IfOk result (λ lines. count ≤ lines.spare) }
{
    let mut lines = Lines::new(alloc);
    lines.reserve(count)?;
    Ok(lines)
}

/// Commits a parcel with these lines, and looks for what it comes to.
fn check_with(
    rt: &(impl Wait + Abort),
    book: &SharedBook,
    pass: &mut Pass,
    parcel: &Parcel,
    answer: &Result<Reply, CommitError>,
    lines: &mut Lines,
    row: &str,
)
    requires pass { IsPassOf book.now pass.old × ((view pass.old).held ≡ None) }
    requires room { 1 ≤ lines.old.spare }
    ensures pass { IsPassOf book.now pass.new }
    ensures same { ((view pass.new).held ≡ None) × ((view pass.new).number ≡ (view pass.old).number) × ((view pass.new).out ≡ (view pass.old).out) }
{
    let came = book.commit(rt, pass, parcel, lines);
    check_same(rt, &came, answer, row);
    check_same(rt, &lines.len(), &usize::from(answer.is_ok()), row);
}

/// Commits a parcel, and looks for what it comes to.
fn check_parcel(
    rt: &(impl Wait + Abort),
    alloc: Global,
    book: &SharedBook,
    pass: &mut Pass,
    parcel: &Parcel,
    answer: &Result<Reply, CommitError>,
    row: &str,
) -> Result<(), Fail>
    requires { IsPassOf book.now pass.old × ((view pass.old).held ≡ None) }
    ensures pass { IsPassOf book.now pass.new }
    ensures same { ((view pass.new).held ≡ None) × ((view pass.new).number ≡ (view pass.old).number) × ((view pass.new).out ≡ (view pass.old).out) }
{
    let mut lines = room_for(alloc, 1)?;
    check_with(rt, book, pass, parcel, answer, &mut lines, row);
    Ok(())
}

/// The same with the frame of a reading.
fn check_commit(
    rt: &(impl Wait + Abort),
    alloc: Global,
    book: &SharedBook,
    pass: &mut Pass,
    meter: u8,
    reply: Reply,
    row: &str,
) -> Result<(), Fail>
    requires { IsPassOf book.now pass.old × ((view pass.old).held ≡ None) }
    ensures pass { IsPassOf book.now pass.new }
    ensures same { ((view pass.new).held ≡ None) × ((view pass.new).number ≡ (view pass.old).number) × ((view pass.new).out ≡ (view pass.old).out) }
{
    let parcel = parcel(meter, 100 + u64::from(meter));
    check_parcel(rt, alloc, book, pass, &parcel, &Ok(reply), row)
}

/// Looks for the lines that the book was opened with, and for the pages of its group.
fn check_shut(rt: &impl Abort, book: SharedBook, pass: Pass)
    requires { IsPassOf book pass × ((view pass).number ≡ 0) × ((view pass).held ≡ None) × ((view pass).out ≡ 0) }
{
    let parts = book.shut(pass);
    check_same(rt, &parts.journal.len(), &3, "the opening lines");
    check_same(rt, &parts.groups.len(), &1, "the groups");
}

#[test]
fn place_committed_again(rt: HostRuntime) -> Result<(), Fail> {
    let (book, mut pass) = begun(rt.alloc())?;
    check_commit(&rt, rt.alloc(), &book, &mut pass, 2, FRESH, "place 2")?;
    check_commit(&rt, rt.alloc(), &book, &mut pass, 0, FRESH, "place 0")?;
    check_commit(&rt, rt.alloc(), &book, &mut pass, 2, AGAIN, "place 2 again")?;
    check_shut(&rt, book, pass);
    Ok(())
}

#[test]
fn parcels_without_a_line(rt: HostRuntime) -> Result<(), Fail> {
    let (book, mut pass) = begun(rt.alloc())?;
    let bad = Err(CommitError::Frame(FrameError::Magic));
    let bytes = Parcel::Bytes([0; 52]);
    check_parcel(&rt, rt.alloc(), &book, &mut pass, &bytes, &bad, "no frame")?;
    let close = Parcel::Close { group: 1, round: 0 };
    let outside = Err(CommitError::Place);
    check_parcel(
        &rt,
        rt.alloc(),
        &book,
        &mut pass,
        &close,
        &outside,
        "no group",
    )?;
    let end = Parcel::End { group: 0, round: 1 };
    check_parcel(
        &rt,
        rt.alloc(),
        &book,
        &mut pass,
        &end,
        &outside,
        "no round",
    )?;
    check_shut(&rt, book, pass);
    Ok(())
}

/// Commits two places by two passes, and joins the second to the first. Passes on two threads are the rows of `gather`.
fn check_both(
    rt: &(impl Wait + Abort),
    alloc: Global,
    book: &SharedBook,
    first: &mut Pass,
) -> Result<(), Fail>
    requires { IsPassOf book.now first.old × (view first.old ≡ new_pass 0 []) }
    ensures { OnOk result (IsPassOf book.now first.new × ((view first.new).number ≡ 0) × ((view first.new).held ≡ None) × ((view first.new).out ≡ 0)) }
{
    let mut second = book.split(first);
    check_commit(rt, alloc, book, &mut second, 0, FRESH, "theirs")?;
    check_commit(rt, alloc, book, first, 1, FRESH, "mine")?;
    book.join(first, second);
    Ok(())
}

/// No pass is out, and one was made.
fn check_passes(rt: &impl Abort, first: &Pass) {
    check_same(rt, &first.out(), &0, "the passes that are out");
    check_same(rt, &first.made(), &1, "the passes that were made");
}

#[test]
fn two_passes_one_history(rt: HostRuntime) -> Result<(), Fail> {
    let (book, mut first) = begun(rt.alloc())?;
    check_both(&rt, rt.alloc(), &book, &mut first)?;
    check_passes(&rt, &first);
    check_commit(
        &rt,
        rt.alloc(),
        &book,
        &mut first,
        0,
        AGAIN,
        "place 0 again",
    )?;
    check_commit(&rt, rt.alloc(), &book, &mut first, 2, FRESH, "place 2")?;
    check_shut(&rt, book, first);
    Ok(())
}
