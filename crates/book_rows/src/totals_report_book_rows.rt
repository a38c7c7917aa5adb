//! The report and the summary of a book, before its first event and after its last.

use crate::fixtures::{book_of_north, check_all, reading_frame};
use group_book::Book;
use std::alloc::Global;
use std::process::Abort;
use std::test::Fail;
use totals_report::{report, summary};

/// The reading is sent and taken.
fn send_and_take(book: &mut Book) -> Result<(), Fail> {
    let frame = reading_frame(0, 10);
    if book.spare() < 1 {
        return Err(Fail::new("no room"));
    }
    let _sent = book.send(frame);
    if book.spare() < 1 {
        return Err(Fail::new("no room"));
    }
    let _taken = book.take(&frame);
    Ok(())
}

/// The round is closed and ended.
fn close_and_end(book: &mut Book) -> Result<(), Fail> {
    if book.spare() < 1 || !book.has_round(0, 0) {
        return Err(Fail::new("no room"));
    }
    let _closed = book.close(0, 0);
    if book.spare() < 1 || !book.has_round(0, 0) {
        return Err(Fail::new("no room"));
    }
    let _ended = book.end(0, 0);
    Ok(())
}

/// The report and the summary of the book before its first event, and after its last.
static TEXTS: [(&str, &str); 2] = [
    (
        "group,round,survivors,missing,outcome,total\nnorth,0,0,0+1+2,open,\n",
        "rounds=1 totals=0 none=0 thin=0 sends=0 takes=0\n",
    ),
    (
        "group,round,survivors,missing,outcome,total\nnorth,0,1,1+2,thin,\n",
        "rounds=1 totals=0 none=0 thin=1 sends=1 takes=1\n",
    ),
];

/// Looks for this report of the book.
fn check_report(rt: &impl Abort, alloc: Global, book: &Book, text: &str) -> Result<(), Fail> {
    check_all(rt, &report(alloc, book)?, text.as_bytes(), "the report");
    Ok(())
}

/// Looks for this summary of the book.
fn check_summary(rt: &impl Abort, alloc: Global, book: &Book, text: &str) -> Result<(), Fail> {
    check_all(rt, &summary(alloc, book)?, text.as_bytes(), "the summary");
    Ok(())
}

/// Looks for both texts of the book at this place.
fn check_texts(rt: &impl Abort, alloc: Global, book: &Book, at: usize) -> Result<(), Fail> {
    let (report, summary) = TEXTS[at.min(1)];
    check_report(rt, alloc, book, report)?;
    check_summary(rt, alloc, book, summary)
}

#[test]
fn one_reading_is_thin(rt: HostRuntime) -> Result<(), Fail> {
    let mut book = book_of_north(rt.alloc(), &[10], 4)?;
    check_texts(&rt, rt.alloc(), &book, 0)?;
    send_and_take(&mut book)?;
    close_and_end(&mut book)?;
    check_texts(&rt, rt.alloc(), &book, 1)
}
