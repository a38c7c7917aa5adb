//! Rows of reports, read and written, and their first faulty lines.

use crate::fixtures::{check, check_bytes, check_same};
use missing_round::MeterSet;
use std::alloc::Global;
use std::process::Abort;
use std::test::Fail;
use totals_report::{ReportError, ReportRow, RowOutcome, read_report, row_text};

const HEADING: &str = "group,round,survivors,missing,outcome,total\n";

// A report with these lines below this heading.
fn with_heading(alloc: Global, heading: &str, lines: &str) -> Result<Vec<u8>, Fail> {
    let mut text = Vec::from_slice(alloc, heading.as_bytes())?;
    text.extend_from_slice(lines.as_bytes())?;
    Ok(text)
}

// The first faulty line, or none.
fn fault_of(alloc: Global, text: &[u8]) -> Result<Option<u64>, ReportError> {
    match read_report(alloc, text) {
        Ok(_) => Ok(None),
        Err(ReportError::Line(line)) => Ok(Some(line)),
        Err(ReportError::Memory) => Err(ReportError::Memory),
    }
}

/// A round, its survivors, who is missing and its outcome.
type Expected = (u32, u16, MeterSet, RowOutcome);

// Looks for what a row of `north` has, and for its line.
fn check_row(
    rt: &impl Abort,
    alloc: Global,
    row: &ReportRow,
    line: &str,
    (round, survivors, missing, outcome): Expected,
) -> Result<(), Fail> {
    check_bytes(rt, row.name.bytes(), b"north", line);
    check(rt, row.round == round && row.survivors == survivors, line);
    check(rt, row.missing == missing && row.outcome == outcome, line);
    check_bytes(rt, &row_text(alloc, row)?, line.as_bytes(), line);
    Ok(())
}

// Looks for the one row of a report.
fn check_one_row(
    rt: &impl Abort,
    alloc: Global,
    rows: &[ReportRow],
    line: &str,
    expected: Expected,
) -> Result<(), Fail> {
    check_same(rt, &rows.len(), &1, line);
    match rows.first() {
        Some(row) => check_row(rt, alloc, row, line, expected),
        None => Ok(()),
    }
}

// Reads a report of one line.
fn check_line(rt: &impl Abort, alloc: Global, line: &str, expected: Expected) -> Result<(), Fail> {
    let mut text = with_heading(alloc, HEADING, line)?;
    text.push(b'\n')?;
    match read_report(alloc, text.as_slice()) {
        Ok(report) => check_one_row(rt, alloc, report.rows(), line, expected),
        Err(_) => Err(Fail::new("refused")),
    }
}

#[test]
fn rows_read_and_written(rt: HostRuntime) -> Result<(), Fail> {
    let none = MeterSet::empty();
    let one = none.with(2);
    let two = none.with(1).with(2);
    for (line, expected) in [
        ("north,0,3,-,total,60", (0, 3, none, RowOutcome::Total(60))),
        ("north,0,2,2,total,30", (0, 2, one, RowOutcome::Total(30))),
        ("north,0,3,-,none,", (0, 3, none, RowOutcome::Lacking)),
        ("north,1,1,1+2,thin,", (1, 1, two, RowOutcome::Thin)),
        (
            "north,2,0,0+1+2,open,",
            (2, 0, MeterSet::full(3), RowOutcome::Running),
        ),
    ] {
        check_line(&rt, rt.alloc(), line, expected)?;
    }
    Ok(())
}

// Texts, each with its first faulty line.
static TEXTS: [(&str, Option<u64>); 6] = [
    ("", Some(1)),
    ("group,round,survivors,missing,outcome,total", Some(1)),
    ("group,round,survivors,missing,outcome,total\r\n", Some(1)),
    (
        "\u{feff}group,round,survivors,missing,outcome,total\n",
        Some(1),
    ),
    ("group,round,survivors,missing,outcome\n", Some(1)),
    ("group,round,survivors,missing,outcome,total\n", None),
];

// Lines below the heading, each text of them with its first faulty line.
static LINES: [(&str, Option<u64>); 30] = [
    (
        "a-b_C-d_E-f_0123,4095,256,255,total,18446744073709551615\n",
        None,
    ),
    ("a,0,0,0+9+10+255,open,\nb,0,0,-,thin,\n", None),
    ("north,0,3,-,total,60", Some(2)),
    ("north,0,3,-,total,60\nnorth,1,3,-,total,60", Some(3)),
    ("north,0,3,-,total,60\n\n", Some(3)),
    ("north,0,3,-,total,60\r\n", Some(2)),
    ("\"north\",0,3,-,total,60\n", Some(2)),
    ("north,0,3,-,total\n", Some(2)),
    ("north,0,3,-,total,60,\n", Some(2)),
    (",0,3,-,total,60\n", Some(2)),
    ("a-b_C-d_E-f_01234,0,3,-,total,60\n", Some(2)),
    ("no rth,0,3,-,total,60\n", Some(2)),
    ("north,4096,3,-,total,60\n", Some(2)),
    ("north,00,3,-,total,60\n", Some(2)),
    ("north,,3,-,total,60\n", Some(2)),
    ("north,+1,3,-,total,60\n", Some(2)),
    ("north,0,257,-,total,60\n", Some(2)),
    ("north,0,3,,total,60\n", Some(2)),
    ("north,0,3,256,total,60\n", Some(2)),
    ("north,0,3,1+0,total,60\n", Some(2)),
    ("north,0,3,1+1,total,60\n", Some(2)),
    ("north,0,3,1+,total,60\n", Some(2)),
    ("north,0,3,-+1,total,60\n", Some(2)),
    ("north,0,3,-,Total,60\n", Some(2)),
    ("north,0,3,-,total,\n", Some(2)),
    ("north,0,3,-,total,060\n", Some(2)),
    ("north,0,3,-,total,18446744073709551616\n", Some(2)),
    ("north,0,3,-,none,0\n", Some(2)),
    ("north,0,3,-,open,-\n", Some(2)),
    ("north,0,3,-,lacking,\n", Some(2)),
];

// Looks for the first faulty line of each text below a heading.
fn check_faults(
    rt: &impl Abort,
    alloc: Global,
    heading: &str,
    texts: &[(&str, Option<u64>)],
) -> Result<(), Fail> {
    for (lines, line) in texts {
        let text = with_heading(alloc, heading, lines)?;
        check_same(rt, &fault_of(alloc, &text)?, line, lines);
    }
    Ok(())
}

#[test]
fn first_faulty_lines(rt: HostRuntime) -> Result<(), Fail> {
    check_faults(&rt, rt.alloc(), "", &TEXTS)?;
    check_faults(&rt, rt.alloc(), HEADING, &LINES)
}
