//! The rows, the report and the summary of a book.
ghost use Rattle.std.specs.Prelude.{◌≡◌, ◌<◌, ◌++◌, length, IfOk, IsTrue, OnOk};
ghost use Rattle.group_book.specs.Books.{BookView, outcome_of};
ghost use Rattle.group_book.specs.Places.{is_round};
ghost use Rattle.totals_report.specs.Reading.{rows_of_text};
ghost use Rattle.totals_report.specs.Rows.{AreRows};
ghost use Rattle.totals_report.specs.Books.{outcome_of_state, row_in, summary_in};
ghost use Rattle.totals_report.specs.Reports.{group_rows, report_row, report_rows, report_text, summary_text};

use crate::counts::{Counts, count_lines, count_outcomes};
use crate::row::{Report, ReportRow, RowOutcome};
use crate::writing::{rows_text, summary_line};
use event_schedule::members;
use group_book::{Book, Outcome, OutcomeState};
use group_plan::Plan;
use std::alloc::{AllocError, Global};

/// How a round stands in a report. A report does not say whose answers were lacking.
fn outcome_of_state(state: OutcomeState) -> RowOutcome
    ensures { result ≡ outcome_of_state state }
{
    match state {
        OutcomeState::Running => RowOutcome::Running,
        OutcomeState::Thin => RowOutcome::Thin,
        OutcomeState::Total(total) => RowOutcome::Total(total),
        OutcomeState::Lacking(_) => RowOutcome::Lacking,
    }
}

/// The row of a round that has come to this.
pub fn row_of(plan: &Plan, group: u16, round: u32, outcome: Outcome) -> ReportRow
    requires { IsTrue (is_round plan.now group round) }
    ensures { (b : BookView) → outcome ≡ outcome_of b group round → result ≡ report_row plan.now group round (row_in b group round) }
{
    ReportRow {
        name: plan.groups()[group as usize].name,
        round,
        survivors: outcome.survivors.len(),
        missing: members(plan, group, round).minus(outcome.survivors),
        outcome: outcome_of_state(outcome.state),
    }
}

/// Adds the rows of a group, by round.
fn push_group(rows: &mut Vec<ReportRow>, book: &Book, group: u16) -> Result<(), AllocError>
    requires { group < length book.now.presence.plan.groups }
    ensures { OnOk result (rows.new.items ≡ rows.old.items ++ group_rows book.now.presence.plan (row_in book.now) group) }
{
    for round in 0..book.plan().rounds() {
        let outcome = book.outcome(group, round);
        rows.push(row_of(book.plan(), group, round, outcome))?;
    }
    Ok(())
}

/// The rows of the book's rounds, by group and then by round.
pub fn rows_of(alloc: Global, book: &Book) -> Result<Report, AllocError>
    ensures rows { IfOk result (λ rows. rows ≡ report_rows book.now.presence.plan (row_in book.now)) }
    ensures form { IfOk result (λ rows. AreRows rows) }
{
    let mut rows = Vec::new(alloc);
    for group in 0..book.plan().groups().len() {
        push_group(&mut rows, book, group as u16)?;
    }
    Ok(Report::new(rows))
}

/// The text of the book's report.
pub fn report(alloc: Global, book: &Book) -> Result<Vec<u8>, AllocError>
    ensures text { IfOk result (λ text. text.items ≡ report_text book.now.presence.plan (row_in book.now)) }
    ensures read_again { IfOk result (λ text. rows_of_text text.items ≡ Ok (report_rows book.now.presence.plan (row_in book.now))) }
{
    let report = rows_of(alloc, book)?;
    rows_text(alloc, report.rows())
}

/// The line of the book's summary, with its newline.
pub fn summary(alloc: Global, book: &Book) -> Result<Vec<u8>, AllocError>
    ensures { IfOk result (λ text. text.items ≡ summary_text (summary_in book.now)) }
{
    let report = rows_of(alloc, book)?;
    let outcomes = count_outcomes(report.rows());
    let (sends, takes) = count_lines(book.journal());
    let plan = book.plan();
    let counts = Counts {
        rounds: plan.groups().len() as u64 * u64::from(plan.rounds()),
        totals: outcomes.totals,
        nones: outcomes.nones,
        thins: outcomes.thins,
        sends,
        takes,
    };
    summary_line(alloc, &counts)
}
