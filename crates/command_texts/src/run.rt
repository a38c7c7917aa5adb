//! The texts of a run.

ghost use Rattle.std.specs.Prelude.{◌≡◌, IfOk, string_bytes, ℕ, List, []};
ghost use Rattle.command_texts.specs.Runs.{least_line, IsSaidBy, AreValues, Makes};
ghost use Rattle.group_book.specs.Books.{past, shape_of};
ghost use Rattle.totals_report.specs.Books.{summary_in};
ghost use Rattle.totals_report.specs.Reports.{summary_text};
ghost use Rattle.event_schedule.specs.Events.{lines_of};
ghost use Rattle.command_texts.specs.RunTexts.{AreTextsOf, texts_of};
ghost use Rattle.link_lanes.specs.Lanes.{Meaning};
ghost use Rattle.link_lanes.specs.Racks.{HasRoom, posts_of, slots};
ghost use Rattle.pair_keys.specs.Keys.{table_of};
ghost use Rattle.plan_files.specs.PlanFiles.{view_of};

use crate::sharing::Sharing;
use crate::values::RunInput;
use collector_workers::{Crew, Gate};
use group_book::Book;
use link_lanes::Lane;
use sparse_masks::least_of_book;
use std::alloc::{AllocError, Global};
use std::sync::Wait;
use std::thread::Threads;
use tick_run::{Finished, RunError, run_plan};
use totals_report::{report, summary};
use transcript_log::Transcript;

/// The texts of a run. That of the transcript is long, and made only as it is put.
#[derive(Drop)]
pub struct RunTexts {
    pub transcript: Transcript,
    pub report: Vec<u8>,
    pub summary: Vec<u8>,
}

// The line of the fewest meters whose sum is open.
#[tactic(auto, unfolding(crate::specs::Runs::least_line))]
fn least_line(alloc: Global, least: u16) -> Result<String, AllocError>
    ensures { IfOk result (λ text. string_bytes text ≡ least_line least) }
{
    format!(in alloc; "ring: least={least}\n")
}

// What is said of a book: its summary, and where neighbours alone share words the fewest meters whose sum is open.
fn said_of(alloc: Global, book: &Book, sharing: Sharing) -> Result<Vec<u8>, AllocError>
    ensures { IfOk result (λ text. IsSaidBy sharing (shape_of book.now) (past book.now) (summary_text (summary_in book.now)) text.items) }
{
    let mut text = summary(alloc, book)?;
    match sharing {
        Sharing::WithEach => Ok(text),
        Sharing::WithNeighbours(width) => {
            let least = least_of_book(alloc, book, width)?;
            let line = least_line(alloc, least)?;
            text.extend_from_slice(line.as_bytes())?;
            Ok(text)
        }
    }
}

/// The texts of a finished run. Once the book has told what it came to, it gives the transcript its lines.
#[tactic(auto, using(crate::proofs::RunLemmas::text_is_read))]
pub fn finished_texts(
    alloc: Global,
    finished: Finished,
    sharing: Sharing,
) -> Result<RunTexts, AllocError>
    requires { finished.book.journal ≡ lines_of finished.transcript.entries }
    ensures transcript { IfOk result (λ kept. kept.transcript ≡ finished.transcript) }
    ensures texts { IfOk result (λ kept. AreTextsOf sharing finished.book finished.transcript (texts_of kept)) }
{
    let Finished { book, transcript } = finished;
    let report = report(alloc, &book)?;
    let summary = said_of(alloc, &book, sharing)?;
    let transcript = transcript.finish(book.into_journal())?;
    let _entries = transcript.len();
    Ok(RunTexts {
        transcript,
        report,
        summary,
    })
}

/// The same of a run of which nothing is written ahead, whose meters share words with each other one.
pub fn texts_in_memory<R: Threads + Wait + Sync, G: Gate>(
    crew: &Crew<'_, R, G>,
    input: RunInput,
) -> Result<RunTexts, AllocError>
    requires keys { (table_of input.file.keys).plan ≡ input.file.plan }
    requires same_plan { input.readings.plan ≡ input.file.plan }
    requires posts { posts_of input.rack ≡ [] }
    requires room { HasRoom (λ b. meaning (b.vtable, b.value)) input.rack }
    ensures { (cupboard : List Meaning) (p r : List ℕ) → AreValues cupboard p r (record { file = view_of input.file; slots = slots (λ b. meaning (b.vtable, b.value)) input.rack; readings = input.readings })
        → IfOk result (λ kept. Makes cupboard p r (texts_of kept)) }
{
    let RunInput {
        file: plan,
        mut rack,
        readings,
    } = input;
    let finished = match run_plan(crew, &plan.plan, &readings, &plan.keys, &mut rack) {
        Ok(finished) => finished,
        Err(RunError::Memory) => return Err(AllocError),
    };
    drop(rack);
    drop(readings);
    finished_texts(crew.alloc, finished, Sharing::WithEach)
}
