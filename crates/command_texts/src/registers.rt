//! The values and the texts of a run of several registers.

ghost use Rattle.std.specs.Prelude.{◌≡◌, ◌≤◌, [], length, map, IfOk, IfErr, Ok, List, ◌*◌, ℕ};
ghost use Rattle.link_lanes.specs.Racks.{HasRoom, posts_of, slots};
ghost use Rattle.pair_keys.specs.Keys.{table_of};
ghost use Rattle.plan_files.specs.PlanFiles.{view_of};
ghost use Rattle.command_words.specs.Commands.{register_names_of};
ghost use Rattle.command_words.specs.Outcomes.{IsFault};
ghost use Rattle.command_words.specs.Limits.{most_bytes};
ghost use Rattle.command_texts.specs.Refusals.{RegistersRefuse};
ghost use Rattle.command_texts.specs.RegisterRuns.{AreRegisterValues, RegistersMake};
ghost use Rattle.totals_report.specs.Reading.{rows_of_text};
ghost use Rattle.totals_report.specs.declared.row.ReportRow.{ReportRow};
ghost use Rattle.command_texts.specs.RegisterParts.{AreWordsOf, register_texts_of};
ghost use Rattle.command_texts.specs.RunTexts.{texts_of};
ghost use Rattle.link_lanes.specs.Lanes.{Meaning};

use crate::run::{RunTexts, finished_texts};
use crate::sharing::Sharing;
use crate::values::fit_plan;
use collector_workers::{Crew, Gate};
use command_words::{Outcome, RegisterFiles};
use link_lanes::{Lane, Rack};
use pair_keys::KeyTable;
use plan_files::{Failed, PlanFile, Registers, read_registers};
use register_words::{SideWords, register_report, side_words};
use std::alloc::{AllocError, Global};
use std::sync::Wait;
use std::thread::Threads;
use tick_run::{RunError, run_plan};
use totals_report::{Report, ReportError, read_report};
use transcript_log::Transcript;

/// What the two files of a run of several registers say, and the rack with the lanes of the first.
#[derive(Drop)]
pub struct RegisterInput {
    pub file: PlanFile,
    pub rack: Rack,
    pub tables: Registers,
}

/// The values of a run of so many registers. The bytes of a file are let go once they are read.
pub fn read_register_run<'a>(
    alloc: Global,
    registers: u8,
    files: RegisterFiles<'a>,
    plan: Vec<u8>,
    readings: Vec<u8>,
    cupboard: Vec<Box<dyn Lane>>,
) -> Result<RegisterInput, Outcome<'a>>
    requires plan { length plan.items ≤ most_bytes }
    requires readings { length readings.items ≤ most_bytes }
    requires registers { (2 ≤ registers) × (registers ≤ 8) }
    ensures values { IfOk result (λ run. AreRegisterValues (map (λ b. meaning b) cupboard.items) registers plan.items readings.items (record { file = view_of run.file; slots = slots (λ b. meaning b) run.rack; registers = run.tables })) }
    ensures keys { IfOk result (λ run. (table_of run.file.keys).plan ≡ run.file.plan) }
    ensures posts { IfOk result (λ run. posts_of run.rack ≡ []) }
    ensures room { IfOk result (λ run. HasRoom (λ b. meaning b) run.rack) }
    ensures refused { IfErr result (RegistersRefuse (map (λ b. meaning b) cupboard.items) registers (register_names_of files.entry) plan.items readings.items) }
    ensures no_fault { IfErr result (λ outcome. ¬ IsFault outcome) }
{
    let (file, rack) = or_fail!(fit_plan(alloc, files.plan, plan, cupboard));
    match read_registers(alloc, &file.plan, registers, &readings) {
        Ok(tables) => Ok(RegisterInput { file, rack, tables }),
        Err(Failed::Memory) => Err(Outcome::NoMemory),
        Err(Failed::Fault(fault)) => Err(Outcome::BadReadings(files.readings, fault)),
    }
}

/// The texts of a run of several registers. Those of the transcript and of the side words are long, and made only as they are put.
#[derive(Drop)]
pub struct RegisterTexts {
    pub transcript: Transcript,
    pub words: SideWords,
    pub report: Vec<u8>,
    pub summary: Vec<u8>,
}

// The report that a text is read as.
fn report_of(alloc: Global, text: &[u8]) -> Result<Report, AllocError>
    requires { (rows : List ReportRow) × (rows_of_text text.now ≡ Ok rows) }
    ensures { (rows : List ReportRow) → rows_of_text text.now ≡ Ok rows → IfOk result (λ report. report ≡ rows) }
{
    match read_report(alloc, text) {
        Ok(report) => Ok(report),
        Err(ReportError::Memory) => Err(AllocError),
        Err(ReportError::Line(_)) => unreachable!(),
    }
}

// The texts of all registers, from those of register 0.
fn with_words<R: Threads + Sync>(
    rt: &R,
    alloc: Global,
    first: RunTexts,
    tables: &Registers,
    keys: &KeyTable,
) -> Result<RegisterTexts, AllocError>
    requires tables { tables.now.plan ≡ first.transcript.plan }
    requires keys { (table_of keys.now).plan ≡ first.transcript.plan }
    requires report { (rows : List ReportRow) × (rows_of_text first.report.items ≡ Ok rows) × (length rows ≤ length first.transcript.plan.groups * first.transcript.plan.rounds) }
    ensures { IfOk result (AreWordsOf tables.now (table_of keys.now) first.transcript (texts_of first)) }
{
    let words = side_words(rt, alloc, &first.transcript, tables, keys)?;
    let report = report_of(alloc, &first.report)?;
    let text = register_report(alloc, &report, &first.transcript, &words)?;
    Ok(RegisterTexts {
        transcript: first.transcript,
        words,
        report: text,
        summary: first.summary,
    })
}

/// The texts of a run of register 0 of these values, with the words and the totals of all registers.
pub fn register_texts<R: Threads + Wait + Sync, G: Gate>(
    crew: &Crew<'_, R, G>,
    input: RegisterInput,
) -> Result<RegisterTexts, AllocError>
    requires keys { (table_of input.file.keys).plan ≡ input.file.plan }
    requires same_plan { input.tables.plan ≡ input.file.plan }
    requires posts { posts_of input.rack ≡ [] }
    requires room { HasRoom (λ b. meaning (b.vtable, b.value)) input.rack }
    ensures { (cupboard : List Meaning) (count : ℕ) (p r : List ℕ) → AreRegisterValues cupboard count p r (record { file = view_of input.file; slots = slots (λ b. meaning (b.vtable, b.value)) input.rack; registers = input.tables })
        → IfOk result (λ kept. RegistersMake cupboard count p r (register_texts_of kept)) }
{
    let RegisterInput {
        file,
        mut rack,
        tables,
    } = input;
    let _registers = tables.count();
    let finished = match run_plan(crew, &file.plan, tables.table(0), &file.keys, &mut rack) {
        Ok(finished) => finished,
        Err(RunError::Memory) => return Err(AllocError),
    };
    drop(rack);
    let first = finished_texts(crew.alloc, finished, Sharing::WithEach)?;
    with_words(crew.rt, crew.alloc, first, &tables, &file.keys)
}
