//! A run whose transcript is written ahead: its texts.

ghost use Rattle.std.specs.Prelude.{◌≡◌, [], IfOk, ℕ, List};
ghost use Rattle.event_schedule.specs.Transcripts.{TranscriptView};
ghost use Rattle.command_files.specs.Ahead.{IsAhead};
ghost use Rattle.link_lanes.specs.Racks.{HasRoom, posts_of, slots};
ghost use Rattle.pair_keys.specs.Keys.{table_of};
ghost use Rattle.tick_run.specs.Finished.{IsFinishedUnder};
ghost use Rattle.command_texts.specs.Runs.{words_by, AreValues, MakesBy};
ghost use Rattle.link_lanes.specs.Lanes.{Meaning};
ghost use Rattle.plan_files.specs.PlanFiles.{view_of};
ghost use Rattle.command_texts.specs.RunTexts.{texts_of};

use collector_workers::{Crew, Gate};
use command_files::{Ahead, run_ahead};
use command_texts::{RunInput, RunTexts, Sharing, finished_texts};
use desk_outside::BegunFile;
use group_plan::Readings;
use link_lanes::{Lane, Rack};
use mask_stream::ChaMasks;
use plan_files::PlanFile;
use sparse_masks::RingMasks;
use std::alloc::AllocError;
use std::sync::Wait;
use std::thread::Threads;
use tick_run::Finished;

// Runs a plan under the mask words that its meters share.
fn run_shared<'n, 'r, R: Threads + Wait + Sync, G: Gate, B: BegunFile + Send + Drop>(
    crew: &Crew<'_, R, G>,
    plan: &PlanFile,
    readings: &Readings,
    sharing: Sharing,
    rack: &mut Rack,
    file: Ahead<'n, 'r, R, B>,
) -> Result<(Finished, Ahead<'n, 'r, R, B>), AllocError>
    requires readings { readings.now.plan ≡ plan.now.plan }
    requires keys { (table_of plan.now.keys).plan ≡ plan.now.plan }
    requires posts { posts_of rack.old ≡ [] }
    requires room { HasRoom (λ b. meaning (b.vtable, b.value)) rack.old }
    requires empty { (t : TranscriptView) → IsAhead B.has file.begun.file file.entries t }
    ensures finished { IfOk result (λ led. IsFinishedUnder readings.now (words_by sharing readings.now.plan (table_of plan.now.keys)) (slots (λ b. meaning (b.vtable, b.value)) rack.old) led.0.book led.0.transcript) }
    ensures name { IfOk result (λ led. led.1.begun.name.now ≡ file.entry.begun.name.now) }
    ensures ahead { IfOk result (λ led. IsAhead B.has led.1.begun.file led.1.entries led.0.transcript) }
{
    let words = ChaMasks::new(&plan.keys);
    match sharing {
        Sharing::WithEach => run_ahead(crew, readings, &words, rack, file),
        Sharing::WithNeighbours(width) => {
            let masks = RingMasks::new(&words, &plan.plan, width);
            run_ahead(crew, readings, &masks, rack, file)
        }
    }
}

/// The texts of a run, of which that of the entries is appended to a file beside the ticks, as much as there is of it then. The rack
/// and the readings are let go once the run is over.
pub fn run_texts<'n, 'r, R: Threads + Wait + Sync, G: Gate, B: BegunFile + Send + Drop>(
    crew: &Crew<'_, R, G>,
    input: RunInput,
    sharing: Sharing,
    file: Ahead<'n, 'r, R, B>,
) -> Result<(RunTexts, Ahead<'n, 'r, R, B>), AllocError>
    requires keys { (table_of input.file.keys).plan ≡ input.file.plan }
    requires same_plan { input.readings.plan ≡ input.file.plan }
    requires posts { posts_of input.rack ≡ [] }
    requires room { HasRoom (λ b. meaning (b.vtable, b.value)) input.rack }
    requires empty { (t : TranscriptView) → IsAhead B.has file.begun.file file.entries t }
    ensures name { IfOk result (λ told. told.1.begun.name.now ≡ file.entry.begun.name.now) }
    ensures ahead { IfOk result (λ told. IsAhead B.has told.1.begun.file told.1.entries told.0.transcript) }
    ensures texts { (cupboard : List Meaning) (p r : List ℕ) → AreValues cupboard p r (record { file = view_of input.file; slots = slots (λ b. meaning (b.vtable, b.value)) input.rack; readings = input.readings })
        → IfOk result (λ told. MakesBy sharing cupboard p r (texts_of told.0)) }
{
    let RunInput {
        file: plan,
        mut rack,
        readings,
    } = input;
    let (finished, file) = or_fail!(run_shared(crew, &plan, &readings, sharing, &mut rack, file));
    drop(rack);
    drop(readings);
    let texts = finished_texts(crew.alloc, finished, sharing)?;
    Ok((texts, file))
}
