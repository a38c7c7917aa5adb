//! The values of the files of a command, or how it ends.

ghost use Rattle.std.specs.Prelude.{◌≡◌, ◌≤◌, IfOk, IfErr, Ok, length, map, []};
ghost use Rattle.pair_keys.specs.Keys.{table_of};
ghost use Rattle.plan_files.specs.PlanFiles.{plan_of, view_of};
ghost use Rattle.command_words.specs.Outcomes.{IsFault};
ghost use Rattle.command_words.specs.Limits.{most_bytes};
ghost use Rattle.command_texts.specs.Refusals.{PublicRefuses, ReadingsRefused, PlanRefused, FilesRefused};
ghost use Rattle.plan_files.specs.Readings.{readings_of};
ghost use Rattle.command_texts.specs.Billing.{AreMetered, MeteredRefuses};
ghost use Rattle.link_lanes.specs.Fits.{FitEnds};
ghost use Rattle.link_lanes.specs.Racks.{HasRoom, posts_of, slots};
ghost use Rattle.command_texts.specs.Runs.{AreValues};

use command_words::Outcome;
use group_plan::{Plan, Readings};
use link_lanes::{Lane, Rack, RackCause};
use plan_files::{Failed, PlanFile, read_plan, read_readings};
use std::alloc::Global;

/// What the plan file of this name says.
pub fn plan_in<'a>(alloc: Global, name: &'a str, bytes: &[u8]) -> Result<PlanFile, Outcome<'a>>
    requires { length bytes.now ≤ most_bytes }
    ensures value { IfOk result (λ file. plan_of bytes.now ≡ Ok (view_of file)) }
    ensures keys { IfOk result (λ file. (table_of file.keys).plan ≡ file.plan) }
    ensures refused { IfErr result (PublicRefuses name.now bytes.now) }
    ensures no_fault { IfErr result (λ outcome. ¬ IsFault outcome) }
{
    match read_plan(alloc, bytes) {
        Ok(file) => Ok(file),
        Err(Failed::Memory) => Err(Outcome::NoMemory),
        Err(Failed::Fault(fault)) => Err(Outcome::BadPlan(name, fault)),
    }
}

/// What the readings file of this name says of a plan.
pub fn readings_in<'a>(
    alloc: Global,
    name: &'a str,
    plan: &Plan,
    bytes: &[u8],
) -> Result<Readings, Outcome<'a>>
    requires { length bytes.now ≤ most_bytes }
    ensures value { IfOk result (λ readings. readings_of plan.now bytes.now ≡ Ok readings) }
    ensures same_plan { IfOk result (λ readings. readings.plan ≡ plan.now) }
    ensures refused { IfErr result (ReadingsRefused name.now plan.now bytes.now) }
    ensures no_fault { IfErr result (λ outcome. ¬ IsFault outcome) }
{
    match read_readings(alloc, plan, bytes) {
        Ok(readings) => Ok(readings),
        Err(Failed::Memory) => Err(Outcome::NoMemory),
        Err(Failed::Fault(fault)) => Err(Outcome::BadReadings(name, fault)),
    }
}

/// What a plan file and a readings file of its plan say. The names are those of the files.
pub fn read_metered<'a>(
    alloc: Global,
    plan: &'a str,
    readings: &'a str,
    plan_bytes: &[u8],
    readings_bytes: &[u8],
) -> Result<(PlanFile, Readings), Outcome<'a>>
    requires plan { length plan_bytes.now ≤ most_bytes }
    requires readings { length readings_bytes.now ≤ most_bytes }
    ensures read { IfOk result (λ both. AreMetered plan_bytes.now readings_bytes.now (record { file = view_of both.0; readings = both.1 })) }
    ensures same_plan { IfOk result (λ both. both.1.plan ≡ both.0.plan) }
    ensures refused { IfErr result (MeteredRefuses plan.now readings.now plan_bytes.now readings_bytes.now) }
    ensures no_fault { IfErr result (λ outcome. ¬ IsFault outcome) }
{
    let file = or_fail!(plan_in(alloc, plan, plan_bytes));
    let table = or_fail!(readings_in(alloc, readings, &file.plan, readings_bytes));
    Ok((file, table))
}

/// What the plan file of this name says, and the rack with its lanes.
pub fn fit_plan<'a>(
    alloc: Global,
    name: &'a str,
    bytes: Vec<u8>,
    cupboard: Vec<Box<dyn Lane>>,
) -> Result<(PlanFile, Rack), Outcome<'a>>
    requires { length bytes.items ≤ most_bytes }
    ensures value { IfOk result (λ fit. plan_of bytes.items ≡ Ok (view_of fit.0)) }
    ensures keys { IfOk result (λ fit. (table_of fit.0.keys).plan ≡ fit.0.plan) }
    ensures lanes { IfOk result (λ fit. FitEnds (λ b. meaning b) cupboard.items fit.0.lanes.items (Ok fit.1)) }
    ensures refused { IfErr result (PlanRefused (map (λ b. meaning b) cupboard.items) name.now bytes.items) }
    ensures no_fault { IfErr result (λ outcome. ¬ IsFault outcome) }
{
    let file = or_fail!(plan_in(alloc, name, &bytes));
    match Rack::fit(alloc, cupboard, file.lanes.as_slice()) {
        Ok(rack) => Ok((file, rack)),
        Err(fault) => match fault.cause {
            RackCause::Memory => Err(Outcome::NoMemory),
            _ => Err(Outcome::BadLane(fault)),
        },
    }
}

/// What the two files of a run say, and the rack with the lanes of the first.
#[derive(Drop)]
pub struct RunInput {
    pub file: PlanFile,
    pub rack: Rack,
    pub readings: Readings,
}

/// The values of a run. The bytes of a file are let go once they are read. The names are those of the files.
pub fn read_run<'a>(
    alloc: Global,
    plan: &'a str,
    readings: &'a str,
    plan_bytes: Vec<u8>,
    readings_bytes: Vec<u8>,
    cupboard: Vec<Box<dyn Lane>>,
) -> Result<RunInput, Outcome<'a>>
    requires plan { length plan_bytes.items ≤ most_bytes }
    requires readings { length readings_bytes.items ≤ most_bytes }
    ensures values { IfOk result (λ run. AreValues (map (λ b. meaning b) cupboard.items) plan_bytes.items readings_bytes.items (record { file = view_of run.file; slots = slots (λ b. meaning b) run.rack; readings = run.readings })) }
    ensures keys { IfOk result (λ run. (table_of run.file.keys).plan ≡ run.file.plan) }
    ensures same_plan { IfOk result (λ run. run.readings.plan ≡ run.file.plan) }
    ensures posts { IfOk result (λ run. posts_of run.rack ≡ []) }
    ensures room { IfOk result (λ run. HasRoom (λ b. meaning b) run.rack) }
    ensures refused { IfErr result (FilesRefused (map (λ b. meaning b) cupboard.items) plan.now readings.now plan_bytes.items readings_bytes.items) }
    ensures no_fault { IfErr result (λ outcome. ¬ IsFault outcome) }
{
    let (file, rack) = or_fail!(fit_plan(alloc, plan, plan_bytes, cupboard));
    let readings = or_fail!(readings_in(alloc, readings, &file.plan, &readings_bytes));
    Ok(RunInput {
        file,
        rack,
        readings,
    })
}
