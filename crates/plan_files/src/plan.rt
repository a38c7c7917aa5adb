//! The plan file: a plan, its keys and its lanes; and the public plan, which has neither.
ghost use Rattle.std.specs.Prelude.{◌≡◌, ◌<◌, ◌≤◌, ◌+◌, ◌^◌, IfErr, IfOk, Ok, Err, length, Some, None};
ghost use Rattle.pair_keys.specs.Keys.{keys_of, table_of};
ghost use Rattle.plan_files.specs.Faults.{Ends, in_row};
ghost use Rattle.plan_files.specs.Gathering.{gathered_by, spans_of};
ghost use Rattle.plan_files.specs.MissingKeys.{first_missing};
ghost use Rattle.plan_files.specs.PlanFiles.{OpeningEnds, PlanEnds, completed, opened_from, place_of, plan_from, plan_of, public_from, public_of, stated_plan, view_of, with_entries, with_members};
ghost use Rattle.plan_files.specs.RowsLeft.{IsSound, rows_left};

use crate::entry::{PlanRow, read_entries};
use crate::fault::{Failed, FileCause, FileFault};
use crate::form::PlanForm;
use crate::gathering::{Gathering, gather, member_spans, settle};
use crate::head::{PlanHead, read_groups, read_head};
use crate::row_reader::RowReader;
use group_plan::{GroupPlan, Plan, PlanError, SpanError};
use link_lanes::LaneRow;
use pair_keys::{KeyError, KeyId, KeyPile, KeyTable};
use std::alloc::Global;

/// What a plan file says.
#[derive(Drop)]
pub struct PlanFile {
    /// The plan, with the spans of the member rows.
    pub plan: Plan,
    /// The keys of the plan.
    pub keys: KeyTable,
    /// The lane rows, in the order of the file.
    pub lanes: Vec<LaneRow>,
}

/// The plan that the first rows and the groups of a file state, and the rows after these, of which the first is row `first` of the file.
#[derive(Drop)]
struct Opening {
    plan: Plan,
    first: u32,
    entries: Vec<PlanRow>,
}

/// The plan that the first rows and the groups state.
#[tactic(auto, using(crate::proofs::PlanLemmas::stated, crate::proofs::PlanLemmas::not_stated))]
pub fn stated_plan(
    alloc: Global,
    head: PlanHead,
    groups: &[GroupPlan],
) -> Result<Plan, Failed<FileFault>>
    ensures { Ends (stated_plan head groups.now) result }
{
    let windows = head.windows;
    match Plan::new(
        alloc,
        groups,
        head.rounds,
        windows.reading,
        windows.recovery,
    ) {
        Ok(plan) => Ok(plan),
        Err(PlanError::Memory) => Err(Failed::Memory),
        Err(error) => Err(Failed::Fault(FileFault {
            row: 0,
            cause: FileCause::Plan(error),
        })),
    }
}

/// The table of the keys, or the first that is missing.
fn finish(keys: KeyPile) -> Result<KeyTable, KeyId>
    ensures whole { IfOk result (λ table. (table_of table ≡ keys_of keys) × (first_missing (keys_of keys) ≡ None)) }
    ensures missing { IfErr result (λ which. first_missing (keys_of keys) ≡ Some which) }
{
    match keys.finish() {
        Ok(table) => Ok(table),
        Err(unfinished) => Err(unfinished.missing),
    }
}

/// The file of what is gathered for a plan, unless a key is missing.
fn complete(plan: Plan, gathering: Gathering) -> Result<PlanFile, FileFault>
    requires { (keys_of gathering.keys).plan ≡ plan }
    ensures file { IfOk result (λ file. completed (gathered_by gathering) ≡ Ok (view_of file)) }
    ensures missing { IfErr result (λ fault. completed (gathered_by gathering) ≡ Err fault) }
    ensures same { IfOk result (λ file. (table_of file.keys).plan ≡ file.plan) }
{
    let Gathering {
        keys,
        lanes,
        members: _,
    } = gathering;
    match finish(keys) {
        Ok(keys) => Ok(PlanFile { plan, keys, lanes }),
        Err(missing) => Err(FileFault {
            row: 0,
            cause: FileCause::Key(KeyError::Missing(missing)),
        }),
    }
}

/// What the rows after the groups say to a plan. The first of them is row `first` of the file.
fn with_entries(
    alloc: Global,
    plan: Plan,
    first: u32,
    entries: Vec<PlanRow>,
) -> Result<PlanFile, Failed<FileFault>>
    requires { first + length entries.items ≤ 2 ^ 28 + 2 }
    ensures file { PlanEnds (with_entries plan first entries.items) result }
    ensures same { IfOk result (λ file. (table_of file.keys).plan ≡ file.plan) }
{
    let spans = member_spans(alloc, &entries)?;
    let (plan, fault) = settle(plan, &spans)?;
    let gathering = gather(alloc, &plan, fault, first, entries)?;
    Ok(complete(plan, gathering)?)
}

/// What the rows of a file say, before the plan judges those after the groups.
fn read_opening(
    alloc: Global,
    form: PlanForm,
    rows: &mut RowReader<'_>,
) -> Result<Opening, Failed<FileFault>>
    requires sound { IsSound rows.old }
    requires few { length (rows_left rows.old) ≤ 2 ^ 28 + 1 }
    ensures opened { OpeningEnds (opened_from form (rows_left rows.old)) result }
    ensures few { IfOk result (λ opening. opening.first + length opening.entries.items ≤ 2 ^ 28 + 2) }
{
    let head = read_head(form, rows)?;
    let groups = read_groups(alloc, rows)?;
    let first = 4 + groups.len() as u32;
    let entries = read_entries(alloc, form, first, rows)?;
    let plan = stated_plan(alloc, head, &groups)?;
    Ok(Opening {
        plan,
        first,
        entries,
    })
}

/// What the rows of a plan file say.
fn plan_from(alloc: Global, rows: &mut RowReader<'_>) -> Result<PlanFile, Failed<FileFault>>
    requires sound { IsSound rows.old }
    requires few { length (rows_left rows.old) ≤ 2 ^ 28 + 1 }
    ensures file { PlanEnds (plan_from (rows_left rows.old)) result }
    ensures same { IfOk result (λ file. (table_of file.keys).plan ≡ file.plan) }
{
    let Opening {
        plan,
        first,
        entries,
    } = read_opening(alloc, PlanForm::Whole, rows)?;
    with_entries(alloc, plan, first, entries)
}

/// The fault of a member's span in a file whose first span is in this row.
fn member_fault(first: u32, error: SpanError) -> FileFault
    requires { first + place_of error < 2 ^ 32 }
    ensures { result ≡ in_row (first + place_of error) (FileCause.Member error) }
{
    let place = match error {
        SpanError::Range(at) => at,
        SpanError::Twice(at) => at,
        SpanError::Memory => 0,
    };
    FileFault {
        row: first + place,
        cause: FileCause::Member(error),
    }
}

/// The plan with the spans of its members' rows, of which the first is row `first` of the file.
fn with_members(
    alloc: Global,
    plan: Plan,
    first: u32,
    entries: &[PlanRow],
) -> Result<Plan, Failed<FileFault>>
    requires { first + length entries.now ≤ 2 ^ 28 + 2 }
    ensures { Ends (with_members plan first (spans_of entries.now)) result }
{
    let spans = member_spans(alloc, entries)?;
    let (plan, fault) = settle(plan, &spans)?;
    match fault {
        None => Ok(plan),
        Some(error) => Err(Failed::Fault(member_fault(first, error))),
    }
}

/// What the rows of a public plan say.
fn public_from(alloc: Global, rows: &mut RowReader<'_>) -> Result<Plan, Failed<FileFault>>
    requires sound { IsSound rows.old }
    requires few { length (rows_left rows.old) ≤ 2 ^ 28 + 1 }
    ensures { Ends (public_from (rows_left rows.old)) result }
{
    let Opening {
        plan,
        first,
        entries,
    } = read_opening(alloc, PlanForm::Public, rows)?;
    with_members(alloc, plan, first, &entries)
}

/// What the bytes of a plan file say, or their first fault.
#[tactic(auto, unfolding(crate::specs::PlanFiles::plan_of))]
pub fn read_plan(alloc: Global, bytes: &[u8]) -> Result<PlanFile, Failed<FileFault>>
    requires { length bytes.now ≤ 2 ^ 28 }
    ensures file { PlanEnds (plan_of bytes.now) result }
    ensures same { IfOk result (λ file. (table_of file.keys).plan ≡ file.plan) }
{
    let mut rows = RowReader::new(alloc, bytes)?;
    plan_from(alloc, &mut rows)
}

/// What the bytes of a public plan say, or their first fault.
#[tactic(auto, unfolding(crate::specs::PlanFiles::public_of))]
pub fn read_public(alloc: Global, bytes: &[u8]) -> Result<Plan, Failed<FileFault>>
    requires { length bytes.now ≤ 2 ^ 28 }
    ensures { Ends (public_of bytes.now) result }
{
    let mut rows = RowReader::new(alloc, bytes)?;
    public_from(alloc, &mut rows)
}
