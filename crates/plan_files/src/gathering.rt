//! Keys, lanes and members, row by row.
ghost use Rattle.std.specs.Prelude.{◌≡◌, ◌≤◌, ◌<◌, ◌+◌, ◌^◌, IfErr, IfOk, Ok, length};
ghost use Rattle.group_plan.specs.Plans.{last_tick};
ghost use Rattle.pair_keys.specs.Keys.{keys_of};
ghost use Rattle.pair_keys.specs.declared.KeyId.TheVariants.{Own, Pair};
ghost use Rattle.plan_files.specs.Faults.{Fails};
ghost use Rattle.plan_files.specs.Gathering.{HangsLane, PutsKey, Settles, TakesEntry, gather, gathered_by, member_fault, nothing, spans_of};

use crate::entry::PlanRow;
use crate::fault::{Failed, FileCause, FileFault};
use group_plan::{Plan, Span, SpanError};
use link_lanes::LaneRow;
use pair_keys::KeyPile;
use std::alloc::{AllocError, Global};

/// The keys and lanes of the rows so far, and how many of these were member rows.
#[derive(Drop)]
pub struct Gathering {
    pub keys: KeyPile,
    pub lanes: Vec<LaneRow>,
    pub members: u32,
}

/// The spans of the member rows, in order.
#[tactic(auto, using(crate::proofs::GatherLemmas::spans_end))]
pub fn member_spans(alloc: Global, entries: &[PlanRow]) -> Result<Vec<Span>, AllocError>
    ensures { IfOk result (λ spans. spans.items ≡ spans_of entries.now) }
{
    let mut spans = Vec::new(alloc);
    for entry in entries {
        if let PlanRow::Member(span) = entry {
            spans.push(*span)?;
        }
    }
    Ok(spans)
}

/// The plan with these spans, or the plan as it is and their first fault.
pub fn settle(plan: Plan, spans: &[Span]) -> Result<(Plan, Option<SpanError>), AllocError>
    ensures { IfOk result (λ settled. Settles plan spans.now settled.0 settled.1) }
{
    match plan.with_members(spans) {
        Ok(settled) => Ok((settled, None)),
        Err(SpanError::Memory) => Err(AllocError),
        Err(error) => Ok((plan, Some(error))),
    }
}

/// Puts the own key of a row into the pile.
fn put_own(keys: &mut KeyPile, group: u32, meter: u32, key: [u8; 32]) -> Result<(), FileCause>
    ensures { PutsKey (keys_of keys.old) (Own group meter) key result (keys_of keys.new) }
{
    match keys.put_own(group, meter, key) {
        Ok(()) => Ok(()),
        Err(error) => Err(FileCause::Key(error)),
    }
}

/// Puts the pair key of a row into the pile.
fn put_pair(
    keys: &mut KeyPile,
    group: u32,
    low: u32,
    high: u32,
    key: [u8; 32],
) -> Result<(), FileCause>
    ensures { PutsKey (keys_of keys.old) (Pair group low high) key result (keys_of keys.new) }
{
    match keys.put_pair(group, low, high, key) {
        Ok(()) => Ok(()),
        Err(error) => Err(FileCause::Key(error)),
    }
}

/// Adds the lane of a row, where its ticks are within the plan's.
#[tactic(auto, unfolding(crate::specs::Gathering::hang_lane))]
fn hang_lane(
    lanes: &mut Vec<LaneRow>,
    lane: LaneRow,
    last_tick: u32,
) -> Result<(), Failed<FileCause>>
    ensures { HangsLane lanes.old.items lane last_tick result lanes.new.items }
{
    if lane.from > lane.to || lane.to > last_tick {
        return Err(Failed::Fault(FileCause::LaneSpan));
    }
    lanes.push(lane)?;
    Ok(())
}

/// Refuses the member row at this place among those of the file, where the fault of all spans is there.
pub fn check_member(fault: Option<SpanError>, place: u32) -> Result<(), FileCause>
    ensures { result ≡ member_fault fault place }
{
    match fault {
        Some(SpanError::Range(at)) if at == place => Err(FileCause::Member(SpanError::Range(at))),
        Some(SpanError::Twice(at)) if at == place => Err(FileCause::Member(SpanError::Twice(at))),
        _ => Ok(()),
    }
}

impl Gathering {
    /// Adds what a row says, where nothing is wrong with it.
    fn take(
        &mut self,
        entry: PlanRow,
        last_tick: u32,
        fault: Option<SpanError>,
    ) -> Result<(), Failed<FileCause>>
        requires { self.old.members < 2 ^ 31 }
        ensures taken { TakesEntry last_tick fault (gathered_by self.old) entry result (gathered_by self.new) }
        ensures few { self.new.members ≤ self.old.members + 1 }
    {
        match entry {
            PlanRow::Own { group, meter, key } => Ok(put_own(&mut self.keys, group, meter, key)?),
            PlanRow::Pair {
                group,
                low,
                high,
                key,
            } => Ok(put_pair(&mut self.keys, group, low, high, key)?),
            PlanRow::Lane(lane) => hang_lane(&mut self.lanes, lane, last_tick),
            PlanRow::Member(_) => {
                check_member(fault, self.members)?;
                self.members += 1;
                Ok(())
            }
        }
    }
}

/// What rows add up to for a plan whose spans have this fault or none, up to the first row that is refused. The first
/// of them is row `first` of the file.
pub fn gather(
    alloc: Global,
    plan: &Plan,
    fault: Option<SpanError>,
    first: u32,
    entries: Vec<PlanRow>,
) -> Result<Gathering, Failed<FileFault>>
    requires { first + length entries.items ≤ 2 ^ 28 + 2 }
    ensures whole { IfOk result (λ gathering. gather (last_tick plan.now) fault first (nothing plan.now) entries.items ≡ Ok (gathered_by gathering)) }
    ensures refused { IfErr result (λ failed. Fails (gather (last_tick plan.now) fault first (nothing plan.now) entries.items) failed) }
{
    let last_tick = plan.last_tick();
    let keys = KeyPile::new(alloc, plan)?;
    let mut gathering = Gathering {
        keys,
        lanes: Vec::new(alloc),
        members: 0,
    };
    let mut number = first;
    for entry in entries {
        if let Err(failed) = gathering.take(entry, last_tick, fault) {
            return Err(failed.in_row(number));
        }
        number += 1;
    }
    Ok(gathering)
}
