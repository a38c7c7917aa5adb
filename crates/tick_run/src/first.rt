//! A run before its first tick.

ghost use Rattle.std.specs.Prelude.{◌≡◌, ◌<◌, ◌+◌, [], length, IfOk};
ghost use Rattle.std.specs.List.{AllZip, range_with_len};
ghost use Rattle.group_plan.specs.Tables.{presence_of};
ghost use Rattle.missing_round.specs.Masks.{Masks as MaskTable};
ghost use Rattle.event_schedule.specs.Transcripts.{no_entries};
ghost use Rattle.shared_book.specs.Ends.{opening, view, IsPassOf};
ghost use Rattle.tick_run.specs.Sharing.{leading};
ghost use Rattle.tick_run.specs.Whole.{RunsAt, IsFirst};

use crate::finished::readings_are_limited;
use crate::group_tick::GroupWork;
use crate::running::{Group, Running};
use group_book::Book;
use group_plan::{Plan, Presence, Readings};
use lossy_link::Link;
use plan_meters::GroupMeters;
use shared_book::{Pass, SharedBook};
use std::alloc::{AllocError, Global};
use transcript_log::{Draft, Lines};

/// So many lines has a meter in a round on most links: Sends and Takes of a reading, an announcement and an answer.
const LINES_A_METER: usize = 6;

/// About how many lines a run has.
fn lines_about(plan: &Plan) -> usize {
    let mut a_round = 0usize;
    for group in plan.groups() {
        let meters = group.meters as usize;
        a_round = a_round
            .saturating_add(meters.saturating_mul(LINES_A_METER))
            .saturating_add(2);
    }
    a_round.saturating_mul(plan.rounds() as usize)
}

/// About how many Sends a run has: half of its lines.
pub(crate) fn sends_about(plan: &Plan) -> u64 {
    lines_about(plan) as u64 / 2
}

/// A shared book with no line, and its first pass.
fn new_shared(alloc: Global, readings: &Readings) -> Result<(SharedBook, Pass), AllocError>
    ensures shares { IfOk result (λ made. ((opening made.0).presence ≡ presence_of readings.now) × ((opening made.0).journal ≡ [])) }
    ensures pass { IfOk result (λ made. IsPassOf made.0 made.1 × (view made.1 ≡ leading 0)) }
{
    let presence = Presence::of(alloc, readings)?;
    let book = Book::new(alloc, readings.plan(), &presence)?;
    match SharedBook::begin(alloc, book, 0) {
        Ok(made) => Ok(made),
        Err(_) => Err(AllocError),
    }
}

/// No line, with room for so many.
fn no_lines(alloc: Global, lines: usize) -> Result<Lines, AllocError>
    ensures { IfOk result (λ journal. journal.items ≡ []) }
{
    let mut journal = Lines::new(alloc);
    journal.reserve(lines as u64)?;
    Ok(journal)
}

/// A group before the first tick, whose pass is split from the first one.
fn first_group(
    alloc: Global,
    readings: &Readings,
    shared: &SharedBook,
    first: &mut Pass,
    number: u16,
) -> Result<Group, AllocError>
    requires pass { IsPassOf shared.now first.old }
    requires leads { view first.old ≡ leading number }
    requires inside { number < length readings.now.plan.groups }
    ensures pass { IfOk result (λ _. IsPassOf shared.now first.new × (view first.new ≡ leading (number + 1))) }
    ensures group { IfOk result (IsFirst shared.now readings.now number) }
{
    let work = GroupWork {
        meters: GroupMeters::new(alloc, readings, number)?,
        link: Link::new(alloc),
        frames: Vec::new(alloc),
        fates: Vec::new(alloc),
        lines: Lines::new(alloc),
        closed_from: 0,
        sent_from: 0,
        failed: false,
    };
    let pass = shared.split(first);
    Ok(Group { number, pass, work })
}

/// All groups before the first tick.
fn first_groups(
    alloc: Global,
    readings: &Readings,
    shared: &SharedBook,
    first: &mut Pass,
) -> Result<Vec<Group>, AllocError>
    requires pass { IsPassOf shared.now first.old }
    requires leads { view first.old ≡ leading 0 }
    ensures pass { IfOk result (λ _. IsPassOf shared.now first.new × (view first.new ≡ leading (length readings.now.plan.groups))) }
    ensures groups { IfOk result (λ groups. AllZip (IsFirst shared.now readings.now) (range_with_len 0 (length readings.now.plan.groups)) groups.items) }
{
    readings_are_limited(readings);
    let count = readings.plan().groups().len();
    let mut groups = Vec::with_capacity(alloc, count)?;
    for number in 0..count {
        groups.push(first_group(alloc, readings, shared, first, number as u16)?)?;
    }
    Ok(groups)
}

/// A run before its first tick: no line, meters that have read nothing, and no copy on its way.
pub(crate) fn begin(alloc: Global, readings: &Readings) -> Result<Running, AllocError>
    ensures runs { IfOk result (λ run. (m : MaskTable) → RunsAt readings.now m 0 run) }
    ensures transcript { IfOk result (λ run. run.transcript ≡ no_entries readings.now.plan) }
{
    let plan = readings.plan();
    let lines = lines_about(plan);
    let (shared, mut first) = new_shared(alloc, readings)?;
    let groups = first_groups(alloc, readings, &shared, &mut first)?;
    Ok(Running {
        shared,
        first,
        groups,
        journal: no_lines(alloc, lines)?,
        transcript: Draft::with_room(alloc, plan, lines)?,
        fates: Vec::new(alloc),
    })
}
