//! What a head end does with a line.

ghost use Rattle.std.specs.Prelude.{◌≡◌, IfOk, List, Ok};
ghost use Rattle.group_plan.specs.Plans.{PlanView};
ghost use Rattle.meter_frames.specs.Frames.{IsFrame};
ghost use Rattle.head_end.specs.declared.answers.Logged.{Logged};
ghost use Rattle.head_end.specs.Replies.{is_fresh, reply};
ghost use Rattle.apart_lines.specs.declared.heard.ToHeadEnd.TheVariants as hears;
ghost use Rattle.apart_lines.specs.Heard.{IsSoundToHeadEnd};
ghost use Rattle.apart_roles.specs.HeadEndTurns.{Answers, Flushes, IsHeadEnd, IsSomewhere, Logs, again_answer, answer_steps, logged_frame, logged_tick, steps_logged, tick_answer};
ghost use Rattle.apart_roles.specs.Steps.{Does};

use crate::outcome::RoleError;
use crate::saying::{log, tell, tell_all};
use crate::steps::flush;
use apart_lines::{HeadEndSays, ToHeadEnd};
use desk_outside::Wire;
use head_end::{HeadEnd, Logged, Reply};
use meter_frames::Frame;
use std::alloc::Global;

// Logs a frame where it is fresh by its reply.
fn log_fresh<W: Wire>(
    alloc: Global,
    wire: &mut W,
    reply: Reply,
    frame: &Frame,
) -> Result<(), RoleError>
    requires { IsFrame frame.now }
    ensures { Does (steps_logged (logged_frame reply frame.now)) (W.view wire.old) (W.view wire.new) result }
{
    match reply {
        Reply::Fresh => log(alloc, wire, &Logged::Took(*frame)),
        Reply::Again | Reply::Differs | Reply::Late | Reply::Void | Reply::Refused(_) => Ok(()),
    }
}

// Takes a frame that came, and logs it where it is fresh.
fn take_frame<W: Wire>(
    alloc: Global,
    wire: &mut W,
    head: &mut HeadEnd,
    frame: &Frame,
) -> Result<Reply, RoleError>
    requires { IsFrame frame.now }
    ensures reply { (plan : PlanView) (journal : List Logged) → IsHeadEnd plan journal head.old → IfOk result (λ said. said ≡ reply plan journal frame.now) }
    ensures logs { (plan : PlanView) (journal : List Logged) → IsHeadEnd plan journal head.old → Logs plan journal (logged_frame (reply plan journal frame.now) frame.now) (W.view wire.old) (W.view wire.new) result head.new }
{
    let reply = head.take(frame);
    log_fresh(alloc, wire, reply, frame)?;
    Ok(reply)
}

// Answers a frame. It is in the journal before it is said that it is fresh.
fn answer_frame<W: Wire>(
    alloc: Global,
    wire: &mut W,
    head: &mut HeadEnd,
    frame: &Frame,
) -> Result<(), RoleError>
    requires { IsFrame frame.now }
    ensures { (plan : PlanView) (journal : List Logged) → IsHeadEnd plan journal head.old → Answers plan journal (hears.Frame (Ok frame.now)) (W.view wire.old) (W.view wire.new) result head.new }
{
    let reply = take_frame(alloc, wire, head, frame)?;
    tell(alloc, wire, head.plan(), &HeadEndSays::Reply(reply))
}

// Lets a tick pass that is the next one, and logs it.
fn pass_tick<W: Wire>(
    alloc: Global,
    wire: &mut W,
    head: &mut HeadEnd,
    tick: u64,
) -> Result<(), RoleError>
    requires { IsSomewhere head.old }
    ensures logs { (plan : PlanView) (journal : List Logged) → IsHeadEnd plan journal head.old → Logs plan journal (logged_tick plan journal tick) (W.view wire.old) (W.view wire.new) result head.new }
    ensures somewhere { IsSomewhere head.new }
{
    if tick != u64::from(head.ticks()) {
        return Ok(());
    }
    if head.pass() {
        log(alloc, wire, &Logged::Passed)
    } else {
        Ok(())
    }
}

// The same, and has all of the journal on the disk.
fn flush_tick<W: Wire>(
    alloc: Global,
    wire: &mut W,
    head: &mut HeadEnd,
    tick: u64,
) -> Result<(), RoleError>
    requires { IsSomewhere head.old }
    ensures flushes { (plan : PlanView) (journal : List Logged) → IsHeadEnd plan journal head.old → Flushes plan journal (logged_tick plan journal tick) (W.view wire.old) (W.view wire.new) result head.new }
    ensures somewhere { IsSomewhere head.new }
{
    pass_tick(alloc, wire, head, tick)?;
    flush(wire)
}

// Says the lines of a tick that has passed.
fn say_tick<W: Wire>(
    alloc: Global,
    wire: &mut W,
    head: &HeadEnd,
    tick: u32,
) -> Result<(), RoleError>
    requires { IsSomewhere head.now }
    ensures { (plan : PlanView) (journal : List Logged) → IsHeadEnd plan journal head.now → Does (answer_steps plan (tick_answer plan journal tick)) (W.view wire.old) (W.view wire.new) result }
{
    let Ok(lines) = head.tick_lines(alloc, tick) else {
        return Err(RoleError::Memory);
    };
    tell_all(alloc, wire, head.plan(), &lines, &HeadEndSays::Ticked(tick))
}

// Says the announcements whose answers lack.
fn say_again<W: Wire>(alloc: Global, wire: &mut W, head: &HeadEnd) -> Result<(), RoleError>
    requires { IsSomewhere head.now }
    ensures { (plan : PlanView) (journal : List Logged) → IsHeadEnd plan journal head.now → Does (answer_steps plan (again_answer plan journal)) (W.view wire.old) (W.view wire.new) result }
{
    let Ok(lines) = head.again(alloc) else {
        return Err(RoleError::Memory);
    };
    tell_all(
        alloc,
        wire,
        head.plan(),
        &lines,
        &HeadEndSays::Ready(head.ticks()),
    )
}

// Answers a tick: the next one passes, and one that has passed is told again. The journal is on the disk before anything is said.
fn answer_tick<W: Wire>(
    alloc: Global,
    wire: &mut W,
    head: &mut HeadEnd,
    tick: u64,
) -> Result<(), RoleError>
    requires { IsSomewhere head.old }
    ensures { (plan : PlanView) (journal : List Logged) → IsHeadEnd plan journal head.old → Answers plan journal (hears.Tick tick) (W.view wire.old) (W.view wire.new) result head.new }
{
    if tick > u64::from(head.ticks()) {
        return tell(alloc, wire, head.plan(), &HeadEndSays::WrongTick);
    }
    flush_tick(alloc, wire, head, tick)?;
    say_tick(alloc, wire, head, tick as u32)
}

/// Answers what a line says. To a line that asks for the report nothing is said.
pub(crate) fn answer<W: Wire>(
    alloc: Global,
    wire: &mut W,
    head: &mut HeadEnd,
    heard: &ToHeadEnd,
) -> Result<(), RoleError>
    requires somewhere { IsSomewhere head.old }
    requires sound { IsSoundToHeadEnd heard.now }
    ensures { (plan : PlanView) (journal : List Logged) → IsHeadEnd plan journal head.old → Answers plan journal heard.now (W.view wire.old) (W.view wire.new) result head.new }
{
    match heard {
        ToHeadEnd::Frame(Ok(frame)) => answer_frame(alloc, wire, head, frame),
        ToHeadEnd::Frame(Err(rule)) => tell(alloc, wire, head.plan(), &HeadEndSays::Broken(*rule)),
        ToHeadEnd::Tick(tick) => answer_tick(alloc, wire, head, *tick),
        ToHeadEnd::Again => say_again(alloc, wire, head),
        ToHeadEnd::Report => Ok(()),
        ToHeadEnd::Nothing => Ok(()),
        ToHeadEnd::Unknown => tell(alloc, wire, head.plan(), &HeadEndSays::UnknownLine),
    }
}
