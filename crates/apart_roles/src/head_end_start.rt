//! The start of a head end over its journal.

ghost use Rattle.std.specs.Prelude.{List};
ghost use Rattle.group_plan.specs.Plans.{PlanView};
ghost use Rattle.head_end.specs.declared.answers.Logged.{Logged};
ghost use Rattle.head_end.specs.Journal.{passed};
ghost use Rattle.head_end.specs.Replies.{can_follow};
ghost use Rattle.apart_lines.specs.Journals.{logged_of};
ghost use Rattle.apart_roles.specs.HeadEndStarts.{HeadEndOpens, HeadEndStarts, IfHeadEndReady, greeting, welcome_steps};
ghost use Rattle.apart_roles.specs.HeadEndTurns.{IsHeadEnd};
ghost use Rattle.apart_roles.specs.Steps.{Does};

use crate::outcome::{Recollection, RoleError, Start};
use crate::saying::tell;
use crate::start::{Role, open_with};
use crate::steps::{flush, print};
use apart_lines::{HeadEndSays, journal_head, read_logged};
use desk_outside::{Absent, Wire};
use group_plan::Plan;
use head_end::HeadEnd;
use std::alloc::Global;

impl Role for HeadEnd {
    ghost Fixed = { PlanView };

    ghost Line = { Logged };

    ghost is_in = { IsHeadEnd };

    ghost reads = { logged_of };

    ghost can = { can_follow };

    fn follow_line(&mut self, line: &[u8]) -> Recollection {
        match read_logged(line) {
            Some(logged) => {
                if self.follow(&logged) {
                    Recollection::Followed
                } else {
                    Recollection::Wrong
                }
            }
            None => Recollection::Wrong,
        }
    }
}

// The head end that the journal of a name gives, without the journal's rest.
fn open<W: Wire>(
    alloc: Global,
    wire: &mut W,
    name: &str,
    plan: &Plan,
) -> Result<Start<HeadEnd>, RoleError>
    ensures { HeadEndOpens plan.now name.now (W.view wire.old) (W.view wire.new) result }
{
    let Ok(text) = journal_head(alloc, plan) else {
        return Err(RoleError::Memory);
    };
    let Ok(head) = HeadEnd::new(alloc, plan) else {
        return Err(RoleError::Memory);
    };
    open_with(alloc, wire, name, Absent::Begun, head, &text)
}

// Ends a line that a killed program may have begun, and says that the next one can come.
fn greet<W: Wire>(alloc: Global, wire: &mut W, head: &HeadEnd) -> Result<(), RoleError>
    ensures { (plan : PlanView) (journal : List Logged) → IsHeadEnd plan journal head.now → Does (greeting plan (passed journal)) (W.view wire.old) (W.view wire.new) result }
{
    print(wire, b"\n")?;
    tell(alloc, wire, head.plan(), &HeadEndSays::Ready(head.ticks()))
}

// Has the journal on the disk, and then says that the next line can come.
fn welcome<W: Wire>(alloc: Global, wire: &mut W, head: &HeadEnd) -> Result<(), RoleError>
    ensures { (plan : PlanView) (journal : List Logged) → IsHeadEnd plan journal head.now → Does (welcome_steps plan (passed journal)) (W.view wire.old) (W.view wire.new) result }
{
    flush(wire)?;
    greet(alloc, wire, head)
}

/// Opens the journal of a head end, or begins it, goes on by its lines, brings it to the disk, and says how many ticks have passed.
pub fn start_head_end<W: Wire>(
    alloc: Global,
    wire: &mut W,
    name: &str,
    plan: &Plan,
) -> Result<Start<HeadEnd>, RoleError>
    ensures starts { HeadEndStarts plan.now name.now (W.view wire.old) (W.view wire.new) result }
    ensures ready { IfHeadEndReady result }
{
    match open(alloc, wire, name, plan) {
        Ok(Start::Ready(head)) => match welcome(alloc, wire, &head) {
            Ok(()) => Ok(Start::Ready(head)),
            Err(error) => Err(error),
        },
        Ok(Start::Unreadable) => Ok(Start::Unreadable),
        Ok(Start::Head(line)) => Ok(Start::Head(line)),
        Ok(Start::Line(line)) => Ok(Start::Line(line)),
        Err(error) => Err(error),
    }
}
