//! The report of a head end, which is put on the desk.

ghost use Rattle.std.specs.Prelude.{◌≤◌, IfErr, List};
ghost use Rattle.desk_outside.specs.Desk.{Rose};
ghost use Rattle.group_plan.specs.Plans.{PlanView};
ghost use Rattle.head_end.specs.declared.answers.Logged.{Logged};
ghost use Rattle.head_end.specs.Lines.{rows};
ghost use Rattle.totals_report.specs.Texts.{rows_text};
ghost use Rattle.apart_roles.specs.HeadEndTurns.{IsHeadEnd};
ghost use Rattle.apart_roles.specs.Steps.{Does};
ghost use Rattle.command_words.specs.Outcomes.{IsFault};
ghost use Rattle.role_commands.specs.CollectEnds.{due_steps};
ghost use Rattle.role_commands.specs.Parts.{Puts};

use apart_roles::{Pause, RoleError, report_text, say_reported, say_summary};
use command_files::{begin, commit};
use command_words::Outcome;
use desk_outside::{Desk, Readers, Slice, Wire};
use head_end::HeadEnd;
use std::alloc::Global;

/// Puts the report of a head end in place of what its name held, or says how the command ends.
pub(crate) fn put_report<'a, D: Desk>(
    alloc: Global,
    name: &'a str,
    head: &HeadEnd,
    desk: &mut D,
) -> Result<(), Outcome<'a>>
    ensures ends { (plan : PlanView) (journal : List Logged) → IsHeadEnd plan journal head.now → Puts name.now (rows_text (rows plan journal)) (D.view desk.old) (D.view desk.new) result }
    ensures later { D.faults desk.old ≤ D.faults desk.new }
    ensures cause { IfErr result (λ outcome. IsFault outcome → Rose (D.faults desk.old) (D.faults desk.new)) }
{
    let Ok(text) = report_text(alloc, head) else {
        return Err(Outcome::NoMemory);
    };
    let Ok(mut begun) = begin(name, Readers::Any, desk) else {
        return Err(Outcome::NoMemory);
    };
    begun.append(&mut Slice { rest: &text });
    commit(begun, desk)
}

/// Says what is due behind a pause, once the report is put.
pub(crate) fn say_due<W: Wire>(
    alloc: Global,
    wire: &mut W,
    pause: Pause,
    head: &HeadEnd,
) -> Result<(), RoleError>
    ensures { (plan : PlanView) (journal : List Logged) → IsHeadEnd plan journal head.now → Does (due_steps plan journal pause) (W.view wire.old) (W.view wire.new) result }
{
    match pause {
        Pause::Report => say_reported(alloc, wire, head),
        Pause::Over => say_summary(alloc, wire, head),
    }
}
