//! The command `collect`.

ghost use Rattle.std.specs.Prelude.{◌≡◌, ◌≤◌, ◌⊎◌, IfErr, IfOk, List, OnOk};
ghost use Rattle.desk_outside.specs.Desk.{Rose};
ghost use Rattle.group_plan.specs.Plans.{PlanView};
ghost use Rattle.head_end.specs.declared.answers.Logged.{Logged};
ghost use Rattle.apart_roles.specs.HeadEndTurns.{IsHeadEnd, IsSomewhere};
ghost use Rattle.command_words.specs.Commands.{collect_names_of};
ghost use Rattle.command_words.specs.Outcomes.{IsFault};
ghost use Rattle.command_texts.specs.Inspecting.{PublicTextRefuses};
ghost use Rattle.role_commands.specs.CollectEnds.{CollectEnds, IsCourse, place};
ghost use Rattle.role_commands.specs.Parts.{FileEnds, HeadEndBegins, SaysPlan, TakesTurn};

use crate::report::{put_report, say_due};
use crate::told::stopped;
use apart_roles::{Pause, Start, run_head_end, start_head_end};
use command_files::fetch;
use command_texts::public_in;
use command_words::{CollectFiles, Outcome, TextFault, Unread};
use desk_outside::{Desk, Wire};
use group_plan::Plan;
use head_end::HeadEnd;
use std::alloc::Global;
use std::sync::Wait;

// Fetches a public plan, or says how the command ends.
fn fetch_plan<'a, D: Desk>(alloc: Global, name: &'a str, desk: &mut D) -> Result<Plan, Outcome<'a>>
    ensures ends { FileEnds name.now SaysPlan (PublicTextRefuses name.now) (D.view desk.old) (D.view desk.new) result }
    ensures later { D.faults desk.old ≤ D.faults desk.new }
    ensures cause { IfErr result (λ outcome. IsFault outcome → Rose (D.faults desk.old) (D.faults desk.new)) }
{
    let bytes = or_fail!(fetch(alloc, name, desk));
    public_in(alloc, name, &bytes)
}

// Starts a head end over the journal of this name, or says how the command ends.
fn start<'a, W: Wire>(
    alloc: Global,
    wire: &mut W,
    journal: &'a str,
    plan: &Plan,
) -> Result<HeadEnd, Outcome<'a>>
    ensures ends { HeadEndBegins plan.now journal.now (W.view wire.old) (W.view wire.new) result }
    ensures ready { IfOk result IsSomewhere }
    ensures calm { OnOk result ((W.view wire.new).faults ≡ (W.view wire.old).faults) }
    ensures cause { IfErr result (λ outcome. IsFault outcome → Rose (W.view wire.old).faults (W.view wire.new).faults) }
{
    match start_head_end(alloc, wire, journal, plan) {
        Ok(Start::Ready(head)) => Ok(head),
        Ok(Start::Unreadable) => Err(Outcome::Unread(Unread::File(journal))),
        Ok(Start::Head(line)) => Err(Outcome::BadText(journal, TextFault::JournalHead(line))),
        Ok(Start::Line(line)) => Err(Outcome::BadText(journal, TextFault::JournalLine(line))),
        Err(error) => Err(stopped(journal, error)),
    }
}

// Answers the lines of the input up to a pause, puts the report, and says what is due then; or says how the command ends.
fn take_turn<'a, D: Desk, W: Wire>(
    alloc: Global,
    files: CollectFiles<'a>,
    head: &mut HeadEnd,
    desk: &mut D,
    wire: &mut W,
) -> Result<Pause, Outcome<'a>>
    requires { IsSomewhere head.old }
    ensures ends { (plan : PlanView) (journal : List Logged) → IsHeadEnd plan journal head.old
        → TakesTurn plan (collect_names_of files.entry) (place journal (D.view desk.old) (W.view wire.old)) (D.view desk.new) (W.view wire.new) result head.new }
    ensures onward { OnOk result (IsSomewhere head.new) }
    ensures later { D.faults desk.old ≤ D.faults desk.new }
    ensures calm { OnOk result ((W.view wire.new).faults ≡ (W.view wire.old).faults) }
    ensures cause { IfErr result (λ outcome. IsFault outcome → Rose (D.faults desk.old) (D.faults desk.new) ⊎ Rose (W.view wire.old).faults (W.view wire.new).faults) }
{
    let pause = match run_head_end(alloc, wire, head) {
        Ok(pause) => pause,
        Err(error) => return Err(stopped(files.journal, error)),
    };
    or_fail!(put_report(alloc, files.report, head, desk));
    match say_due(alloc, wire, pause, head) {
        Ok(()) => Ok(pause),
        Err(error) => Err(stopped(files.journal, error)),
    }
}

// Takes such turns up to the end of the input.
fn take_turns<'a, R: Wait, D: Desk, W: Wire>(
    rt: &R,
    alloc: Global,
    files: CollectFiles<'a>,
    head: &mut HeadEnd,
    desk: &mut D,
    wire: &mut W,
) -> Outcome<'a>
    requires { IsSomewhere head.old }
    ensures ends { (plan : PlanView) (journal : List Logged) → IsHeadEnd plan journal head.old
        → IsCourse plan (collect_names_of files.entry) (place journal (D.view desk.old) (W.view wire.old)) (D.view desk.new) (W.view wire.new) result }
    ensures later { D.faults desk.old ≤ D.faults desk.new }
    ensures cause { IsFault result → Rose (D.faults desk.old) (D.faults desk.new) ⊎ Rose (W.view wire.old).faults (W.view wire.new).faults }
{
    for _turn in rt.forever() {
        match take_turn(alloc, files, head, desk, wire) {
            Ok(Pause::Report) => {}
            Ok(Pause::Over) => return Outcome::Done,
            Err(outcome) => return outcome,
        }
    }
    unreachable!()
}

/// Fetches a public plan, goes on by the journal of a head end, or begins it, and answers each line of the input. It puts the report
/// where a line asks for it, and at the end of the input.
pub fn collect<'a, R: Wait, D: Desk, W: Wire>(
    rt: &R,
    alloc: Global,
    files: CollectFiles<'a>,
    desk: &mut D,
    wire: &mut W,
) -> Outcome<'a>
    ensures ends { CollectEnds (collect_names_of files.entry) (D.view desk.old) (D.view desk.new) (W.view wire.old) (W.view wire.new) result }
    ensures later { D.faults desk.old ≤ D.faults desk.new }
    ensures cause { IsFault result → Rose (D.faults desk.old) (D.faults desk.new) ⊎ Rose (W.view wire.old).faults (W.view wire.new).faults }
{
    let plan = or_end!(fetch_plan(alloc, files.public, desk));
    let mut head = or_end!(start(alloc, wire, files.journal, &plan));
    take_turns(rt, alloc, files, &mut head, desk, wire)
}
