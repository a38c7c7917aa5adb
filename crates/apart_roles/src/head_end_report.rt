//! The report of a head end, and what is said of it.

ghost use Rattle.std.specs.Prelude.{◌≡◌, IfOk, List};
ghost use Rattle.totals_report.specs.Texts.{counts_text, rows_text};
ghost use Rattle.group_plan.specs.Plans.{PlanView};
ghost use Rattle.head_end.specs.declared.answers.Logged.{Logged};
ghost use Rattle.head_end.specs.Lines.{rows};
ghost use Rattle.apart_lines.specs.declared.said.HeadEndSays.TheVariants.{Reported};
ghost use Rattle.apart_lines.specs.Said.{head_end_text};
ghost use Rattle.apart_roles.specs.HeadEndRuns.{summary_steps};
ghost use Rattle.apart_roles.specs.HeadEndTurns.{IsHeadEnd};
ghost use Rattle.apart_roles.specs.Steps.{Does, said_steps};

use crate::outcome::RoleError;
use crate::saying::tell;
use crate::steps::print;
use apart_lines::HeadEndSays;
use desk_outside::Wire;
use head_end::HeadEnd;
use std::alloc::{AllocError, Global};
use totals_report::{counts_line, rows_text};

/// The text of the report. The rounds that have not ended are open in it.
pub fn report_text(alloc: Global, head: &HeadEnd) -> Result<Vec<u8>, AllocError>
    ensures { (plan : PlanView) (journal : List Logged) → IsHeadEnd plan journal head.now → IfOk result (λ text. text.items ≡ rows_text (rows plan journal)) }
{
    let rows = head.rows(alloc)?;
    rows_text(alloc, &rows)
}

/// Says that the report has been put.
pub fn say_reported<W: Wire>(alloc: Global, wire: &mut W, head: &HeadEnd) -> Result<(), RoleError>
    ensures { (plan : PlanView) (journal : List Logged) → IsHeadEnd plan journal head.now → Does (said_steps (head_end_text plan Reported)) (W.view wire.old) (W.view wire.new) result }
{
    tell(alloc, wire, head.plan(), &HeadEndSays::Reported)
}

// The line that says how many rounds there are, and how many of each outcome.
fn summary_line(alloc: Global, head: &HeadEnd) -> Result<Vec<u8>, AllocError>
    ensures { (plan : PlanView) (journal : List Logged) → IsHeadEnd plan journal head.now → IfOk result (λ text. text.items ≡ counts_text (rows plan journal)) }
{
    let rows = head.rows(alloc)?;
    counts_line(alloc, &rows)
}

/// Says how many rounds there are, and how many of each outcome.
#[tactic(auto, using(crate::proofs::StepLemmas::stops_here))]
pub fn say_summary<W: Wire>(alloc: Global, wire: &mut W, head: &HeadEnd) -> Result<(), RoleError>
    ensures { (plan : PlanView) (journal : List Logged) → IsHeadEnd plan journal head.now → Does (summary_steps plan journal) (W.view wire.old) (W.view wire.new) result }
{
    match summary_line(alloc, head) {
        Ok(line) => print(wire, &line),
        Err(_) => Err(RoleError::Memory),
    }
}
