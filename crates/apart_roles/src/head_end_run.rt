//! A head end over the lines of its input.

ghost use Rattle.std.specs.Prelude.{◌≡◌, List};
ghost use Rattle.group_plan.specs.Plans.{PlanView};
ghost use Rattle.head_end.specs.declared.answers.Logged.{Logged};
ghost use Rattle.apart_lines.specs.declared.heard.ToHeadEnd.TheVariants.{Unknown};
ghost use Rattle.apart_lines.specs.Heard.{to_head_end};
ghost use Rattle.apart_roles.specs.HeadEndRuns.{AnswersLine, Hears, IfOnward, Runs, TakesTurn, turn_of_line};
ghost use Rattle.apart_roles.specs.HeadEndTurns.{IsHeadEnd, IsSomewhere};

use crate::head_end_turn::answer;
use crate::outcome::RoleError;
use crate::saying::tell;
use crate::steps::flush;
use apart_lines::{HeadEndSays, ToHeadEnd, read_to_head_end};
use desk_outside::{Coming, Wire, WireError};
use head_end::HeadEnd;
use std::alloc::Global;

/// Why a head end hears nothing more for now.
#[derive(Clone, Copy, Debug, PartialEq, Eq)]
pub enum Pause {
    /// A line asks for the report. Once it is put, this is said, and the head end hears on.
    Report,
    /// The input has ended. The report is put, and the summary is said.
    Over,
}

/// Whether a head end hears on.
#[derive(Clone, Copy, Debug, PartialEq, Eq)]
pub(crate) enum Turn {
    /// It does.
    More,
    /// The report is asked for.
    Report,
    /// The input has ended.
    Over,
}

// Whether a head end hears on behind a line that says this.
fn turn_of_line(heard: &ToHeadEnd) -> Turn
    ensures { result ≡ turn_of_line heard.now }
{
    match heard {
        ToHeadEnd::Report => Turn::Report,
        ToHeadEnd::Frame(_) => Turn::More,
        ToHeadEnd::Tick(_) => Turn::More,
        ToHeadEnd::Again => Turn::More,
        ToHeadEnd::Nothing => Turn::More,
        ToHeadEnd::Unknown => Turn::More,
    }
}

// Answers a line, without its newline.
fn answer_line<W: Wire>(
    alloc: Global,
    wire: &mut W,
    head: &mut HeadEnd,
    line: &[u8],
) -> Result<Turn, RoleError>
    requires { IsSomewhere head.old }
    ensures { (plan : PlanView) (journal : List Logged) → IsHeadEnd plan journal head.old → AnswersLine plan journal (to_head_end line.now) (W.view wire.old) (W.view wire.new) result head.new }
{
    let heard = read_to_head_end(line);
    answer(alloc, wire, head, &heard)?;
    Ok(turn_of_line(&heard))
}

// Answers a line that is too long.
fn answer_long<W: Wire>(alloc: Global, wire: &mut W, head: &HeadEnd) -> Result<Turn, RoleError>
    ensures { (plan : PlanView) (journal : List Logged) → IsHeadEnd plan journal head.now → AnswersLine plan journal Unknown (W.view wire.old) (W.view wire.new) result head.now }
{
    tell(alloc, wire, head.plan(), &HeadEndSays::UnknownLine)?;
    Ok(Turn::More)
}

// Hears and answers what comes next.
#[tactic(auto, using(crate::proofs::HeadEndRunLemmas::turn_unheard, crate::proofs::HeadEndRunLemmas::turn_memory))]
fn take_turn<W: Wire>(
    alloc: Global,
    wire: &mut W,
    head: &mut HeadEnd,
    line: &mut Vec<u8>,
) -> Result<Turn, RoleError>
    requires { IsSomewhere head.old }
    ensures { (plan : PlanView) (journal : List Logged) → IsHeadEnd plan journal head.old → TakesTurn plan journal (W.view wire.old) (W.view wire.new) result head.new }
{
    match wire.hear(line) {
        Ok(Coming::Line) => answer_line(alloc, wire, head, line),
        Ok(Coming::TooLong) => answer_long(alloc, wire, head),
        Ok(Coming::Rest) => Ok(Turn::Over),
        Ok(Coming::End) => Ok(Turn::Over),
        Err(WireError::Failed) => Err(RoleError::Input),
        Err(WireError::Memory) => Err(RoleError::Memory),
    }
}

// Answers the lines of the input, up to one that asks for the report, or to the input's end.
fn hear_lines<W: Wire>(alloc: Global, wire: &mut W, head: &mut HeadEnd) -> Result<Pause, RoleError>
    requires { IsSomewhere head.old }
    ensures { (plan : PlanView) (journal : List Logged) → IsHeadEnd plan journal head.old → Hears plan journal (W.view wire.old) (W.view wire.new) result head.new }
{
    let mut line = Vec::new(alloc);
    for _turn in 0..u64::MAX {
        match take_turn(alloc, wire, head, &mut line)? {
            Turn::More => {}
            Turn::Report => return Ok(Pause::Report),
            Turn::Over => return Ok(Pause::Over),
        }
    }
    Ok(Pause::Over)
}

/// Answers the lines of the input, up to one that asks for the report, or to the input's end, and has the journal on the disk. After
/// an `Err` the head end isn't used any more, as its journal may lack what it has taken.
pub fn run_head_end<W: Wire>(
    alloc: Global,
    wire: &mut W,
    head: &mut HeadEnd,
) -> Result<Pause, RoleError>
    requires { IsSomewhere head.old }
    ensures runs { (plan : PlanView) (journal : List Logged) → IsHeadEnd plan journal head.old → Runs plan journal (W.view wire.old) (W.view wire.new) result head.new }
    ensures onward { IfOnward result head.new }
{
    let pause = hear_lines(alloc, wire, head)?;
    flush(wire)?;
    Ok(pause)
}
