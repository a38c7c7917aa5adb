//! What roles bring outside.

ghost use Rattle.std.specs.Prelude.{◌≡◌, ◌∷◌, ◌++◌, [], false, All, OnOk};
ghost use Rattle.transcript_text.specs.Spelling.{ended};
ghost use Rattle.apart_lines.specs.Journals.{CanLog, logged_text, noted_text};
ghost use Rattle.apart_lines.specs.Said.{CanMeterSay, CanSay, CanSayLine, head_end_text, meter_text};
ghost use Rattle.desk_outside.specs.declared.wire.WireStep.TheVariants.{Appended};
ghost use Rattle.apart_roles.specs.HeadEndTurns.{answer_steps, lines_text};
ghost use Rattle.apart_roles.specs.Steps.{Does, noted_steps, said_steps};

use crate::outcome::RoleError;
use crate::steps::{append, flush, print};
use apart_lines::{
    HeadEndSays, MeterSays, put_head_end_says, put_logged, put_meter_says, put_noted,
};
use desk_outside::Wire;
use group_plan::Plan;
use head_end::{Logged, TickLine};
use meter_apart::Noted;
use std::alloc::{AllocError, Global};

/// Appends a line to the journal of a meter, and has it on the disk.
pub(crate) fn note<W: Wire>(alloc: Global, wire: &mut W, line: &Noted) -> Result<(), RoleError>
    ensures { Does (noted_steps (noted_text line.now)) (W.view wire.old) (W.view wire.new) result }
{
    let mut text = Vec::new(alloc);
    if put_noted(&mut text, line).is_err() || text.push(b'\n').is_err() {
        return Err(RoleError::Memory);
    }
    append(wire, &text)?;
    flush(wire)
}

/// Says a line of a meter.
#[tactic(auto, using(crate::proofs::StepLemmas::stops_here))]
pub(crate) fn say<W: Wire>(alloc: Global, wire: &mut W, says: &MeterSays) -> Result<(), RoleError>
    requires { CanMeterSay says.now }
    ensures { Does (said_steps (meter_text says.now)) (W.view wire.old) (W.view wire.new) result }
{
    let mut text = Vec::new(alloc);
    if put_meter_says(&mut text, says).is_err() || text.push(b'\n').is_err() {
        return Err(RoleError::Memory);
    }
    print(wire, &text)
}

/// Appends a line to the journal of a head end.
#[tactic(auto, using(crate::proofs::StepLemmas::stops_here))]
pub(crate) fn log<W: Wire>(alloc: Global, wire: &mut W, line: &Logged) -> Result<(), RoleError>
    requires { CanLog line.now }
    ensures { Does (Appended (ended (logged_text line.now)) false ∷ []) (W.view wire.old) (W.view wire.new) result }
{
    let mut text = Vec::new(alloc);
    if put_logged(&mut text, line).is_err() || text.push(b'\n').is_err() {
        return Err(RoleError::Memory);
    }
    append(wire, &text)
}

/// Says a line of a head end of this plan.
#[tactic(auto, using(crate::proofs::StepLemmas::stops_here))]
pub(crate) fn tell<W: Wire>(
    alloc: Global,
    wire: &mut W,
    plan: &Plan,
    says: &HeadEndSays,
) -> Result<(), RoleError>
    requires { CanSay says.now }
    ensures { Does (said_steps (head_end_text plan.now says.now)) (W.view wire.old) (W.view wire.new) result }
{
    let mut text = Vec::new(alloc);
    if put_head_end_says(alloc, &mut text, plan, says).is_err() || text.push(b'\n').is_err() {
        return Err(RoleError::Memory);
    }
    print(wire, &text)
}

// Appends lines of ticks, each with its newline.
fn put_lines(
    alloc: Global,
    out: &mut Vec<u8>,
    plan: &Plan,
    lines: &[TickLine],
) -> Result<(), AllocError>
    requires { All CanSayLine lines.now }
    ensures { OnOk result (out.new.items ≡ out.old.items ++ lines_text plan.now lines.now) }
{
    for line in lines {
        put_head_end_says(alloc, out, plan, &HeadEndSays::Line(*line))?;
        out.push(b'\n')?;
    }
    Ok(())
}

// The text of lines of ticks and of a last line behind them.
fn put_answer(
    alloc: Global,
    out: &mut Vec<u8>,
    plan: &Plan,
    lines: &[TickLine],
    last: &HeadEndSays,
) -> Result<(), AllocError>
    requires lines { All CanSayLine lines.now }
    requires last { CanSay last.now }
    ensures { OnOk result (out.new.items ≡ out.old.items ++ lines_text plan.now lines.now ++ ended (head_end_text plan.now last.now)) }
{
    put_lines(alloc, out, plan, lines)?;
    put_head_end_says(alloc, out, plan, last)?;
    out.push(b'\n')?;
    Ok(())
}

/// Says lines of ticks and a last line behind them, at once.
#[tactic(auto, using(crate::proofs::StepLemmas::stops_here))]
pub(crate) fn tell_all<W: Wire>(
    alloc: Global,
    wire: &mut W,
    plan: &Plan,
    lines: &[TickLine],
    last: &HeadEndSays,
) -> Result<(), RoleError>
    requires lines { All CanSayLine lines.now }
    requires last { CanSay last.now }
    ensures { Does (answer_steps plan.now (record { lines = lines.now; last = last.now })) (W.view wire.old) (W.view wire.new) result }
{
    let mut text = Vec::new(alloc);
    if put_answer(alloc, &mut text, plan, lines, last).is_err() {
        return Err(RoleError::Memory);
    }
    print(wire, &text)
}
