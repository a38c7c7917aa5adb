//! A meter over the lines of its input.

ghost use Rattle.std.specs.Prelude.{◌≡◌, List};
ghost use Rattle.meter_apart.specs.declared.answers.Noted.{Noted};
ghost use Rattle.meter_apart.specs.Meter.{IsAfter, meter_keys};
ghost use Rattle.apart_roles.specs.MeterRuns.{TakesTurn, Runs};
ghost use Rattle.apart_roles.specs.MeterTurns.{HasJournal};

use crate::meter_turn::answer_line;
use crate::outcome::RoleError;
use crate::saying::say;
use apart_lines::MeterSays;
use desk_outside::{Coming, Wire, WireError};
use meter_apart::MeterApart;
use std::alloc::Global;

// Hears and answers what comes next; whether more may come.
#[tactic(auto, using(crate::proofs::RunLemmas::turn_unheard, crate::proofs::RunLemmas::turn_memory))]
fn take_turn<W: Wire>(
    alloc: Global,
    wire: &mut W,
    meter: &mut MeterApart,
    line: &mut Vec<u8>,
) -> Result<bool, RoleError>
    requires { HasJournal meter.old }
    ensures keys { meter_keys meter.new ≡ meter_keys meter.old }
    ensures turn { (journal : List Noted) → IsAfter journal meter.old → TakesTurn meter.old journal (W.view wire.old) (W.view wire.new) result meter.new }
{
    match wire.hear(line) {
        Ok(Coming::Line) => answer_line(alloc, wire, meter, line)?,
        Ok(Coming::TooLong) => say(alloc, wire, &MeterSays::UnknownLine)?,
        Ok(Coming::Rest) => return Ok(false),
        Ok(Coming::End) => return Ok(false),
        Err(WireError::Failed) => return Err(RoleError::Input),
        Err(WireError::Memory) => return Err(RoleError::Memory),
    }
    Ok(true)
}

/// Answers each line of the input, up to its end. After an `Err` the meter isn't used any more, as its journal may lack what it has
/// marked or kept.
pub fn run_meter<W: Wire>(
    alloc: Global,
    wire: &mut W,
    meter: &mut MeterApart,
) -> Result<(), RoleError>
    requires { HasJournal meter.old }
    ensures { (journal : List Noted) → IsAfter journal meter.old → Runs meter.old journal (W.view wire.old) (W.view wire.new) result meter.new }
{
    let mut line = Vec::new(alloc);
    for _turn in 0..u64::MAX {
        if !take_turn(alloc, wire, meter, &mut line)? {
            return Ok(());
        }
    }
    Ok(())
}
