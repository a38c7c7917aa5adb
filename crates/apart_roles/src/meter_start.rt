//! The start of a meter over its journal.

ghost use Rattle.meter_apart.specs.declared.answers.Noted.{Noted};
ghost use Rattle.meter_apart.specs.declared.keys.MeterKeys.{MeterKeys};
ghost use Rattle.meter_apart.specs.Keys.{part_of};
ghost use Rattle.meter_apart.specs.Replies.{can_follow};
ghost use Rattle.apart_lines.specs.Journals.{noted_of};
ghost use Rattle.apart_roles.specs.MeterStarts.{IfReady, IsMeter, MeterOpens, MeterStarts, greeting, welcome_steps};
ghost use Rattle.apart_roles.specs.Steps.{Does};

use crate::outcome::{Recollection, RoleError, Start};
use crate::saying::say;
use crate::start::{Role, open_with};
use crate::steps::{flush, print};
use apart_lines::{MeterSays, meter_journal_head, read_noted};
use desk_outside::{Absent, Wire};
use meter_apart::{MeterApart, MeterKeys};
use std::alloc::Global;

impl Role for MeterApart {
    ghost Fixed = { MeterKeys };

    ghost Line = { Noted };

    ghost is_in = { IsMeter };

    ghost reads = { noted_of };

    ghost can = { λ keys. can_follow (part_of keys) };

    fn follow_line(&mut self, line: &[u8]) -> Recollection {
        match read_noted(line) {
            Some(noted) => {
                if self.follow(&noted) {
                    Recollection::Followed
                } else {
                    Recollection::Wrong
                }
            }
            None => Recollection::Wrong,
        }
    }
}

// The meter that the journal of a name gives, without the journal's rest.
fn open<W: Wire>(
    alloc: Global,
    wire: &mut W,
    name: &str,
    keys: MeterKeys,
) -> Result<Start<MeterApart>, RoleError>
    ensures { MeterOpens keys name.now (W.view wire.old) (W.view wire.new) result }
{
    let Ok(head) = meter_journal_head(alloc, keys.part()) else {
        return Err(RoleError::Memory);
    };
    let Ok(meter) = MeterApart::new(alloc, keys) else {
        return Err(RoleError::Memory);
    };
    open_with(alloc, wire, name, Absent::Refused, meter, &head)
}

// Ends a line that a killed program may have begun, and says that the next one can come.
fn greet<W: Wire>(alloc: Global, wire: &mut W) -> Result<(), RoleError>
    ensures { Does greeting (W.view wire.old) (W.view wire.new) result }
{
    print(wire, b"\n")?;
    say(alloc, wire, &MeterSays::Ready)
}

// Has the journal on the disk, and then says that the next line can come.
fn welcome<W: Wire>(alloc: Global, wire: &mut W) -> Result<(), RoleError>
    ensures { Does welcome_steps (W.view wire.old) (W.view wire.new) result }
{
    flush(wire)?;
    greet(alloc, wire)
}

/// Opens the journal of a meter, goes on by its lines, brings it to the disk, and says that the next line can come.
pub fn start_meter<W: Wire>(
    alloc: Global,
    wire: &mut W,
    name: &str,
    keys: MeterKeys,
) -> Result<Start<MeterApart>, RoleError>
    ensures starts { MeterStarts keys name.now (W.view wire.old) (W.view wire.new) result }
    ensures ready { IfReady result }
{
    match open(alloc, wire, name, keys) {
        Ok(Start::Ready(meter)) => match welcome(alloc, wire) {
            Ok(()) => Ok(Start::Ready(meter)),
            Err(error) => Err(error),
        },
        Ok(Start::Unreadable) => Ok(Start::Unreadable),
        Ok(Start::Head(line)) => Ok(Start::Head(line)),
        Ok(Start::Line(line)) => Ok(Start::Line(line)),
        Err(error) => Err(error),
    }
}
