//! The command `parts`.

ghost use Rattle.std.specs.Prelude.{◌≡◌, ◌<◌, nat_lt, length, ◌≤◌};
ghost use Rattle.desk_outside.specs.Desk.{Rose};
ghost use Rattle.pair_keys.specs.Keys.{table_of};
ghost use Rattle.command_words.specs.Outcomes.{IsFault};
ghost use Rattle.file_commands.specs.PartsEnds.{PartsPut, PartsEnds};

use command_files::{fetch, say};
use command_texts::{parts_line, plan_in};
use command_words::{Outcome, PartsWords, Unwritten};
use desk_outside::Desk;
use group_plan::Plan;
use meter_files::{PartFailure, put_parts};
use pair_keys::{KeyError, KeyTable};
use plan_files::{FileCause, FileFault};
use std::alloc::Global;

/// The fault of a plan that hasn't the group.
const NO_GROUP: FileFault = FileFault {
    row: 0,
    cause: FileCause::Key(KeyError::Range),
};

// Whether the plan has the group.
#[tactic(auto, using(crate::proofs::PartsEndings::groups_counted))]
fn has_group(plan: &Plan, group: u16) -> bool
    ensures { result ≡ nat_lt group (length plan.now.groups) }
{
    (group as usize) < plan.groups().len()
}

// Puts the files of the meters of a group, and says how many meters it has.
fn put_and_say<'a, D: Desk>(
    alloc: Global,
    keys: &KeyTable,
    group: u16,
    prefix: &'a str,
    desk: &mut D,
) -> Outcome<'a>
    requires { group < length (table_of keys.now).plan.groups }
    ensures ends { PartsPut (table_of keys.now) group prefix.entry.now (D.view desk.old) (D.view desk.new) result }
    ensures later { D.faults desk.old ≤ D.faults desk.new }
    ensures cause { IsFault result → Rose (D.faults desk.old) (D.faults desk.new) }
{
    let Ok(line) = parts_line(alloc, keys.plan().meters(group)) else {
        return Outcome::NoMemory;
    };
    match put_parts(alloc, keys, group, prefix, desk) {
        Ok(()) => say(line.as_bytes(), desk),
        Err(PartFailure::Memory) => Outcome::NoMemory,
        Err(PartFailure::Unwritable { meter, file }) => Outcome::Unwritten(Unwritten::Part {
            prefix,
            meter,
            file,
        }),
    }
}

/// Fetches a plan, puts for each meter of a group what it has of the plan and the head of its journal, and says how many meters there are.
pub fn parts<'a, D: Desk>(alloc: Global, words: PartsWords<'a>, desk: &mut D) -> Outcome<'a>
    ensures ends { PartsEnds words.entry.plan.now words.entry.group words.entry.prefix.now (D.view desk.old) (D.view desk.new) result }
    ensures later { D.faults desk.old ≤ D.faults desk.new }
    ensures cause { IsFault result → Rose (D.faults desk.old) (D.faults desk.new) }
{
    let bytes = or_end!(fetch(alloc, words.plan, desk));
    let file = or_end!(plan_in(alloc, words.plan, &bytes));
    if has_group(&file.plan, words.group) {
        put_and_say(alloc, &file.keys, words.group, words.prefix, desk)
    } else {
        Outcome::BadPlan(words.plan, NO_GROUP)
    }
}
