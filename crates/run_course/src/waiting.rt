//! What is still to come in a tick, and the copies of later ticks.

ghost use Rattle.std.specs.Prelude.{◌≡◌, ◌<◌, ◌^◌, ◌++◌, ◌+◌, ◌==◌, ◌↔◌, IsTrue, not, map, filter, reverse, length, IfOk, OnOk, IsPermutation};
ghost use Rattle.run_course.specs.Removing.{Removes};
ghost use Rattle.run_course.specs.Stages.{arrivals, due_groups};

use group_plan::{Plan, Tag};
use link_lanes::Fate;
use std::alloc::{AllocError, Global};
use std::cmp::Reverse;

/// A copy on its way: the tick at which it is due, and the tag of its frame.
#[derive(Clone, Copy)]
pub(crate) struct Arrival {
    pub tick: u32,
    pub tag: Tag,
}

/// Whether two tags are the same.
pub(crate) fn is_same(one: Tag, other: Tag) -> bool
    ensures { IsTrue result ↔ one ≡ other }
{
    one == other
}

/// Takes a copy out, where there is one. What comes next stands last.
pub(crate) fn remove_copy(copies: &mut Vec<Tag>, tag: Tag) -> bool
    ensures { Removes tag copies.old.items result copies.new.items }
{
    let mut at = copies.len();
    while at > 0 {
        at -= 1;
        if is_same(copies[at], tag) {
            copies.remove(at);
            return true;
        }
    }
    false
}

/// Takes a group out, where it is there.
pub(crate) fn remove_group(groups: &mut Vec<u16>, group: u16) -> bool
    ensures { Removes group groups.old.items result groups.new.items }
{
    for at in 0..groups.len() {
        if groups[at] == group {
            groups.remove(at);
            return true;
        }
    }
    false
}

/// Adds a copy for each delay of the fate.
pub(crate) fn post(
    later: &mut Vec<Arrival>,
    tick: u32,
    tag: Tag,
    fate: Fate,
) -> Result<(), AllocError>
    requires { tick < 2 ^ 31 }
    ensures { OnOk result (later.new.items ≡ later.old.items ++ arrivals tick tag fate) }
{
    for delay in fate.delays() {
        later.push(Arrival {
            tick: tick + u32::from(*delay),
            tag,
        })?;
    }
    Ok(())
}

// The copies that are due at a tick, the one that was sent last first.
fn due_reversed(alloc: Global, later: &[Arrival], tick: u32) -> Result<Vec<Tag>, AllocError>
    ensures { IfOk result (λ due. due.items ≡ map (λ a. a.tag) (filter (λ a. a.tick == tick) (reverse later.now))) }
{
    later
        .iter()
        .rev()
        .filter(|copy| copy.tick == tick)
        .map(|copy| copy.tag)
        .collect(alloc)
}

/// The copies that are due at a tick, those of the first group last, and in each group the one that was sent first. A run takes them
/// by groups in the order in which they were sent, so its next one stands last.
pub(crate) fn due_at(alloc: Global, later: &[Arrival], tick: u32) -> Result<Vec<Tag>, AllocError>
    ensures { IfOk result (λ due. IsPermutation (map (λ a. a.tag) (filter (λ a. a.tick == tick) (reverse later.now))) due.items) }
{
    let mut due = due_reversed(alloc, later, tick)?;
    due.sort_by_key(|tag| Reverse(tag.group))?;
    Ok(due)
}

/// The copies that are due at other ticks.
pub(crate) fn due_elsewhere(
    alloc: Global,
    later: &[Arrival],
    tick: u32,
) -> Result<Vec<Arrival>, AllocError>
    ensures { IfOk result (λ rest. rest.items ≡ filter (λ a. not (a.tick == tick)) later.now) }
{
    later
        .iter()
        .filter(|copy| copy.tick != tick)
        .copied()
        .collect(alloc)
}

/// The groups whose round began so many ticks before this one.
pub(crate) fn groups_due(
    alloc: Global,
    plan: &Plan,
    window: u32,
    tick: u32,
) -> Result<Vec<u16>, AllocError>
    ensures { IfOk result (λ groups. groups.items ≡ due_groups plan.now window tick) }
{
    let mut groups = Vec::new(alloc);
    if tick < window || plan.rounds() <= tick - window {
        return Ok(groups);
    }
    for group in 0..plan.groups().len() {
        groups.push(group as u16)?;
    }
    Ok(groups)
}
