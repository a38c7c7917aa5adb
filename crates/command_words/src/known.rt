//! The meters that share what they know, as a word names them.

ghost use Rattle.std.specs.Prelude.{◌≡◌, Some, [], IfOk, length, replicate, is_some};
ghost use Rattle.command_words.specs.Known.{meter_of, comes_after, after_last, known_of, known_in, IsKnown, GivesSets};
ghost use Rattle.command_words.specs.KnownParts.{Adds, named_by};

use crate::parsing::MOST_OF_EACH;
use field_texts::{cut, read_number_within};
use group_plan::Plan;
use missing_round::MeterSet;
use std::alloc::{AllocError, Global};

/// A meter of a group, both counted from 0.
#[derive(Clone, Copy)]
pub struct KnownMeter {
    pub group: u8,
    pub meter: u8,
}

// The meter that a text names: its group and its number in it, with a point between them.
fn read_meter(text: &[u8]) -> Option<KnownMeter>
    ensures { result ≡ meter_of text.now }
{
    let (group, meter) = cut(b'.', text)?;
    let group = read_number_within(group, 0, MOST_OF_EACH)?;
    let meter = read_number_within(meter, 0, MOST_OF_EACH)?;
    Some(KnownMeter {
        group: group as u8,
        meter: meter as u8,
    })
}

// Whether a meter comes after the last one, where there is one.
fn comes_after(last: Option<KnownMeter>, meter: KnownMeter) -> bool
    ensures { result ≡ comes_after last meter }
{
    match last {
        None => true,
        Some(last) => {
            last.group < meter.group || (last.group == meter.group && last.meter < meter.meter)
        }
    }
}

// The meter that a text names, where it comes after the last one.
fn read_after(last: Option<KnownMeter>, text: &[u8]) -> Option<KnownMeter>
    ensures { result ≡ after_last last (meter_of text.now) }
{
    let meter = read_meter(text)?;
    if comes_after(last, meter) {
        Some(meter)
    } else {
        None
    }
}

/// Whether the word names meters: `-` for nobody, or meters that ascend, each once, joined by `+`; each is its group and its
/// number in it, below 256, with a point between them.
#[tactic(auto, unfolding(crate::specs::Known::known_of))]
pub(crate) fn names_meters(word: &str) -> bool
    ensures { result ≡ is_some (known_of word.now) }
{
    if word == "-" {
        return true;
    }
    let mut last = None;
    let mut rest = word.as_bytes();
    while let Some((part, after)) = cut(b'+', rest) {
        let Some(meter) = read_after(last, part) else {
            return false;
        };
        last = Some(meter);
        rest = after;
    }
    read_after(last, rest).is_some()
}

// Adds the meter that a text names, where the plan has it.
fn add(sets: &mut [MeterSet], plan: &Plan, text: &[u8]) -> bool
    requires meter { meter_of text.now ≡ Some (named_by text.now) }
    requires sets { length sets.old ≡ length plan.now.groups }
    ensures added { Adds plan.now (named_by text.now) sets.old sets.new result }
    ensures sets { length sets.new ≡ length plan.now.groups }
{
    let Some(meter) = read_meter(text) else {
        unreachable!()
    };
    let group = meter.group as usize;
    if u32::from(meter.meter) >= plan.meters(group as u16) {
        return false;
    }
    sets[group] = sets[group].with(meter.meter);
    true
}

// An empty set for each of so many groups.
fn empty_sets(alloc: Global, groups: usize) -> Result<Vec<MeterSet>, AllocError>
    ensures { IfOk result (λ sets. sets.items ≡ replicate groups []) }
{
    vec![in alloc; MeterSet::empty(); groups]
}

/// The meters that a word names, as a set for each group of the plan; none where the plan hasn't all of them.
#[tactic(auto, unfolding(crate::specs::Known::known_of))]
pub fn known_sets(
    alloc: Global,
    plan: &Plan,
    word: &str,
) -> Result<Option<Vec<MeterSet>>, AllocError>
    requires { IsKnown word.now }
    ensures { IfOk result (GivesSets plan.now (known_in word.now)) }
{
    let mut sets = empty_sets(alloc, plan.groups().len())?;
    if word == "-" {
        return Ok(Some(sets));
    }
    let mut rest = word.as_bytes();
    while let Some((part, after)) = cut(b'+', rest) {
        if !add(&mut sets, plan, part) {
            return Ok(None);
        }
        rest = after;
    }
    if add(&mut sets, plan, rest) {
        Ok(Some(sets))
    } else {
        Ok(None)
    }
}
