//! The number of an entry's line in the text of a transcript.

ghost use Rattle.std.specs.Prelude.{◌≡◌, ◌<◌, ◌≤◌, ◌^◌, length, IsTrue};
ghost use Rattle.group_plan.specs.Plans.{size};
ghost use Rattle.transcript_text.specs.Spelling.{is_partial, span_at, spans_below, stated_spans};
ghost use Rattle.transcript_text.specs.EntryLines.{entry_line, EntriesHaveTheirLines};

use group_plan::Plan;

// Whether a member line states the span of a meter: it isn't all of the rounds.
fn is_stated(plan: &Plan, group: u16, meter: u8) -> bool
    requires { meter < size plan.now.groups group }
    ensures { result ≡ is_partial plan.now.rounds (span_at plan.now group meter) }
{
    let last = plan.rounds() - 1;
    !(plan.is_member(group, 0, meter) && plan.is_member(group, last, meter))
}

// How many spans of a group are stated.
fn stated_of(plan: &Plan, group: u16) -> u32
    ensures spans { result ≡ length (spans_below plan.now group (size plan.now.groups group)) }
    ensures few { result ≤ 256 }
{
    let mut stated = 0;
    for meter in 0..plan.meters(group) {
        if is_stated(plan, group, meter as u8) {
            stated += 1;
        }
    }
    stated
}

// How many spans are stated.
#[tactic(auto, unfolding(crate::specs::Spelling::stated_spans))]
fn all_stated(plan: &Plan) -> u32
    ensures spans { result ≡ length (stated_spans plan.now) }
    ensures few { result ≤ 65536 }
{
    let mut stated = 0;
    for group in 0..plan.groups().len() {
        stated += stated_of(plan, group as u16);
    }
    stated
}

/// The number of the line of an entry in the text of a transcript of this plan. Lines are counted from 1, and entries from 0.
pub fn entry_line(plan: &Plan, entry: u64) -> u64
    requires { entry < 2 ^ 63 }
    ensures number { result ≡ entry_line plan.now entry }
    ensures law { EntriesHaveTheirLines }
{
    let groups = plan.groups().len() as u64;
    4 + groups + u64::from(all_stated(plan)) + entry + 1
}
