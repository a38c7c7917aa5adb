//! The lines of a plan, up to `begin`.
ghost use Rattle.std.specs.Prelude.{◌≡◌, ◌<◌, ◌≤◌, ◌++◌, ◌∷◌, [], codes, decimal, map, OnOk, IfOk, if◌then◌else◌};
ghost use Rattle.group_plan.specs.Plans.{size, span_of, IsWithinLimits};
ghost use Rattle.group_plan.specs.NewPlans.{stated};
ghost use Rattle.transcript_text.specs.declared.version.Version.TheVariants.{Two};
ghost use Rattle.transcript_text.specs.Spelling.{ended, joined, rounds_fields, windows_fields, start_text, group_fields, groups_text, member_fields, members_text, is_partial, span_at, spans_below, stated_spans, head_text};

use crate::writing::put_two;
use field_texts::put_number;
use group_plan::{GroupPlan, Plan, Span};
use std::alloc::AllocError;

/// The first round in which the meter is a member.
#[tactic(auto, using(crate::proofs::SpanLemmas::is_first, crate::proofs::SpanLemmas::not_first, crate::proofs::SpanLemmas::first_in_place))]
fn first_round(plan: &Plan, group: u16, meter: u8) -> u32
    requires { meter < size plan.now.groups group }
    ensures { result ≡ (span_of plan.now.groups group meter).from }
{
    let _rounds = plan.rounds();
    let mut round = 0;
    while !plan.is_member(group, round, meter) {
        round += 1;
    }
    round
}

/// The first round after `from` in which the meter, a member in `from`, is none.
#[tactic(auto, using(crate::proofs::SpanLemmas::still_member, crate::proofs::SpanLemmas::no_member, crate::proofs::SpanLemmas::in_place, crate::proofs::SpanLemmas::some_round, crate::proofs::SpanLemmas::few_rounds))]
fn round_after(plan: &Plan, group: u16, meter: u8, from: u32) -> u32
    requires meter { meter < size plan.now.groups group }
    requires from { from ≡ (span_of plan.now.groups group meter).from }
    ensures { result ≡ (span_of plan.now.groups group meter).until }
{
    let rounds = plan.rounds();
    let mut round = from + 1;
    while round < rounds && plan.is_member(group, round, meter) {
        round += 1;
    }
    round
}

/// The rounds of a meter, as a member line states them.
pub fn meter_span(plan: &Plan, group: u16, meter: u8) -> Span
    requires { meter < size plan.now.groups group }
    ensures { result ≡ span_at plan.now group meter }
{
    let from = first_round(plan, group, meter);
    Span {
        group: u32::from(group),
        meter: u32::from(meter),
        from,
        until: round_after(plan, group, meter, from),
    }
}

/// Whether the span is another than all of the rounds.
pub fn is_partial(rounds: u32, span: &Span) -> bool
    ensures { result ≡ is_partial rounds span.now }
{
    !(span.from == 0 && span.until == rounds)
}

/// The line of a span.
fn put_member(out: &mut Vec<u8>, span: &Span) -> Result<(), AllocError>
    ensures { OnOk result (out.new.items ≡ out.old.items ++ ended (joined (member_fields span.now))) }
{
    out.extend_from_slice(b"member,")?;
    put_two(out, u64::from(span.group), u64::from(span.meter))?;
    out.extend_from_slice(b",")?;
    put_two(out, u64::from(span.from), u64::from(span.until))?;
    out.extend_from_slice(b"\n")
}

/// The line of a span, where it isn't all of the rounds.
fn put_span(out: &mut Vec<u8>, rounds: u32, span: &Span) -> Result<(), AllocError>
    ensures { OnOk result (out.new.items ≡ out.old.items ++ (if is_partial rounds span.now then ended (joined (member_fields span.now)) else [])) }
{
    if is_partial(rounds, span) {
        put_member(out, span)?;
    }
    Ok(())
}

/// The lines of the spans of a group.
fn put_spans_of(out: &mut Vec<u8>, plan: &Plan, group: u16) -> Result<(), AllocError>
    ensures { OnOk result (out.new.items ≡ out.old.items ++ members_text (spans_below plan.now group (size plan.now.groups group))) }
{
    let rounds = plan.rounds();
    for meter in 0..plan.meters(group) {
        let span = meter_span(plan, group, meter as u8);
        put_span(out, rounds, &span)?;
    }
    Ok(())
}

/// The lines of all spans.
#[tactic(auto, unfolding(crate::specs::Spelling::stated_spans))]
fn put_spans(out: &mut Vec<u8>, plan: &Plan) -> Result<(), AllocError>
    ensures { OnOk result (out.new.items ≡ out.old.items ++ members_text (stated_spans plan.now)) }
{
    for group in 0..plan.groups().len() {
        put_spans_of(out, plan, group as u16)?;
    }
    Ok(())
}

fn put_group(out: &mut Vec<u8>, group: &GroupPlan) -> Result<(), AllocError>
    ensures { OnOk result (out.new.items ≡ out.old.items ++ ended (joined (group_fields group.now))) }
{
    out.extend_from_slice(b"group,")?;
    out.extend_from_slice(group.name.bytes())?;
    out.extend_from_slice(b",")?;
    put_two(out, u64::from(group.meters), u64::from(group.floor))?;
    out.extend_from_slice(b"\n")
}

fn put_groups(out: &mut Vec<u8>, groups: &[GroupPlan]) -> Result<(), AllocError>
    ensures { OnOk result (out.new.items ≡ out.old.items ++ groups_text groups.now) }
{
    for group in groups {
        put_group(out, group)?;
    }
    Ok(())
}

fn put_rounds(out: &mut Vec<u8>, rounds: u32) -> Result<(), AllocError>
    ensures { OnOk result (out.new.items ≡ out.old.items ++ ended (joined (rounds_fields rounds))) }
{
    out.extend_from_slice(b"rounds,")?;
    put_number(out, u64::from(rounds))?;
    out.extend_from_slice(b"\n")
}

fn put_windows(out: &mut Vec<u8>, w1: u32, w2: u32) -> Result<(), AllocError>
    ensures { OnOk result (out.new.items ≡ out.old.items ++ ended (joined (windows_fields w1 w2))) }
{
    out.extend_from_slice(b"windows,")?;
    put_two(out, u64::from(w1), u64::from(w2))?;
    out.extend_from_slice(b"\n")
}

/// The lines before the first group.
fn put_start(out: &mut Vec<u8>, plan: &Plan) -> Result<(), AllocError>
    ensures { OnOk result (out.new.items ≡ out.old.items ++ start_text Two plan.now) }
{
    out.extend_from_slice(b"meteragg transcript 2\n")?;
    put_rounds(out, plan.rounds())?;
    put_windows(out, plan.w1(), plan.w2())
}

/// The head of a plan, up to the newline after `begin`.
#[tactic(auto, unfolding(crate::specs::Spelling::head_text))]
pub(crate) fn put_head(out: &mut Vec<u8>, plan: &Plan) -> Result<(), AllocError>
    ensures { OnOk result (out.new.items ≡ out.old.items ++ head_text Two plan.now) }
{
    put_start(out, plan)?;
    put_groups(out, plan.groups())?;
    put_spans(out, plan)?;
    out.extend_from_slice(b"begin\n")
}
