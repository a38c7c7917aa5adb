//! The head of a transcript, line by line.
ghost use Rattle.std.specs.Prelude.{◌≡◌, ◌≤◌, ◌+◌, ◌^◌, ◌-◌, ◌<◌, nat_le, None, Ok, [], length, IfOk};
ghost use Rattle.group_plan.specs.Spans.{span_fault, with_spans};
ghost use Rattle.std.specs.List.{list_all};
ghost use Rattle.std.specs.Option.{ok_or};
ghost use Rattle.transcript_text.specs.declared.fault.ReadError.TheVariants.{Head as HeadFault};
ghost use Rattle.field_texts.specs.Parts.{parts};
ghost use Rattle.transcript_text.specs.Parts.{view, AreFields};
ghost use Rattle.transcript_text.specs.Spelling.{title};
ghost use Rattle.transcript_text.specs.Heads.{head_number, title_of, rounds_of, windows_of, start_of, name_of, group_row, meters_at, comes_after, span_fits, member_row, is_two, head_row, has_version, plan_at, head_from, head_of, AreStated, at_begin, refused, GivesStart, GivesHead};
ghost use Rattle.transcript_text.specs.Reading.{Gives};

use crate::cut::{Fields, split_fields};
use crate::fault::ReadError;
use crate::head_writing::is_partial;
use crate::version::Version;
use field_texts::{cut_far, read_number_within};
use group_plan::{GroupPlan, Name, Plan, PlanError, Span, SpanError};
use std::alloc::Global;

/// What the first three lines say.
#[derive(Clone, Copy)]
pub(crate) struct Start {
    pub(crate) rounds: u32,
    pub(crate) w1: u32,
    pub(crate) w2: u32,
}

/// A line after the first three.
#[derive(Clone, Copy)]
pub(crate) enum HeadRow {
    Group(GroupPlan),
    Member(Span),
    Begin,
}

/// A plan, the number of the line after `begin`, and the text from there on.
#[derive(Drop)]
pub(crate) struct Head<'a> {
    pub(crate) plan: Plan,
    pub(crate) line: u64,
    pub(crate) rest: &'a [u8],
}

/// A number below 2^32 in line `n`.
fn number(n: u64, text: &[u8]) -> Result<u32, ReadError>
    ensures { result ≡ head_number n text.now }
{
    let number = read_number_within(text, 0, 1 << 32).ok_or(ReadError::Head(n))?;
    Ok(number as u32)
}

/// The first line, which says the version.
#[tactic(auto, using(crate::proofs::HeadFields::title_many, crate::proofs::Cutting::length_view), unfolding(crate::specs::Heads::title_of))]
fn title(version: Version, n: u64, line: &[u8]) -> Result<(), ReadError>
    ensures { result ≡ title_of version n (parts 44 line.now) }
{
    let Some(fields) = split_fields(line) else {
        return Err(ReadError::Head(n));
    };
    let title = fields.get(0);
    let is_title = match version {
        Version::One => title == b"meteragg transcript 1".as_slice(),
        Version::Two => title == b"meteragg transcript 2".as_slice(),
    };
    if fields.count == 1 && is_title {
        Ok(())
    } else {
        Err(ReadError::Head(n))
    }
}

/// The rounds that line `n` states.
#[tactic(auto, using(crate::proofs::HeadFields::rounds_many, crate::proofs::Cutting::length_view), unfolding(crate::specs::Heads::rounds_of))]
fn rounds(n: u64, line: &[u8]) -> Result<u32, ReadError>
    ensures { result ≡ rounds_of n (parts 44 line.now) }
{
    let Some(fields) = split_fields(line) else {
        return Err(ReadError::Head(n));
    };
    if fields.count == 2 && fields.get(0) == b"rounds".as_slice() {
        number(n, fields.get(1))
    } else {
        Err(ReadError::Head(n))
    }
}

/// The windows that line `n` states, in ticks.
#[tactic(auto, using(crate::proofs::HeadFields::windows_many, crate::proofs::Cutting::length_view), unfolding(crate::specs::Heads::windows_of))]
fn windows(n: u64, line: &[u8]) -> Result<(u32, u32), ReadError>
    ensures { result ≡ windows_of n (parts 44 line.now) }
{
    let Some(fields) = split_fields(line) else {
        return Err(ReadError::Head(n));
    };
    if fields.count == 3 && fields.get(0) == b"windows".as_slice() {
        let w1 = number(n, fields.get(1))?;
        let w2 = number(n, fields.get(2))?;
        Ok((w1, w2))
    } else {
        Err(ReadError::Head(n))
    }
}

/// The first three lines, and the text after them.
#[tactic(auto, unfolding(crate::specs::Heads::start_of))]
fn first_lines(version: Version, bytes: &[u8]) -> Result<(Start, &[u8]), ReadError>
    ensures given { GivesStart result (start_of version (parts 10 bytes.now)) }
    ensures few { IfOk result (λ x. length x.1.now + 3 ≤ length bytes.now) }
{
    let Some((line, rest)) = cut_far(b'\n', bytes) else {
        return Err(ReadError::Head(1));
    };
    if let Err(fault) = title(version, 1, line) {
        return Err(fault);
    }
    let Some((line, rest)) = cut_far(b'\n', rest) else {
        return Err(ReadError::Head(2));
    };
    let rounds = match rounds(2, line) {
        Ok(rounds) => rounds,
        Err(fault) => return Err(fault),
    };
    let Some((line, rest)) = cut_far(b'\n', rest) else {
        return Err(ReadError::Head(3));
    };
    let (w1, w2) = match windows(3, line) {
        Ok(windows) => windows,
        Err(fault) => return Err(fault),
    };
    Ok((Start { rounds, w1, w2 }, rest))
}

/// The name of a group in line `n`.
fn name(n: u64, text: &[u8]) -> Result<Name, ReadError>
    ensures { result ≡ ok_or (name_of text.now) (HeadFault n) }
{
    match Name::new(text) {
        Some(name) => Ok(name),
        None => Err(ReadError::Head(n)),
    }
}

/// The group that line `n` states.
fn group(n: u64, fields: &Fields) -> Result<HeadRow, ReadError>
    requires { AreFields fields.now }
    ensures { result ≡ group_row n (view fields.now) }
{
    let name = name(n, fields.get(1))?;
    let meters = number(n, fields.get(2))?;
    let floor = number(n, fields.get(3))?;
    Ok(HeadRow::Group(GroupPlan {
        name,
        meters,
        floor,
    }))
}

/// How many meters the group has, 0 where there is no such group.
fn meters_at(groups: &[GroupPlan], group: u32) -> u32
    ensures { result ≡ meters_at groups.now group }
{
    match groups.get(group as usize) {
        Some(group) => group.meters,
        None => 0,
    }
}

/// Member lines stand by group, and in each by meter.
fn comes_after(last: Option<Span>, span: &Span) -> bool
    ensures { result ≡ comes_after last span.now }
{
    match last {
        Some(last) => {
            last.group < span.group || (last.group == span.group && last.meter < span.meter)
        }
        None => true,
    }
}

/// Whether the head may state the span after the last one.
fn span_fits(rounds: u32, groups: &[GroupPlan], last: Option<Span>, span: &Span) -> bool
    ensures { result ≡ span_fits rounds groups.now last span.now }
{
    span.meter < meters_at(groups, span.group)
        && span.from < span.until
        && span.until <= rounds
        && is_partial(rounds, span)
        && comes_after(last, span)
}

/// The span that line `n` states, where it may follow the last one.
fn member(
    n: u64,
    rounds: u32,
    groups: &[GroupPlan],
    last: Option<Span>,
    fields: &Fields,
) -> Result<HeadRow, ReadError>
    requires { AreFields fields.now }
    ensures { result ≡ member_row n rounds groups.now last (view fields.now) }
{
    let group = number(n, fields.get(1))?;
    let meter = number(n, fields.get(2))?;
    let from = number(n, fields.get(3))?;
    let until = number(n, fields.get(4))?;
    let span = Span {
        group,
        meter,
        from,
        until,
    };
    if span_fits(rounds, groups, last, &span) {
        Ok(HeadRow::Member(span))
    } else {
        Err(ReadError::Head(n))
    }
}

/// Member lines are of version 2 alone.
fn is_two(version: Version) -> bool
    ensures { result ≡ is_two version }
{
    match version {
        Version::One => false,
        Version::Two => true,
    }
}

/// A line after the first three.
#[tactic(auto, using(crate::proofs::HeadFields::head_many, crate::proofs::Cutting::length_view), unfolding(crate::specs::Heads::head_row))]
fn head_row(
    version: Version,
    n: u64,
    rounds: u32,
    groups: &[GroupPlan],
    last: Option<Span>,
    line: &[u8],
) -> Result<HeadRow, ReadError>
    ensures { result ≡ head_row version n rounds groups.now last (parts 44 line.now) }
{
    let Some(fields) = split_fields(line) else {
        return Err(ReadError::Head(n));
    };
    let word = fields.get(0);
    if fields.count == 1 && word == b"begin".as_slice() {
        Ok(HeadRow::Begin)
    } else if fields.count == 4 && word == b"group".as_slice() {
        if last.is_some() {
            Err(ReadError::Head(n))
        } else {
            group(n, &fields)
        }
    } else if fields.count == 5 && word == b"member".as_slice() && is_two(version) {
        member(n, rounds, groups, last, &fields)
    } else {
        Err(ReadError::Head(n))
    }
}

/// Whether each group fits version 1, which knows 64 meters at most.
fn are_old(groups: &[GroupPlan]) -> bool
    ensures { result ≡ list_all (λ g. nat_le g.meters 64) groups.now }
{
    groups.iter().all(|group| group.meters <= 64)
}

/// Whether a text of this version may have these groups.
fn has_version(version: Version, groups: &[GroupPlan]) -> bool
    ensures { result ≡ has_version version groups.now }
{
    match version {
        Version::One => are_old(groups),
        Version::Two => true,
    }
}

/// The fault at line `n`, which is `begin`, of numbers that no plan has.
fn refused(n: u64, error: PlanError) -> ReadError
    ensures { result ≡ refused n error }
{
    match error {
        PlanError::Memory => ReadError::Memory,
        _ => ReadError::Head(n),
    }
}

/// The plan with spans that have no fault.
fn with_spans(plan: &Plan, spans: &[Span]) -> Result<Plan, ReadError>
    requires { span_fault plan.now spans.now ≡ None }
    ensures { Gives (λ plan. plan) result (Ok (with_spans plan.now spans.now)) }
{
    match plan.with_members(spans) {
        Ok(plan) => Ok(plan),
        Err(SpanError::Memory) => Err(ReadError::Memory),
        Err(SpanError::Range(_)) => unreachable!(),
        Err(SpanError::Twice(_)) => unreachable!(),
    }
}

/// The plan of a head whose line `n` is `begin`.
#[tactic(auto, unfolding(crate::specs::Heads::plan_at))]
fn plan_of_head(
    alloc: Global,
    version: Version,
    n: u64,
    start: Start,
    groups: &[GroupPlan],
    spans: &[Span],
) -> Result<Plan, ReadError>
    requires { AreStated start.rounds groups.now None spans.now }
    ensures { Gives (λ plan. plan) result (plan_at version n start groups.now spans.now) }
{
    if !has_version(version, groups) {
        return Err(ReadError::Head(n));
    }
    match Plan::new(alloc, groups, start.rounds, start.w1, start.w2) {
        Ok(plan) => with_spans(&plan, spans),
        Err(error) => Err(refused(n, error)),
    }
}

/// The head whose line `n` is `begin`.
fn begin<'a>(
    alloc: Global,
    version: Version,
    n: u64,
    start: Start,
    groups: &[GroupPlan],
    spans: &[Span],
    rest: &'a [u8],
) -> Result<Head<'a>, ReadError>
    requires stated { AreStated start.rounds groups.now None spans.now }
    requires few { n + length rest.now < 2 ^ 64 - 1 }
    ensures given { GivesHead result (at_begin n (parts 10 rest.now) (plan_at version n start groups.now spans.now)) }
    ensures few { IfOk result (λ head. head.line + length head.rest.now ≤ n + 1 + length rest.now) }
{
    match plan_of_head(alloc, version, n, start, groups, spans) {
        Ok(plan) => Ok(Head {
            plan,
            line: n + 1,
            rest,
        }),
        Err(fault) => Err(fault),
    }
}

/// The head from line 4 on.
fn later_lines(
    alloc: Global,
    version: Version,
    start: Start,
    bytes: &[u8],
) -> Result<Head<'_>, ReadError>
    requires { length bytes.now < 2 ^ 63 }
    ensures given { GivesHead result (head_from version start 4 None [] [] (parts 10 bytes.now)) }
    ensures few { IfOk result (λ head. head.line + length head.rest.now ≤ 4 + length bytes.now) }
{
    let mut groups: Vec<GroupPlan> = Vec::new(alloc);
    let mut spans: Vec<Span> = Vec::new(alloc);
    let mut last: Option<Span> = None;
    let mut n = 4u64;
    let mut rest = bytes;
    while let Some((line, after)) = cut_far(b'\n', rest) {
        match head_row(version, n, start.rounds, &groups, last, line) {
            Ok(HeadRow::Group(group)) => {
                groups.push(group)?;
                n += 1;
                rest = after;
            }
            Ok(HeadRow::Member(span)) => {
                spans.push(span)?;
                last = Some(span);
                n += 1;
                rest = after;
            }
            Ok(HeadRow::Begin) => return begin(alloc, version, n, start, &groups, &spans, after),
            Err(fault) => return Err(fault),
        }
    }
    Err(ReadError::Head(n))
}

/// The head of a text.
#[tactic(auto, unfolding(crate::specs::Heads::head_of))]
pub(crate) fn read_head(
    alloc: Global,
    version: Version,
    bytes: &[u8],
) -> Result<Head<'_>, ReadError>
    requires { length bytes.now < 2 ^ 63 }
    ensures given { GivesHead result (head_of version (parts 10 bytes.now)) }
    ensures few { IfOk result (λ head. head.line + length head.rest.now ≤ 1 + length bytes.now) }
{
    match first_lines(version, bytes) {
        Ok((start, rest)) => later_lines(alloc, version, start, rest),
        Err(fault) => Err(fault),
    }
}
