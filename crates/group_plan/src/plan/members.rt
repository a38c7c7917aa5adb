//! Spans: the rounds in which a meter is a member of its group.

ghost use Rattle.std.specs.Prelude.{◌≡◌, ◌<◌, IsTrue};
ghost use Rattle.group_plan.specs.Plans.{all_meters};
ghost use Rattle.group_plan.specs.Places.{meter_at};
ghost use Rattle.group_plan.specs.Spans.{PlacesSpans, SetsSpans, is_in_plan, rounds_of};

use super::{Plan, Rounds, copy_of_groups, copy_of_starts, whole_spans};
use std::alloc::AllocError;

/// A meter of a group, and the rounds in which it is a member: from `from` up to below `until`.
#[derive(Clone, Copy)]
pub struct Span {
    pub group: u32,
    pub meter: u32,
    pub from: u32,
    pub until: u32,
}

/// Why spans are refused: the first of them that is wrong, by its place in the list, counted from 0.
#[derive(Clone, Copy, Debug, PartialEq, Eq)]
pub enum SpanError {
    /// The plan has no such meter, or the span has no round or one past the plan's.
    Range(u32),
    /// An earlier span is of the same meter.
    Twice(u32),
    /// Memory ran out.
    Memory,
}

impl From<AllocError> for SpanError {
    ghost use Rattle.group_plan.specs.declared.plan.members.SpanError.{SpanError};

    ghost from_gives = { λ _ e. e ≡ SpanError.Memory };

    fn from(_error: AllocError) -> SpanError {
        SpanError::Memory
    }
}

impl Span {
    fn rounds(&self) -> Rounds
        ensures { result ≡ rounds_of self.now }
    {
        Rounds {
            from: self.from,
            until: self.until,
        }
    }
}

impl Plan {
    /// Whether the plan has the meter and all rounds of the span, of which there is one at least.
    fn has_span(&self, span: &Span) -> bool
        ensures { result ≡ is_in_plan self.now span.now }
    {
        span.meter < self.size_of(span.group as usize)
            && span.from < span.until
            && span.until <= self.rounds
    }

    /// The number of the span's meter among those of all groups, counted from 0.
    fn number_of_span(&self, span: &Span) -> usize
        requires { IsTrue (is_in_plan self.now span.now) }
        ensures at { result ≡ meter_at self.now.groups span.now.group span.now.meter }
        ensures within { result < all_meters self.now.groups }
    {
        self.number_of(span.group as usize, span.meter as usize)
    }

    /// The spans of all meters, one group after another, where these are given.
    fn spans_given(&self, spans: &[Span]) -> Result<Vec<Rounds>, SpanError>
        ensures { PlacesSpans self.now spans.now result }
    {
        let alloc = *self.spans.allocator();
        let mut given = vec![in alloc; false; self.spans.len()]?;
        let mut kept = whole_spans(alloc, self.spans.len(), self.rounds)?;
        for at in 0..spans.len() {
            let span = &spans[at];
            if !self.has_span(span) {
                return Err(SpanError::Range(at as u32));
            }
            let meter = self.number_of_span(span);
            if given[meter] {
                return Err(SpanError::Twice(at as u32));
            }
            given[meter] = true;
            kept[meter] = span.rounds();
        }
        Ok(kept)
    }

    /// The plan with these spans and none of its own. A meter without a span is a member in all rounds.
    pub fn with_members(&self, spans: &[Span]) -> Result<Plan, SpanError>
        ensures { SetsSpans self.now spans.now result }
    {
        let alloc = *self.spans.allocator();
        Ok(Plan {
            groups: copy_of_groups(alloc, &self.groups)?,
            starts: copy_of_starts(alloc, &self.starts)?,
            spans: self.spans_given(spans)?,
            rounds: self.rounds,
            w1: self.w1,
            w2: self.w2,
        })
    }
}
