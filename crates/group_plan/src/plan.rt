//! Plans within their limits, and the numbers of their meters and places.

ghost use Rattle.std.specs.Prelude.{◌≡◌, ◌<◌, ◌≤◌, ◌^◌, IsTrue, None, IfOk, IfSome, length, map, position, replicate};
ghost use Rattle.std.specs.List.{All};
ghost use Rattle.group_plan.specs.Plans.{IsWithinLimits, is_place, is_member, holds, last_tick, size, all_meters, pairs as pairs_among};
ghost use Rattle.group_plan.specs.Places.{meter_at, place_at, places};
ghost use Rattle.group_plan.specs.NewPlans.{Finds, MakesPlan, first_fault, wrong_count, same_name, wrong_meters, wrong_floor, wrong_rounds, wrong_window, too_many_readings, too_many_pairs, stated, meters_of, pairs_of, AreNamed, whole, position_of_name, has_wrong_meters, has_wrong_floor};
ghost use Rattle.group_plan.specs.PlanStarts.{AreStarts};

mod members;

use crate::{Name, Tag};
pub use members::{Span, SpanError};
use std::alloc::{AllocError, Global};
use std::marker::Model;

/// A group as a plan states it.
#[derive(Clone, Copy)]
pub struct GroupPlan {
    pub name: Name,
    /// How many meters the group has, 2 to 256, numbered from 0.
    pub meters: u32,
    /// The fewest survivors with which a round is announced, 2 to the number of meters.
    pub floor: u32,
}

impl GroupPlan {
    fn has_wrong_meters(&self) -> bool
        ensures { result ≡ has_wrong_meters self.now }
    {
        self.meters < 2 || self.meters > 256
    }

    fn has_wrong_floor(&self) -> bool
        ensures { result ≡ has_wrong_floor self.now }
    {
        self.floor < 2 || self.floor > self.meters
    }
}

/// Why a plan is refused. Groups are counted from 0.
#[derive(Clone, Copy, Debug, PartialEq, Eq)]
pub enum PlanError {
    /// There is no group.
    NoGroup,
    /// There are this many groups, more than 256.
    TooManyGroups(u64),
    /// These two groups have one name.
    SameName(u32, u32),
    /// The group has fewer than 2 meters or more than 256.
    Meters(u32),
    /// The group's floor is below 2 or above its meters.
    Floor(u32),
    /// There is no round, or more than 4096.
    Rounds,
    /// The reading window is not 1 to 16 ticks, or the recovery window not 2 to 32.
    Window,
    /// There are this many readings, more than 131,072.
    TooManyReadings(u64),
    /// Memory ran out.
    Memory,
    /// There are this many pairs of meters, more than 1,048,576.
    TooManyPairs(u64),
}

impl From<AllocError> for PlanError {
    ghost use Rattle.group_plan.specs.declared.plan.PlanError.{PlanError};

    ghost from_gives = { λ _ e. e ≡ PlanError.Memory };

    fn from(_error: AllocError) -> PlanError {
        PlanError::Memory
    }
}

/// The rounds in which a meter is a member: from `from` up to below `until`.
#[derive(Clone, Copy)]
struct Rounds {
    from: u32,
    until: u32,
}

impl Model for Rounds {
    ghost use Rattle.group_plan.specs.Plans.{Rounds as SpanOfRounds};

    ghost Value = { SpanOfRounds };

    ghost view = { λ s. record { from = s.from; until = s.until } };

    ghost inverse = { λ s. record { from = s.from; until = s.until } };
}

impl Rounds {
    /// Whether the span has the round.
    fn holds(&self, round: u32) -> bool
        ensures { result ≡ holds self.now round }
    {
        self.from <= round && round < self.until
    }
}

/// The groups of meters, the rounds in which each meter is a member, and the windows, all within the limits.
#[derive(Drop)]
pub struct Plan {
    groups: Vec<GroupPlan>,
    /// Where the meters of each group begin.
    starts: Vec<usize>,
    /// The spans of all meters, one group after another.
    spans: Vec<Rounds>,
    rounds: u32,
    w1: u32,
    w2: u32,
}

impl Model for Plan {
    ghost use Rattle.group_plan.specs.Plans.{PlanView};

    ghost Value = { PlanView };

    ghost use Rattle.group_plan.specs.PlanParts.{plan, KeepsPlan};

    ghost view = { plan };

    ghost invariant = { KeepsPlan };
}

/// Whether the number of groups is within the limits.
fn check_count(groups: &[GroupPlan]) -> Result<(), PlanError>
    ensures checked { Finds (wrong_count groups.now) result }
    ensures few { IfOk result (λ _. length groups.now ≤ 256) }
{
    if groups.is_empty() {
        return Err(PlanError::NoGroup);
    }
    if groups.len() > 256 {
        return Err(PlanError::TooManyGroups(groups.len() as u64));
    }
    Ok(())
}

/// The first group of this name.
fn position_of_name(groups: &[GroupPlan], name: &[u8]) -> Option<usize>
    requires { length groups.now ≤ 256 }
    ensures found { result ≡ position_of_name name.now groups.now }
    ensures within { IfSome result (λ g. g < length groups.now) }
{
    groups.iter().position(|group| group.name.bytes() == name)
}

/// Whether no two groups have one name.
#[tactic(auto, using(crate::proofs::Faults::same_name_more, crate::proofs::Faults::same_name_found, crate::proofs::Faults::same_name_end))]
fn check_names(groups: &[GroupPlan]) -> Result<(), PlanError>
    requires { length groups.now ≤ 256 }
    ensures checked { Finds (same_name groups.now) result }
    ensures named { IfOk result (λ _. AreNamed groups.now) }
{
    for h in 0..groups.len() {
        if let Some(g) = position_of_name(&groups[..h], groups[h].name.bytes()) {
            return Err(PlanError::SameName(g as u32, h as u32));
        }
    }
    Ok(())
}

fn position_of_wrong_meters(groups: &[GroupPlan]) -> Option<usize>
    requires { length groups.now ≤ 256 }
    ensures found { result ≡ position has_wrong_meters groups.now }
    ensures within { IfSome result (λ g. g < length groups.now) }
{
    groups.iter().position(|group| group.has_wrong_meters())
}

/// Whether each group has as many meters as it may.
fn check_meters(groups: &[GroupPlan]) -> Result<(), PlanError>
    requires { length groups.now ≤ 256 }
    ensures checked { Finds (wrong_meters groups.now) result }
    ensures few { IfOk result (λ _. All (λ g. g.meters ≤ 256) groups.now) }
{
    match position_of_wrong_meters(groups) {
        Some(g) => Err(PlanError::Meters(g as u32)),
        None => Ok(()),
    }
}

fn position_of_wrong_floor(groups: &[GroupPlan]) -> Option<usize>
    requires { length groups.now ≤ 256 }
    ensures found { result ≡ position has_wrong_floor groups.now }
    ensures within { IfSome result (λ g. g < length groups.now) }
{
    groups.iter().position(|group| group.has_wrong_floor())
}

/// Whether the floor of each group is within its meters.
fn check_floors(groups: &[GroupPlan]) -> Result<(), PlanError>
    requires { length groups.now ≤ 256 }
    ensures { Finds (wrong_floor groups.now) result }
{
    match position_of_wrong_floor(groups) {
        Some(g) => Err(PlanError::Floor(g as u32)),
        None => Ok(()),
    }
}

fn check_rounds(rounds: u32) -> Result<(), PlanError>
    ensures checked { Finds (wrong_rounds rounds) result }
    ensures few { IfOk result (λ _. rounds ≤ 4096) }
{
    if rounds < 1 || rounds > 4096 {
        return Err(PlanError::Rounds);
    }
    Ok(())
}

fn check_windows(w1: u32, w2: u32) -> Result<(), PlanError>
    ensures { Finds (wrong_window w1 w2) result }
{
    if w1 < 1 || w1 > 16 || w2 < 2 || w2 > 32 {
        return Err(PlanError::Window);
    }
    Ok(())
}

/// How many meters all groups have.
fn meters_of(groups: &[GroupPlan]) -> u64
    requires { length groups.now ≤ 256 }
    ensures { result ≡ meters_of groups.now }
{
    groups.iter().map(|group| u64::from(group.meters)).sum()
}

/// Whether there are no more readings than a plan may have.
#[tactic(auto, using(crate::proofs::Faults::meters_of_le))]
fn check_readings(groups: &[GroupPlan], rounds: u32) -> Result<(), PlanError>
    requires groups { length groups.now ≤ 256 }
    requires meters { All (λ g. g.meters ≤ 256) groups.now }
    requires rounds { rounds ≤ 4096 }
    ensures { Finds (too_many_readings groups.now rounds) result }
{
    let readings = u64::from(rounds) * meters_of(groups);
    if readings > 131_072 {
        return Err(PlanError::TooManyReadings(readings));
    }
    Ok(())
}

/// How many pairs so many meters make.
fn pairs_among(meters: u32) -> u64
    requires { meters ≤ 256 }
    ensures { result ≡ pairs_among meters }
{
    let meters = u64::from(meters);
    meters * meters.saturating_sub(1) / 2
}

/// Whether there are no more pairs of meters than a plan may have.
fn check_pairs(groups: &[GroupPlan]) -> Result<(), PlanError>
    requires groups { length groups.now ≤ 256 }
    requires meters { All (λ g. g.meters ≤ 256) groups.now }
    ensures { Finds (too_many_pairs groups.now) result }
{
    let mut pairs = 0u64;
    for group in groups {
        pairs += pairs_among(group.meters);
    }
    if pairs > 1_048_576 {
        return Err(PlanError::TooManyPairs(pairs));
    }
    Ok(())
}

/// The first fault of a plan, in the order of the checks.
#[tactic(auto, using(crate::proofs::Faults::meters_of_le))]
fn check(groups: &[GroupPlan], rounds: u32, w1: u32, w2: u32) -> Result<(), PlanError>
    ensures checked { Finds (first_fault groups.now rounds w1 w2) result }
    ensures named { IfOk result (λ _. AreNamed groups.now) }
    ensures few { IfOk result (λ _. meters_of groups.now ≤ 65536) }
{
    check_count(groups)?;
    check_names(groups)?;
    check_meters(groups)?;
    check_floors(groups)?;
    check_rounds(rounds)?;
    check_windows(w1, w2)?;
    check_readings(groups, rounds)?;
    check_pairs(groups)
}

/// Where the meters of each group begin.
fn starts_of(alloc: Global, groups: &[GroupPlan]) -> Result<Vec<usize>, AllocError>
    requires { meters_of groups.now ≤ 65536 }
    ensures { IfOk result (λ starts. AreStarts starts.items groups.now) }
{
    let mut starts = Vec::new(alloc);
    let mut next = 0usize;
    for group in groups {
        starts.push(next)?;
        next += group.meters as usize;
    }
    Ok(starts)
}

fn copy_of_groups(alloc: Global, groups: &[GroupPlan]) -> Result<Vec<GroupPlan>, AllocError>
    ensures { IfOk result (λ copy. copy.items ≡ groups.now) }
{
    groups.to_vec(alloc)
}

fn copy_of_starts(alloc: Global, starts: &[usize]) -> Result<Vec<usize>, AllocError>
    ensures { IfOk result (λ copy. copy.items ≡ starts.now) }
{
    starts.to_vec(alloc)
}

/// A span of all rounds for each of so many meters.
fn whole_spans(alloc: Global, meters: usize, rounds: u32) -> Result<Vec<Rounds>, AllocError>
    ensures { IfOk result (λ spans. spans.items ≡ replicate meters (whole rounds)) }
{
    let whole = Rounds {
        from: 0,
        until: rounds,
    };
    vec![in alloc; whole; meters]
}

impl Plan {
    /// A plan whose every meter is a member in all rounds.
    pub fn new(
        alloc: Global,
        groups: &[GroupPlan],
        rounds: u32,
        w1: u32,
        w2: u32,
    ) -> Result<Plan, PlanError>
        ensures { MakesPlan groups.now rounds w1 w2 result }
    {
        check(groups, rounds, w1, w2)?;
        let meters = meters_of(groups) as usize;
        Ok(Plan {
            groups: copy_of_groups(alloc, groups)?,
            starts: starts_of(alloc, groups)?,
            spans: whole_spans(alloc, meters, rounds)?,
            rounds,
            w1,
            w2,
        })
    }

    /// The groups, in order.
    pub fn groups(&self) -> &[GroupPlan]
        ensures groups { result.now ≡ map stated self.now.groups }
        ensures sound { first_fault result.now self.now.rounds self.now.w1 self.now.w2 ≡ None }
        ensures limits { IsWithinLimits self.now }
    {
        self.groups.as_slice()
    }

    /// How many meters the group has, 0 where there is no such group.
    pub fn meters(&self, group: u16) -> u32
        ensures meters { result ≡ size self.now.groups group }
        ensures few { result ≤ 256 }
    {
        self.size_of(group as usize)
    }

    /// How many meters a group has, 0 where there is no such group.
    fn size_of(&self, group: usize) -> u32
        ensures meters { result ≡ size self.now.groups group }
        ensures few { result ≤ 256 }
    {
        match self.groups.get(group) {
            Some(group) => group.meters,
            None => 0,
        }
    }

    /// How many rounds the plan has, 1 to 4096.
    pub fn rounds(&self) -> u32
        ensures rounds { result ≡ self.now.rounds }
        ensures limits { IsWithinLimits self.now }
    {
        self.rounds
    }

    /// The ticks of the reading window, 1 to 16.
    pub fn w1(&self) -> u32
        ensures { result ≡ self.now.w1 }
    {
        self.w1
    }

    /// The ticks of the recovery window, 2 to 32.
    pub fn w2(&self) -> u32
        ensures { result ≡ self.now.w2 }
    {
        self.w2
    }

    /// The tick after which no copy is left.
    pub fn last_tick(&self) -> u32
        ensures { result ≡ last_tick self.now }
    {
        self.rounds - 1 + self.w1 + self.w2 + 32
    }

    /// Whether the plan has the tag's group, round and meter.
    pub fn holds(&self, tag: Tag) -> bool
        ensures { result ≡ is_place self.now tag.group tag.round tag.meter }
    {
        tag.round < self.rounds && u32::from(tag.meter) < self.meters(tag.group)
    }

    /// Whether the meter is a member of its group in the round.
    pub fn is_member(&self, group: u16, round: u32, meter: u8) -> bool
        requires { IsTrue (is_place self.now group round meter) }
        ensures { result ≡ is_member self.now.groups group round meter }
    {
        let span = self.spans[self.meter_at(group, meter)];
        span.holds(round)
    }

    /// The number of a meter among those of all groups, counted from 0, group by group.
    fn meter_at(&self, group: u16, meter: u8) -> usize
        requires { meter < size self.now.groups group }
        ensures at { result ≡ meter_at self.now.groups group meter }
        ensures within { result < all_meters self.now.groups }
    {
        self.number_of(group as usize, meter as usize)
    }

    /// The number of a meter among those of all groups, counted from 0.
    fn number_of(&self, group: usize, meter: usize) -> usize
        requires { meter < size self.now.groups group }
        ensures at { result ≡ meter_at self.now.groups group meter }
        ensures within { result < all_meters self.now.groups }
    {
        self.starts[group] + meter
    }

    /// The number of a place, counted from 0, round by round and in each by meters.
    pub fn place_at(&self, group: u16, round: u32, meter: u8) -> usize
        requires { IsTrue (is_place self.now group round meter) }
        ensures at { result ≡ place_at self.now group round meter }
        ensures within { result < places self.now }
    {
        round as usize * self.spans.len() + self.meter_at(group, meter)
    }

    /// How many places the plan has.
    pub fn places(&self) -> usize
        ensures all { result ≡ places self.now }
        ensures limits { IsWithinLimits self.now }
    {
        self.rounds as usize * self.spans.len()
    }

    /// An equal plan.
    pub fn try_copy(&self) -> Result<Plan, AllocError>
        ensures { IfOk result (λ plan. plan ≡ self.now) }
    {
        Ok(Plan {
            groups: self.groups.clone()?,
            starts: self.starts.clone()?,
            spans: self.spans.clone()?,
            rounds: self.rounds,
            w1: self.w1,
            w2: self.w2,
        })
    }
}
