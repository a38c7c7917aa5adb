//! The entries that are left of a run, of which those of a cut are picked.

ghost use Rattle.std.specs.Prelude.{◌≡◌, ◌≤◌, ◌<◌, ◌^◌, ◌+◌, ◌++◌, true, false, All, IfOk, OnOk, IsTrue, drop, length, slice_index_or, Some};
ghost use Rattle.event_schedule.specs.declared.Entry.{Entry as EntryView};
ghost use Rattle.event_schedule.specs.Events.{same_kind, is_tag};
ghost use Rattle.cut_resume.specs.Left.{Decides, IsLeft, MayPassAll, StopsAt, Picks, PickEnds, PicksEnd, entries_left};
ghost use Rattle.cut_resume.specs.Order.{are_apart, may_pass};

use crate::ResumeError;
use event_schedule::{Entry, Event, Line};
use group_plan::{Kind, Tag};
use link_lanes::Fate;
use std::alloc::{AllocError, Global};
use transcript_log::Transcript;
use transcript_text::entry_line;

/// What is left of a run: the entries at these places, which others passed, and its entries from a place on.
#[derive(Drop)]
pub(crate) struct Left {
    pub run: Transcript,
    pub passed: Vec<usize>,
    pub next: usize,
}

fn is_same_fate(one: Fate, other: Fate) -> bool
    ensures { Decides (one ≡ other) result }
{
    one == other
}

fn is_same_line(one: &Line, other: &Line) -> bool
    ensures { Decides (one.now ≡ other.now) result }
{
    one == other
}

/// Whether two entries are the same.
pub(crate) fn is_same(one: &Entry, other: &Entry) -> bool
    ensures { Decides (one.now ≡ other.now) result }
{
    if one.tick != other.tick {
        return false;
    }
    if !is_same_fate(one.fate, other.fate) {
        return false;
    }
    is_same_line(&one.line, &other.line)
}

fn same_kind(kind: Kind, other: Kind) -> bool
    ensures { result ≡ same_kind other kind }
{
    match (kind, other) {
        (Kind::Reading, Kind::Reading) => true,
        (Kind::Announcement, Kind::Announcement) => true,
        (Kind::Answer, Kind::Answer) => true,
        _ => false,
    }
}

fn is_tag(tag: Tag, other: Tag) -> bool
    ensures { result ≡ is_tag tag.group tag.round tag.meter tag.kind other }
{
    other.group == tag.group
        && other.round == tag.round
        && other.meter == tag.meter
        && same_kind(tag.kind, other.kind)
}

/// Whether the order of two events says nothing: two Takes of other tags, or two of the Closes and Ends, of other rounds.
fn are_apart(one: Event, other: Event) -> bool
    ensures { result ≡ are_apart one other }
{
    match (one, other) {
        (Event::Take(tag), Event::Take(came)) => !is_tag(tag, came),
        (Event::Close { group, round }, Event::Close { group: g, round: r }) => {
            !(group == g && round == r)
        }
        (Event::Close { group, round }, Event::End { group: g, round: r }) => {
            !(group == g && round == r)
        }
        (Event::End { group, round }, Event::Close { group: g, round: r }) => {
            !(group == g && round == r)
        }
        (Event::End { group, round }, Event::End { group: g, round: r }) => {
            !(group == g && round == r)
        }
        _ => false,
    }
}

/// Whether an entry that stands behind another may change places with it.
fn may_pass(entry: &Entry, other: &Entry) -> bool
    ensures { result ≡ may_pass entry.now other.now }
{
    other.tick == entry.tick && are_apart(other.line.event(), entry.line.event())
}

/// Which of these places is the first with an entry that the entry may not pass.
fn first_stop(run: &Transcript, places: &[usize], entry: &Entry) -> Option<usize>
    requires { All (λ k. k < length run.now.entries) places.now }
    ensures { StopsAt entry.now run.now.entries places.now result }
{
    for at in 0..places.len() {
        if !may_pass(entry, &run.entry(places[at])) {
            return Some(at);
        }
    }
    None
}

/// Passes the run's next entry, where the entry may pass it.
fn pass_next(left: &mut Left, entry: &Entry) -> Result<bool, AllocError>
    requires left { IsLeft left.old }
    requires passed { MayPassAll entry.now left.old }
    requires next { left.old.next < length left.old.run.entries }
    ensures left { IsLeft left.new }
    ensures run { left.new.run ≡ left.old.run }
    ensures same { entries_left left.new ≡ entries_left left.old }
    ensures passed { MayPassAll entry.now left.new }
    ensures next { IfOk result (λ went. IsTrue went → left.new.next ≡ left.old.next + 1) }
    ensures stops { IfOk result (λ went. went ≡ false → (x : EntryView) → (left.new.next ≡ left.old.next) × (may_pass entry.now (slice_index_or left.new.run.entries left.new.next x) ≡ false)) }
{
    let other = left.run.entry(left.next);
    if !may_pass(entry, &other) {
        return Ok(false);
    }
    left.passed.push(left.next)?;
    left.next += 1;
    Ok(true)
}

/// Passes all of the run's next entries that the entry may pass.
fn pass(left: &mut Left, entry: &Entry) -> Result<(), AllocError>
    requires left { IsLeft left.old }
    requires passed { MayPassAll entry.now left.old }
    ensures left { IsLeft left.new }
    ensures run { left.new.run ≡ left.old.run }
    ensures same { entries_left left.new ≡ entries_left left.old }
    ensures passed { MayPassAll entry.now left.new }
    ensures stops { OnOk result ((x : EntryView) → left.new.next < length left.new.run.entries → may_pass entry.now (slice_index_or left.new.run.entries left.new.next x) ≡ false) }
{
    while left.next < left.run.len() {
        if !pass_next(left, entry)? {
            return Ok(());
        }
    }
    Ok(())
}

/// Picks the entry at a place among those that were passed, where it is this one.
fn pick_passed(left: &mut Left, at: usize, entry: &Entry) -> bool
    requires left { IsLeft left.old }
    requires stops { StopsAt entry.now left.old.run.entries left.old.passed.items (Some at) }
    ensures picks { Picks entry.now (entries_left left.old) result (entries_left left.new) }
    ensures run { left.new.run ≡ left.old.run }
    ensures left { IsLeft left.new }
{
    let is_it = is_same(&left.run.entry(left.passed[at]), entry);
    if is_it {
        left.passed.remove(at);
    }
    is_it
}

/// Picks the entry out of the run's from the next place on, where it stands behind entries only that it may pass.
fn pick_next(left: &mut Left, entry: &Entry) -> Result<bool, AllocError>
    requires left { IsLeft left.old }
    requires passed { MayPassAll entry.now left.old }
    ensures picks { PickEnds entry.now (entries_left left.old) result (entries_left left.new) }
    ensures run { left.new.run ≡ left.old.run }
    ensures left { OnOk result (IsLeft left.new) }
{
    pass(left, entry)?;
    if left.next == left.run.len() {
        return Ok(false);
    }
    let is_it = is_same(&left.run.entry(left.next), entry);
    if is_it {
        left.next += 1;
    }
    Ok(is_it)
}

/// Picks the entry out of those that are left, where it stands behind entries only that it may pass.
fn pick(left: &mut Left, entry: &Entry) -> Result<bool, AllocError>
    requires left { IsLeft left.old }
    ensures picks { PickEnds entry.now (entries_left left.old) result (entries_left left.new) }
    ensures run { left.new.run ≡ left.old.run }
    ensures left { OnOk result (IsLeft left.new) }
{
    match first_stop(&left.run, &left.passed, entry) {
        Some(at) => Ok(pick_passed(left, at, entry)),
        None => pick_next(left, entry),
    }
}

/// Picks all entries of a cut out of a run's, one after another.
pub(crate) fn pick_all(
    alloc: Global,
    run: Transcript,
    cut: &Transcript,
) -> Result<Left, ResumeError>
    ensures picks { PicksEnd cut.now run.entries result }
    ensures run { IfOk result (λ left. left.run ≡ run) }
    ensures left { IfOk result IsLeft }
{
    let _entries = run.len();
    let mut left = Left {
        run,
        passed: Vec::new(alloc),
        next: 0,
    };
    for at in 0..cut.len() {
        if !pick(&mut left, &cut.entry(at))? {
            return Err(ResumeError::NotThis(entry_line(cut.plan(), at as u64)));
        }
    }
    Ok(left)
}
