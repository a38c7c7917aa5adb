//! What came: for each place of a plan the tick at which a copy was taken.

ghost use Rattle.std.specs.Prelude.{◌≡◌, ◌≤◌, ◌<◌, ◌^◌, IsTrue};
ghost use Rattle.group_plan.specs.Plans.{is_place, last_tick};
ghost use Rattle.event_schedule.specs.Transcripts.{HasRound};
ghost use Rattle.run_course.specs.Marks.{is_noted, marked, Marks, NotesTake};

use group_plan::{Kind, Readings, Tag};
use missing_round::MeterSet;

// Whether a tick is noted, and not before this one.
fn is_noted(value: Option<u64>, from: u64) -> bool
    ensures { result ≡ is_noted from value }
{
    match value {
        Some(tick) => from <= tick,
        None => false,
    }
}

/// The meters of a round at which a tick is noted, and not before this one.
pub(crate) fn marked(table: &Readings, from: u64, group: u16, round: u32) -> MeterSet
    requires { HasRound table.now.plan group round }
    ensures { result ≡ marked table.now from group round }
{
    let mut meters = MeterSet::empty();
    for meter in 0..table.plan().meters(group) {
        if is_noted(table.get(group, round, meter as u8), from) {
            meters = meters.with(meter as u8);
        }
    }
    meters
}

// Notes the tick at the place of the tag, where it is a member's.
fn mark(table: &mut Readings, tag: Tag, tick: u32)
    requires { IsTrue (is_place table.old.plan tag.group tag.round tag.meter) }
    ensures { Marks table.old tag tick table.new }
{
    if table.plan().is_member(tag.group, tag.round, tag.meter) {
        table.put(tag.group, tag.round, tag.meter, Some(u64::from(tick)));
    }
}

/// Notes that a copy is taken at the tick: a reading where its round is not closed before, or an announcement.
pub(crate) fn note(came: &mut Readings, heard: &mut Readings, tag: Tag, tick: u32)
    requires plans { heard.old.plan ≡ came.old.plan }
    requires place { IsTrue (is_place came.old.plan tag.group tag.round tag.meter) }
    ensures { NotesTake tag.kind tag tick came.old heard.old came.new heard.new }
{
    match tag.kind {
        Kind::Reading => {
            let _limits = came.plan().rounds();
            if tick <= tag.round + came.plan().w1() {
                mark(came, tag, tick);
            }
        }
        Kind::Announcement => mark(heard, tag, tick),
        Kind::Answer => {}
    }
}
