//! The frames that the meters of a group send in a round.

ghost use Rattle.std.specs.Prelude.{◌≡◌, ◌++◌, ◌<◌, map, filter, true, is_some, OnOk, IsTrue, ℕ, length, nat_lt, slice_index};
ghost use Rattle.std.specs.List.{list_all};
ghost use Rattle.group_plan.specs.Plans.{members as members_of};
ghost use Rattle.group_plan.specs.Tables.{reading};
ghost use Rattle.missing_round.specs.Sets.{is_member};
ghost use Rattle.missing_round.specs.Words.{answer_word};
ghost use Rattle.plan_meters.specs.Hearers.{AreHearers};
ghost use Rattle.group_plan.specs.declared.Kind.TheVariants.{Announcement, Answer};
ghost use Rattle.run_rows.specs.Ticks.{tag_of};
ghost use Rattle.plan_meters.specs.Came.{same_tag};
ghost use Rattle.blind_core.specs.Blind.{are_places};
ghost use Rattle.plan_meters.specs.TickFrames.{reading_frame, answer_to, announced_set, CanAnswer, word_frame};
ghost use Rattle.plan_meters.specs.Hidden.{IsOfOnePlan};

use crate::group::Hearers;
use crate::known::Known;
use blind_core::{answer, answers};
use event_schedule::members;
use group_plan::{Kind, Readings, Tag};
use mask_stream::Masks;
use meter_frames::Frame;
use missing_round::MeterSet;
use mod_word::Word;
use std::alloc::AllocError;

/// Whether it is an announcement to this meter of the round.
fn is_announcement_for(tag: Tag, group: u16, round: u32, meter: u8) -> bool
    ensures { result ≡ same_tag (tag_of Announcement group round meter) tag }
{
    tag.group == group && tag.round == round && tag.meter == meter && tag.kind == Kind::Announcement
}

/// The set of the first announcement to a meter among the frames that came.
fn announced_to(came: &[Frame], group: u16, round: u32, meter: u8) -> MeterSet
    ensures { result ≡ announced_set came.now (tag_of Announcement group round meter) }
{
    let [frame, later @ ..] = came else {
        return MeterSet::empty();
    };
    if is_announcement_for(frame.tag, group, round, meter) {
        frame.missing
    } else {
        announced_to(later, group, round, meter)
    }
}

/// The values of the words that the meters answer which heard of the same set, each at its meter's place.
fn alike_words<M: Masks>(masks: &M, group: u16, round: u32, hearers: &Hearers) -> [u64; 256]
    requires can { (i : ℕ) → is_member i hearers.now.alike ≡ true → CanAnswer (M.plan masks.now) group round i hearers.now.missing }
    ensures { (i : ℕ) → is_member i hearers.now.alike ≡ true → slice_index result i ≡ answer_word ((M.table masks.now).own group round) ((M.table masks.now).pair group round) i hearers.now.missing }
{
    if hearers.alike.len() == 0 {
        return [0; 256];
    }
    answers(masks, group, round, &hearers.alike, &hearers.missing)
}

/// The answer under a tag, to the announcement that came to its meter.
fn answer_of<M: Masks>(
    masks: &M,
    tag: Tag,
    hearers: &Hearers,
    words: &[u64; 256],
    came: &[Frame],
) -> Frame
    requires kind { tag.kind ≡ Answer }
    requires can { CanAnswer (M.plan masks.now) tag.group tag.round tag.meter (announced_set came.now (tag_of Announcement tag.group tag.round tag.meter)) }
    requires alike { is_member tag.meter hearers.now.alike ≡ true → announced_set came.now (tag_of Announcement tag.group tag.round tag.meter) ≡ hearers.now.missing }
    requires words { is_member tag.meter hearers.now.alike ≡ true → slice_index words.now tag.meter ≡ answer_word ((M.table masks.now).own tag.group tag.round) ((M.table masks.now).pair tag.group tag.round) tag.meter hearers.now.missing }
    ensures { result ≡ answer_to (M.table masks.now) came.now tag.group tag.round tag.meter }
{
    if hearers.alike.has(tag.meter) {
        return Frame {
            tag,
            missing: hearers.missing,
            word: Word(words[tag.meter as usize]),
        };
    }
    let missing = announced_to(came, tag.group, tag.round, tag.meter);
    Frame {
        tag,
        missing,
        word: answer(masks, tag.group, tag.round, tag.meter, &missing),
    }
}

/// Adds the answer of each member that heard, to the announcement that came to it.
pub(crate) fn add_answers<M: Masks>(
    known: &Known<M>,
    group: u16,
    round: u32,
    hearers: &Hearers,
    came: &[Frame],
    frames: &mut Vec<Frame>,
) -> Result<(), AllocError>
    requires known { IsOfOnePlan M.plan M.table known.now }
    requires group { group < length known.now.readings.now.plan.groups }
    requires round { round < known.now.readings.now.plan.rounds }
    requires hearers { AreHearers came.now group round hearers.now }
    requires can { (i : _) → is_member i hearers.now.meters ≡ true → CanAnswer (M.plan known.now.masks.now) group round i (announced_set came.now (tag_of Announcement group round i)) }
    ensures { OnOk result (frames.new.items ≡ frames.old.items ++ map (answer_to (M.table known.now.masks.now) came.now group round) (filter (λ i. is_member i hearers.now.meters) (members_of known.now.readings.now.plan.groups group round))) }
{
    let members = members(known.readings.plan(), group, round);
    let words = alike_words(known.masks, group, round, hearers);
    for meter in members.members() {
        if hearers.meters.has(meter) {
            let tag = Tag {
                group,
                round,
                meter,
                kind: Kind::Answer,
            };
            frames.push(answer_of(known.masks, tag, hearers, &words, came))?;
        }
    }
    Ok(())
}

/// Adds the frame of each member that has a reading, with its word.
fn add_words(
    readings: &Readings,
    group: u16,
    round: u32,
    members: &MeterSet,
    words: &[Word],
    frames: &mut Vec<Frame>,
) -> Result<(), AllocError>
    requires places { IsTrue (are_places readings.now.plan group round members.now) }
    requires within { IsTrue (list_all (λ i. nat_lt i (length words.now)) members.now) }
    ensures { OnOk result (frames.new.items ≡ frames.old.items ++ map (word_frame group round words.now) (filter (λ i. is_some (reading readings.now.table group round i)) members.now)) }
{
    for meter in members.members() {
        if readings.get(group, round, meter).is_some() {
            let tag = Tag {
                group,
                round,
                meter,
                kind: Kind::Reading,
            };
            frames.push(Frame {
                tag,
                missing: MeterSet::empty(),
                word: words[meter as usize],
            })?;
        }
    }
    Ok(())
}

/// Adds the frame of each reading of a group in a round. Its word was made before.
pub(crate) fn add_readings<M: Masks>(
    known: &Known<M>,
    group: u16,
    round: u32,
    members: &MeterSet,
    frames: &mut Vec<Frame>,
) -> Result<(), AllocError>
    requires known { IsOfOnePlan M.plan M.table known.now }
    requires group { group < length known.now.readings.now.plan.groups }
    requires round { round < known.now.readings.now.plan.rounds }
    requires members { members.now ≡ members_of known.now.readings.now.plan.groups group round }
    ensures { OnOk result (frames.new.items ≡ frames.old.items ++ map (reading_frame known.now.readings.now.plan.groups (reading known.now.readings.now.table) (M.table known.now.masks.now) group round) (filter (λ i. is_some (reading known.now.readings.now.table group round i)) members.now)) }
{
    let words = known.hidden.row(group, round);
    add_words(known.readings, group, round, members, words, frames)
}
