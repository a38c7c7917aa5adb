//! Rows of masks between neighbours: three meters on a ring of width 1, where each two are neighbours, and rings on which they
//! aren't.

ghost use Rattle.std.specs.Prelude.{◌≡◌, IfOk};
ghost use Rattle.group_plan.specs.Plans.{IsWithinLimits};
ghost use Rattle.ideal_masks.specs.Order.{AreOfPlan};

use crate::fixtures::{check, check_same};
use crate::transcripts::LATE;
use crate::twin_worlds_rows::{DEAF, LOST};
use crate::twin_worlds_table_rows::set_pair;
use group_plan::{Plan, Readings};
use ideal_masks::{MaskTable, Offsets};
use mask_stream::{ChaMasks, Masks};
use mod_word::Word;
use row_fixtures::{PLAIN, group, keys_of_north, plan_of_north, reading_tag, table, with_line};
use sparse_masks::{RingDiffer, RingMasks, least_opened, ring_offsets};
use std::alloc::Global;
use std::test::Fail;
use std::thread::Threads;
use transcript_log::Transcript;
use transcript_text::read;
use twin_worlds::{MovedWords, moved_rows, moved_text, same_world};

// ---- moved words

/// Tables of readings beside that of 10, 20 and 30, and the masks files that `PLAIN` gives with them: meters 1 and 2 hang on
/// meter 0.
static RING_FILES: [([u64; 3], &str); 3] = [
    ([10, 20, 30], "meteragg masks 1\nend,0\n"),
    (
        [15, 15, 30],
        "meteragg masks 1\n\
        pair,0,0,0,1,903df1a0ade0b876,903df1a0ade0b871\n\
        end,1\n",
    ),
    (
        [15, 16, 29],
        "meteragg masks 1\n\
        pair,0,0,0,1,903df1a0ade0b876,903df1a0ade0b872\n\
        pair,0,0,0,2,903df1a0ade0b876,903df1a0ade0b875\n\
        end,2\n",
    ),
];

// The offsets on the ring between two tables.
fn offsets_of(
    alloc: Global,
    first: &Readings,
    second: &[u64],
    transcript: &Transcript,
) -> Result<Result<Offsets, RingDiffer>, Fail>
    requires { first.now.plan ≡ transcript.now.plan }
    ensures { IfOk result (λ offsets. IfOk offsets (AreOfPlan first.now.plan)) }
{
    let second = table(alloc, transcript.plan(), second)?;
    Ok(ring_offsets(alloc, first, &second, transcript, 1))
}

// The words of a table of masks that move to the second table, where the text is that of the first under them.
fn moved_under<R: Threads + Sync, M: Masks + Sync>(
    rt: &R,
    alloc: Global,
    plan: &Plan,
    masks: &M,
    first: &Readings,
    second: &[u64],
    text: &str,
) -> Result<MovedWords, Fail>
    requires masks { M.plan masks.now ≡ plan.now }
    requires first { first.now.plan ≡ plan.now }
    requires limits { IsWithinLimits plan.now }
{
    let transcript = match same_world(rt, alloc, plan, masks, first, text.as_bytes()) {
        Ok(transcript) => transcript,
        Err(_) => return Err("another world".into()),
    };
    match offsets_of(alloc, first, second, &transcript)? {
        Ok(offsets) => Ok(moved_rows(alloc, masks, &offsets)?),
        Err(_) => Err("no offsets".into()),
    }
}

// Whether these are the words that move from 10, 20 and 30 to the second table.
fn moves<R: Threads + Sync>(
    rt: &R,
    alloc: Global,
    text: &str,
    second: &[u64],
    masks: &str,
) -> Result<bool, Fail> {
    let plan = plan_of_north(alloc, 1)?;
    let keys = keys_of_north(alloc, &plan, [0; 6])?;
    let first = table(alloc, &plan, &[10, 20, 30])?;
    let streams = ChaMasks::new(&keys);
    let ring = RingMasks::new(&streams, &plan, 1);
    let _groups = plan.groups();
    let moved = moved_under(rt, alloc, &plan, &ring, &first, second, text)?;
    Ok(moved_text(alloc, &moved)?.as_slice() == masks.as_bytes())
}

#[test]
fn ring_files(rt: HostRuntime) -> Result<(), Fail> {
    for (second, masks) in RING_FILES.iter() {
        check(&rt, moves(&rt, rt.alloc(), PLAIN, second, masks)?, masks);
    }
    Ok(())
}

fn transcript_of<R: Threads + Sync>(rt: &R, alloc: Global, text: &str) -> Result<Transcript, Fail> {
    match read(rt, alloc, text.as_bytes()) {
        Ok(transcript) => Ok(transcript),
        Err(_) => Err("no transcript".into()),
    }
}

// Whether `ring_offsets` answers this cause, from 10, 20 and 30 to the second table.
fn refuses<R: Threads + Sync>(
    rt: &R,
    alloc: Global,
    text: &str,
    second: &[u64],
    cause: RingDiffer,
) -> Result<bool, Fail> {
    let transcript = transcript_of(rt, alloc, text)?;
    let first = table(alloc, transcript.plan(), &[10, 20, 30])?;
    match offsets_of(alloc, &first, second, &transcript)? {
        Ok(_) => Ok(false),
        Err(answered) => Ok(answered == cause),
    }
}

#[test]
fn ring_causes(rt: HostRuntime) -> Result<(), Fail> {
    let (group, round) = (0, 0);
    let component = RingDiffer::Component {
        group,
        round,
        least: 0,
        first: 60,
        second: 61,
    };
    let is_first = refuses(&rt, rt.alloc(), PLAIN, &[15, 15, 31], component)?;
    check(&rt, is_first, "another sum");
    let presence = RingDiffer::Presence {
        group,
        round,
        meter: 2,
    };
    let is_first = refuses(&rt, rt.alloc(), PLAIN, &[1, 2], presence)?;
    check(&rt, is_first, "presence");
    Ok(())
}

// ---- opened components

// The fewest members of an opened component.
fn least_of<R: Threads + Sync>(rt: &R, alloc: Global, text: &str) -> Result<u16, Fail> {
    Ok(least_opened(alloc, &transcript_of(rt, alloc, text)?, 1)?)
}

#[test]
fn least_components(rt: HostRuntime) -> Result<(), Fail> {
    // an answer that was sent and lost stands in the transcript; without its announcement a meter sends none
    for (text, least) in [(PLAIN, 3u16), (LATE, 2), (LOST, 3), (DEAF, 0)] {
        check(&rt, least_of(&rt, rt.alloc(), text)? == least, text);
    }
    // a reading whose first Send has no frame isn't present, and its Take is void
    let text = with_line(rt.alloc(), PLAIN, 8, "0,s,0,0,r,2,-,void")?;
    check(&rt, least_of(&rt, rt.alloc(), &text)? == 2, "no frame");
    Ok(())
}

// ---- words

// The word of meter 0 with another meter in round 0.
fn word_with<M: Masks>(masks: &M, plan: &Plan, meter: u8) -> Result<Word, Fail>
    requires { M.plan masks.now ≡ plan.now }
{
    if meter == 0 || !plan.holds(reading_tag(0, 0, meter)) {
        return Err("no pair".into());
    }
    Ok(masks.pair(0, 0, 0, meter))
}

// The masks of a plan whose words are 0 but for those of meter 0 with the meters 1, 2 and 3, which are 5, 7 and 11.
fn masks_of(alloc: Global, plan: &Plan) -> Result<MaskTable, Fail>
    ensures { IfOk result (λ masks. masks.plan ≡ plan.now) }
{
    let mut masks = MaskTable::zeros(alloc, plan)?;
    set_pair(&mut masks, 0, 1, 5)?;
    set_pair(&mut masks, 0, 2, 7)?;
    set_pair(&mut masks, 0, 3, 11)?;
    Ok(masks)
}

// The words of meter 0 with the meters 1, 2 and 3 of four, on a ring of this width.
fn words_on_ring(alloc: Global, width: u8) -> Result<[u64; 3], Fail> {
    let plan = Plan::new(alloc, &[group(b"north", 4, 2)?], 1, 1, 2)?;
    let masks = masks_of(alloc, &plan)?;
    let ring = RingMasks::new(&masks, &plan, width);
    let first = word_with(&ring, &plan, 1)?;
    let second = word_with(&ring, &plan, 2)?;
    let third = word_with(&ring, &plan, 3)?;
    Ok([first.value(), second.value(), third.value()])
}

/// The last meter of a ring is a neighbour of the first, and the meter over against it is one at width 2 alone.
#[test]
fn ring_words(rt: HostRuntime) -> Result<(), Fail> {
    let narrow = words_on_ring(rt.alloc(), 1)?;
    check_same(&rt, &narrow, &[5, 0, 11], "width 1");
    let wide = words_on_ring(rt.alloc(), 2)?;
    check_same(&rt, &wide, &[5, 7, 11], "width 2");
    Ok(())
}
