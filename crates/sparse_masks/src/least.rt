//! The fewest members of an opened component.
ghost use Rattle.std.specs.Prelude.{◌≡◌, ◌+◌, ◌<◌, ◌&&◌, Some, IsTrue, IfOk, length, reverse, if◌then◌else◌};
ghost use Rattle.event_schedule.specs.Events.{events_of, lines_of};
ghost use Rattle.event_schedule.specs.Frames.{shape_of_lines};
ghost use Rattle.missing_round.specs.Sets.{is_member};
ghost use Rattle.group_book.specs.Books.{shape_of, past, has_round};
ghost use Rattle.sparse_masks.specs.Trees.{component, is_component_opened};
ghost use Rattle.sparse_masks.specs.Rounds.{graph_of, IsRingRound, AreComponents};
ghost use Rattle.sparse_masks.specs.Opened.{fewer_of, IsFewest, FewestGoesOn, IsLeastOpened};

use crate::round::{Round, round_of};
use frame_presence::readings_of_frames;
use group_book::Book;
use ideal_masks::replay_events;
use missing_round::MeterSet;
use std::alloc::{AllocError, Global};
use transcript_log::Transcript;

// The fewer of some members, where there are any, and of those of one component more.
fn fewer(fewest: Option<u16>, members: u16) -> u16
    ensures { result ≡ fewer_of fewest members }
{
    match fewest {
        None => members,
        Some(fewest) => if fewest <= members { fewest } else { members },
    }
}

impl Round {
    // The fewest members, with those of the component of a meter, where it is a survivor and its component opened.
    fn with_component(&self, members: MeterSet, meter: u8, fewest: Option<u16>) -> Option<u16>
        requires { members ≡ component (graph_of self.now) meter }
        ensures { result ≡ (if is_member meter self.now.survivors && is_component_opened (graph_of self.now) meter then Some (fewer_of fewest (length members)) else fewest) }
    {
        if self.survivors.has(meter) && self.is_opened(members) {
            Some(fewer(fewest, members.len()))
        } else {
            fewest
        }
    }

    // The fewest members, with those of the opened components of the round.
    fn fewest(&self, components: &[MeterSet], fewest: Option<u16>) -> Option<u16>
        requires round { IsRingRound self.now }
        requires components { AreComponents self.now components.now }
        ensures { FewestGoesOn self.now fewest self.now.meters result }
    {
        let mut least = fewest;
        for meter in 0..self.meters {
            least = self.with_component(components[meter as usize], meter as u8, least);
        }
        least
    }
}

// The fewest members of any opened component, with those of one round more.
fn round_fewest(
    alloc: Global,
    book: &Book,
    width: u8,
    group: u16,
    round: u32,
    fewest: Option<u16>,
) -> Result<Option<u16>, AllocError>
    requires round { IsTrue (has_round book.now group round) }
    requires before { IsFewest width (shape_of book.now) (past book.now) group round 0 fewest }
    ensures { IfOk result (IsFewest width (shape_of book.now) (past book.now) group (round + 1) 0) }
{
    let ring = match round_of(book, width, group, round) {
        Some(ring) => ring,
        None => return Ok(fewest),
    };
    let components = ring.components(alloc)?;
    Ok(ring.fewest(&components, fewest))
}

// The fewest members of any opened component, with those of one group more.
fn group_fewest(
    alloc: Global,
    book: &Book,
    width: u8,
    group: u16,
    fewest: Option<u16>,
) -> Result<Option<u16>, AllocError>
    requires group { group < length book.now.presence.plan.groups }
    requires before { IsFewest width (shape_of book.now) (past book.now) group 0 0 fewest }
    ensures { IfOk result (IsFewest width (shape_of book.now) (past book.now) (group + 1) 0 0) }
{
    let mut least = fewest;
    for round in 0..book.plan().rounds() {
        least = round_fewest(alloc, book, width, group, round, least)?;
    }
    Ok(least)
}

/// The fewest members of an opened component of any round of a book on rings of this width, 1 to 128; 0 where there is none.
pub fn least_of_book(alloc: Global, book: &Book, width: u8) -> Result<u16, AllocError>
    ensures { IfOk result (IsLeastOpened width (shape_of book.now) (past book.now)) }
{
    let mut least = None;
    for group in 0..book.plan().groups().len() {
        least = group_fewest(alloc, book, width, group as u16, least)?;
    }
    Ok(least.unwrap_or(0))
}

/// The fewest members of an opened component of any round, for the lines of a transcript and the presence that its frames say, on
/// rings of this width, 1 to 128; 0 where there is none. It reads no word of the transcript.
pub fn least_opened(alloc: Global, transcript: &Transcript, width: u8) -> Result<u16, AllocError>
    ensures { IfOk result (IsLeastOpened width (shape_of_lines transcript.now.plan.groups (lines_of transcript.now.entries)) (reverse (events_of transcript.now.entries))) }
{
    let readings = readings_of_frames(alloc, transcript)?;
    let book = replay_events(alloc, &readings, transcript)?;
    least_of_book(alloc, &book, width)
}
