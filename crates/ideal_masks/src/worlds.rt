//! The offsets between two tables of readings.
ghost use Rattle.std.specs.Prelude.{◌≡◌, ◌<◌, ◌++◌, IfOk, IfErr, OnOk, length};
ghost use Rattle.std.specs.List.{flat_map, range_with_len};
ghost use Rattle.group_plan.specs.Plans.{size, IsWithinLimits};
ghost use Rattle.group_plan.specs.Tables.{reading, presence_of};
ghost use Rattle.event_schedule.specs.Events.{events_of};
ghost use Rattle.ideal_masks.specs.Moves.{own_list, pair_list, offset_list};
ghost use Rattle.ideal_masks.specs.Order.{AreMoves, AreOfPlan};
ghost use Rattle.ideal_masks.specs.Chains.{moves_of};
ghost use Rattle.ideal_masks.specs.Pools.{pool_of};
ghost use Rattle.ideal_masks.specs.Replaying.{events_in};
ghost use Rattle.ideal_masks.specs.AgreementParts.{AreOfOne, MovesEnd};
ghost use Rattle.ideal_masks.specs.OffsetEnds.{IsAlike, IsKnownAlike, OffsetsEnd, PooledEnd, HasTwoWorldsFor, HasNoWorldsFor, HasNoPooledWorlds, HasTwoWorlds, HasNoWorlds};

use crate::agreement::{check_known, check_presence, check_totals};
use crate::compared::Compared;
use crate::replay::replay_events;
use crate::{Differ, Offset, Offsets, PoolDiffer};
use group_book::Book;
use group_plan::Readings;
use missing_round::MeterSet;
use std::alloc::{AllocError, Global};
use transcript_log::Transcript;

// Adds the words of a group that move, by round.
fn add_group(
    known: &[MeterSet],
    first: &Readings,
    second: &Readings,
    book: &Book,
    group: u16,
    moves: &mut Vec<Offset>,
) -> Result<(), AllocError>
    requires plans { AreOfOne first.now second.now book.now }
    requires group { group < length book.now.presence.plan.groups }
    ensures { OnOk result (moves.new.items ≡ moves.old.items ++ flat_map (λ r. own_list (moves_of (pool_of known.now) first.now second.now book.now) group r (size book.now.presence.plan.groups group)
        ++ pair_list (moves_of (pool_of known.now) first.now second.now book.now) group r (size book.now.presence.plan.groups group)) (range_with_len 0 book.now.presence.plan.rounds)) }
{
    for round in 0..book.plan().rounds() {
        let compared = Compared {
            known,
            first,
            second,
            book,
            group,
            round,
        };
        compared.add_round(moves)?;
    }
    Ok(())
}

// The words that move, by group.
fn all_moves(
    alloc: Global,
    known: &[MeterSet],
    first: &Readings,
    second: &Readings,
    book: &Book,
) -> Result<Vec<Offset>, AllocError>
    requires { AreOfOne first.now second.now book.now }
    ensures { IfOk result (λ moves. moves.items ≡ offset_list book.now.presence.plan (moves_of (pool_of known.now) first.now second.now book.now)) }
{
    let mut moves = Vec::new(alloc);
    for group in 0..book.plan().groups().len() {
        add_group(known, first, second, book, group as u16, &mut moves)?;
    }
    Ok(moves)
}

// The mask words that move between two tables with the same presence, of which the pool knows the same; else the first total
// that differs.
fn agreed_moves(
    alloc: Global,
    known: &[MeterSet],
    first: &Readings,
    second: &Readings,
    book: &Book,
) -> Result<Offsets, Differ>
    requires first { book.now.presence ≡ presence_of first.now }
    requires second { second.now.plan ≡ first.now.plan }
    requires limits { IsWithinLimits first.now.plan }
    requires alike { (g r i : _) → IsAlike (reading first.now.table) (reading second.now.table) g r i }
    requires known { (g r i : _) → IsKnownAlike (pool_of known.now) (reading first.now.table) (reading second.now.table) g r i }
    ensures ends { MovesEnd (pool_of known.now) first.now second.now (events_in book.now) result }
    ensures places { IfOk result (AreOfPlan first.now.plan) }
    ensures order { IfOk result AreMoves }
    ensures two_worlds { IfOk result (HasTwoWorldsFor (pool_of known.now) first.now second.now (events_in book.now)) }
    ensures converse { IfErr result (HasNoWorldsFor (pool_of known.now) first.now second.now (events_in book.now)) }
{
    let _first = first.plan();
    let _second = second.plan();
    check_totals(known, first, second, book)?;
    Ok(Offsets::of(all_moves(alloc, known, first, second, book)?))
}

/// The mask words that move so that the second table of readings has the transcript of the first, after the events of this book. It
/// reads no word of the book.
pub fn offsets_after(
    alloc: Global,
    first: &Readings,
    second: &Readings,
    book: &Book,
) -> Result<Offsets, Differ>
    requires first { book.now.presence ≡ presence_of first.now }
    requires second { second.now.plan ≡ first.now.plan }
    ensures ends { OffsetsEnd first.now second.now (events_in book.now) result }
    ensures places { IfOk result (AreOfPlan first.now.plan) }
    ensures order { IfOk result AreMoves }
    ensures two_worlds { IfOk result (HasTwoWorlds first.now second.now (events_in book.now)) }
    ensures converse { IfErr result (HasNoWorlds first.now second.now (events_in book.now)) }
{
    check_presence(first, second)?;
    agreed_moves(alloc, &[], first, second, book)
}

/// The same after the events of a transcript.
pub fn offsets(
    alloc: Global,
    first: &Readings,
    second: &Readings,
    transcript: &Transcript,
) -> Result<Offsets, Differ>
    requires first { first.now.plan ≡ transcript.now.plan }
    requires second { second.now.plan ≡ transcript.now.plan }
    ensures ends { OffsetsEnd first.now second.now (events_of transcript.now.entries) result }
    ensures places { IfOk result (AreOfPlan first.now.plan) }
    ensures order { IfOk result AreMoves }
    ensures two_worlds { IfOk result (HasTwoWorlds first.now second.now (events_of transcript.now.entries)) }
    ensures converse { IfErr result (HasNoWorlds first.now second.now (events_of transcript.now.entries)) }
{
    check_presence(first, second)?;
    let book = replay_events(alloc, first, transcript)?;
    agreed_moves(alloc, &[], first, second, &book)
}

/// The mask words that move so that the second table of readings has the transcript of the first, and a pool of meters the same
/// readings and the same words, after the events of this book. `known` are the meters of the pool, as a set for each group; a
/// group past the last has none. It reads no word of the book.
pub fn pooled_offsets_after(
    alloc: Global,
    known: &[MeterSet],
    first: &Readings,
    second: &Readings,
    book: &Book,
) -> Result<Offsets, PoolDiffer>
    requires first { book.now.presence ≡ presence_of first.now }
    requires second { second.now.plan ≡ first.now.plan }
    ensures ends { PooledEnd (pool_of known.now) first.now second.now (events_in book.now) result }
    ensures places { IfOk result (AreOfPlan first.now.plan) }
    ensures order { IfOk result AreMoves }
    ensures two_worlds { IfOk result (HasTwoWorldsFor (pool_of known.now) first.now second.now (events_in book.now)) }
    ensures converse { IfErr result (HasNoPooledWorlds (pool_of known.now) first.now second.now (events_in book.now)) }
{
    check_presence(first, second)?;
    check_known(known, first, second)?;
    Ok(agreed_moves(alloc, known, first, second, book)?)
}
