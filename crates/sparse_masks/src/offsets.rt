//! The offsets between two tables of readings on a ring.
ghost use Rattle.std.specs.Prelude.{◌≡◌, ◌+◌, ◌-◌, ◌<◌, ◌++◌, false, IfOk, IfErr, OnOk, length};
ghost use Rattle.std.specs.List.{flat_map, range_with_len};
ghost use Rattle.group_plan.specs.Plans.{size};
ghost use Rattle.event_schedule.specs.Events.{events_of};
ghost use Rattle.event_schedule.specs.Schedule.{is_announced};
ghost use Rattle.pair_keys.specs.declared.KeyId.TheVariants.{Own, Pair};
ghost use Rattle.group_book.specs.Books.{shape_of, past};
ghost use Rattle.ideal_masks.specs.Moves.{moved, own_list, pair_list, offset_list};
ghost use Rattle.ideal_masks.specs.Order.{AreMoves, AreOfPlan};
ghost use Rattle.sparse_masks.specs.Rounds.{IsRoundOf, AreComponents};
ghost use Rattle.sparse_masks.specs.TreeParts.{AreParents};
ghost use Rattle.sparse_masks.specs.OffsetEnds.{AreOfBook, PlacesEnd, RingOffsetsEnd, HasRingWorlds, HasNoRingWorlds};
ghost use Rattle.sparse_masks.specs.SideParts.{AreSides, deltas_of, size_of, AreDeltas, moves_between, moves_in, owns_of, pairs_of};

use crate::RingDiffer;
use crate::round::{Round, round_of};
use crate::sides::{Sides, check_sums};
use group_book::Book;
use group_plan::Readings;
use ideal_masks::{
    Differ, Offset, Offsets, check_presence, push_moved, reading_or_zero, replay_events,
};
use missing_round::MeterSet;
use pair_keys::KeyId;
use std::alloc::{AllocError, Global};
use transcript_log::Transcript;

impl<'a> Sides<'a> {
    // By how much a meter's reading is more in the first table, modulo 2^64.
    fn delta(&self, meter: u8) -> u64
        requires sides { AreSides self.now }
        requires meter { meter < size_of self.now }
        ensures { result ≡ deltas_of self.now meter }
    {
        let more = reading_or_zero(self.first, self.group, self.round, meter);
        more.wrapping_sub(reading_or_zero(self.second, self.group, self.round, meter))
    }

    // The same, by meter.
    fn deltas(&self, alloc: Global) -> Result<Vec<u64>, AllocError>
        requires { AreSides self.now }
        ensures { IfOk result (λ deltas. AreDeltas self.now deltas.items) }
    {
        let _first = self.first.plan();
        let _second = self.second.plan();
        let mut deltas = Vec::new(alloc);
        for meter in 0..self.book.plan().meters(self.group) {
            deltas.push(self.delta(meter as u8))?;
        }
        Ok(deltas)
    }

    // Adds the own word of a meter, where it moves.
    fn add_own(&self, meter: u8, by: u64, moves: &mut Vec<Offset>) -> Result<(), AllocError>
        ensures { OnOk result (moves.new.items ≡ moves.old.items ++ moved (Own self.now.group meter) self.now.round by) }
    {
        let id = KeyId::Own {
            group: self.group.into(),
            meter: meter.into(),
        };
        push_moved(id, self.round, by, moves)
    }

    // Adds the word of a pair of meters, where it moves.
    fn add_pair(
        &self,
        low: u8,
        high: u8,
        by: u64,
        moves: &mut Vec<Offset>,
    ) -> Result<(), AllocError>
        ensures { OnOk result (moves.new.items ≡ moves.old.items ++ moved (Pair self.now.group low high) self.now.round by) }
    {
        let id = KeyId::Pair {
            group: self.group.into(),
            low: low.into(),
            high: high.into(),
        };
        push_moved(id, self.round, by, moves)
    }

    // Adds the own words that move in an announced round, by meter.
    fn add_owns(
        &self,
        ring: &Round,
        components: &[MeterSet],
        deltas: &[u64],
        moves: &mut Vec<Offset>,
    ) -> Result<(), AllocError>
        requires ring { IsRoundOf self.now.width (shape_of self.now.book.now) self.now.group self.now.round (past self.now.book.now) ring.now }
        requires components { AreComponents ring.now components.now }
        requires deltas { AreDeltas self.now deltas.now }
        ensures { OnOk result (moves.new.items ≡ moves.old.items ++ owns_of self.now) }
    {
        for meter in 0..ring.meters {
            let by = ring.own_move(components[meter as usize], deltas, meter as u8);
            self.add_own(meter as u8, by, moves)?;
        }
        Ok(())
    }

    // Adds the own words that move in a round that isn't announced, by meter.
    fn add_deltas(&self, moves: &mut Vec<Offset>) -> Result<(), AllocError>
        requires sides { AreSides self.now }
        requires open { is_announced (shape_of self.now.book.now) self.now.group self.now.round (past self.now.book.now) ≡ false }
        ensures { OnOk result (moves.new.items ≡ moves.old.items ++ (owns_of self.now ++ pairs_of self.now)) }
    {
        for meter in 0..self.book.plan().meters(self.group) {
            self.add_own(meter as u8, self.delta(meter as u8), moves)?;
        }
        Ok(())
    }

    // Adds the pair words that move, of which a meter is the lower one.
    fn add_row(
        &self,
        ring: &Round,
        parents: &[Option<u8>],
        deltas: &[u64],
        low: u8,
        moves: &mut Vec<Offset>,
    ) -> Result<(), AllocError>
        requires ring { IsRoundOf self.now.width (shape_of self.now.book.now) self.now.group self.now.round (past self.now.book.now) ring.now }
        requires parents { AreParents ring.now parents.now }
        requires deltas { AreDeltas self.now deltas.now }
        requires low { low < ring.now.meters }
        ensures { OnOk result (moves.new.items ≡ moves.old.items ++ flat_map (λ j. moved (Pair self.now.group low j) self.now.round ((moves_in self.now).pair self.now.group self.now.round low j)) (range_with_len (low + 1) (size_of self.now - (low + 1)))) }
    {
        for high in u32::from(low) + 1..ring.meters {
            let by = ring.pair_move(parents, deltas, low, high as u8);
            self.add_pair(low, high as u8, by, moves)?;
        }
        Ok(())
    }

    // Adds the pair words that move, by the lower meter and then by the higher.
    fn add_pairs(
        &self,
        ring: &Round,
        parents: &[Option<u8>],
        deltas: &[u64],
        moves: &mut Vec<Offset>,
    ) -> Result<(), AllocError>
        requires ring { IsRoundOf self.now.width (shape_of self.now.book.now) self.now.group self.now.round (past self.now.book.now) ring.now }
        requires parents { AreParents ring.now parents.now }
        requires deltas { AreDeltas self.now deltas.now }
        ensures { OnOk result (moves.new.items ≡ moves.old.items ++ pairs_of self.now) }
    {
        for low in 0..ring.meters {
            self.add_row(ring, parents, deltas, low as u8, moves)?;
        }
        Ok(())
    }

    // Adds the words that move in an announced round: own words, and then pair words.
    fn add_ring(
        &self,
        alloc: Global,
        ring: &Round,
        moves: &mut Vec<Offset>,
    ) -> Result<(), AllocError>
        requires sides { AreSides self.now }
        requires ring { IsRoundOf self.now.width (shape_of self.now.book.now) self.now.group self.now.round (past self.now.book.now) ring.now }
        ensures { OnOk result (moves.new.items ≡ moves.old.items ++ (owns_of self.now ++ pairs_of self.now)) }
    {
        let deltas = self.deltas(alloc)?;
        let joined = ring.all_joined(alloc)?;
        let components = ring.components(alloc)?;
        let parents = ring.parents(alloc, &joined, &components)?;
        self.add_owns(ring, &components, &deltas, moves)?;
        self.add_pairs(ring, &parents, &deltas, moves)
    }

    // Adds the words that move in the round.
    fn add_round(&self, alloc: Global, moves: &mut Vec<Offset>) -> Result<(), AllocError>
        requires { AreSides self.now }
        ensures { OnOk result (moves.new.items ≡ moves.old.items ++ (owns_of self.now ++ pairs_of self.now)) }
    {
        match round_of(self.book, self.width, self.group, self.round) {
            Some(ring) => self.add_ring(alloc, &ring, moves),
            None => self.add_deltas(moves),
        }
    }
}

// Adds the words of a group that move, by round.
fn add_group(
    alloc: Global,
    first: &Readings,
    second: &Readings,
    book: &Book,
    width: u8,
    group: u16,
    moves: &mut Vec<Offset>,
) -> Result<(), AllocError>
    requires plans { AreOfBook first.now second.now book.now }
    requires group { group < length book.now.presence.plan.groups }
    ensures { OnOk result (moves.new.items ≡ moves.old.items ++ flat_map (λ r. own_list (moves_between width first.now second.now book.now) group r (size book.now.presence.plan.groups group)
        ++ pair_list (moves_between width first.now second.now book.now) group r (size book.now.presence.plan.groups group)) (range_with_len 0 book.now.presence.plan.rounds)) }
{
    for round in 0..book.plan().rounds() {
        let sides = Sides {
            first,
            second,
            book,
            width,
            group,
            round,
        };
        sides.add_round(alloc, moves)?;
    }
    Ok(())
}

// The words that move, by group.
fn all_moves(
    alloc: Global,
    first: &Readings,
    second: &Readings,
    book: &Book,
    width: u8,
) -> Result<Vec<Offset>, AllocError>
    requires { AreOfBook first.now second.now book.now }
    ensures { IfOk result (λ moves. moves.items ≡ offset_list book.now.presence.plan (moves_between width first.now second.now book.now)) }
{
    let mut moves = Vec::new(alloc);
    for group in 0..book.plan().groups().len() {
        add_group(alloc, first, second, book, width, group as u16, &mut moves)?;
    }
    Ok(moves)
}

// Whether the tables have their readings at the same places, or else the first place where they haven't.
fn check_places(first: &Readings, second: &Readings) -> Result<(), RingDiffer>
    requires { second.now.plan ≡ first.now.plan }
    ensures { PlacesEnd first.now second.now result }
{
    match check_presence(first, second) {
        Ok(()) => Ok(()),
        Err(
            Differ::Presence {
                group,
                round,
                meter,
            },
        ) => Err(RingDiffer::Presence {
            group,
            round,
            meter,
        }),
        Err(_) => Err(RingDiffer::Memory),
    }
}

// The mask words that move between two tables that agree on the ring; else the first place or component where they don't.
fn moves_on_ring(
    alloc: Global,
    first: &Readings,
    second: &Readings,
    transcript: &Transcript,
    width: u8,
) -> Result<Offsets, RingDiffer>
    requires first { first.now.plan ≡ transcript.now.plan }
    requires second { second.now.plan ≡ transcript.now.plan }
    ensures ends { RingOffsetsEnd width first.now second.now (events_of transcript.now.entries) result }
    ensures places { IfOk result (AreOfPlan first.now.plan) }
    ensures order { IfOk result AreMoves }
{
    check_places(first, second)?;
    let book = replay_events(alloc, first, transcript)?;
    check_sums(alloc, first, second, &book, width)?;
    Ok(Offsets::of(all_moves(alloc, first, second, &book, width)?))
}

/// The mask words that move so that the second table of readings has the transcript of the first under masks between neighbours of this
/// width, 1 to 128. It reads the events of the transcript, and no word.
pub fn ring_offsets(
    alloc: Global,
    first: &Readings,
    second: &Readings,
    transcript: &Transcript,
    width: u8,
) -> Result<Offsets, RingDiffer>
    requires first { first.now.plan ≡ transcript.now.plan }
    requires second { second.now.plan ≡ transcript.now.plan }
    ensures ends { RingOffsetsEnd width first.now second.now (events_of transcript.now.entries) result }
    ensures places { IfOk result (AreOfPlan first.now.plan) }
    ensures order { IfOk result AreMoves }
    ensures two_worlds { IfOk result (λ _. HasRingWorlds width first.now second.now (events_of transcript.now.entries)) }
    ensures converse { IfErr result (HasNoRingWorlds width first.now second.now (events_of transcript.now.entries)) }
{
    let _groups = first.plan().groups();
    let _second = second.plan();
    moves_on_ring(alloc, first, second, transcript, width)
}
