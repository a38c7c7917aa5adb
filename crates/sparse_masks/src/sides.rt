//! Whether two tables of readings have one sum over each opened component.
ghost use Rattle.std.specs.Prelude.{◌≡◌, ◌+◌, ◌<◌, length};
ghost use Rattle.group_plan.specs.Tables.{reading};
ghost use Rattle.group_book.specs.Books.{shape_of, past};
ghost use Rattle.sparse_masks.specs.Trees.{component};
ghost use Rattle.sparse_masks.specs.Rounds.{graph_of, IsRoundOf, AreComponents};
ghost use Rattle.sparse_masks.specs.Opened.{Before};
ghost use Rattle.sparse_masks.specs.Offsets.{HasOneRingSum};
ghost use Rattle.sparse_masks.specs.OffsetEnds.{AreOfBook, SumsGoOn, SumsEnd};
ghost use Rattle.sparse_masks.specs.SideParts.{AreSides, one_sum};

use crate::RingDiffer;
use crate::round::{Round, round_of};
use group_book::Book;
use group_plan::Readings;
use ideal_masks::sum_of_readings;
use missing_round::MeterSet;
use std::alloc::Global;

/// A round whose two tables of readings are compared on a ring of this width, with a book of the events.
#[derive(Clone, Copy)]
pub(crate) struct Sides<'a> {
    pub first: &'a Readings,
    pub second: &'a Readings,
    pub book: &'a Book,
    pub width: u8,
    pub group: u16,
    pub round: u32,
}

impl<'a> Sides<'a> {
    // Whether the tables have one sum over these members, the component of a meter, where it is a survivor and all of them answered.
    fn check_meter(&self, ring: &Round, members: MeterSet, meter: u8) -> Result<(), RingDiffer>
        requires sides { AreSides self.now }
        requires ring { IsRoundOf self.now.width (shape_of self.now.book.now) self.now.group self.now.round (past self.now.book.now) ring.now }
        requires members { members ≡ component (graph_of ring.now) meter }
        requires before { Before (one_sum self.now) self.now.group self.now.round meter }
        ensures { SumsGoOn self.now.width (shape_of self.now.book.now) (reading self.now.first.now.table) (reading self.now.second.now.table) (past self.now.book.now) self.now.group self.now.round (meter + 1) result }
    {
        if !ring.survivors.has(meter) || !ring.is_opened(members) {
            return Ok(());
        }
        let first = sum_of_readings(self.first, self.group, self.round, members);
        let second = sum_of_readings(self.second, self.group, self.round, members);
        if first != second {
            return Err(RingDiffer::Component {
                group: self.group,
                round: self.round,
                least: meter,
                first,
                second,
            });
        }
        Ok(())
    }

    // Whether the tables have one sum over each opened component of the round.
    fn check_ring(&self, ring: &Round, components: &[MeterSet]) -> Result<(), RingDiffer>
        requires sides { AreSides self.now }
        requires ring { IsRoundOf self.now.width (shape_of self.now.book.now) self.now.group self.now.round (past self.now.book.now) ring.now }
        requires components { AreComponents ring.now components.now }
        requires before { Before (one_sum self.now) self.now.group self.now.round 0 }
        ensures { SumsGoOn self.now.width (shape_of self.now.book.now) (reading self.now.first.now.table) (reading self.now.second.now.table) (past self.now.book.now) self.now.group (self.now.round + 1) 0 result }
    {
        for meter in 0..ring.meters {
            self.check_meter(ring, components[meter as usize], meter as u8)?;
        }
        Ok(())
    }

    // The same, where the round is announced.
    fn check_round(&self, alloc: Global) -> Result<(), RingDiffer>
        requires sides { AreSides self.now }
        requires before { Before (one_sum self.now) self.now.group self.now.round 0 }
        ensures { SumsGoOn self.now.width (shape_of self.now.book.now) (reading self.now.first.now.table) (reading self.now.second.now.table) (past self.now.book.now) self.now.group (self.now.round + 1) 0 result }
    {
        let ring = match round_of(self.book, self.width, self.group, self.round) {
            Some(ring) => ring,
            None => return Ok(()),
        };
        let components = ring.components(alloc)?;
        self.check_ring(&ring, &components)
    }
}

// Whether the tables have one sum over each opened component of the rounds of a group.
fn check_group(
    alloc: Global,
    first: &Readings,
    second: &Readings,
    book: &Book,
    width: u8,
    group: u16,
) -> Result<(), RingDiffer>
    requires plans { AreOfBook first.now second.now book.now }
    requires group { group < length book.now.presence.plan.groups }
    requires before { Before (HasOneRingSum width (shape_of book.now) (reading first.now.table) (reading second.now.table) (past book.now)) group 0 0 }
    ensures { SumsGoOn width (shape_of book.now) (reading first.now.table) (reading second.now.table) (past book.now) (group + 1) 0 0 result }
{
    for round in 0..book.plan().rounds() {
        let sides = Sides {
            first,
            second,
            book,
            width,
            group,
            round,
        };
        sides.check_round(alloc)?;
    }
    Ok(())
}

/// Whether the tables have one sum over each opened component, or else the first place where they haven't.
pub(crate) fn check_sums(
    alloc: Global,
    first: &Readings,
    second: &Readings,
    book: &Book,
    width: u8,
) -> Result<(), RingDiffer>
    requires { AreOfBook first.now second.now book.now }
    ensures { SumsEnd width (shape_of book.now) (reading first.now.table) (reading second.now.table) (past book.now) result }
{
    for group in 0..book.plan().groups().len() {
        check_group(alloc, first, second, book, width, group as u16)?;
    }
    Ok(())
}
