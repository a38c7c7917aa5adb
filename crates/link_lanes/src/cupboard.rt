//! Lanes taken from a cupboard by name, and hung in a rack for the rows of a plan file.

ghost use Rattle.std.specs.Prelude.{◌≡◌, ◌<◌, length, map, remove, slice_index_or, Some, None, MatchOption, bytes_eq};
ghost use Rattle.link_lanes.specs.Racks.{slots, posts_of, HasRoom};
ghost use Rattle.link_lanes.specs.Loads.{LoadEnds};
ghost use Rattle.link_lanes.specs.Fits.{take_named, RowEnds, FitEnds};

use crate::{Lane, LaneError, LaneRow, Rack};
use std::alloc::Global;

/// Why a row of lanes was refused.
#[derive(Clone, Copy, Debug, PartialEq, Eq)]
pub enum RackCause {
    /// No lane left has the row's name.
    NoSuchLane,
    /// The lane's own test of the row's argument is false.
    BadArgument,
    /// Want of memory.
    Memory,
}

/// The row that was refused, by its number in the file, and why.
#[derive(Clone, Copy, Debug)]
pub struct RackError {
    pub row: u32,
    pub cause: RackCause,
}

fn is_named(lane: &Box<dyn Lane>, name: &[u8]) -> bool
    ensures { result ≡ bytes_eq (meaning lane.now).called name.now }
{
    lane.name().as_bytes() == name
}

// The place of the first lane of the name.
fn find_named(left: &[Box<dyn Lane>], name: &[u8]) -> Option<usize>
    ensures { MatchOption result (take_named name.now (map (λ b. meaning b) left.now) ≡ None)
        (λ at. (at < length left.now) × ((d : _) → take_named name.now (map (λ b. meaning b) left.now) ≡ Some (meaning (slice_index_or left.now at d), map (λ b. meaning b) (remove left.now at)))) }
{
    match left {
        [] => None,
        [first, rest @ ..] => {
            if is_named(first, name) {
                return Some(0);
            }
            match find_named(rest, name) {
                None => None,
                Some(at) => Some(at + 1),
            }
        }
    }
}

// Loads a lane of the cupboard.
fn load(alloc: Global, lane: &mut Box<dyn Lane>, arg: &str) -> Result<(), LaneError>
    ensures { LoadEnds (meaning lane.old) arg.now (meaning lane.new) result }
{
    lane.load(alloc, arg)
}

// Takes the row's lane out, loads it and hangs it.
fn fit_row(
    alloc: Global,
    rack: &mut Rack,
    left: &mut Vec<Box<dyn Lane>>,
    row: &LaneRow,
) -> Result<(), RackCause>
    requires { HasRoom (λ b. meaning b) rack.old }
    ensures ends { RowEnds row.now (slots (λ b. meaning b) rack.old) (map (λ b. meaning b) left.old.items)
        (slots (λ b. meaning b) rack.new) (map (λ b. meaning b) left.new.items) result }
    ensures room { HasRoom (λ b. meaning b) rack.new }
    ensures posts { posts_of rack.new ≡ posts_of rack.old }
{
    let Some(at) = find_named(left, row.name.bytes()) else {
        return Err(RackCause::NoSuchLane);
    };
    let mut lane = left.remove(at);
    match load(alloc, &mut lane, row.arg.text()) {
        Ok(()) => {}
        Err(LaneError::Refused) => return Err(RackCause::BadArgument),
        Err(LaneError::Memory) => return Err(RackCause::Memory),
    }
    match rack.hang(lane, row.from, row.to) {
        Ok(()) => Ok(()),
        Err(_lane) => Err(RackCause::Memory),
    }
}

impl Rack {
    /// Hangs a lane for each row, in order: the first of its name that is left in the cupboard, loaded with its argument.
    /// Lanes that no row takes are dropped, and all of them after a refusal.
    pub fn fit(
        alloc: Global,
        cupboard: Vec<Box<dyn Lane>>,
        rows: &[LaneRow],
    ) -> Result<Rack, RackError>
        ensures { FitEnds (λ b. meaning b) cupboard.items rows.now result }
    {
        let mut left = cupboard;
        let mut rack = Rack::new(alloc);
        for row in rows {
            match fit_row(alloc, &mut rack, &mut left, row) {
                Ok(()) => {}
                Err(cause) => {
                    return Err(RackError {
                        row: row.row,
                        cause,
                    });
                }
            }
        }
        Ok(rack)
    }
}
