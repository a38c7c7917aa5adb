//! Fates of posted frames, which copies arrive and after how many ticks, and the lanes that give them.
#![tactic(auto)]

ghost use Rattle.std.specs.Prelude.{◌≡◌, ◌≤◌, length, true};
ghost use Rattle.std.specs.List.{list_all};
ghost use Rattle.link_lanes.specs.Fates.{is_delay, never_falls, MakesFate};

mod burst;
mod clear;
mod cupboard;
mod every;
mod lane;
mod made;
mod rack;
mod row;
mod rules;
mod seeded;
mod texts;

pub use burst::Burst;
pub use clear::Clear;
pub use cupboard::{RackCause, RackError};
pub use every::EveryNth;
use group_plan::Tag;
pub use lane::{Lane, LaneError};
pub use rack::Rack;
pub use row::{Arg, ArgError, LaneRow};
pub use rules::Rules;
pub use seeded::Seeded;
use std::marker::Model;
pub use texts::read_fate;

/// The copies of a posted frame, seen as the list of their delays: 0 to 3 of them, each 1 to 16 ticks, none below the one before it.
#[derive(Clone, Copy, PartialEq, Eq)]
pub struct Fate {
    count: u8,
    delays: [u8; 3],
}

impl Model for Fate {
    ghost use Rattle.std.specs.Prelude.{ℕ, List};

    ghost Value = { List ℕ };

    ghost use Rattle.link_lanes.specs.FateFields.{delays_of, fields_of, IsKept};

    ghost view = { delays_of };

    ghost invariant = { IsKept };

    ghost inverse = { fields_of };

    ghost inverse_ok = { λ a h. h.kept };
}

/// Why a list of delays is no fate.
#[derive(Clone, Copy, Debug, PartialEq, Eq)]
pub enum FateError {
    /// There are more than 3.
    Copies,
    /// One is 0 or above 16.
    Delay,
    /// One is below the one before it.
    Order,
}

impl Fate {
    /// The fate with these delays; of several faults the first in the order of `FateError` is answered.
    pub fn new(delays: &[u8]) -> Result<Fate, FateError>
        ensures { MakesFate delays.now result }
    {
        if delays.len() > 3 {
            return Err(FateError::Copies);
        }
        if !delays.iter().all(|&delay| 1 <= delay && delay <= 16) {
            return Err(FateError::Delay);
        }
        match *delays {
            [first, second] if second < first => Err(FateError::Order),
            [first, second, third] if second < first || third < second => Err(FateError::Order),
            [] => Ok(Fate {
                count: 0,
                delays: [0, 0, 0],
            }),
            [first] => Ok(Fate {
                count: 1,
                delays: [first, 0, 0],
            }),
            [first, second] => Ok(Fate {
                count: 2,
                delays: [first, second, 0],
            }),
            [first, second, third] => Ok(Fate {
                count: 3,
                delays: [first, second, third],
            }),
            _ => Err(FateError::Copies),
        }
    }

    /// The delays in ticks, ascending.
    pub fn delays(&self) -> &[u8]
        ensures value { result.now ≡ self.now }
        ensures few { length self.now ≤ 3 }
        ensures in_range { list_all is_delay self.now ≡ true }
        ensures rising { never_falls self.now ≡ true }
    {
        &self.delays[..self.count as usize]
    }
}

/// A post: the tick at which it is made, the frame's tag, and the fate that it got.
#[derive(Clone, Copy)]
pub struct Post {
    pub tick: u32,
    pub tag: Tag,
    pub fate: Fate,
}

pub mod laws;
