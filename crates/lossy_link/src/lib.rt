//! The link over which frames travel as bytes: copies on their way. Each comes out at most once, at its own tick, with the
//! bytes of its post.
#![tactic(auto)]

ghost use Rattle.std.specs.Prelude.{◌≡◌, ◌<◌, ◌^◌, [], length, true};
ghost use Rattle.std.specs.BTreeMap.{IsOrdered};
ghost use Rattle.std.specs.List.{list_all};
ghost use Rattle.std.specs.Ordering.{nat_cmp};
ghost use Rattle.link_lanes.specs.Fates.{is_delay};
ghost use Rattle.lossy_link.specs.Arrivals.{Arrival, arrival, placed};
ghost use Rattle.lossy_link.specs.Waiting.{copies_of};
ghost use Rattle.lossy_link.specs.Calls.{PostEnds, DueEnds, AddEnds};

pub mod laws;

use link_lanes::Fate;
use std::alloc::{AllocError, Global};
use std::collections::BTreeMap;
use std::marker::Model;

// One copy more of these bytes, at this tick.
fn add(
    waiting: &mut BTreeMap<u32, Vec<[u8; 52]>>,
    alloc: Global,
    tick: u32,
    bytes: [u8; 52],
) -> Result<(), AllocError>
    ensures ends { AddEnds (arrival tick bytes) (copies_of waiting.old.entries) (copies_of waiting.new.entries) result }
    ensures ordered { IsOrdered nat_cmp waiting.old → IsOrdered nat_cmp waiting.new }
{
    if let Some(copies) = waiting.get_mut(&tick) {
        copies.push(bytes)?;
        return Ok(());
    }
    let mut copies = Vec::new(alloc);
    copies.push(bytes)?;
    waiting.insert(tick, copies)?;
    Ok(())
}

// Takes back the copy that was added last at this tick.
fn take_back(waiting: &mut BTreeMap<u32, Vec<[u8; 52]>>, tick: u32)
    ensures same { (a : Arrival) (before : _) → a.tick ≡ tick → copies_of waiting.old.entries ≡ placed a before → copies_of waiting.new.entries ≡ before }
    ensures ordered { IsOrdered nat_cmp waiting.old → IsOrdered nat_cmp waiting.new }
{
    if let Some(copies) = waiting.get_mut(&tick) {
        copies.pop();
    }
}

// One copy for each delay, or none.
fn add_all(
    waiting: &mut BTreeMap<u32, Vec<[u8; 52]>>,
    alloc: Global,
    tick: u32,
    bytes: [u8; 52],
    delays: &[u8],
) -> Result<(), AllocError>
    requires tick { tick < 2 ^ 31 }
    requires delays { list_all is_delay delays.now ≡ true }
    ensures ends { PostEnds tick bytes delays.now (copies_of waiting.old.entries) (copies_of waiting.new.entries) result }
    ensures ordered { IsOrdered nat_cmp waiting.old → IsOrdered nat_cmp waiting.new }
{
    let [delay, later @ ..] = delays else {
        return Ok(());
    };
    let due = tick + u32::from(*delay);
    add(waiting, alloc, due, bytes)?;
    let result = add_all(waiting, alloc, tick, bytes, later);
    if result.is_err() {
        take_back(waiting, due);
    }
    result
}

/// Copies on their way, seen as the list of them: by their ticks, and those of one tick in the order of their posts.
#[derive(Drop)]
pub struct Link {
    alloc: Global,
    waiting: BTreeMap<u32, Vec<[u8; 52]>>,
    left: u64,
}

impl Model for Link {
    ghost use Rattle.std.specs.Prelude.{List};
    ghost use Rattle.lossy_link.specs.Arrivals.{Arrival};
    ghost use Rattle.lossy_link.specs.Waiting.{copies_of, IsKept};

    ghost Value = { List Arrival };

    ghost view = { λ link. copies_of link.waiting.entries };

    ghost invariant = { λ link. IsKept link.waiting.entries link.left };
}

impl Link {
    /// A link with no copy on its way.
    pub fn new(alloc: Global) -> Link
        ensures { result ≡ [] }
    {
        Link {
            alloc,
            waiting: BTreeMap::new(alloc),
            left: 0,
        }
    }

    /// Sends one copy of the bytes for each delay of the fate, so many ticks after this one.
    pub fn post(&mut self, tick: u32, bytes: [u8; 52], fate: Fate) -> Result<(), AllocError>
        requires { tick < 2 ^ 31 }
        ensures { PostEnds tick bytes fate self.old self.new result }
    {
        let delays = fate.delays();
        let left = self
            .left
            .checked_add(delays.len() as u64)
            .ok_or(AllocError)?;
        add_all(&mut self.waiting, self.alloc, tick, bytes, delays)?;
        self.left = left;
        Ok(())
    }

    /// Takes out the copies that are due at exactly this tick, in the order of their posts, each with the bytes of its post.
    pub fn due(&mut self, tick: u32) -> Result<Vec<[u8; 52]>, AllocError>
        ensures { DueEnds tick self.old self.new result }
    {
        match self.waiting.remove(&tick) {
            None => Ok(Vec::new(self.alloc)),
            Some(copies) => {
                self.left -= copies.len() as u64;
                Ok(copies)
            }
        }
    }

    /// The number of copies on their way.
    pub fn left(&self) -> u64
        ensures { result ≡ length self.now }
    {
        self.left
    }
}
