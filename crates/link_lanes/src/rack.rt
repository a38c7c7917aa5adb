//! The rack: lanes that hang for spans of ticks, and the posts that passed them.

ghost use Rattle.std.specs.Prelude.{◌≡◌, ◌<◌, ◌≤◌, ◌+◌, ◌^◌, ◌++◌, [], ◌∷◌, nat_le, length, map, filter, IsTrue};
ghost use Rattle.link_lanes.specs.Lanes.{answer_at, fate_through, after_post, lasts};
ghost use Rattle.link_lanes.specs.Counts.{slot, are_up_to};
ghost use Rattle.link_lanes.specs.Racks.{slots, posts_of, spare_of, HasRoom, HangEnds, ReserveEnds};

use crate::{Fate, Lane, Post};
use group_plan::Tag;
use std::alloc::{AllocError, Global};

// A lane that hangs from one tick to another, both included.
#[derive(Drop)]
struct Hung {
    lane: Box<dyn Lane>,
    from: u32,
    to: u32,
}

// The lane's answer where its span holds the tick, and else what came.
fn ask(hung: &mut Hung, tick: u32, tag: Tag, coming: Fate) -> Fate
    requires { (meaning hung.old.lane).count < 2 ^ 63 }
    ensures fate { result ≡ answer_at tick tag (slot (meaning hung.old.lane) hung.old.from hung.old.to) coming }
    ensures after { slot (meaning hung.new.lane) hung.new.from hung.new.to ≡ after_post tick (slot (meaning hung.old.lane) hung.old.from hung.old.to) }
{
    if hung.from <= tick && tick <= hung.to {
        hung.lane.fate(tag, coming)
    } else {
        coming
    }
}

// Asks each lane in turn, with the fate so far.
fn ask_all(hung: &mut Vec<Hung>, tick: u32, tag: Tag) -> Fate
    requires { IsTrue (are_up_to (2 ^ 62 + 2 ^ 32) (map (λ h. slot (meaning h.lane) h.from h.to) hung.old.items)) }
    ensures fate { result ≡ fate_through tick tag (map (λ h. slot (meaning h.lane) h.from h.to) hung.old.items) (1 ∷ []) }
    ensures after { map (λ h. slot (meaning h.lane) h.from h.to) hung.new.items ≡ map (after_post tick) (map (λ h. slot (meaning h.lane) h.from h.to) hung.old.items) }
{
    let mut fate = Fate::once(1);
    for at in 0..hung.len() {
        fate = ask(&mut hung[at], tick, tag, fate);
    }
    fate
}

/// Lanes that hang for spans of ticks, and the posts to which they gave fates.
#[derive(Drop)]
pub struct Rack {
    hung: Vec<Hung>,
    posts: Vec<Post>,
}

impl Rack {
    /// A rack without lanes.
    pub(crate) fn new(alloc: Global) -> Rack
        ensures lanes { slots (λ b. meaning b) result ≡ [] }
        ensures posts { posts_of result ≡ [] }
    {
        Rack {
            hung: Vec::new(alloc),
            posts: Vec::new(alloc),
        }
    }

    /// Hangs a lane behind the others from one tick to another, both included. Want of memory hands it back.
    pub fn hang(&mut self, lane: Box<dyn Lane>, from: u32, to: u32) -> Result<(), Box<dyn Lane>>
        requires count { (meaning lane).count < 2 ^ 62 }
        requires room { HasRoom (λ b. meaning b) self.old }
        ensures ends { HangEnds (slots (λ b. meaning b) self.old) lane (slot (meaning lane) from to) (slots (λ b. meaning b) self.new) result }
        ensures room { HasRoom (λ b. meaning b) self.new }
        ensures posts { posts_of self.new ≡ posts_of self.old }
        ensures spare { spare_of self.old ≤ spare_of self.new }
    {
        match self.hung.push(Hung { lane, from, to }) {
            Ok(()) => Ok(()),
            Err(refused) => {
                let Hung {
                    lane,
                    from: _,
                    to: _,
                } = refused.value;
                Err(lane)
            }
        }
    }

    /// Makes room for so many posts.
    pub fn reserve(&mut self, posts: u64) -> Result<(), AllocError>
        ensures ends { ReserveEnds posts (spare_of self.new) result }
        ensures lanes { slots (λ b. meaning b) self.new ≡ slots (λ b. meaning b) self.old }
        ensures posts { posts_of self.new ≡ posts_of self.old }
        ensures spare { spare_of self.old ≤ spare_of self.new }
        ensures room { HasRoom (λ b. meaning b) self.old → HasRoom (λ b. meaning b) self.new }
    {
        self.posts.reserve(posts as usize)
    }

    /// How many posts have room.
    pub fn spare(&self) -> u64
        ensures { result ≡ spare_of self.now }
    {
        (self.posts.capacity() - self.posts.len()) as u64
    }

    /// Gives a post its fate: one copy of delay 1, as each lane whose span holds the tick changes it.
    pub fn pass(&mut self, tick: u32, tag: Tag) -> Fate
        requires spare { 1 ≤ spare_of self.old }
        requires few { length (posts_of self.old) < 2 ^ 32 }
        requires room { HasRoom (λ b. meaning b) self.old }
        ensures fate { result ≡ fate_through tick tag (slots (λ b. meaning b) self.old) (1 ∷ []) }
        ensures posts { posts_of self.new ≡ posts_of self.old ++ record { tick = tick; tag = tag; fate = result } ∷ [] }
        ensures lanes { slots (λ b. meaning b) self.new ≡ map (after_post tick) (slots (λ b. meaning b) self.old) }
        ensures room { HasRoom (λ b. meaning b) self.new }
        ensures spare { spare_of self.old ≤ spare_of self.new + 1 }
    {
        let fate = ask_all(&mut self.hung, tick, tag);
        self.posts.push(Post { tick, tag, fate }).unwrap();
        fate
    }

    /// Drops the lanes whose span ended before the tick.
    pub fn retire(&mut self, tick: u32)
        ensures lanes { slots (λ b. meaning b) self.new ≡ filter (lasts tick) (slots (λ b. meaning b) self.old) }
        ensures posts { posts_of self.new ≡ posts_of self.old }
        ensures spare { spare_of self.old ≤ spare_of self.new }
        ensures room { HasRoom (λ b. meaning b) self.old → HasRoom (λ b. meaning b) self.new }
    {
        self.hung.retain(
            |h: &Hung| -> bool
                ensures { result ≡ nat_le tick h.now.to }
            { tick <= h.to },
        );
    }

    /// The posts so far, each with its fate.
    pub fn posts(&self) -> &[Post]
        ensures { result.now ≡ posts_of self.now }
    {
        &self.posts
    }
}
