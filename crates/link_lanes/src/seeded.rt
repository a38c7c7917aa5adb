//! The lane `seeded`, which draws fates from a seed.

ghost use Rattle.std.specs.Prelude.{◌≡◌, ◌+◌, ◌<◌, ◌^◌, ◌∷◌, [], None, slice_index};
ghost use Rattle.std.specs.Option.{ForSome};
ghost use Rattle.rand_chacha.specs.ChaCha.{word_at};
ghost use Rattle.link_lanes.specs.Kinds.{chances_of, stream_at, drawn_unless_lost};

use crate::texts::quarters;
use crate::{Fate, Lane, LaneError};
use field_texts::{read_number, read_number_within};
use group_plan::Tag;
use rand_chacha::ChaCha20Rng;
use rand_core::SeedableRng;
use rand_core::utils::NextWord;
use std::alloc::Global;
use std::marker::Model;

// The seed, and in how many of 1000 posts all copies are lost or a second one is made. A copy's
// delay goes up by less than the spread.
#[derive(Clone, Copy)]
struct Chances {
    seed: u64,
    loss: u32,
    again: u32,
    spread: u32,
}

impl Model for Chances {
    ghost use Rattle.std.specs.Prelude.{◌≤◌};
    ghost use Rattle.link_lanes.specs.Kinds.{Chances};

    ghost Value = { Chances };

    ghost view = { λ c. record { seed = c.seed; loss = c.loss; again = c.again; spread = c.spread } };

    ghost invariant = { λ c. (1 ≤ c.spread) × (c.spread ≤ 16) };

    ghost inverse = { λ c. record { seed = c.seed; loss = c.loss; again = c.again; spread = c.spread } };
}

// The seed and the chances that an argument spells.
fn read_chances(arg: &str) -> Option<Chances>
    ensures { result ≡ chances_of arg.now }
{
    let (seed, loss, again, spread) = quarters(arg.as_bytes(), b':')?;
    let seed = read_number(seed)?;
    let loss = read_number_within(loss, 0, 1001)? as u32;
    let again = read_number_within(again, 0, 1001)? as u32;
    let spread = read_number_within(spread, 1, 17)? as u32;
    Some(Chances {
        seed,
        loss,
        again,
        spread,
    })
}

// The ChaCha20 stream of a seed.
fn stream_of(seed: u64) -> ChaCha20Rng
    ensures { result ≡ stream_at seed 0 }
{
    let mut key = [0; 32];
    key[..8].copy_from_slice(&seed.to_le_bytes());
    ChaCha20Rng::from_seed(key)
}

// The next four words.
fn four_words(stream: &mut ChaCha20Rng) -> [u32; 4]
    requires { stream.old.word_pos + 4 < 2 ^ 68 }
    ensures words { result ≡ word_at 10 stream.old.key stream.old.stream stream.old.word_pos
        ∷ word_at 10 stream.old.key stream.old.stream (stream.old.word_pos + 1)
        ∷ word_at 10 stream.old.key stream.old.stream (stream.old.word_pos + 2)
        ∷ word_at 10 stream.old.key stream.old.stream (stream.old.word_pos + 3) ∷ [] }
    ensures after { stream.new ≡ record stream.old { word_pos = stream.old.word_pos + 4 } }
{
    let first = stream.next_word();
    let second = stream.next_word();
    let third = stream.next_word();
    let fourth = stream.next_word();
    [first, second, third, fourth]
}

// The fate that four words of the stream give a post.
fn draw_fate(chances: Chances, words: [u32; 4], coming: Fate) -> Fate
    ensures { result ≡ drawn_unless_lost chances (slice_index words 0) (slice_index words 1) (slice_index words 2) (slice_index words 3) coming }
{
    let [lost, delay, again, later] = words;
    if coming.delays().is_empty() || lost % 1000 < chances.loss {
        return Fate::lost();
    }
    let first = 1 + (delay % chances.spread) as u8;
    if again % 1000 >= chances.again {
        return Fate::once(first);
    }
    let second = first + (later % chances.spread) as u8;
    Fate::twice(first, second.min(16))
}

// The chances, and the stream at the words of the next post.
#[derive(Drop)]
struct Draw {
    chances: Chances,
    stream: ChaCha20Rng,
}

/// The lane `seeded`: copies are lost, delayed and doubled by the words of a ChaCha20 stream.
/// Its argument is `SEED:LOSS:REPEAT:SPREAD`: a seed below 2^64, the chances in 1000 that all copies
/// are lost and that there is a second one, and the number of delays that a copy may have.
#[derive(Drop)]
pub struct Seeded {
    draw: Option<Draw>,
    count: u64,
    ghost at_words: { ForSome draw (λ d. d.stream ≡ stream_at d.chances.seed count) },
}

impl Seeded {
    ghost use Rattle.std.specs.Prelude.{◌≡◌, None};
    ghost use Rattle.link_lanes.specs.Kinds.{seeded_by};
    ghost use Rattle.link_lanes.specs.MadeLanes.{seeded_lane};

    /// A lane with no post and no argument yet.
    pub fn new() -> Seeded
        ensures { seeded_lane result ≡ seeded_by 0 None }
    {
        Seeded {
            draw: None,
            count: 0,
        }
    }
}

impl Lane for Seeded {
    ghost use Rattle.link_lanes.specs.MadeLanes.{seeded_lane};

    ghost meaning = { seeded_lane };

    fn name(&self) -> &str {
        "seeded"
    }

    fn load(&mut self, _alloc: Global, arg: &str) -> Result<(), LaneError> {
        let Some(chances) = read_chances(arg) else {
            return Err(LaneError::Refused);
        };
        self.draw = Some(Draw {
            chances,
            stream: stream_of(chances.seed),
        });
        self.count = 0;
        Ok(())
    }

    fn fate(&mut self, _tag: Tag, coming: Fate) -> Fate {
        self.count += 1;
        match &mut self.draw {
            None => coming,
            Some(draw) => {
                let words = four_words(&mut draw.stream);
                draw_fate(draw.chances, words, coming)
            }
        }
    }
}
