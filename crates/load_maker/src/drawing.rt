//! Keys and readings, drawn from a stream of words.
ghost use Rattle.std.specs.Prelude.{◌≡◌, ◌+◌, ◌<◌, ◌^◌};
ghost use Rattle.load_maker.specs.Drawing.{ahead, key_drawn, reading_by, reading_drawn, stream_at};

use rand_chacha::ChaCha20Rng;
use rand_core::SeedableRng;
use rand_core::utils::NextWord;

/// The start of a stream of the key that is the seed and 24 zero bytes.
pub fn stream_of(seed: u64, number: u64) -> ChaCha20Rng
    ensures { result ≡ stream_at seed number 0 }
{
    let mut key = [0; 32];
    key[..8].copy_from_slice(&seed.to_le_bytes());
    let mut stream = ChaCha20Rng::from_seed(key);
    stream.set_stream(number);
    stream
}

/// The bytes of the next eight words.
pub fn draw_key(stream: &mut ChaCha20Rng) -> [u8; 32]
    requires { stream.old.word_pos + 8 < 2 ^ 68 }
    ensures key { result ≡ key_drawn stream.old }
    ensures after { stream.new ≡ ahead stream.old 8 }
{
    let mut key = [0; 32];
    for place in 0..8 {
        let word = stream.next_word();
        key[4 * place..4 * place + 4].copy_from_slice(&word.to_le_bytes());
    }
    key
}

/// The reading that two words give: one in 50 is absent, and no other is above 4999 watt-hours.
#[tactic(auto, unfolding(crate::specs::Drawing::reading_by))]
fn reading_by(value: u32, presence: u32) -> Option<u32>
    ensures { result ≡ reading_by value presence }
{
    if presence % 50 == 0 {
        return None;
    }
    Some(value % 5000)
}

/// The reading that the next two words give.
pub fn draw_reading(stream: &mut ChaCha20Rng) -> Option<u32>
    requires { stream.old.word_pos + 2 < 2 ^ 68 }
    ensures reading { result ≡ reading_drawn stream.old }
    ensures after { stream.new ≡ ahead stream.old 2 }
{
    let value = stream.next_word();
    let presence = stream.next_word();
    reading_by(value, presence)
}
