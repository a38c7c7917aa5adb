//! The word of one register.
ghost use Rattle.std.specs.Prelude.{◌≡◌, ◌+◌, ◌*◌, ◌^◌, ◌<◌};
ghost use Rattle.register_words.specs.Words.{register_word};

use mod_word::Word;
use rand_chacha::ChaCha20Rng;
use rand_core::SeedableRng;
use rand_core::utils::NextWord;

// A word of its two halves.
#[inline(always)]
fn joined(low: u32, high: u32) -> u64
    ensures { result ≡ low + 2 ^ 32 * high }
{
    u64::from(low) | (u64::from(high) << 32)
}

// The words at places 2k and 2k + 1 of the stream that the round numbers.
#[tactic(auto, unfolding(chacha_lanes::specs::Stream::word_of_block))]
pub(crate) fn word_of_register(key: &[u8; 32], round: u32, register: u8) -> Word
    ensures { result ≡ register_word key.now round register }
{
    let mut stream = ChaCha20Rng::from_seed(*key);
    stream.set_stream(u64::from(round));
    stream.set_word_pos(2 * u128::from(register));
    let low = stream.next_word();
    let high = stream.next_word();
    Word(joined(low, high))
}

/// The word of a register, 0 to 7, of a key in a round: the words at places 2k and 2k + 1, the lower half first, of the ChaCha20
/// stream (RFC 8439, with a stream number of 64 bits) that the round numbers.
pub fn register_word(key: &[u8; 32], round: u32, register: u8) -> Word
    requires { register < 8 }
    ensures { result ≡ register_word key.now round register }
{
    word_of_register(key, round, register)
}
