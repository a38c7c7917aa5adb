//! The rounds of eight ChaCha blocks side by side: each word of the state is a vector with a lane for each block.
ghost use Rattle.std.specs.Prelude.{◌≡◌, ℕ, ◌<◌, slice_index};
ghost use Rattle.rand_chacha.specs.Block.{add32, xor_rotate, quarter_round, column_round, diagonal_round};
ghost use Rattle.rand_chacha.specs.Lanes.{lane};

use std::simd::u32x8;

/// The sixteen words of the eight states.
pub(crate) type States = [u32x8; 16];

/// The eight words of the states' keys.
pub(crate) type Keys = [u32x8; 8];

// The exclusive or of the two, rotated to the left.
#[inline(always)]
fn mixed(word: u32x8, other: u32x8, bits: u32) -> u32x8
    requires { (0 < bits) × (bits < 32) }
    ensures { (j : ℕ) → j < 8 → slice_index result j ≡ xor_rotate (slice_index word j) (slice_index other j) bits }
{
    let both = word ^ other;
    (both << u32x8::splat(bits)) | (both >> u32x8::splat(32 - bits))
}

// A line of the quarter round: `addend` is added to `sum`, and the new sum is mixed into `word`.
#[inline(always)]
fn line(sum: u32x8, addend: u32x8, word: u32x8, bits: u32) -> (u32x8, u32x8)
    requires { (0 < bits) × (bits < 32) }
    ensures sum { (j : ℕ) → j < 8 → slice_index result.0 j ≡ add32 (slice_index sum j) (slice_index addend j) }
    ensures word { (j : ℕ) → j < 8 → slice_index result.1 j ≡ xor_rotate (slice_index word j) (add32 (slice_index sum j) (slice_index addend j)) bits }
{
    let sum = sum + addend;
    (sum, mixed(word, sum, bits))
}

// The quarter round (RFC 8439, 2.1).
#[inline(always)]
fn quarter(a: u32x8, b: u32x8, c: u32x8, d: u32x8) -> (u32x8, u32x8, u32x8, u32x8)
    ensures { (j : ℕ) → j < 8
        → (slice_index result.0 j, slice_index result.1 j, slice_index result.2 j, slice_index result.3 j)
        ≡ quarter_round (slice_index a j) (slice_index b j) (slice_index c j) (slice_index d j) }
{
    let (a, d) = line(a, b, d, 16);
    let (c, b) = line(c, d, b, 12);
    let (a, d) = line(a, b, d, 8);
    let (c, b) = line(c, d, b, 7);
    (a, b, c, d)
}

/// A round of each state: the quarter round on its columns.
#[inline(always)]
pub(crate) fn columns(x: States) -> States
    ensures { (j : ℕ) → j < 8 → lane j result ≡ column_round (lane j x) }
{
    let (a0, b0, c0, d0) = quarter(x[0], x[4], x[8], x[12]);
    let (a1, b1, c1, d1) = quarter(x[1], x[5], x[9], x[13]);
    let (a2, b2, c2, d2) = quarter(x[2], x[6], x[10], x[14]);
    let (a3, b3, c3, d3) = quarter(x[3], x[7], x[11], x[15]);
    [
        a0, a1, a2, a3, b0, b1, b2, b3, c0, c1, c2, c3, d0, d1, d2, d3,
    ]
}

/// A round of each state: the quarter round on its diagonals.
#[inline(always)]
pub(crate) fn diagonals(x: States) -> States
    ensures { (j : ℕ) → j < 8 → lane j result ≡ diagonal_round (lane j x) }
{
    let (a0, b1, c2, d3) = quarter(x[0], x[5], x[10], x[15]);
    let (a1, b2, c3, d0) = quarter(x[1], x[6], x[11], x[12]);
    let (a2, b3, c0, d1) = quarter(x[2], x[7], x[8], x[13]);
    let (a3, b0, c1, d2) = quarter(x[3], x[4], x[9], x[14]);
    [
        a0, a1, a2, a3, b0, b1, b2, b3, c0, c1, c2, c3, d0, d1, d2, d3,
    ]
}
