//! Bytes that are made a piece at a time.

ghost use Rattle.std.specs.Prelude.{◌≡◌, ◌++◌, ℕ, List, [], OnOk, IfOk, ⊤};
ghost use Rattle.std.specs.Io.KnownBytes.{Appends};

use std::alloc::{AllocError, Global};
use std::io;
use std::io::Write;

/// Bytes that are made a piece at a time, so that they need not be in memory all at once.
pub trait Pieces {
    /// The bytes that are still to come.
    ghost rest: { Self → List ℕ };

    /// What has to hold so that the next piece can be made.
    ghost ready: { Self → Type 0 };

    /// Puts the next bytes in place of what the piece held. It is empty only where none are left. After an error nothing
    /// is known of the bytes that are still to come.
    fn next(&mut self, piece: &mut Vec<u8>) -> Result<(), AllocError>
        requires { ready self.old }
        ensures ready { ready self.new }
        ensures next { OnOk result (rest self.old ≡ piece.new.items ++ rest self.new) }
        ensures end { OnOk result (piece.new.items ≡ [] → rest self.new ≡ []) };
}

// The most bytes in a piece of a slice.
const PIECE_BYTES: usize = 1 << 16;

/// The bytes of a slice, in pieces of 64 KB.
#[derive(Drop)]
pub struct Slice<'a> {
    pub rest: &'a [u8],
}

impl Pieces for Slice<'_> {
    ghost rest = { λ s. s.rest.now };

    ghost ready = { λ s. ⊤ };

    #[tactic(auto, using(crate::proofs::Written::none_left))]
    fn next(&mut self, piece: &mut Vec<u8>) -> Result<(), AllocError> {
        let (front, after) = self.rest.split_at(self.rest.len().min(PIECE_BYTES));
        piece.clear();
        piece.extend_from_slice(front)?;
        self.rest = after;
        Ok(())
    }
}

/// Writes all the bytes that are still to come, one piece after another. An error is that of a write, or tells that there was no
/// memory for a piece.
pub fn write_pieces<W: Write, P: Pieces>(
    alloc: Global,
    out: &mut W,
    pieces: &mut P,
) -> io::Result<()>
    requires { P.ready pieces.old }
    ensures { OnOk result (Appends (W.contents out.old) (W.contents out.new) (P.rest pieces.old)) }
{
    let mut piece = Vec::new(alloc);
    loop {
        pieces.next(&mut piece)?;
        if piece.is_empty() {
            return Ok(());
        }
        out.write_all(&piece)?;
    }
}
