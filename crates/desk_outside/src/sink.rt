//! What takes the bytes of a file.

ghost use Rattle.std.specs.Prelude.{ℕ, List, IfOk};
ghost use Rattle.desk_outside.specs.Sink.{HasSome, Takes};

use std::alloc::AllocError;

/// What takes the bytes of a file, piece by piece.
pub trait Sink: Drop {
    /// It has taken these bytes.
    ghost has: { Self → List ℕ → Type 0 };

    /// Takes some more bytes. An error where memory runs out.
    fn take(self, bytes: &[u8]) -> Result<Self, AllocError>
        requires { HasSome has self }
        ensures { IfOk result (λ sink. Takes has self bytes.now sink) };
}

/// Hands all the bytes to a sink, in pieces of at most this many bytes, but of one byte at least. An error where memory runs out.
pub(crate) fn hand_over<S: Sink>(bytes: &[u8], piece_bytes: usize, sink: S) -> Result<S, AllocError>
    requires { HasSome S.has sink }
    ensures { IfOk result (λ full. Takes S.has sink bytes.now full) }
{
    let mut sink = sink;
    let mut rest = bytes;
    while !rest.is_empty() {
        let (piece, after) = rest.split_at(piece_bytes.clamp(1, rest.len()));
        sink = sink.take(piece)?;
        rest = after;
    }
    Ok(sink)
}
