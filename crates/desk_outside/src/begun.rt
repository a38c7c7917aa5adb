//! New files that a desk has begun.

ghost use Rattle.std.specs.Prelude.{◌≡◌, ◌++◌, ℕ, List, Bool, true, false, OnOk, OnErr};

use crate::{DeskError, Pieces};

/// Who may read a new file.
#[derive(Clone, Copy)]
pub enum Readers {
    /// Whoever may read any new file.
    Any,
    /// Its owner alone.
    Owner,
}

/// A new file that a desk has begun for a name. No name holds it until the desk commits it, and where it is let go before, nothing
/// of it stays. It remembers what failed, and then it is not committed.
pub trait BegunFile {
    /// The name for which it was begun.
    ghost name: { Self → List ℕ };

    /// It has these bytes, where that is told and nothing has failed.
    ghost has: { Self → List ℕ → Type 0 };

    /// Whether something has failed.
    ghost failed: { Self → Bool };

    /// Appends the bytes that are still to come, of which few are in memory at a time.
    fn append<P: Pieces>(&mut self, pieces: &mut P)
        requires { P.ready pieces.old }
        ensures name { name self.new ≡ name self.old }
        ensures has { (bytes : List ℕ) → has self.old bytes → has self.new (bytes ++ P.rest pieces.old) }
        ensures remembers { failed self.old ≡ true → failed self.new ≡ true };

    /// Has all that was appended on the disk, where nothing has failed.
    fn flush(&mut self) -> Result<(), DeskError>
        ensures name { name self.new ≡ name self.old }
        ensures has { (bytes : List ℕ) → has self.old bytes → has self.new bytes }
        ensures remembers { failed self.old ≡ true → failed self.new ≡ true }
        ensures done { OnOk result (failed self.new ≡ false) }
        ensures fails { OnErr result (failed self.new ≡ true) };

    /// Whether something has failed, so that the file will not be committed.
    fn has_failed(&self) -> bool
        ensures { result ≡ failed self.now };
}
