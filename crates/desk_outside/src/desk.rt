//! The outside, as a program sees it.

ghost use Rattle.std.specs.Prelude.{◌≡◌, ◌≤◌, ◌<◌, ◌^◌, ℕ, [], true, IfOk, IsErrOf};
ghost use Rattle.desk_outside.specs.Begun.{CommitEnds, IsTaken};
ghost use Rattle.desk_outside.specs.Sink.{HasSome};
ghost use Rattle.desk_outside.specs.Desk.{View, FetchEnds, PourEnds, SayEnds, ComplainEnds, Rose};

use crate::{BegunFile, Readers, Sink};
use std::alloc::{AllocError, Global};
use std::marker::Model;
use thiserror::Error;

/// A desk's four kinds of calls.
#[derive(Clone, Copy)]
pub enum DeskKind {
    /// The bytes under a name were asked for.
    Fetch,
    /// A new file was put under a name.
    Put,
    /// Bytes were printed.
    Say,
    /// Bytes were printed as a complaint.
    Complain,
}

/// The name in a call, which is empty for say and complain.
#[derive(Drop)]
pub struct CallName {
    text: String,
}

impl Model for CallName {
    ghost use Rattle.std.specs.Prelude.{List, ℕ, string_bytes};

    ghost Value = { List ℕ };

    ghost view = { λ name. string_bytes name.text };
}

impl CallName {
    /// The name of a call; an error where memory runs out.
    pub(crate) fn new(alloc: Global, name: &str) -> Result<CallName, AllocError>
        ensures { IfOk result (λ made. made ≡ name.now) }
    {
        Ok(CallName {
            text: String::from_str(alloc, name)?,
        })
    }

    /// The bytes of the name.
    pub fn bytes(&self) -> &[u8]
        ensures { result.now ≡ self.now }
    {
        self.text.as_bytes()
    }
}

/// A call in a desk's list of calls.
#[derive(Drop)]
pub struct DeskCall {
    pub kind: DeskKind,
    pub name: CallName,
    /// Whether it was answered `Failed`.
    pub failed: bool,
}

/// Why a fetch or a pour gave no bytes.
#[derive(Clone, Copy, Debug, PartialEq, Eq, Error)]
pub enum FetchError {
    /// The outside failed, or nothing has the name.
    #[error("cannot read")]
    Failed,
    /// There are more bytes than were asked for; the number is one above those.
    #[error("too long, with {0} bytes or more")]
    TooLong(u64),
    /// Memory ran out.
    #[error("no memory")]
    Memory,
}

/// Why a put, a say or a complaint was not done. A put is the commit of a file.
#[derive(Clone, Copy, Debug, PartialEq, Eq, Error)]
pub enum DeskError {
    /// The outside failed, perhaps after some of the bytes.
    #[error("cannot write")]
    Failed,
    /// Memory ran out.
    #[error("no memory")]
    Memory,
}

/// Named bytes, an output and a place for complaints.
pub trait Desk {
    /// A new file that the desk has begun.
    type Begun: BegunFile + Send + Drop;

    /// What the names hold, what was said and complained, and the calls, each where it is told.
    ghost view: { Self → View };

    /// How often the outside has failed, which stays at 2^64 - 1 once it is there.
    ghost faults: { Self → ℕ };

    /// The bytes under the name, of which there may be at most `most`.
    fn fetch(&mut self, alloc: Global, name: &str, most: u64) -> Result<Vec<u8>, FetchError>
        ensures ends { FetchEnds name.now most (view self.old) (view self.new) result }
        ensures later { faults self.old ≤ faults self.new }
        ensures cause { IsErrOf result FetchError.Failed
            → Rose (faults self.old) (faults self.new) };

    /// Has a sink take the bytes under the name, of which there may be at most `most`, piece by piece.
    fn pour<S: Sink>(
        &mut self,
        alloc: Global,
        name: &str,
        most: u64,
        sink: S,
    ) -> Result<S, FetchError>
        requires { HasSome S.has sink }
        ensures ends { PourEnds S.has name.now most (view self.old) (view self.new) sink result }
        ensures later { faults self.old ≤ faults self.new }
        ensures cause { IsErrOf result FetchError.Failed
            → Rose (faults self.old) (faults self.new) };

    /// Begins a new file for a name, which holds what it held. Where the name can't be written, the file has failed. An error where
    /// memory runs out.
    fn begin(&mut self, name: &str, readers: Readers) -> Result<Self::Begun, AllocError>
        ensures same_view { view self.new ≡ view self.old }
        ensures same_faults { faults self.new ≡ faults self.old }
        ensures begun { IfOk result (λ file. (Self.Begun.name file ≡ name.now) × Self.Begun.has file []) };

    /// Begins a new file for a name that is to hold nothing until then. Where the name holds something or can't be written, the file has
    /// failed. An error where memory runs out.
    fn begin_new(&mut self, name: &str, readers: Readers) -> Result<Self::Begun, AllocError>
        ensures same_view { view self.new ≡ view self.old }
        ensures same_faults { faults self.new ≡ faults self.old }
        ensures begun { IfOk result (λ file. (Self.Begun.name file ≡ name.now) × Self.Begun.has file []) }
        ensures taken { IfOk result (λ file. IsTaken ((view self.old).held name.now) → Self.Begun.failed file ≡ true) };

    /// Puts what a begun file has under its name, in place of what that held: all of it is on the disk before the name has it. Every
    /// other name holds what it held. So a file that was fetched, begun or put is not written over by another name that leads to it:
    /// that commit is answered `Failed`.
    fn commit(&mut self, file: Self::Begun) -> Result<(), DeskError>
        ensures ends { CommitEnds (Self.Begun.has file) (Self.Begun.failed file) (Self.Begun.name file) (view self.old) (view self.new) result }
        ensures later { faults self.old ≤ faults self.new }
        ensures cause { IsErrOf result DeskError.Failed
            → Rose (faults self.old) (faults self.new) };

    /// Prints the bytes.
    fn say(&mut self, bytes: &[u8]) -> Result<(), DeskError>
        ensures ends { SayEnds bytes.now (view self.old) (view self.new) result }
        ensures later { faults self.old ≤ faults self.new }
        ensures cause { IsErrOf result DeskError.Failed
            → Rose (faults self.old) (faults self.new) };

    /// Prints the bytes as a complaint.
    fn complain(&mut self, bytes: &[u8]) -> Result<(), DeskError>
        ensures ends { ComplainEnds bytes.now (view self.old) (view self.new) result }
        ensures later { faults self.old ≤ faults self.new }
        ensures cause { IsErrOf result DeskError.Failed
            → Rose (faults self.old) (faults self.new) };

    ghost counted: { (desk : Self) → faults desk < 2 ^ 64 };
}

impl From<AllocError> for FetchError {
    ghost use Rattle.std.specs.Prelude.{◌≡◌};
    ghost use Rattle.desk_outside.specs.declared.desk.FetchError.TheVariants.{Memory};

    ghost from_gives = { λ _ e. e ≡ Memory };

    fn from(_: AllocError) -> Self {
        FetchError::Memory
    }
}

impl From<AllocError> for DeskError {
    ghost use Rattle.std.specs.Prelude.{◌≡◌};
    ghost use Rattle.desk_outside.specs.declared.desk.DeskError.TheVariants.{Memory};

    ghost from_gives = { λ _ e. e ≡ Memory };

    fn from(_: AllocError) -> Self {
        DeskError::Memory
    }
}
