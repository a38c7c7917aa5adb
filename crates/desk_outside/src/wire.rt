//! Lines that come in, bytes that are said, and a journal that is appended to.

ghost use Rattle.std.specs.Prelude.{◌≡◌, IfOk};
ghost use Rattle.desk_outside.specs.Wire.{WireView, OpenEnds, RecallEnds, HearEnds, DoneEnds, AppendEnds, SayEnds};
ghost use Rattle.desk_outside.specs.declared.wire.WireStep.TheVariants.{Emptied, Trimmed, Flushed};

use std::alloc::{AllocError, Global};
use std::marker::Model;
use thiserror::Error;

/// What comes next of lines.
#[derive(Clone, Copy, Debug, PartialEq, Eq)]
pub enum Coming {
    /// A line of at most 4,096 bytes.
    Line,
    /// A longer line, of which the first 4,096 bytes are told.
    TooLong,
    /// Bytes without a newline, which are no line, and nothing behind them; the first 4,096 of them are told.
    Rest,
    /// Nothing.
    End,
}

/// What is done where there is no journal of a name.
#[derive(Clone, Copy, Debug, PartialEq, Eq)]
pub enum Absent {
    /// An empty one is begun.
    Begun,
    /// It can't be opened.
    Refused,
}

/// Why a call was not done.
#[derive(Clone, Copy, Debug, PartialEq, Eq, Error)]
pub enum WireError {
    /// The outside failed, perhaps after some of the bytes.
    #[error("the outside failed")]
    Failed,
    /// Memory ran out.
    #[error("no memory")]
    Memory,
}

impl From<AllocError> for WireError {
    ghost use Rattle.std.specs.Prelude.{◌≡◌};
    ghost use Rattle.desk_outside.specs.declared.wire.WireError.TheVariants.{Memory};

    ghost from_gives = { λ _ e. e ≡ Memory };

    fn from(_: AllocError) -> Self {
        WireError::Memory
    }
}

/// The bytes in a step.
#[derive(Drop)]
pub struct StepBytes {
    bytes: Vec<u8>,
}

impl Model for StepBytes {
    ghost use Rattle.std.specs.Prelude.{List, ℕ};

    ghost Value = { List ℕ };

    ghost view = { λ bytes. bytes.bytes.items };
}

impl StepBytes {
    /// The bytes of a step; an error where memory runs out.
    pub(crate) fn new(alloc: Global, bytes: &[u8]) -> Result<StepBytes, AllocError>
        ensures { IfOk result (λ made. made ≡ bytes.now) }
    {
        Ok(StepBytes {
            bytes: bytes.to_vec(alloc)?,
        })
    }

    /// The bytes.
    pub fn bytes(&self) -> &[u8]
        ensures { result.now ≡ self.now }
    {
        &self.bytes
    }
}

/// A call that was not answered `Memory`, and what it gave or left.
#[derive(Drop)]
pub enum WireStep {
    /// The journal of this name was opened, and begins with these bytes.
    Opened { name: StepBytes, front: StepBytes },
    /// It was not.
    Unopened { name: StepBytes },
    /// This came next of the journal.
    Recalled { what: Coming, text: StepBytes },
    /// The journal could not be read.
    Unrecalled,
    /// The journal was emptied.
    Emptied { failed: bool },
    /// What the journal has behind what was recalled was cut off.
    Trimmed { failed: bool },
    /// These bytes were appended to the journal.
    Appended { bytes: StepBytes, failed: bool },
    /// What the journal has was brought to the disk.
    Flushed { failed: bool },
    /// This came next of the input.
    Heard { what: Coming, text: StepBytes },
    /// The input could not be read.
    Unheard,
    /// These bytes were said.
    Said { bytes: StepBytes, failed: bool },
}

/// Lines that come in, an output, and one journal. A call that is answered `Memory` has changed nothing.
pub trait Wire {
    /// The faults, the input, the journal and the steps, each where it is told.
    ghost view: { Self → WireView };

    /// Opens the journal of a name, and gives its first bytes, at most so many; what comes behind them is recalled next. From then on
    /// no other program can open it, and where another one has it open, this fails.
    fn open(
        &mut self,
        alloc: Global,
        name: &str,
        absent: Absent,
        most: usize,
    ) -> Result<Vec<u8>, WireError>
        ensures { OpenEnds name.now most (view self.old) (view self.new) result };

    /// Puts what comes next of the journal in place of what the line held, without its newline. A rest is not passed by.
    fn recall(&mut self, line: &mut Vec<u8>) -> Result<Coming, WireError>
        ensures { RecallEnds (view self.old) (view self.new) line.new.items result };

    /// Takes all bytes out of the journal.
    fn empty(&mut self) -> Result<(), WireError>
        ensures { DoneEnds Emptied (view self.old) (view self.new) result };

    /// Cuts off what the journal has behind what was recalled.
    fn trim(&mut self) -> Result<(), WireError>
        ensures { DoneEnds Trimmed (view self.old) (view self.new) result };

    /// Appends bytes to the journal, of which nothing is recalled from then on.
    fn append(&mut self, bytes: &[u8]) -> Result<(), WireError>
        ensures { AppendEnds bytes.now (view self.old) (view self.new) result };

    /// Has all that the journal has on the disk, and its name in its folder.
    fn flush(&mut self) -> Result<(), WireError>
        ensures { DoneEnds Flushed (view self.old) (view self.new) result };

    /// Puts what comes next of the input in place of what the line held, without its newline. A rest is not passed by.
    fn hear(&mut self, line: &mut Vec<u8>) -> Result<Coming, WireError>
        ensures { HearEnds (view self.old) (view self.new) line.new.items result };

    /// Prints the bytes, at once.
    fn say(&mut self, bytes: &[u8]) -> Result<(), WireError>
        ensures { SayEnds bytes.now (view self.old) (view self.new) result };
}
