//! The wire in memory, which tells everything and fails where it is told to.

ghost use Rattle.std.specs.Prelude.{◌≡◌, ◌≤◌, ◌<◌, ◌^◌, length, IfOk, IfSome, Some};
ghost use Rattle.desk_outside.specs.declared.wire.WireStep.TheVariants.{Emptied, Trimmed, Flushed};
ghost use Rattle.desk_outside.specs.Wire.{OpenEnds, RecallEnds, HearEnds, DoneEnds, AppendEnds, SayEnds, TakesNext, newline_in};

use crate::memory::Turns;
use crate::{Absent, Coming, StepBytes, Wire, WireError, WireStep};
use std::alloc::{AllocError, Global};

// The most bytes of a line.
const MOST_LINE: usize = 4096;

/// A wire in memory, with an input and a journal. It fails the calls that it is told to fail.
#[derive(Drop)]
pub struct MemoryWire {
    alloc: Global,
    input: Vec<u8>,
    // How many bytes of the input were heard.
    heard: usize,
    journal: Vec<u8>,
    // How many bytes of the journal were recalled.
    recalled: usize,
    steps: Vec<WireStep>,
    turns: Turns,
    ghost heard_within: { heard ≤ length input.items },
    ghost recalled_within: { recalled ≤ length journal.items },
}

// The place of the first newline.
fn newline_in(bytes: &[u8]) -> Option<usize>
    ensures { result ≡ newline_in bytes.now }
{
    bytes.iter().position(|byte| *byte == b'\n')
}

// Puts what comes next of the bytes in place of what the line held, and tells how many bytes that takes.
fn next_line(line: &mut Vec<u8>, bytes: &[u8]) -> Result<(Coming, usize), AllocError>
    ensures { IfOk result (λ next. TakesNext bytes.now line.new.items next.0 next.1) }
{
    line.clear();
    match newline_in(bytes) {
        None => {
            line.extend_from_slice(&bytes[..bytes.len().min(MOST_LINE)])?;
            let what = if bytes.is_empty() {
                Coming::End
            } else {
                Coming::Rest
            };
            Ok((what, 0))
        }
        Some(at) => {
            line.extend_from_slice(&bytes[..at.min(MOST_LINE)])?;
            let what = if at <= MOST_LINE {
                Coming::Line
            } else {
                Coming::TooLong
            };
            Ok((what, at + 1))
        }
    }
}

impl MemoryWire {
    ghost use Rattle.desk_outside.specs.MemoryWires.{view_of, new_view, turns_of};

    /// A wire with this input and this journal. It fails the calls with these numbers, which count from 0.
    pub fn new(failing: Vec<u64>, input: Vec<u8>, journal: Vec<u8>) -> MemoryWire
        ensures view { view_of result ≡ new_view input.items journal.items }
        ensures turns { turns_of result ≡ record { failing = failing.items; next = 0; faults = 0 } }
    {
        let alloc = *failing.allocator();
        MemoryWire {
            alloc,
            input,
            heard: 0,
            journal,
            recalled: 0,
            steps: Vec::new(alloc),
            turns: Turns {
                failing,
                next: 0,
                faults: 0,
            },
        }
    }

    /// What the journal has.
    pub fn journal(&self) -> &[u8]
        ensures { IfSome (view_of self.now).journal (λ source. source.bytes ≡ result.now) }
    {
        &self.journal
    }

    /// The calls, the earliest first, but for those that were answered `Memory`.
    pub fn steps(&self) -> &[WireStep]
        ensures { (view_of self.now).steps ≡ Some result.now }
    {
        &self.steps
    }

    /// How many calls failed, which stays at 2^64 - 1 once it is there.
    pub fn faults(&self) -> u64
        ensures { result ≡ (view_of self.now).faults }
    {
        self.turns.faults
    }
}

#[tactic(auto, unfolding(crate::specs::Wire::after_step))]
impl Wire for MemoryWire {
    ghost use Rattle.desk_outside.specs.MemoryWires.{view_of, is_next_failing, FailsWhere};

    ghost view = { view_of };

    fn open(
        &mut self,
        alloc: Global,
        name: &str,
        _absent: Absent,
        most: usize,
    ) -> Result<Vec<u8>, WireError>
        ensures ends { OpenEnds name.now most (view_of self.old) (view_of self.new) result }
        ensures fails { FailsWhere (is_next_failing self.old) result }
    {
        let own = StepBytes::new(self.alloc, name.as_bytes())?;
        let front = &self.journal[..self.journal.len().min(most)];
        let told = front.to_vec(alloc)?;
        let kept = StepBytes::new(self.alloc, front)?;
        self.steps.reserve(1)?;
        if self.turns.take(false) {
            self.steps.push(WireStep::Unopened { name: own }).unwrap();
            return Err(WireError::Failed);
        }
        self.recalled = told.len();
        let step = WireStep::Opened {
            name: own,
            front: kept,
        };
        self.steps.push(step).unwrap();
        Ok(told)
    }

    fn recall(&mut self, line: &mut Vec<u8>) -> Result<Coming, WireError>
        ensures ends { RecallEnds (view_of self.old) (view_of self.new) line.new.items result }
        ensures fails { FailsWhere (is_next_failing self.old) result }
    {
        let (what, taken) = next_line(line, &self.journal[self.recalled..])?;
        let text = StepBytes::new(self.alloc, line)?;
        self.steps.reserve(1)?;
        if self.turns.take(false) {
            self.steps.push(WireStep::Unrecalled).unwrap();
            return Err(WireError::Failed);
        }
        self.recalled += taken;
        self.steps.push(WireStep::Recalled { what, text }).unwrap();
        Ok(what)
    }

    fn empty(&mut self) -> Result<(), WireError>
        ensures ends { DoneEnds Emptied (view_of self.old) (view_of self.new) result }
        ensures fails { FailsWhere (is_next_failing self.old) result }
    {
        self.steps.reserve(1)?;
        let failed = self.turns.take(false);
        self.steps.push(WireStep::Emptied { failed }).unwrap();
        if failed {
            return Err(WireError::Failed);
        }
        self.journal.clear();
        self.recalled = 0;
        Ok(())
    }

    fn trim(&mut self) -> Result<(), WireError>
        ensures ends { DoneEnds Trimmed (view_of self.old) (view_of self.new) result }
        ensures fails { FailsWhere (is_next_failing self.old) result }
    {
        self.steps.reserve(1)?;
        let failed = self.turns.take(false);
        self.steps.push(WireStep::Trimmed { failed }).unwrap();
        if failed {
            return Err(WireError::Failed);
        }
        self.journal.truncate(self.recalled);
        Ok(())
    }

    fn append(&mut self, bytes: &[u8]) -> Result<(), WireError>
        ensures ends { AppendEnds bytes.now (view_of self.old) (view_of self.new) result }
        ensures fails { FailsWhere (is_next_failing self.old) result }
    {
        let kept = StepBytes::new(self.alloc, bytes)?;
        let nothing = StepBytes::new(self.alloc, b"")?;
        self.journal.reserve(bytes.len())?;
        self.steps.reserve(1)?;
        if self.turns.take(false) {
            let step = WireStep::Appended {
                bytes: nothing,
                failed: true,
            };
            self.recalled = self.journal.len();
            self.steps.push(step).unwrap();
            return Err(WireError::Failed);
        }
        self.journal.extend_from_slice(bytes).unwrap();
        self.recalled = self.journal.len();
        let step = WireStep::Appended {
            bytes: kept,
            failed: false,
        };
        self.steps.push(step).unwrap();
        Ok(())
    }

    fn flush(&mut self) -> Result<(), WireError>
        ensures ends { DoneEnds Flushed (view_of self.old) (view_of self.new) result }
        ensures fails { FailsWhere (is_next_failing self.old) result }
    {
        self.steps.reserve(1)?;
        let failed = self.turns.take(false);
        self.steps.push(WireStep::Flushed { failed }).unwrap();
        if failed {
            return Err(WireError::Failed);
        }
        Ok(())
    }

    fn hear(&mut self, line: &mut Vec<u8>) -> Result<Coming, WireError>
        ensures ends { HearEnds (view_of self.old) (view_of self.new) line.new.items result }
        ensures fails { FailsWhere (is_next_failing self.old) result }
    {
        let (what, taken) = next_line(line, &self.input[self.heard..])?;
        let text = StepBytes::new(self.alloc, line)?;
        self.steps.reserve(1)?;
        if self.turns.take(false) {
            self.steps.push(WireStep::Unheard).unwrap();
            return Err(WireError::Failed);
        }
        self.heard += taken;
        self.steps.push(WireStep::Heard { what, text }).unwrap();
        Ok(what)
    }

    fn say(&mut self, bytes: &[u8]) -> Result<(), WireError>
        ensures ends { SayEnds bytes.now (view_of self.old) (view_of self.new) result }
        ensures fails { FailsWhere (is_next_failing self.old) result }
    {
        let kept = StepBytes::new(self.alloc, bytes)?;
        let nothing = StepBytes::new(self.alloc, b"")?;
        self.steps.reserve(1)?;
        let failed = self.turns.take(false);
        let bytes = if failed { nothing } else { kept };
        self.steps.push(WireStep::Said { bytes, failed }).unwrap();
        if failed {
            return Err(WireError::Failed);
        }
        Ok(())
    }
}
