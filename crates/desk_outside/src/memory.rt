//! The desk in memory, which tells everything and fails where it is told to.

ghost use Rattle.std.specs.Prelude.{◌≡◌, ◌≤◌, ◌<◌, ◌^◌, ◌||◌, ◌++◌, if◌then◌else◌, ℕ, List, [], true, false, Some, None, is_some, OnOk, OnErr, IfOk, IsErrOf};
ghost use Rattle.std.specs.Option.{option_copied};
ghost use Rattle.std.specs.Str.{bytes_eq};
ghost use Rattle.desk_outside.specs.Parts.{held_in, is_failed, is_listed};
ghost use Rattle.desk_outside.specs.Begun.{CommitEnds, IsTaken};
ghost use Rattle.desk_outside.specs.Sink.{HasSome};
ghost use Rattle.desk_outside.specs.Desk.{FetchEnds, PourEnds, SayEnds, ComplainEnds, Rose, Unstored, Said, Complained, call_of, one_more};

use crate::pieces::write_pieces;
use crate::sink::hand_over;
use crate::{
    BegunFile, CallName, Desk, DeskCall, DeskError, DeskKind, FetchError, Pieces, Readers, Sink,
};
use std::alloc::{AllocError, Global};
use std::collections::BTreeMap;

// Which calls fail, the number of the next call, and the count of faults.
#[derive(Drop)]
pub(crate) struct Turns {
    pub(crate) failing: Vec<u64>,
    pub(crate) next: u64,
    pub(crate) faults: u64,
    ghost counted: { faults < 2 ^ 64 },
}

impl Turns {
    // Gives a call its number, and counts a fault where it fails: where its number is to fail, or
    // the call has to.
    pub(crate) fn take(&mut self, has_to_fail: bool) -> bool
        ensures fails { result ≡ (is_listed self.old.failing.items self.old.next || has_to_fail) }
        ensures failing { self.new.failing ≡ self.old.failing }
        ensures next { self.new.next ≡ one_more self.old.next }
        ensures faults { self.new.faults
            ≡ (if result then one_more self.old.faults else self.old.faults) }
    {
        let fails = self.failing.contains(&self.next) || has_to_fail;
        self.next = self.next.saturating_add(1);
        if fails {
            self.faults = self.faults.saturating_add(1);
        }
        fails
    }
}

/// A desk in memory. It fails the calls that it is told to fail, and a fetch or a pour of a name that
/// holds nothing.
#[derive(Drop)]
pub struct MemoryDesk {
    alloc: Global,
    files: BTreeMap<String, Vec<u8>>,
    said: Vec<u8>,
    complained: Vec<u8>,
    calls: Vec<DeskCall>,
    turns: Turns,
    // The most bytes of a piece that a sink is handed.
    piece_bytes: usize,
}

impl MemoryDesk {
    ghost use Rattle.desk_outside.specs.Memory.{view_of, faults_of, empty_view, after_place, turns_of};

    /// An empty desk that fails the calls with these numbers. The calls of all four kinds are
    /// numbered together, from 0.
    pub fn new(failing: Vec<u64>) -> MemoryDesk
        ensures view { view_of result ≡ empty_view }
        ensures turns { turns_of result ≡ record { failing = failing.items; next = 0; faults = 0 } }
    {
        let alloc = *failing.allocator();
        MemoryDesk {
            alloc,
            files: BTreeMap::new(alloc),
            said: Vec::new(alloc),
            complained: Vec::new(alloc),
            calls: Vec::new(alloc),
            turns: Turns {
                failing,
                next: 0,
                faults: 0,
            },
            piece_bytes: usize::MAX,
        }
    }

    /// The same desk, which hands the bytes of a file to a sink in pieces of at most this many bytes, but of one byte at least.
    /// A new desk hands them over all at once.
    pub fn with_pieces(self, piece_bytes: usize) -> MemoryDesk
        ensures view { view_of result ≡ view_of self }
        ensures turns { turns_of result ≡ turns_of self }
    {
        MemoryDesk {
            piece_bytes,
            ..self
        }
    }

    /// Puts the bytes under the name, which is no call and has no number.
    pub fn place(&mut self, name: &str, bytes: &[u8]) -> Result<(), AllocError>
        ensures ok { OnOk result
            (view_of self.new ≡ after_place (view_of self.old) name.now bytes.now) }
        ensures err { OnErr result (view_of self.new ≡ view_of self.old) }
        ensures turns { turns_of self.new ≡ turns_of self.old }
    {
        let bytes = bytes.to_vec(self.alloc)?;
        store(self.alloc, &mut self.files, name, bytes)
    }

    /// What the name holds, or None where it holds nothing.
    pub fn held(&self, name: &str) -> Option<&[u8]>
        ensures { (view_of self.now).held name.now ≡ Some (option_copied result) }
    {
        match self.files.get(name) {
            Some(bytes) => Some(bytes),
            None => None,
        }
    }

    /// All the bytes said.
    pub fn said(&self) -> &[u8]
        ensures { (view_of self.now).said ≡ Some result.now }
    {
        &self.said
    }

    /// All the bytes complained.
    pub fn complained(&self) -> &[u8]
        ensures { (view_of self.now).complained ≡ Some result.now }
    {
        &self.complained
    }

    /// The calls, the earliest first, but for those that were answered `Memory`.
    pub fn calls(&self) -> &[DeskCall]
        ensures { (view_of self.now).calls ≡ Some result.now }
    {
        &self.calls
    }

    /// How many calls failed, which stays at 2^64 - 1 once it is there.
    pub fn faults(&self) -> u64
        ensures { result ≡ faults_of self.now }
    {
        self.turns.faults
    }
}

/// A file that a desk in memory has begun. It fails by want of memory, or since its name held something and was to hold nothing.
#[derive(Drop)]
pub struct BegunInMemory {
    alloc: Global,
    name: String,
    bytes: Vec<u8>,
    /// What has failed.
    error: Option<DeskError>,
}

impl BegunFile for BegunInMemory {
    ghost use Rattle.desk_outside.specs.Memory.{begun_name, has_bytes, has_failed};

    ghost name = { begun_name };

    ghost has = { has_bytes };

    ghost failed = { has_failed };

    fn append<P: Pieces>(&mut self, pieces: &mut P) {
        if write_pieces(self.alloc, &mut self.bytes, pieces).is_err() && self.error.is_none() {
            self.error = Some(DeskError::Memory);
        }
    }

    fn flush(&mut self) -> Result<(), DeskError> {
        match self.error {
            Some(error) => Err(error),
            None => Ok(()),
        }
    }

    fn has_failed(&self) -> bool {
        self.error.is_some()
    }
}

// Whether this is the error of a name that held something.
fn is_failed(error: Option<DeskError>) -> bool
    ensures { result ≡ is_failed error }
{
    match error {
        Some(DeskError::Failed) => true,
        Some(DeskError::Memory) => false,
        None => false,
    }
}

// Puts the bytes in place of those that the name holds.
fn store(
    alloc: Global,
    files: &mut BTreeMap<String, Vec<u8>>,
    name: &str,
    bytes: Vec<u8>,
) -> Result<(), AllocError>
    ensures ok { OnOk result ((other : List ℕ) → held_in files.new other
        ≡ (if bytes_eq name.now other then Some bytes.items else held_in files.old other)) }
    ensures err { OnErr result (files.new.entries ≡ files.old.entries) }
{
    let name = String::from_str(alloc, name)?;
    files.insert(name, bytes)?;
    Ok(())
}

// Adds a call to the list.
fn note(
    alloc: Global,
    calls: &mut Vec<DeskCall>,
    kind: DeskKind,
    name: &str,
    failed: bool,
) -> Result<(), AllocError>
    ensures ok { OnOk result (calls.new.items ≡ calls.old.items ++ call_of kind name.now failed) }
    ensures err { OnErr result (calls.new.items ≡ calls.old.items) }
{
    let name = CallName::new(alloc, name)?;
    calls.push(DeskCall { kind, name, failed })?;
    Ok(())
}

// Adds the bytes to a text, and the call that brought them, or neither.
fn append(
    alloc: Global,
    calls: &mut Vec<DeskCall>,
    kind: DeskKind,
    text: &mut Vec<u8>,
    bytes: &[u8],
) -> Result<(), AllocError>
    ensures calls { OnOk result (calls.new.items ≡ calls.old.items ++ call_of kind [] false) }
    ensures text { OnOk result (text.new.items ≡ text.old.items ++ bytes.now) }
    ensures err_calls { OnErr result (calls.new.items ≡ calls.old.items) }
    ensures err_text { OnErr result (text.new.items ≡ text.old.items) }
{
    text.reserve(bytes.len())?;
    note(alloc, calls, kind, "", false)?;
    text.extend_from_slice(bytes).unwrap();
    Ok(())
}

#[tactic(auto, unfolding(crate::specs::Desk::after_step))]
impl Desk for MemoryDesk {
    type Begun = BegunInMemory;

    ghost use Rattle.desk_outside.specs.Memory.{view_of, faults_of, turns_of, after_turn, is_failing, is_failing_fetch, begun_name, has_bytes, has_failed, was_taken, Fails, FetchFails};

    ghost view = { view_of };

    ghost faults = { faults_of };

    ghost counted = { λ d. d.turns.counted };

    fn fetch(&mut self, alloc: Global, name: &str, most: u64) -> Result<Vec<u8>, FetchError>
        ensures ends { FetchEnds name.now most (view_of self.old) (view_of self.new) result }
        ensures later { faults_of self.old ≤ faults_of self.new }
        ensures cause { IsErrOf result FetchError.Failed
            → Rose (faults_of self.old) (faults_of self.new) }
        ensures fails { FetchFails (is_failing_fetch self.old name.now) result }
        ensures turn { turns_of self.new
            ≡ after_turn (turns_of self.old) (is_failing_fetch self.old name.now) }
    {
        let held = self.files.get(name);
        let fails = self.turns.take(held.is_none());
        match held {
            Some(bytes) if !fails => {
                if bytes.len() as u64 > most {
                    note(self.alloc, &mut self.calls, DeskKind::Fetch, name, false)?;
                    return Err(FetchError::TooLong(most + 1));
                }
                let copy = bytes.to_vec(alloc)?;
                note(self.alloc, &mut self.calls, DeskKind::Fetch, name, false)?;
                Ok(copy)
            }
            _ => {
                note(self.alloc, &mut self.calls, DeskKind::Fetch, name, true)?;
                Err(FetchError::Failed)
            }
        }
    }

    fn pour<S: Sink>(
        &mut self,
        _alloc: Global,
        name: &str,
        most: u64,
        sink: S,
    ) -> Result<S, FetchError>
        requires { HasSome S.has sink }
        ensures ends { PourEnds S.has name.now most (view_of self.old) (view_of self.new) sink result }
        ensures later { faults_of self.old ≤ faults_of self.new }
        ensures cause { IsErrOf result FetchError.Failed
            → Rose (faults_of self.old) (faults_of self.new) }
        ensures fails { FetchFails (is_failing_fetch self.old name.now) result }
        ensures turn { turns_of self.new
            ≡ after_turn (turns_of self.old) (is_failing_fetch self.old name.now) }
    {
        let held = self.files.get(name);
        let fails = self.turns.take(held.is_none());
        match held {
            Some(bytes) if !fails => {
                if bytes.len() as u64 > most {
                    note(self.alloc, &mut self.calls, DeskKind::Fetch, name, false)?;
                    return Err(FetchError::TooLong(most + 1));
                }
                let full = hand_over(bytes, self.piece_bytes, sink)?;
                note(self.alloc, &mut self.calls, DeskKind::Fetch, name, false)?;
                Ok(full)
            }
            _ => {
                note(self.alloc, &mut self.calls, DeskKind::Fetch, name, true)?;
                Err(FetchError::Failed)
            }
        }
    }

    fn begin(&mut self, name: &str, _readers: Readers) -> Result<BegunInMemory, AllocError>
        ensures same_view { view_of self.new ≡ view_of self.old }
        ensures same_faults { faults_of self.new ≡ faults_of self.old }
        ensures begun { IfOk result (λ file. (begun_name file ≡ name.now) × has_bytes file []) }
        ensures same_turns { turns_of self.new ≡ turns_of self.old }
    {
        Ok(BegunInMemory {
            alloc: self.alloc,
            name: String::from_str(self.alloc, name)?,
            bytes: Vec::new(self.alloc),
            error: None,
        })
    }

    fn begin_new(&mut self, name: &str, _readers: Readers) -> Result<BegunInMemory, AllocError>
        ensures same_view { view_of self.new ≡ view_of self.old }
        ensures same_faults { faults_of self.new ≡ faults_of self.old }
        ensures begun { IfOk result (λ file. (begun_name file ≡ name.now) × has_bytes file []) }
        ensures taken { IfOk result (λ file. IsTaken ((view_of self.old).held name.now) → has_failed file ≡ true) }
        ensures exact { IfOk result (λ file. (has_failed file ≡ is_some (held_in self.old.files name.now)) × (was_taken file ≡ is_some (held_in self.old.files name.now))) }
        ensures same_turns { turns_of self.new ≡ turns_of self.old }
    {
        let error = match self.files.get(name) {
            Some(_) => Some(DeskError::Failed),
            None => None,
        };
        Ok(BegunInMemory {
            alloc: self.alloc,
            name: String::from_str(self.alloc, name)?,
            bytes: Vec::new(self.alloc),
            error,
        })
    }

    fn commit(&mut self, file: BegunInMemory) -> Result<(), DeskError>
        ensures ends { CommitEnds (has_bytes file) (has_failed file) (begun_name file) (view_of self.old) (view_of self.new) result }
        ensures later { faults_of self.old ≤ faults_of self.new }
        ensures cause { IsErrOf result DeskError.Failed
            → Rose (faults_of self.old) (faults_of self.new) }
        ensures fails { Fails (is_failing (turns_of self.old) || was_taken file) (Unstored (begun_name file))
            (view_of self.old) (view_of self.new) result }
        ensures turn { turns_of self.new
            ≡ after_turn (turns_of self.old) (is_failing (turns_of self.old) || was_taken file) }
    {
        let BegunInMemory {
            alloc: _,
            name,
            bytes,
            error,
        } = file;
        if self.turns.take(is_failed(error)) {
            note(self.alloc, &mut self.calls, DeskKind::Put, &name, true)?;
            return Err(DeskError::Failed);
        }
        if error.is_some() {
            return Err(DeskError::Memory);
        }
        let call = DeskCall {
            kind: DeskKind::Put,
            name: CallName::new(self.alloc, &name)?,
            failed: false,
        };
        self.calls.reserve(1)?;
        store(self.alloc, &mut self.files, &name, bytes)?;
        self.calls.push(call).unwrap();
        Ok(())
    }

    fn say(&mut self, bytes: &[u8]) -> Result<(), DeskError>
        ensures ends { SayEnds bytes.now (view_of self.old) (view_of self.new) result }
        ensures later { faults_of self.old ≤ faults_of self.new }
        ensures cause { IsErrOf result DeskError.Failed
            → Rose (faults_of self.old) (faults_of self.new) }
        ensures fails { Fails (is_failing (turns_of self.old)) (Said [] true)
            (view_of self.old) (view_of self.new) result }
        ensures turn { turns_of self.new
            ≡ after_turn (turns_of self.old) (is_failing (turns_of self.old)) }
    {
        if self.turns.take(false) {
            note(self.alloc, &mut self.calls, DeskKind::Say, "", true)?;
            return Err(DeskError::Failed);
        }
        let (calls, said) = (&mut self.calls, &mut self.said);
        append(self.alloc, calls, DeskKind::Say, said, bytes)?;
        Ok(())
    }

    fn complain(&mut self, bytes: &[u8]) -> Result<(), DeskError>
        ensures ends { ComplainEnds bytes.now (view_of self.old) (view_of self.new) result }
        ensures later { faults_of self.old ≤ faults_of self.new }
        ensures cause { IsErrOf result DeskError.Failed
            → Rose (faults_of self.old) (faults_of self.new) }
        ensures fails { Fails (is_failing (turns_of self.old)) (Complained [] true)
            (view_of self.old) (view_of self.new) result }
        ensures turn { turns_of self.new
            ≡ after_turn (turns_of self.old) (is_failing (turns_of self.old)) }
    {
        if self.turns.take(false) {
            note(self.alloc, &mut self.calls, DeskKind::Complain, "", true)?;
            return Err(DeskError::Failed);
        }
        let (calls, complained) = (&mut self.calls, &mut self.complained);
        append(self.alloc, calls, DeskKind::Complain, complained, bytes)?;
        Ok(())
    }
}
