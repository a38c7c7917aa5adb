//! The reader of a meter file.

ghost use Rattle.std.specs.Prelude.{◌≡◌, ◌≤◌, ◌<◌, ◌+◌, ◌^◌, Ok, Err, IfErr, IfOk, OnOk, None, length, slice_index_or};
ghost use Rattle.plan_files.specs.Faults.{Ends, Fails, in_row};
ghost use Rattle.plan_files.specs.RowsLeft.{IsSound, rows_left};
ghost use Rattle.meter_files.specs.PartRows.{behind, entries_from, head_of};
ghost use Rattle.pair_keys.specs.declared.KeyError.{KeyError};
ghost use Rattle.pair_keys.specs.declared.KeyId.{KeyId};
ghost use Rattle.plan_files.specs.declared.fault.FileCause.{FileCause};
ghost use Rattle.meter_files.specs.Spelling.{pair_of};
ghost use Rattle.meter_files.specs.PartFiles.{PartEnds, TakesKey, completed, gather, gathered_by, is_other, lacks, missing_pair, nothing, owner_view, part_from, part_of, put_member, put_own, put_pair, spans_of, stated_home, take_entry, view_of, with_entries};
ghost use Rattle.meter_files.specs.Whole.{IsWhole};

use crate::part_row::{
    HomeGroup, PartEntry, due_home, due_rounds, due_self, due_title, read_entry,
};
use group_plan::{Plan, PlanError, Span, SpanError};
use pair_keys::{KeyError, KeyId};
use plan_files::rows::{PlanHead, RowReader, Windows, check_member, settle, stated_plan};
use plan_files::{Failed, FileCause, FileFault};
use std::alloc::{AllocError, Global};

/// What a meter file says.
#[derive(Drop)]
pub struct MeterFile {
    /// The meter's group as a plan of one group, with the spans of the member rows. Its windows mean nothing.
    pub home: Plan,
    /// The number by which frames name the group, below 256.
    pub group: u16,
    /// The meter's number in the group.
    pub meter: u8,
    /// The meter's own key.
    pub own: [u8; 32],
    /// The key of the pair with each meter of the group, by its number; none with the meter itself.
    pub pairs: Vec<Option<[u8; 32]>>,
}

/// What the first four rows say.
#[derive(Clone, Copy)]
struct PartHead {
    rounds: u32,
    home: HomeGroup,
    meter: u32,
}

/// Reads the first four rows.
fn read_head(rows: &mut RowReader<'_>) -> Result<PartHead, Failed<FileFault>>
    requires { IsSound rows.old }
    ensures read { IfOk result (λ head. head_of (rows_left rows.old) ≡ Ok (record { rounds = head.rounds; home = head.home; meter = head.meter })) }
    ensures rest { OnOk result (rows_left rows.new ≡ behind (behind (behind (behind (rows_left rows.old))))) }
    ensures sound { OnOk result (IsSound rows.new) }
    ensures fault { IfErr result (λ failed. Fails (head_of (rows_left rows.old)) failed) }
{
    due_title(rows)?;
    rows.advance()?;
    let rounds = due_rounds(rows)?;
    rows.advance()?;
    let home = due_home(rows)?;
    rows.advance()?;
    let meter = due_self(rows)?;
    rows.advance()?;
    Ok(PartHead {
        rounds,
        home,
        meter,
    })
}

/// Reads the rows that are left, up to the first fault of form. The first of them is row 5 of the file.
fn read_entries(
    alloc: Global,
    rows: &mut RowReader<'_>,
) -> Result<Vec<PartEntry>, Failed<FileFault>>
    requires sound { IsSound rows.old }
    requires few { length (rows_left rows.old) ≤ 2 ^ 28 + 1 }
    ensures read { IfOk result (λ entries. entries_from 5 (rows_left rows.old) ≡ Ok entries.items) }
    ensures few { IfOk result (λ entries. length entries.items ≤ length (rows_left rows.old)) }
    ensures fault { IfErr result (λ failed. Fails (entries_from 5 (rows_left rows.old)) failed) }
{
    let mut entries = Vec::new(alloc);
    let mut number = 5;
    while let Some(row) = rows.current() {
        match read_entry(row) {
            Ok(entry) => entries.push(entry)?,
            Err(cause) => return Err(Failed::Fault(FileFault { row: number, cause })),
        }
        number += 1;
        rows.advance()?;
    }
    Ok(entries)
}

/// The plan of the meter's group alone, which the first rows state.
#[tactic(auto, using(crate::proofs::PartLemmas::too_many, crate::proofs::PartLemmas::is_stated))]
fn stated_home(alloc: Global, rounds: u32, home: &HomeGroup) -> Result<Plan, Failed<FileFault>>
    ensures stated { Ends (stated_home rounds home.now) result }
    ensures few { OnOk result (home.now.number ≤ 255) }
{
    if home.number > 255 {
        return Err(Failed::Fault(FileFault {
            row: 0,
            cause: FileCause::Plan(PlanError::TooManyGroups(u64::from(home.number) + 1)),
        }));
    }
    let head = PlanHead {
        rounds,
        windows: Windows {
            reading: 1,
            recovery: 2,
        },
    };
    stated_plan(alloc, head, &[home.group])
}

/// The spans of the member rows, in order.
#[tactic(auto, using(crate::proofs::PartLemmas::spans_end))]
fn member_spans(alloc: Global, entries: &[PartEntry]) -> Result<Vec<Span>, AllocError>
    ensures { IfOk result (λ spans. spans.items ≡ spans_of entries.now) }
{
    let mut spans = Vec::new(alloc);
    for entry in entries {
        if let PartEntry::Member(span) = entry {
            spans.push(*span)?;
        }
    }
    Ok(spans)
}

/// The meter, and how many its group has.
#[derive(Clone, Copy)]
struct Owner {
    group: u32,
    meter: u32,
    meters: u32,
}

/// The keys of the rows so far, and how many of these were member rows.
#[derive(Drop)]
struct PartKeys {
    own: Option<[u8; 32]>,
    pairs: Vec<Option<[u8; 32]>>,
    members: u32,
}

impl Owner {
    /// The meter's own key.
    fn own_id(self) -> KeyId
        ensures { result ≡ KeyId.Own self.group self.meter }
    {
        KeyId::Own {
            group: self.group,
            meter: self.meter,
        }
    }

    /// The key of the pair with another meter.
    fn pair_id(self, other: u32) -> KeyId
        ensures { result ≡ pair_of self.group self.meter other }
    {
        if self.meter < other {
            KeyId::Pair {
                group: self.group,
                low: self.meter,
                high: other,
            }
        } else {
            KeyId::Pair {
                group: self.group,
                low: other,
                high: self.meter,
            }
        }
    }

    /// Whether this is another meter of the group.
    fn is_other(self, other: u32) -> bool
        ensures { result ≡ is_other (owner_view self) other }
    {
        other != self.meter && other < self.meters
    }
}

/// The key of the pair with a meter, where there is one.
fn key_with(pairs: &[Option<[u8; 32]>], meter: u32) -> Option<[u8; 32]>
    ensures { result ≡ slice_index_or pairs.now meter None }
{
    if meter as usize >= pairs.len() {
        return None;
    }
    pairs[meter as usize]
}

impl PartKeys {
    /// Puts the meter's own key.
    fn put_own(&mut self, owner: Owner, key: [u8; 32]) -> Result<(), FileCause>
        ensures taken { TakesKey (put_own (owner_view owner) (gathered_by self.old) key) result (gathered_by self.new) }
        ensures same { self.new.members ≡ self.old.members }
        ensures long { length self.new.pairs.items ≡ length self.old.pairs.items }
    {
        if self.own.is_some() {
            return Err(FileCause::Key(KeyError::Twice(owner.own_id())));
        }
        self.own = Some(key);
        Ok(())
    }

    /// Puts the key of the pair with another meter.
    fn put_pair(&mut self, owner: Owner, other: u32, key: [u8; 32]) -> Result<(), FileCause>
        requires { length self.old.pairs.items ≡ owner.meters }
        ensures taken { TakesKey (put_pair (owner_view owner) (gathered_by self.old) other key) result (gathered_by self.new) }
        ensures same { self.new.members ≡ self.old.members }
        ensures long { length self.new.pairs.items ≡ length self.old.pairs.items }
    {
        if !owner.is_other(other) {
            return Err(FileCause::Key(KeyError::Range));
        }
        if key_with(&self.pairs, other).is_some() {
            return Err(FileCause::Key(KeyError::Twice(owner.pair_id(other))));
        }
        self.pairs[other as usize] = Some(key);
        Ok(())
    }

    /// Counts a member row, unless its span is the first that is wrong.
    fn put_member(&mut self, fault: Option<SpanError>) -> Result<(), FileCause>
        requires { self.old.members < 2 ^ 31 }
        ensures taken { TakesKey (put_member fault (gathered_by self.old)) result (gathered_by self.new) }
        ensures few { self.new.members ≤ self.old.members + 1 }
        ensures long { length self.new.pairs.items ≡ length self.old.pairs.items }
    {
        match check_member(fault, self.members) {
            Ok(()) => {
                self.members += 1;
                Ok(())
            }
            Err(cause) => Err(cause),
        }
    }

    /// Adds what a row says, where nothing is wrong with it.
    #[tactic(auto, unfolding(crate::specs::PartFiles::take_entry))]
    fn take(
        &mut self,
        owner: Owner,
        fault: Option<SpanError>,
        entry: &PartEntry,
    ) -> Result<(), FileCause>
        requires members { self.old.members < 2 ^ 31 }
        requires long { length self.old.pairs.items ≡ owner.meters }
        ensures taken { TakesKey (take_entry (owner_view owner) fault (gathered_by self.old) entry.now) result (gathered_by self.new) }
        ensures few { self.new.members ≤ self.old.members + 1 }
        ensures long { length self.new.pairs.items ≡ length self.old.pairs.items }
    {
        match entry {
            PartEntry::Own(key) => self.put_own(owner, *key),
            PartEntry::Pair { other, key } => self.put_pair(owner, *other, *key),
            PartEntry::Member(_) => self.put_member(fault),
        }
    }
}

/// No key yet of a group of so many meters.
fn no_keys(alloc: Global, meters: u32) -> Result<PartKeys, AllocError>
    ensures { IfOk result (λ keys. gathered_by keys ≡ nothing meters) }
{
    Ok(PartKeys {
        own: None,
        pairs: vec![in alloc; None; meters as usize]?,
        members: 0,
    })
}

/// What the rows after the first four add up to, up to the first that is refused.
fn gather(
    alloc: Global,
    owner: Owner,
    fault: Option<SpanError>,
    entries: Vec<PartEntry>,
) -> Result<PartKeys, Failed<FileFault>>
    requires { length entries.items ≤ 2 ^ 28 + 1 }
    ensures whole { IfOk result (λ keys. gather (owner_view owner) fault 5 (nothing owner.meters) entries.items ≡ Ok (gathered_by keys)) }
    ensures refused { IfErr result (λ failed. Fails (gather (owner_view owner) fault 5 (nothing owner.meters) entries.items) failed) }
{
    let mut keys = no_keys(alloc, owner.meters)?;
    let mut number = 5;
    for entry in entries {
        if let Err(cause) = keys.take(owner, fault, &entry) {
            return Err(Failed::Fault(FileFault { row: number, cause }));
        }
        number += 1;
    }
    Ok(keys)
}

/// Whether the key of the pair with a meter is lacking.
fn lacks(owner: Owner, pairs: &[Option<[u8; 32]>], other: u32) -> bool
    ensures { result ≡ lacks (owner_view owner) pairs.now other }
{
    other != owner.meter && key_with(pairs, other).is_none()
}

/// The first pair whose key is missing.
#[tactic(auto, using(crate::proofs::PartLemmas::first_found, crate::proofs::PartLemmas::next_looked, crate::proofs::PartLemmas::none_found))]
fn missing_pair(owner: Owner, pairs: &[Option<[u8; 32]>]) -> Option<KeyId>
    ensures { result ≡ missing_pair (owner_view owner) pairs.now }
{
    for other in 0..owner.meters {
        if lacks(owner, pairs, other) {
            return Some(owner.pair_id(other));
        }
    }
    None
}

/// The fault of a file without this key.
fn missing(which: KeyId) -> FileFault
    ensures { result ≡ in_row 0 (FileCause.Key (KeyError.Missing which)) }
{
    FileFault {
        row: 0,
        cause: FileCause::Key(KeyError::Missing(which)),
    }
}

/// The file of what is gathered, unless a key is missing.
fn complete(home: Plan, owner: Owner, keys: PartKeys) -> Result<MeterFile, FileFault>
    requires group { owner.group < 2 ^ 16 }
    requires meter { owner.meter < 2 ^ 8 }
    ensures file { IfOk result (λ file. completed home (owner_view owner) (gathered_by keys) ≡ Ok (view_of file)) }
    ensures missing { IfErr result (λ fault. completed home (owner_view owner) (gathered_by keys) ≡ Err fault) }
{
    let PartKeys {
        own,
        pairs,
        members: _,
    } = keys;
    let Some(own) = own else {
        return Err(missing(owner.own_id()));
    };
    if let Some(which) = missing_pair(owner, &pairs) {
        return Err(missing(which));
    }
    Ok(MeterFile {
        home,
        group: owner.group as u16,
        meter: owner.meter as u8,
        own,
        pairs,
    })
}

/// What the rows after the first four say to a plan.
#[tactic(auto, unfolding(crate::specs::PartFiles::with_entries))]
fn with_entries(
    alloc: Global,
    home: Plan,
    owner: Owner,
    entries: Vec<PartEntry>,
) -> Result<MeterFile, Failed<FileFault>>
    requires group { owner.group < 2 ^ 16 }
    requires meters { owner.meters ≤ 256 }
    requires few { length entries.items ≤ 2 ^ 28 + 1 }
    ensures { PartEnds (with_entries home (owner_view owner) entries.items) result }
{
    if owner.meter >= owner.meters {
        return Err(Failed::Fault(FileFault {
            row: 4,
            cause: FileCause::Key(KeyError::Range),
        }));
    }
    let spans = member_spans(alloc, &entries)?;
    let (home, fault) = settle(home, &spans)?;
    let keys = gather(alloc, owner, fault, entries)?;
    Ok(complete(home, owner, keys)?)
}

/// What the rows of a meter file say.
#[tactic(auto, unfolding(crate::specs::PartFiles::part_from))]
fn part_from(alloc: Global, rows: &mut RowReader<'_>) -> Result<MeterFile, Failed<FileFault>>
    requires sound { IsSound rows.old }
    requires few { length (rows_left rows.old) ≤ 2 ^ 28 + 1 }
    ensures { PartEnds (part_from (rows_left rows.old)) result }
{
    let head = read_head(rows)?;
    let entries = read_entries(alloc, rows)?;
    let home = stated_home(alloc, head.rounds, &head.home)?;
    let owner = Owner {
        group: head.home.number,
        meter: head.meter,
        meters: home.meters(0),
    };
    with_entries(alloc, home, owner, entries)
}

/// What the bytes of a meter file say, or their first fault.
#[tactic(auto, unfolding(crate::specs::PartFiles::part_of))]
pub fn read_meter(alloc: Global, bytes: &[u8]) -> Result<MeterFile, Failed<FileFault>>
    requires { length bytes.now ≤ 2 ^ 28 }
    ensures file { PartEnds (part_of bytes.now) result }
    ensures whole { IfOk result (λ file. IsWhole (view_of file)) }
{
    let mut rows = RowReader::new(alloc, bytes)?;
    part_from(alloc, &mut rows)
}
