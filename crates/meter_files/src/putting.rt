//! The files of the meters of a group, put by a desk.

ghost use Rattle.std.specs.Prelude.{◌≡◌, ◌≤◌, ◌<◌, ◌∷◌, [], true, length};
ghost use Rattle.group_plan.specs.Plans.{size};
ghost use Rattle.pair_keys.specs.Keys.{table_of};
ghost use Rattle.desk_outside.specs.Desk.{Stored};
ghost use Rattle.meter_files.specs.Names.{part_name, names_at, names_below};
ghost use Rattle.meter_files.specs.Putting.{files_at, files_below, ChecksNames, PutsFiles, PutsParts, FaultRose};

use crate::file::meter_text;
use crate::journal::journal_head;
use crate::names::{PartFile, part_name};
use desk_outside::{BegunFile, Desk, DeskError, Readers, Slice};
use pair_keys::KeyTable;
use std::alloc::Global;

/// Why the files of meters were not all put.
#[derive(Clone, Copy)]
pub enum PartFailure {
    /// Memory ran out.
    Memory,
    /// This file of this meter can't be written.
    Unwritable { meter: u8, file: PartFile },
}

// Finds that a file's name holds nothing, and that it can be written.
fn check_name<D: Desk>(
    alloc: Global,
    prefix: &str,
    meter: u8,
    file: PartFile,
    desk: &mut D,
) -> Result<(), PartFailure>
    ensures checks { ChecksNames prefix.now (part_name prefix.now meter file ∷ []) (D.view desk.old) (D.view desk.new) result }
    ensures later { D.faults desk.old ≤ D.faults desk.new }
    ensures cause { FaultRose result (D.faults desk.old) (D.faults desk.new) }
{
    let Ok(name) = part_name(alloc, prefix, meter, file) else {
        return Err(PartFailure::Memory);
    };
    let Ok(begun) = desk.begin_new(&name, Readers::Owner) else {
        return Err(PartFailure::Memory);
    };
    if !begun.has_failed() {
        return Ok(());
    }
    match desk.commit(begun) {
        Ok(()) => unreachable!(),
        Err(DeskError::Failed) => Err(PartFailure::Unwritable { meter, file }),
        Err(DeskError::Memory) => Err(PartFailure::Memory),
    }
}

// Finds the same of both names of a meter.
fn check_meter<D: Desk>(
    alloc: Global,
    prefix: &str,
    meter: u8,
    desk: &mut D,
) -> Result<(), PartFailure>
    ensures checks { ChecksNames prefix.now (names_at prefix.now meter) (D.view desk.old) (D.view desk.new) result }
    ensures later { D.faults desk.old ≤ D.faults desk.new }
    ensures cause { FaultRose result (D.faults desk.old) (D.faults desk.new) }
{
    if let Err(failure) = check_name(alloc, prefix, meter, PartFile::Keys, desk) {
        return Err(failure);
    }
    check_name(alloc, prefix, meter, PartFile::Journal, desk)
}

// Finds the same of all names of so many meters.
fn check_names<D: Desk>(
    alloc: Global,
    prefix: &str,
    meters: u32,
    desk: &mut D,
) -> Result<(), PartFailure>
    requires { meters ≤ 256 }
    ensures checks { ChecksNames prefix.now (names_below prefix.now meters) (D.view desk.old) (D.view desk.new) result }
    ensures later { D.faults desk.old ≤ D.faults desk.new }
    ensures cause { FaultRose result (D.faults desk.old) (D.faults desk.new) }
{
    for meter in 0..meters {
        if let Err(failure) = check_meter(alloc, prefix, meter as u8, desk) {
            return Err(failure);
        }
    }
    Ok(())
}

// Puts a file of a meter.
fn put_file<D: Desk>(
    alloc: Global,
    prefix: &str,
    meter: u8,
    file: PartFile,
    bytes: &[u8],
    desk: &mut D,
) -> Result<(), PartFailure>
    ensures puts { PutsFiles prefix.now (Stored (part_name prefix.now meter file) bytes.now ∷ []) (D.view desk.old) (D.view desk.new) result }
    ensures later { D.faults desk.old ≤ D.faults desk.new }
    ensures cause { FaultRose result (D.faults desk.old) (D.faults desk.new) }
{
    let Ok(name) = part_name(alloc, prefix, meter, file) else {
        return Err(PartFailure::Memory);
    };
    let Ok(mut begun) = desk.begin_new(&name, Readers::Owner) else {
        return Err(PartFailure::Memory);
    };
    begun.append(&mut Slice { rest: bytes });
    match desk.commit(begun) {
        Ok(()) => Ok(()),
        Err(DeskError::Failed) => Err(PartFailure::Unwritable { meter, file }),
        Err(DeskError::Memory) => Err(PartFailure::Memory),
    }
}

// Puts both files of a meter.
fn put_meter<D: Desk>(
    alloc: Global,
    keys: &KeyTable,
    group: u16,
    prefix: &str,
    meter: u8,
    desk: &mut D,
) -> Result<(), PartFailure>
    requires group { group < length (table_of keys.now).plan.groups }
    requires meter { meter < size (table_of keys.now).plan.groups group }
    ensures puts { PutsFiles prefix.now (files_at (table_of keys.now) group prefix.now meter) (D.view desk.old) (D.view desk.new) result }
    ensures later { D.faults desk.old ≤ D.faults desk.new }
    ensures cause { FaultRose result (D.faults desk.old) (D.faults desk.new) }
{
    let Ok(text) = meter_text(alloc, keys, group, meter) else {
        return Err(PartFailure::Memory);
    };
    let Ok(head) = journal_head(alloc, keys.plan(), group, group, meter) else {
        return Err(PartFailure::Memory);
    };
    if let Err(failure) = put_file(alloc, prefix, meter, PartFile::Keys, &text, desk) {
        return Err(failure);
    }
    put_file(alloc, prefix, meter, PartFile::Journal, &head, desk)
}

// Puts the files of all meters of a group.
fn put_meters<D: Desk>(
    alloc: Global,
    keys: &KeyTable,
    group: u16,
    prefix: &str,
    desk: &mut D,
) -> Result<(), PartFailure>
    requires { group < length (table_of keys.now).plan.groups }
    ensures puts { PutsFiles prefix.now (files_below (table_of keys.now) group prefix.now (size (table_of keys.now).plan.groups group)) (D.view desk.old) (D.view desk.new) result }
    ensures later { D.faults desk.old ≤ D.faults desk.new }
    ensures cause { FaultRose result (D.faults desk.old) (D.faults desk.new) }
{
    for meter in 0..keys.plan().meters(group) {
        if let Err(failure) = put_meter(alloc, keys, group, prefix, meter as u8, desk) {
            return Err(failure);
        }
    }
    Ok(())
}

/// Puts for each meter of a group its meter file and the head of its journal, by names that begin with the prefix. Nothing is put where one
/// of the names holds something already; only their owner may read the files.
pub fn put_parts<D: Desk>(
    alloc: Global,
    keys: &KeyTable,
    group: u16,
    prefix: &str,
    desk: &mut D,
) -> Result<(), PartFailure>
    requires { group < length (table_of keys.now).plan.groups }
    ensures puts { PutsParts prefix.now (names_below prefix.now (size (table_of keys.now).plan.groups group)) (files_below (table_of keys.now) group prefix.now (size (table_of keys.now).plan.groups group)) (D.view desk.old) (D.view desk.new) result }
    ensures later { D.faults desk.old ≤ D.faults desk.new }
    ensures cause { FaultRose result (D.faults desk.old) (D.faults desk.new) }
{
    if let Err(failure) = check_names(alloc, prefix, keys.plan().meters(group), desk) {
        return Err(failure);
    }
    put_meters(alloc, keys, group, prefix, desk)
}
