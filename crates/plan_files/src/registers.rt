//! The readings of several registers.
ghost use Rattle.std.specs.Prelude.{◌≡◌, ◌<◌, ◌≤◌, ◌^◌, length};
ghost use Rattle.plan_files.specs.Registers.{AreRegisters, RegistersEnd, table};

use crate::fault::{Failed, FileFault};
use crate::readings::read_tables;
use group_plan::{Plan, Readings};
use std::alloc::Global;
use std::marker::Model;

/// The readings of 2 to 8 registers, a table for each. A meter has a reading of all of them in a round, or of none.
#[derive(Drop)]
pub struct Registers {
    plan: Plan,
    tables: Vec<Readings>,
}

impl Model for Registers {
    ghost use Rattle.plan_files.specs.RegisterParts.{KeepsRegisters, view_of};
    ghost use Rattle.plan_files.specs.Registers.{RegistersView};

    ghost Value = { RegistersView };

    ghost view = { λ r. view_of r.plan r.tables.items };

    ghost invariant = { λ r. KeepsRegisters r.plan r.tables.items };
}

impl Registers {
    /// The plan of the tables.
    pub fn plan(&self) -> &Plan
        ensures plan { result.now ≡ self.now.plan }
        ensures sound { AreRegisters self.now }
    {
        &self.plan
    }

    /// How many registers there are.
    pub fn count(&self) -> u8
        ensures count { result ≡ length self.now.tables }
        ensures sound { AreRegisters self.now }
    {
        self.tables.len() as u8
    }

    /// The readings of a register.
    pub fn table(&self, register: u8) -> &Readings
        requires { register < length self.now.tables }
        ensures { result.now ≡ record { plan = self.now.plan; table = table self.now register } }
    {
        &self.tables[register as usize]
    }
}

/// The readings of so many registers that the bytes of a readings file say of a plan, or the first fault.
///
/// A field that isn't empty has a number for each register, joined by `+`.
pub fn read_registers(
    alloc: Global,
    plan: &Plan,
    registers: u8,
    bytes: &[u8],
) -> Result<Registers, Failed<FileFault>>
    requires count { (2 ≤ registers) × (registers ≤ 8) }
    requires few { length bytes.now ≤ 2 ^ 28 }
    ensures { RegistersEnd plan.now registers bytes.now result }
{
    let copy = plan.try_copy()?;
    let tables = read_tables(alloc, plan, registers as usize, bytes)?;
    Ok(Registers { plan: copy, tables })
}
