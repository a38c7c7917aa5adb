//! The bills of all meters.
ghost use Rattle.std.specs.Prelude.{◌≡◌, ◌<◌, ◌^◌, ◌++◌, IfOk, IfSome, OnOk, map, length};
ghost use Rattle.std.specs.List.{All, range_with_len};
ghost use Rattle.group_plan.specs.Plans.{size};
ghost use Rattle.group_plan.specs.Tables.{reading};
ghost use Rattle.billing_read.specs.Bills.{bill, bills, with_reading};

use group_plan::{Plan, Readings};
use std::alloc::{AllocError, Global};

/// What a meter tells in clear of a period: how many readings it has there, and their sum in watt-hours, below 2^52.
#[derive(Clone, Copy)]
pub struct Bill {
    pub group: u16,
    pub meter: u8,
    pub readings: u32,
    pub sum: u64,
}

impl Bill {
    // Adds a reading, where there is one.
    fn add(&mut self, reading: Option<u64>)
        requires few { self.old.readings < 2 ^ 12 }
        requires low { self.old.sum < 2 ^ 52 }
        requires small { IfSome reading (λ v. v < 2 ^ 40) }
        ensures { self.new ≡ with_reading self.old reading }
    {
        if let Some(reading) = reading {
            self.readings += 1;
            self.sum += reading;
        }
    }
}

// The bill of a meter.
fn bill_of(readings: &Readings, from: u32, until: u32, group: u16, meter: u8) -> Bill
    requires { meter < size readings.now.plan.groups group }
    ensures { result ≡ bill readings.now.plan from until (reading readings.now.table) group meter }
{
    let mut bill = Bill {
        group,
        meter,
        readings: 0,
        sum: 0,
    };
    for round in from..until.min(readings.plan().rounds()) {
        bill.add(readings.get(group, round, meter));
    }
    bill
}

// Adds the bills of a group, by meter.
fn add_group(
    readings: &Readings,
    from: u32,
    until: u32,
    group: u16,
    bills: &mut Vec<Bill>,
) -> Result<(), AllocError>
    ensures { OnOk result (bills.new.items ≡ bills.old.items ++ map (bill readings.now.plan from until (reading readings.now.table) group) (range_with_len 0 (size readings.now.plan.groups group))) }
{
    for meter in 0..readings.plan().meters(group) {
        bills.push(bill_of(readings, from, until, group, meter as u8))?;
    }
    Ok(())
}

/// The bill of each meter over the rounds from `from` up to below `until`, by group and meter. Rounds outside the plan have no
/// readings.
pub fn bills_of(
    alloc: Global,
    plan: &Plan,
    readings: &Readings,
    from: u32,
    until: u32,
) -> Result<Vec<Bill>, AllocError>
    requires { readings.now.plan ≡ plan.now }
    ensures bills { IfOk result (λ list. list.items ≡ bills plan.now from until (reading readings.now.table)) }
    ensures groups { IfOk result (λ list. All (λ bill. bill.group < length plan.now.groups) list.items) }
{
    let mut bills = Vec::new(alloc);
    for group in 0..plan.groups().len() {
        add_group(readings, from, until, group as u16, &mut bills)?;
    }
    Ok(bills)
}
