//! The text of bills.
ghost use Rattle.std.specs.Prelude.{◌≡◌, ◌<◌, ◌++◌, IfOk, OnOk, codes, decimal, length};
ghost use Rattle.std.specs.List.{All, flat_map};
ghost use Rattle.group_plan.specs.Plans.{name_of};
ghost use Rattle.billing_read.specs.BillsText.{bill_line, bills_text};

use crate::Bill;
use field_texts::put_number;
use group_plan::Plan;
use std::alloc::{AllocError, Global};

// The name of a group.
fn name_of(plan: &Plan, group: u16) -> &[u8]
    requires { group < length plan.now.groups }
    ensures { result.now ≡ name_of plan.now.groups group }
{
    plan.groups()[group as usize].name.bytes()
}

// A comma and a number.
fn put_next(out: &mut Vec<u8>, number: u64) -> Result<(), AllocError>
    ensures { OnOk result (out.new.items ≡ out.old.items ++ codes "," ++ decimal number) }
{
    out.push(b',')?;
    put_number(out, number)
}

// The line of a bill, with its newline.
fn put_bill(
    out: &mut Vec<u8>,
    plan: &Plan,
    from: u32,
    until: u32,
    bill: &Bill,
) -> Result<(), AllocError>
    requires { bill.now.group < length plan.now.groups }
    ensures { OnOk result (out.new.items ≡ out.old.items ++ bill_line plan.now from until bill.now) }
{
    out.extend_from_slice(name_of(plan, bill.group))?;
    put_next(out, u64::from(bill.meter))?;
    put_next(out, u64::from(from))?;
    put_next(out, u64::from(until))?;
    put_next(out, u64::from(bill.readings))?;
    put_next(out, bill.sum)?;
    out.push(b'\n')?;
    Ok(())
}

/// The text of bills of a period: a heading, and a line for each bill with the name of its group and the period's first round and
/// the one behind its last.
pub fn bills_text(
    alloc: Global,
    plan: &Plan,
    bills: &[Bill],
    from: u32,
    until: u32,
) -> Result<Vec<u8>, AllocError>
    requires { All (λ bill. bill.group < length plan.now.groups) bills.now }
    ensures { IfOk result (λ text. text.items ≡ bills_text plan.now from until bills.now) }
{
    let mut out = Vec::new(alloc);
    out.extend_from_slice(b"group,meter,from,until,readings,sum\n")?;
    for bill in bills {
        put_bill(&mut out, plan, from, until, bill)?;
    }
    Ok(out)
}
