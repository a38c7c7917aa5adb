//! The bills of a period, of a plan file and its readings.

ghost use Rattle.billing_read.specs.Bills.{bills};
ghost use Rattle.std.specs.Prelude.{◌≡◌, IfOk, length, ◌≤◌, IfErr};
ghost use Rattle.group_plan.specs.Tables.{reading};
ghost use Rattle.billing_read.specs.BillsText.{bills_text};
ghost use Rattle.command_words.specs.Outcomes.{IsFault};
ghost use Rattle.command_words.specs.Limits.{most_bytes};
ghost use Rattle.command_texts.specs.Billing.{MeteredRefuses};
ghost use Rattle.command_texts.specs.BillingParts.{AreBillsOf};

use crate::values::read_metered;
use billing_read::{bills_of, bills_text};
use command_words::{BillWords, Outcome, Period};
use group_plan::{Plan, Readings};
use std::alloc::{AllocError, Global};

/// The text of bills, and how many there are.
#[derive(Drop)]
pub struct BillsText {
    pub text: Vec<u8>,
    pub count: usize,
}

// The bills of a period as text.
fn bills_in(
    alloc: Global,
    plan: &Plan,
    readings: &Readings,
    period: Period,
) -> Result<BillsText, AllocError>
    requires { readings.now.plan ≡ plan.now }
    ensures text { IfOk result (λ made. made.text.items ≡ bills_text plan.now period.from period.until (bills plan.now period.from period.until (reading readings.now.table))) }
    ensures count { IfOk result (λ made. made.count ≡ length (bills plan.now period.from period.until (reading readings.now.table))) }
{
    let bills = bills_of(alloc, plan, readings, period.from, period.until)?;
    Ok(BillsText {
        text: bills_text(alloc, plan, &bills, period.from, period.until)?,
        count: bills.len(),
    })
}

/// The bills of the two files.
pub fn bills_of_files<'a>(
    alloc: Global,
    words: BillWords<'a>,
    plan: &[u8],
    readings: &[u8],
) -> Result<BillsText, Outcome<'a>>
    requires plan { length plan.now ≤ most_bytes }
    requires readings { length readings.now ≤ most_bytes }
    ensures made { IfOk result (AreBillsOf plan.now readings.now words.entry.period) }
    ensures refused { IfErr result (MeteredRefuses words.entry.files.plan.now words.entry.files.readings.now plan.now readings.now) }
    ensures no_fault { IfErr result (λ outcome. ¬ IsFault outcome) }
{
    let (file, table) = or_fail!(read_metered(
        alloc,
        words.files.plan,
        words.files.readings,
        plan,
        readings,
    ));
    match bills_in(alloc, &file.plan, &table, words.period) {
        Ok(made) => Ok(made),
        Err(_) => Err(Outcome::NoMemory),
    }
}
