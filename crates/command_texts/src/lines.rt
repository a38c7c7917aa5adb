//! The line that each command says at its end. That of a run is its summary.

ghost use Rattle.std.specs.Prelude.{◌≡◌, IfOk, string_bytes};
ghost use Rattle.command_texts.specs.Lines.{audited_line, line_of, counted_line, made_line, converted_line, public_line, parts_line, bills_line, hidden_line};

use audit_check::{AuditCounts, Inspected};
use std::alloc::{AllocError, Global};

/// `audit` says how many rows and totals the report has.
#[tactic(auto, unfolding(crate::specs::Lines::audited_line))]
pub fn audited_line(alloc: Global, counts: AuditCounts) -> Result<String, AllocError>
    ensures { IfOk result (λ text. string_bytes text ≡ audited_line counts.rows counts.totals) }
{
    let AuditCounts { rows, totals } = counts;
    format!(in alloc; "audit: rows={rows} totals={totals}\n")
}

/// `inspect` says what was counted. Where no round is opened, the fewest survivors are told as 0.
#[tactic(auto, unfolding(crate::specs::Lines::inspected_line))]
pub fn inspected_line(alloc: Global, found: Inspected) -> Result<String, AllocError>
    ensures { IfOk result (λ text. string_bytes text ≡ line_of found) }
{
    let Inspected { counts, opened } = found;
    let (rows, totals) = (counts.rows, counts.totals);
    let lacking = opened.without_total;
    let least = opened.fewest.unwrap_or(0);
    format!(in alloc; "inspect: rows={rows} totals={totals} opened={lacking} least={least}\n")
}

/// The command of this name says how many words move.
#[tactic(auto, unfolding(crate::specs::Lines::counted_line))]
pub fn counted_line(alloc: Global, verb: &str, rows: usize) -> Result<String, AllocError>
    ensures { IfOk result (λ text. string_bytes text ≡ counted_line verb.now rows) }
{
    format!(in alloc; "{verb}: moved={rows}\n")
}

/// `make` says how many readings there are, present or not.
#[tactic(auto, unfolding(crate::specs::Lines::made_line))]
pub fn made_line(alloc: Global, readings: u64) -> Result<String, AllocError>
    ensures { IfOk result (λ text. string_bytes text ≡ made_line readings) }
{
    format!(in alloc; "made: readings={readings}\n")
}

/// `convert` says how many entries the transcript has.
#[tactic(auto, unfolding(crate::specs::Lines::converted_line))]
pub fn converted_line(alloc: Global, lines: usize) -> Result<String, AllocError>
    ensures { IfOk result (λ text. string_bytes text ≡ converted_line lines) }
{
    format!(in alloc; "converted: lines={lines}\n")
}

/// `public` says how many groups and rounds the plan has.
#[tactic(auto, unfolding(crate::specs::Lines::public_line))]
pub fn public_line(alloc: Global, groups: usize, rounds: u32) -> Result<String, AllocError>
    ensures { IfOk result (λ text. string_bytes text ≡ public_line groups rounds) }
{
    format!(in alloc; "public: groups={groups} rounds={rounds}\n")
}

/// `parts` says how many meters the group has.
#[tactic(auto, unfolding(crate::specs::Lines::parts_line))]
pub fn parts_line(alloc: Global, meters: u32) -> Result<String, AllocError>
    ensures { IfOk result (λ text. string_bytes text ≡ parts_line meters) }
{
    format!(in alloc; "parts: meters={meters}\n")
}

/// `bill` says how many bills there are.
#[tactic(auto, unfolding(crate::specs::Lines::bills_line))]
pub fn bills_line(alloc: Global, bills: usize) -> Result<String, AllocError>
    ensures { IfOk result (λ text. string_bytes text ≡ bills_line bills) }
{
    format!(in alloc; "bills={bills}\n")
}

/// `hide` says where the partner is.
#[tactic(auto, unfolding(crate::specs::Lines::hidden_line))]
pub fn hidden_line(alloc: Global, round: u32, meter: u8) -> Result<String, AllocError>
    ensures { IfOk result (λ text. string_bytes text ≡ hidden_line round meter) }
{
    format!(in alloc; "hidden: round={round} meter={meter}\n")
}
