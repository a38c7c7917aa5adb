//! Billing isolation, and worked rows. Each law is a contract with an empty body.

ghost use Rattle.std.specs.Prelude.{◌≡◌, [], ◌∷◌, Some};
ghost use Rattle.event_schedule.specs.Rows.{joining_readings};
ghost use Rattle.billing_read.specs.Bills.{bills};
ghost use Rattle.billing_read.specs.Rows.{two_rounds, bill_of, four_changed};
ghost use Rattle.billing_read.specs.Statements.{BillsIsolated, BillsConverse};

/// Worked rows: the bills of three meters over two rounds and over the second, and the four readings that change with a partner.
pub fn rows()
    ensures bills { bills two_rounds 0 2 joining_readings ≡ bill_of 0 2 11 ∷ bill_of 1 2 22 ∷ bill_of 2 1 3 ∷ [] }
    ensures second_round { bills two_rounds 1 4096 joining_readings ≡ bill_of 0 1 1 ∷ bill_of 1 1 2 ∷ bill_of 2 1 3 ∷ [] }
    ensures changed { four_changed ≡ Some 11 ∷ Some 19 ∷ Some 0 ∷ Some 3 ∷ [] }
{}

/// Tables that agree and have the same bills are told alike, and tables that are told alike agree and have the same bills.
pub fn billing_isolation()
    ensures isolated { BillsIsolated }
    ensures converse { BillsConverse }
{}
