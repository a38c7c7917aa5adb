//! The shift of a mask table.
ghost use Rattle.std.specs.Prelude.{◌≡◌};
ghost use Rattle.ideal_masks.specs.ListTables.{shift_table, unshift_table};
ghost use Rattle.ideal_masks.specs.Moves.{listed};
ghost use Rattle.ideal_masks.specs.Order.{AreOfPlan};

use crate::{MaskTable, Offsets};

/// Adds each offset to its word, modulo 2^64. All other words stay.
pub fn shift(table: &mut MaskTable, offsets: &Offsets)
    requires { AreOfPlan table.old.plan offsets.now }
    ensures plan { table.new.plan ≡ table.old.plan }
    ensures words { table.new.words ≡ shift_table table.old.plan (listed offsets.now) table.old.words }
    ensures undone { unshift_table table.old.plan (listed offsets.now) table.new.words ≡ table.old.words }
{
    let _plan = table.plan();
    for offset in offsets.moved() {
        table.move_word(offset.id, offset.round, offset.by);
    }
}

/// Takes each offset away from its word, modulo 2^64. All other words stay.
pub fn unshift(table: &mut MaskTable, offsets: &Offsets)
    requires { AreOfPlan table.old.plan offsets.now }
    ensures plan { table.new.plan ≡ table.old.plan }
    ensures words { table.new.words ≡ unshift_table table.old.plan (listed offsets.now) table.old.words }
    ensures undone { shift_table table.old.plan (listed offsets.now) table.new.words ≡ table.old.words }
{
    let _plan = table.plan();
    for offset in offsets.moved() {
        table.move_word(offset.id, offset.round, offset.by.signed(true));
    }
}
