//! The text of a meter file.

ghost use Rattle.std.specs.Prelude.{◌≡◌, ◌<◌, ◌++◌, ◌∷◌, [], Some, OnOk, IfOk};
ghost use Rattle.group_plan.specs.Plans.{size};
ghost use Rattle.hex.specs.Hex.{encode_lower};
ghost use Rattle.pair_keys.specs.Keys.{table_of};
ghost use Rattle.pair_keys.specs.declared.KeyId.TheVariants.{Own};
ghost use Rattle.plan_files.specs.PlainRows.{file_text, row_text};
ghost use Rattle.meter_files.specs.Spelling.{own_row, pair_of, pair_row, pair_rows_of, pair_rows, meter_text};

use crate::rows::{put_field, put_members, put_part};
use pair_keys::KeyTable;
use std::alloc::{AllocError, Global};

/// Appends a comma, a key in hexadecimal digits, and the end of the row.
fn put_key(out: &mut Vec<u8>, key: &[u8; 32]) -> Result<(), AllocError>
    ensures { OnOk result (out.new.items ≡ out.old.items ++ 44 ∷ (encode_lower key.now ++ 10 ∷ [])) }
{
    let mut digits = [0; 64];
    if hex::encode_to_slice(key, &mut digits).is_err() {
        unreachable!();
    }
    out.push(b',')?;
    out.extend_from_slice(&digits)?;
    out.push(b'\n')?;
    Ok(())
}

/// Appends the row of the meter's own key.
fn put_own(out: &mut Vec<u8>, key: &[u8; 32]) -> Result<(), AllocError>
    ensures { OnOk result (out.new.items ≡ out.old.items ++ row_text (own_row (Some key.now))) }
{
    out.extend_from_slice(b"own")?;
    put_key(out, key)
}

/// Appends the row of the key of the pair with another meter.
fn put_pair(out: &mut Vec<u8>, other: u8, key: &[u8; 32]) -> Result<(), AllocError>
    ensures { OnOk result (out.new.items ≡ out.old.items ++ row_text (pair_row other (Some key.now))) }
{
    out.extend_from_slice(b"pair")?;
    put_field(out, u32::from(other))?;
    put_key(out, key)
}

/// The key of two meters of a group.
fn pair_key(keys: &KeyTable, group: u16, meter: u8, other: u8) -> &[u8; 32]
    requires differ { ¬ (other ≡ meter) }
    requires meter { meter < size (table_of keys.now).plan.groups group }
    requires other { other < size (table_of keys.now).plan.groups group }
    ensures { Some result.now ≡ (table_of keys.now).key (pair_of group meter other) }
{
    if meter < other {
        keys.pair(group, meter, other)
    } else {
        keys.pair(group, other, meter)
    }
}

/// Appends the row of the key of the pair with another meter, and none for the meter itself.
fn put_pair_with(
    out: &mut Vec<u8>,
    keys: &KeyTable,
    group: u16,
    meter: u8,
    other: u8,
) -> Result<(), AllocError>
    requires meter { meter < size (table_of keys.now).plan.groups group }
    requires other { other < size (table_of keys.now).plan.groups group }
    ensures { OnOk result (out.new.items ≡ out.old.items ++ file_text (pair_rows_of (table_of keys.now) group meter other)) }
{
    if other != meter {
        put_pair(out, other, pair_key(keys, group, meter, other))?;
    }
    Ok(())
}

/// Appends the rows of the keys of a meter's pairs.
#[tactic(auto, unfolding(crate::specs::Spelling::pair_rows))]
fn put_pairs(out: &mut Vec<u8>, keys: &KeyTable, group: u16, meter: u8) -> Result<(), AllocError>
    requires { meter < size (table_of keys.now).plan.groups group }
    ensures { OnOk result (out.new.items ≡ out.old.items ++ file_text (pair_rows (table_of keys.now) group meter)) }
{
    for other in 0..keys.plan().meters(group) {
        put_pair_with(out, keys, group, meter, other as u8)?;
    }
    Ok(())
}

/// The text of the meter file of a meter of the plan of these keys.
pub fn meter_text(
    alloc: Global,
    keys: &KeyTable,
    group: u16,
    meter: u8,
) -> Result<Vec<u8>, AllocError>
    requires { meter < size (table_of keys.now).plan.groups group }
    ensures { IfOk result (λ text. text.items ≡ meter_text (table_of keys.now) group meter) }
{
    let plan = keys.plan();
    let mut text = Vec::new(alloc);
    text.extend_from_slice(b"meter,1\n")?;
    put_part(&mut text, plan, group, group, meter)?;
    put_own(&mut text, keys.own(group, meter))?;
    put_pairs(&mut text, keys, group, meter)?;
    put_members(&mut text, plan, group)?;
    Ok(text)
}
