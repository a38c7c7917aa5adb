//! Sets of meters.
ghost use Rattle.std.specs.Prelude.{◌≡◌, ◌≤◌, ◌++◌, OnOk};
ghost use Rattle.field_texts.specs.Sets.{set_of, numbers_text};
ghost use Rattle.field_texts.specs.Spelled.{IsSetOf};

use crate::number::{put_number, read_number_within};
use crate::parts::cut;
use missing_round::MeterSet;
use std::alloc::AllocError;

// The set of ascending numbers below `high`.
#[tactic(auto, using(crate::proofs::SetLoop::set_last, crate::proofs::SetLoop::set_bad), unfolding(crate::specs::Sets::set_of))]
fn set(text: &[u8], high: u32) -> Option<MeterSet>
    requires { high ≤ 256 }
    ensures { result ≡ set_of high text.now }
{
    let mut set = MeterSet::empty();
    if text == b"-".as_slice() {
        return Some(set);
    }
    let mut low = 0u64;
    let mut rest = text;
    for _ in 0..256u16 {
        match cut(b'+', rest) {
            None => {
                let Some(meter) = read_number_within(rest, low, u64::from(high)) else {
                    return None;
                };
                return Some(set.with(meter as u8));
            }
            Some((part, after)) => {
                let Some(meter) = read_number_within(part, low, u64::from(high)) else {
                    return None;
                };
                set = set.with(meter as u8);
                low = meter + 1;
                rest = after;
            }
        }
    }
    None
}

/// The set of meters below `high` that the text writes: `-` for none, or ascending numbers joined by `+`.
#[tactic(auto, using(crate::proofs::SpelledLaws::set_read))]
pub fn read_set(text: &[u8], high: u32) -> Option<MeterSet>
    requires { high ≤ 256 }
    ensures set { result ≡ set_of high text.now }
    ensures written { IsSetOf high text.now result }
{
    set(text, high)
}

/// Appends a set of meters: `-` for none, or its members in ascending order, joined by `+`. At `Err` a part may stand at
/// the end.
#[tactic(auto, using(crate::proofs::Plus::plus_more))]
pub fn put_set(out: &mut Vec<u8>, set: MeterSet) -> Result<(), AllocError>
    ensures { OnOk result (out.new.items ≡ out.old.items ++ numbers_text set) }
{
    let mut members = set.members();
    let Some(first) = members.next() else {
        out.push(b'-')?;
        return Ok(());
    };
    put_number(out, u64::from(first))?;
    for meter in members {
        out.push(b'+')?;
        put_number(out, u64::from(meter))?;
    }
    Ok(())
}
