//! The rows of moved words.

ghost use Rattle.std.specs.Prelude.{◌≡◌, ◌<◌, IfOk};
ghost use Rattle.group_plan.specs.Plans.{IsWithinLimits};
ghost use Rattle.ideal_masks.specs.Moves.{IsKeyOf};
ghost use Rattle.ideal_masks.specs.Order.{AreOfPlan};
ghost use Rattle.twin_worlds.specs.MovedRows.{word_of, row_of, rows_of, AreMovedBy};

use crate::{MovedRow, MovedWords};
use ideal_masks::{Offset, Offsets};
use mask_stream::Masks;
use mod_word::Word;
use pair_keys::KeyId;
use std::alloc::{AllocError, Global};

// The word of a key in a round.
fn word_of<M: Masks>(masks: &M, id: KeyId, round: u32) -> Word
    requires limits { IsWithinLimits (M.plan masks.now) }
    requires key { IsKeyOf (M.plan masks.now) id }
    requires round { round < (M.plan masks.now).rounds }
    ensures { result ≡ word_of (M.table masks.now) id round }
{
    match id {
        KeyId::Own { group, meter } => masks.own(group as u16, round, meter as u8),
        KeyId::Pair { group, low, high } => {
            masks.pair(group as u16, round, low as u8, high as u8)
        }
    }
}

// The row of a word that moves.
fn row_of<M: Masks>(masks: &M, offset: &Offset) -> MovedRow
    requires limits { IsWithinLimits (M.plan masks.now) }
    requires key { IsKeyOf (M.plan masks.now) offset.now.id }
    requires round { offset.now.round < (M.plan masks.now).rounds }
    ensures { result ≡ row_of (M.table masks.now) offset.now }
{
    let old = word_of(masks, offset.id, offset.round);
    MovedRow {
        id: offset.id,
        round: offset.round,
        old,
        new: old.add(offset.by),
    }
}

/// The words of these masks that the offsets move, in the order of the masks file, each with its old and its new value.
pub fn moved_rows<M: Masks>(
    alloc: Global,
    masks: &M,
    offsets: &Offsets,
) -> Result<MovedWords, AllocError>
    requires limits { IsWithinLimits (M.plan masks.now) }
    requires places { AreOfPlan (M.plan masks.now) offsets.now }
    ensures rows { IfOk result (λ moved. moved ≡ rows_of (M.table masks.now) offsets.now) }
    ensures moved { IfOk result (AreMovedBy (M.plan masks.now) (M.table masks.now) offsets.now) }
{
    let mut rows = Vec::new(alloc);
    for offset in offsets.moved() {
        rows.push(row_of(masks, offset))?;
    }
    Ok(MovedWords::of(rows))
}
