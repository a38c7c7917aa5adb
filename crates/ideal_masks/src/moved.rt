//! A word that moves.
ghost use Rattle.std.specs.Prelude.{◌≡◌, ◌++◌, OnOk};
ghost use Rattle.ideal_masks.specs.Moves.{moved};

use crate::Offset;
use mod_word::Word;
use pair_keys::KeyId;
use std::alloc::AllocError;

/// Adds the offset of a word, unless it is 0.
pub fn push_moved(id: KeyId, round: u32, by: u64, moves: &mut Vec<Offset>) -> Result<(), AllocError>
    ensures { OnOk result (moves.new.items ≡ moves.old.items ++ moved id round by) }
{
    if by != 0 {
        moves.push(Offset {
            id,
            round,
            by: Word(by),
        })?;
    }
    Ok(())
}
