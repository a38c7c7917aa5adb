//! Keys of equal bytes.

ghost use Rattle.std.specs.Prelude.{◌≡◌, IfOk};
ghost use Rattle.pair_keys.specs.Keys.{keys_of, table_of};

use group_plan::Plan;
use pair_keys::{KeyPile, KeyTable};
use std::alloc::Global;
use std::test::Fail;

// Puts the own keys of three meters, and those of the pairs 0 1, 0 2 and 1 2, each of equal bytes.
fn put_keys(pile: &mut KeyPile, bytes: [u8; 6]) -> Result<(), Fail>
    ensures { (keys_of pile.new).plan ≡ (keys_of pile.old).plan }
{
    pile.put_own(0, 0, [bytes[0]; 32])?;
    pile.put_own(0, 1, [bytes[1]; 32])?;
    pile.put_own(0, 2, [bytes[2]; 32])?;
    pile.put_pair(0, 0, 1, [bytes[3]; 32])?;
    pile.put_pair(0, 0, 2, [bytes[4]; 32])?;
    pile.put_pair(0, 1, 2, [bytes[5]; 32])?;
    Ok(())
}

/// The keys of a plan of `north`: the own keys of the meters, and those of the pairs 0 1, 0 2 and 1 2, each of equal bytes.
/// Fails where the plan has other keys, and where memory runs out.
pub fn keys_of_north(alloc: Global, plan: &Plan, bytes: [u8; 6]) -> Result<KeyTable, Fail>
    ensures { IfOk result (λ keys. (table_of keys).plan ≡ plan.now) }
{
    let mut pile = KeyPile::new(alloc, plan)?;
    put_keys(&mut pile, bytes)?;
    match pile.finish() {
        Ok(keys) => Ok(keys),
        Err(_) => Err(Fail::new("a key is missing")),
    }
}
