//! Keys that are put, refused and missing.

use crate::fixtures::{check, check_same};
use group_plan::Plan;
use pair_keys::{KeyError, KeyId, KeyPile};
use row_fixtures::group;
use std::alloc::Global;
use std::process::Abort;
use std::test::Fail;

const TWICE: KeyError = KeyError::Twice(KeyId::Own { group: 0, meter: 0 });

// Groups and meters of own keys: one of the plan, the same again, and others outside the plan.
static OWN_KEYS: [(u32, u32, Result<(), KeyError>); 6] = [
    (0, 0, Ok(())),
    (0, 0, Err(TWICE)),
    (0, 2, Err(KeyError::Range)),
    (0, 256, Err(KeyError::Range)),
    (1, 0, Err(KeyError::Range)),
    (65536, 0, Err(KeyError::Range)),
];

// Pairs of the first group that are outside the plan.
static PAIRS: [(u32, u32); 4] = [(0, 0), (1, 0), (1, 1), (0, 2)];

// Puts these keys.
fn check_puts(rt: &impl Abort, pile: &mut KeyPile) {
    for (group, meter, expected) in OWN_KEYS.iter() {
        let put = pile.put_own(*group, *meter, [7; 32]);
        check_same(rt, &put, expected, "own");
    }
    for (low, high) in PAIRS.iter() {
        let put = pile.put_pair(0, *low, *high, [7; 32]);
        check_same(rt, &put, &Err(KeyError::Range), "a pair");
    }
}

// Puts a key of equal bytes.
fn put_key(pile: &mut KeyPile, id: KeyId) -> Result<(), KeyError> {
    match id {
        KeyId::Own { group, meter } => pile.put_own(group, meter, [8; 32]),
        KeyId::Pair { group, low, high } => pile.put_pair(group, low, high, [9; 32]),
    }
}

// The pile in which this key is the first that is missing, with this key.
fn with_missing(rt: &impl Abort, pile: KeyPile, missing: KeyId) -> Result<KeyPile, Fail> {
    let Err(unfinished) = pile.finish() else {
        return Err(Fail::new("no key is missing"));
    };
    check_same(rt, &unfinished.missing, &missing, "a missing key");
    let mut pile = unfinished.pile;
    let put = put_key(&mut pile, missing);
    check_same(rt, &put, &Ok(()), "a key that was missing");
    Ok(pile)
}

// A pile for two meters, without a key.
fn empty_pile(alloc: Global) -> Result<KeyPile, Fail> {
    let plan = Plan::new(alloc, &[group(b"north", 2, 2)?], 1, 1, 2)?;
    Ok(KeyPile::new(alloc, &plan)?)
}

const OWN: KeyId = KeyId::Own { group: 0, meter: 1 };

const PAIR: KeyId = KeyId::Pair {
    group: 0,
    low: 0,
    high: 1,
};

#[test]
fn keys_of_two_meters(rt: HostRuntime) -> Result<(), Fail> {
    let mut pile = empty_pile(rt.alloc())?;
    check_puts(&rt, &mut pile);
    let pile = with_missing(&rt, pile, OWN)?;
    let pile = with_missing(&rt, pile, PAIR)?;
    check(&rt, pile.finish().is_ok(), "the end");
    Ok(())
}
