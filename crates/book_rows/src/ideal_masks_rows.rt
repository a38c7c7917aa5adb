//! Rows of lists of moved words.

use crate::fixtures::check;
use ideal_masks::{Offset, Offsets};
use mod_word::Word;
use pair_keys::KeyId;
use std::alloc::Global;
use std::test::Fail;

// An own word that moves.
fn own(group: u32, round: u32, meter: u32, by: u64) -> Offset {
    Offset {
        id: KeyId::Own { group, meter },
        round,
        by: Word(by),
    }
}

// A pair's word of group 0 that moves in round 0.
fn pair(low: u32, high: u32, by: u64) -> Offset {
    Offset {
        id: KeyId::Pair {
            group: 0,
            low,
            high,
        },
        round: 0,
        by: Word(by),
    }
}

// Rows in the order of the masks file: by group, by round, own words by meter, and then pair words by the lower meter and the
// higher.
fn in_order() -> [Offset; 7] {
    [
        own(0, 0, 1, 1),
        own(0, 0, 2, 18_446_744_073_709_551_615),
        pair(0, 1, 7),
        pair(0, 2, 7),
        pair(1, 2, 7),
        own(0, 1, 0, 5),
        own(1, 0, 0, 5),
    ]
}

// Two rows in another order, and which it is.
fn out_of_order() -> [(&'static str, [Offset; 2]); 7] {
    [
        ("a word twice", [own(0, 0, 1, 1), own(0, 0, 1, 2)]),
        (
            "the higher own word first",
            [own(0, 0, 2, 1), own(0, 0, 1, 1)],
        ),
        (
            "a pair before an own word",
            [pair(0, 1, 1), own(0, 0, 2, 1)],
        ),
        ("the higher pair first", [pair(0, 2, 1), pair(0, 1, 1)]),
        ("the lower meters fall", [pair(1, 2, 1), pair(0, 3, 1)]),
        ("the rounds fall", [own(0, 1, 0, 1), own(0, 0, 1, 1)]),
        ("the groups fall", [own(1, 0, 0, 1), own(0, 1, 0, 1)]),
    ]
}

// Two rows in order, of which one is no moved word, and why.
fn unmoved() -> [(&'static str, [Offset; 2]); 3] {
    [
        ("a word of 0", [own(0, 0, 0, 1), own(0, 0, 1, 0)]),
        ("a pair of one meter", [own(0, 0, 0, 1), pair(2, 2, 1)]),
        ("the higher meter first", [pair(0, 1, 1), pair(2, 1, 1)]),
    ]
}

// How many rows the list has that is made of these, where it is made.
fn length_of(alloc: Global, rows: &[Offset]) -> Result<Option<usize>, Fail> {
    match Offsets::new(Vec::from_slice(alloc, rows)?) {
        Some(offsets) => Ok(Some(offsets.moved().len())),
        None => Ok(None),
    }
}

#[test]
fn lists_of_rows(rt: HostRuntime) -> Result<(), Fail> {
    let all = length_of(rt.alloc(), &in_order())?;
    check(&rt, all == Some(7), "in order");
    let none = length_of(rt.alloc(), &[])?;
    check(&rt, none == Some(0), "no row");
    for (row, rows) in out_of_order().iter() {
        check(&rt, length_of(rt.alloc(), rows)?.is_none(), row);
    }
    for (row, rows) in unmoved().iter() {
        check(&rt, length_of(rt.alloc(), rows)?.is_none(), row);
    }
    Ok(())
}
