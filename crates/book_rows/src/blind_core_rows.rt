//! Words over tables of masks that are listed.

ghost use Rattle.std.specs.Prelude.{◌+◌, ◌-◌, ◌*◌, [], ◌∷◌, replicate, slice_index_or};

use crate::fixtures::{check_all, check_same};
use blind_core::{answer, answers, masked, masked_group, masked_rounds};
use mask_stream::Masks;
use missing_round::MeterSet;
use mod_word::Word;
use std::process::Abort;
use std::sync::atomic::{AtomicU32, Ordering};
use std::test::Fail;

// The masks of up to three meters, the same in each of eight rounds: the own words, and the words of the pairs 0 1, 0 2 and
// 1 2.
#[derive(Clone, Copy)]
struct Listed {
    own: [u64; 3],
    pair: [u64; 3],
}

impl Masks for Listed {
    ghost plan = { λ s. record { groups = record { name = []; floor = 2; spans = replicate 3 (record { from = 0; until = 8 }) } ∷ []; rounds = 8; w1 = 1; w2 = 2 } };

    ghost table = { λ s. record { own = λ g r i. slice_index_or s.own i 0; pair = λ g r i j. slice_index_or s.pair (i + j - 1) 0 } };

    fn own(&self, _group: u16, _round: u32, meter: u8) -> Word {
        Word(self.own.get(usize::from(meter)).copied().unwrap_or(0))
    }

    fn pair(&self, _group: u16, _round: u32, low: u8, high: u8) -> Word {
        let place = usize::from(low) + usize::from(high) - 1;
        Word(self.pair.get(place).copied().unwrap_or(0))
    }
}

// Masks of 64 meters in nine rounds, made of the round and the meters, with the number of pair words that were asked.
#[derive(Drop)]
struct Counting {
    asked: AtomicU32,
}

impl Masks for Counting {
    ghost plan = { λ s. record { groups = record { name = []; floor = 2; spans = replicate 64 (record { from = 0; until = 9 }) } ∷ []; rounds = 9; w1 = 1; w2 = 2 } };

    ghost table = { λ s. record { own = λ g r i. 1000 * r + i; pair = λ g r i j. 1000000 * r + 1000 * i + j } };

    fn own(&self, _group: u16, round: u32, meter: u8) -> Word {
        Word(1000 * u64::from(round) + u64::from(meter))
    }

    fn pair(&self, _group: u16, round: u32, low: u8, high: u8) -> Word {
        self.asked.fetch_add(1, Ordering::SeqCst);
        Word(1_000_000 * u64::from(round) + 1000 * u64::from(low) + u64::from(high))
    }
}

const IDEAL: Listed = Listed {
    own: [100, 200, 300],
    pair: [5, 7, 11],
};

#[test]
fn words_over_ideal_table(rt: HostRuntime) {
    let all = MeterSet::full(3);
    let words = [
        masked(&IDEAL, 0, &all, 0, 0, 10),
        masked(&IDEAL, 0, &all, 0, 1, 20),
        masked(&IDEAL, 0, &all, 0, 2, 30),
    ];
    check_same(&rt, &words, &[Word(122), Word(226), Word(312)], "the words");
}

#[test]
fn group_words_at_once(rt: HostRuntime) -> Result<(), Fail> {
    let readings = [Some(10), Some(20), Some(30)];
    let words = masked_group(rt.alloc(), &IDEAL, 0, &MeterSet::full(3), 0, &readings)?;
    check_all(&rt, &words, &[Word(122), Word(226), Word(312)], "the words");
    Ok(())
}

// Words that look random, and the same at each run.
fn next_word(seed: u64) -> u64 {
    let mixed = (seed ^ (seed >> 29)).wrapping_mul(0xbf58_476d_1ce4_e5b9);
    (mixed ^ (mixed >> 32)).wrapping_add(0x9e37_79b9_7f4a_7c15)
}

#[test]
fn group_as_one_by_one(rt: HostRuntime) -> Result<(), Fail> {
    let mut seed = 7;
    for _ in 0..20 {
        let mut words = [0u64; 6];
        for place in 0..words.len() {
            seed = next_word(seed);
            words[place] = seed;
        }
        let [own0, own1, own2, pair01, pair02, pair12] = words;
        let masks = Listed {
            own: [own0, own1, own2],
            pair: [pair01, pair02, pair12],
        };
        let all = MeterSet::full(3);
        let readings = [Some(1), Some(1 << 39), Some(1_099_511_627_775)];
        let group = masked_group(rt.alloc(), &masks, 0, &all, 0, &readings)?;
        let alone = [
            masked(&masks, 0, &all, 0, 0, 1),
            masked(&masks, 0, &all, 0, 1, 1 << 39),
            masked(&masks, 0, &all, 0, 2, 1_099_511_627_775),
        ];
        check_all(&rt, &group, &alone, "a group");
    }
    Ok(())
}

#[test]
fn answers_open_total_30(rt: HostRuntime) {
    let missing = MeterSet::empty().with(2);
    let first = answer(&IDEAL, 0, 0, 0, &missing);
    check_same(&rt, &first, &Word(107), "meter 0");
    let second = answer(&IDEAL, 0, 0, 1, &missing);
    check_same(&rt, &second, &Word(211), "meter 1");
    let both = answers(&IDEAL, 0, 0, &MeterSet::full(2), &missing);
    check_same(&rt, &[both[0], both[1]], &[107, 211], "both meters");
}

#[test]
fn words_over_two_members(rt: HostRuntime) {
    let two = MeterSet::full(2);
    let words = [
        masked(&IDEAL, 0, &two, 0, 0, 10),
        masked(&IDEAL, 0, &two, 0, 1, 20),
    ];
    check_same(&rt, &words, &[Word(115), Word(215)], "the words");
}

#[test]
fn higher_meter_subtracts(rt: HostRuntime) {
    let one = Listed {
        own: [0, 0, 0],
        pair: [1, 0, 0],
    };
    let word = masked(&one, 0, &MeterSet::full(2), 0, 1, 0);
    check_same(&rt, &word, &Word(0xffff_ffff_ffff_ffff), "the word");
}

// Looks for the number of pair words that were asked.
fn check_asked(rt: &impl Abort, masks: &Counting, count: u32) {
    check_same(
        rt,
        &masks.asked.load(Ordering::SeqCst),
        &count,
        "pair words",
    );
}

#[test]
fn each_pair_word_asked_once(rt: HostRuntime) -> Result<(), Fail> {
    let masks = Counting {
        asked: AtomicU32::new(0),
    };
    let readings = [Some(1); 64];
    let words = masked_group(rt.alloc(), &masks, 0, &MeterSet::full(64), 0, &readings)?;
    check_same(&rt, &words.len(), &64, "the words");
    check_asked(&rt, &masks, 2016);
    let missing = MeterSet::empty().with(5).with(6);
    let _answers = answers(&masks, 0, 0, &MeterSet::full(4), &missing);
    check_asked(&rt, &masks, 2016 + 8);
    Ok(())
}

#[test]
fn eight_rounds_as_one_by_one(rt: HostRuntime) -> Result<(), Fail> {
    let masks = Counting {
        asked: AtomicU32::new(0),
    };
    let all = MeterSet::full(64);
    let words = masked_rounds(rt.alloc(), &masks, 0, &all, 1, &[[Some(3); 8]; 64])?;
    check_same(&rt, &words.len(), &64, "the words");
    check_asked(&rt, &masks, 8 * 2016);
    for round in 0..8u32 {
        let group = masked_group(rt.alloc(), &masks, 0, &all, 1 + round, &[Some(3); 64])?;
        for (row, word) in words.iter().zip(&group) {
            check_same(&rt, &row[round as usize], &word.value(), "a word");
        }
    }
    Ok(())
}
