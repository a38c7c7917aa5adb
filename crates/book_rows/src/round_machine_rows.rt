//! One round, from its first reading to its total.

use crate::fixtures::check_same;
use missing_round::MeterSet;
use mod_word::Word;
use round_machine::{Closing, Ending, Round, Verdict};
use std::process::Abort;

fn check_fresh(rt: &impl Abort, verdict: Verdict, row: &str) {
    check_same(rt, &verdict, &Verdict::Fresh, row);
}

#[test]
fn answers_open_total_30(rt: HostRuntime) {
    let missing = MeterSet::empty().with(2);
    let mut round = Round::new(MeterSet::full(3), 2);
    check_fresh(&rt, round.take_reading(0, Word(122)), "reading 0");
    check_fresh(&rt, round.take_reading(1, Word(226)), "reading 1");
    check_same(
        &rt,
        &round.close(),
        &Closing::Announced(missing),
        "the close",
    );
    check_fresh(&rt, round.take_answer(0, Word(107)), "answer 0");
    check_fresh(&rt, round.take_answer(1, Word(211)), "answer 1");
    check_same(&rt, &round.end(), &Ending::Total(30), "the end");
    check_same(&rt, &round.survivors(), &MeterSet::full(2), "survivors");
}
