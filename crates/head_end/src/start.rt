//! What a head end begins with: every round with its members, and no word.

ghost use Rattle.std.specs.Prelude.{◌≡◌, ◌<◌, IsTrue, IfOk, map, replicate};
ghost use Rattle.std.specs.List.{range_with_len};
ghost use Rattle.group_plan.specs.Places.{places};
ghost use Rattle.group_book.specs.Places.{is_round, all_rounds};
ghost use Rattle.head_end.specs.Kept.{first_round, first_round_at};

use event_schedule::{floor_of, members};
use group_plan::Plan;
use mod_word::Word;
use round_machine::Round;
use std::alloc::{AllocError, Global};

// The round before anything was taken in it.
fn first_round(plan: &Plan, group: u16, round: u32) -> Round
    requires { IsTrue (is_round plan.now group round) }
    ensures { result ≡ first_round plan.now group round }
{
    Round::new(members(plan, group, round), floor_of(plan, group))
}

// The same by the number of the round.
fn first_round_at(plan: &Plan, at: usize) -> Round
    requires { at < all_rounds plan.now }
    ensures { result ≡ first_round_at plan.now at }
{
    let rounds = plan.rounds() as usize;
    first_round(plan, (at / rounds) as u16, (at % rounds) as u32)
}

/// The rounds with which a head end begins, one after another by groups.
pub(crate) fn first_rounds(alloc: Global, plan: &Plan) -> Result<Vec<Round>, AllocError>
    ensures { IfOk result (λ rounds. rounds.items ≡ map (first_round_at plan.now) (range_with_len 0 (all_rounds plan.now))) }
{
    let all = plan.rounds() as usize * plan.groups().len();
    let mut rounds = Vec::with_capacity(alloc, all)?;
    for at in 0..all {
        rounds.push(first_round_at(plan, at))?;
    }
    Ok(rounds)
}

/// A word of 0 at each place.
pub(crate) fn no_words(alloc: Global, plan: &Plan) -> Result<Vec<Word>, AllocError>
    ensures { IfOk result (λ words. words.items ≡ replicate (places plan.now) 0) }
{
    vec![in alloc; Word(0); plan.places()]
}
