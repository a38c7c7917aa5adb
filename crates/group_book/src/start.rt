//! What a group begins with: every round with its members, and no word.

ghost use Rattle.std.specs.Prelude.{◌≡◌, ◌<◌, IsTrue, IfOk, OnOk, None, length, map, replicate};
ghost use Rattle.std.specs.List.{range_with_len};
ghost use Rattle.group_plan.specs.Plans.{IsWithinLimits};
ghost use Rattle.group_book.specs.Places.{is_round};
ghost use Rattle.group_book.specs.Groups.{group_tags};
ghost use Rattle.group_book.specs.Start.{first_page};

use crate::page::Page;
use crate::words::Words;
use event_schedule::{floor_of, members};
use group_plan::Plan;
use std::alloc::{AllocError, Global};

// The page with which a round begins.
fn first_page(plan: &Plan, group: u16, round: u32) -> Page
    requires { IsTrue (is_round plan.now group round) }
    ensures { result ≡ first_page plan.now group round }
{
    Page::new(members(plan, group, round), floor_of(plan, group))
}

/// The pages with which the rounds of a group begin.
pub(crate) fn first_pages(alloc: Global, plan: &Plan, group: u16) -> Result<Vec<Page>, AllocError>
    requires { group < length plan.now.groups }
    ensures { IfOk result (λ pages. pages.items ≡ map (first_page plan.now group) (range_with_len 0 plan.now.rounds)) }
{
    let rounds = plan.rounds();
    let mut pages = Vec::with_capacity(alloc, rounds as usize)?;
    for round in 0..rounds {
        pages.push(first_page(plan, group, round))?;
    }
    Ok(pages)
}

/// No word under any tag of a group of so many rounds and meters.
pub(crate) fn no_words(alloc: Global, rounds: u32, meters: u16) -> Result<Words, AllocError>
    ensures { IfOk result (λ words. words ≡ replicate (group_tags rounds meters) None) }
{
    Words::none(alloc, meters as usize * (rounds as usize * 3))
}
