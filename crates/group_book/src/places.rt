//! Where a book keeps the words of a group's tags.

ghost use Rattle.std.specs.Prelude.{◌≡◌, ◌<◌};
ghost use Rattle.group_book.specs.Groups.{word_in};
ghost use Rattle.group_book.specs.Places.{is_round, kind_number};

use group_plan::{Kind, Plan, Tag};

/// Whether the plan has this group and round.
pub(crate) fn is_round(plan: &Plan, group: u16, round: u32) -> bool
    ensures { result ≡ is_round plan.now group round }
{
    (group as usize) < plan.groups().len() && round < plan.rounds()
}

// The order in which words are kept: readings, announcements, answers.
fn kind_number(kind: Kind) -> usize
    ensures number { result ≡ kind_number kind }
    ensures within { result < 3 }
{
    match kind {
        Kind::Reading => 0,
        Kind::Announcement => 1,
        Kind::Answer => 2,
    }
}

/// The place of a tag's word in its group of so many rounds and meters, counted from 0: kinds one after another, in each the rounds,
/// and in each of these the meters.
pub(crate) fn word_in(rounds: u32, meters: u16, tag: Tag) -> usize
    ensures { result ≡ word_in rounds meters tag.round tag.meter tag.kind }
{
    (kind_number(tag.kind) * rounds as usize + tag.round as usize) * meters as usize
        + tag.meter as usize
}
