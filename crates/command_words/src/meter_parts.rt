//! The words of `parts`.

ghost use Rattle.std.specs.Prelude.{◌≡◌, None, Some, IfSome, MatchOption, map, string_bytes};
ghost use Rattle.command_words.specs.Words.{group_of, parts_with, parts_of};
ghost use Rattle.command_words.specs.Commands.{asked, IsWithin};

use crate::parsing::MOST_OF_EACH;
use crate::words::{Command, PartsWords};
use field_texts::read_number_within;

// The group that a word spells.
fn group(word: &str) -> Option<u16>
    ensures { result ≡ group_of word.now }
{
    let group = read_number_within(word.as_bytes(), 0, MOST_OF_EACH)?;
    Some(group as u16)
}

// `parts` with this plan, where it is a name.
#[tactic(auto, unfolding(crate::specs::Words::parts_with))]
fn parts_with<'a>(plan: &'a str, prefix: &'a str, group: u16) -> Option<Command<'a>>
    ensures command { MatchOption result (parts_with plan.now prefix.now group ≡ None)
        (λ command. parts_with plan.now prefix.now group ≡ Some (asked command)) }
    ensures within { IfSome result (λ command. IsWithin command) }
{
    if plan.is_empty() {
        None
    } else {
        Some(Command::Parts(PartsWords {
            plan,
            group,
            prefix,
        }))
    }
}

/// `parts` by the words behind the verb.
pub(crate) fn parts_words(words: &[String]) -> Option<Command<'_>>
    ensures command { MatchOption result (parts_of (map string_bytes words.now) ≡ None) (λ command. parts_of (map string_bytes words.now) ≡ Some (asked command)) }
    ensures within { IfSome result (λ command. IsWithin command) }
{
    match words {
        [plan, number, prefix] => {
            let group = group(number)?;
            parts_with(plan, prefix, group)
        }
        _ => None,
    }
}
