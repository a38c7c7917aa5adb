//! The words of `collect` and `meter`.

ghost use Rattle.std.specs.Prelude.{◌≡◌, None, Some, IfSome, MatchOption, map, string_bytes};
ghost use Rattle.command_words.specs.Words.{collect_with, collect_of, meter_with, meter_of};
ghost use Rattle.command_words.specs.Commands.{asked, IsWithin};

use crate::parsing::are_names;
use crate::words::{CollectFiles, Command, MeterFiles};

// `collect` with these files, where the words are names.
#[tactic(auto, unfolding(crate::specs::Words::collect_with))]
fn collect_with<'a>(public: &'a str, journal: &'a str, report: &'a str) -> Option<Command<'a>>
    ensures command { MatchOption result (collect_with public.now journal.now report.now ≡ None)
        (λ command. collect_with public.now journal.now report.now ≡ Some (asked command)) }
    ensures within { IfSome result (λ command. IsWithin command) }
{
    if are_names(&[public, journal, report]) {
        Some(Command::Collect(CollectFiles {
            public,
            journal,
            report,
        }))
    } else {
        None
    }
}

/// `collect` by the words behind the verb.
pub(crate) fn collect_words(words: &[String]) -> Option<Command<'_>>
    ensures command { MatchOption result (collect_of (map string_bytes words.now) ≡ None) (λ command. collect_of (map string_bytes words.now) ≡ Some (asked command)) }
    ensures within { IfSome result (λ command. IsWithin command) }
{
    match words {
        [public, journal, report] => collect_with(public, journal, report),
        _ => None,
    }
}

/// `meter` by the words behind the verb.
#[tactic(auto, unfolding(crate::specs::Words::meter_with))]
pub(crate) fn meter_words(words: &[String]) -> Option<Command<'_>>
    ensures command { MatchOption result (meter_of (map string_bytes words.now) ≡ None) (λ command. meter_of (map string_bytes words.now) ≡ Some (asked command)) }
    ensures within { IfSome result (λ command. IsWithin command) }
{
    match words {
        [meter, journal] => {
            if are_names(&[meter, journal]) {
                Some(Command::Meter(MeterFiles { meter, journal }))
            } else {
                None
            }
        }
        _ => None,
    }
}
