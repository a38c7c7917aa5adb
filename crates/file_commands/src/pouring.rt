//! A transcript that is read while its file comes from a desk.

ghost use Rattle.std.specs.Prelude.{◌≤◌, IfErr};
ghost use Rattle.desk_outside.specs.Desk.{Rose};
ghost use Rattle.command_words.specs.Outcomes.{IsFault};
ghost use Rattle.file_commands.specs.Pouring.{FetchedAndPoured};

use command_files::{fetch, pour};
use command_words::Outcome;
use desk_outside::{Desk, Sink};
use std::alloc::{AllocError, Global};
use std::thread::Threads;
use transcript_feed::{TextFeed, kept};
use transcript_log::Transcript;
use transcript_text::{ReadError, Version};

/// A transcript's text of version 2, whose bytes come from a desk.
#[derive(Drop)]
struct PouredText<'a, R: Threads + Sync> {
    feed: TextFeed<'a, R, Transcript>,
}

impl<'a, R: Threads + Sync> Sink for PouredText<'a, R> {
    ghost use Rattle.std.specs.Thread.{IsSync};
    ghost use Rattle.transcript_feed.specs.Feeds.{HasTaken};
    ghost use Rattle.transcript_feed.specs.Kept.{IsKept};
    ghost use Rattle.transcript_text.specs.declared.version.Version.TheVariants.{Two};

    // Threads may share the handle.
    ghost has = { λ poured text. IsSync R.row × HasTaken IsKept Two poured.feed text };

    fn take(self, bytes: &[u8]) -> Result<Self, AllocError> {
        Ok(PouredText {
            feed: self.feed.take(bytes)?,
        })
    }
}

/// Fetches a file, and then reads a transcript while its file comes: the bytes of the first, and the transcript or its first fault; or says
/// how the command ends.
pub(crate) fn fetch_and_pour<'a, R: Threads + Sync, D: Desk>(
    rt: &R,
    alloc: Global,
    first: &'a str,
    second: &'a str,
    desk: &mut D,
) -> Result<(Vec<u8>, Result<Transcript, ReadError>), Outcome<'a>>
    ensures ends { FetchedAndPoured first.now second.now (D.view desk.old) (D.view desk.new) result }
    ensures later { D.faults desk.old ≤ D.faults desk.new }
    ensures cause { IfErr result (λ outcome. IsFault outcome → Rose (D.faults desk.old) (D.faults desk.new)) }
{
    let bytes = or_fail!(fetch(alloc, first, desk));
    let text = PouredText {
        feed: TextFeed::new(rt, alloc, Version::Two),
    };
    let poured = or_fail!(pour(alloc, second, text, desk));
    Ok((bytes, kept(poured.feed)))
}
