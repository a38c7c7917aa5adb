//! A transcript whose text comes piece by piece: its entries are kept.

ghost use Rattle.std.specs.Prelude.{◌≡◌, ◌++◌, List, ℕ, All, IfOk, OnOk};
ghost use Rattle.event_schedule.specs.Transcripts.{Fits, NeverFalls, last_tick_from};
ghost use Rattle.transcript_text.specs.declared.version.Version.{Version};
ghost use Rattle.transcript_text.specs.Ahead.{entries_of};
ghost use Rattle.transcript_text.specs.Heads.{read_of};
ghost use Rattle.transcript_text.specs.ReadBack.{HasHead};
ghost use Rattle.transcript_text.specs.Reading.{Gives};
ghost use Rattle.transcript_text.specs.Readers.{IsTextOfWhatIsRead};
ghost use Rattle.transcript_feed.specs.Feeds.{CanTake, HasTaken};
ghost use Rattle.transcript_feed.specs.Kept.{IsKept};

use crate::feed::TextFeed;
use crate::sink::EntrySink;
use event_schedule::Entry;
use group_plan::Plan;
use std::alloc::{AllocError, Global};
use std::thread::Threads;
use transcript_log::Transcript;
use transcript_text::{ReadError, put_all};

// Puts the entries of some lists behind those of a transcript.
fn put_lists(transcript: &mut Transcript, lists: &[Vec<Entry>]) -> Result<(), AllocError>
    requires ticks { NeverFalls (last_tick_from 0 transcript.old.entries) (entries_of lists.now) }
    requires fits { All (Fits transcript.old.plan) (entries_of lists.now) }
    ensures { OnOk result (transcript.new ≡ record transcript.old { entries = transcript.old.entries ++ entries_of lists.now }) }
{
    for entries in lists {
        put_all(transcript, entries)?;
    }
    Ok(())
}

/// A transcript keeps the entries that it takes.
impl EntrySink for Transcript {
    ghost use Rattle.transcript_feed.specs.Kept.{IsKept};

    ghost has = { IsKept };

    fn begin(alloc: Global, plan: &Plan) -> Result<Self, AllocError> {
        Transcript::empty(alloc, plan)
    }

    fn take(self, lists: &[Vec<Entry>]) -> Result<Self, AllocError> {
        let mut transcript = self;
        put_lists(&mut transcript, lists)?;
        Ok(transcript)
    }
}

/// The transcript of a text that came piece by piece, where no more bytes come; or the text's first fault.
pub fn kept<R: Threads + Sync>(feed: TextFeed<'_, R, Transcript>) -> Result<Transcript, ReadError>
    requires { CanTake IsKept feed }
    ensures exact { (version : Version) (text : List ℕ) → HasTaken IsKept version feed.entry text → Gives (λ t. t) result (read_of version text) }
    ensures head { (version : Version) (text : List ℕ) → HasTaken IsKept version feed.entry text → IfOk result (λ t. HasHead version t.plan) }
    ensures law { (version : Version) (text : List ℕ) → HasTaken IsKept version feed.entry text → IsTextOfWhatIsRead version text }
{
    feed.finish()
}
