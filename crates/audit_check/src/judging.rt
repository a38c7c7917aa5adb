//! The audit of a text that comes piece by piece: its lines are judged as soon as they have come, and not kept.

ghost use Rattle.std.specs.Prelude.{◌≡◌, ◌++◌, [], List, ℕ, IfOk};
ghost use Rattle.audit_check.specs.Passes.{ReplayedText};
ghost use Rattle.audit_check.specs.Judging.{CanTake, HasTaken};

use crate::auditing::Replayed;
use crate::passing::{Pass, line_of};
use event_schedule::Entry;
use group_plan::Plan;
use std::alloc::{AllocError, Global};
use std::thread::Threads;
use transcript_feed::{EntrySink, TextFeed};
use transcript_text::{ReadError, Version};

/// What judges the entries of a transcript as they come.
#[derive(Drop)]
struct EntryJudge {
    plan: Plan,
    /// What is kept of the entries so far.
    pass: Pass,
}

impl EntrySink for EntryJudge {
    ghost use Rattle.audit_check.specs.Judging.{HasJudged};

    ghost has = { HasJudged };

    fn begin(alloc: Global, plan: &Plan) -> Result<Self, AllocError> {
        Ok(EntryJudge {
            plan: plan.try_copy()?,
            pass: Pass::new(alloc, plan)?,
        })
    }

    fn take(self, lists: &[Vec<Entry>]) -> Result<Self, AllocError> {
        let EntryJudge { plan, pass } = self;
        Ok(EntryJudge {
            plan,
            pass: pass.over(lists)?,
        })
    }
}

/// A judge of the text of a transcript of version 2 that comes piece by piece. While the lines of a piece are judged, those of the
/// next are read side by side. Memory grows with the plan and the pieces alone, where the text has a head.
#[derive(Drop)]
pub struct TextJudge<'a, R: Threads + Sync> {
    feed: TextFeed<'a, R, EntryJudge>,
}

impl<'a, R: Threads + Sync> TextJudge<'a, R> {
    /// A judge of a text of which nothing has come.
    pub fn new(rt: &'a R, alloc: Global) -> TextJudge<'a, R>
        ensures { HasTaken result [] }
    {
        TextJudge {
            feed: TextFeed::new(rt, alloc, Version::Two),
        }
    }

    /// Takes the bytes by which the text goes on.
    pub fn take(self, bytes: &[u8]) -> Result<TextJudge<'a, R>, AllocError>
        requires { CanTake self }
        ensures { IfOk result (λ judge. (before : List ℕ) → HasTaken self.entry before → HasTaken judge (before ++ bytes.now)) }
    {
        Ok(TextJudge {
            feed: self.feed.take(bytes)?,
        })
    }

    /// What is kept of the text, where no more bytes come; or its first fault.
    pub fn finish(self) -> Result<Replayed, ReadError>
        requires { CanTake self }
        ensures { (text : List ℕ) → HasTaken self.entry text → ReplayedText text result }
    {
        let judge = match self.feed.finish() {
            Ok(judge) => judge,
            Err(fault) => return Err(fault),
        };
        let EntryJudge { plan, pass } = judge;
        let line = line_of(&plan, pass.impossible);
        Ok(Replayed::new(pass.replay.rounds, line))
    }
}
