//! The command `audit`.

ghost use Rattle.std.specs.Prelude.{◌≤◌};
ghost use Rattle.desk_outside.specs.Desk.{Rose};
ghost use Rattle.file_commands.specs.AuditEnds.{AuditCommandEnds};
ghost use Rattle.command_words.specs.Outcomes.{IsFault};

use audit_check::TextJudge;
use command_files::{pour_and_fetch, say};
use command_texts::{audit_texts, audited_line};
use command_words::{AuditFiles, Outcome};
use desk_outside::{Desk, Sink};
use std::alloc::{AllocError, Global};
use std::thread::Threads;

/// A judge of a transcript's text that takes its bytes from a desk.
#[derive(Drop)]
struct Auditor<'a, R: Threads + Sync> {
    judge: TextJudge<'a, R>,
}

impl<'a, R: Threads + Sync> Sink for Auditor<'a, R> {
    ghost use Rattle.std.specs.Thread.{IsSync};
    ghost use Rattle.audit_check.specs.Judging.{HasTaken};

    // Threads may share the handle.
    ghost has = { λ auditor text. IsSync R.row × HasTaken auditor.judge text };

    fn take(self, bytes: &[u8]) -> Result<Self, AllocError> {
        Ok(Auditor {
            judge: self.judge.take(bytes)?,
        })
    }
}

/// Judges a transcript piece by piece, fetches a report, and says whether the report is what the frames say. It is handed no key and no reading.
pub fn audit<'a, R: Threads + Sync, D: Desk>(
    rt: &R,
    alloc: Global,
    files: AuditFiles<'a>,
    desk: &mut D,
) -> Outcome<'a>
    ensures ends { AuditCommandEnds files.entry.transcript.now files.entry.report.now (D.view desk.old) (D.view desk.new) result }
    ensures later { D.faults desk.old ≤ D.faults desk.new }
    ensures cause { IsFault result → Rose (D.faults desk.old) (D.faults desk.new) }
{
    let auditor = Auditor {
        judge: TextJudge::new(rt, alloc),
    };
    let poured = pour_and_fetch(alloc, files.transcript, auditor, files.report, desk);
    let (auditor, report) = match poured {
        Ok(read) => read,
        Err(outcome) => return outcome,
    };
    let counts = match audit_texts(alloc, files, auditor.judge.finish(), &report) {
        Ok(counts) => counts,
        Err(outcome) => return outcome,
    };
    let Ok(line) = audited_line(alloc, counts) else {
        return Outcome::NoMemory;
    };
    say(line.as_bytes(), desk)
}
