//! The parts of a run's transcript, in a ring between the thread that makes ticks and the one that writes their text.

ghost use Rattle.std.specs.Prelude.{◌≡◌, ◌<◌, ◌++◌, [], ◌∷◌, IfOk, IfSome, IfNone, IsTrue};
ghost use Rattle.rtrb.specs.Ring.{sent, known_free, received, IsPair, SameProducer, SameConsumer};

use crossbeam_utils::sync::{Parker, Unparker};
use rtrb::{Consumer, Producer, RingBuffer};
use std::alloc::{AllocError, Global};
use std::sync::Wait;
use std::sync::atomic::{AtomicBool, Ordering};
use transcript_log::Transcript;

/// So many parts may wait while the text of another one is made.
const PARTS_WAITING: usize = 1;

/// How far the two threads are. No clause speaks of it: it decides who waits, and nothing else.
#[derive(Drop)]
pub(crate) struct Progress {
    /// Whether all ticks are made, or no more can be.
    is_over: AtomicBool,
    /// Whether there is a thread that takes parts out.
    is_writing: AtomicBool,
}

impl Progress {
    /// Ticks are still to be made, and nobody takes parts out yet.
    pub(crate) fn new() -> Progress {
        Progress {
            is_over: AtomicBool::new(false),
            is_writing: AtomicBool::new(false),
        }
    }
}

/// The end at which parts go in.
#[derive(Drop)]
pub(crate) struct PartsIn<'p> {
    pub ring: Producer<Transcript>,
    progress: &'p Progress,
    parker: Parker,
    writer: Unparker,
}

/// The end at which parts come out.
#[derive(Drop)]
pub(crate) struct PartsOut<'p> {
    pub ring: Consumer<Transcript>,
    progress: &'p Progress,
    parker: Parker,
    runner: Unparker,
}

/// Both ends of a ring that has no part.
pub(crate) fn parts<'p>(
    alloc: Global,
    progress: &'p Progress,
) -> Result<(PartsIn<'p>, PartsOut<'p>), AllocError>
    ensures pair { IfOk result (λ ends. IsPair ends.0.ring ends.1.ring) }
    ensures none { IfOk result (λ ends. (sent ends.0.ring ≡ []) × (received ends.1.ring ≡ [])) }
{
    let (producer, consumer) = RingBuffer::new(alloc, PARTS_WAITING)?;
    let runner_parker = Parker::new(alloc)?;
    let writer_parker = Parker::new(alloc)?;
    let runner = runner_parker.unparker().clone()?;
    let writer = writer_parker.unparker().clone()?;
    let parts_in = PartsIn {
        ring: producer,
        progress,
        parker: runner_parker,
        writer,
    };
    let parts_out = PartsOut {
        ring: consumer,
        progress,
        parker: writer_parker,
        runner,
    };
    Ok((parts_in, parts_out))
}

impl<'p> PartsIn<'p> {
    /// Whether a part may go in. Where it is worth it, this waits as long as there is a thread that takes parts out.
    pub(crate) fn has_room<R: Wait>(&mut self, rt: &R, is_worth_waiting: bool) -> bool
        ensures ring { SameProducer self.old.ring self.new.ring × (sent self.new.ring ≡ sent self.old.ring) }
        ensures room { IsTrue result → 0 < known_free self.new.ring }
    {
        for _ in rt.forever() {
            if self.ring.slots() > 0 {
                return true;
            }
            if !is_worth_waiting || !self.progress.is_writing.load(Ordering::SeqCst) {
                return false;
            }
            self.parker.park(rt);
        }
        unreachable!()
    }

    /// A part goes in, and the thread that takes parts out is woken.
    pub(crate) fn give(&mut self, part: Transcript)
        requires room { 0 < known_free self.old.ring }
        ensures ring { SameProducer self.old.ring self.new.ring }
        ensures sent { sent self.new.ring ≡ sent self.old.ring ++ part ∷ [] }
    {
        self.ring.push_reserved(part);
        self.writer.unpark();
    }

    /// No part goes in any more.
    pub(crate) fn end(&self) {
        self.progress.is_over.store(true, Ordering::SeqCst);
        self.writer.unpark();
    }
}

impl<'p> PartsOut<'p> {
    /// From now on somebody takes parts out.
    pub(crate) fn begin(&self) {
        self.progress.is_writing.store(true, Ordering::SeqCst);
    }

    /// The next part, once there is one; none where all ticks are made and no part waits.
    pub(crate) fn next<R: Wait>(&mut self, rt: &R) -> Option<Transcript>
        ensures ring { SameConsumer self.old.ring self.new.ring }
        ensures some { IfSome result (λ part. received self.new.ring ≡ received self.old.ring ++ part ∷ []) }
        ensures none { IfNone result (received self.new.ring ≡ received self.old.ring) }
    {
        for _ in rt.forever() {
            let is_over = self.progress.is_over.load(Ordering::SeqCst);
            if let Ok(part) = self.ring.pop() {
                self.runner.unpark();
                return Some(part);
            }
            if is_over {
                return None;
            }
            self.parker.park(rt);
        }
        unreachable!()
    }

    /// From now on nobody takes parts out.
    pub(crate) fn end(&self) {
        self.progress.is_writing.store(false, Ordering::SeqCst);
        self.runner.unpark();
    }
}
