//! Worked rows. The book of the plain case has one group of three meters with floor 2, and one round, in which each has a
//! reading; the words are those of the readings 10, 20 and 30 under keys of zeros.

ghost use Rattle.std.specs.Prelude.{◌≡◌, OnOk, None, []};
ghost use Rattle.shared_book.specs.Passes.{new_pass};
ghost use Rattle.shared_book.specs.Ends.{view, IsPassOf};

use crate::fixtures::{
    book_of_north, book_of_two, check, check_all, check_same, parcel, reading_frame, sent_book,
    shared_of,
};
use collector_workers::{Collected, Crew, Free, Gate, Mark, Outcome, Workers, collect, gather};
use group_book::{Book, TakeError};
use meter_frames::FrameError;
use missing_round::MeterSet;
use round_machine::{Closing, Verdict};
use shared_book::{Parcel, Pass, Reply, SharedBook};
use std::alloc::Global;
use std::process::Abort;
use std::sync::Wait;
use std::sync::atomic::{AtomicU64, Ordering};
use std::test::Fail;
use std::thread::Threads;
use transcript_log::Lines;

const READINGS: [u64; 3] = [10, 20, 30];

const WORDS: [u64; 3] = [
    0xb0b9_d4e2_09a2_296c,
    0x903d_f1a0_ade0_b88a,
    0x6fc2_0e5f_521f_47a8,
];

const FRESH: Mark = Mark::Made(Reply::Took(Verdict::Fresh));

fn new_book(alloc: Global) -> Result<Book, Fail> {
    book_of_north(alloc, &READINGS, 0)
}

// So many workers, and a gate.
fn crew_of<'a, R, G>(rt: &'a R, alloc: Global, workers: Workers, gate: &'a G) -> Crew<'a, R, G> {
    Crew {
        rt,
        alloc,
        workers,
        gate,
    }
}

// What a crew makes of a copy of the book by a batch.
fn collected<R: Threads + Wait + Sync>(
    crew: &Crew<'_, R, Free>,
    book: &Book,
    batch: &[Parcel],
) -> Result<Collected, Fail> {
    match collect(crew, book.try_copy()?, batch) {
        Ok(collected) => Ok(collected),
        Err(_) => Err(Fail::new("no memory")),
    }
}

// What the parcels of a batch become, where a crew commits it behind the first pass.
fn outcomes_of<R: Threads + Wait + Sync>(
    crew: &Crew<'_, R, Watch>,
    shared: &SharedBook,
    first: &mut Pass,
    batch: &[Parcel],
) -> Result<Vec<Outcome>, Fail>
    requires { IsPassOf shared.now first.old × (view first.old ≡ new_pass 0 []) }
{
    Ok(gather(crew, shared, first, batch)?)
}

// The same on a shared book of its own.
fn gathered<R: Threads + Wait + Sync>(
    crew: &Crew<'_, R, Watch>,
    book: Book,
    batch: &[Parcel],
) -> Result<Vec<Outcome>, Fail> {
    let (shared, mut first) = shared_of(crew.alloc, book)?;
    outcomes_of(crew, &shared, &mut first, batch)
}

// Looks for the marks of a batch that was collected, and for the number of lines that the book then has.
fn check_marks(rt: &impl Abort, row: &str, collected: &Collected, marks: &[Mark], lines: usize) {
    check_all(rt, &collected.replies, marks, row);
    check_same(rt, &collected.book.journal().len(), &lines, row);
}

// Collects a batch into a copy of a book with 16 workers and with the caller alone, and looks for the marks, and for the number
// of lines that the copy then has.
fn check_batch(
    rt: &(impl Threads + Wait + Abort + Sync),
    alloc: Global,
    row: &str,
    book: &Book,
    batch: &[Parcel],
    marks: &[Mark],
    lines: usize,
) -> Result<(), Fail> {
    for workers in [Workers::new(16), Workers::new(1)] {
        let crew = crew_of(rt, alloc, workers, &Free);
        let collected = collected(&crew, book, batch)?;
        check_marks(rt, row, &collected, marks, lines);
    }
    Ok(())
}

// The same of a book with no line, to which the batch adds none.
fn check_no_lines(
    rt: &(impl Threads + Wait + Abort + Sync),
    alloc: Global,
    row: &str,
    batch: &[Parcel],
    marks: &[Mark],
) -> Result<(), Fail> {
    check_batch(rt, alloc, row, &new_book(alloc)?, batch, marks, 0)
}

// The parcels of the three readings, and one of meter 1 with another word.
fn forged_batch() -> [Parcel; 4] {
    [
        parcel(0, WORDS[0]),
        parcel(1, WORDS[1]),
        parcel(1, WORDS[1] + 1),
        parcel(2, WORDS[2]),
    ]
}

// The mark of that parcel.
fn forged_mark() -> Mark {
    Mark::Refused(TakeError::Forged {
        posted: reading_frame(1, WORDS[1]),
        came: reading_frame(1, WORDS[1] + 1),
    })
}

fn check_forged(rt: &(impl Threads + Wait + Abort + Sync), alloc: Global) -> Result<(), Fail> {
    let marks = [FRESH, FRESH, forged_mark(), FRESH];
    let book = sent_book(alloc, &READINGS, &WORDS)?;
    check_batch(
        rt,
        alloc,
        "forged_parcel_refused",
        &book,
        &forged_batch(),
        &marks,
        6,
    )
}

#[test]
fn batches_by_rows(rt: HostRuntime) -> Result<(), Fail> {
    let alloc = rt.alloc();
    check_forged(&rt, alloc)?;
    check_no_lines(&rt, alloc, "empty_batch", &[], &[])?;
    check_no_lines(
        &rt,
        alloc,
        "close_outside_plan",
        &[Parcel::Close { group: 1, round: 0 }],
        &[Mark::OutOfPlan],
    )?;
    check_no_lines(
        &rt,
        alloc,
        "zero_bytes_no_frame",
        &[Parcel::Bytes([0; 52])],
        &[Mark::Bad(FrameError::Magic)],
    )
}

// How many marks are of Closes that ended so.
fn times(marks: &[Mark], closing: Closing) -> usize {
    let closed = Mark::Made(Reply::Closed(closing));
    let mut count = 0usize;
    for mark in marks {
        if *mark == closed {
            count = count.wrapping_add(1);
        }
    }
    count
}

// Looks for so many marks, of which one is of a Close that is thin, and for so many lines.
fn check_closings(rt: &impl Abort, collected: &Collected, count: usize) {
    let marks = collected.replies.as_slice();
    check_same(rt, &marks.len(), &count, "the marks");
    let thin = times(marks, Closing::Thin(MeterSet::full(3)));
    check_same(rt, &thin, &1, "thin");
    let already = times(marks, Closing::Already);
    check_same(rt, &already, &count.saturating_sub(1), "already");
    check_same(rt, &collected.book.journal().len(), &count, "the lines");
}

// Collects so many Closes of one round.
fn check_closes(
    rt: &(impl Threads + Wait + Abort + Sync),
    alloc: Global,
    count: usize,
    workers: Workers,
) -> Result<(), Fail> {
    let batch = vec![in alloc; Parcel::Close { group: 0, round: 0 }; count]?;
    let book = new_book(alloc)?;
    let crew = crew_of(rt, alloc, workers, &Free);
    let collected = collected(&crew, &book, &batch)?;
    check_closings(rt, &collected, count);
    Ok(())
}

#[test]
fn two_closes_in_one_batch(rt: HostRuntime) -> Result<(), Fail> {
    check_closes(&rt, rt.alloc(), 2, Workers::new(2))
}

#[test]
fn many_closes_in_one_batch(rt: HostRuntime) -> Result<(), Fail> {
    check_closes(&rt, rt.alloc(), 1200, Workers::new(4))
}

// The parcels of the three readings.
fn three_parcels() -> [Parcel; 3] {
    [
        parcel(0, WORDS[0]),
        parcel(1, WORDS[1]),
        parcel(2, WORDS[2]),
    ]
}

// Looks for the marks of outcomes.
fn check_outcomes(rt: &impl Abort, outcomes: &[Outcome], marks: &[Mark], row: &str) {
    check_same(rt, &outcomes.len(), &marks.len(), row);
    for (outcome, mark) in outcomes.iter().zip(marks) {
        check_same(rt, &outcome.mark, mark, row);
    }
}

// Commits a batch of three readings by two workers.
fn check_gathered(
    rt: &(impl Threads + Wait + Abort + Sync),
    alloc: Global,
    shared: &SharedBook,
    first: &mut Pass,
    batch: &[Parcel],
) -> Result<(), Fail>
    requires { IsPassOf shared.now first.old × (view first.old ≡ new_pass 0 []) }
    ensures { OnOk result (IsPassOf shared.now first.new × ((view first.new).number ≡ 0) × ((view first.new).held ≡ None) × ((view first.new).out ≡ 0)) }
{
    let crew = crew_of(rt, alloc, Workers::new(2), &Free);
    let outcomes = gather(&crew, shared, first, batch)?;
    check_outcomes(rt, &outcomes, &[FRESH; 3], "the marks");
    check_same(rt, &first.out(), &0, "the passes that are out");
    Ok(())
}

// Commits the first place once more.
fn check_again(
    rt: &(impl Wait + Abort),
    alloc: Global,
    shared: &SharedBook,
    first: &mut Pass,
) -> Result<(), Fail>
    requires { IsPassOf shared.now first.old × ((view first.old).held ≡ None) }
{
    let mut lines = Lines::new(alloc);
    lines.reserve(1)?;
    let again = shared.commit(rt, first, &parcel(0, WORDS[0]), &mut lines);
    let reply = Reply::Took(Verdict::Again);
    check_same(rt, &again, &Ok(reply), "again");
    Ok(())
}

#[test]
fn gathered_then_again(rt: HostRuntime) -> Result<(), Fail> {
    let batch = three_parcels();
    let book = sent_book(rt.alloc(), &READINGS, &WORDS)?;
    let (shared, mut first) = shared_of(rt.alloc(), book)?;
    check_gathered(&rt, rt.alloc(), &shared, &mut first, &batch)?;
    check_again(&rt, rt.alloc(), &shared, &mut first)
}

// Looks for the number of calls that were counted.
fn check_count(rt: &impl Abort, calls: &AtomicU64, count: u64, row: &str) {
    check_same(rt, &calls.load(Ordering::SeqCst), &count, row);
}

// Asks whether there was a call.
fn check_came(rt: &impl Abort, calls: &AtomicU64, row: &str) {
    check(rt, calls.load(Ordering::SeqCst) > 0, row);
}

// Counts the calls, and holds worker 1 at its first until worker 2 has called so often, and worker 2 at its first until worker 1
// has called, each for at most so many turns. None is held where nothing is awaited.
#[derive(Drop)]
struct Watch {
    awaited: u64,
    first: AtomicU64,
    second: AtomicU64,
    others: AtomicU64,
    late: AtomicU64,
}

impl Watch {
    // Nobody has called.
    fn new(awaited: u64) -> Watch {
        Watch {
            awaited,
            first: AtomicU64::new(0),
            second: AtomicU64::new(0),
            others: AtomicU64::new(0),
            late: AtomicU64::new(0),
        }
    }

    // Waits until there were so many calls, for at most so many turns.
    fn wait(&self, calls: &AtomicU64, count: u64) {
        for _ in 0..1_000_000_000u32 {
            if calls.load(Ordering::SeqCst) >= count {
                return;
            }
        }
        self.late.fetch_add(1, Ordering::SeqCst);
    }
}

impl Gate for Watch {
    fn at(&self, worker: u32) {
        match worker {
            1 => {
                if self.first.fetch_add(1, Ordering::SeqCst) == 0 {
                    self.wait(&self.second, self.awaited);
                }
            }
            2 => {
                if self.second.fetch_add(1, Ordering::SeqCst) == 0 {
                    self.wait(&self.first, self.awaited.min(1));
                }
            }
            _ => {
                self.others.fetch_add(1, Ordering::SeqCst);
            }
        }
    }
}

// Looks for how often worker 1, worker 2 and others called, none of them late.
fn check_calls(rt: &impl Abort, gate: &Watch, calls: &[u64; 3]) {
    check_count(rt, &gate.late, 0, "late");
    check_count(rt, &gate.first, calls[0], "worker 1");
    check_count(rt, &gate.second, calls[1], "worker 2");
    check_count(rt, &gate.others, calls[2], "others");
}

// Both workers came, and neither waited in vain.
fn check_met(rt: &impl Abort, gate: &Watch) {
    check_came(rt, &gate.first, "worker 1");
    check_came(rt, &gate.second, "worker 2");
    check_count(rt, &gate.late, 0, "late");
}

// A Close of a group in round 0.
fn close(group: u16) -> Parcel {
    Parcel::Close { group, round: 0 }
}

// The mark of the first Close of a group of three meters of which none was taken.
fn thin() -> Mark {
    Mark::Made(Reply::Closed(Closing::Thin(MeterSet::full(3))))
}

// The mark of a later one.
fn already() -> Mark {
    Mark::Made(Reply::Closed(Closing::Already))
}

// Parcels of two groups have two workers, who are held at their first calls until both have come. A body that calls the gate and
// commits on the calling thread alone comes too late.
#[test]
fn two_commits_cross(rt: HostRuntime) -> Result<(), Fail> {
    let alloc = rt.alloc();
    let gate = Watch::new(1);
    let batch = [close(0), close(1)];
    let crew = crew_of(&rt, alloc, Workers::new(2), &gate);
    let outcomes = gathered(&crew, book_of_two(alloc)?, &batch)?;
    check_met(&rt, &gate);
    check_outcomes(&rt, &outcomes, &[thin(), thin()], "the marks");
    Ok(())
}

// The workers are numbered 1 and 2, and each calls once for each of its parcels: that of `north`, and three of `south`, behind the
// first of which `north` has its own. What is no frame is brought by worker 1.
#[test]
fn each_parcel_has_its_call(rt: HostRuntime) -> Result<(), Fail> {
    let alloc = rt.alloc();
    let gate = Watch::new(3);
    let batch = [
        close(1),
        close(0),
        Parcel::Bytes([0; 52]),
        close(1),
        close(1),
    ];
    let crew = crew_of(&rt, alloc, Workers::new(2), &gate);
    let outcomes = gathered(&crew, book_of_two(alloc)?, &batch)?;
    check_calls(&rt, &gate, &[2, 3, 0]);
    let bad = Mark::Bad(FrameError::Magic);
    let marks = [thin(), thin(), bad, already(), already()];
    check_outcomes(&rt, &outcomes, &marks, "the marks");
    Ok(())
}

// The parcels of one group have one worker of sixteen.
#[test]
fn one_group_has_one_worker(rt: HostRuntime) -> Result<(), Fail> {
    let alloc = rt.alloc();
    let gate = Watch::new(0);
    let crew = crew_of(&rt, alloc, Workers::new(16), &gate);
    let outcomes = gathered(&crew, new_book(alloc)?, &[close(0); 4])?;
    check_calls(&rt, &gate, &[4, 0, 0]);
    let marks = [thin(), already(), already(), already()];
    check_outcomes(&rt, &outcomes, &marks, "the marks");
    Ok(())
}
