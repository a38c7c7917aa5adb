//! A batch by workers: gathered with a shared book's first pass, or collected into a book.

ghost use Rattle.std.specs.Prelude.{◌≡◌, [], ◌++◌, ◌+◌, ◌^◌, ◌<◌, ◌≤◌, None, All, length, map, vec_len, vec_capacity};
ghost use Rattle.shared_book.specs.Passes.{new_pass};
ghost use Rattle.shared_book.specs.Ends.{opening, view, room_of, IsPassOf};
ghost use Rattle.transcript_log.specs.Lines.{HasOwnTag};
ghost use Rattle.collector_workers.specs.Outcomes.{lines_told, line_before};
ghost use Rattle.collector_workers.specs.Gathering.{GatherEnds};
ghost use Rattle.collector_workers.specs.Batch.{CollectEnds};

use crate::crew::Crew;
use crate::gate::Gate;
use crate::mark::{CollectRefused, Collected, Mark};
use crate::outcome::Outcome;
use crate::worker::{join_all, merge, split_all, work_all};
use crate::workload::all_workloads;
use event_schedule::Line;
use group_book::{Book, Parts};
use shared_book::{BeginRefused, Parcel, Pass, SharedBook};
use std::alloc::AllocError;
use std::sync::Wait;
use std::thread::Threads;
use transcript_log::Lines;

/// Commits a batch on a shared book by the crew's workers, each with a pass of its own and the parcels of its groups, and answers
/// what became of each parcel, in the order of the batch. No other pass is out meanwhile, so `first` has no pages either. At `Err`
/// there was no memory, and no commit was made.
pub fn gather<R: Threads + Wait + Sync, G: Gate>(
    crew: &Crew<'_, R, G>,
    shared: &SharedBook,
    first: &mut Pass,
    batch: &[Parcel],
) -> Result<Vec<Outcome>, AllocError>
    requires pass { IsPassOf shared.now first.old }
    requires first { ((view first.old).number ≡ 0) × ((view first.old).out ≡ 0) × ((view first.old).held ≡ None) }
    requires made { (view first.old).made + 16 < 2 ^ 32 }
    ensures pass { IsPassOf shared.now first.new }
    ensures ends { GatherEnds (opening shared.now) (view first.old) batch.now crew.now.workers.count result (view first.new) }
{
    let count = crew.workers.count as usize;
    let mut outcomes = Vec::with_capacity(crew.alloc, batch.len())?;
    let mut taken = vec![in crew.alloc; 0usize; count]?;
    let mut workers = Vec::with_capacity(crew.alloc, count)?;
    let workloads = all_workloads(crew.alloc, batch, count)?;
    split_all(shared, first, workloads, &mut workers);
    work_all(crew.rt, shared, workers.as_mut_slice(), crew.gate);
    merge(
        batch,
        workers.as_slice(),
        taken.as_mut_slice(),
        &mut outcomes,
    );
    join_all(shared, first, workers);
    Ok(outcomes)
}

/// Adds a line, where there is one.
fn add_line(lines: &mut Lines, line: Option<Line>)
    requires room { 0 < lines.old.spare }
    requires own { All HasOwnTag (line_before line []) }
    ensures items { lines.new.items ≡ lines.old.items ++ line_before line [] }
    ensures spare { lines.old.spare ≤ lines.new.spare + 1 }
{
    match line {
        Some(line) => lines.push_reserved(&line),
        None => {}
    }
}

/// Adds the lines of outcomes to others, and answers their marks.
fn take_down(outcomes: &[Outcome], lines: &mut Lines, marks: &mut Vec<Mark>)
    requires room { (length outcomes.now ≤ lines.old.spare) × (length outcomes.now ≤ vec_capacity marks.old) }
    requires empty { (marks.old.items ≡ []) × (vec_len marks.old ≡ 0) }
    requires own { All HasOwnTag (lines_told outcomes.now) }
    ensures lines { lines.new.items ≡ lines.old.items ++ lines_told outcomes.now }
    ensures marks { marks.new.items ≡ map (λ x. x.mark) outcomes.now }
{
    for place in 0..outcomes.len() {
        add_line(lines, outcomes[place].line);
        marks.push_reserved(outcomes[place].mark);
    }
}

/// Gathers a batch with a book that is shared for it, and puts the book together again.
fn collect_shared<R: Threads + Wait + Sync, G: Gate>(
    crew: &Crew<'_, R, G>,
    shared: SharedBook,
    mut first: Pass,
    batch: &[Parcel],
    mut replies: Vec<Mark>,
) -> Result<Collected, CollectRefused>
    requires pass { IsPassOf shared first × (view first ≡ new_pass 0 []) }
    requires room { (length batch.now ≤ room_of shared) × (length batch.now ≤ vec_capacity replies) }
    requires empty { (replies.items ≡ []) × (vec_len replies ≡ 0) }
    ensures { CollectEnds (opening shared) batch.now result }
{
    let gathered = gather(crew, &shared, &mut first, batch);
    let mut parts = shared.shut(first);
    match gathered {
        Ok(outcomes) => {
            take_down(outcomes.as_slice(), &mut parts.journal, &mut replies);
            let book = Book::of_parts(crew.alloc, parts);
            Ok(Collected { book, replies })
        }
        Err(_) => {
            let book = Book::of_parts(crew.alloc, parts);
            Err(CollectRefused { book })
        }
    }
}

/// Adds a batch to a book by the crew's workers. Each accepted parcel adds a line, in the order of the batch; every parcel has its
/// mark. At `Err` there was no memory.
pub fn collect<R: Threads + Wait + Sync, G: Gate>(
    crew: &Crew<'_, R, G>,
    book: Book,
    batch: &[Parcel],
) -> Result<Collected, CollectRefused>
    ensures { CollectEnds book batch.now result }
{
    let Ok(replies) = Vec::with_capacity(crew.alloc, batch.len()) else {
        return Err(CollectRefused { book });
    };
    match SharedBook::begin(crew.alloc, book, batch.len() as u64) {
        Ok((shared, first)) => collect_shared(crew, shared, first, batch, replies),
        Err(BeginRefused { book }) => Err(CollectRefused { book }),
    }
}
