//! The words that the meters of a plan answer.

ghost use Rattle.std.specs.Prelude.{◌≡◌, ◌+◌, ◌*◌, ◌<◌, IsTrue, IfOk, length};
ghost use Rattle.group_book.specs.Books.{has_round};
ghost use Rattle.twin_worlds.specs.Answers.{AreAnswers, AreAnswersAt, CanAnswer, AreAllAnswers, answers_in};

use blind_core::answers;
use group_book::Book;
use group_plan::Plan;
use mask_stream::Masks;
use rayon::prelude::*;
use std::alloc::{AllocError, Global};
use std::thread::Threads;

/// How many rows are worth a thread.
const ROWS_A_THREAD: usize = 32;

/// The values of the words that the meters answer to the missing sets that a book announced: a row for each group in each round,
/// with no word where nothing is announced. The groups of the first round come first, then those of the next.
#[derive(Drop)]
pub(crate) struct AnswerWords {
    /// How many groups the plan has.
    pub(crate) groups: usize,
    /// The rows.
    pub(crate) rows: Vec<Vec<u64>>,
}

// The words that a group answers in a round.
fn answers_of_round<M: Masks>(
    alloc: Global,
    masks: &M,
    book: &Book,
    group: u16,
    round: u32,
) -> Result<Vec<u64>, AllocError>
    requires masks { M.plan masks.now ≡ book.now.presence.plan }
    requires round { IsTrue (has_round book.now group round) }
    ensures { IfOk result (λ words. AreAnswers (M.table masks.now) book.now group round words.items) }
{
    match book.announced(group, round) {
        None => Ok(Vec::new(alloc)),
        Some(missing) => {
            let survivors = book.outcome(group, round).survivors;
            let words = answers(masks, group, round, &survivors, &missing);
            let meters = book.plan().meters(group) as usize;
            Vec::from_slice(alloc, &words[..meters])
        }
    }
}

// The row at a place.
fn answers_at<M: Masks>(
    alloc: Global,
    masks: &M,
    book: &Book,
    place: usize,
) -> Result<Vec<u64>, AllocError>
    requires { CanAnswer (M.plan masks.now) book.now place }
    ensures { IfOk result (λ words. AreAnswersAt (M.table masks.now) book.now place words.items) }
{
    let groups = book.plan().groups().len();
    let group = (place % groups) as u16;
    let round = (place / groups) as u32;
    answers_of_round(alloc, masks, book, group, round)
}

// How many rows a plan has.
fn places_in(plan: &Plan) -> usize
    ensures { result ≡ plan.now.rounds * length plan.now.groups }
{
    plan.rounds() as usize * plan.groups().len()
}

// The rows of all places, side by side.
fn all_rows<R: Threads + Sync, M: Masks + Sync>(
    rt: &R,
    alloc: Global,
    masks: &M,
    book: &Book,
) -> Result<Vec<Vec<u64>>, AllocError>
    requires { M.plan masks.now ≡ book.now.presence.plan }
    ensures { IfOk result (λ rows. AreAllAnswers (M.table masks.now) book.now rows.items) }
{
    (0..places_in(book.plan()))
        .into_par_iter()
        .with_min_len(ROWS_A_THREAD)
        .map(
            |place: usize| -> Result<Vec<u64>, AllocError>
                requires { CanAnswer (M.plan masks.now) book.now place }
                ensures { IfOk result (λ words. AreAnswersAt (M.table masks.entry.now) book.entry.now place words.items) }
            { answers_at(alloc, masks, book, place) },
        )
        .collect::<Result<Vec<Vec<u64>>, AllocError>>(rt, alloc)?
}

impl AnswerWords {
    /// The words under these masks that the meters answer after the events of this book.
    pub(crate) fn new<R: Threads + Sync, M: Masks + Sync>(
        rt: &R,
        alloc: Global,
        masks: &M,
        book: &Book,
    ) -> Result<AnswerWords, AllocError>
        requires { M.plan masks.now ≡ book.now.presence.plan }
        ensures groups { IfOk result (λ words. words.groups ≡ length book.now.presence.plan.groups) }
        ensures rows { IfOk result (λ words. AreAllAnswers (M.table masks.now) book.now words.rows.items) }
    {
        Ok(AnswerWords {
            groups: book.plan().groups().len(),
            rows: all_rows(rt, alloc, masks, book)?,
        })
    }

    /// The words of a group in a round, by meter.
    pub(crate) fn row(&self, group: u16, round: u32) -> &[u64]
        requires { round * self.now.groups + group < length self.now.rows.items }
        ensures { result.now ≡ answers_in self.now group round }
    {
        &self.rows[round as usize * self.groups + group as usize]
    }
}
