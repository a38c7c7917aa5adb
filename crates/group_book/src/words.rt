//! The words of a book: one under each tag where a frame is posted.

ghost use Rattle.std.specs.Prelude.{◌≡◌, ◌<◌, false, IfOk, None, Some, length, replicate, slice_index_or, slice_set};

use crate::copies::{copy_of_marks, copy_of_words};
use mod_word::Word;
use std::alloc::{AllocError, Global};
use std::marker::Model;

/// A word or none at each place. A word has no room to say that it isn't there, so its mark stands in a list beside it.
#[derive(Drop)]
pub(crate) struct Words {
    /// At which places there is a word.
    marks: Vec<bool>,
    /// The word of each place, of no meaning where there is no mark.
    values: Vec<Word>,
}

impl Model for Words {
    ghost use Rattle.std.specs.Prelude.{◌≡◌, ℕ, List, Option, length};
    ghost use Rattle.group_book.specs.Words.{marked_words};

    ghost Value = { List (Option ℕ) };

    ghost view = { λ w. marked_words w.marks.items w.values.items };

    ghost invariant = { λ w. length w.marks.items ≡ length w.values.items };
}

// No mark at each of so many places.
fn no_marks(alloc: Global, places: usize) -> Result<Vec<bool>, AllocError>
    ensures { IfOk result (λ marks. marks.items ≡ replicate places false) }
{
    vec![in alloc; false; places]
}

// Room for a word at each of so many places.
fn no_values(alloc: Global, places: usize) -> Result<Vec<Word>, AllocError>
    ensures { IfOk result (λ values. values.items ≡ replicate places 0) }
{
    vec![in alloc; Word(0); places]
}

impl Words {
    /// No word at each of so many places.
    pub fn none(alloc: Global, places: usize) -> Result<Words, AllocError>
        ensures { IfOk result (λ words. words ≡ replicate places None) }
    {
        Ok(Words {
            marks: no_marks(alloc, places)?,
            values: no_values(alloc, places)?,
        })
    }

    /// The word of a place.
    pub fn get(&self, at: usize) -> Option<Word>
        requires { at < length self.now }
        ensures { result ≡ slice_index_or self.now at result }
    {
        if self.marks[at] {
            Some(self.values[at])
        } else {
            None
        }
    }

    /// Puts a word at a place.
    pub fn put(&mut self, at: usize, word: Word)
        requires { at < length self.old }
        ensures { self.new ≡ slice_set self.old at (Some word) }
    {
        self.values[at] = word;
        self.marks[at] = true;
    }

    /// The same words at the same places.
    pub fn try_copy(&self, alloc: Global) -> Result<Words, AllocError>
        ensures { IfOk result (λ words. words ≡ self.now) }
    {
        Ok(Words {
            marks: copy_of_marks(alloc, &self.marks)?,
            values: copy_of_words(alloc, &self.values)?,
        })
    }
}
