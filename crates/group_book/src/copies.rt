//! Copies of what a book keeps.

ghost use Rattle.std.specs.Prelude.{◌≡◌, IfOk};

use crate::page::Page;
use mod_word::Word;
use std::alloc::{AllocError, Global};

pub(crate) fn copy_of_pages(alloc: Global, pages: &[Page]) -> Result<Vec<Page>, AllocError>
    ensures { IfOk result (λ copy. copy.items ≡ pages.now) }
{
    pages.to_vec(alloc)
}

pub(crate) fn copy_of_words(alloc: Global, words: &[Word]) -> Result<Vec<Word>, AllocError>
    ensures { IfOk result (λ copy. copy.items ≡ words.now) }
{
    words.to_vec(alloc)
}

pub(crate) fn copy_of_marks(alloc: Global, marks: &[bool]) -> Result<Vec<bool>, AllocError>
    ensures { IfOk result (λ copy. copy.items ≡ marks.now) }
{
    marks.to_vec(alloc)
}
