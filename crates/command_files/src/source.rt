//! Where the bytes of a new file come from.

ghost use Rattle.std.specs.Thread.{IsSync};
ghost use Rattle.std.specs.Prelude.{⊤};
ghost use Rattle.command_files.specs.Sources.{words_after};

use desk_outside::Pieces;
use register_words::{SideWords, side_end, side_head, side_lines};
use std::alloc::{AllocError, Global};
use std::thread::Threads;
use transcript_log::Transcript;
use transcript_text::TextPieces;

/// Where the bytes of a new file come from.
#[derive(Clone, Copy)]
pub enum Source<'b> {
    /// They are these.
    Bytes(&'b [u8]),
    /// They are the text of this transcript, which is made in pieces as it is put, many of them side by side.
    Transcript(&'b Transcript),
    /// They are the text of these side words, which is made in pieces too.
    Words(&'b SideWords),
}

/// The text of a transcript, for a desk.
#[derive(Drop)]
pub struct TranscriptPieces<'b, R: Threads + Sync> {
    pub text: TextPieces<'b, R>,
}

impl<R: Threads + Sync> Pieces for TranscriptPieces<'_, R> {
    ghost rest = { λ pieces. pieces.text };

    // Threads may share the handle.
    ghost ready = { λ pieces. IsSync R.row };

    fn next(&mut self, piece: &mut Vec<u8>) -> Result<(), AllocError> {
        self.text.next(piece)
    }
}

// So many lines of side words are a piece.
const LINES_A_PIECE: usize = 1024;

/// Which piece of a text of side words comes next.
#[derive(Clone, Copy)]
pub enum WordsStage {
    /// The first line.
    Head,
    /// The lines of the rows from this one on, counted from 0, or the last line, where there are no more.
    Rows(usize),
    /// None.
    Over,
}

/// The text of side words, for a desk.
#[derive(Drop)]
pub struct WordsPieces<'b> {
    pub alloc: Global,
    pub words: &'b SideWords,
    pub stage: WordsStage,
}

impl Pieces for WordsPieces<'_> {
    ghost rest = { λ pieces. words_after pieces.words.now pieces.stage };

    ghost ready = { λ pieces. ⊤ };

    fn next(&mut self, piece: &mut Vec<u8>) -> Result<(), AllocError> {
        piece.clear();
        match self.stage {
            WordsStage::Head => {
                piece.extend_from_slice(side_head())?;
                self.stage = WordsStage::Rows(0);
            }
            WordsStage::Rows(from) => {
                let rows = self.words.rows();
                if from < rows.len() {
                    let to = from + LINES_A_PIECE.min(rows.len() - from);
                    piece.extend_from_slice(&side_lines(self.alloc, &rows[from..to])?)?;
                    self.stage = WordsStage::Rows(to);
                } else {
                    piece.extend_from_slice(&side_end(self.alloc, self.words)?)?;
                    self.stage = WordsStage::Over;
                }
            }
            WordsStage::Over => {}
        }
        Ok(())
    }
}
