//! The text of a transcript, made in pieces.

ghost use Rattle.std.specs.Prelude.{◌≡◌, ◌<◌, ◌≤◌, ◌++◌, ◌∷◌, [], length, take, All, Ok, OnOk, OnErr, IfOk};
ghost use Rattle.event_schedule.specs.Transcripts.{IsTranscript};
ghost use Rattle.transcript_text.specs.declared.version.Version.TheVariants.{Two};
ghost use Rattle.transcript_text.specs.Heads.{read_of};
ghost use Rattle.transcript_text.specs.Spelling.{transcript_text};
ghost use Rattle.transcript_text.specs.Writing.{IsWritable, lines_text, begun_text};
ghost use Rattle.transcript_text.specs.Pieces.{bytes_of, rest_at, to_come, AreFilled, AreNext, AreNextOfBoth};

use crate::batch::next_batch;
use crate::head_writing::put_head;
use crate::made::{MadePieces, TextPlace, Until};
use crate::writing::put_end;
use std::alloc::{AllocError, Global};
use std::collections::VecDeque;
use std::marker::Model;
use std::thread::Threads;
use transcript_log::Transcript;

/// The text of a transcript, or a part of it, which is made in pieces, many of them side by side. Clauses see it as the
/// bytes that are still to come.
#[derive(Drop)]
pub struct TextPieces<'a, R: Threads + Sync> {
    rt: &'a R,
    alloc: Global,
    transcript: &'a Transcript,
    until: Until,
    made: MadePieces,
}

impl<'a, R: Threads + Sync> Model for TextPieces<'a, R> {
    ghost use Rattle.std.specs.Prelude.{ℕ, List};
    ghost use Rattle.transcript_text.specs.Pieces.{to_come, AreFilled};

    ghost Value = { List ℕ };

    ghost view = { λ p. to_come p.transcript.now p.until p.made };

    ghost invariant = { λ p. AreFilled p.made.pieces.items };
}

/// One piece, and what comes after it.
fn one(alloc: Global, piece: Vec<u8>, after: TextPlace) -> Result<MadePieces, AllocError>
    ensures { IfOk result (λ made. (made.pieces.items ≡ piece ∷ []) × (made.after ≡ after)) }
{
    let mut pieces = VecDeque::new(alloc);
    pieces.push_back(piece)?;
    Ok(MadePieces { pieces, after })
}

/// The head.
fn head(alloc: Global, transcript: &Transcript) -> Result<MadePieces, AllocError>
    ensures { IfOk result (AreNextOfBoth transcript.now TextPlace.Head) }
{
    let mut piece = Vec::new(alloc);
    put_head(&mut piece, transcript.plan())?;
    one(alloc, piece, TextPlace::Entry(0))
}

/// The `end` line, behind the last entry.
fn end(alloc: Global, transcript: &Transcript, at: usize) -> Result<MadePieces, AllocError>
    requires { length transcript.now.entries ≤ at }
    ensures { IfOk result (AreNext transcript.now Until.EndLine (TextPlace.Entry at)) }
{
    let mut piece = Vec::new(alloc);
    put_end(&mut piece, transcript.len())?;
    one(alloc, piece, TextPlace::End)
}

/// No piece, and nothing after it.
fn nothing(alloc: Global) -> MadePieces
    ensures { (result.pieces.items ≡ []) × (result.after ≡ TextPlace.End) }
{
    MadePieces {
        pieces: VecDeque::new(alloc),
        after: TextPlace::End,
    }
}

/// What stands behind the last entry.
#[tactic(auto, using(crate::proofs::PieceLemmas::nothing_next))]
fn behind_lines(
    alloc: Global,
    transcript: &Transcript,
    until: Until,
    at: usize,
) -> Result<MadePieces, AllocError>
    requires { length transcript.now.entries ≤ at }
    ensures { IfOk result (AreNext transcript.now until (TextPlace.Entry at)) }
{
    match until {
        Until::LastEntry => Ok(nothing(alloc)),
        Until::EndLine => end(alloc, transcript, at),
    }
}

/// The next pieces from a place on.
fn next_pieces(
    rt: &(impl Threads + Sync),
    alloc: Global,
    transcript: &Transcript,
    until: Until,
    place: TextPlace,
) -> Result<MadePieces, AllocError>
    requires { All (λ e. IsWritable e.line) transcript.now.entries }
    ensures { IfOk result (AreNext transcript.now until place) }
{
    match place {
        TextPlace::Head => head(alloc, transcript),
        TextPlace::Entry(at) if at < transcript.len() => next_batch(rt, alloc, transcript, at),
        TextPlace::Entry(at) => behind_lines(alloc, transcript, until, at),
        TextPlace::End => Ok(nothing(alloc)),
    }
}

/// Makes the next pieces where none are left.
fn refill(
    rt: &(impl Threads + Sync),
    alloc: Global,
    transcript: &Transcript,
    until: Until,
    made: &mut MadePieces,
) -> Result<(), AllocError>
    requires lines { All (λ e. IsWritable e.line) transcript.now.entries }
    requires filled { AreFilled made.old.pieces.items }
    ensures text { to_come transcript.now until made.new ≡ to_come transcript.now until made.old }
    ensures filled { AreFilled made.new.pieces.items }
    ensures end { OnOk result (made.new.pieces.items ≡ [] → to_come transcript.now until made.new ≡ []) }
{
    if made.pieces.is_empty() {
        *made = next_pieces(rt, alloc, transcript, until, made.after)?;
    }
    Ok(())
}

/// Puts the first of the pieces in place of what the piece held. It is empty only where there was none.
fn take_first(pieces: &mut VecDeque<Vec<u8>>, piece: &mut Vec<u8>)
    requires { AreFilled pieces.old.items }
    ensures bytes { bytes_of pieces.old.items ≡ piece.new.items ++ bytes_of pieces.new.items }
    ensures filled { AreFilled pieces.new.items }
    ensures end { piece.new.items ≡ [] → pieces.old.items ≡ [] }
{
    match pieces.pop_front() {
        Some(first) => *piece = first,
        None => piece.clear(),
    }
}

impl<'a, R: Threads + Sync> TextPieces<'a, R> {
    /// The text from a place on, as far as it is to go.
    fn at(
        rt: &'a R,
        alloc: Global,
        transcript: &'a Transcript,
        place: TextPlace,
        until: Until,
    ) -> TextPieces<'a, R>
        ensures { result ≡ rest_at transcript.now until place }
    {
        TextPieces {
            rt,
            alloc,
            transcript,
            until,
            made: MadePieces {
                pieces: VecDeque::new(alloc),
                after: place,
            },
        }
    }

    /// The whole text.
    #[tactic(auto, using(crate::proofs::ReadAgain::read_again, crate::proofs::BegunText::whole))]
    pub fn new(rt: &'a R, alloc: Global, transcript: &'a Transcript) -> TextPieces<'a, R>
        ensures text { result ≡ transcript_text transcript.now }
        // What holds of every transcript.
        ensures sound { IsTranscript transcript.now }
        // So `read` gives the transcript back.
        ensures read_back { read_of Two (transcript_text transcript.now) ≡ Ok transcript.now }
    {
        let _entries = transcript.len();
        TextPieces::at(rt, alloc, transcript, TextPlace::Head, Until::EndLine)
    }

    /// The head and the lines of a part that begins with the first entry, without the `end` line.
    #[tactic(auto, using(crate::proofs::BegunText::begun))]
    pub fn begun(rt: &'a R, alloc: Global, part: &'a Transcript) -> TextPieces<'a, R>
        ensures { result ≡ begun_text part.now.plan part.now.entries }
    {
        TextPieces::at(rt, alloc, part, TextPlace::Head, Until::LastEntry)
    }

    /// The lines of a part, without the head and the `end` line.
    #[tactic(auto, using(crate::proofs::BegunText::lines))]
    pub fn lines(rt: &'a R, alloc: Global, part: &'a Transcript) -> TextPieces<'a, R>
        ensures { result ≡ lines_text part.now.entries }
    {
        TextPieces::at(rt, alloc, part, TextPlace::Entry(0), Until::LastEntry)
    }

    /// What is left of the text behind so many entries: the lines of those after them, and the `end` line.
    #[tactic(auto, using(crate::proofs::ReadAgain::read_again, crate::proofs::BegunText::left))]
    pub fn after(
        rt: &'a R,
        alloc: Global,
        transcript: &'a Transcript,
        entries: usize,
    ) -> TextPieces<'a, R>
        requires { entries ≤ length transcript.now.entries }
        ensures text { begun_text transcript.now.plan (take entries transcript.now.entries) ++ result ≡ transcript_text transcript.now }
        // What holds of every transcript.
        ensures sound { IsTranscript transcript.now }
        // So `read` gives the transcript back.
        ensures read_back { read_of Two (transcript_text transcript.now) ≡ Ok transcript.now }
    {
        let _entries = transcript.len();
        TextPieces::at(
            rt,
            alloc,
            transcript,
            TextPlace::Entry(entries),
            Until::EndLine,
        )
    }

    /// Puts the next bytes in place of what the piece held: the head, some hundreds of lines, or the `end` line. It is
    /// empty only where none are left. After an error the bytes that are still to come are those before it.
    #[tactic(auto, using(crate::proofs::Writable::writable))]
    pub fn next(&mut self, piece: &mut Vec<u8>) -> Result<(), AllocError>
        ensures next { OnOk result (self.old ≡ piece.new.items ++ self.new) }
        ensures end { OnOk result (piece.new.items ≡ [] → self.new ≡ []) }
        ensures err { OnErr result (self.new ≡ self.old) }
    {
        let _entries = self.transcript.len();
        refill(
            self.rt,
            self.alloc,
            self.transcript,
            self.until,
            &mut self.made,
        )?;
        take_first(&mut self.made.pieces, piece);
        Ok(())
    }
}
