//! The lines of a head end's journal.

ghost use Rattle.std.specs.Prelude.{◌≡◌, ◌++◌, OnOk, Some, IfSome};
ghost use Rattle.meter_frames.specs.Frames.{FitsKind};
ghost use Rattle.head_end.specs.declared.answers.Logged.TheVariants.{Took, Passed};
ghost use Rattle.apart_lines.specs.Journals.{logged_text, logged_of, CanLog, HasLogged, IsLoggedOf};

use crate::digits::{digits, read_written};
use crate::fields::{Fields, split};
use head_end::Logged;
use meter_frames::Frame;
use std::alloc::AllocError;

// What a line says.
#[tactic(auto, unfolding(crate::specs::Journals::logged_of))]
fn logged(line: &[u8]) -> Option<Logged>
    ensures read { result ≡ logged_of line.now }
    ensures sound { IfSome result HasLogged }
{
    match split(line) {
        Fields::One(word) if word == b"t".as_slice() => Some(Logged::Passed),
        Fields::Two(word, digits) if word == b"f".as_slice() => match read_written(digits) {
            Some(frame) => Some(Logged::Took(frame)),
            None => None,
        },
        _ => None,
    }
}

/// What a line of a head end's journal says, without its newline; nothing where it is of another form.
#[tactic(auto, using(crate::proofs::JournalLemmas::logged_read))]
pub fn read_logged(line: &[u8]) -> Option<Logged>
    ensures read { result ≡ logged_of line.now }
    ensures written { IsLoggedOf line.now result }
{
    logged(line)
}

// Appends the line of a frame that was taken.
#[tactic(auto, unfolding(crate::specs::Journals::logged_text))]
fn put_took(out: &mut Vec<u8>, frame: &Frame) -> Result<(), AllocError>
    requires { FitsKind frame.now.tag.kind frame.now.missing frame.now.word }
    ensures text { OnOk result (out.new.items ≡ out.old.items ++ logged_text (Took frame.now)) }
    ensures has { HasLogged (Took frame.now) }
{
    let digits = digits(frame);
    out.extend_from_slice(b"f,")?;
    out.extend_from_slice(&digits)
}

// Appends the line of a tick that has passed.
#[tactic(auto, unfolding(crate::specs::Journals::logged_text))]
fn put_passed(out: &mut Vec<u8>) -> Result<(), AllocError>
    ensures { OnOk result (out.new.items ≡ out.old.items ++ logged_text Passed) }
{
    out.extend_from_slice(b"t")
}

/// Appends a line of a head end's journal, without its newline. At `Err` a part may stand at the end.
#[tactic(auto, using(crate::proofs::JournalLemmas::logged_again))]
pub fn put_logged(out: &mut Vec<u8>, line: &Logged) -> Result<(), AllocError>
    requires { CanLog line.now }
    ensures text { OnOk result (out.new.items ≡ out.old.items ++ logged_text line.now) }
    // So `read_logged` gives the line back.
    ensures read_back { logged_of (logged_text line.now) ≡ Some line.now }
{
    match line {
        Logged::Took(frame) => put_took(out, frame),
        Logged::Passed => put_passed(out),
    }
}
