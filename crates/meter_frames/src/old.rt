//! Frames of version 1, which are only read.

ghost use Rattle.std.specs.Prelude.{◌≡◌, ◌≤◌, length, Ok};
ghost use Rattle.meter_frames.specs.declared.Frame.{Frame};
ghost use Rattle.meter_frames.specs.OldFrames.{old_spelling, IsOldFrame, old_set_at, ReadsOld, DecodesOld};

use crate::{Frame, kind_of, tag_at, u64_at};
use group_plan::Kind;
use missing_round::MeterSet;
use mod_word::Word;

/// The first rule of version 1 that bytes break.
#[derive(Clone, Copy, Debug, PartialEq, Eq)]
pub enum OldFrameError {
    /// There are 28 bytes; this many were found.
    Length(u64),
    /// Byte 0 is 0x4d.
    Magic,
    /// Byte 1 is 1.
    Version,
    /// Byte 2 is 1, 2 or 3.
    Kind,
    /// Byte 3 is below 64.
    Meter,
    /// Bytes 6 and 7 are zero.
    Reserved,
    /// A reading has an empty set.
    SetInReading,
    /// An announcement has word 0.
    WordInAnnouncement,
}

/// The frame that the bytes are the version 1 spelling of. No call writes version 1.
pub fn decode_old(bytes: &[u8]) -> Result<Frame, OldFrameError>
    ensures decodes { DecodesOld bytes.now result }
    // Each frame of meters below 64 has one spelling, and that is read.
    ensures only { (f : Frame) → IsOldFrame f → bytes.now ≡ old_spelling f → result ≡ Ok f }
{
    read_old(bytes)
}

/// Tests the rules in order, and reads the fields.
fn read_old(bytes: &[u8]) -> Result<Frame, OldFrameError>
    ensures { ReadsOld bytes.now result }
{
    if bytes.len() != 28 {
        return Err(OldFrameError::Length(bytes.len() as u64));
    }
    if bytes[0] != 0x4d {
        return Err(OldFrameError::Magic);
    }
    if bytes[1] != 1 {
        return Err(OldFrameError::Version);
    }
    let Some(kind) = kind_of(bytes[2]) else {
        return Err(OldFrameError::Kind);
    };
    if bytes[3] >= 64 {
        return Err(OldFrameError::Meter);
    }
    if bytes[6] != 0 || bytes[7] != 0 {
        return Err(OldFrameError::Reserved);
    }
    let missing = old_set_at(bytes);
    let word = u64_at(bytes, 20);
    match kind {
        Kind::Reading if missing.len() > 0 => Err(OldFrameError::SetInReading),
        Kind::Announcement if word != 0 => Err(OldFrameError::WordInAnnouncement),
        _ => Ok(Frame {
            tag: tag_at(bytes, kind),
            missing,
            word: Word(word),
        }),
    }
}

/// The set in bytes 12 to 19.
fn old_set_at(bytes: &[u8]) -> MeterSet
    requires { 28 ≤ length bytes.now }
    ensures { result ≡ old_set_at bytes.now }
{
    let bits = [u64_at(bytes, 12), 0, 0, 0];
    let Ok(set) = MeterSet::from_bits(64, bits) else {
        unreachable!()
    };
    set
}
