//! Frames between meters and the head end, and their bytes.
#![tactic(auto)]

ghost use Rattle.std.specs.Prelude.{◌≡◌, ◌+◌, ◌^◌, ◌<◌, ◌≤◌, length, Ok};
ghost use Rattle.meter_frames.specs.declared.Frame.{Frame};
ghost use Rattle.meter_frames.specs.Frames.{spelling, FitsKind, IsFrame, number16, number32, number64, kind_of, tag_at, set_at, Reads, Decodes};

mod old;

use byteorder::{BigEndian, ByteOrder};
use group_plan::{Kind, Tag};
use missing_round::MeterSet;
use mod_word::Word;
pub use old::{OldFrameError, decode_old};

/// What is sent: whose it is, the missing set, and a word.
#[derive(Clone, Copy, Debug, PartialEq, Eq)]
pub struct Frame {
    pub tag: Tag,
    pub missing: MeterSet,
    pub word: Word,
}

/// The first rule of version 2 that bytes break.
#[derive(Clone, Copy, Debug, PartialEq, Eq)]
pub enum FrameError {
    /// There are 52 bytes; this many were found.
    Length(u64),
    /// Byte 0 is 0x4d.
    Magic,
    /// Byte 1 is 2.
    Version,
    /// Byte 2 is 1, 2 or 3.
    Kind,
    /// Bytes 6 and 7 are zero.
    Reserved,
    /// A reading has an empty set.
    SetInReading,
    /// An announcement has word 0.
    WordInAnnouncement,
}

/// The bytes of a frame, in version 2.
#[tactic(auto, unfolding(crate::specs::Frames::spelling))]
pub fn encode(frame: &Frame) -> [u8; 52]
    requires { FitsKind frame.now.tag.kind frame.now.missing frame.now.word }
    ensures spelled { result ≡ spelling frame.now }
    // So `decode` gives the frame back.
    ensures frame { IsFrame frame.now }
{
    let tag = frame.tag;
    tag_fits(tag.group, tag.round, tag.meter);
    let mut out: [u8; 52] = [0; 52];
    out[0] = 0x4d;
    out[1] = 2;
    out[2] = match tag.kind {
        Kind::Reading => 1,
        Kind::Announcement => 2,
        Kind::Answer => 3,
    };
    out[3] = tag.meter;
    BigEndian::write_u16(&mut out[4..], tag.group);
    BigEndian::write_u32(&mut out[8..], tag.round);
    let [a, b, c, d] = frame.missing.bits();
    BigEndian::write_u64(&mut out[12..], d);
    BigEndian::write_u64(&mut out[20..], c);
    BigEndian::write_u64(&mut out[28..], b);
    BigEndian::write_u64(&mut out[36..], a);
    BigEndian::write_u64(&mut out[44..], frame.word.value());
    out
}

/// The frame that the bytes are the version 2 spelling of.
pub fn decode(bytes: &[u8]) -> Result<Frame, FrameError>
    ensures decodes { Decodes bytes.now result }
    // Each frame has one spelling, and that is read.
    ensures only { (f : Frame) → IsFrame f → bytes.now ≡ spelling f → result ≡ Ok f }
{
    read(bytes)
}

/// Tests the rules in order, and reads the fields.
fn read(bytes: &[u8]) -> Result<Frame, FrameError>
    ensures { Reads bytes.now result }
{
    if bytes.len() != 52 {
        return Err(FrameError::Length(bytes.len() as u64));
    }
    if bytes[0] != 0x4d {
        return Err(FrameError::Magic);
    }
    if bytes[1] != 2 {
        return Err(FrameError::Version);
    }
    let Some(kind) = kind_of(bytes[2]) else {
        return Err(FrameError::Kind);
    };
    if bytes[6] != 0 || bytes[7] != 0 {
        return Err(FrameError::Reserved);
    }
    let missing = set_at(bytes);
    let word = u64_at(bytes, 44);
    match kind {
        Kind::Reading if missing.len() > 0 => Err(FrameError::SetInReading),
        Kind::Announcement if word != 0 => Err(FrameError::WordInAnnouncement),
        _ => Ok(Frame {
            tag: tag_at(bytes, kind),
            missing,
            word: Word(word),
        }),
    }
}

/// The set in bytes 12 to 43.
fn set_at(bytes: &[u8]) -> MeterSet
    requires { 52 ≤ length bytes.now }
    ensures { result ≡ set_at bytes.now }
{
    let bits: [u64; 4] = [
        u64_at(bytes, 36),
        u64_at(bytes, 28),
        u64_at(bytes, 20),
        u64_at(bytes, 12),
    ];
    let Ok(set) = MeterSet::from_bits(256, bits) else {
        unreachable!()
    };
    set
}

/// The tag of a frame of either version.
fn tag_at(bytes: &[u8], kind: Kind) -> Tag
    requires { 12 ≤ length bytes.now }
    ensures { result ≡ tag_at kind bytes.now }
{
    Tag {
        group: u16::from_be_bytes([bytes[4], bytes[5]]),
        round: u32::from_be_bytes([bytes[8], bytes[9], bytes[10], bytes[11]]),
        meter: bytes[3],
        kind,
    }
}

/// The kind that a frame's byte stands for.
fn kind_of(byte: u8) -> Option<Kind>
    ensures { result ≡ kind_of byte }
{
    match byte {
        1 => Some(Kind::Reading),
        2 => Some(Kind::Announcement),
        3 => Some(Kind::Answer),
        _ => None,
    }
}

/// The big-endian number in eight bytes.
#[tactic(auto, unfolding(crate::specs::Frames::number64))]
fn u64_at(bytes: &[u8], at: usize) -> u64
    requires { at + 8 ≤ length bytes.now }
    ensures { result ≡ number64 at bytes.now }
{
    u64::from_be_bytes([
        bytes[at],
        bytes[at + 1],
        bytes[at + 2],
        bytes[at + 3],
        bytes[at + 4],
        bytes[at + 5],
        bytes[at + 6],
        bytes[at + 7],
    ])
}

/// What the types of a tag's numbers say of them.
fn tag_fits(group: u16, round: u32, meter: u8)
    ensures group { group < 2 ^ 16 }
    ensures round { round < 2 ^ 32 }
    ensures meter { meter < 256 }
{}
