//! Frames in hexadecimal digits.

ghost use Rattle.std.specs.Prelude.{◌≡◌, IfSome};
ghost use Rattle.meter_frames.specs.Frames.{FitsKind, IsFrame};
ghost use Rattle.apart_lines.specs.Frames.{digits_of, frame_of_bytes, frame_in, frame_written, IsRead};

use hex::FromHex;
use meter_frames::{Frame, FrameError, decode, encode};

/// The frame that bytes spell.
#[tactic(auto, using(crate::proofs::FrameLemmas::frame_decoded))]
fn frame_of_bytes(bytes: &[u8; 52]) -> Result<Frame, FrameError>
    ensures read { result ≡ frame_of_bytes bytes.now }
    ensures sound { IsRead (Some result) }
{
    decode(bytes)
}

/// What 104 digits of either case spell, or nothing where the text is another one.
#[tactic(auto, unfolding(crate::specs::Frames::frame_in))]
pub(crate) fn read_frame(text: &[u8]) -> Option<Result<Frame, FrameError>>
    ensures read { result ≡ frame_in text.now }
    ensures sound { IsRead result }
{
    match <[u8; 52] as FromHex>::from_hex(text) {
        Ok(bytes) => Some(frame_of_bytes(&bytes)),
        Err(_) => None,
    }
}

/// The 104 lower-case digits of a frame.
pub(crate) fn digits(frame: &Frame) -> [u8; 104]
    requires { FitsKind frame.now.tag.kind frame.now.missing frame.now.word }
    ensures digits { result ≡ digits_of frame.now }
    ensures frame { IsFrame frame.now }
{
    let mut digits = [0u8; 104];
    if hex::encode_to_slice(encode(frame), &mut digits).is_err() {
        unreachable!()
    }
    digits
}

/// The frame whose lower-case digits the text is.
pub(crate) fn read_written(text: &[u8]) -> Option<Frame>
    ensures read { result ≡ frame_written text.now }
    ensures sound { IfSome result IsFrame }
{
    match read_frame(text) {
        Some(Ok(frame)) => {
            if digits(&frame).as_slice() == text {
                Some(frame)
            } else {
                None
            }
        }
        Some(Err(_)) | None => None,
    }
}
