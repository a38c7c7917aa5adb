//! Frames of the first group in round 0.

use group_plan::{Kind, Tag};
use meter_frames::Frame;
use missing_round::MeterSet;
use mod_word::Word;
use std::process::Abort;

/// Asks whether a fact is so.
pub(crate) fn check(rt: &impl Abort, is_so: bool, row: &str) {
    assert!(rt; is_so, "at {row}");
}

/// The frame with this word.
pub(crate) fn frame(kind: Kind, meter: u8, missing: MeterSet, word: u64) -> Frame {
    Frame {
        tag: Tag {
            round: 0,
            group: 0,
            meter,
            kind,
        },
        missing,
        word: Word(word),
    }
}
