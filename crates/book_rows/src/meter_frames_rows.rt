//! Frames and their bytes, in both versions.
ghost use Rattle.std.specs.Prelude.{◌≡◌};

use crate::fixtures::{check, check_same};
use group_plan::{Kind, Tag};
use meter_frames::{Frame, FrameError, OldFrameError, decode, decode_old, encode};
use missing_round::MeterSet;
use mod_word::Word;
use std::process::Abort;

fn frame(kind: Kind, meter: u8, missing: MeterSet, word: u64) -> Frame
    ensures kind { result.tag.kind ≡ kind }
    ensures missing { result.missing ≡ missing }
    ensures word { result.word ≡ word }
{
    Frame {
        tag: Tag {
            group: 0,
            round: 0,
            meter,
            kind,
        },
        missing,
        word: Word(word),
    }
}

/// The bytes of a vector: a head of four bytes, the last byte of the set and that of the word.
fn vector(head: [u8; 4], set: u8, word: u8) -> [u8; 52] {
    let mut bytes: [u8; 52] = [0; 52];
    bytes[..4].copy_from_slice(&head);
    bytes[43] = set;
    bytes[51] = word;
    bytes
}

fn old_vector(head: [u8; 4], set: u8, word: u8) -> [u8; 28] {
    let mut bytes: [u8; 28] = [0; 28];
    bytes[..4].copy_from_slice(&head);
    bytes[19] = set;
    bytes[27] = word;
    bytes
}

fn check_decoded(rt: &impl Abort, bytes: &[u8], frame: Result<Frame, FrameError>, row: &str) {
    check_same(rt, &decode(bytes), &frame, row);
}

fn check_old(rt: &impl Abort, bytes: &[u8; 28], frame: Result<Frame, OldFrameError>, row: &str) {
    check_same(rt, &decode_old(bytes), &frame, row);
}

#[test]
fn vectors_of_both_versions(rt: HostRuntime) {
    let two = MeterSet::empty().with(2);
    let reading = frame(Kind::Reading, 1, MeterSet::empty(), 226);
    let announcement = frame(Kind::Announcement, 0, two, 0);
    let answer = frame(Kind::Answer, 1, two, 211);

    let reading_bytes = vector([0x4d, 2, 1, 1], 0, 0xe2);
    let announcement_bytes = vector([0x4d, 2, 2, 0], 4, 0);
    let answer_bytes = vector([0x4d, 2, 3, 1], 4, 0xd3);
    check(&rt, encode(&reading) == reading_bytes, "a reading");
    check(
        &rt,
        encode(&announcement) == announcement_bytes,
        "an announcement",
    );
    check(&rt, encode(&answer) == answer_bytes, "an answer");

    check_decoded(&rt, &reading_bytes, Ok(reading), "a reading");
    check_decoded(
        &rt,
        &announcement_bytes,
        Ok(announcement),
        "an announcement",
    );
    check_decoded(&rt, &answer_bytes, Ok(answer), "an answer");

    let old_reading = old_vector([0x4d, 1, 1, 1], 0, 0xe2);
    let old_announcement = old_vector([0x4d, 1, 2, 0], 4, 0);
    let old_answer = old_vector([0x4d, 1, 3, 1], 4, 0xd3);
    check_old(&rt, &old_reading, Ok(reading), "an old reading");
    check_old(
        &rt,
        &old_announcement,
        Ok(announcement),
        "an old announcement",
    );
    check_old(&rt, &old_answer, Ok(answer), "an old answer");
    let meter_64 = old_vector([0x4d, 1, 3, 64], 4, 0xd3);
    check_old(&rt, &meter_64, Err(OldFrameError::Meter), "meter 64");
}

#[test]
fn answer_in_version_2(rt: HostRuntime) {
    let answer = frame(Kind::Answer, 1, MeterSet::empty().with(2), 211);
    let bytes = encode(&answer);
    check(
        &rt,
        bytes[..12] == [0x4d, 2, 3, 1, 0, 0, 0, 0, 0, 0, 0, 0],
        "the head",
    );
    check(&rt, bytes[12..43].iter().all(|byte| *byte == 0), "between");
    check(
        &rt,
        bytes[43..] == [4, 0, 0, 0, 0, 0, 0, 0, 0xd3],
        "the end",
    );
}

#[test]
fn first_broken_rule(rt: HostRuntime) {
    check_decoded(&rt, &[0; 27], Err(FrameError::Length(27)), "27 bytes");
    let reading = vector([0x4d, 2, 1, 1], 1, 0xe2);
    check_decoded(
        &rt,
        &reading,
        Err(FrameError::SetInReading),
        "a set in a reading",
    );
    let announcement = vector([0x4d, 2, 2, 0], 4, 1);
    check_decoded(
        &rt,
        &announcement,
        Err(FrameError::WordInAnnouncement),
        "a word in an announcement",
    );
}
