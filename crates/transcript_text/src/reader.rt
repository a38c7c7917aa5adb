//! The readers of a transcript, one for each version. They read its text in pieces, side by side.

ghost use Rattle.std.specs.Prelude.{◌≡◌, IfOk};
ghost use Rattle.transcript_text.specs.declared.version.Version.TheVariants.{One, Two};
ghost use Rattle.event_schedule.specs.Transcripts.{IsTranscript};
ghost use Rattle.transcript_text.specs.Spelling.{transcript_text, text_of};
ghost use Rattle.transcript_text.specs.Reading.{Gives};
ghost use Rattle.transcript_text.specs.Heads.{read_of};
ghost use Rattle.transcript_text.specs.ReadBack.{HasHead, IsOldPlan, ReadsEach};
ghost use Rattle.transcript_text.specs.Faults.{StopsAt};

use crate::entry_reader::EntryReader;
use crate::fault::ReadError;
use crate::lines::entries;
use crate::piece::BYTES_A_PIECE;
use crate::version::Version;
use std::alloc::Global;
use std::thread::Threads;
use transcript_log::Transcript;

/// The transcript whose text of this version the bytes are, or the first fault. The text is read in pieces of so many bytes, side by
/// side. Where memory for that is wanting, it is read line by line.
pub fn read_in_pieces<R: Threads + Sync>(
    rt: &R,
    alloc: Global,
    version: Version,
    bytes: &[u8],
    size: usize,
) -> Result<Transcript, ReadError>
    ensures exact { Gives (λ t. t) result (read_of version bytes.now) }
    ensures found { IfOk result (λ t. bytes.now ≡ text_of version t) }
    ensures sound { IfOk result (λ t. IsTranscript t) }
    ensures plan { IfOk result (λ t. HasHead version t.plan) }
{
    let mut reader = match EntryReader::new(alloc, version, bytes) {
        Ok(reader) => reader,
        Err(fault) => return Err(fault),
    };
    entries(rt, alloc, size, &mut reader)
}

/// The transcript whose text of version 2 the bytes are, or the first fault.
#[tactic(auto, using(crate::proofs::ReadAgain::reads_each, crate::proofs::FirstFaults::stops_at))]
pub fn read<R: Threads + Sync>(rt: &R, alloc: Global, bytes: &[u8]) -> Result<Transcript, ReadError>
    ensures exact { Gives (λ t. t) result (read_of Two bytes.now) }
    ensures found { IfOk result (λ t. bytes.now ≡ transcript_text t) }
    ensures sound { IfOk result (λ t. IsTranscript t) }
    ensures each { ReadsEach Two bytes.now }
    ensures stops { StopsAt Two bytes.now result }
{
    read_in_pieces(rt, alloc, Version::Two, bytes, BYTES_A_PIECE)
}

/// The transcript whose text of version 1 the bytes are, or the first fault.
#[tactic(auto, using(crate::proofs::ReadAgain::reads_each, crate::proofs::FirstFaults::stops_at))]
pub fn read_old<R: Threads + Sync>(
    rt: &R,
    alloc: Global,
    bytes: &[u8],
) -> Result<Transcript, ReadError>
    ensures exact { Gives (λ t. t) result (read_of One bytes.now) }
    ensures found { IfOk result (λ t. bytes.now ≡ text_of One t) }
    ensures sound { IfOk result (λ t. IsTranscript t) }
    ensures plan { IfOk result (λ t. IsOldPlan t.plan) }
    ensures each { ReadsEach One bytes.now }
    ensures stops { StopsAt One bytes.now result }
{
    read_in_pieces(rt, alloc, Version::One, bytes, BYTES_A_PIECE)
}
