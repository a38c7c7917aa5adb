//! Why a cut text is no beginning of a transcript, and why a run does not go on from a cut.

use std::alloc::AllocError;

/// Why a cut text is no beginning of a transcript: the first fault of its completed text. Lines and fields are counted from 1.
#[derive(Clone, Copy, Debug, PartialEq, Eq)]
pub enum CutError {
    /// This line is not the head's next line, or is missing, or is `begin` after numbers that no plan has.
    Head(u64),
    /// This line is no entry and no `end`.
    Line(u64),
    /// This field of this line breaks its form.
    Field(u64, u8),
    /// This line is the `end` line, and its number is not that of the entries.
    Count(u64),
    /// A whole line stands here, after the `end` line.
    After(u64),
    /// Memory ran out.
    Memory,
}

impl From<AllocError> for CutError {
    ghost use Rattle.std.specs.Prelude.{◌≡◌};
    ghost use Rattle.cut_resume.specs.declared.errors.CutError.TheVariants.{Memory};

    ghost from_gives = { λ _ e. e ≡ Memory };

    fn from(_error: AllocError) -> CutError {
        CutError::Memory
    }
}

/// Why a run does not go on from a cut.
#[derive(Clone, Copy, Debug, PartialEq, Eq)]
pub enum ResumeError {
    /// The entry of this line is the first with which the cut is no beginning of this run. Lines are counted from 1.
    NotThis(u64),
    /// Memory ran out.
    Memory,
}

impl From<AllocError> for ResumeError {
    ghost use Rattle.std.specs.Prelude.{◌≡◌};
    ghost use Rattle.cut_resume.specs.declared.errors.ResumeError.TheVariants.{Memory};

    ghost from_gives = { λ _ e. e ≡ Memory };

    fn from(_error: AllocError) -> ResumeError {
        ResumeError::Memory
    }
}
