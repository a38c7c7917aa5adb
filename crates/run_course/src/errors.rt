//! Why entries are no run.

use std::alloc::AllocError;

/// Why a transcript's entries are no run of its plan.
#[derive(Clone, Copy)]
pub enum CourseError {
    /// No run begins with the entries up to this one, counted from 0; one begins with those before it.
    Entry(u64),
    /// A run begins with all entries, and goes on.
    Unfinished,
    /// Memory ran out.
    Memory,
}

impl From<AllocError> for CourseError {
    ghost use Rattle.std.specs.Prelude.{◌≡◌};
    ghost use Rattle.run_course.specs.declared.errors.CourseError.TheVariants.{Memory};

    ghost from_gives = { λ _ e. e ≡ Memory };

    fn from(_error: AllocError) -> CourseError {
        CourseError::Memory
    }
}
