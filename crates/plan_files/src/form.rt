//! The two forms of a plan's file.
ghost use Rattle.std.specs.Prelude.{◌≡◌, ◌<◌, length};
ghost use Rattle.plan_files.specs.KeptRows.{most_bytes};
ghost use Rattle.plan_files.specs.PlanRows.{title};

/// A plan's file with its keys and lanes, or the one for everybody, which has neither.
#[derive(Clone, Copy)]
pub enum PlanForm {
    Whole,
    Public,
}

impl PlanForm {
    /// The word with which the file starts.
    pub fn title(self) -> &'static [u8]
        ensures title { result.now ≡ title self }
        ensures short { length result.now < most_bytes }
    {
        match self {
            PlanForm::Whole => b"plan",
            PlanForm::Public => b"public",
        }
    }
}
