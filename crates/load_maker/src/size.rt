//! How large the files are.
ghost use Rattle.std.specs.Prelude.{◌≡◌, MatchOption, true, false};
ghost use Rattle.load_maker.specs.Sizes.{is_within};

/// The numbers of groups, of meters in each group, and of rounds, within the limits of plans.
#[derive(Clone, Copy)]
pub struct PlanSize {
    pub groups: u64,
    pub meters: u64,
    pub rounds: u64,
    ghost within: { is_within groups meters rounds ≡ true },
}

/// Whether the numbers are within the limits of plans: 1 to 256 groups of 2 to 256 meters, 1 to 4096 rounds, at most 131,072
/// readings and 1,048,576 pairs.
#[tactic(auto, unfolding(crate::specs::Sizes::is_within))]
pub fn is_within(groups: u64, meters: u64, rounds: u64) -> bool
    ensures { result ≡ is_within groups meters rounds }
{
    if groups < 1 || groups > 256 || meters < 2 || meters > 256 || rounds < 1 || rounds > 4096 {
        return false;
    }
    groups * meters * rounds <= 131_072 && groups * (meters * (meters - 1) / 2) <= 1_048_576
}

impl PlanSize {
    /// The size of these numbers, where they are within the limits.
    pub fn new(groups: u64, meters: u64, rounds: u64) -> Option<PlanSize>
        ensures { MatchOption result (is_within groups meters rounds ≡ false) (λ size. (size.groups ≡ groups) × (size.meters ≡ meters) × (size.rounds ≡ rounds)) }
    {
        if !is_within(groups, meters, rounds) {
            return None;
        }
        Some(PlanSize {
            groups,
            meters,
            rounds,
        })
    }
}
