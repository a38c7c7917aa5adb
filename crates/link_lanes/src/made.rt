//! Fates that need no test.

ghost use Rattle.std.specs.Prelude.{◌≡◌, ◌≤◌, [], ◌∷◌};

use crate::Fate;

// Fates that need no test.
impl Fate {
    /// The fate of a frame that is lost, and of a line that is no Send: no copy.
    pub fn lost() -> Fate
        ensures { result ≡ [] }
    {
        Fate {
            count: 0,
            delays: [0, 0, 0],
        }
    }

    // One copy.
    pub(crate) fn once(delay: u8) -> Fate
        requires low { 1 ≤ delay }
        requires high { delay ≤ 16 }
        ensures { result ≡ delay ∷ [] }
    {
        Fate {
            count: 1,
            delays: [delay, 0, 0],
        }
    }

    // Two copies.
    pub(crate) fn twice(first: u8, second: u8) -> Fate
        requires low { 1 ≤ first }
        requires rising { first ≤ second }
        requires high { second ≤ 16 }
        ensures { result ≡ first ∷ second ∷ [] }
    {
        Fate {
            count: 2,
            delays: [first, second, 0],
        }
    }
}
