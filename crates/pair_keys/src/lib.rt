//! Keys: the own key of each meter of a plan, and the key of each two meters of a group.
#![tactic(auto)]

mod pile;

pub use pile::{KeyPile, KeyTable, Unfinished};

/// A key of a plan. A pair's lower meter comes first.
#[derive(Clone, Copy, Debug, PartialEq, Eq)]
pub enum KeyId {
    Own { group: u32, meter: u32 },
    Pair { group: u32, low: u32, high: u32 },
}

/// Why a key is refused.
#[derive(Clone, Copy, Debug, PartialEq, Eq)]
pub enum KeyError {
    /// The group or a meter is outside the plan, or the lower meter isn't below the higher.
    Range,
    /// The key was put before.
    Twice(KeyId),
    /// The plan has this key, and it was never put. Only readers of whole plan files answer it.
    Missing(KeyId),
}
