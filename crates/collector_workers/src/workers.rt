//! How many workers there are.

ghost use Rattle.std.specs.Prelude.{◌≡◌, ◌≤◌};

/// How many workers there are: 1 to 16.
#[derive(Clone, Copy)]
pub struct Workers {
    pub count: u32,
    ghost within: { (1 ≤ count) × (count ≤ 16) },
}

impl Workers {
    /// So many workers.
    pub fn new(count: u32) -> Workers
        requires least { 1 ≤ count }
        requires most { count ≤ 16 }
        ensures { result.count ≡ count }
    {
        Workers { count }
    }
}
