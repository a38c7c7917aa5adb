//! The meters of a pool.
ghost use Rattle.std.specs.Prelude.{◌≡◌, [], slice_index_or};
ghost use Rattle.ideal_masks.specs.Pools.{pool_of};

use missing_round::MeterSet;

/// The meters of a group that are in the pool. The pool is kept as a set for each group, and a group past the last has none.
pub(crate) fn known_in(known: &[MeterSet], group: u16) -> MeterSet
    ensures { result ≡ slice_index_or known.now group [] }
{
    if (group as usize) < known.len() {
        known[group as usize]
    } else {
        MeterSet::empty()
    }
}

/// Whether the meter is in the pool.
pub(crate) fn is_known(known: &[MeterSet], group: u16, meter: u8) -> bool
    ensures { result ≡ pool_of known.now group meter }
{
    known_in(known, group).has(meter)
}
