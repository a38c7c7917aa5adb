//! Neighbours on the ring of a group.
ghost use Rattle.std.specs.Prelude.{◌≡◌, ◌&&◌, not, nat_le, nat_lt};
ghost use Rattle.std.specs.List.{filter};
ghost use Rattle.missing_round.specs.Sets.{IsSet};
ghost use Rattle.sparse_masks.specs.Neighbours.{apart, are_neighbours};

use missing_round::MeterSet;

// How many places it is from one meter to another, not over the ring's end.
fn apart(one: u8, other: u8) -> u8
    ensures { result ≡ apart one other }
{
    if one < other {
        other - one
    } else {
        one - other
    }
}

/// Whether two meters of a group of so many are neighbours of this width.
pub(crate) fn are_neighbours(width: u8, meters: u32, one: u8, other: u8) -> bool
    ensures { result ≡ are_neighbours width meters one other }
{
    let apart = u32::from(apart(one, other));
    let width = u32::from(width);
    one != other && (apart <= width || meters <= apart + width)
}

/// Those of these meters that don't stand from one number up to another one.
pub(crate) fn outside(meters: &MeterSet, from: u32, until: u32) -> MeterSet
    ensures outside { result ≡ filter (λ j. not (nat_le from j && nat_lt j until)) meters.now }
    ensures set { IsSet meters.now }
{
    let _bits = meters.bits();
    let below = MeterSet::full(from.min(256) as u16);
    meters.minus(MeterSet::full(until.min(256) as u16).minus(below))
}

/// Those of these meters that are neighbours of this one.
pub(crate) fn neighbours_among(width: u8, meters: u32, meter: u8, others: &MeterSet) -> MeterSet
    ensures neighbours { result ≡ filter (are_neighbours width meters meter) others.now }
    ensures set { IsSet others.now }
{
    let width = u32::from(width);
    let at = u32::from(meter);
    // Who is more than `width` and less than `around` places away, up or down, is no neighbour.
    let around = meters.saturating_sub(width);
    let above = outside(others, at + width + 1, at.saturating_add(around));
    let near = outside(
        &above,
        (at + 1).saturating_sub(around),
        at.saturating_sub(width),
    );
    near.without(meter)
}
