//! The component of a survivor: on a ring it is the stretch around it that ends at gaps of the width.
ghost use Rattle.std.specs.Prelude.{◌≡◌, ◌<◌, true};
ghost use Rattle.missing_round.specs.Sets.{is_member};
ghost use Rattle.sparse_masks.specs.Trees.{component};
ghost use Rattle.sparse_masks.specs.Rounds.{graph_of, IsRingRound};
ghost use Rattle.sparse_masks.specs.Stretches.{place, Reaches};

use crate::neighbours::outside;
use crate::round::Round;
use missing_round::MeterSet;

/// A way around the ring: by number up, or down.
#[derive(Clone, Copy)]
pub(crate) enum Way {
    Up,
    Down,
}

impl Round {
    // The meter so many places from another one, up or down.
    fn place(&self, way: Way, meter: u8, places: u32) -> u8
        requires round { IsRingRound self.now }
        requires meter { meter < self.now.meters }
        requires places { places < self.now.meters }
        ensures { result ≡ place self.now.meters way meter places }
    {
        let meter = u32::from(meter);
        let place = match way {
            Way::Up if meter + places < self.meters => meter + places,
            Way::Up => meter + places - self.meters,
            Way::Down if places <= meter => meter - places,
            Way::Down => meter + self.meters - places,
        };
        place as u8
    }

    // How many places away that way the last survivor stands to which joints lead: at the next `width` places there is none.
    fn reach(&self, way: Way, meter: u8) -> u32
        requires round { IsRingRound self.now }
        requires survivor { is_member meter self.now.survivors ≡ true }
        ensures { Reaches self.now meter way result }
    {
        let mut reach = 0;
        for places in 1..self.meters {
            if places > reach + u32::from(self.width) {
                return reach;
            }
            if self.survivors.has(self.place(way, meter, places)) {
                reach = places;
            }
        }
        reach
    }

    /// The component of a survivor: all survivors but those past the last to which joints lead up the ring, and before the last to which
    /// they lead down.
    pub(crate) fn component(&self, meter: u8) -> MeterSet
        requires round { IsRingRound self.now }
        requires survivor { is_member meter self.now.survivors ≡ true }
        ensures { result ≡ component (graph_of self.now) meter }
    {
        // The others stand from one number up to the other, counted on over the ring's end.
        let from = u32::from(meter) + self.reach(Way::Up, meter) + 1;
        let until = u32::from(meter) + self.meters - self.reach(Way::Down, meter);
        let rest = outside(&self.survivors, from, until);
        outside(
            &rest,
            from.saturating_sub(self.meters),
            until.saturating_sub(self.meters),
        )
    }
}
