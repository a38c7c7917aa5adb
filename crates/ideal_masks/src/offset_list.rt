//! Lists of moved words.
ghost use Rattle.std.specs.Prelude.{◌≡◌};
ghost use Rattle.ideal_masks.specs.Order.{AreMoves, ListOfRows};

use crate::Offset;
use crate::order::are_moves;
use std::marker::Model;

/// The mask words that move between two tables of readings, in the order of the masks file: by group, by round, own words
/// by meter, and then pair words by the lower meter and the higher. None moves by 0, and none stands twice.
#[derive(Drop)]
pub struct Offsets {
    moves: Vec<Offset>,
}

impl Model for Offsets {
    ghost use Rattle.std.specs.Prelude.{List};
    ghost use Rattle.ideal_masks.specs.declared.Offset.{Offset};
    ghost use Rattle.ideal_masks.specs.Order.{AreMoves};

    ghost Value = { List Offset };

    ghost view = { λ o. o.moves.items };

    ghost invariant = { λ o. AreMoves o.moves.items };
}

impl Offsets {
    /// These moves, in the order of the masks file.
    pub fn of(moves: Vec<Offset>) -> Offsets
        requires { AreMoves moves.items }
        ensures { result ≡ moves.items }
    {
        Offsets { moves }
    }

    /// These moves; none exactly where they aren't strictly ascending in the order of the masks file, or one is by 0, or the lower
    /// meter of a pair isn't below the higher.
    pub fn new(rows: Vec<Offset>) -> Option<Offsets>
        ensures { ListOfRows rows.items result }
    {
        if are_moves(&rows) {
            Some(Offsets { moves: rows })
        } else {
            None
        }
    }

    /// The moved words, in order.
    pub fn moved(&self) -> &[Offset]
        ensures list { result.now ≡ self.now }
        ensures order { AreMoves self.now }
    {
        &self.moves
    }
}
