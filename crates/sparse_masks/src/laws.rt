//! What masks between neighbours alone keep, for every width, plan, table and schedule. Each law is a contract with an empty body.

ghost use Rattle.std.specs.Prelude.{◌≡◌, ◌-◌, ◌^◌, true, [], ◌∷◌, Some, None};
ghost use Rattle.event_schedule.specs.Rows.{all};
ghost use Rattle.event_schedule.specs.Tables.{plain_sum};
ghost use Rattle.ideal_masks.specs.Moves.{offset_list};
ghost use Rattle.ideal_masks.specs.Rows.{pair_by};
ghost use Rattle.ideal_masks.specs.Statements.{Undone};
ghost use Rattle.sparse_masks.specs.Trees.{component, is_component_opened, root, parent};
ghost use Rattle.sparse_masks.specs.Offsets.{ring_offsets};
ghost use Rattle.sparse_masks.specs.Rows.{four, four_plan, three_of, two_of, whole, three_round, two_round};
ghost use Rattle.sparse_masks.specs.Statements.{NeighboursAreNear, ComponentsAreSmallest, RingWorlds, RingConverse, RingShifts};

/// Neighbours are near each other around the ring, and the component of a survivor is the smallest set with it that no joint leaves.
pub fn components()
    ensures neighbours { NeighboursAreNear }
    ensures smallest { ComponentsAreSmallest }
{}

/// Tables with one sum over each opened component have one transcript under the shifted masks, with the same totals; the shift can be
/// undone, and moves words between neighbours alone; and tables with one transcript have one sum over each.
pub fn isolated()
    ensures two_worlds { RingWorlds }
    ensures undone { Undone }
    ensures converse { RingConverse }
    ensures shifts { RingShifts }
{}

/// Worked rows of a ring of four meters and width 1. Where the last meter has no reading, the three others are one component, and one
/// pair word moves. Where each second one has none, each reading is a component of its own, and opened.
#[tactic(auto, unfolding(event_schedule::specs::Events::once))]
pub fn rounds()
    ensures three { component three_round 2 ≡ all }
    ensures three_opened { is_component_opened three_round 2 ≡ true }
    ensures root { root three_round 2 ≡ 0 }
    ensures no_parent { parent three_round 0 ≡ None }
    ensures parent { parent three_round 2 ≡ Some 1 }
    ensures moved { offset_list four_plan (ring_offsets 1 four (three_of 10 20 30) (three_of 15 15 30) (whole all)) ≡ pair_by 0 1 (2 ^ 64 - 5) ∷ [] }
    ensures alone { component two_round 0 ≡ 0 ∷ [] }
    ensures alone_opened { is_component_opened two_round 0 ≡ true }
    ensures one_sum { plain_sum (two_of 10 30) 0 0 (component two_round 0) ≡ 10 }
    ensures other_sum { plain_sum (two_of 15 25) 0 0 (component two_round 0) ≡ 15 }
{}
