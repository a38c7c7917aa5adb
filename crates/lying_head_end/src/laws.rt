//! What a head end that lies learns, for every plan, table, pool and list of acts, and worked rows. Each law is a contract with an empty body.

ghost use Rattle.std.specs.Prelude.{◌≡◌, [], ◌∷◌, None};
ghost use Rattle.ideal_masks.specs.Statements.{Undone};
ghost use Rattle.mask_graphs.specs.Search.{bare_parts};
ghost use Rattle.lying_head_end.specs.Acts.{set_answered};
ghost use Rattle.lying_head_end.specs.Honest.{HonestAgree};
ghost use Rattle.lying_head_end.specs.Meters.{MetersAnswerTheirSets};
ghost use Rattle.lying_head_end.specs.Rows.{eight_round, three_round, eight_shape, split, uneven, one_other, one_way, honest, three_others};
ghost use Rattle.lying_head_end.specs.Statements.{TwoWorldsTold, PoolWordsStayTold, ConverseTold, BarePartsReachFloor};

/// Whatever the meters are told, tables that agree have the same frames under the shift, which moves no word of the pool and can be
/// undone; and tables with the same frames agree. So the sums over the bare parts are learnt, and nothing else.
pub fn told()
    ensures two_worlds { TwoWorldsTold }
    ensures words_stay { PoolWordsStayTold }
    ensures undone { Undone }
    ensures converse { ConverseTold }
{}

/// A bare part has at least as many meters as the floor, less those of the pool that one of its meters left standing.
pub fn floors()
    ensures { BarePartsReachFloor }
{}

/// On an honest schedule, where each meter is told the missing set of its round, tables agree so exactly where they agree for the pool.
pub fn honest()
    ensures { HonestAgree }
{}

/// The rule of the acts is that of the meters: after any calls on a meter it keeps the set that it answers, the first that passed, and it
/// says that it answers exactly where it sends a frame.
pub fn meters()
    ensures { MetersAnswerTheirSets }
{}

/// Worked rows: the bare parts of rounds of eight meters with floor 4. The head end tells each four of them that the four others are
/// missing; it tells so three and five, and the three refuse; it tells one meter another set than the seven others; the links to the
/// first four lead in one direction only; it tells all the same. Of three meters that all answered and are joined by links, nothing is
/// learnt where two of them aren't linked.
pub fn rounds()
    ensures four_and_four { bare_parts (eight_round split) ≡ (3 ∷ 2 ∷ 1 ∷ 0 ∷ []) ∷ (7 ∷ 6 ∷ 5 ∷ 4 ∷ []) ∷ [] }
    ensures three_and_five { bare_parts (eight_round uneven) ≡ (7 ∷ 6 ∷ 5 ∷ 4 ∷ 3 ∷ []) ∷ [] }
    ensures three_refuse { set_answered eight_shape 0 0 2 uneven ≡ None }
    ensures one_told_another_set { bare_parts (eight_round one_other) ≡ [] }
    ensures one_direction { bare_parts (eight_round one_way) ≡ (3 ∷ 2 ∷ 1 ∷ 0 ∷ []) ∷ [] }
    ensures all_told_the_same { bare_parts (eight_round honest) ≡ (7 ∷ 6 ∷ 5 ∷ 4 ∷ 3 ∷ 2 ∷ 1 ∷ 0 ∷ []) ∷ [] }
    ensures joined_not_linked { bare_parts (three_round three_others) ≡ [] }
{}
