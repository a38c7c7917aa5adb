//! What the shift keeps, for every plan, table and schedule, and worked rows. Each law is a contract with an empty body.

ghost use Rattle.std.specs.Prelude.{◌≡◌, ◌-◌, ◌^◌, true, false, [], ◌∷◌, reverse, ◌++◌};
ghost use Rattle.event_schedule.specs.Rows.{three, readings, masks, whole, late, deaf, late_lines};
ghost use Rattle.event_schedule.specs.Schedule.{is_opened};
ghost use Rattle.event_schedule.specs.Tables.{plain_sum};
ghost use Rattle.event_schedule.specs.Transcript.{shape_of_readings, transcript};
ghost use Rattle.ideal_masks.specs.Moves.{offset_list};
ghost use Rattle.ideal_masks.specs.Pools.{others, is_open};
ghost use Rattle.ideal_masks.specs.Offsets.{offsets_for, offsets, shift};
ghost use Rattle.ideal_masks.specs.Rows.{plain_plan, second, third, words_of, zero_key_masks, own_by, pair_by, meter_2_deaf, meter_2, meters_0_and_1, exchanged, last_alone};
ghost use Rattle.ideal_masks.specs.Statements.{TwoWorlds, Undone, Converse, TwoWorldsFor, PoolWordsStay, ConverseFor, IsolatedFromPools, OffsetsAreListed, IsolatedAlways, PossibleIsExplained};

/// Worked rows: the moved words of the two masks files, as a list and in two mask tables, and a second world's lines.
#[tactic(auto, unfolding(event_schedule::specs::Events::once, event_schedule::specs::Transcript::lines_after))]
pub fn moved_words()
    ensures late_reading { offset_list plain_plan (offsets three readings second (reverse late)) ≡ own_by 2 30 ∷ pair_by 0 1 (2 ^ 64 - 5) ∷ [] }
    ensures late_reading_words { words_of (shift (offsets three readings second (reverse late)) masks) ≡ 100 ∷ 200 ∷ 330 ∷ 0 ∷ 7 ∷ 11 ∷ [] }
    ensures late_reading_lines { transcript three second (shift (offsets three readings second (reverse late)) masks) late ≡ late_lines }
    ensures late_reading_file { words_of (shift (offsets three readings second (reverse late)) zero_key_masks) ≡ 0x903df1a0ade0b876 ∷ 0x903df1a0ade0b876 ∷ 0x903df1a0ade0b894 ∷ 0x903df1a0ade0b871 ∷ 0x903df1a0ade0b876 ∷ 0x903df1a0ade0b876 ∷ [] }
    ensures lost_announcement { offset_list plain_plan (offsets three readings third (reverse deaf)) ≡ own_by 1 54 ∷ pair_by 0 2 9 ∷ pair_by 1 2 (2 ^ 64 - 36) ∷ [] }
    ensures lost_announcement_file { words_of (shift (offsets three readings third (reverse deaf)) zero_key_masks) ≡ 0x903df1a0ade0b876 ∷ 0x903df1a0ade0b8ac ∷ 0x903df1a0ade0b876 ∷ 0x903df1a0ade0b876 ∷ 0x903df1a0ade0b87f ∷ 0x903df1a0ade0b852 ∷ [] }
{}

/// Tables that agree have one transcript under the shift, the shift can be undone, and tables with one transcript agree.
pub fn two_worlds()
    ensures two_worlds { TwoWorlds }
    ensures undone { Undone }
    ensures converse { Converse }
{}

/// Worked rows: the announcement to meter 2 is lost, and the round isn't opened. Yet it is open to meter 2, which learns that the two
/// others read 30 together, and nothing else of them. These two learn nothing of meter 2 then, and its very reading where it answers.
#[tactic(auto, unfolding(event_schedule::specs::Events::once, event_schedule::specs::Transcript::lines_after))]
pub fn pooled_rounds()
    ensures not_opened { is_opened (shape_of_readings three readings) 0 0 (reverse meter_2_deaf) ≡ false }
    ensures open { is_open meter_2 (shape_of_readings three readings) 0 0 (reverse meter_2_deaf) ≡ true }
    ensures others { others meter_2 (shape_of_readings three readings) 0 0 (reverse meter_2_deaf) ≡ 0 ∷ 1 ∷ [] }
    ensures sum { plain_sum readings 0 0 (others meter_2 (shape_of_readings three readings) 0 0 (reverse meter_2_deaf)) ≡ 30 }
    ensures moved { offset_list plain_plan (offsets_for meter_2 three readings exchanged (reverse meter_2_deaf)) ≡ pair_by 0 1 (2 ^ 64 - 5) ∷ [] }
    ensures closed { is_open meters_0_and_1 (shape_of_readings three readings) 0 0 (reverse meter_2_deaf) ≡ false }
    ensures closed_moved { offset_list plain_plan (offsets_for meters_0_and_1 three readings last_alone (reverse meter_2_deaf)) ≡ own_by 2 25 ∷ [] }
    ensures last_open { is_open meters_0_and_1 (shape_of_readings three readings) 0 0 (reverse whole) ≡ true }
    ensures last { others meters_0_and_1 (shape_of_readings three readings) 0 0 (reverse whole) ≡ 2 ∷ [] }
{}

/// For each pool of meters, which share what they know: tables that agree for it have one transcript under the shift, which moves no
/// word of the pool; tables with one transcript and the same words and readings of the pool agree for it; and each finite table of
/// readings is isolated from each pool.
pub fn pools()
    ensures two_worlds { TwoWorldsFor }
    ensures words_stay { PoolWordsStay }
    ensures converse { ConverseFor }
    ensures isolated { IsolatedFromPools }
{}

/// The list of moved words is the offsets.
pub fn listed()
    ensures { OffsetsAreListed }
{}

/// Each table of readings is isolated under each schedule.
pub fn isolated()
    ensures { IsolatedAlways }
{}

/// Lines are possible exactly where some readings and some masks explain them.
pub fn possible_is_explained()
    ensures { PossibleIsExplained }
{}
