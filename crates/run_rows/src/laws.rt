//! What holds of every tick run, and worked rows. Each law is a contract with an empty body.

ghost use Rattle.std.specs.Prelude.{◌≡◌, [], ◌∷◌, map, reverse};
ghost use Rattle.group_plan.specs.declared.Kind.TheVariants.{Reading, Announcement, Answer};
ghost use Rattle.link_lanes.specs.Lanes.{fates_after};
ghost use Rattle.event_schedule.specs.Events.{events_of, lines_of};
ghost use Rattle.event_schedule.specs.Rows.{three, joining, readings, joining_readings, all, first_two};
ghost use Rattle.event_schedule.specs.Tables.{plain_sum};
ghost use Rattle.run_rows.specs.ByGroup.{GroupRunsAreTickRuns};
ghost use Rattle.run_rows.specs.Posts.{posts_by_lanes};
ghost use Rattle.run_rows.specs.Report.{ThinRow, TotalRow, NoneRow, outcome_row};
ghost use Rattle.run_rows.specs.Rows.{clock, hung, only, burst, first_two_read, one_read, three_rounds_read, three_long, one_then_three, one_then_three_read, reported, counts, heard_twice, north, late_run};
ghost use Rattle.run_rows.specs.Statements.{PlansCanRun, PostsAreByLanes, RowsAreDelays, SummariesAreOfPosts, Reports};
ghost use Rattle.run_rows.specs.Summary.{summary_of_lines};
ghost use Rattle.run_rows.specs.Ticks.{IsOrdered, sent_at, due_of, posts_of};

/// A plan and a presence of it can run.
pub fn plans()
    ensures { PlansCanRun }
{}

/// Runs of all groups are one tick run, where they are in order and have the fates of the lanes.
pub fn groups()
    ensures { GroupRunsAreTickRuns }
{}

/// The posts of a run depend on its plan, presence and lanes alone.
pub fn posts()
    ensures { PostsAreByLanes }
{}

/// The outcomes of a run are the rows of the report by fates.
pub fn rows()
    ensures { RowsAreDelays }
{}

/// The summary of a run depends on its plan, presence, lanes and totals alone.
pub fn summaries()
    ensures { SummariesAreOfPosts }
{}

/// The report and the summary of a run depend on its plan, presence, lanes and totals alone.
pub fn reports()
    ensures { Reports }
{}

/// Worked rows of one round: what the lanes make of it.
pub fn one_round()
    ensures three_meters_total_60 { reported three readings (clock 1 1 2) [] ≡ (TotalRow all 60 ∷ [], counts 1 1 0 0 9 9) }
    ensures absent_reading_recovered { reported three first_two_read (clock 1 1 2) [] ≡ (TotalRow first_two 30 ∷ [], counts 1 1 0 0 6 6) }
    ensures one_reading_is_thin { reported three one_read (clock 1 1 2) [] ≡ (ThinRow (0 ∷ []) ∷ [], counts 1 0 0 1 1 1) }
    ensures late_reading_left_out { reported three readings (clock 1 1 2) (hung (only Reading 2 (2 ∷ [])) 0 0 ∷ []) ≡ (TotalRow first_two 30 ∷ [], counts 1 1 0 0 7 7) }
    ensures lost_answer_gives_none { reported three readings (clock 1 1 2) (hung (only Answer 1 []) 0 35 ∷ []) ≡ (NoneRow all ∷ [], counts 1 0 1 0 9 8) }
    ensures lost_announcement_gives_none { reported three readings (clock 1 1 2) (hung (only Announcement 1 []) 0 35 ∷ []) ≡ (NoneRow all ∷ [], counts 1 0 1 0 8 7) }
    ensures repeated_reading_counts_once { reported three readings (clock 1 1 2) (hung (only Reading 0 (1 ∷ 3 ∷ [])) 0 0 ∷ []) ≡ (TotalRow all 60 ∷ [], counts 1 1 0 0 9 10) }
    ensures second_answer_too_late { reported three readings (clock 1 1 2) heard_twice ≡ (NoneRow all ∷ [], counts 1 0 1 0 10 10) }
    ensures second_answer_in_time { reported three readings (clock 1 1 3) heard_twice ≡ (TotalRow all 60 ∷ [], counts 1 1 0 0 10 10) }
    ensures burst_over_the_run { reported three readings (clock 1 1 2) (hung burst 0 35 ∷ []) ≡ (NoneRow first_two ∷ [], counts 1 0 1 0 7 5) }
    ensures burst_over_tick_0 { reported three readings (clock 1 1 2) (hung burst 0 0 ∷ []) ≡ (TotalRow first_two 30 ∷ [], counts 1 1 0 0 7 6) }
{}

/// Worked rows of several rounds: rounds in progress beside each other, and meters that join.
pub fn several_rounds()
    ensures three_rounds_in_progress { reported three_long three_rounds_read (clock 3 2 2) (hung (only Reading 1 (2 ∷ [])) 0 0 ∷ []) ≡ (TotalRow all 60 ∷ TotalRow all 6 ∷ TotalRow all 600 ∷ [], counts 3 3 0 0 27 27) }
    ensures meter_joins_in_round_1 { reported joining joining_readings (clock 2 1 2) [] ≡ (TotalRow first_two 30 ∷ TotalRow all 6 ∷ [], counts 2 2 0 0 15 15) }
    ensures one_member_is_thin { reported one_then_three one_then_three_read (clock 2 1 2) [] ≡ (ThinRow (0 ∷ []) ∷ TotalRow all 6 ∷ [], counts 2 1 0 1 10 10) }
{}

/// Worked row: a second answer that comes after the End, as a list of entries.
#[tactic(auto, unfolding(event_schedule::specs::Events::once))]
pub fn late_answer_by_ticks()
    ensures outcome { outcome_row north (plain_sum readings) 0 0 (reverse (events_of late_run)) ≡ NoneRow all }
    ensures summary { summary_of_lines north (clock 1 1 2) (plain_sum readings) (lines_of late_run) ≡ counts 1 0 1 0 10 10 }
    ensures ordered { IsOrdered late_run }
    ensures posts { posts_of late_run ≡ posts_by_lanes north (clock 1 1 2) heard_twice }
    ensures fates { map (λ p. p.fate) (posts_of late_run) ≡ fates_after heard_twice [] (posts_of late_run) }
    ensures sent_0 { sent_at late_run 0 ≡ due_of north (clock 1 1 2) late_run 0 0 }
    ensures sent_1 { sent_at late_run 1 ≡ due_of north (clock 1 1 2) late_run 1 0 }
    ensures sent_2 { sent_at late_run 2 ≡ due_of north (clock 1 1 2) late_run 2 0 }
    ensures sent_3 { sent_at late_run 3 ≡ due_of north (clock 1 1 2) late_run 3 0 }
    ensures sent_4 { sent_at late_run 4 ≡ due_of north (clock 1 1 2) late_run 4 0 }
{}
