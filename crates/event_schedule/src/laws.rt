//! What holds for every schedule, and worked rows of the definitions. Each law is a contract with an empty body.

ghost use Rattle.std.specs.Prelude.{◌≡◌, ◌+◌, ◌-◌, [], ◌∷◌, ◌++◌, true, false, drop, reverse};
ghost use Rattle.group_plan.specs.Plans.{members};
ghost use Rattle.event_schedule.specs.Frames.{IsPossible};
ghost use Rattle.event_schedule.specs.Rows.{three, joining, readings, joining_readings, masks, all, first_two, whole, whole_lines, late, late_lines, unanswered, unanswered_end, deaf, deaf_end, waking, waking_lines, calls, call_lines, joining_round, joining_lines_0, joining_lines_1, raised, most, frame_of_no_member};
ghost use Rattle.event_schedule.specs.Schedule.{answered, is_opened, is_published, outcome, Running, EndedThin, Published, Unpublished};
ghost use Rattle.event_schedule.specs.Statements.{VerdictsAreTable, LinesSayEffective, OutcomesAreSettled, ShapeAlone, OneMoreLine, JournalIsTranscript, TranscriptsArePossible};
ghost use Rattle.event_schedule.specs.Tables.{plain_sum};
ghost use Rattle.event_schedule.specs.Transcript.{transcript, shape_of_readings};

/// Worked rows: whole rounds, with the lines that they write.
#[tactic(auto, unfolding(crate::specs::Events::once, crate::specs::Transcript::lines_after))]
pub fn rounds()
    ensures three_meters_total_60 { transcript three readings masks whole ≡ whole_lines }
    ensures late_reading_left_out { transcript three readings masks late ≡ late_lines }
    ensures lost_answer_gives_none { drop 16 (transcript three readings masks unanswered) ≡ unanswered_end }
    ensures lost_announcement_gives_none { drop 12 (transcript three readings masks deaf) ≡ deaf_end }
    ensures book_call_by_call { transcript three readings masks calls ≡ call_lines }
    ensures meter_joins_in_round_1 { transcript joining joining_readings masks (joining_round 0 first_two ++ joining_round 1 all) ≡ joining_lines_0 ++ joining_lines_1 }
    ensures members_of_round_0 { members joining 0 0 ≡ first_two }
    ensures members_of_round_1 { members joining 0 1 ≡ all }
{}

/// Worked rows: an answer that was sent opens its round though it is lost, and an answer that is sent after the End opens a round that ended with none.
#[tactic(auto, unfolding(crate::specs::Events::once, crate::specs::Transcript::lines_after))]
pub fn opened_rounds()
    ensures published { outcome (shape_of_readings three readings) (plain_sum readings) 0 0 (reverse late) ≡ Published first_two 30 }
    ensures lost_answer { outcome (shape_of_readings three readings) (plain_sum readings) 0 0 (reverse unanswered) ≡ Unpublished (1 ∷ []) }
    ensures lost_answer_opens { is_opened (shape_of_readings three readings) 0 0 (reverse unanswered) ≡ true }
    ensures lost_announcement { outcome (shape_of_readings three readings) (plain_sum readings) 0 0 (reverse deaf) ≡ Unpublished (1 ∷ []) }
    ensures lost_announcement_opens_not { is_opened (shape_of_readings three readings) 0 0 (reverse deaf) ≡ false }
    ensures answered_after_end { drop 18 (transcript three readings masks (deaf ++ waking)) ≡ waking_lines }
    ensures opened_after_end { is_opened (shape_of_readings three readings) 0 0 (reverse (deaf ++ waking)) ≡ true }
    ensures never_published { is_published (shape_of_readings three readings) 0 0 (reverse (deaf ++ waking)) ≡ false }
    ensures thin { outcome (shape_of_readings three readings) (plain_sum readings) 0 0 (reverse calls) ≡ EndedThin }
    ensures running { outcome (shape_of_readings three readings) (plain_sum readings) 0 0 [] ≡ Running }
{}

/// Worked rows: lines that no readings explain.
pub fn impossible_lines()
    ensures word_raised_by_1 { ¬ IsPossible three (raised 1 60) }
    ensures total_above_three_readings { ¬ IsPossible three (raised (most + 1 - 60) (most + 1)) }
    ensures frame_of_no_member { ¬ IsPossible joining frame_of_no_member }
{}

/// The verdict of a Take is that of the protocol's table.
pub fn verdicts()
    ensures { VerdictsAreTable }
{}

/// A line says that its event was effective exactly where it was.
pub fn effective_lines()
    ensures { LinesSayEffective }
{}

/// The effective End says the outcome of its round, and no later event changes it.
pub fn outcomes()
    ensures { OutcomesAreSettled }
{}

/// Which events are effective, all verdicts, and what is opened and published depend on presence and schedule alone.
pub fn shape_alone()
    ensures { ShapeAlone }
{}

/// One more event is one more line.
pub fn one_more_line()
    ensures { OneMoreLine }
{}

/// A journal with the words of a reading table and a mask table is their transcript.
pub fn journal_is_transcript()
    ensures { JournalIsTranscript }
{}

/// A transcript is possible by its frames alone.
pub fn transcripts_are_possible()
    ensures { TranscriptsArePossible }
{}
