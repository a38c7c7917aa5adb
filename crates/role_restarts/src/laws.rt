//! What holds of every start over what is left of a journal. Each law is a contract with an empty body.

ghost use Rattle.role_restarts.specs.Statements.{HeadEndBeginsAnew, HeadEndCrashes, HeadEndGoesOn, HeadEndKilled, HeadEndRestarts, HeadEndRunsHaveLines, HeadEndSaysTheSame, HeadEndSettles, HeadEndStartCrashes, HeadEndStartsHaveLines, MeterBeginsAnew, MeterCrashes, MeterGoesOn, MeterKilled, MeterRestarts, MeterRunsHaveLines, MeterSaysTheSame, MeterSettles, MeterStartCrashes, MeterStartsHaveLines};

/// Over every cut of a journal behind its head, at a line's end or within a line, a role starts in the state that its whole lines give, cuts
/// off the rest, and says what it says with these lines; unless memory runs out or the outside fails.
pub fn cuts_restart()
    ensures head_end { HeadEndRestarts }
    ensures meter { MeterRestarts }
{}

/// Over a cut within the head, its journal is begun anew.
pub fn cut_heads_begin()
    ensures head_end { HeadEndBeginsAnew }
    ensures meter { MeterBeginsAnew }
{}

/// Behind each start and each run the journal of a role is such lines; and a role that is killed in a run leaves a cut of the lines of this run.
pub fn journals_are_lines()
    ensures head_end_starts { HeadEndStartsHaveLines }
    ensures meter_starts { MeterStartsHaveLines }
    ensures head_end_runs { HeadEndRunsHaveLines }
    ensures meter_runs { MeterRunsHaveLines }
    ensures head_end_killed { HeadEndKilled }
    ensures meter_killed { MeterKilled }
{}

/// Two roles in the state of the same journal, as one that started over it and one that was not killed, do the same for the same lines.
pub fn restarted_says_the_same()
    ensures head_end { HeadEndSaysTheSame }
    ensures meter { MeterSaysTheSame }
    ensures head_end_later { HeadEndGoesOn }
    ensures meter_later { MeterGoesOn }
{}

/// Over what a crash leaves of a journal a role goes on by all the lines that were flushed. Behind them the disk may have any bytes: it goes
/// on by those that are lines that can follow, cuts off a rest, and else tells a wrong line that is none of the flushed ones.
pub fn crashes_restart()
    ensures head_end { HeadEndCrashes }
    ensures meter { MeterCrashes }
{}

/// Behind a start all of a journal is on the disk, and so it is where a run of a head end pauses, and behind each run of a meter: the next run
/// begins with it there.
pub fn journals_are_settled()
    ensures head_end { HeadEndSettles }
    ensures meter { MeterSettles }
{}

/// A crash in the middle of a start takes away none of the lines that each crash before it would have left.
pub fn starts_keep_lines()
    ensures head_end { HeadEndStartCrashes }
    ensures meter { MeterStartCrashes }
{}
