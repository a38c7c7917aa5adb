//! What holds of every course. Each law is a contract with an empty body.

ghost use Rattle.std.specs.Prelude.{◌≡◌};
ghost use Rattle.apart_courses.specs.Courses.{head_journal, meter_journal, past};
ghost use Rattle.apart_courses.specs.Losses.{log_of, disk_of};
ghost use Rattle.apart_courses.specs.Rows.{north, steps, head_lines, meter_lines, schedule};
ghost use Rattle.apart_courses.specs.Statements.{CoursesAreSchedules, TotalsAreExactApart, AgainIsOnDisk};

/// Whatever happens to a head end and to meters that stand apart, losses of power included, is a schedule: each frame that is said
/// is the one that the transcript of this schedule has, and each frame that is taken fresh is fresh in it.
pub fn courses_are_schedules()
    ensures { CoursesAreSchedules }
{}

/// In each of them a total is the plain sum of its survivors' readings.
pub fn totals_are_exact()
    ensures { TotalsAreExactApart }
{}

/// What a head end says again rests on the lines of its journal up to the last tick, which are on the disk.
pub fn said_again()
    ensures { AgainIsOnDisk }
{}

/// Worked row: a meter and a head end lose a line each, and go on.
#[tactic(auto, unfolding(head_end::specs::Journal::passed))]
pub fn lines_lost()
    ensures head { head_journal (log_of steps) ≡ head_lines }
    ensures meter { meter_journal 0 1 (log_of steps) ≡ meter_lines }
    ensures schedule { past north (log_of steps) ≡ schedule }
    ensures head_disk { (disk_of steps).head ≡ 4 }
    ensures meter_disk { (disk_of steps).meter 0 1 ≡ 1 }
{}
