//! What holds of entries on course. Each law is a contract with an empty body.

ghost use Rattle.cut_resume.specs.Statements.{BeginningsAreOnCourse, BooksKeepAsMuch, CoursesGoOnByOne, OrdersSayNothing, ResumedRunsAreInTime, WholeTicksAreRuns};

/// The entries with which a run begins are on course.
pub fn beginnings()
    ensures { BeginningsAreOnCourse }
{}

/// Whether entries are on course is judged one after another.
pub fn courses()
    ensures { CoursesGoOnByOne }
{}

/// Entries on course of which each tick is whole are a run.
pub fn whole_ticks()
    ensures { WholeTicksAreRuns }
{}

/// Takes of other tags may change places within a tick, and so may Closes and Ends of other rounds.
pub fn orders()
    ensures runs { OrdersSayNothing }
    ensures books { BooksKeepAsMuch }
{}

/// What `resume_plan` goes on from, `run_course::in_time` lets pass: no entry of the cut, and nothing in the run, is refused.
pub fn times()
    ensures { ResumedRunsAreInTime }
{}
