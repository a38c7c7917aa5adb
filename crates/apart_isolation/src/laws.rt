//! What holds of every course. Each law is a contract with an empty body.

ghost use Rattle.ideal_masks.specs.Statements.{Undone};
ghost use Rattle.apart_isolation.specs.Statements.{CoursesAreIsolated, MarksAreReadings, MarksAreIsolated, CoursesTellTotals};

/// Whatever happens to a head end and to meters that stand apart, losses of power included: other readings that agree with the
/// marked ones in each total that was opened give every frame that was said, under the shifted masks, and the shift can be undone.
/// So whoever sees the frames learns these totals and who had a reading, and no more.
pub fn courses_are_isolated()
    ensures isolated { CoursesAreIsolated }
    ensures undone { Undone }
{}

/// What meters mark is a table of the plan, so this holds of any readings that they are given.
pub fn marks_are_isolated()
    ensures readings { MarksAreReadings }
    ensures isolated { MarksAreIsolated }
{}

/// These totals it does learn: tables of one presence that give the same frames, under whatever masks, agree in each total that was
/// opened.
pub fn courses_tell_totals()
    ensures { CoursesTellTotals }
{}
