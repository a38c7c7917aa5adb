//! What holds of runs. The law is a contract with an empty body.

ghost use Rattle.run_course.specs.Statements.{RunsAreInTime};

/// A run of some readings, lanes and words is one that `in_time` lets pass: each of its Sends has a frame.
pub fn runs()
    ensures { RunsAreInTime }
{}
