//! What holds of every tick run. Each law is a contract with an empty body.

ghost use Rattle.apart_runs.specs.Statements.{HeadEndsOfRuns, MetersOfRuns};

/// The head end that stands apart is the run's: given the frames that reach it, tick by tick, it says the announcements that the run
/// sends, and its report is the one by the run's fates.
pub fn head_ends_of_runs()
    ensures { HeadEndsOfRuns }
{}

/// A meter that stands apart is the run's: given its readings and the announcements that reach it, tick by tick, it says the frames
/// that the run sends as its own, each as often as it is asked for it.
pub fn meters_of_runs()
    ensures { MetersOfRuns }
{}
