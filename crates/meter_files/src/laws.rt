//! What holds of meter files by their definitions. Each law is a contract with an empty body.
ghost use Rattle.meter_files.specs.SpelledParts.{MeterFileIsRead};

/// A meter file that is spelled from a plan and its keys is read as what the meter has of them.
pub fn spelled_part()
    ensures { MeterFileIsRead }
{}
