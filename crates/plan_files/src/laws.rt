//! What holds of files by their definitions. Each law is a contract with an empty body.
ghost use Rattle.plan_files.specs.AcceptedFiles.{AcceptedPlansAreWhole, AcceptedReadingsAreTables};
ghost use Rattle.plan_files.specs.PlainRows.{PlainRowsAreRead};
ghost use Rattle.plan_files.specs.SpelledFiles.{PlanFileIsRead, PublicPlanIsRead, ReadingsFileIsRead};

/// Rows of plain fields, written with commas between them and a newline behind each row, are read as these rows.
pub fn plain_rows()
    ensures { PlainRowsAreRead }
{}

/// A plan file that is spelled from a plan, its keys and its lanes is read as these.
pub fn spelled_plan()
    ensures { PlanFileIsRead }
{}

/// A public plan that is spelled from a plan is read as this plan.
pub fn spelled_public()
    ensures { PublicPlanIsRead }
{}

/// A readings file that is spelled from a reading table is read as this table.
pub fn spelled_readings()
    ensures { ReadingsFileIsRead }
{}

/// A plan file that is accepted has a plan within the limits and each of its keys.
pub fn accepted_plan()
    ensures { AcceptedPlansAreWhole }
{}

/// A readings file that is accepted has a reading table of the plan.
pub fn accepted_readings()
    ensures { AcceptedReadingsAreTables }
{}
