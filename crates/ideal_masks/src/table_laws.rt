//! Finite mask tables say what the masks say. Each law is a contract with an empty body.

ghost use Rattle.ideal_masks.specs.TableStatements.{WordsMakeTable, TableKeepsLines};

/// The finite table of masks is one of the plan, and gives the readings of the plan the very transcript that the masks give.
pub fn finite_tables()
    ensures table { WordsMakeTable }
    ensures same_lines { TableKeepsLines }
{}
