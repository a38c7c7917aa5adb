//! What of a journal each group decides alone. Each law is a contract with an empty body.

ghost use Rattle.group_book.specs.GroupLaws.{LinesAreOfGroups, JournalsAreOfGroups, MergesAreJournals, GroupsStay};

/// A line depends on the lines of its own group alone.
pub fn lines()
    ensures { LinesAreOfGroups }
{}

/// A journal is legal exactly where each group's part of it is, so the groups' journals can be merged in any way.
pub fn journals()
    ensures parts { JournalsAreOfGroups }
    ensures merges { MergesAreJournals }
{}

/// What is kept of a group is what any journal says of it that has the group's lines.
pub fn groups()
    ensures { GroupsStay }
{}
