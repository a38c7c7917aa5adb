//! What holds of every twin. Each law is a contract with an empty body.

ghost use Rattle.twin_worlds.specs.Statements.{HonestHaveSameWorld, HonestHaveTwins, HonestHavePooledTwins};

/// Where a text is that of a transcript of the first table, this transcript is answered, or memory runs out.
pub fn same_worlds()
    ensures { HonestHaveSameWorld }
{}

/// Where a transcript is the first table's and the tables agree, the moved words are found, or memory runs out.
pub fn agreeing_tables()
    ensures { HonestHaveTwins }
{}

/// The same for every pool of meters, where the tables agree for it.
pub fn pooled_tables()
    ensures { HonestHavePooledTwins }
{}
