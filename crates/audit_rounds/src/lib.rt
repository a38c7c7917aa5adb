//! What an audit keeps of each round: a book without its journal. Its lines are known to proofs alone.
#![tactic(auto)]

mod rounds;

pub use rounds::Rounds;
