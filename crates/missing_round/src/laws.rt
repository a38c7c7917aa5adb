//! The law of the words of a round.
ghost use Rattle.missing_round.specs.Cancellation.{Cancels, CancelsExactly};

/// Over the survivors of a round the masks cancel, and the sum of the readings is left.
pub fn cancellation()
    ensures modulo { Cancels }
    ensures exactly { CancelsExactly }
{}
