//! What holds of every journal of a meter. Each law is a contract with an empty body.

ghost use Rattle.meter_apart.specs.Statements.{OneSetARound, OneReadingARound, OwnWordsSuffice, OwnKeysSuffice};

/// A meter answers one set in a round, and says one reading, whatever its journal has between the two frames.
pub fn one_of_each()
    ensures set { OneSetARound }
    ensures reading { OneReadingARound }
{}

/// What a meter sends depends on its own words and on those of its own pairs alone.
pub fn own_words_suffice()
    ensures { OwnWordsSuffice }
{}

/// The keys that a meter has give it its words of the whole plan's keys.
pub fn own_keys_suffice()
    ensures { OwnKeysSuffice }
{}
