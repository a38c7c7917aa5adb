//! The order of moved words, that of the masks file.
ghost use Rattle.std.specs.Prelude.{◌≡◌, ◌+◌, ◌<◌, Bool, length, take};
ghost use Rattle.std.specs.Bool.{MatchBool};
ghost use Rattle.ideal_masks.specs.Order.{key_group, key_before, is_before, is_lower_first, AreMoves};

use crate::Offset;
use mod_word::Word;
use pair_keys::KeyId;

// The group of a key.
fn key_group(id: &KeyId) -> u32
    ensures { result ≡ key_group id.now }
{
    match id {
        KeyId::Own { group, .. } => *group,
        KeyId::Pair { group, .. } => *group,
    }
}

// Whether the lower meter of a pair is below the higher.
fn is_lower_first(id: &KeyId) -> bool
    ensures { result ≡ is_lower_first id.now }
{
    match id {
        KeyId::Own { .. } => true,
        KeyId::Pair { low, high, .. } => low < high,
    }
}

// Whether the first key comes before the second in one group and round.
fn key_before(one: &KeyId, other: &KeyId) -> bool
    ensures { result ≡ key_before one.now other.now }
{
    match (one, other) {
        (KeyId::Own { meter, .. }, KeyId::Own { meter: next, .. }) => meter < next,
        (KeyId::Own { .. }, KeyId::Pair { .. }) => true,
        (KeyId::Pair { .. }, KeyId::Own { .. }) => false,
        (
            KeyId::Pair { low, high, .. },
            KeyId::Pair {
                low: next_low,
                high: next_high,
                ..
            },
        ) => low < next_low || (low == next_low && high < next_high),
    }
}

// Whether the first moved word comes before the second.
fn is_before(one: &Offset, other: &Offset) -> bool
    ensures { result ≡ is_before one.now other.now }
{
    let group = key_group(&one.id);
    let next = key_group(&other.id);
    group < next
        || (group == next
            && (one.round < other.round
                || (one.round == other.round && key_before(&one.id, &other.id))))
}

// Whether the row at this place is a moved word, and comes after the row before it.
fn goes_on(rows: &[Offset], at: usize) -> bool
    requires { at < length rows.now }
    ensures { MatchBool result (AreMoves (take at rows.now) → AreMoves (take (at + 1) rows.now)) (AreMoves rows.now → ⊥) }
{
    let row = rows[at];
    let Word(by) = row.by;
    if by == 0 || !is_lower_first(&row.id) {
        return false;
    }
    at == 0 || is_before(&rows[at - 1], &row)
}

/// Whether the rows are moved words in the order of the masks file.
pub(crate) fn are_moves(rows: &[Offset]) -> bool
    ensures { MatchBool result (AreMoves rows.now) (AreMoves rows.now → ⊥) }
{
    for at in 0..rows.len() {
        if !goes_on(rows, at) {
            return false;
        }
    }
    true
}
