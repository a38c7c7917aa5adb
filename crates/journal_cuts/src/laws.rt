//! What holds of what is left of a journal. Each law is a contract with an empty body.

ghost use Rattle.journal_cuts.specs.Statements.{AnyBytesMayStand, CrashesKeepFlushed, CrashesLeaveNoMore, CutsAreLines, TrimsKeepFirst};

/// Wherever lines are cut, whole lines are left, and a rest without newline: as many lines as newlines.
pub fn cuts_are_lines()
    ensures { CutsAreLines }
{}

/// A disk that loses, tears and reorders what was not flushed has all that was flushed. Behind it may stand any bytes, but where a journal
/// is only appended to, no more of them than were appended since.
pub fn flushed_is_kept()
    ensures kept { CrashesKeepFlushed }
    ensures no_more { CrashesLeaveNoMore }
    ensures trimmed { TrimsKeepFirst }
{}

/// So the model doesn't promise a beginning of what was appended: whatever the device does with a torn byte, any bytes may stand in its place.
pub fn others_may_stand()
    ensures { AnyBytesMayStand }
{}
