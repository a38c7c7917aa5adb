//! The start of a role over its journal.

ghost use Rattle.std.specs.Prelude.{◌≡◌, ◌∷◌, ◌⊎◌, ℕ, Bool, [], false, List, Option};
ghost use Rattle.apart_lines.specs.Heads.{head_found};
ghost use Rattle.desk_outside.specs.declared.wire.WireStep.TheVariants.{Appended, Emptied};
ghost use Rattle.apart_roles.specs.Inputs.{follow_came, if_follows, lines_in};
ghost use Rattle.apart_roles.specs.Starts.{Begins, FollowsLine, GoesOn, GoesOnBy, GoesThrough, Opens, ReadsOn};
ghost use Rattle.apart_roles.specs.Steps.{Does};

use crate::outcome::{Recollection, RoleError, Start};
use crate::steps::{append, empty, trim};
use apart_lines::{HeadFound, find_head};
use desk_outside::{Absent, Coming, Wire, WireError};
use std::alloc::Global;

/// A role, which goes on by the lines of its journal.
pub(crate) trait Role: Drop {
    /// What never changes: the keys of a meter, or the plan of a head end.
    ghost Fixed: { Type 0 };

    /// A line of the journal.
    ghost Line: { Type 0 };

    /// The role has this, and is in the state that these lines give it.
    ghost is_in: { Fixed → List Line → Self → Type 0 };

    /// The line that a text says.
    ghost reads: { List ℕ → Option Line };

    /// Whether a line can follow these.
    ghost can: { Fixed → List Line → Line → Bool };

    /// Goes on by a line of the journal, where it can follow those before it.
    fn follow_line(&mut self, line: &[u8]) -> Recollection
        ensures { (fixed : Fixed) (journal : List Line) → is_in fixed journal self.old → FollowsLine (is_in fixed) (if_follows (can fixed) journal (reads line.now)) result self.new };
}

// How many lines a text has.
fn lines_in(text: &[u8]) -> u64
    ensures { result ≡ lines_in text.now }
{
    text.iter().filter(|byte| **byte == b'\n').count() as u64
}

// Begins the journal anew.
fn begin<W: Wire>(wire: &mut W, head: &[u8]) -> Result<(), RoleError>
    ensures { Does (Emptied false ∷ Appended head.now false ∷ []) (W.view wire.old) (W.view wire.new) result }
{
    empty(wire)?;
    append(wire, head)
}

// Goes on by the next line of the journal.
fn follow_next<W: Wire, R: Role>(
    wire: &mut W,
    role: &mut R,
    line: &mut Vec<u8>,
) -> Result<Recollection, RoleError>
    ensures { (fixed : R.Fixed) (journal : List R.Line) → R.is_in fixed journal role.old → GoesOn (follow_came R.reads (R.can fixed)) (R.is_in fixed) journal (W.view wire.old) (W.view wire.new) result role.new }
{
    match wire.recall(line) {
        Ok(Coming::Line) => Ok(role.follow_line(line)),
        Ok(Coming::TooLong) => Ok(Recollection::Wrong),
        Ok(Coming::Rest) => Ok(Recollection::Over),
        Ok(Coming::End) => Ok(Recollection::Over),
        Err(WireError::Failed) => Ok(Recollection::Unreadable),
        Err(WireError::Memory) => Err(RoleError::Memory),
    }
}

// Follows the lines of the journal behind its head, of which the first has this number.
fn follow<W: Wire, R: Role>(
    alloc: Global,
    wire: &mut W,
    role: R,
    first: u64,
) -> Result<Start<R>, RoleError>
    ensures { (fixed : R.Fixed) → R.is_in fixed [] role → GoesThrough (follow_came R.reads (R.can fixed)) (R.is_in fixed) first (W.view wire.old) (W.view wire.new) result }
{
    let mut role = role;
    let mut line = Vec::new(alloc);
    for turn in 0..u64::MAX {
        match follow_next(wire, &mut role, &mut line)? {
            Recollection::Followed => {}
            Recollection::Wrong => return Ok(Start::Line(first.saturating_add(turn))),
            Recollection::Over => return Ok(Start::Ready(role)),
            Recollection::Unreadable => return Ok(Start::Unreadable),
        }
    }
    Ok(Start::Ready(role))
}

// Follows a journal behind its head, and cuts off its rest.
fn read_on<W: Wire, R: Role>(
    alloc: Global,
    wire: &mut W,
    role: R,
    first: u64,
) -> Result<Start<R>, RoleError>
    ensures { (fixed : R.Fixed) → R.is_in fixed [] role → ReadsOn (follow_came R.reads (R.can fixed)) (R.is_in fixed) first (W.view wire.old) (W.view wire.new) result }
{
    match follow(alloc, wire, role, first) {
        Ok(Start::Ready(role)) => match trim(wire) {
            Ok(()) => Ok(Start::Ready(role)),
            Err(error) => Err(error),
        },
        Ok(Start::Unreadable) => Ok(Start::Unreadable),
        Ok(Start::Head(line)) => Ok(Start::Head(line)),
        Ok(Start::Line(line)) => Ok(Start::Line(line)),
        Err(error) => Err(error),
    }
}

// Begins a journal for a role.
fn begin_with<W: Wire, R: Role>(wire: &mut W, role: R, head: &[u8]) -> Result<Start<R>, RoleError>
    ensures { (fixed : R.Fixed) → R.is_in fixed [] role → Begins (R.is_in fixed) head.now (W.view wire.old) (W.view wire.new) result }
{
    match begin(wire, head) {
        Ok(()) => Ok(Start::Ready(role)),
        Err(error) => Err(error),
    }
}

// Goes on with a journal that is open, by how it begins.
fn go_on<W: Wire, R: Role>(
    alloc: Global,
    wire: &mut W,
    role: R,
    head: &[u8],
    front: &[u8],
) -> Result<Start<R>, RoleError>
    ensures { (fixed : R.Fixed) → R.is_in fixed [] role → GoesOnBy (head_found 1 head.now front.now) (follow_came R.reads (R.can fixed)) (R.is_in fixed) head.now (W.view wire.old) (W.view wire.new) result }
{
    match find_head(head, front) {
        HeadFound::Whole => read_on(alloc, wire, role, lines_in(head).saturating_add(1)),
        HeadFound::Begun => begin_with(wire, role, head),
        HeadFound::Other(line) => Ok(Start::Head(line)),
    }
}

/// Opens the journal of a name, by the head that it should have, and goes on by its lines. It leaves out the journal's rest.
pub(crate) fn open_with<W: Wire, R: Role>(
    alloc: Global,
    wire: &mut W,
    name: &str,
    absent: Absent,
    role: R,
    head: &[u8],
) -> Result<Start<R>, RoleError>
    ensures { (fixed : R.Fixed) → R.is_in fixed [] role → Opens (follow_came R.reads (R.can fixed)) (R.is_in fixed) name.now head.now (W.view wire.old) (W.view wire.new) result }
{
    match wire.open(alloc, name, absent, head.len()) {
        Ok(front) => go_on(alloc, wire, role, head, &front),
        Err(WireError::Failed) => Ok(Start::Unreadable),
        Err(WireError::Memory) => Err(RoleError::Memory),
    }
}
