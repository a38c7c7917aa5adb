//! The program with the lanes that it has.

ghost use Rattle.std.specs.Prelude.{◌≡◌, ◌↔◌, None, map, string_bytes, IfOk, OnErr};
ghost use Rattle.command_words.specs.Words.{command_of};
ghost use Rattle.commands.specs.Accepted.{AcceptedIsDone};
ghost use Rattle.commands.specs.Outside.{with_wire};
ghost use Rattle.commands.specs.Promise.{EndsAndTells};
ghost use Rattle.commands.specs.Cupboard.{full_cupboard, MadeFilesAreDone, MadePlansGetLanes};

use crate::outside::Outside;
use crate::program::meteragg;
use collector_workers::Gate;
use desk_outside::{Desk, Wire};
use link_lanes::{Burst, Clear, EveryNth, Lane, Rules, Seeded};
use std::alloc::{AllocError, Global};
use std::sync::Wait;
use std::thread::Threads;

// Puts four boxes of a lane into a cupboard.
macro_rules! put_four {
    ($alloc:expr, $cupboard:ident, $lane:expr) => {
        for _ in 0..4_u32 {
            $cupboard.push(Box::new($alloc, $lane)?)?;
        }
    };
}

/// Does what the words ask for, as `meteragg` does, with four lanes each of `clear`, `rules`, `seeded`, `every` and
/// `burst`, in this order, and answers its status. Want of memory for the lanes leaves the outside as it was found.
pub fn with_lanes<R: Threads + Wait + Sync, D: Desk, W: Wire, G: Gate>(
    rt: &R,
    alloc: Global,
    words: &[String],
    outside: &mut Outside<D, W>,
    gate: &G,
) -> Result<u8, AllocError>
    ensures ends { IfOk result (λ status. EndsAndTells full_cupboard (command_of (map string_bytes words.now)) (with_wire (D.view outside.old.desk) (W.view outside.old.wire)) (with_wire (D.view outside.new.desk) (W.view outside.new.wire)) (D.faults outside.old.desk) (D.faults outside.new.desk) status) }
    ensures accepted { IfOk result (λ status. AcceptedIsDone full_cupboard (command_of (map string_bytes words.now)) (with_wire (D.view outside.old.desk) (W.view outside.old.wire)) (with_wire (D.view outside.new.desk) (W.view outside.new.wire)) (D.faults outside.old.desk) (D.faults outside.new.desk) status) }
    ensures words { IfOk result (λ status. (status ≡ 2) ↔ (command_of (map string_bytes words.now) ≡ None)) }
    // What `make` writes gets its lanes and is run.
    ensures lanes { IfOk result (λ status. MadePlansGetLanes (command_of (map string_bytes words.now)) (D.view outside.old.desk) status) }
    ensures made { IfOk result (λ status. MadeFilesAreDone (command_of (map string_bytes words.now)) (D.view outside.old.desk) (D.faults outside.old.desk) (D.faults outside.new.desk) status) }
    ensures no_memory { OnErr result (outside.new ≡ outside.old) }
{
    let mut cupboard: Vec<Box<dyn Lane>> = Vec::new(alloc);
    put_four!(alloc, cupboard, Clear::new());
    put_four!(alloc, cupboard, Rules::new());
    put_four!(alloc, cupboard, Seeded::new());
    put_four!(alloc, cupboard, EveryNth::new());
    put_four!(alloc, cupboard, Burst::new());
    Ok(meteragg(rt, alloc, words, outside, cupboard, gate))
}
