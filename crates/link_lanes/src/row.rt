//! The row of a plan file that asks for a lane.

ghost use Rattle.std.specs.Prelude.{◌≡◌, true, not, position};
ghost use Rattle.std.specs.List.{list_all};
ghost use Rattle.link_lanes.specs.ArgBytes.{is_arg_byte};
ghost use Rattle.link_lanes.specs.Args.{MakesArg};

use group_plan::Name;
use std::alloc::{AllocError, Global};
use std::marker::Model;

/// A lane's argument, seen as its bytes: a text of bytes 0x21 to 0x7e, empty or not.
#[derive(Drop)]
pub struct Arg {
    text: String,
}

impl Model for Arg {
    ghost use Rattle.std.specs.Prelude.{◌≡◌, ℕ, List, true, string_bytes};
    ghost use Rattle.std.specs.List.{list_all};
    ghost use Rattle.link_lanes.specs.ArgBytes.{is_arg_byte};

    ghost Value = { List ℕ };

    ghost view = { λ a. string_bytes a.text };

    ghost invariant = { λ a. list_all is_arg_byte (string_bytes a.text) ≡ true };
}

/// Why a text is no argument.
#[derive(Clone, Copy, Debug, PartialEq, Eq)]
pub enum ArgError {
    /// The first byte outside 0x21 to 0x7e stands at this place, counted from 0.
    Byte(u64),
    /// Want of memory.
    Memory,
}

impl From<AllocError> for ArgError {
    ghost use Rattle.std.specs.Prelude.{◌≡◌};
    ghost use Rattle.link_lanes.specs.declared.row.ArgError.TheVariants.{Memory};

    ghost from_gives = { λ _ error. error ≡ Memory };

    fn from(_: AllocError) -> Self {
        ArgError::Memory
    }
}

fn is_arg_byte(byte: u8) -> bool
    ensures { result ≡ is_arg_byte byte }
{
    byte.is_ascii_graphic()
}

// The place of the first byte that an argument may not have.
fn first_other_byte(text: &[u8]) -> Option<usize>
    ensures { result ≡ position (λ b. not (is_arg_byte b)) text.now }
{
    text.iter().position(|byte| !is_arg_byte(*byte))
}

impl Arg {
    /// The argument that the text is.
    pub fn new(alloc: Global, text: &[u8]) -> Result<Arg, ArgError>
        ensures { MakesArg text.now result }
    {
        if let Some(at) = first_other_byte(text) {
            return Err(ArgError::Byte(at as u64));
        }
        let Ok(text) = str::from_utf8(text) else {
            unreachable!();
        };
        Ok(Arg {
            text: String::from_str(alloc, text)?,
        })
    }

    /// The text of the argument.
    pub fn text(&self) -> &str
        ensures value { result.now ≡ self.now }
        ensures graphic { list_all is_arg_byte self.now ≡ true }
    {
        self.text.as_str()
    }
}

/// A row of a plan file that asks for a lane: the row's number in the file, the lane's name and
/// argument, and the ticks from which and to which it hangs, both included.
#[derive(Drop)]
pub struct LaneRow {
    pub row: u32,
    pub name: Name,
    pub arg: Arg,
    pub from: u32,
    pub to: u32,
}
