//! Sets of the meters of a group, and the words of a round.
#![tactic(auto)]

ghost use Rattle.std.specs.Prelude.{◌≡◌, ◌-◌, ◌*◌, ◌^◌, ◌<◌, ◌≤◌, min, [], length, slice_get};
ghost use Rattle.std.specs.Iterator.{YieldsFirst, item_count};
ghost use Rattle.missing_round.specs.Words.{group};
ghost use Rattle.missing_round.specs.Sets.{IsSet, is_member, joined, without, less, blocks_of, FromBits};

pub mod laws;

use std::marker::Model;

/// A set of meters of one group, each a number below 256. It takes no memory.
#[derive(Clone, Copy, Debug)]
pub struct MeterSet {
    blocks: [u64; 4],
}

impl Model for MeterSet {
    ghost use Rattle.std.specs.Prelude.{ℕ, List};
    ghost use Rattle.missing_round.specs.Sets.{members, blocks_of, IsBlocks};

    // The list of its members, ascending.
    ghost Value = { List ℕ };

    ghost view = { λ s. members s.blocks };

    ghost invariant = { λ s. IsBlocks s.blocks };

    ghost inverse = { λ xs. record { blocks = blocks_of xs } };

    ghost inverse_ok = { λ a h. λ k. record { blocks = h.kept k } };
}

impl PartialEq for MeterSet {
    ghost use Rattle.std.specs.Prelude.{bytes_eq};
    ghost use Rattle.std.proofs.Common.{rules};
    ghost use Rattle.std.specs.Cmp.Rules.{comparing};

    ghost eq = { bytes_eq };

    ghost laws = { Prim.search (comparing, rules) };

    fn eq(&self, other: &MeterSet) -> bool {
        let ours = self.blocks;
        let theirs = other.blocks;
        ours == theirs
    }
}

impl Eq for MeterSet {
    ghost use Rattle.std.proofs.Common.{rules};
    ghost use Rattle.std.specs.Cmp.Rules.{comparing};

    ghost laws = { Prim.search (comparing, rules) };
}

/// Why bits are not a set of a group.
#[derive(Clone, Copy, Debug, PartialEq, Eq)]
pub enum SetError {
    /// This bit, the least such, is set and is not below the group's number of meters.
    OutOfGroup(u8),
}

impl MeterSet {
    /// The set without members.
    pub fn empty() -> MeterSet
        ensures { result ≡ [] }
    {
        MeterSet::full(0)
    }

    /// The meters 0 to n - 1.
    pub fn full(n: u16) -> MeterSet
        requires { n ≤ 256 }
        ensures { result ≡ group n }
    {
        MeterSet {
            blocks: [low(n, 0), low(n, 1), low(n, 2), low(n, 3)],
        }
    }

    /// The set with meter `i`.
    pub fn with(self, i: u8) -> MeterSet
        ensures { result ≡ joined i self }
    {
        let mut blocks = self.blocks;
        blocks[i as usize / 64] |= 1 << (i % 64);
        MeterSet { blocks }
    }

    /// The set without meter `i`.
    pub fn without(self, i: u8) -> MeterSet
        ensures { result ≡ without i self }
    {
        let mut blocks = self.blocks;
        blocks[i as usize / 64] &= !(1 << (i % 64));
        MeterSet { blocks }
    }

    /// Whether meter `i` is a member.
    pub fn has(self, i: u8) -> bool
        ensures { result ≡ is_member i self }
    {
        (self.blocks[i as usize / 64] >> (i % 64)) & 1 == 1
    }

    /// The members that are not in `other`.
    pub fn minus(self, other: MeterSet) -> MeterSet
        ensures { result ≡ less self other }
    {
        let [a, b, c, d] = self.blocks;
        let [e, f, g, h] = other.blocks;
        MeterSet {
            blocks: [a & !e, b & !f, c & !g, d & !h],
        }
    }

    /// The number of members, up to 256.
    pub fn len(self) -> u16
        ensures { result ≡ length self }
    {
        let [a, b, c, d] = self.blocks;
        (a.count_ones() + b.count_ones() + c.count_ones() + d.count_ones()) as u16
    }

    /// The member at place `k`, counted from 0.
    pub fn nth(self, k: u16) -> Option<u8>
        ensures { result ≡ slice_get self k }
    {
        self.members().nth(k as usize)
    }

    /// The members, ascending.
    pub fn members(self) -> Members
        ensures members { result ≡ self }
        ensures set { IsSet self }
    {
        let blocks = self.blocks;
        Members { blocks, at: 0 }
    }

    /// The members as bits: member `i` is bit `i % 64` of block `i / 64`.
    pub fn bits(self) -> [u64; 4]
        ensures bits { result ≡ blocks_of self }
        // The one thing that is true of every set.
        ensures set { IsSet self }
    {
        self.blocks
    }

    /// The set of these bits, in a group of `n` meters.
    pub fn from_bits(n: u16, bits: [u64; 4]) -> Result<MeterSet, SetError>
        requires { n ≤ 256 }
        ensures { FromBits n bits result }
    {
        let set = MeterSet { blocks: bits };
        match set.minus(MeterSet::full(n)).nth(0) {
            Some(bit) => Err(SetError::OutOfGroup(bit)),
            None => Ok(set),
        }
    }
}

/// Block `k` of the meters 0 to n - 1.
fn low(n: u16, k: u16) -> u64
    requires { k < 4 }
    ensures { result ≡ 2 ^ min 64 (n - 64 * k) - 1 }
{
    let below = n.saturating_sub(64 * k);
    if below >= 64 {
        u64::MAX
    } else {
        (1 << below) - 1
    }
}

/// The members of a set that are still to come, ascending.
#[derive(Drop)]
pub struct Members {
    blocks: [u64; 4],
    at: usize,
}

impl Model for Members {
    ghost use Rattle.std.specs.Prelude.{ℕ, List};
    ghost use Rattle.missing_round.specs.Sets.{members, IsFrom};

    ghost Value = { List ℕ };

    ghost view = { λ s. members s.blocks };

    ghost invariant = { λ s. IsFrom s.at s.blocks };
}

impl Iterator for Members {
    type Item = u8;

    ghost next_gives = { YieldsFirst (λ rest. rest) };

    ghost remaining = { item_count (λ rest. rest) };

    fn next(&mut self) -> Option<u8> {
        while self.at < 4 {
            let block = self.blocks[self.at];
            if block != 0 {
                let bit = block.trailing_zeros();
                self.blocks[self.at] = block & !(1 << bit);
                return Some((64 * self.at + bit as usize) as u8);
            }
            self.at += 1;
        }
        None
    }
}
