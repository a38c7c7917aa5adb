//! Keys that are put one by one, and the table of them all.
ghost use Rattle.std.specs.Prelude.{◌≡◌, ◌<◌, ◌≤◌, None, Some, IfOk, IfSome, is_some, is_none, length, position, replicate, slice_get, MatchOption};
ghost use Rattle.group_plan.specs.Plans.{size};
ghost use Rattle.pair_keys.specs.Missing.{IsWhole, AreRows, HasRowTo, HasRowsTo, LacksPair, FirstIn};
ghost use Rattle.pair_keys.specs.KeyParts.{KeepsKeys, key_in, own_slot, pair_slot, row_in, IsEmptyGroup, AreEmptyRows, AreEmptyGroups};

use crate::{KeyError, KeyId};
use group_plan::{GroupPlan, Plan};
use std::alloc::{AllocError, Global};

/// A key of 32 bytes, where it is there.
type Slot = Option<[u8; 32]>;

/// The keys of one group.
#[derive(Drop)]
struct GroupKeys {
    /// The own keys, by meter.
    own: Vec<Slot>,
    /// For each meter the keys of its pairs with the lower meters.
    lower: Vec<Vec<Slot>>,
}

/// The keys of a plan, as far as they were put.
#[derive(Drop)]
pub struct KeyPile {
    plan: Plan,
    groups: Vec<GroupKeys>,
    ghost keeps: { KeepsKeys plan groups.items },
}

// So many places for keys, with none put yet.
fn slots(alloc: Global, count: usize) -> Result<Vec<Slot>, AllocError>
    ensures { IfOk result (λ slots. slots.items ≡ replicate count None) }
{
    vec![in alloc; None; count]
}

// For each meter a place for its key with each lower meter.
fn lower_rows(alloc: Global, meters: usize) -> Result<Vec<Vec<Slot>>, AllocError>
    ensures { IfOk result (λ rows. AreEmptyRows meters rows.items) }
{
    let mut rows = Vec::new(alloc);
    for meter in 0..meters {
        rows.push(slots(alloc, meter)?)?;
    }
    Ok(rows)
}

// The places for the keys of a group of so many meters.
fn group_keys(alloc: Global, meters: usize) -> Result<GroupKeys, AllocError>
    ensures { IfOk result (λ keys. IsEmptyGroup meters keys) }
{
    Ok(GroupKeys {
        own: slots(alloc, meters)?,
        lower: lower_rows(alloc, meters)?,
    })
}

// The places for the keys of all groups.
fn all_groups(alloc: Global, groups: &[GroupPlan]) -> Result<Vec<GroupKeys>, AllocError>
    ensures { IfOk result (λ keys. AreEmptyGroups groups.now (length groups.now) keys.items) }
{
    let mut keys = Vec::new(alloc);
    for group in groups {
        keys.push(group_keys(alloc, group.meters as usize)?)?;
    }
    Ok(keys)
}

// The first meter whose own key is lacking.
fn missing_own(own: &[Slot]) -> Option<usize>
    ensures { result ≡ position is_none own.now }
{
    own.iter().position(|slot| slot.is_none())
}

// The least meter above `low` whose pair with it is lacking.
fn missing_above(lower: &[Vec<Slot>], low: usize) -> Option<usize>
    requires { AreRows lower.now }
    ensures { MatchOption result (HasRowTo lower.now low (length lower.now)) (λ high. (low < high) × (high < length lower.now) × (key_in (slice_get lower.now high) low ≡ None) × HasRowTo lower.now low high) }
{
    if low < lower.len() {
        for high in low + 1..lower.len() {
            if lower[high][low].is_none() {
                return Some(high);
            }
        }
    }
    None
}

// The first pair whose key is lacking, by the lower meter and then the higher one.
fn missing_pair(lower: &[Vec<Slot>]) -> Option<(usize, usize)>
    requires { AreRows lower.now }
    ensures { MatchOption result (HasRowsTo lower.now (length lower.now)) (λ pair. LacksPair lower.now pair.0 pair.1) }
{
    for low in 0..lower.len() {
        if let Some(high) = missing_above(lower, low) {
            return Some((low, high));
        }
    }
    None
}

// The first key that this group lacks.
fn missing_in(group: u32, keys: &GroupKeys) -> Option<KeyId>
    requires rows { AreRows keys.now.lower.items }
    requires few { length keys.now.own.items ≤ 256 }
    requires few_rows { length keys.now.lower.items ≤ 256 }
    ensures { FirstIn group keys.now result }
{
    match missing_own(&keys.own) {
        Some(meter) => Some(KeyId::Own {
            group,
            meter: meter as u32,
        }),
        None => match missing_pair(&keys.lower) {
            Some((low, high)) => Some(KeyId::Pair {
                group,
                low: low as u32,
                high: high as u32,
            }),
            None => None,
        },
    }
}

impl KeyPile {
    ghost use Rattle.pair_keys.specs.Keys.{keys_of, no_keys, PutsKey, Finishes, IsComplete, IsFirstMissing};

    /// A pile without keys, with room for each key of the plan.
    pub fn new(alloc: Global, plan: &Plan) -> Result<KeyPile, AllocError>
        ensures { IfOk result (λ pile. keys_of pile ≡ no_keys plan.now) }
    {
        let groups = all_groups(alloc, plan.groups())?;
        Ok(KeyPile {
            plan: plan.try_copy()?,
            groups,
        })
    }

    // The place for the own key of a meter, where the plan has the meter.
    fn own_slot(&self, group: usize, meter: usize) -> Option<Slot>
        ensures { result ≡ own_slot (slice_get self.now.groups.items group) meter }
    {
        match self.groups.get(group) {
            Some(keys) => keys.own.get(meter).copied(),
            None => None,
        }
    }

    // The place for the key of a pair, where the plan has the pair and its lower meter comes first.
    fn pair_slot(&self, group: usize, low: usize, high: usize) -> Option<Slot>
        ensures { result ≡ pair_slot (row_in (slice_get self.now.groups.items group) high) low }
    {
        match self.groups.get(group) {
            Some(keys) => match keys.lower.get(high) {
                Some(row) => row.get(low).copied(),
                None => None,
            },
            None => None,
        }
    }

    /// Puts the own key of a meter.
    pub fn put_own(&mut self, group: u32, meter: u32, key: [u8; 32]) -> Result<(), KeyError>
        ensures { PutsKey (keys_of self.old) (KeyId.Own group meter) key result (keys_of self.new) }
    {
        match self.own_slot(group as usize, meter as usize) {
            None => Err(KeyError::Range),
            Some(Some(_)) => Err(KeyError::Twice(KeyId::Own { group, meter })),
            Some(None) => {
                self.groups[group as usize].own[meter as usize] = Some(key);
                Ok(())
            }
        }
    }

    /// Puts the key of a pair of meters, the lower meter first.
    pub fn put_pair(
        &mut self,
        group: u32,
        low: u32,
        high: u32,
        key: [u8; 32],
    ) -> Result<(), KeyError>
        ensures { PutsKey (keys_of self.old) (KeyId.Pair group low high) key result (keys_of self.new) }
    {
        match self.pair_slot(group as usize, low as usize, high as usize) {
            None => Err(KeyError::Range),
            Some(Some(_)) => Err(KeyError::Twice(KeyId::Pair { group, low, high })),
            Some(None) => {
                self.groups[group as usize].lower[high as usize][low as usize] = Some(key);
                Ok(())
            }
        }
    }

    // The first key that the plan has and the pile lacks.
    fn first_missing(&self) -> Option<KeyId>
        ensures { MatchOption result (IsComplete (keys_of self.now)) (IsFirstMissing (keys_of self.now)) }
    {
        let groups = self.plan.groups().len();
        for at in 0..groups {
            match missing_in(at as u32, &self.groups[at]) {
                Some(id) => return Some(id),
                None => {}
            }
        }
        None
    }

    /// The table of all keys, where each key of the plan was put; or else the pile again, with the first key that it
    /// lacks: group by group, the own keys by meter, and then the pairs by the lower meter and the higher one.
    pub fn finish(self) -> Result<KeyTable, Unfinished>
        ensures { Finishes (keys_of self) result }
    {
        match self.first_missing() {
            None => Ok(KeyTable { pile: self }),
            Some(missing) => Err(Unfinished {
                pile: self,
                missing,
            }),
        }
    }
}

/// A pile that lacks a key of its plan.
#[derive(Drop)]
pub struct Unfinished {
    pub pile: KeyPile,
    /// The first key that it lacks.
    pub missing: KeyId,
}

/// All keys of a plan.
#[derive(Drop)]
pub struct KeyTable {
    pile: KeyPile,
    ghost whole: { IsWhole pile.groups.items pile.plan },
}

impl KeyTable {
    ghost use Rattle.pair_keys.specs.Keys.{table_of};

    /// The plan of the keys.
    pub fn plan(&self) -> &Plan
        ensures { result.now ≡ (table_of self.now).plan }
    {
        &self.pile.plan
    }

    /// The own key of a meter.
    pub fn own(&self, group: u16, meter: u8) -> &[u8; 32]
        requires { meter < size (table_of self.now).plan.groups group }
        ensures { Some result.now ≡ (table_of self.now).key (KeyId.Own group meter) }
    {
        match &self.pile.groups[group as usize].own[meter as usize] {
            Some(key) => key,
            None => unreachable!(),
        }
    }

    /// The key of a pair of meters, the lower meter first.
    pub fn pair(&self, group: u16, low: u8, high: u8) -> &[u8; 32]
        requires order { low < high }
        requires place { high < size (table_of self.now).plan.groups group }
        ensures { Some result.now ≡ (table_of self.now).key (KeyId.Pair group low high) }
    {
        match &self.pile.groups[group as usize].lower[high as usize][low as usize] {
            Some(key) => key,
            None => unreachable!(),
        }
    }
}
