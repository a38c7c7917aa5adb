//! Tables of mask words that are kept.
ghost use Rattle.std.specs.Prelude.{◌≡◌, ◌+◌, ◌-◌, ◌<◌, ◌≤◌, ◌^◌, IsTrue, IfOk, All, length, slice_index_or, []};
ghost use Rattle.std.specs.List.{range_with_len};
ghost use Rattle.group_plan.specs.Plans.{is_place, size, IsWithinLimits};
ghost use Rattle.ideal_masks.specs.ListTables.{tabulate, mask_table_of, IsMaskTable};
ghost use Rattle.ideal_masks.specs.KeptMasks.{zero_masks, no_words, higher_of, meter_of, round_of, group_of, IsSmall, HasWords, with_own, with_pair, change_meter, change_round, SetsOwn, SetsPair};
ghost use Rattle.pair_keys.specs.declared.KeyId.TheVariants.{Own, Pair};
ghost use Rattle.ideal_masks.specs.Moves.{IsKeyOf};
ghost use Rattle.ideal_masks.specs.Shifting.{MovesOne};

use group_plan::Plan;
use mask_stream::Masks;
use missing_round::MeterSet;
use mod_word::Word;
use pair_keys::KeyId;
use std::alloc::{AllocError, Global};
use std::marker::Model;

/// The words of a meter in a round.
#[derive(Drop)]
struct MeterWords {
    own: Word,
    /// Those of its pairs with the meters above it, ascending.
    higher: Vec<Word>,
}

impl Model for MeterWords {
    ghost use Rattle.ideal_masks.specs.KeptMasks.{MeterView};

    ghost Value = { MeterView };

    ghost view = { λ m. record { own = m.own; higher = m.higher.items } };
}

/// The words of a group in a round, by meter.
#[derive(Drop)]
struct RoundWords {
    meters: Vec<MeterWords>,
}

impl Model for RoundWords {
    ghost use Rattle.std.specs.Prelude.{List};
    ghost use Rattle.ideal_masks.specs.KeptMasks.{MeterView};

    ghost Value = { List MeterView };

    ghost view = { λ r. r.meters.items };
}

/// The words of a group, by round.
#[derive(Drop)]
struct GroupWords {
    rounds: Vec<RoundWords>,
}

impl Model for GroupWords {
    ghost use Rattle.std.specs.Prelude.{List};
    ghost use Rattle.ideal_masks.specs.KeptMasks.{MeterView};

    ghost Value = { List (List MeterView) };

    ghost view = { λ g. g.rounds.items };
}

/// A mask word for each place of a plan and for each pair of meters in a round of it.
#[derive(Drop)]
pub struct MaskTable {
    plan: Plan,
    groups: Vec<GroupWords>,
}

impl Model for MaskTable {
    ghost use Rattle.ideal_masks.specs.KeptMasks.{MasksView, kept_words, KeepsMasks};

    ghost Value = { MasksView };

    ghost view = { λ t. record { plan = t.plan; words = kept_words t.groups.items } };

    ghost invariant = { λ t. KeepsMasks t.plan t.groups.items };
}

// Masks whose words are all 0.
#[derive(Clone, Copy)]
struct Zeros<'p> {
    plan: &'p Plan,
}

impl<'p> Masks for Zeros<'p> {
    ghost use Rattle.ideal_masks.specs.KeptMasks.{zero_masks};

    ghost plan = { λ z. z.plan.now };

    ghost table = { λ z. zero_masks };

    fn own(&self, _group: u16, _round: u32, _meter: u8) -> Word {
        Word(0)
    }

    fn pair(&self, _group: u16, _round: u32, _low: u8, _high: u8) -> Word {
        Word(0)
    }
}

// The meters of a group above this one.
fn meters_above(meters: u32, low: u8) -> MeterSet
    requires few { meters ≤ 256 }
    requires low { low < meters }
    ensures { result ≡ range_with_len (low + 1) (meters - (low + 1)) }
{
    MeterSet::full(meters as u16).minus(MeterSet::full(u16::from(low) + 1))
}

// The words of the pairs of `low` with the meters above it, which are asked at once.
fn higher_words<M: Masks>(
    alloc: Global,
    plan: &Plan,
    masks: &M,
    group: u16,
    round: u32,
    low: u8,
) -> Result<Vec<Word>, AllocError>
    requires plan { M.plan masks.now ≡ plan.now }
    requires place { IsTrue (is_place plan.now group round low) }
    ensures words { IfOk result (λ words. words.items ≡ higher_of (M.table masks.now) group round (size plan.now.groups group) low) }
    ensures small { IfOk result (λ words. All (λ w. w < 2 ^ 64) words.items) }
{
    let others = meters_above(plan.meters(group), low);
    let row = masks.pairs(group, round, low, &others);
    let mut words = Vec::with_capacity(alloc, row.len())?;
    for value in row.as_slice() {
        let word = Word(*value);
        word_is(word);
        words.push(word)?;
    }
    Ok(words)
}

// What the type says of a word.
fn word_is(word: Word)
    ensures { word < 2 ^ 64 }
{
    let _number = word.value();
}

// The words of a meter in a round, its own and those with the meters above it.
fn meter_words<M: Masks>(
    alloc: Global,
    plan: &Plan,
    masks: &M,
    group: u16,
    round: u32,
    meter: u8,
) -> Result<MeterWords, AllocError>
    requires plan { M.plan masks.now ≡ plan.now }
    requires place { IsTrue (is_place plan.now group round meter) }
    ensures words { IfOk result (λ words. words ≡ meter_of (M.table masks.now) group round (size plan.now.groups group) meter) }
    ensures small { IfOk result IsSmall }
{
    let own = masks.own(group, round, meter);
    word_is(own);
    let higher = higher_words(alloc, plan, masks, group, round, meter)?;
    Ok(MeterWords { own, higher })
}

// The words of all meters of a group in a round.
fn round_words<M: Masks>(
    alloc: Global,
    plan: &Plan,
    masks: &M,
    group: u16,
    round: u32,
) -> Result<RoundWords, AllocError>
    requires plan { M.plan masks.now ≡ plan.now }
    requires round { round < plan.now.rounds }
    ensures words { IfOk result (λ words. words ≡ round_of (M.table masks.now) group (size plan.now.groups group) round) }
    ensures small { IfOk result (All IsSmall) }
{
    let mut meters = Vec::new(alloc);
    for meter in 0..plan.meters(group) {
        meters.push(meter_words(alloc, plan, masks, group, round, meter as u8)?)?;
    }
    Ok(RoundWords { meters })
}

// The words of a group in all rounds.
fn group_words<M: Masks>(
    alloc: Global,
    plan: &Plan,
    masks: &M,
    group: u16,
) -> Result<GroupWords, AllocError>
    requires { M.plan masks.now ≡ plan.now }
    ensures words { IfOk result (λ words. words ≡ group_of plan.now (M.table masks.now) group) }
    ensures small { IfOk result (All (All IsSmall)) }
{
    let mut rounds = Vec::new(alloc);
    for round in 0..plan.rounds() {
        rounds.push(round_words(alloc, plan, masks, group, round)?)?;
    }
    Ok(GroupWords { rounds })
}

// The words of all groups.
fn all_words<M: Masks>(alloc: Global, plan: &Plan, masks: &M) -> Result<Vec<GroupWords>, AllocError>
    requires { M.plan masks.now ≡ plan.now }
    ensures words { IfOk result (λ words. words.items ≡ tabulate (length plan.now.groups) (group_of plan.now (M.table masks.now))) }
    ensures small { IfOk result (λ words. All (All (All IsSmall)) words.items) }
    ensures limits { IsWithinLimits plan.now }
{
    let mut groups = Vec::new(alloc);
    for group in 0..plan.groups().len() {
        groups.push(group_words(alloc, plan, masks, group as u16)?)?;
    }
    Ok(groups)
}

impl RoundWords {
    fn at(&self, meter: u8) -> &MeterWords
        requires { meter < length self.now }
        ensures { result.now ≡ slice_index_or self.now meter no_words }
    {
        &self.meters[meter as usize]
    }

    fn set_own(&mut self, meter: u8, word: Word)
        requires { meter < length self.old }
        ensures { self.new ≡ change_meter meter (with_own word) self.old }
    {
        self.meters[meter as usize].own = word;
    }

    // The word with the meter `above + 1` above this one.
    fn set_pair(&mut self, meter: u8, above: u8, word: Word)
        requires meter { meter < length self.old }
        requires above { above < length (slice_index_or self.old meter no_words).higher }
        ensures { self.new ≡ change_meter meter (with_pair above word) self.old }
    {
        self.meters[meter as usize].higher[above as usize] = word;
    }
}

impl GroupWords {
    fn at(&self, round: u32) -> &RoundWords
        requires { round < length self.now }
        ensures { result.now ≡ slice_index_or self.now round [] }
    {
        &self.rounds[round as usize]
    }

    fn set_own(&mut self, round: u32, meter: u8, word: Word)
        requires round { round < length self.old }
        requires meter { meter < length (slice_index_or self.old round []) }
        ensures { self.new ≡ change_round round meter (with_own word) self.old }
    {
        self.rounds[round as usize].set_own(meter, word);
    }

    fn set_pair(&mut self, round: u32, meter: u8, above: u8, word: Word)
        requires round { round < length self.old }
        requires meter { meter < length (slice_index_or self.old round []) }
        requires above { above < length (slice_index_or (slice_index_or self.old round []) meter no_words).higher }
        ensures { self.new ≡ change_round round meter (with_pair above word) self.old }
    {
        self.rounds[round as usize].set_pair(meter, above, word);
    }
}

impl MaskTable {
    /// The table of a plan whose words are all 0.
    pub fn zeros(alloc: Global, plan: &Plan) -> Result<MaskTable, AllocError>
        ensures plan { IfOk result (λ table. table.plan ≡ plan.now) }
        ensures words { IfOk result (λ table. table.words ≡ mask_table_of plan.now zero_masks) }
    {
        MaskTable::taken(alloc, plan, &Zeros { plan })
    }

    /// The table of a plan with the words of masks of this plan. Each word is asked once.
    pub fn taken<M: Masks>(alloc: Global, plan: &Plan, masks: &M) -> Result<MaskTable, AllocError>
        requires { M.plan masks.now ≡ plan.now }
        ensures plan { IfOk result (λ table. table.plan ≡ plan.now) }
        ensures words { IfOk result (λ table. table.words ≡ mask_table_of plan.now (M.table masks.now)) }
    {
        Ok(MaskTable {
            groups: all_words(alloc, plan, masks)?,
            plan: plan.try_copy()?,
        })
    }

    /// The plan of the table.
    pub fn plan(&self) -> &Plan
        ensures plan { result.now ≡ self.now.plan }
        ensures table { IsMaskTable self.now.plan self.now.words }
        ensures limits { IsWithinLimits self.now.plan }
    {
        &self.plan
    }

    /// Sets the own word of a meter in a round.
    pub fn set_own(&mut self, group: u16, round: u32, meter: u8, word: Word)
        requires { IsTrue (is_place self.old.plan group round meter) }
        ensures { SetsOwn self.old group round meter word self.new }
    {
        word_is(word);
        self.groups[group as usize].set_own(round, meter, word);
    }

    /// Sets the word of a pair of meters in a round, the lower meter first.
    pub fn set_pair(&mut self, group: u16, round: u32, low: u8, high: u8, word: Word)
        requires place { IsTrue (is_place self.old.plan group round high) }
        requires order { low < high }
        ensures { SetsPair self.old group round low high word self.new }
    {
        word_is(word);
        self.groups[group as usize].set_pair(round, low, high - low - 1, word);
    }

    /// Adds to the word of a key in a round, modulo 2^64.
    pub(crate) fn move_word(&mut self, id: KeyId, round: u32, by: Word)
        requires key { IsKeyOf self.old.plan id }
        requires round { round < self.old.plan.rounds }
        ensures moves { MovesOne self.old id round by self.new }
        ensures table { IsMaskTable self.new.plan self.new.words }
    {
        match id {
            KeyId::Own { group, meter } => self.move_own(group, round, meter, by),
            KeyId::Pair { group, low, high } => self.move_pair(group, round, low, high, by),
        }
        let _plan = self.plan();
    }

    // Adds to the own word of a meter.
    fn move_own(&mut self, group: u32, round: u32, meter: u32, by: Word)
        requires key { IsKeyOf self.old.plan (Own group meter) }
        requires round { round < self.old.plan.rounds }
        ensures { MovesOne self.old (Own group meter) round by self.new }
    {
        let _plan = self.plan();
        let group = group as u16;
        let meter = meter as u8;
        let word = self.own(group, round, meter).add(by);
        self.set_own(group, round, meter, word);
    }

    // Adds to the word of a pair.
    fn move_pair(&mut self, group: u32, round: u32, low: u32, high: u32, by: Word)
        requires key { IsKeyOf self.old.plan (Pair group low high) }
        requires round { round < self.old.plan.rounds }
        ensures { MovesOne self.old (Pair group low high) round by self.new }
    {
        let _plan = self.plan();
        let group = group as u16;
        let low = low as u8;
        let high = high as u8;
        let word = self.pair(group, round, low, high).add(by);
        self.set_pair(group, round, low, high, word);
    }

    fn meter(&self, group: u16, round: u32, meter: u8) -> &MeterWords
        requires { IsTrue (is_place self.now.plan group round meter) }
        ensures { HasWords self.now group round meter result.now }
    {
        self.groups[group as usize].at(round).at(meter)
    }
}

impl Masks for MaskTable {
    ghost use Rattle.ideal_masks.specs.ListTables.{masks_in};

    ghost plan = { λ t. t.plan };

    ghost table = { λ t. masks_in t.words };

    fn own(&self, group: u16, round: u32, meter: u8) -> Word {
        self.meter(group, round, meter).own
    }

    fn pair(&self, group: u16, round: u32, low: u8, high: u8) -> Word {
        self.meter(group, round, low).higher[usize::from(high - low - 1)]
    }
}
