//! The lane `rules`, which gives posts their fates by tag.

ghost use Rattle.std.specs.Prelude.{◌≡◌, ◌==◌, None, IfOk};
ghost use Rattle.std.specs.Option.{option_map};
ghost use Rattle.link_lanes.specs.Kinds.{any_or, kind_of, kind_number, index_of, rule_of, rules_of, is_or_any, matches, first_fate, rules_by};
ghost use Rattle.link_lanes.specs.MadeLanes.{rules_lane};

use crate::texts::{halves, quarters, read_fate};
use crate::{Fate, Lane, LaneError};
use field_texts::read_number_within;
use group_plan::{Kind, Tag};
use std::alloc::{AllocError, Global};
use std::marker::Model;

// The tags that a rule matches, where None stands for any, and the fate that it gives.
#[derive(Clone, Copy)]
struct Rule {
    group: Option<u32>,
    round: Option<u32>,
    kind: Option<Kind>,
    meter: Option<u32>,
    fate: Fate,
}

impl Model for Rule {
    ghost use Rattle.link_lanes.specs.Kinds.{Rule};

    ghost Value = { Rule };

    ghost view = { λ r. record { group = r.group; round = r.round; kind = r.kind; meter = r.meter; fate = r.fate } };

    ghost inverse = { λ r. record { group = r.group; round = r.round; kind = r.kind; meter = r.meter; fate = r.fate } };
}

// The index that a text spells; the inner None, for `*`, stands for any.
fn read_index(text: &[u8]) -> Option<Option<u32>>
    ensures { result ≡ index_of text.now }
{
    if text == b"*".as_slice() {
        return Some(None);
    }
    let index = read_number_within(text, 0, 1 << 32)? as u32;
    Some(Some(index))
}

// The kind that a text spells; the inner None, for `*`, stands for any.
fn read_kind(text: &[u8]) -> Option<Option<Kind>>
    ensures { result ≡ any_or kind_of text.now }
{
    if text == b"*".as_slice() {
        return Some(None);
    }
    if text == b"r".as_slice() {
        return Some(Some(Kind::Reading));
    }
    if text == b"m".as_slice() {
        return Some(Some(Kind::Announcement));
    }
    if text == b"a".as_slice() {
        return Some(Some(Kind::Answer));
    }
    None
}

// The rule that a text spells, `G.R.K.I=FATE`.
fn read_rule(text: &str) -> Option<Rule>
    ensures { result ≡ rule_of text.now }
{
    let (tags, fate) = halves(text.as_bytes(), b'=')?;
    let (group, round, kind, meter) = quarters(tags, b'.')?;
    let group = read_index(group)?;
    let round = read_index(round)?;
    let kind = read_kind(kind)?;
    let meter = read_index(meter)?;
    let fate = read_fate(fate)?;
    Some(Rule {
        group,
        round,
        kind,
        meter,
        fate,
    })
}

// The rules that an argument spells, or None where it is of another form.
fn read_rules(alloc: Global, arg: &str) -> Result<Option<Vec<Rule>>, AllocError>
    ensures { IfOk result (λ read. option_map (λ v. v.items) read ≡ rules_of arg.now) }
{
    let mut rules = Vec::new(alloc);
    for text in arg.split(';') {
        if rules.len() == 64 {
            return Ok(None);
        }
        let Some(rule) = read_rule(text) else {
            return Ok(None);
        };
        rules.push(rule)?;
    }
    Ok(Some(rules))
}

// Whether an index is the wanted one, where one is wanted.
fn is_or_any(wanted: Option<u32>, found: u32) -> bool
    ensures { result ≡ is_or_any wanted found }
{
    match wanted {
        None => true,
        Some(number) => number == found,
    }
}

// Whether a kind is the wanted one, where one is wanted.
fn is_kind_or_any(wanted: Option<Kind>, found: Kind) -> bool
    ensures { result ≡ is_or_any (option_map kind_number wanted) (kind_number found) }
{
    match (wanted, found) {
        (None, _) => true,
        (Some(Kind::Reading), Kind::Reading) => true,
        (Some(Kind::Announcement), Kind::Announcement) => true,
        (Some(Kind::Answer), Kind::Answer) => true,
        _ => false,
    }
}

fn matches(rule: Rule, tag: Tag) -> bool
    ensures { result ≡ matches rule tag }
{
    is_or_any(rule.group, u32::from(tag.group))
        && is_or_any(rule.round, tag.round)
        && is_kind_or_any(rule.kind, tag.kind)
        && is_or_any(rule.meter, u32::from(tag.meter))
}

// The fate that the first rule that matches gives, or what came.
fn fate_by(rules: &[Rule], tag: Tag, coming: Fate) -> Fate
    ensures { result ≡ first_fate rules.now tag coming }
{
    for rule in rules {
        if matches(*rule, tag) {
            return rule.fate;
        }
    }
    coming
}

/// The lane `rules`: the fate of the first rule that matches the tag, or what came.
/// Its argument is 1 to 64 rules `G.R.K.I=FATE` joined by `;`.
#[derive(Drop)]
pub struct Rules {
    rules: Option<Vec<Rule>>,
    count: u64,
}

impl Rules {
    /// A lane with no post and no argument yet.
    pub fn new() -> Rules
        ensures { rules_lane result ≡ rules_by 0 None }
    {
        Rules {
            rules: None,
            count: 0,
        }
    }
}

impl Lane for Rules {
    ghost use Rattle.link_lanes.specs.MadeLanes.{rules_lane};

    ghost meaning = { rules_lane };

    fn name(&self) -> &str {
        "rules"
    }

    fn load(&mut self, alloc: Global, arg: &str) -> Result<(), LaneError> {
        let Some(rules) = read_rules(alloc, arg)? else {
            return Err(LaneError::Refused);
        };
        self.rules = Some(rules);
        self.count = 0;
        Ok(())
    }

    fn fate(&mut self, tag: Tag, coming: Fate) -> Fate {
        self.count += 1;
        match &self.rules {
            None => coming,
            Some(rules) => fate_by(rules, tag, coming),
        }
    }
}
