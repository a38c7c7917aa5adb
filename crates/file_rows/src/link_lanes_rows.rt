//! Fates and lanes: arguments by their forms, fates by lanes, rows that are refused, and lanes that are hung by hand.

ghost use Rattle.std.specs.Prelude.{◌≡◌, ◌<◌, ◌≤◌, ◌+◌, ◌^◌, length, IfOk};
ghost use Rattle.link_lanes.specs.Racks.{posts_of, spare_of, HasRoom};

use crate::fixtures::{check, check_bytes, check_same};
use group_plan::{Kind, Name, Tag};
use link_lanes::{
    Arg, ArgError, Burst, Clear, EveryNth, Fate, FateError, Lane, LaneError, LaneRow, Post, Rack,
    RackCause, Rules, Seeded,
};
use row_fixtures::reading_tag;
use std::alloc::{AllocError, Global};
use std::cell::Cell;
use std::process::Abort;
use std::rc::Rc;
use std::test::Fail;

// Delays, and why they are no fate.
static DELAYS: [(&[u8], Option<FateError>, &str); 6] = [
    (&[1, 16, 16], None, "first to last"),
    (&[], None, "no delay"),
    (&[0, 17, 1, 1], Some(FateError::Copies), "copies"),
    (&[3, 0], Some(FateError::Delay), "delay 0"),
    (&[17], Some(FateError::Delay), "delay 17"),
    (&[2, 4, 3], Some(FateError::Order), "order"),
];

#[test]
fn fates_by_delays(rt: HostRuntime) {
    for (delays, error, row) in DELAYS.iter() {
        let fate = Fate::new(delays);
        if let Ok(fate) = fate {
            check_bytes(&rt, fate.delays(), delays, row);
        }
        check_same(&rt, &fate.err(), error, row);
    }
}

fn takes<L: Lane>(alloc: Global, lane: &mut L, arg: &str) -> Result<bool, LaneError> {
    match lane.load(alloc, arg) {
        Ok(()) => Ok(true),
        Err(LaneError::Refused) => Ok(false),
        Err(LaneError::Memory) => Err(LaneError::Memory),
    }
}

// So many rules, of which none matches.
fn many_rules(alloc: Global, count: usize) -> Result<String, Fail> {
    let mut arg = String::new(alloc);
    for at in 0..count {
        if at > 0 {
            arg.push(';')?;
        }
        arg.push_str("4294967295.*.*.*=-")?;
    }
    Ok(arg)
}

// Arguments, and whether the lane takes them.
static CLEAR: [(&str, bool); 3] = [("", true), (" ", false), ("-", false)];

static RULES: [(&str, bool); 20] = [
    ("*.*.*.*=-", true),
    ("0.0.r.2=2", true),
    (
        "4294967295.4294967295.a.4294967295=1+3;*.0.m.*=16+16+16",
        true,
    ),
    ("", false),
    (";", false),
    ("0.0.r.2=2;", false),
    (";0.0.r.2=2", false),
    ("0.0.r.2=2;;0.0.r.2=2", false),
    ("0.0.r=2", false),
    ("0.0.r.2.2=2", false),
    ("0.0.r.2", false),
    ("0.0.r.2=2=2", false),
    ("0.0.r.2=", false),
    ("4294967296.0.r.2=2", false),
    ("00.0.r.2=2", false),
    ("0.+1.r.2=2", false),
    ("0.0.R.2=2", false),
    ("0.0.rr.2=2", false),
    ("0.0..2=2", false),
    ("0.0.r.**=2", false),
];

static SEEDED: [(&str, bool); 11] = [
    ("18446744073709551615:1000:1000:16", true),
    ("0:0:0:1", true),
    ("18446744073709551616:0:0:1", false),
    (
        "99999999999999999999999999999999999999999999999999:0:0:1",
        false,
    ),
    ("0:1001:0:1", false),
    ("0:0:1001:1", false),
    ("0:0:0:0", false),
    ("0:0:0:17", false),
    ("0:0:0", false),
    ("0:0:0:1:1", false),
    ("0:0::1", false),
];

static EVERY: [(&str, bool); 18] = [
    ("1:-", true),
    ("1000000:16", true),
    ("3:1+3", true),
    ("3:2+2+2", true),
    ("", false),
    ("3", false),
    (":1", false),
    ("0:1", false),
    ("1000001:1", false),
    ("03:1", false),
    ("3:", false),
    ("3:0", false),
    ("3:17", false),
    ("3:2+1", false),
    ("3:1+1+1+1", false),
    ("3:1+", false),
    ("3:-+1", false),
    ("3:1:1", false),
];

static BURST: [(&str, bool); 10] = [
    ("1:1", true),
    ("1000000:1000000", true),
    ("", false),
    ("1", false),
    ("0:1", false),
    ("1:0", false),
    ("1000001:1", false),
    ("1:1000001", false),
    ("1:1:1", false),
    ("01:1", false),
];

// Looks for whether a new lane takes each argument.
fn check_args<L: Lane, F: Fn() -> L>(
    rt: &impl Abort,
    alloc: Global,
    lane: &str,
    new: F,
    args: &[(&str, bool)],
) -> Result<(), Fail>
    requires { F.IsAlwaysCallable new }
{
    for (arg, fits) in args {
        let takes = takes(alloc, &mut new(), arg)?;
        check_same(rt, &(lane, takes), &(lane, *fits), arg);
    }
    Ok(())
}

// So many rules, and whether a lane takes them.
static MOST_RULES: [(usize, bool); 2] = [(64, true), (65, false)];

// Looks for whether a lane takes so many rules.
fn check_most_rules(rt: &impl Abort, alloc: Global) -> Result<(), Fail> {
    for (count, fits) in MOST_RULES.iter() {
        let arg = many_rules(alloc, *count)?;
        check_args(rt, alloc, "rules", Rules::new, &[(&arg, *fits)])?;
    }
    Ok(())
}

// Texts, and why they are no arguments.
static TEXTS: [(&str, Option<ArgError>); 4] = [
    ("a b", Some(ArgError::Byte(1))),
    ("!~\x7f", Some(ArgError::Byte(2))),
    ("!,\"~", None),
    ("", None),
];

// Looks for the text of an argument.
fn check_arg(rt: &impl Abort, arg: &Arg, text: &str) {
    check_same(rt, &arg.text(), &text, "a plain text");
}

// The texts that are arguments at all.
fn check_texts(rt: &impl Abort, alloc: Global) {
    for (text, error) in TEXTS.iter() {
        let came = match Arg::new(alloc, text.as_bytes()) {
            Ok(arg) => {
                check_arg(rt, &arg, text);
                None
            }
            Err(error) => Some(error),
        };
        check_same(rt, &came, error, text);
    }
}

#[test]
fn arguments_by_form(rt: HostRuntime) -> Result<(), Fail> {
    let alloc = rt.alloc();
    check_args(&rt, alloc, "clear", Clear::new, &CLEAR)?;
    check_args(&rt, alloc, "rules", Rules::new, &RULES)?;
    check_most_rules(&rt, alloc)?;
    check_args(&rt, alloc, "seeded", Seeded::new, &SEEDED)?;
    check_args(&rt, alloc, "every", EveryNth::new, &EVERY)?;
    check_args(&rt, alloc, "burst", Burst::new, &BURST)?;
    check_texts(&rt, alloc);
    Ok(())
}

// Makes these posts.
fn pass_all(rack: &mut Rack, posts: &[(u32, Tag)])
    requires room { HasRoom (λ b. meaning (b.vtable, b.value)) rack.old }
    requires few { length (posts_of rack.old) + length posts.now < 2 ^ 32 }
    requires spare { length posts.now ≤ spare_of rack.old }
{
    for (tick, tag) in posts {
        rack.pass(*tick, *tag);
    }
}

fn row(alloc: Global, row: u32, name: &str, arg: &str, span: (u32, u32)) -> Result<LaneRow, Fail> {
    let Some(name) = Name::new(name.as_bytes()) else {
        return Err(Fail::new("a name of another form"));
    };
    Ok(LaneRow {
        row,
        name,
        arg: Arg::new(alloc, arg.as_bytes())?,
        from: span.0,
        to: span.1,
    })
}

// The lane rows of a table, as if they stood in row 11 of a file and those after it.
fn lane_rows(alloc: Global, rows: &[(&str, &str, (u32, u32))]) -> Result<Vec<LaneRow>, Fail> {
    let mut lane_rows = Vec::new(alloc);
    let mut number = 11u32;
    for (name, arg, span) in rows {
        lane_rows.push(row(alloc, number, name, arg, *span)?)?;
        number = number.wrapping_add(1);
    }
    Ok(lane_rows)
}

// Looks for these fates in the posts.
fn check_posts(rt: &impl Abort, posts: &[Post], fates: &[&[u8]]) {
    check_same(rt, &posts.len(), &fates.len(), "the posts");
    for (post, delays) in posts.iter().zip(fates) {
        let came = (post.tag, post.fate.delays());
        check_same(rt, &came, &(post.tag, *delays), "a post");
    }
}

// Makes these posts, and looks for their fates.
fn check_passed(
    rt: &impl Abort,
    rack: &mut Rack,
    posts: &[(u32, Tag)],
    fates: &[&[u8]],
) -> Result<(), Fail>
    requires room { HasRoom (λ b. meaning (b.vtable, b.value)) rack.old }
    requires none { length (posts_of rack.old) ≡ 0 }
{
    check(rt, posts.len() < 100, "the number of posts");
    if posts.len() < 100 {
        rack.reserve(posts.len() as u64)?;
        pass_all(rack, posts);
    }
    check_posts(rt, rack.posts(), fates);
    Ok(())
}

// Adds two lanes to a cupboard.
fn add_two(alloc: Global, cupboard: &mut Vec<Box<dyn Lane>>) -> Result<(), AllocError> {
    cupboard.push(Box::new(alloc, Burst::new())?)?;
    cupboard.push(Box::new(alloc, EveryNth::new())?)?;
    Ok(())
}

// Adds a lane of each other kind.
fn add_others(alloc: Global, cupboard: &mut Vec<Box<dyn Lane>>) -> Result<(), AllocError> {
    cupboard.push(Box::new(alloc, Clear::new())?)?;
    cupboard.push(Box::new(alloc, Rules::new())?)?;
    cupboard.push(Box::new(alloc, Seeded::new())?)?;
    Ok(())
}

// Lanes out of a cupboard with one of each kind, hung by these rows, give the posts these fates.
fn check_hung(
    rt: &impl Abort,
    alloc: Global,
    rows: &[LaneRow],
    posts: &[(u32, Tag)],
    fates: &[&[u8]],
) -> Result<(), Fail> {
    let mut cupboard = Vec::new(alloc);
    add_two(alloc, &mut cupboard)?;
    add_others(alloc, &mut cupboard)?;
    match Rack::fit(alloc, cupboard, rows) {
        Ok(rack) => {
            let mut rack = rack;
            check_passed(rt, &mut rack, posts, fates)
        }
        Err(error) => Err(Fail::from(error)),
    }
}

// The same for rows of a table.
fn check_fates(
    rt: &impl Abort,
    alloc: Global,
    rows: &[(&str, &str, (u32, u32))],
    posts: &[(u32, Tag)],
    fates: &[&[u8]],
) -> Result<(), Fail> {
    check_hung(rt, alloc, &lane_rows(alloc, rows)?, posts, fates)
}

// The same of six posts: three readings at tick 0, an announcement, an answer and a reading of another group.
fn check_six(
    rt: &impl Abort,
    alloc: Global,
    rows: &[(&str, &str, (u32, u32))],
    fates: &[&[u8]],
) -> Result<(), Fail> {
    let announcement = Tag {
        group: 0,
        round: 0,
        meter: 1,
        kind: Kind::Announcement,
    };
    let answer = Tag {
        group: 0,
        round: 0,
        meter: 1,
        kind: Kind::Answer,
    };
    let posts = [
        (0, reading_tag(0, 0, 0)),
        (0, reading_tag(0, 0, 1)),
        (0, reading_tag(0, 0, 2)),
        (1, announcement),
        (2, answer),
        (3, reading_tag(1, 1, 2)),
    ];
    check_fates(rt, alloc, rows, &posts, fates)
}

/// A lane's name, its argument and its span.
type Hanging = (&'static str, &'static str, (u32, u32));

// Lanes, and the fates that they give the six posts.
static SIX: [(&[Hanging], [&[u8]; 6]); 10] = [
    (&[], [&[1], &[1], &[1], &[1], &[1], &[1]]),
    (
        &[("burst", "1:1", (0, 9)), ("clear", "", (0, 9))],
        [&[1], &[1], &[1], &[1], &[1], &[1]],
    ),
    (
        &[("rules", "0.0.r.1=-;*.*.*.2=4;*.*.m.*=2+2", (0, 9))],
        [&[1], &[], &[4], &[2, 2], &[1], &[4]],
    ),
    // Numbers that no tag can have match nothing.
    (
        &[("rules", "65536.*.*.*=9;*.*.*.256=9;*.*.*.*=3", (0, 9))],
        [&[3], &[3], &[3], &[3], &[3], &[3]],
    ),
    (
        &[("every", "2:1+3", (0, 9))],
        [&[1], &[1, 3], &[1], &[1, 3], &[1], &[1, 3]],
    ),
    // Posts before the span are not counted.
    (
        &[("every", "2:5", (1, 2))],
        [&[1], &[1], &[1], &[1], &[5], &[1]],
    ),
    (
        &[("burst", "2:1", (0, 9))],
        [&[1], &[1], &[], &[1], &[1], &[]],
    ),
    // A post that comes without a copy is counted, and may get one.
    (
        &[("burst", "1:1", (0, 9)), ("every", "2:3", (0, 9))],
        [&[1], &[3], &[1], &[3], &[1], &[3]],
    ),
    (
        &[("every", "1:2", (0, 9)), ("burst", "1:1", (0, 9))],
        [&[2], &[], &[2], &[], &[2], &[]],
    ),
    (
        &[("seeded", "7:300:500:16", (0, 9))],
        [&[6], &[3], &[], &[], &[2, 9], &[]],
    ),
];

// The fates of twenty posts, every second of which comes without a copy. They take more words than one refill of the stream
// has.
static TWENTY: [&[u8]; 20] = [
    &[6],
    &[],
    &[],
    &[],
    &[2, 9],
    &[],
    &[8, 16],
    &[],
    &[4, 14],
    &[],
    &[13, 16],
    &[],
    &[],
    &[],
    &[],
    &[],
    &[7],
    &[],
    &[3],
    &[],
];

// The lanes that give them.
static TWENTY_LANES: [Hanging; 2] = [("burst", "1:1", (0, 0)), ("seeded", "7:300:500:16", (0, 0))];

#[test]
fn fates_by_lanes(rt: HostRuntime) -> Result<(), Fail> {
    let alloc = rt.alloc();
    for (rows, fates) in SIX.iter() {
        check_six(&rt, alloc, rows, fates)?;
    }
    let many = [(0, reading_tag(0, 0, 0)); 20];
    check_fates(&rt, alloc, &TWENTY_LANES, &many, &TWENTY)
}

// The row that a cupboard of two lanes doesn't fit, and the cause.
fn refusal(alloc: Global, rows: &[LaneRow]) -> Result<(u32, RackCause), Fail> {
    let mut cupboard = Vec::new(alloc);
    add_two(alloc, &mut cupboard)?;
    match Rack::fit(alloc, cupboard, rows) {
        Ok(_rack) => Err(Fail::new("fitted")),
        Err(error) => Ok((error.row, error.cause)),
    }
}

// Looks for this row and cause.
fn check_refusal(
    rt: &impl Abort,
    came: (u32, RackCause),
    refusal: (u32, RackCause),
    name: &str,
    arg: &str,
) {
    check_same(rt, &(name, came), &(name, refusal), arg);
}

// Names and arguments of row 12, each with the cause for which it is refused.
static REFUSED: [(&str, &str, RackCause); 4] = [
    ("none", "3:1", RackCause::NoSuchLane),
    ("every", "3:1", RackCause::NoSuchLane),
    ("every", "x", RackCause::NoSuchLane),
    ("burst", "3:0", RackCause::BadArgument),
];

#[test]
fn rows_refused(rt: HostRuntime) -> Result<(), Fail> {
    let alloc = rt.alloc();
    for (name, arg, cause) in REFUSED.iter() {
        let around = [
            ("every", "2:1", (0, 9)),
            (*name, *arg, (0, 9)),
            ("none", "", (0, 9)),
        ];
        let rows = lane_rows(alloc, &around)?;
        check_refusal(&rt, refusal(alloc, &rows)?, (12, *cause), name, arg);
    }
    Ok(())
}

// A rack with this lane alone, which hangs for tick 0.
fn hung(alloc: Global, lane: Box<dyn Lane>) -> Result<Rack, Fail>
    requires { (meaning lane).count < 2 ^ 62 }
    ensures room { IfOk result (HasRoom (λ b. meaning b)) }
    ensures none { IfOk result (λ rack. length (posts_of rack) ≡ 0) }
{
    let Ok(rack) = Rack::fit(alloc, Vec::new(alloc), &[]) else {
        return Err(Fail::new("an empty rack"));
    };
    let mut rack = rack;
    match rack.hang(lane, 0, 0) {
        Ok(()) => Ok(rack),
        Err(_lane) => Err(Fail::new("want of memory")),
    }
}

// Looks for the fates of three readings, the last of which comes after 2 ticks.
fn check_readings(rt: &impl Abort, rack: &mut Rack) -> Result<(), Fail>
    requires room { HasRoom (λ b. meaning (b.vtable, b.value)) rack.old }
    requires none { length (posts_of rack.old) ≡ 0 }
{
    rack.reserve(3)?;
    let fate = rack.pass(0, reading_tag(0, 0, 0));
    check_bytes(rt, fate.delays(), &[1], "meter 0");
    let fate = rack.pass(0, reading_tag(0, 0, 1));
    check_bytes(rt, fate.delays(), &[1], "meter 1");
    let fate = rack.pass(0, reading_tag(0, 0, 2));
    check_bytes(rt, fate.delays(), &[2], "meter 2");
    Ok(())
}

#[test]
fn lane_hung_by_hand(rt: HostRuntime) -> Result<(), Fail> {
    let mut lane = Rules::new();
    lane.load(rt.alloc(), "0.0.r.2=2")?;
    let mut rack = hung(rt.alloc(), Box::new(rt.alloc(), lane)?)?;
    check_readings(&rt, &mut rack)
}

// A lane that counts its drops where others can read them.
struct Counted {
    count: u64,
    drops: Rc<Cell<u32>>,
}

impl Drop for Counted {
    fn drop(self) {
        self.drops.set(self.drops.get().wrapping_add(1));
        let Counted { count: _, drops: _ } = self;
    }
}

impl Lane for Counted {
    ghost use Rattle.std.specs.Prelude.{codes, false};

    ghost meaning = { λ s. record { called = codes "counted"; fits = λ arg. false; count = s.count; answer = λ k tag coming. coming; given = λ arg k tag coming. coming } };

    fn name(&self) -> &str {
        "counted"
    }

    fn load(&mut self, _alloc: Global, _arg: &str) -> Result<(), LaneError> {
        Err(LaneError::Refused)
    }

    fn fate(&mut self, _tag: Tag, coming: Fate) -> Fate {
        self.count += 1;
        coming
    }
}

// Looks for the number of drops before and after the end of the lane's tick.
fn check_retired(rt: &impl Abort, rack: &mut Rack, drops: &Cell<u32>) {
    rack.retire(0);
    check_same(rt, &drops.get(), &0, "tick 0");
    rack.retire(1);
    check_same(rt, &drops.get(), &1, "tick 1");
    rack.retire(2);
}

#[test]
fn retired_lane_dropped_once(rt: HostRuntime) -> Result<(), Fail> {
    let drops = Rc::new(rt.alloc(), Cell::new(0))?;
    let lane = Counted {
        count: 0,
        drops: Rc::clone(&drops)?,
    };
    let mut rack = hung(rt.alloc(), Box::new(rt.alloc(), lane)?)?;
    check_retired(&rt, &mut rack, &drops);
    drop(rack);
    check_same(&rt, &drops.get(), &1, "the end");
    Ok(())
}
