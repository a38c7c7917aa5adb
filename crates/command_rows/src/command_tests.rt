//! The commands `convert`, `public`, `help` and `version`: what they store and say, and what they refuse.

use crate::fixtures::{
    HEAD, NORTH, POURED_BYTES, Refusal, check_calls, check_complained, check_refused, check_said,
    check_status, check_stored, check_text, desk_of as plan_desk, held, replaced,
};
use commands::{USAGE, VERSION};
use desk_outside::MemoryDesk;
use row_fixtures::{PLAIN, PLAIN_OLD};
use std::alloc::Global;
use std::test::Fail;

const CONVERT: &str = "convert old.txt t.txt";

// A desk that holds an old transcript, and fails these calls.
fn desk_of(alloc: Global, text: &str, failing: Vec<u64>) -> Result<MemoryDesk, Fail> {
    let mut desk = MemoryDesk::new(failing).with_pieces(POURED_BYTES);
    desk.place("old.txt", text.as_bytes())?;
    Ok(desk)
}

#[test]
fn old_transcript_converted(rt: HostRuntime) -> Result<(), Fail> {
    let alloc = rt.alloc();
    let mut desk = desk_of(alloc, PLAIN_OLD, Vec::new(alloc))?;
    check_status(&rt, alloc, CONVERT, &mut desk, 0, CONVERT)?;
    check_text(&rt, held(&desk, "t.txt"), PLAIN, "t.txt");
    check_said(&rt, &desk, "converted: lines=20\n", CONVERT);
    check_complained(&rt, &desk, "", CONVERT);
    Ok(())
}

// Each row: what stands in the old text, what stands there in its place, the failing call, the status, the complaint, and
// whether the new transcript is stored.
static UNCONVERTED: [(&str, &str, u64, u8, &str, bool); 10] = [
    (
        "transcript 1",
        "transcript 2",
        9,
        7,
        "old.txt line 1: Head",
        false,
    ),
    (
        "group,north,3,2",
        "group,north,65,2",
        9,
        7,
        "old.txt line 5: Head",
        false,
    ),
    (
        "1,c,0,0,announced,-",
        "1,c,0,0,announced",
        9,
        7,
        "old.txt line 12: Line",
        false,
    ),
    (
        "1,t,0,0,r,0,fresh",
        "1,t,0,0,r,3,fresh",
        9,
        7,
        "old.txt line 9: Field 6",
        false,
    ),
    ("end,20\n", "end,20", 9, 7, "old.txt line 26: NoEnd", false),
    ("end,20", "end,21", 9, 7, "old.txt line 26: Count", false),
    (
        "end,20\n",
        "end,20\nx",
        9,
        7,
        "old.txt line 27: After",
        false,
    ),
    ("", "", 0, 3, "cannot read old.txt", false),
    ("", "", 1, 4, "cannot write t.txt", false),
    ("", "", 2, 4, "cannot print", true),
];

#[test]
fn old_transcript_refused(rt: HostRuntime) -> Result<(), Fail> {
    let alloc = rt.alloc();
    for case in UNCONVERTED.iter() {
        let (there, instead, failing, status, complaint, stored) = *case;
        let text = replaced(alloc, PLAIN_OLD, there, instead)?;
        let mut desk = desk_of(alloc, &text, vec![in alloc; failing]?)?;
        check_refused(
            &rt,
            alloc,
            CONVERT,
            &mut desk,
            Refusal { status, complaint },
            complaint,
        )?;
        check_stored(&rt, &desk, "t.txt", stored, complaint);
        check_said(&rt, &desk, "", complaint);
    }
    Ok(())
}

const PUBLIC: &str = "public plan.csv public.csv";

#[test]
fn public_plan_put(rt: HostRuntime) -> Result<(), Fail> {
    let alloc = rt.alloc();
    let rows = format!(in alloc;
        "rounds,2\nwindows,1,2\n{NORTH}member,0,2,1,2\nlane,clear,,0,0\nmember,0,1,0,2\nmember,0,0,0,1\n"
    )?;
    let mut desk = plan_desk(alloc, &rows, "", Vec::new(alloc))?;
    check_status(&rt, alloc, PUBLIC, &mut desk, 0, PUBLIC)?;
    let wanted =
        "public,1\nrounds,2\nwindows,1,2\ngroup,north,3,2\nmember,0,0,0,1\nmember,0,2,1,2\n";
    check_text(&rt, held(&desk, "public.csv"), wanted, "public.csv");
    check_said(&rt, &desk, "public: groups=1 rounds=2\n", PUBLIC);
    check_complained(&rt, &desk, "", PUBLIC);
    Ok(())
}

// Each row: what comes behind the plan's keys, the failing call, the status, the complaint, and whether the public plan is stored.
static UNPUBLISHED: [(&str, u64, u8, &str, bool); 5] = [
    (
        "own,0,0,Z",
        9,
        5,
        "plan.csv row 11: Key Twice own 0 0",
        false,
    ),
    ("lane,clear,,1,0", 9, 5, "plan.csv row 11: LaneSpan", false),
    ("", 0, 3, "cannot read plan.csv", false),
    ("", 1, 4, "cannot write public.csv", false),
    ("", 2, 4, "cannot print", true),
];

#[test]
fn public_plan_refused(rt: HostRuntime) -> Result<(), Fail> {
    let alloc = rt.alloc();
    for case in UNPUBLISHED.iter() {
        let (row, failing, status, complaint, stored) = *case;
        let rows = format!(in alloc; "{HEAD}{NORTH}{row}")?;
        let mut desk = plan_desk(alloc, &rows, "", vec![in alloc; failing]?)?;
        check_refused(
            &rt,
            alloc,
            PUBLIC,
            &mut desk,
            Refusal { status, complaint },
            complaint,
        )?;
        check_stored(&rt, &desk, "public.csv", stored, complaint);
        check_said(&rt, &desk, "", complaint);
    }
    Ok(())
}

static TOLD: [(&str, &str); 6] = [
    ("help", USAGE),
    ("--help", USAGE),
    ("-h", USAGE),
    ("version", VERSION),
    ("--version", VERSION),
    ("-V", VERSION),
];

#[test]
fn usage_and_version(rt: HostRuntime) -> Result<(), Fail> {
    let alloc = rt.alloc();
    for (words, said) in TOLD.iter() {
        let mut desk = MemoryDesk::new(Vec::new(alloc));
        check_status(&rt, alloc, words, &mut desk, 0, words)?;
        check_said(&rt, &desk, said, words);
        check_calls(&rt, &desk, 1, words);
    }
    Ok(())
}
