//! The command `parts`: what it puts for each meter, and what it refuses.

use crate::fixtures::{
    HEAD, NORTH, Refusal, check_complained, check_refused, check_said, check_status, check_stored,
    check_text, desk_of, held, with_keys,
};
use std::test::Fail;

const PARTS: &str = "parts plan.csv 0 m";

// Each meter of the plain case: the name of its meter file, and what stands there behind the group.
static KEYS: [(&str, &str); 3] = [
    ("m0.csv", "self,0\nown,Z\npair,1,Z\npair,2,Z\n"),
    ("m1.csv", "self,1\nown,Z\npair,0,Z\npair,2,Z\n"),
    ("m2.csv", "self,2\nown,Z\npair,0,Z\npair,1,Z\n"),
];

// The same of its journal.
static JOURNALS: [(&str, &str); 3] = [
    ("m0.journal", "self,0\nbegin\n"),
    ("m1.journal", "self,1\nbegin\n"),
    ("m2.journal", "self,2\nbegin\n"),
];

#[test]
fn parts_of_the_plain_case(rt: HostRuntime) -> Result<(), Fail> {
    let alloc = rt.alloc();
    let rows = format!(in alloc; "{HEAD}{NORTH}")?;
    let mut desk = desk_of(alloc, &rows, "", Vec::new(alloc))?;
    check_status(&rt, alloc, PARTS, &mut desk, 0, PARTS)?;
    for (name, rest) in KEYS.iter() {
        let wanted = format!(in alloc; "meter,1\nrounds,1\ngroup,0,north,3,2\n{rest}")?;
        check_text(&rt, held(&desk, name), &with_keys(alloc, &wanted)?, name);
    }
    for (name, rest) in JOURNALS.iter() {
        let wanted = format!(in alloc;
            "meteragg meter journal 1\nrounds,1\ngroup,0,north,3,2\n{rest}"
        )?;
        check_text(&rt, held(&desk, name), &wanted, name);
    }
    check_said(&rt, &desk, "parts: meters=3\n", PARTS);
    check_complained(&rt, &desk, "", PARTS);
    Ok(())
}

#[test]
fn parts_of_a_plan_with_members(rt: HostRuntime) -> Result<(), Fail> {
    let alloc = rt.alloc();
    let rows = format!(in alloc;
        "rounds,2\nwindows,1,2\n{NORTH}member,0,2,1,2\nmember,0,1,0,2\nmember,0,0,0,1\n"
    )?;
    let mut desk = desk_of(alloc, &rows, "", Vec::new(alloc))?;
    check_status(&rt, alloc, PARTS, &mut desk, 0, PARTS)?;
    let wanted =
        "meter,1\nrounds,2\ngroup,0,north,3,2\nself,1\nown,Z\npair,0,Z\npair,2,Z\nmember,0,0,1\nmember,2,1,2\n";
    check_text(
        &rt,
        held(&desk, "m1.csv"),
        &with_keys(alloc, wanted)?,
        "m1.csv",
    );
    let wanted =
        "meteragg meter journal 1\nrounds,2\ngroup,0,north,3,2\nself,1\nmember,0,0,1\nmember,2,1,2\nbegin\n";
    check_text(&rt, held(&desk, "m1.journal"), wanted, "m1.journal");
    Ok(())
}

// Each row: the words, and the first name that they give; a prefix is no file name.
static PREFIXES: [(&str, &str); 2] = [
    ("parts plan.csv 0 plan.csv", "plan.csv0.csv"),
    ("parts plan.csv 0 ", "0.csv"),
];

#[test]
fn prefixes_that_are_no_file_names(rt: HostRuntime) -> Result<(), Fail> {
    let alloc = rt.alloc();
    let rows = format!(in alloc; "{HEAD}{NORTH}")?;
    for (words, name) in PREFIXES.iter() {
        let mut desk = desk_of(alloc, &rows, "", Vec::new(alloc))?;
        check_status(&rt, alloc, words, &mut desk, 0, words)?;
        check_stored(&rt, &desk, name, true, words);
    }
    Ok(())
}

// Each row: the words, a name that is taken, the failing call, the status, the complaint, and whether the first file is put.
static REFUSED: [(&str, &str, u64, u8, &str, bool); 9] = [
    (PARTS, "m1.journal", 9, 4, "cannot write m1.journal", false),
    (PARTS, "m2.csv", 9, 4, "cannot write m2.csv", false),
    (
        "parts plan.csv 1 m",
        "",
        9,
        5,
        "plan.csv row 0: Key Range",
        false,
    ),
    ("parts plan.csv 256 m", "", 9, 2, "bad words", false),
    ("parts plan.csv 00 m", "", 9, 2, "bad words", false),
    ("parts  0 m", "", 9, 2, "bad words", false),
    (PARTS, "", 0, 3, "cannot read plan.csv", false),
    (PARTS, "", 2, 4, "cannot write m0.journal", true),
    (PARTS, "", 7, 4, "cannot print", true),
];

#[test]
fn parts_over_a_file(rt: HostRuntime) -> Result<(), Fail> {
    let alloc = rt.alloc();
    let rows = format!(in alloc; "{HEAD}{NORTH}")?;
    for case in REFUSED.iter() {
        let (words, taken, failing, status, complaint, put) = *case;
        let mut desk = desk_of(alloc, &rows, "", vec![in alloc; failing]?)?;
        if !taken.is_empty() {
            desk.place(taken, b"old")?;
        }
        check_refused(
            &rt,
            alloc,
            words,
            &mut desk,
            Refusal { status, complaint },
            complaint,
        )?;
        check_stored(&rt, &desk, "m0.csv", put, complaint);
        check_said(&rt, &desk, "", complaint);
    }
    Ok(())
}
