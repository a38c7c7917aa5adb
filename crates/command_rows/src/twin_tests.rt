//! The commands `twin` and `pooled`: the words that move from one table of readings to another, and what they refuse.

use crate::fixtures::{
    HEAD, NORTH, READINGS, RUN, Refusal, check, check_calls, check_complained, check_number,
    check_refused, check_said, check_status, check_stored, check_text, desk_of as run_desk, held,
    replaced,
};
use desk_outside::MemoryDesk;
use row_fixtures::PLAIN;
use std::alloc::Global;
use std::process::Abort;
use std::sync::Wait;
use std::test::Fail;
use std::thread::Threads;

const TWIN: &str = "twin plan.csv readings.csv other.csv t.txt masks.txt";

// A lane that never brings meter 2 its announcement.
const DEAF: &str = "lane,rules,0.0.m.2=-,0,35\n";

// Each row: its name, the lane rows of the run, the other table, the status, and what is complained, or the lines of the
// masks file and the number of them that is said.
static TWINS: [(&str, &str, &str, u8, &str, u32); 8] = [
    ("twin_of_itself", "", "north,0,10,20,30\n", 0, "", 0),
    (
        "one_pair_word_moves",
        "",
        "north,0,15,15,30\n",
        0,
        "pair,0,0,0,1,903df1a0ade0b876,903df1a0ade0b871\n",
        1,
    ),
    (
        "presence_differs",
        "",
        "north,0,10,20,\n",
        8,
        "presence 0 0 2",
        0,
    ),
    (
        "presence before totals",
        "",
        "north,0,11,,30\n",
        8,
        "presence 0 0 1",
        0,
    ),
    (
        "a total more",
        "",
        "north,0,10,20,31\n",
        8,
        "total 0 0 60 61",
        0,
    ),
    (
        "late_reading_left_out",
        "lane,rules,0.0.r.2=2,0,0\n",
        "north,0,15,15,0\n",
        0,
        "own,0,0,2,903df1a0ade0b876,903df1a0ade0b894\npair,0,0,0,1,903df1a0ade0b876,903df1a0ade0b871\n",
        2,
    ),
    (
        "lost_answer_gives_none",
        "lane,rules,0.0.a.1=-,0,35\n",
        "north,0,1,2,3\n",
        8,
        "total 0 0 60 6",
        0,
    ),
    (
        "lost_announcement_gives_none",
        "lane,rules,0.0.m.1=-,0,35\n",
        "north,0,1,2,3\n",
        0,
        "own,0,0,1,903df1a0ade0b876,903df1a0ade0b8ac\npair,0,0,0,2,903df1a0ade0b876,903df1a0ade0b87f\npair,0,0,1,2,903df1a0ade0b876,903df1a0ade0b852\n",
        3,
    ),
];

// Looks for the masks file of these moved words, for what was said of it after so many bytes, and for no complaint.
fn check_moved(
    rt: &impl Abort,
    alloc: Global,
    desk: &MemoryDesk,
    name: &str,
    verb: &str,
    text: &str,
    moved: u32,
    before: usize,
) -> Result<(), Fail> {
    let masks = format!(in alloc; "meteragg masks 1\n{text}end,{moved}\n")?;
    let said = format!(in alloc; "{verb}: moved={moved}\n")?;
    check_complained(rt, desk, "", name);
    check_text(rt, held(desk, "masks.txt"), &masks, name);
    let more = desk.said().len().wrapping_sub(before);
    check_number(rt, more, said.len(), name);
    check(rt, desk.said().ends_with(said.as_bytes()), name);
    Ok(())
}

// The desk of the run of these lanes, which also holds the other table.
fn desk_after_run(
    rt: &(impl Threads + Wait + Abort + Sync),
    alloc: Global,
    lanes: &str,
    other: &str,
    name: &str,
) -> Result<MemoryDesk, Fail> {
    let rows = format!(in alloc; "{HEAD}{NORTH}{lanes}")?;
    let mut desk = run_desk(alloc, &rows, READINGS, Vec::new(alloc))?;
    check_status(rt, alloc, RUN, &mut desk, 0, name)?;
    desk.place("other.csv", other.as_bytes())?;
    Ok(desk)
}

// Looks for no masks file, and for no more that was said.
fn check_unmoved(rt: &impl Abort, desk: &MemoryDesk, name: &str, before: usize) {
    check_text(rt, held(desk, "masks.txt"), "nothing", name);
    check_number(rt, desk.said().len(), before, name);
}

// Compares at the desk, and looks for the moved words, or for what is complained.
fn check_case(
    rt: &(impl Threads + Wait + Abort + Sync),
    alloc: Global,
    verb: &str,
    words: &str,
    desk: &mut MemoryDesk,
    case: (&str, u8, &str, u32),
) -> Result<(), Fail> {
    let (name, status, text, moved) = case;
    let before = desk.said().len();
    if status == 0 {
        check_status(rt, alloc, words, desk, 0, name)?;
        return check_moved(rt, alloc, desk, name, verb, text, moved, before);
    }
    check_refused(
        rt,
        alloc,
        words,
        desk,
        Refusal {
            status,
            complaint: text,
        },
        name,
    )?;
    check_unmoved(rt, desk, name, before);
    Ok(())
}

#[test]
fn twins(rt: HostRuntime) -> Result<(), Fail> {
    let alloc = rt.alloc();
    for case in TWINS.iter() {
        let (name, lanes, other, status, text, moved) = *case;
        let mut desk = desk_after_run(&rt, alloc, lanes, other, name)?;
        let case = (name, status, text, moved);
        check_case(&rt, alloc, "twin", TWIN, &mut desk, case)?;
    }
    Ok(())
}

// Each row: its name, the known meters, the lane rows of the run, the other table, the status, and what is complained, or the
// lines of the masks file and the number of them that is said.
static POOLS: [(&str, &str, &str, &str, u8, &str, u32); 22] = [
    (
        "against nobody, as twin",
        "-",
        "",
        "north,0,15,15,30\n",
        0,
        "pair,0,0,0,1,903df1a0ade0b876,903df1a0ade0b871\n",
        1,
    ),
    (
        "the two others change places",
        "0.2",
        "",
        "north,0,20,10,30\n",
        0,
        "pair,0,0,0,1,903df1a0ade0b876,903df1a0ade0b86c\n",
        1,
    ),
    (
        "the chain goes round a known meter",
        "0.1",
        "",
        "north,0,15,20,25\n",
        0,
        "pair,0,0,0,2,903df1a0ade0b876,903df1a0ade0b871\n",
        1,
    ),
    (
        "all are known",
        "0.0+0.1+0.2",
        "",
        "north,0,10,20,30\n",
        0,
        "",
        0,
    ),
    (
        "a known reading differs",
        "0.0",
        "",
        "north,0,15,15,30\n",
        8,
        "known 0 0 0",
        0,
    ),
    (
        "presence before known readings",
        "0.0",
        "",
        "north,0,15,15,\n",
        8,
        "presence 0 0 2",
        0,
    ),
    (
        "the first known reading of two",
        "0.1+0.2",
        "",
        "north,0,10,21,29\n",
        8,
        "known 0 0 1",
        0,
    ),
    (
        "known readings before totals",
        "0.2",
        "",
        "north,0,11,20,31\n",
        8,
        "known 0 0 2",
        0,
    ),
    (
        "a total of the others",
        "0.2",
        "",
        "north,0,10,21,30\n",
        8,
        "total 0 0 30 31",
        0,
    ),
    (
        "two meters know the last one's reading",
        "0.0+0.1",
        "",
        "north,0,10,20,31\n",
        8,
        "total 0 0 30 31",
        0,
    ),
    (
        "no total: twin moves words",
        "-",
        DEAF,
        "north,0,1,2,3\n",
        0,
        "own,0,0,2,903df1a0ade0b876,903df1a0ade0b8ac\npair,0,0,0,1,903df1a0ade0b876,903df1a0ade0b87f\npair,0,0,1,2,903df1a0ade0b876,903df1a0ade0b891\n",
        3,
    ),
    (
        "no total, and the meter that kept silent learns the sum of the others",
        "0.2",
        DEAF,
        "north,0,1,2,30\n",
        8,
        "total 0 0 30 3",
        0,
    ),
    (
        "and nothing else of them",
        "0.2",
        DEAF,
        "north,0,15,15,30\n",
        0,
        "pair,0,0,0,1,903df1a0ade0b876,903df1a0ade0b871\n",
        1,
    ),
    (
        "two meters and a silent one",
        "0.0+0.1",
        DEAF,
        "north,0,10,20,5\n",
        0,
        "own,0,0,2,903df1a0ade0b876,903df1a0ade0b88f\n",
        1,
    ),
    (
        "a meter past the last",
        "0.3",
        "",
        "north,0,10,20,30\n",
        5,
        "plan.csv row 0: Key Range",
        0,
    ),
    (
        "a group past the last",
        "0.0+1.0",
        "",
        "north,0,10,20,30\n",
        5,
        "plan.csv row 0: Key Range",
        0,
    ),
    (
        "the greatest place",
        "0.2+255.255",
        "",
        "north,0,10,20,30\n",
        5,
        "plan.csv row 0: Key Range",
        0,
    ),
    (
        "a place before a bad table",
        "0.3",
        "",
        "north,0,10,20\n",
        5,
        "plan.csv row 0: Key Range",
        0,
    ),
    (
        "a bad table before totals",
        "0.2",
        "",
        "north,0,10,20\n",
        6,
        "other.csv row 1: Fields",
        0,
    ),
    (
        "a known meter without a reading",
        "0.2",
        "lane,rules,0.0.r.2=-,0,35\n",
        "north,0,15,15,30\n",
        0,
        "pair,0,0,0,1,903df1a0ade0b876,903df1a0ade0b871\n",
        1,
    ),
    (
        "and its reading, which came nowhere",
        "0.2",
        "lane,rules,0.0.r.2=-,0,35\n",
        "north,0,15,15,29\n",
        8,
        "known 0 0 2",
        0,
    ),
    (
        "a silent meter among the others",
        "0.0",
        DEAF,
        "north,0,10,1,2\n",
        0,
        "own,0,0,2,903df1a0ade0b876,903df1a0ade0b8a5\npair,0,0,1,2,903df1a0ade0b876,903df1a0ade0b889\n",
        2,
    ),
];

#[test]
fn pools(rt: HostRuntime) -> Result<(), Fail> {
    let alloc = rt.alloc();
    for case in POOLS.iter() {
        let (name, known, lanes, other, status, text, moved) = *case;
        let mut desk = desk_after_run(&rt, alloc, lanes, other, name)?;
        let words = format!(in alloc;
            "pooled {known} plan.csv readings.csv other.csv t.txt masks.txt"
        )?;
        let case = (name, status, text, moved);
        check_case(&rt, alloc, "pooled", &words, &mut desk, case)?;
    }
    Ok(())
}

// A desk that holds the files of the plain case and another table that agrees with its readings, and fails these calls.
fn desk_of(alloc: Global, failing: Vec<u64>) -> Result<MemoryDesk, Fail> {
    let rows = format!(in alloc; "{HEAD}{NORTH}")?;
    let mut desk = run_desk(alloc, &rows, READINGS, failing)?;
    desk.place("other.csv", b"north,0,15,15,30\n")?;
    desk.place("t.txt", PLAIN.as_bytes())?;
    Ok(desk)
}

// Each row: its name, the file, what stands in it, what stands there in its place, the status, and the complaint.
static REFUSED: [(&str, &str, &str, &str, u8, &str); 13] = [
    (
        "a bad plan",
        "plan.csv",
        "north,3,2",
        "north,3,x",
        5,
        "plan.csv row 4: Number",
    ),
    (
        "bad readings",
        "readings.csv",
        "10,20,30",
        "10,20",
        6,
        "readings.csv row 1: Fields",
    ),
    (
        "another bad table",
        "other.csv",
        "15,15,30",
        "15,15",
        6,
        "other.csv row 1: Fields",
    ),
    (
        "a transcript cut short",
        "t.txt",
        "end,20\n",
        "",
        7,
        "t.txt line 26: NoEnd",
    ),
    (
        "a transcript of version 1",
        "t.txt",
        "transcript 2",
        "transcript 1",
        7,
        "t.txt line 1: Head",
    ),
    (
        "another plan",
        "plan.csv",
        "windows,1,2",
        "windows,1,3",
        7,
        "t.txt: other plan",
    ),
    (
        "readings_changed_after_run",
        "readings.csv",
        "10,20,30",
        "11,20,30",
        7,
        "t.txt line 6: expected 0,s,0,0,r,0,1,4d02010000000000000000000000000000000000000000000000000000000000000000000000000000000000b0b9d4e209a2296d",
    ),
    (
        "a word before another total",
        "readings.csv",
        "10,20,30",
        "10,20,31",
        7,
        "t.txt line 8: expected 0,s,0,0,r,2,1,4d020102000000000000000000000000000000000000000000000000000000000000000000000000000000006fc20e5f521f47a9",
    ),
    (
        "an absent reading was sent",
        "readings.csv",
        "10,20,30",
        "10,20,",
        7,
        "t.txt line 8: expected 0,s,0,0,r,2,-,void",
    ),
    (
        "a reading isn't in the transcript",
        "t.txt",
        "1,4d020102000000000000000000000000000000000000000000000000000000000000000000000000000000006fc20e5f521f47a8",
        "-,void",
        7,
        "t.txt line 8: expected 0,s,0,0,r,2,-,4d020102000000000000000000000000000000000000000000000000000000000000000000000000000000006fc20e5f521f47a8",
    ),
    (
        "again for fresh",
        "t.txt",
        "1,t,0,0,r,0,fresh",
        "1,t,0,0,r,0,again",
        7,
        "t.txt line 9: expected 1,t,0,0,r,0,fresh",
    ),
    (
        "another set announced, which changes no later line that is due",
        "t.txt",
        "1,c,0,0,announced,-",
        "1,c,0,0,announced,2",
        7,
        "t.txt line 12: expected 1,c,0,0,announced,-",
    ),
    (
        "another total",
        "t.txt",
        "3,e,0,0,total,60",
        "3,e,0,0,total,61",
        7,
        "t.txt line 25: expected 3,e,0,0,total,60",
    ),
];

#[test]
fn twins_refused(rt: HostRuntime) -> Result<(), Fail> {
    let alloc = rt.alloc();
    for case in REFUSED.iter() {
        let (name, file, there, instead, status, complaint) = *case;
        let mut desk = desk_of(alloc, Vec::new(alloc))?;
        let text = replaced(alloc, held(&desk, file), there, instead)?;
        desk.place(file, text.as_bytes())?;
        check_refused(
            &rt,
            alloc,
            TWIN,
            &mut desk,
            Refusal { status, complaint },
            name,
        )?;
        check_calls(&rt, &desk, 5, name);
        check_stored(&rt, &desk, "masks.txt", false, name);
    }
    Ok(())
}

// Each row: the failing call, the status, the complaint, and whether the masks file is stored.
static FAILURES: [(u64, u8, &str, bool); 6] = [
    (0, 3, "cannot read plan.csv", false),
    (1, 3, "cannot read readings.csv", false),
    (2, 3, "cannot read other.csv", false),
    (3, 3, "cannot read t.txt", false),
    (4, 4, "cannot write masks.txt", false),
    (5, 4, "cannot print", true),
];

// Asks for the twin of the plain case at a desk that fails this call.
fn check_failing_call(
    rt: &(impl Threads + Wait + Abort + Sync),
    alloc: Global,
    failing: u64,
    status: u8,
    complaint: &str,
    stored: bool,
) -> Result<(), Fail> {
    let mut desk = desk_of(alloc, vec![in alloc; failing]?)?;
    check_refused(
        rt,
        alloc,
        TWIN,
        &mut desk,
        Refusal { status, complaint },
        complaint,
    )?;
    check_stored(rt, &desk, "masks.txt", stored, complaint);
    check_said(rt, &desk, "", complaint);
    Ok(())
}

#[test]
fn failing_calls_of_twin(rt: HostRuntime) -> Result<(), Fail> {
    for case in FAILURES.iter() {
        let (failing, status, complaint, stored) = *case;
        check_failing_call(&rt, rt.alloc(), failing, status, complaint, stored)?;
    }
    Ok(())
}
