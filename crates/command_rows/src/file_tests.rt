//! Commands over real files: a name that can't be written is found before the run.

use crate::fixtures::{check_ended, check_number, empty_wire, status_of};
use crate::run_tests::Greatest;
use collector_workers::Free;
use commands::Outside;
use file_desk::FileDesk;
use std::fs;
use std::test::Fail;

const MAKE: &str = "make 7 2 4 8 files/plan files/readings";

// Each row: the words, the status, and the greatest number of a worker of the run, which is 0 where nothing is run.
static COMMANDS: [(&str, u8, usize); 7] = [
    (
        "run files/plan files/readings files/report absent/transcript 1",
        4,
        0,
    ),
    (
        "run files/plan files/readings absent/report files/transcript 1",
        4,
        0,
    ),
    (
        "run files/plan files/readings files/report ./files/report 1",
        4,
        0,
    ),
    (
        "run files/plan files/readings files/report ./files/plan 1",
        4,
        0,
    ),
    ("load 7 2 4 8 1 absent/transcript", 4, 0),
    ("load 7 2 4 8 1 files/transcript", 0, 1),
    (
        "run files/plan files/readings files/report files/transcript 1",
        0,
        1,
    ),
];

#[test]
fn names_that_cannot_be_written_cost_no_run(rt: HostRuntime) -> Result<(), Fail> {
    let alloc = rt.alloc();
    fs::create_dir(&rt, "files")?;
    let mut outside = Outside {
        desk: FileDesk::new(&rt),
        wire: empty_wire(alloc),
    };
    let ended = status_of(&rt, alloc, MAKE, &mut outside, &Free)?;
    check_ended(&rt, ended, 0, MAKE);
    for (words, status, worker) in COMMANDS.iter() {
        let gate = Greatest::new();
        let mut outside = Outside {
            desk: FileDesk::new(&rt),
            wire: empty_wire(alloc),
        };
        let ended = status_of(&rt, alloc, words, &mut outside, &gate)?;
        check_ended(&rt, ended, *status, words);
        check_number(&rt, gate.number(), *worker, words);
    }
    fs::remove_dir_all(&rt, "files")?;
    Ok(())
}
