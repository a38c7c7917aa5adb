//! The commands `make` and `load`: made files that are run and audited, and sizes that are refused.

use crate::fixtures::{
    Refusal, check, check_complained, check_ended, check_number, check_refused, check_said,
    check_status, check_stored, held, status_at_desk,
};
use crate::run_tests::{Greatest, Meeting};
use collector_workers::{Free, Gate};
use desk_outside::MemoryDesk;
use event_schedule::Line;
use std::alloc::Global;
use std::process::Abort;
use std::sync::Wait;
use std::test::Fail;
use std::thread::Threads;
use transcript_text::read;

const SUMMARY: &str = "rounds=768 totals=632 none=136 thin=0 sends=45025 takes=45251\n";

// Each row: the words, and what they say. The summary is the same at each run, with each number of workers, and of `load`.
static MADE: [(&str, &str); 9] = [
    ("make 7 8 20 96 p.csv r.csv", "made: readings=15360\n"),
    ("run p.csv r.csv report.csv t.txt", SUMMARY),
    ("audit t.txt report.csv", "audit: rows=768 totals=632\n"),
    ("run p.csv r.csv report.csv t.txt 1", SUMMARY),
    ("run p.csv r.csv report.csv t.txt 16", SUMMARY),
    ("audit t.txt report.csv", "audit: rows=768 totals=632\n"),
    ("load 7 8 20 96 4", SUMMARY),
    ("load 7 8 20 96 1 t.txt", SUMMARY),
    ("audit t.txt report.csv", "audit: rows=768 totals=632\n"),
];

#[test]
fn made_run_audited(rt: HostRuntime) -> Result<(), Fail> {
    let alloc = rt.alloc();
    let mut desk = MemoryDesk::new(Vec::new(alloc));
    let mut said = String::new(alloc);
    for (words, line) in MADE.iter() {
        check_status(&rt, alloc, words, &mut desk, 0, words)?;
        said.push_str(line)?;
        check_said(&rt, &desk, &said, words);
    }
    check_complained(&rt, &desk, "", "the end");
    Ok(())
}

// The numbers of Sends with a frame and of Takes in the text of a transcript.
fn sends_and_takes<R: Threads + Sync>(
    rt: &R,
    alloc: Global,
    text: &str,
) -> Result<(usize, usize), Fail> {
    let Ok(transcript) = read(rt, alloc, text.as_bytes()) else {
        return Err(Fail::new("no transcript"));
    };
    let mut sends = 0_usize;
    let mut takes = 0_usize;
    for at in 0..transcript.len() {
        match transcript.entry(at).line {
            Line::Send { frame: Some(_), .. } => sends = sends.saturating_add(1),
            Line::Take { .. } => takes = takes.saturating_add(1),
            _ => {}
        }
    }
    Ok((sends, takes))
}

#[test]
fn run_commits_cross_in_load(rt: HostRuntime) -> Result<(), Fail> {
    let alloc = rt.alloc();
    let gate = Meeting::new();
    let mut desk = MemoryDesk::new(Vec::new(alloc));
    let words = "load 7 8 20 96 2 t.txt";
    let ended = status_at_desk(&rt, alloc, words, &mut desk, &gate)?;
    check_ended(&rt, ended, 0, words);
    check(&rt, gate.has_met(), "the meeting");
    let (sends, takes) = sends_and_takes(&rt, alloc, held(&desk, "t.txt"))?;
    check_number(&rt, sends, 45025, "sends");
    check_number(&rt, takes, 45251, "takes");
    Ok(())
}

// Keeps the greatest number of a worker that came, with the limits of the program's own gate but for the number of threads.
#[derive(Drop)]
struct Counted {
    greatest: Greatest,
    most: usize,
}

impl Gate for Counted {
    fn at(&self, worker: u32) {
        self.greatest.at(worker);
    }

    fn beside(&self) -> usize {
        Free.beside()
    }

    fn most(&self, _processors: usize) -> usize {
        self.most
    }

    fn part(&self) -> usize {
        Free.part()
    }
}

// Each row: the words, how many threads the gate allows, and the greatest number of a worker that comes to it.
static CREWS: [(&str, usize, usize); 8] = [
    ("load 7 32 64 2 4", usize::MAX, 3),
    ("load 7 32 64 2 4", 3, 3),
    ("load 7 32 64 2 4", 2, 2),
    ("load 7 32 64 2 4", 1, 1),
    ("load 7 32 64 2 4", 0, 1),
    ("load 7 32 64 2 2", usize::MAX, 2),
    ("load 7 1 64 32 4", usize::MAX, 1),
    ("load 7 8 20 4 4", usize::MAX, 1),
];

// A large plan has several workers without any test's gate, as far as the gate allows, and one of a group or of few meters has one.
#[test]
fn large_plans_have_workers(rt: HostRuntime) -> Result<(), Fail> {
    let alloc = rt.alloc();
    for (words, most, worker) in CREWS.iter() {
        let gate = Counted {
            greatest: Greatest::new(),
            most: *most,
        };
        let mut desk = MemoryDesk::new(Vec::new(alloc));
        let ended = status_at_desk(&rt, alloc, words, &mut desk, &gate)?;
        check_ended(&rt, ended, 0, words);
        check_number(&rt, gate.greatest.number(), *worker, words);
    }
    Ok(())
}

// Each row: the processors of a machine, and the threads that the program's own gate allows there.
static PROCESSORS: [(usize, usize); 6] = [(0, 0), (1, 0), (2, 0), (3, 1), (4, 2), (64, 62)];

// Two processors are left to the text of the transcript.
#[test]
fn two_processors_are_left_to_text(rt: HostRuntime) {
    for (processors, threads) in PROCESSORS.iter() {
        check_number(&rt, Free.most(*processors), *threads, "processors");
    }
}

// Each row: the words, with the least and the greatest numbers, and what is said.
static SIZES: [(&str, &str); 8] = [
    (
        "load 1 1 2 1 16",
        "rounds=1 totals=1 none=0 thin=0 sends=6 takes=7\n",
    ),
    (
        "load 1 1 2 1 1",
        "rounds=1 totals=1 none=0 thin=0 sends=6 takes=7\n",
    ),
    ("make 0 1 2 1 p.csv r.csv", "made: readings=2\n"),
    (
        "make 18446744073709551615 1 2 1 p.csv r.csv",
        "made: readings=2\n",
    ),
    ("make 1 256 2 1 p.csv r.csv", "made: readings=512\n"),
    ("make 1 1 256 1 p.csv r.csv", "made: readings=256\n"),
    ("make 1 1 2 4096 p.csv r.csv", "made: readings=8192\n"),
    ("make 1 16 2 4096 p.csv r.csv", "made: readings=131072\n"),
];

#[test]
fn sizes_at_their_limits(rt: HostRuntime) -> Result<(), Fail> {
    let alloc = rt.alloc();
    for (words, said) in SIZES.iter() {
        let mut desk = MemoryDesk::new(Vec::new(alloc));
        check_status(&rt, alloc, words, &mut desk, 0, words)?;
        check_said(&rt, &desk, said, words);
    }
    Ok(())
}

// Each row: the command, the failing call, the complaint, and whether p.csv, r.csv and t.txt are stored.
static FAILURES: [(&str, u64, &str, [bool; 3]); 6] = [
    (
        "make 1 1 2 1 p.csv r.csv",
        0,
        "cannot write p.csv",
        [false, false, false],
    ),
    (
        "make 1 1 2 1 p.csv r.csv",
        1,
        "cannot write r.csv",
        [true, false, false],
    ),
    (
        "make 1 1 2 1 p.csv r.csv",
        2,
        "cannot print",
        [true, true, false],
    ),
    ("load 1 1 2 1 1", 0, "cannot print", [false, false, false]),
    (
        "load 1 1 2 1 1 t.txt",
        0,
        "cannot write t.txt",
        [false, false, false],
    ),
    (
        "load 1 1 2 1 1 t.txt",
        1,
        "cannot print",
        [false, false, true],
    ),
];

// Runs a command at a desk that fails this call.
fn check_failing_call(
    rt: &(impl Threads + Wait + Abort + Sync),
    alloc: Global,
    words: &str,
    failing: u64,
    complaint: &str,
    stored: [bool; 3],
) -> Result<(), Fail> {
    let mut desk = MemoryDesk::new(vec![in alloc; failing]?);
    check_refused(
        rt,
        alloc,
        words,
        &mut desk,
        Refusal {
            status: 4,
            complaint,
        },
        complaint,
    )?;
    check_stored(rt, &desk, "p.csv", stored[0], complaint);
    check_stored(rt, &desk, "r.csv", stored[1], complaint);
    check_stored(rt, &desk, "t.txt", stored[2], complaint);
    Ok(())
}

#[test]
fn failing_calls_of_make_and_load(rt: HostRuntime) -> Result<(), Fail> {
    for case in FAILURES.iter() {
        let (words, failing, complaint, stored) = *case;
        check_failing_call(&rt, rt.alloc(), words, failing, complaint, stored)?;
    }
    Ok(())
}
