//! Worked runs, with their reports, summaries and transcripts, and what their workers do.

use crate::fixtures::{
    HEAD, NORTH, READINGS, RUN, check, check_complained, check_ended, check_number, check_said,
    check_status, check_text, desk_of, held, status_at_desk,
};
use collector_workers::Gate;
use desk_outside::{DeskCall, DeskKind, MemoryDesk};
use row_fixtures::PLAIN;
use std::alloc::Global;
use std::process::Abort;
use std::sync::Wait;
use std::sync::atomic::{AtomicU64, Ordering};
use std::test::Fail;
use std::thread::Threads;

const HEADING: &str = "group,round,survivors,missing,outcome,total\n";

// The calls of a run.
static CALLS: [DeskKind; 5] = [
    DeskKind::Fetch,
    DeskKind::Fetch,
    DeskKind::Put,
    DeskKind::Put,
    DeskKind::Say,
];

// Looks for the calls of a run, none of which failed.
fn check_kinds(rt: &impl Abort, calls: &[DeskCall]) {
    check_number(rt, calls.len(), CALLS.len(), "the calls");
    for (call, kind) in calls.iter().zip(CALLS.iter()) {
        check(rt, call.kind == *kind && !call.failed, "a call");
    }
}

#[test]
fn three_meters_total_60(rt: HostRuntime) -> Result<(), Fail> {
    let alloc = rt.alloc();
    let rows = format!(in alloc; "{HEAD}{NORTH}")?;
    let mut desk = desk_of(alloc, &rows, READINGS, Vec::new(alloc))?;
    check_status(&rt, alloc, RUN, &mut desk, 0, RUN)?;
    check_text(&rt, held(&desk, "t.txt"), PLAIN, RUN);
    check_complained(&rt, &desk, "", RUN);
    check_kinds(&rt, desk.calls());
    Ok(())
}

// Each row: its name, the rows before the group, those after the keys, the readings, the report, the said counts, and a
// line of the transcript.
static RUNS: [(&str, &str, &str, &str, &str, &str, &str); 15] = [
    (
        "three_meters_total_60",
        HEAD,
        "",
        READINGS,
        "north,0,3,-,total,60\n",
        "rounds=1 totals=1 none=0 thin=0 sends=9 takes=9",
        "3,e,0,0,total,60",
    ),
    (
        "three_zero_readings",
        HEAD,
        "",
        "north,0,0,0,0\n",
        "north,0,3,-,total,0\n",
        "rounds=1 totals=1 none=0 thin=0 sends=9 takes=9",
        "3,e,0,0,total,0",
    ),
    (
        "absent_reading_recovered",
        HEAD,
        "",
        "north,0,10,20,\n",
        "north,0,2,2,total,30\n",
        "rounds=1 totals=1 none=0 thin=0 sends=6 takes=6",
        "1,c,0,0,announced,2",
    ),
    (
        "one_reading_is_thin",
        HEAD,
        "",
        "north,0,10,,\n",
        "north,0,1,1+2,thin,\n",
        "rounds=1 totals=0 none=0 thin=1 sends=1 takes=1",
        "1,c,0,0,thin,1+2",
    ),
    (
        "late_reading_left_out",
        HEAD,
        "lane,rules,0.0.r.2=2,0,0\n",
        READINGS,
        "north,0,2,2,total,30\n",
        "rounds=1 totals=1 none=0 thin=0 sends=7 takes=7",
        "2,t,0,0,r,2,late",
    ),
    (
        "lost_answer_gives_none",
        HEAD,
        "lane,rules,0.0.a.1=-,0,35\n",
        READINGS,
        "north,0,3,-,none,\n",
        "rounds=1 totals=0 none=1 thin=0 sends=9 takes=8",
        "3,e,0,0,none,1",
    ),
    (
        "lost_announcement_gives_none",
        HEAD,
        "lane,rules,0.0.m.1=-,0,35\n",
        READINGS,
        "north,0,3,-,none,\n",
        "rounds=1 totals=0 none=1 thin=0 sends=8 takes=7",
        "3,e,0,0,none,1",
    ),
    (
        "repeated_reading_counts_once",
        HEAD,
        "lane,rules,0.0.r.0=1+3,0,0\n",
        READINGS,
        "north,0,3,-,total,60\n",
        "rounds=1 totals=1 none=0 thin=0 sends=9 takes=10",
        "3,t,0,0,r,0,again",
    ),
    (
        "second_answer_too_late",
        HEAD,
        "lane,rules,0.0.m.1=1+2,1,1\nlane,rules,0.0.a.1=-,2,2\n",
        READINGS,
        "north,0,3,-,none,\n",
        "rounds=1 totals=0 none=1 thin=0 sends=10 takes=10",
        "4,t,0,0,a,1,late",
    ),
    (
        "second_answer_in_time",
        "rounds,1\nwindows,1,3\n",
        "lane,rules,0.0.m.1=1+2,1,1\nlane,rules,0.0.a.1=-,2,2\n",
        READINGS,
        "north,0,3,-,total,60\n",
        "rounds=1 totals=1 none=0 thin=0 sends=10 takes=10",
        "4,t,0,0,a,1,fresh",
    ),
    (
        "three_rounds_in_progress",
        "rounds,3\nwindows,2,2\n",
        "lane,rules,0.0.r.1=2,0,0\n",
        "north,0,10,20,30\nnorth,1,1,2,3\nnorth,2,100,200,300\n",
        "north,0,3,-,total,60\nnorth,1,3,-,total,6\nnorth,2,3,-,total,600\n",
        "rounds=3 totals=3 none=0 thin=0 sends=27 takes=27",
        "4,e,0,0,total,60",
    ),
    (
        "burst_over_the_run",
        HEAD,
        "lane,burst,2:1,0,35\n",
        READINGS,
        "north,0,2,2,none,\n",
        "rounds=1 totals=0 none=1 thin=0 sends=7 takes=5",
        "1,c,0,0,announced,2",
    ),
    (
        "burst_over_tick_0",
        HEAD,
        "lane,burst,2:1,0,0\n",
        READINGS,
        "north,0,2,2,total,30\n",
        "rounds=1 totals=1 none=0 thin=0 sends=7 takes=6",
        "3,e,0,0,total,30",
    ),
    (
        "meter_joins_in_round_1",
        "rounds,2\nwindows,1,2\n",
        "member,0,2,1,2\n",
        "north,0,10,20,\nnorth,1,1,2,3\n",
        "north,0,2,-,total,30\nnorth,1,3,-,total,6\n",
        "rounds=2 totals=2 none=0 thin=0 sends=15 takes=15",
        "member,0,2,1,2",
    ),
    (
        "one_member_is_thin",
        "rounds,2\nwindows,1,2\n",
        "member,0,2,1,2\nmember,0,1,1,2\n",
        "north,0,10,,\nnorth,1,1,2,3\n",
        "north,0,1,-,thin,\nnorth,1,3,-,total,6\n",
        "rounds=2 totals=1 none=0 thin=1 sends=10 takes=10",
        "1,c,0,0,thin,-",
    ),
];

// Lets each worker through; a few meters are enough for one.
struct Each;

impl Gate for Each {
    fn at(&self, _worker: u32) {}
}

// Runs the program on these files with so many workers, and looks for the report, what was said, and a line of the transcript.
fn check_run(
    rt: &(impl Threads + Wait + Abort + Sync),
    alloc: Global,
    name: &str,
    rows: &str,
    readings: &str,
    workers: &str,
    report: &str,
    said: &str,
    line: &str,
) -> Result<(), Fail> {
    let words = format!(in alloc; "{RUN} {workers}")?;
    let mut desk = desk_of(alloc, rows, readings, Vec::new(alloc))?;
    let ended = status_at_desk(rt, alloc, &words, &mut desk, &Each)?;
    check_ended(rt, ended, 0, name);
    check_text(rt, held(&desk, "report.csv"), report, name);
    check_said(rt, &desk, said, name);
    check(rt, held(&desk, "t.txt").contains(line), name);
    check_complained(rt, &desk, "", name);
    Ok(())
}

#[test]
fn runs_by_their_lanes(rt: HostRuntime) -> Result<(), Fail> {
    let alloc = rt.alloc();
    for case in RUNS.iter() {
        let (name, head, tail, readings, report, said, line) = *case;
        let rows = format!(in alloc; "{head}{NORTH}{tail}")?;
        let report = format!(in alloc; "{HEADING}{report}")?;
        let said = format!(in alloc; "{said}\n")?;
        let line = format!(in alloc; "\n{line}\n")?;
        check_run(
            &rt, alloc, name, &rows, readings, "1", &report, &said, &line,
        )?;
        check_run(
            &rt, alloc, name, &rows, readings, "2", &report, &said, &line,
        )?;
        check_run(
            &rt, alloc, name, &rows, readings, "16", &report, &said, &line,
        )?;
    }
    Ok(())
}

// The rows of a group of so many meters with all their keys.
fn group_rows(alloc: Global, meters: u32) -> Result<String, Fail> {
    let mut rows = format!(in alloc; "{HEAD}group,north,{meters},2\n")?;
    for meter in 0..meters {
        rows.push_str(&format!(in alloc; "own,0,{meter},Z\n")?)?;
        for higher in meter + 1..meters {
            rows.push_str(&format!(in alloc; "pair,0,{meter},{higher},Z\n")?)?;
        }
    }
    Ok(rows)
}

// A row of readings of the greatest number of watt-hours.
fn greatest_row(alloc: Global, meters: u32) -> Result<String, Fail> {
    let mut readings = String::from_str(alloc, "north,0")?;
    for _ in 0..meters {
        readings.push_str(",1099511627775")?;
    }
    Ok(readings)
}

// Runs so many meters with the greatest readings, and looks for this row of the report.
fn check_greatest(
    rt: &(impl Threads + Wait + Abort + Sync),
    alloc: Global,
    meters: u32,
    row: &str,
) -> Result<(), Fail> {
    let rows = group_rows(alloc, meters)?;
    let readings = greatest_row(alloc, meters)?;
    let mut desk = desk_of(alloc, &rows, &readings, Vec::new(alloc))?;
    check_status(rt, alloc, RUN, &mut desk, 0, row)?;
    let wanted = format!(in alloc; "{HEADING}{row}")?;
    check_text(rt, held(&desk, "report.csv"), &wanted, row);
    Ok(())
}

// Rows `sixty_four_greatest_readings` and `two_hundred_fifty_six_greatest_readings`.
#[test]
fn greatest_readings(rt: HostRuntime) -> Result<(), Fail> {
    check_greatest(&rt, rt.alloc(), 64, "north,0,64,-,total,70368744177600\n")?;
    check_greatest(
        &rt,
        rt.alloc(),
        256,
        "north,0,256,-,total,281474976710400\n",
    )
}

// Holds workers 1 and 2 at their first calls until both have come, for a bounded number of turns.
#[derive(Drop)]
pub struct Meeting {
    came: [AtomicU64; 2],
    late: AtomicU64,
}

impl Gate for Meeting {
    fn at(&self, worker: u32) {
        if worker != 1 && worker != 2 {
            return;
        }
        let (mine, other) = if worker == 1 {
            (&self.came[0], &self.came[1])
        } else {
            (&self.came[1], &self.came[0])
        };
        if mine.fetch_add(1, Ordering::SeqCst) > 0 {
            return;
        }
        for _ in 0..1_000_000_000u32 {
            if other.load(Ordering::SeqCst) > 0 {
                return;
            }
        }
        self.late.fetch_add(1, Ordering::SeqCst);
    }
}

impl Meeting {
    /// Nobody has come.
    pub fn new() -> Meeting {
        Meeting {
            came: [AtomicU64::new(0), AtomicU64::new(0)],
            late: AtomicU64::new(0),
        }
    }

    /// Whether both came, and neither waited in vain.
    pub fn has_met(&self) -> bool {
        self.came[0].load(Ordering::SeqCst) > 0
            && self.came[1].load(Ordering::SeqCst) > 0
            && self.late.load(Ordering::SeqCst) == 0
    }
}

const MAKE: &str = "make 7 5 8 12 plan.csv readings.csv";

// A desk with a made plan of five groups, and readings of it.
fn made_desk(rt: &(impl Threads + Wait + Abort + Sync), alloc: Global) -> Result<MemoryDesk, Fail> {
    let mut desk = MemoryDesk::new(Vec::new(alloc));
    check_status(rt, alloc, MAKE, &mut desk, 0, MAKE)?;
    Ok(desk)
}

#[test]
fn run_commits_cross(rt: HostRuntime) -> Result<(), Fail> {
    let alloc = rt.alloc();
    let gate = Meeting::new();
    let words = format!(in alloc; "{RUN} 2")?;
    let mut desk = made_desk(&rt, alloc)?;
    let ended = status_at_desk(&rt, alloc, &words, &mut desk, &gate)?;
    check_ended(&rt, ended, 0, &words);
    check(&rt, gate.has_met(), "the meeting");
    Ok(())
}

// More workers than one, than groups, and than there are.
static WORKERS: [&str; 4] = ["2", "3", "4", "16"];

// The transcript is the same bytes for each number of workers.
#[test]
fn workers_make_one_transcript(rt: HostRuntime) -> Result<(), Fail> {
    let alloc = rt.alloc();
    let words = format!(in alloc; "{RUN} 1")?;
    let mut alone = made_desk(&rt, alloc)?;
    let ended = status_at_desk(&rt, alloc, &words, &mut alone, &Each)?;
    check_ended(&rt, ended, 0, &words);
    for workers in WORKERS.iter() {
        let words = format!(in alloc; "{RUN} {workers}")?;
        let mut desk = made_desk(&rt, alloc)?;
        let ended = status_at_desk(&rt, alloc, &words, &mut desk, &Each)?;
        check_ended(&rt, ended, 0, &words);
        check_text(&rt, held(&desk, "t.txt"), held(&alone, "t.txt"), &words);
    }
    Ok(())
}

/// Keeps the greatest number of a worker that came.
#[derive(Drop)]
pub struct Greatest {
    worker: AtomicU64,
}

impl Gate for Greatest {
    fn at(&self, worker: u32) {
        self.worker.fetch_max(u64::from(worker), Ordering::SeqCst);
    }
}

impl Greatest {
    /// Nobody has come.
    pub fn new() -> Greatest {
        Greatest {
            worker: AtomicU64::new(0),
        }
    }

    /// The greatest number, or 0 where nobody came.
    pub fn number(&self) -> usize {
        self.worker.load(Ordering::SeqCst) as usize
    }
}

// A run with one worker has no second one, whatever a run has where no number is given.
#[test]
fn one_worker_works_alone(rt: HostRuntime) -> Result<(), Fail> {
    let alloc = rt.alloc();
    let gate = Greatest::new();
    let words = format!(in alloc; "{RUN} 1")?;
    let mut desk = made_desk(&rt, alloc)?;
    let ended = status_at_desk(&rt, alloc, &words, &mut desk, &gate)?;
    check_ended(&rt, ended, 0, &words);
    check_number(&rt, gate.number(), 1, "the greatest worker");
    Ok(())
}
