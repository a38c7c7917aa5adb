//! A meter of the plain case over a wire in memory.

use crate::wires::{ANNOUNCED_TO_0, ANSWER_OF_0, READING_OF_0, check, said, text};
use apart_lines::meter_journal_head;
use apart_roles::{Start, run_meter, start_meter};
use desk_outside::MemoryWire;
use meter_apart::{MeterKeys, Part};
use row_fixtures::plan_of_north;
use std::alloc::Global;
use std::process::Abort;
use std::test::Fail;

// The keys of meter 0 of the plain case, all zero.
fn keys_of_meter_0(alloc: Global) -> Result<MeterKeys, Fail> {
    let part = Part::new(plan_of_north(alloc, 1)?, 0, 0).ok_or("no part")?;
    let pairs = vec![in alloc; Some([0; 32]); 3]?;
    Ok(MeterKeys::new(part, [0; 32], pairs).ok_or("no keys")?)
}

// The journal with these lines behind its head.
fn journal(alloc: Global, lines: &[&str]) -> Result<Vec<u8>, Fail> {
    let keys = keys_of_meter_0(alloc)?;
    let mut journal = meter_journal_head(alloc, keys.part())?;
    journal.extend_from_slice(&text(alloc, lines)?)?;
    Ok(journal)
}

// Starts the meter over the wire and hands it the input; whether no call fails.
fn run(alloc: Global, wire: &mut MemoryWire) -> Result<bool, Fail> {
    match start_meter(alloc, wire, "m0.journal", keys_of_meter_0(alloc)?) {
        Ok(Start::Ready(mut meter)) => Ok(run_meter(alloc, wire, &mut meter).is_ok()),
        Ok(_) => Ok(false),
        Err(_) => Ok(false),
    }
}

// Asks what the meter with this journal says to this input, and what its journal has then.
fn check_course(
    rt: &impl Abort,
    alloc: Global,
    before: &[&str],
    input: &[&str],
    expected: &[&str],
    after: &[&str],
    row: &str,
) -> Result<(), Fail> {
    let mut wire = MemoryWire::new(
        Vec::new(alloc),
        text(alloc, input)?,
        journal(alloc, before)?,
    );
    check(rt, run(alloc, &mut wire)?, row);
    check(rt, said(alloc, &wire)? == text(alloc, expected)?, row);
    check(rt, wire.journal() == journal(alloc, after)?.as_slice(), row);
    Ok(())
}

#[test]
fn meter_alone(rt: HostRuntime) -> Result<(), Fail> {
    check_course(
        &rt,
        rt.alloc(),
        &[],
        &["reading,0,10\n", ANNOUNCED_TO_0],
        &["\nready\n", READING_OF_0, ANSWER_OF_0],
        &["r,0,10\ns,0,-\n"],
        "meter_alone",
    )
}

#[test]
fn second_set_refused(rt: HostRuntime) -> Result<(), Fail> {
    let other =
        "frame,4d020200000000000000000000000000000000000000000000000000000000000000000000000000000000020000000000000000\n";
    check_course(
        &rt,
        rt.alloc(),
        &["r,0,10\ns,0,-\n"],
        &[other],
        &["\nready\nrefused,OtherSet\n"],
        &["r,0,10\ns,0,-\n"],
        "second_set_refused",
    )
}

#[test]
fn reading_changed(rt: HostRuntime) -> Result<(), Fail> {
    check_course(
        &rt,
        rt.alloc(),
        &["r,0"],
        &["reading,0,10\nreading,0,11\nreading,0,10\nfresh\n\nnothing\nreading,1,1\nrest"],
        &[
            "\nready\n",
            READING_OF_0,
            "refused,Twice\n",
            READING_OF_0,
            "refused,Line\nrefused,Round\n",
        ],
        &["r,0,10\n"],
        "reading_changed",
    )
}

#[test]
fn started_again(rt: HostRuntime) -> Result<(), Fail> {
    check_course(
        &rt,
        rt.alloc(),
        &["r,0,10\n"],
        &["reading,0,11\n"],
        &["\nready\nrefused,Twice\n"],
        &["r,0,10\n"],
        "started again",
    )
}

#[test]
fn each_call_fails(rt: HostRuntime) -> Result<(), Fail> {
    let alloc = rt.alloc();
    for number in 0..12u64 {
        let mut failing = Vec::new(alloc);
        failing.push(number)?;
        let input = text(alloc, &["reading,0,10\n"])?;
        let mut wire = MemoryWire::new(failing, input, journal(alloc, &[])?);
        check(
            &rt,
            run(alloc, &mut wire)? == (number > 10),
            "a failed call",
        );
    }
    Ok(())
}
