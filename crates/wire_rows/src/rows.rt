//! The same calls on both wires.

use desk_outside::{
    Absent, BegunFile, Coming, Desk, DeskError, MemoryWire, Readers, Slice, Wire, WireError,
};
use file_desk::{FileDesk, FileWire};
use std::alloc::Global;
use std::fmt::Debug;
use std::fs;
use std::io::Cursor;
use std::process::Abort;
use std::test::Fail;

// Looks for this value.
fn check_same<T: PartialEq + Debug>(rt: &impl Abort, came: &T, value: &T, row: &str) {
    assert_eq!(rt; came, value, "at {row}");
}

// What comes next of the input, and what is told of it.
fn check_heard(rt: &impl Abort, alloc: Global, wire: &mut impl Wire, what: Coming, text: &[u8]) {
    let mut line = Vec::new(alloc);
    check_same(rt, &wire.hear(&mut line), &Ok(what), "heard");
    check_same(rt, &line.as_slice(), &text, "the line heard");
}

// What comes next of the journal, and what is told of it.
fn check_recalled(rt: &impl Abort, alloc: Global, wire: &mut impl Wire, what: Coming, text: &[u8]) {
    let mut line = Vec::new(alloc);
    check_same(rt, &wire.recall(&mut line), &Ok(what), "recalled");
    check_same(rt, &line.as_slice(), &text, "the line recalled");
}

// Hears of a line, an empty one, a long one, a line behind that, and a rest, which stays.
fn check_lines(rt: &impl Abort, alloc: Global, wire: &mut impl Wire, long: &[u8]) {
    check_heard(rt, alloc, wire, Coming::Line, b"one");
    check_heard(rt, alloc, wire, Coming::Line, b"");
    check_heard(rt, alloc, wire, Coming::Line, long);
    check_heard(rt, alloc, wire, Coming::TooLong, long);
    check_heard(rt, alloc, wire, Coming::Line, b"two");
    check_heard(rt, alloc, wire, Coming::Rest, b"rest");
    check_heard(rt, alloc, wire, Coming::Rest, b"rest");
}

// An input with lines of 4,096 and of many more bytes, and the first 4,096 of them.
fn long_input(alloc: Global) -> Result<(Vec<u8>, Vec<u8>), Fail> {
    let long = vec![in alloc; b'x'; 4096]?;
    let mut input = Vec::from_slice(alloc, b"one\n\n")?;
    input.extend_from_slice(&long)?;
    input.push(b'\n')?;
    for _turn in 0..50 {
        input.extend_from_slice(&long)?;
    }
    input.extend_from_slice(b"\ntwo\nrest")?;
    Ok((input, long))
}

#[test]
fn lines_in_memory(rt: HostRuntime) -> Result<(), Fail> {
    let alloc = rt.alloc();
    let (input, long) = long_input(alloc)?;
    let mut wire = MemoryWire::new(Vec::new(alloc), input, Vec::new(alloc));
    check_lines(&rt, alloc, &mut wire, &long);
    Ok(())
}

#[test]
fn lines_of_a_stream(rt: HostRuntime) -> Result<(), Fail> {
    let alloc = rt.alloc();
    let (input, long) = long_input(alloc)?;
    let mut wire = FileWire::new(&rt, Cursor::new(input.as_slice()))?;
    check_lines(&rt, alloc, &mut wire, &long);
    Ok(())
}

// Opens a journal with a head, a line and a rest, cuts the rest off and appends a line.
fn check_journal(rt: &impl Abort, alloc: Global, wire: &mut impl Wire) -> Result<(), WireError> {
    let front = wire.open(alloc, "wire_test/journal", Absent::Refused, 5)?;
    check_same(rt, &front.as_slice(), &b"head\n".as_slice(), "the head");
    check_recalled(rt, alloc, wire, Coming::Line, b"t");
    check_recalled(rt, alloc, wire, Coming::Rest, b"f,0");
    wire.trim()?;
    wire.append(b"t\n")?;
    wire.flush()?;
    check_recalled(rt, alloc, wire, Coming::End, b"");
    Ok(())
}

#[test]
fn journal_in_memory(rt: HostRuntime) -> Result<(), Fail> {
    let alloc = rt.alloc();
    let journal = Vec::from_slice(alloc, b"head\nt\nf,0")?;
    let mut wire = MemoryWire::new(Vec::new(alloc), Vec::new(alloc), journal);
    check_same(
        &rt,
        &check_journal(&rt, alloc, &mut wire),
        &Ok(()),
        "the calls",
    );
    check_same(
        &rt,
        &wire.journal(),
        &b"head\nt\nt\n".as_slice(),
        "the journal",
    );
    Ok(())
}

#[test]
fn journal_on_the_disk(rt: HostRuntime) -> Result<(), Fail> {
    let alloc = rt.alloc();
    let _ = fs::remove_dir_all(&rt, "wire_test");
    fs::create_dir(&rt, "wire_test")?;
    let mut wire = FileWire::new(&rt, Cursor::new(b"".as_slice()))?;
    let absent = wire.open(alloc, "wire_test/journal", Absent::Refused, 5);
    check_same(&rt, &absent.is_err(), &true, "an absent journal");
    fs::write(&rt, "wire_test/journal", "head\nt\nf,0")?;
    check_same(
        &rt,
        &check_journal(&rt, alloc, &mut wire),
        &Ok(()),
        "the calls",
    );
    let held = fs::read_to_string(&rt, "wire_test/journal")?;
    check_same(&rt, &held.as_str(), &"head\nt\nt\n", "the journal");
    let mut second = FileWire::new(&rt, Cursor::new(b"".as_slice()))?;
    let locked = second.open(alloc, "wire_test/journal", Absent::Begun, 5);
    check_same(&rt, &locked.is_err(), &true, "a locked journal");
    let begun = second.open(alloc, "wire_test/new", Absent::Begun, 5);
    check_same(&rt, &begun.is_ok(), &true, "a new journal");
    check_same(&rt, &second.append(b"head\n"), &Ok(()), "a head");
    check_same(&rt, &second.empty(), &Ok(()), "emptied");
    check_same(&rt, &second.append(b"other\n"), &Ok(()), "another head");
    check_same(&rt, &second.flush(), &Ok(()), "flushed");
    let other = fs::read_to_string(&rt, "wire_test/new")?;
    check_same(&rt, &other.as_str(), &"other\n", "the new journal");
    fs::remove_dir_all(&rt, "wire_test")?;
    Ok(())
}

// Puts a file under a name.
fn put<D: Desk>(desk: &mut D, name: &str) -> Result<(), DeskError> {
    let mut file = desk.begin(name, Readers::Any)?;
    file.append(&mut Slice { rest: b"new" });
    desk.commit(file)
}

// Puts a file under a name that leads to a journal, while the journal is open and once it no longer is.
fn check_puts(rt: &impl Abort, desk: &mut impl Desk, name: &str, expected: Result<(), DeskError>) {
    check_same(rt, &put(desk, name), &expected, name);
}

#[test]
fn open_journal_is_not_written_over(rt: HostRuntime) -> Result<(), Fail> {
    let alloc = rt.alloc();
    let _ = fs::remove_dir_all(&rt, "open_test");
    fs::create_dir(&rt, "open_test")?;
    fs::write(&rt, "open_test/journal", "head\n")?;
    let mut wire = FileWire::new(&rt, Cursor::new(b"".as_slice()))?;
    let opened = wire.open(alloc, "open_test/journal", Absent::Refused, 5);
    check_same(&rt, &opened.is_ok(), &true, "the journal");
    let mut desk = FileDesk::new(&rt);
    for name in ["open_test/journal", "open_test/../open_test/journal"] {
        check_puts(&rt, &mut desk, name, Err(DeskError::Failed));
    }
    let held = fs::read_to_string(&rt, "open_test/journal")?;
    check_same(&rt, &held.as_str(), &"head\n", "the journal that is open");
    drop(wire);
    check_puts(&rt, &mut FileDesk::new(&rt), "open_test/journal", Ok(()));
    let put = fs::read_to_string(&rt, "open_test/journal")?;
    check_same(&rt, &put.as_str(), &"new", "what was put");
    fs::remove_dir_all(&rt, "open_test")?;
    Ok(())
}
