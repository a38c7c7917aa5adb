//! The desk in memory, and the desk over real files.

use crate::fixtures::{check, check_bytes, check_same};
use desk_outside::{
    BegunFile, Desk, DeskCall, DeskError, DeskKind, FetchError, MemoryDesk, Pieces, Readers, Slice,
};
use file_desk::FileDesk;
use std::alloc::{AllocError, Global};
use std::fs::{File, Permissions};
use std::io::Read;
use std::os::fd::AsRawFd;
use std::os::unix::fs::{PermissionsExt, symlink};
use std::process::Abort;
use std::rt::Files;
use std::test::Fail;
use std::{fs, io};

// Begins a file, appends the bytes, and commits it.
pub(crate) fn put<D: Desk>(desk: &mut D, name: &str, bytes: &[u8]) -> Result<(), DeskError> {
    let mut file = desk.begin(name, Readers::Any)?;
    file.append(&mut Slice { rest: bytes });
    desk.commit(file)
}

// Whether the call failed, for want of memory too.
fn fails(desk: &mut MemoryDesk, alloc: Global, kind: DeskKind, name: &str, text: &str) -> bool {
    match kind {
        DeskKind::Fetch => desk.fetch(alloc, name, 3).is_err(),
        DeskKind::Put => put(desk, name, text.as_bytes()).is_err(),
        DeskKind::Say => desk.say(text.as_bytes()).is_err(),
        DeskKind::Complain => desk.complain(text.as_bytes()).is_err(),
    }
}

// Calls in their order, each with its name and its text, and whether it fails. Calls 1, 4 and 6 are told to fail, counted from 0,
// and nothing has the name `c`.
static CALLS: [(DeskKind, &str, &str, bool); 9] = [
    (DeskKind::Fetch, "a", "", false),
    (DeskKind::Put, "a", "new", true),
    (DeskKind::Put, "b", "new", false),
    (DeskKind::Fetch, "c", "", true),
    (DeskKind::Say, "", "nothing", true),
    (DeskKind::Say, "", "one ", false),
    (DeskKind::Complain, "", "nothing", true),
    (DeskKind::Complain, "", "two", false),
    (DeskKind::Say, "", "three", false),
];

// Makes the listed calls.
fn make_calls(rt: &impl Abort, desk: &mut MemoryDesk, alloc: Global) {
    for (kind, name, text, failed) in CALLS.iter() {
        let row = if name.is_empty() { text } else { name };
        check_same(rt, &fails(desk, alloc, *kind, name, text), failed, row);
    }
}

// Whether a call of the desk is of this kind and this name, and failed or not.
fn is_call(call: &DeskCall, kind: DeskKind, name: &str, failed: bool) -> bool {
    call.kind == kind && call.name.bytes() == name.as_bytes() && call.failed == failed
}

// Looks for the listed calls among those that the desk has counted.
fn check_calls(rt: &impl Abort, calls: &[DeskCall]) {
    check_same(rt, &calls.len(), &9, "the calls");
    for (call, (kind, name, _, failed)) in calls.iter().zip(CALLS.iter()) {
        check(rt, is_call(call, *kind, name, *failed), name);
    }
}

// Looks for what the names hold, and for what was said and complained.
fn check_views(rt: &impl Abort, desk: &MemoryDesk) {
    check_same(rt, &desk.held("a"), &Some(b"old".as_slice()), "a");
    check_same(rt, &desk.held("b"), &Some(b"new".as_slice()), "b");
    check_same(rt, &desk.held("c"), &None, "c");
    check_bytes(rt, desk.said(), b"one three", "what was said");
    check_bytes(rt, desk.complained(), b"two", "what was complained");
}

// Fetches these bytes under a name, with this limit.
fn check_held(
    rt: &impl Abort,
    alloc: Global,
    desk: &mut impl Desk,
    (name, most): (&str, u64),
    bytes: &[u8],
) -> Result<(), FetchError> {
    let held = desk.fetch(alloc, name, most)?;
    check_bytes(rt, &held, bytes, name);
    Ok(())
}

// Fetches these names with these limits, each with this error.
fn check_fetches(
    rt: &impl Abort,
    alloc: Global,
    desk: &mut impl Desk,
    fetches: &[(&str, u64, Option<FetchError>)],
) {
    for (name, most, error) in fetches {
        let came = desk.fetch(alloc, name, *most).err();
        check_same(rt, &(*most, came), &(*most, *error), name);
    }
}

// Looks for the listed calls, and for what they left.
fn check_listed(rt: &impl Abort, desk: &mut MemoryDesk, alloc: Global) {
    make_calls(rt, desk, alloc);
    check_calls(rt, desk.calls());
    check_same(rt, &desk.faults(), &4, "the faults");
    check_views(rt, desk);
}

// Fetches what the listed calls put.
fn check_listed_put(
    rt: &impl Abort,
    desk: &mut MemoryDesk,
    alloc: Global,
) -> Result<(), FetchError> {
    check_held(rt, alloc, desk, ("b", 3), b"new")?;
    check_fetches(rt, alloc, desk, &[("b", 2, Some(FetchError::TooLong(3)))]);
    Ok(())
}

#[test]
fn memory_desk_fails_the_listed_calls_and_absent_names(rt: HostRuntime) -> Result<(), Fail> {
    let mut desk = MemoryDesk::new(vec![in rt.alloc(); 1, 4, 6]?);
    desk.place("a", b"old")?;
    check_listed(&rt, &mut desk, rt.alloc());
    check_listed_put(&rt, &mut desk, rt.alloc())?;
    Ok(())
}

// An empty folder for a test.
pub(crate) fn empty_folder(rt: &HostRuntime, name: &str) -> io::Result<()> {
    let _ = fs::remove_dir_all(rt, name);
    fs::create_dir(rt, name)
}

// How many names a folder has.
fn check_count(
    rt: &(impl Files + AllocGlobal + Abort + Clone),
    folder: &str,
    count: usize,
) -> io::Result<()> {
    check_same(rt, &fs::read_dir(rt, folder)?.count(), &count, folder);
    Ok(())
}

// Puts these bytes under these names, each with this end.
fn check_puts(
    rt: &impl Abort,
    desk: &mut impl Desk,
    puts: &[(&str, &[u8], Result<(), DeskError>)],
) {
    for (name, bytes, done) in puts {
        check_same(rt, &put(desk, name, bytes), done, name);
    }
}

// Says and complains.
fn check_said(rt: &impl Abort, desk: &mut impl Desk) {
    check_same(rt, &desk.say(b"said\n"), &Ok(()), "said");
    check_same(rt, &desk.complain(b"complained\n"), &Ok(()), "complained");
    let failed = Err(DeskError::Failed);
    check_same(rt, &desk.complain(b"\xff"), &failed, "no text");
}

// Names and bytes that are put, each with its end.
static PUTS: [(&str, &[u8], Result<(), DeskError>); 4] = [
    ("desk_test/a", b"longer", Ok(())),
    ("desk_test/a", b"\xffabc", Ok(())),
    ("desk_test", b"abc", Err(DeskError::Failed)),
    ("desk_test/absent/a", b"abc", Err(DeskError::Failed)),
];

// Names that are fetched after that, each with its limit and its error.
static FETCHES: [(&str, u64, Option<FetchError>); 6] = [
    ("desk_test/a", 4, None),
    ("desk_test/a", 3, Some(FetchError::TooLong(4))),
    ("desk_test/a", 0, Some(FetchError::TooLong(1))),
    ("desk_test/absent", 4, Some(FetchError::Failed)),
    ("desk_test", 4, Some(FetchError::Failed)),
    ("desk_test/absent/a", 4, Some(FetchError::Failed)),
];

// Puts and fetches on real files, and says and complains.
fn put_and_fetch(rt: &impl Abort, alloc: Global, desk: &mut impl Desk) -> Result<(), FetchError> {
    check_puts(rt, desk, &PUTS);
    check_held(rt, alloc, desk, ("desk_test/a", u64::MAX), b"\xffabc")?;
    check_fetches(rt, alloc, desk, &FETCHES);
    check_said(rt, desk);
    Ok(())
}

#[test]
fn file_desk_on_real_files(rt: HostRuntime) -> Result<(), Fail> {
    empty_folder(&rt, "desk_test")?;
    put_and_fetch(&rt, rt.alloc(), &mut FileDesk::new(&rt))?;
    check_count(&rt, "desk_test", 1)?;
    fs::remove_dir_all(&rt, "desk_test")?;
    Ok(())
}

// A folder with two files, one of which only its owner reads, and with links to both and to nothing.
fn make_whole_test(rt: &HostRuntime) -> io::Result<()> {
    empty_folder(rt, "whole_test")?;
    for name in ["whole_test/fetched", "whole_test/held"] {
        fs::write(rt, name, "old")?;
    }
    fs::set_permissions(rt, "whole_test/held", Permissions::from_mode(0o600))?;
    symlink(rt, "fetched", "whole_test/to_fetched")?;
    fs::hard_link(rt, "whole_test/fetched", "whole_test/same_file")?;
    symlink(rt, "held", "whole_test/to_held")?;
    symlink(rt, "absent", "whole_test/to_nothing")
}

// Puts new bytes under a name, which ends so and leaves this text there.
fn check_put(
    rt: &(impl Files + AllocGlobal + Abort),
    desk: &mut impl Desk,
    name: &str,
    done: Result<(), DeskError>,
    left: Option<&str>,
) {
    check_same(rt, &put(desk, name, b"new bytes"), &done, name);
    let held = fs::read_to_string(rt, name).ok();
    check_same(rt, &held.as_deref(), &left, name);
}

// What is held under a link has new bytes and its old permissions, and no other file came but the one that was made.
fn check_left(rt: &(impl Files + AllocGlobal + Abort + Clone)) -> io::Result<()> {
    let held = fs::symlink_metadata(rt, "whole_test/held")?;
    check_same(rt, &held.len(), &9, "the length");
    let mode = held.permissions().mode() & 0o777;
    check_same(rt, &mode, &0o600, "the permissions");
    let link = fs::symlink_metadata(rt, "whole_test/to_held")?;
    check(rt, link.is_symlink(), "the link");
    check_count(rt, "whole_test", 7)
}

// Puts of which none is done: on a fetched file by each of its names, on a link to nothing, and by a new file that is written
// and can't take the name.
static NOT_PUT: [(&str, Option<&str>); 6] = [
    ("whole_test/fetched", Some("old")),
    ("./whole_test/fetched", Some("old")),
    ("whole_test/to_fetched", Some("old")),
    ("whole_test/same_file", Some("old")),
    ("whole_test/to_nothing", None),
    ("whole_test/no_folder/", None),
];

// Puts on a file that is there in a folder that takes no new one.
fn put_own_name(rt: &(impl Files + AllocGlobal + Abort), desk: &mut impl Desk) -> io::Result<()> {
    let name = "/proc/self/comm";
    let own_name = fs::read_to_string(rt, name)?;
    let failed = Err(DeskError::Failed);
    check_put(rt, desk, name, failed, Some(own_name.as_str()));
    Ok(())
}

// Puts whole files after a fetch of one of them.
fn put_whole(
    rt: &(impl Files + AllocGlobal + Abort),
    alloc: Global,
    desk: &mut impl Desk,
) -> Result<(), Fail> {
    let _ = desk.fetch(alloc, "whole_test/fetched", 3)?;
    for (name, left) in NOT_PUT.iter() {
        check_put(rt, desk, name, Err(DeskError::Failed), *left);
    }
    put_own_name(rt, desk)?;
    for name in ["whole_test/to_held", "whole_test/made"] {
        check_put(rt, desk, name, Ok(()), Some("new bytes"));
    }
    Ok(())
}

#[test]
fn file_desk_puts_whole_files(rt: HostRuntime) -> Result<(), Fail> {
    make_whole_test(&rt)?;
    put_whole(&rt, rt.alloc(), &mut FileDesk::new(&rt))?;
    check_left(&rt)?;
    fs::remove_dir_all(&rt, "whole_test")?;
    Ok(())
}

// Reads what was put into a pipe.
fn check_piped(rt: &impl Abort, reader: &mut impl Read) -> io::Result<()> {
    let mut got = [0u8; 8];
    check_same(rt, &reader.read(&mut got)?, &5, "the length");
    check_bytes(rt, &got[..5], b"piped", "the pipe");
    Ok(())
}

// Puts into the pipe of this number.
fn put_into_pipe(
    rt: &impl Abort,
    alloc: Global,
    desk: &mut impl Desk,
    number: i32,
) -> Result<(), AllocError> {
    let name = format!(in alloc; "/proc/self/fd/{number}")?;
    check_puts(rt, desk, &[(&name, b"piped", Ok(()))]);
    Ok(())
}

// Puts into nothing.
fn put_into_null(rt: &(impl Files + AllocGlobal + Abort), desk: &mut impl Desk) -> io::Result<()> {
    check_puts(rt, desk, &[("/dev/null", b"gone", Ok(()))]);
    check(rt, !fs::metadata(rt, "/dev/null")?.is_file(), "no file");
    Ok(())
}

// Puts into a pipe, which is read, and into nothing.
fn put_into_both(
    rt: &(impl Files + AllocGlobal + Abort),
    desk: &mut impl Desk,
    reader: &mut impl Read,
    number: i32,
) -> Result<(), Fail> {
    put_into_pipe(rt, rt.alloc(), desk, number)?;
    check_piped(rt, reader)?;
    put_into_null(rt, desk)?;
    Ok(())
}

#[test]
fn file_desk_writes_a_pipe_as_it_is(rt: HostRuntime) -> Result<(), Fail> {
    let (mut reader, writer) = io::pipe(&rt)?;
    let number = writer.as_raw_fd();
    put_into_both(&rt, &mut FileDesk::new(&rt), &mut reader, number)
}

// Bytes of a piece.
const PIECE_BYTES: usize = 1 << 16;

// The pieces of these bytes, after which there may be no memory.
#[derive(Drop)]
struct Made<'a> {
    rest: &'a [u8],
    is_broken: bool,
}

impl Pieces for Made<'_> {
    ghost use Rattle.std.specs.Prelude.{⊤};

    ghost rest = { λ pieces. pieces.rest.now };

    ghost ready = { λ pieces. ⊤ };

    fn next(&mut self, piece: &mut Vec<u8>) -> Result<(), AllocError> {
        if self.is_broken && self.rest.is_empty() {
            return Err(AllocError);
        }
        let (front, after) = self.rest.split_at(self.rest.len().min(PIECE_BYTES));
        piece.clear();
        piece.extend_from_slice(front)?;
        self.rest = after;
        Ok(())
    }
}

// The pieces of these bytes.
fn whole(rest: &[u8]) -> Made<'_> {
    Made {
        rest,
        is_broken: false,
    }
}

// The pieces of these bytes, after which there is no memory.
fn broken(rest: &[u8]) -> Made<'_> {
    Made {
        rest,
        is_broken: true,
    }
}

// The bytes of 160 pieces, 10 MB, no two pieces alike. So many are written in several groups.
fn bytes_of_groups(alloc: Global) -> Result<Vec<u8>, AllocError> {
    let mut bytes = Vec::new(alloc);
    for number in 0..160u8 {
        bytes.resize((usize::from(number) + 1) * PIECE_BYTES, number)?;
    }
    Ok(bytes)
}

// Begins a file, appends each part to it and has it on the disk, appends the last pieces, and commits it.
fn put_in_parts<D: Desk>(
    desk: &mut D,
    name: &str,
    parts: &[&[u8]],
    last: &mut Made<'_>,
) -> Result<(), DeskError> {
    let mut file = desk.begin(name, Readers::Any)?;
    for part in parts {
        file.append(&mut whole(part));
        file.flush()?;
    }
    file.append(last);
    desk.commit(file)
}

// Begins a file, appends these pieces to it, and lets it go. Whether that failed.
fn let_go<D: Desk>(desk: &mut D, name: &str, pieces: &mut Made<'_>) -> Result<bool, AllocError> {
    let mut file = desk.begin(name, Readers::Any)?;
    file.append(pieces);
    Ok(file.has_failed())
}

// Looks for what a file holds, and for no more names in its folder than these many.
fn check_file(
    rt: &(impl Files + AllocGlobal + Abort + Clone),
    (folder, name): (&str, &str),
    bytes: &[u8],
    count: usize,
) -> io::Result<()> {
    check_bytes(rt, &fs::read(rt, name)?, bytes, name);
    check_count(rt, folder, count)
}

// The same, and removes the folder.
fn check_end(
    rt: &(impl Files + AllocGlobal + Abort + Clone),
    (folder, name): (&str, &str),
    bytes: &[u8],
    count: usize,
) -> io::Result<()> {
    check_file(rt, (folder, name), bytes, count)?;
    fs::remove_dir_all(rt, folder)
}

// Puts a file in parts.
fn put_new_bytes(rt: &impl Abort, desk: &mut impl Desk, name: &str) {
    let parts = [b"".as_slice(), b"new ".as_slice(), b"by".as_slice()];
    let put = put_in_parts(desk, name, &parts, &mut whole(b"tes"));
    check_same(rt, &put, &Ok(()), name);
}

// Puts files in parts, and looks for what they hold.
fn put_begun_files(
    rt: &(impl Files + AllocGlobal + Abort),
    desk: &mut impl Desk,
) -> io::Result<()> {
    for name in ["whole_test/to_held", "whole_test/made"] {
        put_new_bytes(rt, desk, name);
        check_bytes(rt, &fs::read(rt, name)?, b"new bytes", name);
    }
    Ok(())
}

#[test]
fn file_desk_puts_files_that_it_began(rt: HostRuntime) -> Result<(), Fail> {
    make_whole_test(&rt)?;
    put_begun_files(&rt, &mut FileDesk::new(&rt))?;
    check_left(&rt)?;
    fs::remove_dir_all(&rt, "whole_test")?;
    Ok(())
}

// Names that can't be written: those of a fetched file, a link to nothing, a folder, what is in no folder, and no file.
static UNWRITABLE: [&str; 7] = [
    "begin_test/fetched",
    "begin_test/to_fetched",
    "begin_test/same_file",
    "begin_test/to_nothing",
    "begin_test",
    "begin_test/absent/a",
    "begin_test/a/",
];

// A folder with a file, with links to it and to nothing.
fn make_begin_test(rt: &HostRuntime) -> io::Result<()> {
    empty_folder(rt, "begin_test")?;
    fs::write(rt, "begin_test/fetched", "old")?;
    symlink(rt, "fetched", "begin_test/to_fetched")?;
    symlink(rt, "absent", "begin_test/to_nothing")?;
    fs::hard_link(rt, "begin_test/fetched", "begin_test/same_file")
}

// Begins a file for each of these names after a fetch of one of them, and finds that it can't be written.
fn begin_unwritable(rt: &impl Abort, alloc: Global, desk: &mut impl Desk) -> Result<(), Fail> {
    let _ = desk.fetch(alloc, "begin_test/fetched", 3)?;
    for name in UNWRITABLE {
        check_same(rt, &let_go(desk, name, &mut whole(b""))?, &true, name);
    }
    Ok(())
}

#[test]
fn file_desk_finds_names_that_cannot_be_written(rt: HostRuntime) -> Result<(), Fail> {
    make_begin_test(&rt)?;
    begin_unwritable(&rt, rt.alloc(), &mut FileDesk::new(&rt))?;
    let place = ("begin_test", "begin_test/fetched");
    check_file(&rt, place, b"old", 4)?;
    fs::remove_dir_all(&rt, "begin_test")?;
    Ok(())
}

// Where a file was begun or put, this name leads to it.
const ONE: &str = "names_test/one";

// Other names that lead there: by a folder, and by links to the file and to its folder.
static OTHER_NAMES: [&str; 3] = [
    "./names_test/one",
    "names_test/to_one",
    "names_test/here/one",
];

// A folder with a link to itself, and one to a file that is there.
fn make_names_test(rt: &HostRuntime) -> io::Result<()> {
    empty_folder(rt, "names_test")?;
    fs::write(rt, ONE, "old")?;
    symlink(rt, "one", "names_test/to_one")?;
    symlink(rt, ".", "names_test/here")
}

// Puts under other names what is put under one. None of them is put.
fn check_other_names(rt: &impl Abort, desk: &mut impl Desk) {
    let failed = Err(DeskError::Failed);
    for name in OTHER_NAMES {
        check_same(rt, &put(desk, name, b"other"), &failed, name);
    }
}

// Begins a file, and puts under other names what it will put before it is committed and after that.
fn put_once<D: Desk>(rt: &impl Abort, desk: &mut D) -> Result<(), DeskError> {
    let mut file = desk.begin(ONE, Readers::Any)?;
    file.append(&mut Slice { rest: b"first" });
    check_other_names(rt, desk);
    desk.commit(file)?;
    check_other_names(rt, desk);
    Ok(())
}

#[test]
fn file_desk_puts_no_file_under_two_names(rt: HostRuntime) -> Result<(), Fail> {
    make_names_test(&rt)?;
    put_once(&rt, &mut FileDesk::new(&rt))?;
    check_end(&rt, ("names_test", ONE), b"first", 3)?;
    Ok(())
}

// Names with the permissions that the files there have, what the file is to be readable for, and the permissions of the new one.
static MODES: [(&str, Option<u32>, Readers, u32); 4] = [
    ("modes_test/a", None, Readers::Owner, 0o600),
    ("modes_test/b", Some(0o644), Readers::Owner, 0o600),
    ("modes_test/c", Some(0o640), Readers::Any, 0o640),
    ("modes_test/d", Some(0o600), Readers::Any, 0o600),
];

// Who may do what with a file.
fn check_mode(rt: &(impl Files + AllocGlobal + Abort), name: &str, mode: u32) -> io::Result<()> {
    let found = fs::metadata(rt, name)?.permissions().mode() & 0o777;
    check_same(rt, &found, &mode, name);
    Ok(())
}

// Puts the listed files, and looks at their parts before.
fn put_modes<D: Desk>(
    rt: &(impl Files + AllocGlobal + Abort),
    alloc: Global,
    desk: &mut D,
) -> Result<(), Fail> {
    for (name, there, readers, mode) in MODES.iter() {
        if let Some(there) = there {
            fs::write(rt, name, "old")?;
            fs::set_permissions(rt, name, Permissions::from_mode(*there))?;
        }
        let file = desk.begin(name, *readers)?;
        check_mode(rt, &format!(in alloc; "{name}.part")?, *mode)?;
        desk.commit(file)?;
        check_mode(rt, name, *mode)?;
    }
    Ok(())
}

#[test]
fn file_desk_keeps_secrets(rt: HostRuntime) -> Result<(), Fail> {
    empty_folder(&rt, "modes_test")?;
    put_modes(&rt, rt.alloc(), &mut FileDesk::new(&rt))?;
    check_count(&rt, "modes_test", 4)?;
    fs::remove_dir_all(&rt, "modes_test")?;
    Ok(())
}

// Parts that lie there, and how many names the folder has once `a` is put: one that nobody writes is taken over, and one that was
// fetched or is locked stays.
static PARTS: [(bool, bool, usize); 3] = [(false, false, 1), (true, false, 2), (false, true, 2)];

// Puts a file of which a part lies there.
fn put_beside_part(
    rt: &(impl Files<File = File> + AllocGlobal + Abort),
    alloc: Global,
    desk: &mut impl Desk,
    is_fetched: bool,
    is_locked: bool,
) -> Result<(), Fail> {
    fs::write(rt, "parts_test/a.part", "left")?;
    let part = fs::open(rt, "parts_test/a.part")?;
    if is_fetched {
        let _ = desk.fetch(alloc, "parts_test/a.part", 4)?;
    }
    if is_locked {
        part.lock()?;
    }
    check_same(rt, &put(desk, "parts_test/a", b"new"), &Ok(()), "the put");
    Ok(())
}

#[test]
fn file_desk_takes_over_a_part_that_nobody_writes(rt: HostRuntime) -> Result<(), Fail> {
    for (is_fetched, is_locked, count) in PARTS.iter() {
        empty_folder(&rt, "parts_test")?;
        let mut desk = FileDesk::new(&rt);
        put_beside_part(&rt, rt.alloc(), &mut desk, *is_fetched, *is_locked)?;
        check_end(&rt, ("parts_test", "parts_test/a"), b"new", *count)?;
    }
    Ok(())
}

// Appends to what takes no bytes. The file remembers it, and so it is not put.
fn put_full<D: Desk>(rt: &impl Abort, desk: &mut D) -> Result<(), AllocError> {
    let mut file = desk.begin("/dev/full", Readers::Any)?;
    check_same(rt, &file.has_failed(), &false, "the beginning");
    file.append(&mut Slice { rest: b"new" });
    check_same(rt, &file.has_failed(), &true, "the bytes");
    let failed = Err(DeskError::Failed);
    check_same(rt, &file.flush(), &failed, "the flush");
    check_same(rt, &desk.commit(file), &failed, "the commit");
    Ok(())
}

#[test]
fn file_desk_remembers_what_failed(rt: HostRuntime) -> Result<(), Fail> {
    put_full(&rt, &mut FileDesk::new(&rt))?;
    Ok(())
}

// Puts a short file and then these bytes under a name, and the bytes in halves under another.
fn put_groups(rt: &impl Abort, desk: &mut impl Desk, bytes: &[u8]) {
    let name = "group_test/whole";
    check_puts(rt, desk, &[(name, b"old", Ok(())), (name, bytes, Ok(()))]);
    let (front, after) = bytes.split_at(bytes.len() / 2);
    let name = "group_test/halves";
    let put = put_in_parts(desk, name, &[front, b""], &mut whole(after));
    check_same(rt, &put, &Ok(()), "several groups");
}

#[test]
fn file_desk_puts_and_appends_several_groups(rt: HostRuntime) -> Result<(), Fail> {
    empty_folder(&rt, "group_test")?;
    let bytes = bytes_of_groups(rt.alloc())?;
    put_groups(&rt, &mut FileDesk::new(&rt), &bytes);
    check_file(&rt, ("group_test", "group_test/whole"), &bytes, 2)?;
    check_end(&rt, ("group_test", "group_test/halves"), &bytes, 2)?;
    Ok(())
}

// The one file of its folder, which is kept.
const KEPT: (&str, &str) = ("kept_test", "kept_test/a");

// Puts a short file, and then pieces after which there is no memory.
fn put_broken(rt: &impl Abort, desk: &mut impl Desk, bytes: &[u8]) {
    check_puts(rt, desk, &[(KEPT.1, b"old", Ok(()))]);
    let put = put_in_parts(desk, KEPT.1, &[], &mut broken(bytes));
    check_same(rt, &put, &Err(DeskError::Memory), "the pieces");
}

// Begins a file that is let go, and begins one whose last pieces fail.
fn begin_and_let_go(rt: &impl Abort, desk: &mut impl Desk, bytes: &[u8]) -> Result<(), AllocError> {
    let gone = let_go(desk, KEPT.1, &mut whole(bytes))?;
    check_same(rt, &gone, &false, "let go");
    let put = put_in_parts(desk, KEPT.1, &[bytes], &mut broken(bytes));
    check_same(rt, &put, &Err(DeskError::Memory), "the pieces");
    Ok(())
}

// The file is kept each time.
fn check_kept(
    rt: &(impl Files + AllocGlobal + Abort + Clone),
    desk: &mut impl Desk,
    bytes: &[u8],
) -> io::Result<()> {
    put_broken(rt, desk, bytes);
    check_file(rt, KEPT, b"old", 1)?;
    begin_and_let_go(rt, desk, bytes)?;
    check_end(rt, KEPT, b"old", 1)
}

#[test]
fn file_desk_keeps_a_file_where_pieces_fail_or_one_is_let_go(rt: HostRuntime) -> Result<(), Fail> {
    empty_folder(&rt, KEPT.0)?;
    let bytes = bytes_of_groups(rt.alloc())?;
    check_kept(&rt, &mut FileDesk::new(&rt), &bytes)?;
    Ok(())
}

// Files that a desk in memory begins, each with its last part, and what their name holds after the put.
static BEGUN: [(&[u8], Result<(), DeskError>, &[u8]); 3] = [
    (b"w", Ok(()), b"new"),
    (b"ws", Err(DeskError::Failed), b"new"),
    (b"", Ok(()), b"ne"),
];

// Puts the listed files.
fn put_begun_in_memory(rt: &impl Abort, desk: &mut MemoryDesk) -> Result<(), AllocError> {
    for (last, put, held) in BEGUN.iter() {
        let parts = [b"n".as_slice(), b"e".as_slice()];
        let done = put_in_parts(desk, "a", &parts, &mut whole(last));
        check_same(rt, &done, put, "the put");
        let gone = let_go(desk, "a", &mut whole(b"gone"))?;
        check_same(rt, &gone, &false, "let go");
        check_same(rt, &desk.held("a"), &Some(*held), "a");
    }
    Ok(())
}

#[test]
fn memory_desk_puts_files_that_it_began(rt: HostRuntime) -> Result<(), Fail> {
    let mut desk = MemoryDesk::new(vec![in rt.alloc(); 1]?);
    put_begun_in_memory(&rt, &mut desk)?;
    check_same(&rt, &desk.calls().len(), &3, "the calls");
    check_same(&rt, &desk.faults(), &1, "the faults");
    Ok(())
}
