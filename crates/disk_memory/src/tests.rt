ghost use Rattle.std.specs.Prelude.{◌≡◌, ◌+◌, ◌<◌, ◌≤◌, length, IsOk};
ghost use Rattle.disk_memory.specs.Host.{told_by, IsReady};

use crate::{Memory, MemoryHost};
use disk_model::{Console, Depot, Failed, FileNo, Made};
use std::alloc::Global;

// Makes a file, writes past its end, reads around that. How long the file is then.
fn make_and_read<H: Depot + Console>(
    host: &mut H,
    name: &str,
    out: &mut [u8],
) -> Result<u64, Failed>
    requires { length out.old ≤ 100 }
{
    let Made::New(file) = host.make(name)? else {
        return Err(Failed);
    };
    host.write_at(file, 3, b"abc")?;
    host.sync(file)?;
    host.read_at(file, 1, out)?;
    let size = host.size(file)?;
    host.print(b"done")?;
    Ok(size)
}

#[test]
fn a_file_is_made_written_and_read(rt: HostRuntime) {
    let mut host = MemoryHost::new(rt.alloc(), true).expect(&rt, "memory");
    let mut out = [1u8; 8];
    assert_eq!(rt; host.find("disk"), Ok(None));
    assert_eq!(rt; make_and_read(&mut host, "disk", &mut out), Ok(6));
    assert_eq!(rt; out, [0, 0, b'a', b'b', b'c', 0, 0, 0]);
    assert_eq!(rt; host.printed(), b"done".as_slice());
    assert_eq!(rt; host.file("disk"), Some(b"\0\0\0abc".as_slice()));
    assert_eq!(rt; host.file("other"), None);
    assert_eq!(rt; host.calls(), 7);
    assert_eq!(rt; make_and_read(&mut host, "disk", &mut out), Err(Failed));
}

#[test]
fn the_calls_named_fail(rt: HostRuntime) {
    let mut out = [1u8; 8];
    for number in 1..=6 {
        let mut host = MemoryHost::new(rt.alloc(), false).expect(&rt, "memory");
        host.put_file("old", b"1").expect(&rt, "memory");
        host.put_file("old", b"23").expect(&rt, "memory");
        host.fail_calls(&[number, 8]).expect(&rt, "memory");
        assert_eq!(rt;
            make_and_read(&mut host, "disk", &mut out),
            Err(Failed),
            "at {number}"
        );
        assert_eq!(rt; host.calls(), number);
        assert_eq!(rt; host.file("old"), Some(b"23".as_slice()));
        let disk = match number {
            1 => None,
            2 => Some(b"".as_slice()),
            _ => Some(b"\0\0\0abc".as_slice()),
        };
        assert_eq!(rt; host.file("disk"), disk, "at {number}");
        assert_eq!(rt; host.printed(), b"".as_slice());
    }
}

#[test]
fn moments_are_counted(rt: HostRuntime) {
    let mut host = MemoryHost::new(rt.alloc(), true).expect(&rt, "memory");
    assert_eq!(rt; host.moments(), 1);
    host.put_file("disk", b"123").expect(&rt, "memory");
    assert_eq!(rt; host.moments(), 2);
    if let Ok(Some(file)) = host.find("disk") {
        host.write_at(file, 2, b"abc").expect(&rt, "memory");
        assert_eq!(rt; host.moments(), 4);
    }
    assert_eq!(rt; host.file("disk"), Some(b"12abc".as_slice()));
}

// Writes all of a file of three sectors and a byte, its first sector again, and syncs it; writes its last byte and four
// more, and the byte of another file, and syncs the first.
fn write_by_turns(host: &mut MemoryHost) -> Result<(), Failed> {
    let Made::New(disk) = host.make("disk")? else {
        return Err(Failed);
    };
    let Made::New(copy) = host.make("copy")? else {
        return Err(Failed);
    };
    host.write_at(disk, 0, &[b'a'; 1537])?;
    host.sync(disk)?;
    host.write_at(disk, 0, &[b'b'; 1537])?;
    host.write_at(disk, 0, &[b'c'; 512])?;
    host.sync(disk)?;
    host.write_at(disk, 1536, b"ddddd")?;
    host.write_at(copy, 0, b"e")?;
    host.sync(disk)?;
    host.print(b"done")
}

// Two words as one.
fn joined(alloc: Global, disk: &[u8], copy: &[u8]) -> Result<Vec<u8>, Memory> {
    let mut word = Vec::new(alloc);
    word.extend_from_slice(disk)?;
    word.push(b'/')?;
    word.extend_from_slice(copy)?;
    Ok(word)
}

// Both files as a word: of the first the letter of each of its sectors, and what is behind the start of the fourth.
fn word_of(alloc: Global, left: &MemoryHost) -> Result<Vec<u8>, Memory> {
    let disk = left.file("disk").unwrap_or(b"none");
    let copy = left.file("copy").unwrap_or(b"none");
    let mut word = Vec::new(alloc);
    for sector in disk.chunks(512) {
        word.extend_from_slice(sector.get(..1).unwrap_or(b""))?;
    }
    word.extend_from_slice(disk.get(1537..).unwrap_or(b""))?;
    joined(alloc, &word, copy)
}

// Adds one word of the first file with each of the second.
fn add_each(alloc: Global, due: &mut Vec<Vec<u8>>, disk: &str, copies: &str) -> Result<(), Memory> {
    for copy in copies.split(' ') {
        due.push(joined(alloc, disk.as_bytes(), copy.as_bytes())?)?;
    }
    Ok(())
}

// Each word of the first file with each of the second.
fn all_due(alloc: Global, disks: &str, copies: &str) -> Result<Vec<Vec<u8>>, Memory> {
    let mut due = Vec::new(alloc);
    for disk in disks.split(' ') {
        add_each(alloc, &mut due, disk, copies)?;
    }
    Ok(due)
}

// How many of these the choices from 0 on leave at a moment; none where a choice leaves another.
fn count_reached(
    alloc: Global,
    host: &MemoryHost,
    moment: u64,
    due: &[Vec<u8>],
) -> Result<usize, Memory> {
    let mut reached = vec![in alloc; false; due.len()]?;
    for choice in 0..(due.len() as u64).saturating_mul(30) {
        if !host.keeps_calls() || moment >= host.moments() {
            return Ok(0);
        }
        let word = word_of(alloc, &host.pick_outcome(moment, choice)?)?;
        match due.iter().position(|one| one.as_slice() == word.as_slice()) {
            Some(at) if at < reached.len() => reached[at] = true,
            _ => return Ok(0),
        }
    }
    Ok(reached.iter().filter(|hit| **hit).count())
}

#[test]
fn a_crash_leaves_each_mixture(rt: HostRuntime) {
    let alloc = rt.alloc();
    let mut host = MemoryHost::new(alloc, true).expect(&rt, "memory");
    assert_eq!(rt; write_by_turns(&mut host), Ok(()));
    let once = "aaaa aaab aaba aabb abaa abab abba abbb baaa baab baba babb bbaa bbab bbba bbbb";
    let twice = "aaaa aaab aaba aabb abaa abab abba abbb baaa baab baba babb bbaa bbab bbba bbbb \
        caaa caab caba cabb cbaa cbab cbba cbbb";
    let longer = "cbbb cbbb\0 cbbb\0\0 cbbb\0\0\0 cbbb\0\0\0\0 cbbd cbbdd cbbddd cbbdddd cbbddddd";
    let cases = [
        (2, "", "", 1),
        (5, "aaaa", "", 1),
        (6, once, "", 16),
        (9, twice, "", 24),
        (10, "cbbb", "", 1),
        (13, longer, " \0 e", 30),
        (15, "cbbddddd", " \0 e", 3),
    ];
    for (moment, disks, copies, count) in cases {
        let due = all_due(alloc, disks, copies).expect(&rt, "memory");
        let reached = count_reached(alloc, &host, moment, &due).expect(&rt, "memory");
        assert_eq!(rt; reached, count, "at {moment}");
    }
    assert_eq!(rt; host.moments(), 16);
}

// Writes to a file within the room that was reserved, and syncs it.
fn write_within_room(host: &mut MemoryHost, file: FileNo, bytes: &[u8]) -> Result<(), Failed>
    requires ready { IsReady 0 600 host.old }
    requires file { file.0 < (told_by host.old).given }
    requires bytes { length bytes.now ≤ 600 }
    ensures { IsOk result }
{
    host.write_at(file, 0, bytes)?;
    host.sync(file)
}

// Prints within the room that was reserved, makes a file and writes to it.
fn work_within_room(host: &mut MemoryHost, name: &str, bytes: &[u8]) -> Result<(), Failed>
    requires ready { IsReady 1 600 host.old }
    requires name { length name.now ≤ 4096 }
    requires bytes { length bytes.now ≤ 600 }
    requires text { length (told_by host.old).printed + length bytes.now ≤ 600 }
    ensures { IsOk result }
{
    host.print(bytes)?;
    match host.make(name)? {
        Made::New(file) => write_within_room(host, file, bytes),
        Made::Exists => Ok(()),
    }
}

#[test]
fn within_its_room_each_call_answers(rt: HostRuntime) {
    let mut host = MemoryHost::new(rt.alloc(), false).expect(&rt, "memory");
    host.reserve(1, 600).expect(&rt, "memory");
    assert_eq!(rt; work_within_room(&mut host, "disk", &[7; 600]), Ok(()));
    assert_eq!(rt; host.file("disk"), Some([7; 600].as_slice()));
    assert_eq!(rt; host.printed(), [7; 600].as_slice());
    assert_eq!(rt; host.calls(), 4);
}

#[test]
fn room_is_made_for_many_files(rt: HostRuntime) {
    let mut host = MemoryHost::new(rt.alloc(), true).expect(&rt, "memory");
    let mut out = [1u8; 4];
    host.put_file("old", b"123").expect(&rt, "memory");
    assert_eq!(rt; host.reserve(u32::MAX, 0).is_err(), true);
    host.reserve(1, 9).expect(&rt, "memory");
    host.reserve(2, 5).expect(&rt, "memory");
    assert_eq!(rt; make_and_read(&mut host, "a", &mut out), Ok(6));
    assert_eq!(rt; make_and_read(&mut host, "b", &mut out), Ok(6));
    assert_eq!(rt; out, [0, 0, b'a', b'b']);
    assert_eq!(rt; host.file("a"), Some(b"\0\0\0abc".as_slice()));
}
