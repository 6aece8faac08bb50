//! A file in memory, its bytes read and written.

ghost use Rattle.std.specs.Prelude.{◌≡◌, ◌+◌, ◌^◌, ◌<◌, ◌≤◌, ◌↔◌, length, ◌++◌, ◌-◌, replicate, take, drop, vec_capacity, string_bytes, string_capacity, IsTrue, [], ◌∷◌, map, false, IfOk, OnOk, OnErr, IsOk};
ghost use Rattle.std.specs.List.{position, Contains};
ghost use Rattle.std.specs.Str.{bytes_eq};
ghost use Rattle.disk_model.specs.Files.{reading, overlay};
ghost use Rattle.disk_memory.specs.Held.{change_of, FilePut, BytesWritten, UnderWay};
ghost use Rattle.disk_memory.specs.Steps.{raised, noted};
ghost use Rattle.disk_memory.specs.Room.{AllFrom, IsWider, IsSameFiles, IsEmptyFile, lengths_of, name_lengths_of};

use crate::log::{Call, note_put, note_write};
use std::alloc::{AllocError, Global};

// A file, and how often reads and writes of it failed.
#[derive(Drop)]
pub(crate) struct File {
    pub(crate) name: String,
    pub(crate) bytes: Vec<u8>,
    pub(crate) reads: u64,
    pub(crate) writes: u64,
}

/// How long the name of a file can be that is made in room that was reserved.
pub(crate) const NAME: usize = 4096;

// A file with room for a name and for so many bytes.
fn roomy(alloc: Global, size: usize) -> Result<File, AllocError>
    ensures name { IfOk result (λ file. 4096 ≤ string_capacity file.name) }
    ensures bytes { IfOk result (λ file. size ≤ vec_capacity file.bytes) }
{
    Ok(File {
        name: String::with_capacity(alloc, NAME)?,
        bytes: Vec::with_capacity(alloc, size)?,
        reads: 0,
        writes: 0,
    })
}

// So many of these.
#[tactic(auto, using(crate::proofs::Rooms::from_push, std::proofs::lemmas::List::length_push))]
pub(crate) fn roomy_files(alloc: Global, count: usize, size: usize) -> Result<Vec<File>, AllocError>
    ensures count { IfOk result (λ files. length files.items ≡ count) }
    ensures names { IfOk result (λ files. AllFrom 4096 (name_lengths_of files.items)) }
    ensures bytes { IfOk result (λ files. AllFrom size (lengths_of files.items)) }
{
    let mut files = Vec::new(alloc);
    for i in 0..count {
        let _number = i;
        files.push(roomy(alloc, size)?)?;
    }
    Ok(files)
}

// An empty file in the room of another.
pub(crate) fn named(file: File, name: &str) -> Result<File, AllocError>
    ensures empty { IfOk result (λ new. IsEmptyFile name.now new) }
    ensures kept { IfOk result (λ new. vec_capacity new.bytes ≡ vec_capacity file.bytes) }
    ensures full { OnErr result (string_capacity file.name < length name.now) }
{
    let mut title = file.name;
    let mut bytes = file.bytes;
    title.clear();
    bytes.clear();
    title.push_str(name)?;
    Ok(File {
        name: title,
        bytes,
        reads: 0,
        writes: 0,
    })
}

// Room for a name so long.
fn make_name_room(name: &mut String, end: usize) -> Result<(), AllocError>
    ensures bytes { string_bytes name.new ≡ string_bytes name.old }
    ensures room { OnOk result (end ≤ string_capacity name.new) }
    ensures kept { string_capacity name.old ≤ string_capacity name.new }
{
    if end <= name.capacity() {
        return Ok(());
    }
    let more = end.saturating_sub(name.len());
    name.reserve(more)
}

// Room in a file for a name and for so many bytes.
fn widen_file(file: &mut File, name: usize, size: usize) -> Result<(), AllocError>
    ensures name { string_bytes file.new.name ≡ string_bytes file.old.name }
    ensures bytes { file.new.bytes.items ≡ file.old.bytes.items }
    ensures reads { file.new.reads ≡ file.old.reads }
    ensures writes { file.new.writes ≡ file.old.writes }
    ensures kept_name { string_capacity file.old.name ≤ string_capacity file.new.name }
    ensures kept_bytes { vec_capacity file.old.bytes ≤ vec_capacity file.new.bytes }
    ensures room_name { OnOk result (name ≤ string_capacity file.new.name) }
    ensures room_bytes { OnOk result (size ≤ vec_capacity file.new.bytes) }
{
    make_name_room(&mut file.name, name)?;
    make_room(&mut file.bytes, size)
}

// The same in each file.
pub(crate) fn widen(files: &mut Vec<File>, name: usize, size: usize) -> Result<(), AllocError>
    ensures same { IsSameFiles files.old.items files.new.items }
    ensures places { vec_capacity files.new ≡ vec_capacity files.old }
    ensures names { IsWider (name_lengths_of files.old.items) (name_lengths_of files.new.items) }
    ensures bytes { IsWider (lengths_of files.old.items) (lengths_of files.new.items) }
    ensures all_names { OnOk result (AllFrom name (name_lengths_of files.new.items)) }
    ensures all_bytes { OnOk result (AllFrom size (lengths_of files.new.items)) }
{
    for i in 0..files.len() {
        widen_file(&mut files[i], name, size)?;
    }
    Ok(())
}

// The place of the file of a name.
pub(crate) fn place(files: &[File], name: &str) -> Option<usize>
    ensures { result ≡ position (λ file. bytes_eq (string_bytes file.name) name.now) files.now }
{
    files.iter().position(|file| file.name.as_str() == name)
}

// Whether a number is one of these.
pub(crate) fn is_among(number: u64, numbers: &[u64]) -> bool
    ensures { IsTrue result ↔ Contains numbers.now number }
{
    numbers.contains(&number)
}

// Room for a file that ends there.
pub(crate) fn make_room(file: &mut Vec<u8>, end: usize) -> Result<(), AllocError>
    ensures items { file.new.items ≡ file.old.items }
    ensures room { OnOk result (end ≤ vec_capacity file.new) }
    ensures kept { vec_capacity file.old ≤ vec_capacity file.new }
    ensures full { OnErr result (vec_capacity file.old < end) }
{
    if end <= file.capacity() {
        return Ok(());
    }
    let more = end.saturating_sub(file.len());
    file.reserve(more)
}

// Makes a file so long at least, by zeros.
pub(crate) fn lengthen(file: &mut Vec<u8>, end: usize)
    requires { end ≤ vec_capacity file.old }
    ensures items { file.new.items ≡ file.old.items ++ replicate (end - length file.old.items) 0 }
    ensures kept { vec_capacity file.old ≤ vec_capacity file.new }
{
    if file.len() < end {
        file.resize(end, 0).unwrap();
    }
}

// Puts bytes in the place of others.
pub(crate) fn put_over(file: &mut [u8], at: usize, bytes: &[u8])
    requires { at + length bytes.now ≤ length file.old }
    ensures { file.new ≡ take at file.old ++ bytes.now ++ drop (at + length bytes.now) file.old }
{
    file[at..at + bytes.len()].copy_from_slice(bytes);
}

// Writes bytes at an offset, where there is room.
pub(crate) fn write_over(file: &mut Vec<u8>, at: usize, bytes: &[u8])
    requires { at + length bytes.now ≤ vec_capacity file.old }
    ensures items { file.new.items ≡ overlay file.old.items at bytes.now }
    ensures kept { vec_capacity file.old ≤ vec_capacity file.new }
{
    if bytes.is_empty() {
        return;
    }
    lengthen(file, at + bytes.len());
    put_over(file, at, bytes);
}

// Writes bytes into the file of this number, and notes it.
pub(crate) fn overwrite(
    alloc: Global,
    keep: bool,
    log: &mut Vec<Call>,
    file: &mut File,
    number: u32,
    at: u64,
    bytes: &[u8],
) -> Result<(), AllocError>
    requires { at + length bytes.now ≤ 2 ^ 62 }
    ensures bytes { OnOk result (file.new.bytes.items ≡ overlay file.old.bytes.items at bytes.now) }
    ensures noted { OnOk result (map change_of log.new.items ≡ map change_of log.old.items ++ noted keep (BytesWritten number at bytes.now ∷ UnderWay ∷ [])) }
    ensures unwritten { OnErr result (file.new.bytes.items ≡ file.old.bytes.items) }
    ensures unnoted { OnErr result (log.new.items ≡ log.old.items) }
    ensures name { file.new.name ≡ file.old.name }
    ensures reads { file.new.reads ≡ file.old.reads }
    ensures writes { file.new.writes ≡ file.old.writes }
    ensures kept { vec_capacity file.old.bytes ≤ vec_capacity file.new.bytes }
    ensures sure { keep ≡ false → at + length bytes.now ≤ vec_capacity file.old.bytes → IsOk result }
{
    make_room(&mut file.bytes, at as usize + bytes.len())?;
    note_write(alloc, keep, log, number, at, bytes)?;
    write_over(&mut file.bytes, at as usize, bytes);
    Ok(())
}

// Gives the file of this number other bytes, and notes it.
pub(crate) fn refill(
    alloc: Global,
    keep: bool,
    log: &mut Vec<Call>,
    file: &mut File,
    number: u32,
    bytes: &[u8],
) -> Result<(), AllocError>
    ensures bytes { OnOk result (file.new.bytes.items ≡ bytes.now) }
    ensures noted { OnOk result (map change_of log.new.items ≡ map change_of log.old.items ++ noted keep (FilePut number bytes.now ∷ [])) }
    ensures unwritten { OnErr result (file.new.bytes.items ≡ file.old.bytes.items) }
    ensures unnoted { OnErr result (log.new.items ≡ log.old.items) }
    ensures name { file.new.name ≡ file.old.name }
    ensures reads { file.new.reads ≡ file.old.reads }
    ensures writes { file.new.writes ≡ file.old.writes }
    ensures kept { vec_capacity file.old.bytes ≤ vec_capacity file.new.bytes }
    ensures sure { keep ≡ false → length bytes.now ≤ vec_capacity file.old.bytes → IsOk result }
{
    make_room(&mut file.bytes, bytes.len())?;
    note_put(alloc, keep, log, number, bytes)?;
    file.bytes.clear();
    file.bytes.extend_from_slice(bytes).unwrap();
    Ok(())
}

// Fills a buffer from an offset on.
#[tactic(auto, using(disk_model::proofs::Bytes::is_reading))]
pub(crate) fn read(from: &[u8], at: u64, out: &mut [u8])
    requires { at + length out.old ≤ 2 ^ 62 }
    ensures { out.new ≡ reading from.now at (length out.old) }
{
    for i in 0..out.len() {
        let place = at as usize + i;
        out[i] = if place < from.len() { from[place] } else { 0 };
    }
}

// One more, up to the largest.
pub(crate) fn raised(count: u64) -> u64
    ensures { result ≡ raised count }
{
    count.saturating_add(1)
}
