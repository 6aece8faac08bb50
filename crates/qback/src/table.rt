//! The files that a run has opened, by their numbers, and how often calls failed.

ghost use Rattle.std.specs.Prelude.{◌≡◌, [], ◌+◌, ◌^◌, ◌<◌, ◌≤◌, length, vec_len, vec_capacity, string_bytes, IfOk, IfSome, OnOk, OnErr};
ghost use Rattle.disk_model.specs.World.{Runs, nothing, reads_of, writes_of, only_text, IsGiven, Rose, ReadCause, WriteCause, IsQuiet};
ghost use Rattle.qback.specs.Real.{real};

use crate::files::Node;
use crate::opening::Opening;
use disk_model::{Failed, FileNo};
use std::alloc::{AllocError, Global};

/// How many files the table has room for at first.
const ROOM: usize = 4;

/// An open file, its name, and how often a read and a write of it failed.
#[derive(Drop)]
pub struct Opened {
    pub opening: Opening,
    pub name: String,
    read_faults: u64,
    write_faults: u64,
}

/// The files opened, by their places in it, and how often any call and a print failed.
#[derive(Drop)]
pub struct Table {
    pub entries: Vec<Opened>,
    faults: u64,
    print_faults: u64,
}

impl Table {
    /// One without a file.
    pub fn new(alloc: Global) -> Result<Table, AllocError>
        ensures { IfOk result (λ table. (table.entries.items ≡ []) × (table.faults ≡ 0) × (table.print_faults ≡ 0)) }
    {
        let entries = Vec::with_capacity(alloc, ROOM)?;
        Ok(Table {
            entries,
            faults: 0,
            print_faults: 0,
        })
    }

    /// Counts a fault of a call on no file.
    pub fn fault(&mut self) -> Failed
        ensures run { Runs nothing (real self.old) (real self.new) }
        ensures rose { Rose (real self.old).faults.shared (real self.new).faults.shared }
    {
        self.faults = self.faults.saturating_add(1);
        Failed
    }

    /// Counts a fault of a read of this file.
    fn read_fault(&mut self, file: FileNo) -> Failed
        requires { file.0 < length self.old.entries.items }
        ensures run { Runs (reads_of file.0) (real self.old) (real self.new) }
        ensures rose { Rose (real self.old).faults.shared (real self.new).faults.shared }
        ensures read { Rose ((real self.old).faults.reads file.0) ((real self.new).faults.reads file.0) }
    {
        self.faults = self.faults.saturating_add(1);
        let opened = &mut self.entries[file.0 as usize];
        opened.read_faults = opened.read_faults.saturating_add(1);
        Failed
    }

    /// Counts a fault of a write or a sync of this file.
    fn write_fault(&mut self, file: FileNo) -> Failed
        requires { file.0 < length self.old.entries.items }
        ensures run { Runs (writes_of file.0) (real self.old) (real self.new) }
        ensures rose { Rose (real self.old).faults.shared (real self.new).faults.shared }
        ensures wrote { Rose ((real self.old).faults.writes file.0) ((real self.new).faults.writes file.0) }
    {
        self.faults = self.faults.saturating_add(1);
        let opened = &mut self.entries[file.0 as usize];
        opened.write_faults = opened.write_faults.saturating_add(1);
        Failed
    }

    /// Counts a fault of a print.
    pub fn print_fault(&mut self) -> Failed
        ensures run { Runs only_text (real self.old) (real self.new) }
        ensures rose { Rose (real self.old).faults.shared (real self.new).faults.shared }
        ensures printed { Rose (real self.old).faults.prints (real self.new).faults.prints }
    {
        self.faults = self.faults.saturating_add(1);
        self.print_faults = self.print_faults.saturating_add(1);
        Failed
    }

    /// The number of this name.
    pub fn number_of(&self, name: &str) -> Option<FileNo>
        ensures { IfSome result (λ f. IsGiven f.0 name.now (real self.now)) }
    {
        for (index, opened) in self.entries.iter().enumerate() {
            if opened.name.as_str() == name {
                return match u32::try_from(index) {
                    Ok(number) => Some(FileNo(number)),
                    Err(_) => None,
                };
            }
        }
        None
    }

    /// Whether this file of the host is open, by whatever name.
    pub fn has(&self, node: Node) -> bool {
        self.entries
            .iter()
            .any(|opened| opened.opening.node == node)
    }

    /// Takes room for one more file and its name.
    pub fn reserve(&mut self, alloc: Global, name: &str) -> Result<(FileNo, String), Failed>
        ensures run { Runs nothing (real self.old) (real self.new) }
        ensures room { OnOk result (vec_len self.new.entries < vec_capacity self.new.entries) }
        ensures number { IfOk result (λ place. place.0.0 ≡ length self.new.entries.items) }
        ensures name { IfOk result (λ place. string_bytes place.1 ≡ name.now) }
        ensures quiet { OnOk result (IsQuiet (real self.old) (real self.new)) }
        ensures cause { OnErr result (Rose (real self.old).faults.shared (real self.new).faults.shared) }
    {
        let Ok(number) = u32::try_from(self.entries.len()) else {
            return Err(self.fault());
        };
        let Ok(name) = String::from_str(alloc, name) else {
            return Err(self.fault());
        };
        match self.entries.reserve(1) {
            Ok(()) => Ok((FileNo(number), name)),
            Err(_) => Err(self.fault()),
        }
    }

    /// Puts an open file into the room that was taken.
    pub fn add(&mut self, opening: Opening, name: String)
        requires { vec_len self.old.entries < vec_capacity self.old.entries }
        ensures run { Runs nothing (real self.old) (real self.new) }
        ensures quiet { IsQuiet (real self.old) (real self.new) }
        ensures given { IsGiven (length self.old.entries.items) (string_bytes name) (real self.new) }
    {
        self.entries.push_reserved(Opened {
            opening,
            name,
            read_faults: 0,
            write_faults: 0,
        });
    }

    /// How many bytes a file has.
    pub fn size(&mut self, file: FileNo) -> Result<u64, Failed>
        requires { file.0 < length self.old.entries.items }
        ensures run { Runs (reads_of file.0) (real self.old) (real self.new) }
        ensures quiet { OnOk result (IsQuiet (real self.old) (real self.new)) }
        ensures cause { ReadCause (real self.old) (real self.new) file.0 result }
    {
        match self.entries[file.0 as usize].opening.size() {
            Ok(bytes) => Ok(bytes),
            Err(Failed) => Err(self.read_fault(file)),
        }
    }

    /// Reads bytes of a file.
    pub fn read_at(&mut self, file: FileNo, at: u64, out: &mut [u8]) -> Result<(), Failed>
        requires given { file.0 < length self.old.entries.items }
        requires end { at + length out.old ≤ 2 ^ 62 }
        ensures run { Runs (reads_of file.0) (real self.old) (real self.new) }
        ensures quiet { OnOk result (IsQuiet (real self.old) (real self.new)) }
        ensures cause { ReadCause (real self.old) (real self.new) file.0 result }
    {
        match self.entries[file.0 as usize].opening.read_at(at, out) {
            Ok(()) => Ok(()),
            Err(Failed) => Err(self.read_fault(file)),
        }
    }

    /// Writes bytes of a file.
    pub fn write_at(&mut self, file: FileNo, at: u64, bytes: &[u8]) -> Result<(), Failed>
        requires given { file.0 < length self.old.entries.items }
        requires end { at + length bytes.now ≤ 2 ^ 62 }
        ensures run { Runs (writes_of file.0) (real self.old) (real self.new) }
        ensures quiet { OnOk result (IsQuiet (real self.old) (real self.new)) }
        ensures cause { WriteCause (real self.old) (real self.new) file.0 result }
    {
        match self.entries[file.0 as usize].opening.write_at(at, bytes) {
            Ok(()) => Ok(()),
            Err(Failed) => Err(self.write_fault(file)),
        }
    }

    /// Waits until a crash leaves what a file was written.
    pub fn sync(&mut self, file: FileNo) -> Result<(), Failed>
        requires { file.0 < length self.old.entries.items }
        ensures run { Runs (writes_of file.0) (real self.old) (real self.new) }
        ensures quiet { OnOk result (IsQuiet (real self.old) (real self.new)) }
        ensures cause { WriteCause (real self.old) (real self.new) file.0 result }
    {
        match self.entries[file.0 as usize].opening.sync() {
            Ok(()) => Ok(()),
            Err(Failed) => Err(self.write_fault(file)),
        }
    }
}
