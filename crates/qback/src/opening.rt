//! An open file of the host, and the calls on it.

ghost use Rattle.std.specs.Prelude.{◌≡◌, ◌≢◌, ◌+◌, ◌^◌, ◌≤◌, length, true, OnOk, OnErr};
ghost use Rattle.qback.specs.Holding.{AnswersReads, AnswersWrites, AnswersSyncs};

use crate::files::Node;
use crate::locks::{self, Hold};
use disk_model::Failed;
use std::fs::File;
use std::io::ErrorKind;
use std::os::unix::fs::FileExt;

/// An open file, which it is, how it is held, and whether it stays when the depot goes.
#[derive(Drop)]
pub struct Opening {
    pub file: File,
    pub node: Node,
    pub hold: Hold,
    pub lasts: bool,
}

impl Opening {
    /// How many bytes it has.
    pub fn size(&self) -> Result<u64, Failed>
        ensures { OnOk result (AnswersReads self.now.hold) }
    {
        if !self.hold.reads() {
            return Err(Failed);
        }
        match self.file.metadata() {
            Ok(found) => Ok(found.len()),
            Err(_) => Err(Failed),
        }
    }

    /// Fills the buffer with what it has from here on, and with zeros past its end.
    pub fn read_at(&self, at: u64, out: &mut [u8]) -> Result<(), Failed>
        requires { at + length out.old ≤ 2 ^ 62 }
        ensures { OnOk result (AnswersReads self.now.hold) }
    {
        if !self.hold.reads() {
            return Err(Failed);
        }
        read_whole(&self.file, at, out)
    }

    /// Writes all of the bytes from here on. From the first write on it is held alone, or lost.
    pub fn write_at(&mut self, at: u64, bytes: &[u8]) -> Result<(), Failed>
        requires { at + length bytes.now ≤ 2 ^ 62 }
        ensures held { OnOk result (AnswersWrites self.new.hold) }
        ensures lost { AnswersReads self.new.hold → AnswersReads self.old.hold }
        ensures shared { self.new.hold ≢ Hold.Shared }
        ensures lasts { self.new.lasts ≡ self.old.lasts }
    {
        self.hold = locks::before_write(&self.file, self.hold);
        if !self.hold.writes() {
            return Err(Failed);
        }
        write_whole(&self.file, at, bytes)
    }

    /// Waits until a crash leaves what was written. From then on it stays when the depot goes.
    pub fn sync(&mut self) -> Result<(), Failed>
        ensures held { OnOk result (AnswersSyncs self.old.hold) }
        ensures hold { self.new.hold ≡ self.old.hold }
        ensures lasts { OnOk result (self.new.lasts ≡ true) }
        ensures kept { OnErr result (self.new.lasts ≡ self.old.lasts) }
    {
        if !self.hold.syncs() {
            return Err(Failed);
        }
        match self.file.sync_data() {
            Ok(()) => {
                self.lasts = true;
                Ok(())
            }
            Err(_) => Err(Failed),
        }
    }
}

/// Fills the buffer with what the file has from here on, and with zeros past its end.
fn read_whole(file: &File, at: u64, out: &mut [u8]) -> Result<(), Failed>
    requires { at + length out.old ≤ 2 ^ 62 }
{
    let mut done = 0;
    for _ in 0..u64::MAX {
        if done >= out.len() {
            return Ok(());
        }
        match file.read_at(&mut out[done..], at + done as u64) {
            Ok(0) => {
                out[done..].fill(0);
                return Ok(());
            }
            Ok(count) => done += count,
            Err(error) if error.kind() == ErrorKind::Interrupted => {}
            Err(_) => return Err(Failed),
        }
    }
    Err(Failed)
}

/// Writes all of the bytes from here on.
fn write_whole(file: &File, at: u64, bytes: &[u8]) -> Result<(), Failed>
    requires { at + length bytes.now ≤ 2 ^ 62 }
{
    let mut done = 0;
    for _ in 0..u64::MAX {
        if done >= bytes.len() {
            return Ok(());
        }
        match file.write_at(&bytes[done..], at + done as u64) {
            Ok(0) => return Err(Failed),
            Ok(count) => done += count,
            Err(error) if error.kind() == ErrorKind::Interrupted => {}
            Err(_) => return Err(Failed),
        }
    }
    Err(Failed)
}
