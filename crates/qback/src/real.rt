//! The files and the standard output of the host.

ghost use Rattle.std.specs.Prelude.{◌≡◌, [], IfOk};
ghost use Rattle.qback.specs.Real.{real, real_sound};

use crate::files;
use crate::table::Table;
use disk_model::{Console, Depot, Failed, FileNo, Made, Outside};
use std::alloc::{AllocError, Global};
use std::fs::File;
use std::io::{self, ErrorKind};
use std::rt::Files;

/// The files of the host, by their places in a table of those opened, and its standard output.
///
/// It tells its counts of faults and the names in its table, and nothing of what files hold. A file that it made is
/// removed when it goes, unless a sync of it ended well.
pub struct RealDepot<R: Files<File = File> + Print + Drop> {
    rt: R,
    alloc: Global,
    table: Table,
}

impl<R: Files<File = File> + Print + Drop> RealDepot<R> {
    /// A depot that has opened nothing.
    pub fn new(rt: R, alloc: Global) -> Result<RealDepot<R>, AllocError>
        ensures { IfOk result (λ depot. (depot.table.entries.items ≡ []) × (depot.table.faults ≡ 0) × (depot.table.print_faults ≡ 0)) }
    {
        let table = Table::new(alloc)?;
        Ok(RealDepot { rt, alloc, table })
    }

    /// Removes the files that were made and never synced.
    fn remove_blanks(&self) {
        for opened in &self.table.entries {
            if !opened.opening.lasts {
                files::remove(&self.rt, opened.name.as_str(), &opened.opening.file);
            }
        }
    }
}

impl<R: Files<File = File> + Print + Drop> Drop for RealDepot<R> {
    fn drop(self) {
        self.remove_blanks();
        let RealDepot {
            rt: _,
            alloc: _,
            table: _,
        } = self;
    }
}

/// Whether an error says that there is no file of this name, be it below a regular file.
fn tells_no_file(error: &io::Error) -> bool {
    error.kind() == ErrorKind::NotFound || error.kind() == ErrorKind::NotADirectory
}

/// Prints all of the bytes.
fn print_whole(rt: &impl Print, bytes: &[u8]) -> Result<(), Failed> {
    let mut done = 0;
    for _ in 0..u64::MAX {
        if done >= bytes.len() {
            return Ok(());
        }
        match rt.write_some(&bytes[done..]) {
            Ok(0) => return Err(Failed),
            Ok(count) => done += count,
            Err(error) if error.kind() == ErrorKind::Interrupted => {}
            Err(_) => return Err(Failed),
        }
    }
    Err(Failed)
}

impl<R: Files<File = File> + Print + Drop> Outside for RealDepot<R> {
    ghost world = { λ s. real s.table };
}

impl<R: Files<File = File> + Print + Drop> Console for RealDepot<R> {
    fn print(&mut self, text: &[u8]) -> Result<(), Failed> {
        match print_whole(&self.rt, text) {
            Ok(()) => Ok(()),
            Err(_) => Err(self.table.print_fault()),
        }
    }
}

impl<R: Files<File = File> + Print + Drop> Depot for RealDepot<R> {
    ghost sound = { λ s. real_sound s.table };

    /// A file that is open by another name fails: two numbers would stand for one file.
    fn find(&mut self, name: &str) -> Result<Option<FileNo>, Failed> {
        if let Some(file) = self.table.number_of(name) {
            return Ok(Some(file));
        }
        match files::open(&self.rt, name) {
            Ok(opening) if self.table.has(opening.node) => Err(self.table.fault()),
            Ok(opening) => {
                let (file, name) = self.table.reserve(self.alloc, name)?;
                self.table.add(opening, name);
                Ok(Some(file))
            }
            Err(error) if tells_no_file(&error) => Ok(None),
            Err(_) => Err(self.table.fault()),
        }
    }

    fn make(&mut self, name: &str) -> Result<Made, Failed> {
        if self.table.number_of(name).is_some() {
            return Ok(Made::Exists);
        }
        let (file, text) = self.table.reserve(self.alloc, name)?;
        match files::create(&self.rt, name) {
            Ok(opening) => {
                self.table.add(opening, text);
                Ok(Made::New(file))
            }
            Err(error) if error.kind() == ErrorKind::AlreadyExists => Ok(Made::Exists),
            Err(_) => Err(self.table.fault()),
        }
    }

    fn size(&mut self, file: FileNo) -> Result<u64, Failed> {
        self.table.size(file)
    }

    fn read_at(&mut self, file: FileNo, at: u64, out: &mut [u8]) -> Result<(), Failed> {
        self.table.read_at(file, at, out)
    }

    fn write_at(&mut self, file: FileNo, at: u64, bytes: &[u8]) -> Result<(), Failed> {
        self.table.write_at(file, at, bytes)
    }

    fn sync(&mut self, file: FileNo) -> Result<(), Failed> {
        self.table.sync(file)
    }
}
