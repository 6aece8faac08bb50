//! A depot that counts calls, and hands them on to another.

ghost use Rattle.std.specs.Prelude.{◌≡◌};

use disk_model::{Depot, Failed, FileNo, Made, Outside};

/// A depot, and how many reads, writes and syncs it was asked for.
#[derive(Drop)]
pub(crate) struct Counting<D: Depot + Drop> {
    pub(crate) inner: D,
    pub(crate) reads: u64,
    pub(crate) writes: u64,
    pub(crate) syncs: u64,
}

impl<D: Depot + Drop> Outside for Counting<D> {
    ghost world = { λ c. D.world c.inner };
}

impl<D: Depot + Drop> Depot for Counting<D> {
    ghost sound = { λ c. D.Depot.sound c.inner };

    fn find(&mut self, name: &str) -> Result<Option<FileNo>, Failed> {
        self.inner.find(name)
    }

    fn make(&mut self, name: &str) -> Result<Made, Failed> {
        self.inner.make(name)
    }

    fn size(&mut self, file: FileNo) -> Result<u64, Failed> {
        self.inner.size(file)
    }

    fn read_at(&mut self, file: FileNo, at: u64, out: &mut [u8]) -> Result<(), Failed> {
        self.reads = self.reads.saturating_add(1);
        self.inner.read_at(file, at, out)
    }

    fn write_at(&mut self, file: FileNo, at: u64, bytes: &[u8]) -> Result<(), Failed> {
        self.writes = self.writes.saturating_add(1);
        self.inner.write_at(file, at, bytes)
    }

    fn sync(&mut self, file: FileNo) -> Result<(), Failed> {
        self.syncs = self.syncs.saturating_add(1);
        self.inner.sync(file)
    }
}
