//! Clusters are prepared: counted, zeroed and synced, before anything refers to them.

ghost use Rattle.std.specs.Prelude.{◌≡◌, ◌≢◌, ◌↔◌, ◌⊎◌, ℕ, ◌+◌, ◌-◌, ◌*◌, ◌/◌, ◌%◌, ◌^◌, ◌<◌, ◌≤◌, List, length, max, min, Some, None, Ok, Err, IfOk, IfErr, OnOk, OnErr, IsTrue};
ghost use Rattle.disk_model.specs.World.{World};
ghost use Rattle.disk_model.specs.declared.depot.WriteRefusal.TheVariants as refusals;
ghost use Rattle.file_device.specs.Calls.{Puts};
ghost use Rattle.cluster_pool.specs.Pool.{IsPool, room, fresh, reach, each, block_of, HasNoRunOf, IsFirstRunOf};
ghost use Rattle.image_model.specs.Calls.{AreOnes};
ghost use Rattle.qc_alloc.specs.Allocator.{IsAllocator};
ghost use Rattle.qc_alloc.specs.Growing.{at_once, Raises, Grows, NamesBlocks, MendsBlocks, TakesRun};

use crate::clusters::Clusters;
use disk_model::{Depot, Failed, WriteRefusal};

/// No call prepares more clusters beyond what is asked for than these bytes have.
const MOST_BYTES: u64 = 64 << 20;

/// Nor more than this.
const MOST_CLUSTERS: u64 = 1 << 15;

// Writes so many counts of 1.
fn write_ones(counts: &mut [u8], count: usize)
    requires { 2 * count ≤ length counts.old }
    ensures ones { AreOnes count counts.new }
    ensures same_length { length counts.new ≡ length counts.old }
{
    for index in 0..count {
        counts[2 * index] = 0;
        counts[2 * index + 1] = 1;
    }
}

impl Clusters {
    /// Makes at least `want` clusters ready, at most 64: counted once, zero, and synced so. It prepares more than is asked for, twice
    /// as many as the last time, so that a long write of new clusters seldom waits for a sync, but no more beyond than a sixteenth of the
    /// fresh ones. `NoRoom` comes exactly where fewer can
    /// be handed out, and then nothing is done.
    pub fn top_up<D: Depot>(&mut self, depot: &mut D, want: usize) -> Result<(), WriteRefusal>
        requires given { self.old.file < (D.world depot.old).given }
        requires few { want ≤ 64 }

        ensures room { (result ≡ Err refusals.NoRoom) ↔ (room self.old.pool < want) }
        ensures kept { result ≡ Err refusals.NoRoom → (self.new ≡ self.old) × (D.world depot.new ≡ D.world depot.old) }
        ensures ready { OnOk result (length self.new.pool.ready ≡ max want (length self.old.pool.ready)) }
        ensures pool { Raises self.old.pool self.new.pool }
        ensures grows { Grows self.old self.new (D.world depot.old) (D.world depot.new) }
        ensures words { OnOk result (MendsBlocks self.old self.new (D.world depot.old) (D.world depot.new)) }
        ensures most { self.new.pool.prepared ≤ max self.old.pool.prepared (self.new.pool.next + (want - length self.old.pool.ready) + fresh self.old.pool / 16) }
        ensures bytes { self.new.pool.prepared ≤ max self.old.pool.prepared (self.new.pool.next + max want (at_once self.old.pool.bits)) }
        ensures puts { result ≢ Err refusals.NoRoom → Puts self.old.file (D.world depot.old) (D.world depot.new) result }
    {
        if self.pool.room() < want as u64 {
            return Err(WriteRefusal::NoRoom);
        }
        while self.pool.ready() < want {
            if self.pool.next() < self.pool.prepared() {
                self.pool.step();
            } else {
                let lack = (want - self.pool.ready()) as u64;
                let count = self.plan(lack);
                self.prepare(depot, count)?;
            }
        }
        Ok(())
    }

    /// Takes the first of so many neighbours, each counted once, zero, and synced so. They are the first fresh ones of which none becomes a
    /// refcount block; fresh ones before them are passed over. `NoRoom` comes exactly where there is no such run, and then nothing is done.
    ///
    /// Clusters that are ready lie below a run: whoever needs them takes them before the run is used (see `HandsOut`).
    pub fn take_run<D: Depot>(&mut self, depot: &mut D, count: u64) -> Result<u64, WriteRefusal>
        requires given { self.old.file < (D.world depot.old).given }
        requires some { 0 < count }

        ensures room { (result ≡ Err refusals.NoRoom) ↔ HasNoRunOf self.old.pool count }
        ensures kept { result ≡ Err refusals.NoRoom → (self.new ≡ self.old) × (D.world depot.new ≡ D.world depot.old) }
        ensures takes { IfOk result (TakesRun self.old.pool self.new.pool count) }
        ensures failed { OnErr result (Raises self.old.pool self.new.pool × (self.new.pool.ready ≡ self.old.pool.ready)) }
        ensures grows { Grows self.old self.new (D.world depot.old) (D.world depot.new) }
        ensures words { OnOk result (MendsBlocks self.old self.new (D.world depot.old) (D.world depot.new)) }
        ensures most { (first : ℕ) → IsFirstRunOf self.old.pool count first → self.new.pool.prepared ≤ max self.old.pool.prepared (first + count) }
        ensures puts { result ≢ Err refusals.NoRoom → Puts self.old.file (D.world depot.old) (D.world depot.new) result }
    {
        let first = match self.pool.find_run(count) {
            Some(first) => first,
            None => return Err(WriteRefusal::NoRoom),
        };
        while self.pool.prepared() < first + count {
            let most = first + count - self.pool.prepared();
            self.prepare(depot, most)?;
        }
        self.pool.take_run(first, count);
        Ok(first)
    }

    // How many clusters to prepare where so many are asked for.
    fn plan(&self, lack: u64) -> u64
        requires { lack ≤ 64 }
        ensures least { lack ≤ result }
        ensures most { result ≤ lack + fresh self.now.pool / 16 }
        ensures bytes { result ≤ max lack (at_once self.now.pool.bits) }
        ensures few { result ≤ 2 ^ 30 }
    {
        let limit = (MOST_BYTES >> self.pool.cluster_bits()).min(MOST_CLUSTERS);
        let more = (2 * self.batch)
            .min(limit)
            .min(lack + self.pool.fresh() / 16);
        lack.max(more)
    }

    // Prepares the next clusters: at most so many, and as many as their block counts; or adds that block.
    fn prepare<D: Depot>(&mut self, depot: &mut D, most: u64) -> Result<(), Failed>
        requires given { self.old.file < (D.world depot.old).given }
        requires some { 0 < most }
        requires below { self.old.pool.prepared < reach self.old.pool }

        ensures more { OnOk result (self.old.pool.prepared < self.new.pool.prepared) }
        ensures most { self.new.pool.prepared ≤ self.old.pool.prepared + most }
        ensures kept { (self.new.pool.ready ≡ self.old.pool.ready) × (self.new.pool.next ≡ self.old.pool.next) }
        ensures pool { Raises self.old.pool self.new.pool }
        ensures grows { Grows self.old self.new (D.world depot.old) (D.world depot.new) }
        ensures words { OnOk result (NamesBlocks self.old self.new (D.world depot.old) (D.world depot.new)) }
        ensures puts { Puts self.old.file (D.world depot.old) (D.world depot.new) result }
    {
        let each = 1u64 << (self.pool.cluster_bits() - 1);
        let last = self.pool.prepared();
        let block = self.pool.block((last / each) as usize);
        if block == 0 {
            return self.add_block(depot);
        }
        let count = most
            .min(each - last % each)
            .min(self.pool.reach() - last)
            .min((self.counts.len() / 2) as u64);
        self.batch = count;
        self.count_clusters(depot, block, count)
    }

    // Counts so many clusters, in a block that is there.
    fn count_clusters<D: Depot>(
        &mut self,
        depot: &mut D,
        block: u64,
        count: u64,
    ) -> Result<(), Failed>
        requires given { self.old.file < (D.world depot.old).given }
        requires some { 0 < count }
        requires linked { block ≢ 0 }
        requires block { block ≡ block_of self.old.pool self.old.pool.prepared }
        requires within { self.old.pool.prepared % each self.old.pool + count ≤ each self.old.pool }
        requires below { self.old.pool.prepared + count ≤ reach self.old.pool }
        requires few { count ≤ 2 ^ 15 }

        ensures more { OnOk result (self.new.pool.prepared ≡ self.old.pool.prepared + count) }
        ensures most { self.new.pool.prepared ≤ self.old.pool.prepared + count }
        ensures kept { (self.new.pool.ready ≡ self.old.pool.ready) × (self.new.pool.next ≡ self.old.pool.next) }
        ensures pool { Raises self.old.pool self.new.pool }
        ensures grows { Grows self.old self.new (D.world depot.old) (D.world depot.new) }
        ensures words { OnOk result (NamesBlocks self.old self.new (D.world depot.old) (D.world depot.new)) }
        ensures puts { Puts self.old.file (D.world depot.old) (D.world depot.new) result }
    {
        let bits = self.pool.cluster_bits();
        let last = self.pool.prepared();
        let spot = block + 2 * (last % (1 << (bits - 1)));
        let finish = ((last + count) << bits) - 1;
        write_ones(&mut self.counts, count as usize);
        image_calls::top_up(
            depot,
            self.file,
            finish,
            spot,
            &self.counts[..2 * count as usize],
        )?;
        self.pool.prepare(count);
        Ok(())
    }

    // The next cluster becomes the block that counts it.
    fn add_block<D: Depot>(&mut self, depot: &mut D) -> Result<(), Failed>
        requires given { self.old.file < (D.world depot.old).given }
        requires missing { block_of self.old.pool self.old.pool.prepared ≡ 0 }
        requires below { self.old.pool.prepared < reach self.old.pool }

        ensures more { OnOk result (self.new.pool.prepared ≡ self.old.pool.prepared + 1) }
        ensures most { self.new.pool.prepared ≤ self.old.pool.prepared + 1 }
        ensures kept { (self.new.pool.ready ≡ self.old.pool.ready) × (self.new.pool.next ≡ self.old.pool.next) }
        ensures pool { Raises self.old.pool self.new.pool }
        ensures grows { Grows self.old self.new (D.world depot.old) (D.world depot.new) }
        ensures words { OnOk result (NamesBlocks self.old self.new (D.world depot.old) (D.world depot.new)) }
        ensures puts { Puts self.old.file (D.world depot.old) (D.world depot.new) result }
    {
        let bits = self.pool.cluster_bits();
        let each = 1u64 << (bits - 1);
        let last = self.pool.prepared();
        let (index, slot) = (last / each, last % each);
        let finish = ((last + 1) << bits) - 1;
        let end = if slot + 1 == each { 1 } else { 0 };
        let spot = (last << bits) + 2 * slot;
        let at = self.table + 8 * index;
        image_calls::add_block(depot, self.file, finish, end, spot, at, last << bits)?;
        self.pool.add_block();
        Ok(())
    }
}
