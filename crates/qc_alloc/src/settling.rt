//! Refcounts are settled: 1 for each cluster that something refers to, 0 for every other.

ghost use Rattle.std.specs.Prelude.{◌≡◌, ◌≢◌, ℕ, ◌+◌, ◌*◌, ◌/◌, ◌^◌, ◌<◌, ◌≤◌, List, [], ◌∷◌, length, OnOk};
ghost use Rattle.file_device.specs.Calls.{Puts};
ghost use Rattle.file_device.specs.File.{file_of, IsSettled};
ghost use Rattle.bitmap_model.specs.Granules.{is_in};
ghost use Rattle.image_model.specs.Clusters.{Shape, IsSafe, Moves, Reads};
ghost use Rattle.image_model.specs.Calls.{Told, AreNamed, AreSettled, LeavesGuest, SameTables};
ghost use Rattle.cluster_pool.specs.Pool.{IsPool, each, block_at};
ghost use Rattle.qc_alloc.specs.Allocator.{Allocates, HandsOut};
ghost use Rattle.qc_alloc.specs.Growing.{after_settling};
ghost use Rattle.qc_alloc.specs.Settling.{SettlesOn, SettlesAll, AreCountsOf};

use crate::clusters::Clusters;
use cluster_pool::Pool;
use disk_model::{Depot, Failed};
use image_calls::{rest, settle_counts};

// How many clusters a block counts.
fn each_of(pool: &Pool) -> u64
    ensures each { result ≡ each pool.now }
    ensures double { 2 * result ≡ 2 ^ pool.now.bits }
    ensures few { result ≤ 2 ^ 20 }
    ensures pool { IsPool pool.now }
{
    1 << (pool.cluster_bits() - 1)
}

// Fills the buffer with the counts of so many clusters from one on: 1 for each that is spoken for, else 0.
fn write_counts(pool: &Pool, from: u64, count: usize, counts: &mut Vec<u8>)
    requires end { from + count ≤ 2 ^ 62 }
    requires long { 2 * count ≤ length counts.old.items }
    ensures counts { AreCountsOf (is_in pool.now.spoken) from count counts.new.items }
    ensures same_length { length counts.new.items ≡ length counts.old.items }
{
    for index in 0..count {
        let low = if pool.is_spoken(from + index as u64) {
            1
        } else {
            0
        };
        counts[2 * index] = 0;
        counts[2 * index + 1] = low;
    }
}

impl Clusters {
    /// Gives each cluster that was claimed or taken, and not given back since, refcount 1, and every other 0. No cluster is ready
    /// afterwards, whatever it answers.
    pub fn settle<D: Depot>(&mut self, depot: &mut D) -> Result<(), Failed>
        requires given { self.old.file < (D.world depot.old).given }

        ensures pool { self.new ≡ record self.old { pool = after_settling result self.old.pool } }
        ensures hands { HandsOut self.new.pool.next self.new }

        // Where each cluster that something refers to is spoken for, each crash leaves a file that an opening takes.
        ensures moves { (s : Shape) (disks : List (List ℕ)) (first : ℕ) → Told (AreNamed s (is_in self.old.pool.spoken)) self.old.file (D.world depot.old) →
            Moves self.old.file (IsSafe s disks) (Allocates s disks first self.old) (Allocates s disks self.new.pool.next self.new) (D.world depot.old) (D.world depot.new) }
        ensures one { OnOk result ((s : Shape) (disks : List (List ℕ)) (first : ℕ) → Told (AreNamed s (is_in self.old.pool.spoken)) self.old.file (D.world depot.old) →
            Moves self.old.file (IsSafe s disks) (Allocates s disks first self.old)
            (Allocates s ((D.world depot.new).seen self.old.file ∷ []) self.new.pool.next self.new) (D.world depot.old) (D.world depot.new)) }
        ensures counts { OnOk result ((s : Shape) (disks : List (List ℕ)) (first : ℕ) → Told (AreNamed s (is_in self.old.pool.spoken)) self.old.file (D.world depot.old) →
            Reads self.old.file (Allocates s disks first self.old) (λ old new. AreSettled s (is_in self.old.pool.spoken) new) (D.world depot.old) (D.world depot.new)) }
        ensures leaves { (s : Shape) (disks : List (List ℕ)) (first : ℕ) → Told (AreNamed s (is_in self.old.pool.spoken)) self.old.file (D.world depot.old) →
            Reads self.old.file (Allocates s disks first self.old) (λ old new. LeavesGuest s old new × SameTables s old new) (D.world depot.old) (D.world depot.new) }

        ensures settled { OnOk result (IsSettled (file_of (D.world depot.new) self.old.file)) }
        ensures puts { Puts self.old.file (D.world depot.old) (D.world depot.new) result }
    {
        let file = self.file;
        self.pool.empty();
        rest(depot, file)?;
        self.settle_blocks(depot)?;
        rest(depot, file)?;
        self.pool.settle();
        Ok(())
    }

    // Writes the counts of all blocks.
    fn settle_blocks<D: Depot>(&mut self, depot: &mut D) -> Result<(), Failed>
        requires given { self.old.file < (D.world depot.old).given }

        ensures same { self.new ≡ self.old }
        ensures goes { SettlesOn self.old (D.world depot.old) (D.world depot.new) }
        ensures counts { OnOk result (SettlesAll self.old 0 (each self.old.pool * length self.old.pool.blocks) (D.world depot.old) (D.world depot.new)) }
        ensures puts { Puts self.old.file (D.world depot.old) (D.world depot.new) result }
    {
        for index in 0..self.pool.block_count() {
            self.settle_block(depot, index)?;
        }
        Ok(())
    }

    // Writes the counts of one block, where it is there.
    fn settle_block<D: Depot>(&mut self, depot: &mut D, index: usize) -> Result<(), Failed>
        requires given { self.old.file < (D.world depot.old).given }
        requires index { index < length self.old.pool.blocks }

        ensures same { self.new ≡ self.old }
        ensures goes { SettlesOn self.old (D.world depot.old) (D.world depot.new) }
        ensures counts { OnOk result (SettlesAll self.old (each self.old.pool * index) (each self.old.pool) (D.world depot.old) (D.world depot.new)) }
        ensures puts { Puts self.old.file (D.world depot.old) (D.world depot.new) result }
    {
        if self.pool.block(index) == 0 {
            return Ok(());
        }
        let each = each_of(&self.pool);
        let most = (self.counts.len() / 2) as u64;
        let mut slot = 0;
        while slot < each {
            let count = most.min(each - slot);
            self.settle_slots(depot, index, slot, count)?;
            slot += count;
        }
        Ok(())
    }

    // Writes the counts of so many slots of a block that is there, from one on.
    fn settle_slots<D: Depot>(
        &mut self,
        depot: &mut D,
        index: usize,
        slot: u64,
        count: u64,
    ) -> Result<(), Failed>
        requires given { self.old.file < (D.world depot.old).given }
        requires index { index < length self.old.pool.blocks }
        requires there { block_at self.old.pool index ≢ 0 }
        requires within { slot + count ≤ each self.old.pool }
        requires few { count ≤ 2 ^ 15 }

        ensures same { self.new ≡ self.old }
        ensures goes { SettlesOn self.old (D.world depot.old) (D.world depot.new) }
        ensures counts { OnOk result (SettlesAll self.old (each self.old.pool * index + slot) count (D.world depot.old) (D.world depot.new)) }
        ensures puts { Puts self.old.file (D.world depot.old) (D.world depot.new) result }
    {
        let file = self.file;
        let from = index as u64 * each_of(&self.pool) + slot;
        let spot = self.pool.block(index) + 2 * slot;
        write_counts(&self.pool, from, count as usize, &mut self.counts);
        settle_counts(depot, file, spot, &self.counts[..2 * count as usize])
    }
}
