//! Data in the place of holes and zeros: into clusters that were counted, zeroed and synced before.

ghost use Rattle.std.specs.Prelude.{◌≡◌, ◌≢◌, ℕ, ◌+◌, ◌-◌, ◌*◌, ◌%◌, ◌/◌, ◌^◌, ◌<◌, ◌≤◌, List, length, take, Err, IfOk, IsTrue};
ghost use Rattle.bitmap_model.specs.Granules.{is_in};
ghost use Rattle.cluster_pool.specs.Pool.{room};
ghost use Rattle.image_model.specs.Clusters.{Shape};
ghost use Rattle.image_model.specs.Runs.{AreLinks};
ghost use Rattle.qc_map.specs.Altering.{stores, IsSameImage, UsesUpTo, Alters, HasAltered, KnowsOn, ToldRow, AreAllOpen};
ghost use Rattle.qc_map.specs.Failures.{Went, failure};
ghost use Rattle.qc_map.specs.Filling.{AreGiven, AreFreed, NamesBelow};
ghost use Rattle.qc_map.specs.Mapping.{IsMapping, mapping};
ghost use Rattle.qc_map.specs.declared.failures.NotWritten.TheVariants as failures;
ghost use Rattle.qc_map.specs.declared.failures.Failing.TheVariants as failing;

use crate::failures::{Failing, NotWritten};
use crate::layout::Layout;
use disk_model::{Depot, WriteRefusal};
use image_calls::{NotStored, write_run};
use map_rows::{cluster_of, offset_at};
use qc_alloc::laws::{
    entries_stay_exact, prepared_is_clean, prepared_stays_exact, use_leaves_image,
};
use qc_alloc::{Clusters, Neighbours};

/// How many clusters one call links at most: as many as may be ready at once.
const AT_ONCE: usize = 64;

/// What an entry has beside an offset, where it names a cluster that is counted once.
const ONCE: u64 = 1 << 63;

// Writes entries that name so many clusters from one on, each counted once.
fn write_links(entries: &mut [u8], cluster_bits: u32, taken: Neighbours)
    requires low { 9 ≤ cluster_bits }
    requires high { cluster_bits ≤ 21 }
    requires below { taken.first + taken.count ≤ 2 ^ 30 }
    requires long { length entries.old ≡ 8 * taken.count }
    ensures links { (s : Shape) → 2 ^ cluster_bits ≡ 512 * s.sectors → AreLinks s taken.first taken.count entries.new }
{
    for index in 0..taken.count as usize {
        let word = ((taken.first + index as u64) << cluster_bits) + ONCE;
        entries[8 * index..8 * index + 8].copy_from_slice(&word.to_be_bytes());
    }
}

// Gives clusters back that were taken.
fn give_back_all(clusters: &mut Clusters, taken: Neighbours)
    requires taken { (k : ℕ) → taken.first ≤ k → k < taken.first + taken.count → IsTrue (is_in clusters.old.pool.spoken k) }
    ensures given { AreGiven clusters.old clusters.new taken.first taken.count }
{
    let _room = clusters.room();
    for behind in 0..taken.count {
        clusters.give_back(taken.first + behind);
    }
}

/// Gives the clusters back that entries in a row name, as far as they were claimed or taken.
pub(crate) fn give_back_named(clusters: &mut Clusters, cluster_bits: u32, row: &[u8], count: usize)
    requires low { 9 ≤ cluster_bits }
    requires high { cluster_bits ≤ 21 }
    requires long { 8 * count ≤ length row.now }
    requires few { length row.now ≤ 2 ^ 21 }
    ensures freed { AreFreed clusters.old clusters.new cluster_bits count row.now }
{
    for index in 0..count {
        let offset = offset_at(row, index);
        let cluster = offset >> cluster_bits;
        if offset != 0 && clusters.is_taken(cluster) {
            clusters.give_back(cluster);
        }
    }
}

impl Layout {
    /// Stores bytes of the disk in the place of holes and zeros, whose entries lie in a row from `spot` of the image on: in ready clusters next
    /// to one another, by one write of the data and one of the entries. It may store those of the first entries alone, and gives how many they are.
    pub(crate) fn fill<D: Depot>(
        self,
        depot: &mut D,
        clusters: &mut Clusters,
        spot: u64,
        row: &[u8],
        from: u64,
        bytes: &[u8],
    ) -> Result<usize, NotWritten>
        requires given { self.file.0 < (D.world depot.old).given }
        requires mapping { IsMapping (mapping self) }
        requires file { clusters.old.file ≡ self.file.0 }
        requires bits { clusters.old.pool.bits ≡ self.cluster_bits }
        requires row { length row.now % 8 ≡ 0 }
        requires some { 0 < length row.now }
        requires few { length row.now ≤ 2 ^ 21 }
        requires end { spot + length row.now ≤ 2 ^ 62 }
        requires open_row { AreAllOpen (length row.now / 8) row.now }
        requires inside { from < 2 ^ self.cluster_bits }
        requires covers { from + length bytes.now ≤ 2 ^ self.cluster_bits * (length row.now / 8) }
        requires least { 2 ^ self.cluster_bits * (length row.now / 8) < from + length bytes.now + 2 ^ self.cluster_bits }

        ensures count { IfOk result (λ n. (0 < n) × (8 * n ≤ length row.now)) }
        ensures alters { (i j : ℕ) → Alters (mapping self) (ToldRow (mapping self) spot i j (length row.now / 8) row.now)
            (record { table = i; slot = j; count = length row.now / 8; from = from; bytes = bytes.now; goal = stores }) clusters.old clusters.new (D.world depot.old) (D.world depot.new) }
        ensures done { IfOk result (λ n. (i j : ℕ) → HasAltered (mapping self) (ToldRow (mapping self) spot i j (length row.now / 8) row.now)
            (record { table = i; slot = j; count = n; from = from; bytes = take (2 ^ self.cluster_bits * n - from) bytes.now; goal = stores }) clusters.old (D.world depot.old) (D.world depot.new)) }
        ensures room { IfOk result (λ n. NamesBelow self.cluster_bits (length row.now / 8) row.now clusters.old.pool.next → room clusters.new.pool + n ≡ room clusters.old.pool) }
        ensures uses { NamesBelow self.cluster_bits (length row.now / 8) row.now clusters.old.pool.next → UsesUpTo clusters.old clusters.new (length row.now / 8) }
        ensures next { clusters.old.pool.next ≤ clusters.new.pool.next }
        ensures short { result ≡ Err failures.NoRoom → room clusters.old.pool < length row.now / 8 }
        ensures known { result ≢ Err (failures.Failed failing.Tables) → (i j : ℕ) →
            KnowsOn (mapping self) (ToldRow (mapping self) spot i j (length row.now / 8) row.now) clusters.old clusters.new (D.world depot.old) (D.world depot.new) }
        ensures same { IsSameImage clusters.old clusters.new }
        ensures went { Went self.file.0 (D.world depot.old) (D.world depot.new) (failure result) }
    {
        prepared_stays_exact();
        let want = (row.len() / 8).min(AT_ONCE);
        let _room = clusters.room();
        match clusters.top_up(depot, want) {
            Ok(()) => self.fill_ready(depot, clusters, want, spot, row, from, bytes),
            Err(WriteRefusal::NoRoom) => Err(NotWritten::NoRoom),
            Err(WriteRefusal::Failed) => Err(NotWritten::Failed(Failing::Tables)),
        }
    }

    // So where a cluster is ready.
    fn fill_ready<D: Depot>(
        self,
        depot: &mut D,
        clusters: &mut Clusters,
        most: usize,
        spot: u64,
        row: &[u8],
        from: u64,
        bytes: &[u8],
    ) -> Result<usize, NotWritten>
        requires given { self.file.0 < (D.world depot.old).given }
        requires mapping { IsMapping (mapping self) }
        requires file { clusters.old.file ≡ self.file.0 }
        requires bits { clusters.old.pool.bits ≡ self.cluster_bits }
        requires ready { 0 < length clusters.old.pool.ready }
        requires row { length row.now % 8 ≡ 0 }
        requires few { length row.now ≤ 2 ^ 21 }
        requires end { spot + length row.now ≤ 2 ^ 62 }
        requires some { 0 < most }
        requires most { most ≤ 64 }
        requires long { 8 * most ≤ length row.now }
        requires open_row { AreAllOpen (length row.now / 8) row.now }
        requires inside { from < 2 ^ self.cluster_bits }
        requires covers { from + length bytes.now ≤ 2 ^ self.cluster_bits * (length row.now / 8) }
        requires least { 2 ^ self.cluster_bits * (length row.now / 8) < from + length bytes.now + 2 ^ self.cluster_bits }

        ensures count { IfOk result (λ n. (0 < n) × (8 * n ≤ length row.now)) }
        ensures alters { (i j : ℕ) → Alters (mapping self) (ToldRow (mapping self) spot i j (length row.now / 8) row.now)
            (record { table = i; slot = j; count = length row.now / 8; from = from; bytes = bytes.now; goal = stores }) clusters.old clusters.new (D.world depot.old) (D.world depot.new) }
        ensures done { IfOk result (λ n. (i j : ℕ) → HasAltered (mapping self) (ToldRow (mapping self) spot i j (length row.now / 8) row.now)
            (record { table = i; slot = j; count = n; from = from; bytes = take (2 ^ self.cluster_bits * n - from) bytes.now; goal = stores }) clusters.old (D.world depot.old) (D.world depot.new)) }
        ensures room { IfOk result (λ n. NamesBelow self.cluster_bits (length row.now / 8) row.now clusters.old.pool.next → room clusters.new.pool + n ≡ room clusters.old.pool) }
        ensures uses { NamesBelow self.cluster_bits (length row.now / 8) row.now clusters.old.pool.next → UsesUpTo clusters.old clusters.new (length row.now / 8) }
        ensures next { clusters.old.pool.next ≤ clusters.new.pool.next }
        ensures room_there { result ≢ Err failures.NoRoom }
        ensures known { result ≢ Err (failures.Failed failing.Tables) → (i j : ℕ) →
            KnowsOn (mapping self) (ToldRow (mapping self) spot i j (length row.now / 8) row.now) clusters.old clusters.new (D.world depot.old) (D.world depot.new) }
        ensures same { IsSameImage clusters.old clusters.new }
        ensures went { Went self.file.0 (D.world depot.old) (D.world depot.new) (failure result) }
    {
        prepared_is_clean();
        use_leaves_image();
        entries_stay_exact();
        let taken = clusters.take_neighbours(most as u64);
        let count = taken.count as usize;
        let mut links = [0u8; 8 * AT_ONCE];
        let links = &mut links[..8 * count];
        write_links(links, self.cluster_bits, taken);
        let at = (taken.first << self.cluster_bits) + from;
        let end = (taken.count * cluster_of(self.cluster_bits) - from).min(
            bytes.len() as u64,
        ) as usize;
        match write_run(depot, self.file, at, &bytes[..end], spot, links) {
            Ok(()) => {
                give_back_named(clusters, self.cluster_bits, row, count);
                Ok(count)
            }
            Err(NotStored::Data) => {
                give_back_all(clusters, taken);
                Err(NotWritten::Failed(Failing::Data))
            }
            Err(NotStored::Entries) => Err(NotWritten::Failed(Failing::Tables)),
        }
    }
}
