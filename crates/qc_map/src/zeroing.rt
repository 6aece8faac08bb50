//! Zeros on the guest's disk: clusters that are covered whole become holes, and zeros are written into stored ones that are covered in part.

ghost use Rattle.std.specs.Prelude.{◌≡◌, ◌≢◌, ℕ, ◌+◌, ◌-◌, ◌*◌, ◌/◌, ◌%◌, ◌^◌, ◌<◌, ◌≤◌, List, length, replicate, Err, OnOk, true};
ghost use Rattle.disk_model.specs.Files.{u64_at};
ghost use Rattle.image_model.specs.Calls.{SameTables};
ghost use Rattle.image_model.specs.Clusters.{Shape, offset, Reads};
ghost use Rattle.image_model.specs.Rows.{disk_place};
ghost use Rattle.qc_alloc.specs.Allocator.{Allocator, Allocates, HandsOut, DiffersInUse};
ghost use Rattle.qc_map.specs.Altering.{Alters, HasAltered, KnowsOn, ToldRow, Always};
ghost use Rattle.qc_map.specs.Changing.{Changes, HasChanged, zero_of};
ghost use Rattle.qc_map.specs.Failures.{Went, failure_of};
ghost use Rattle.qc_map.specs.Mapping.{IsMapping, IsMapOf, mapping};
ghost use Rattle.qc_map.specs.Reading.{IsPartFor};
ghost use Rattle.qc_map.specs.Zeroing.{SameRoom, KeepsRoom, KeepsTables, IsCut, zeroes, clears, clears_in, stays};
ghost use Rattle.qc_map.specs.declared.failures.Failing.TheVariants as failing;

use crate::failures::Failing;
use crate::filling::give_back_named;
use crate::layout::Layout;
use disk_model::Depot;
use image_calls::{clear_entries, overwrite_run};
use map_rows::{Part, cluster_of, offset_at, stored_at};
use qc_alloc::Clusters;

/// How a part that isn't within one cluster is cut: the entries from `first` on and before `end` are those whose clusters it covers whole. Before
/// them it covers the last `front` bytes of a cluster, behind them the first `tail`.
#[derive(Clone, Copy, Debug)]
struct Cut {
    first: usize,
    end: usize,
    front: usize,
    tail: usize,
}

// The disk's last cluster counts as whole where the part covers what lies on the disk.
fn cut_of(part: &Part, cluster: u64, is_last: bool) -> Cut
    requires least { 512 ≤ cluster }
    requires most { cluster ≤ 2 ^ 21 }
    requires some { 0 < part.now.length }
    requires few { part.now.count ≤ 2 ^ 18 }
    requires inside { part.now.from < cluster }
    requires covers { part.now.from + part.now.length ≤ cluster * part.now.count }
    requires short { cluster * part.now.count < part.now.from + part.now.length + cluster }
    requires apart { part.now.from ≢ 0 → cluster < part.now.from + part.now.length }
    ensures cut { IsCut part.now cluster is_last result.first result.end result.front result.tail }
{
    let past = part.from + part.length;
    let first = if part.from == 0 { 0 } else { 1 };
    let end = if is_last || past % cluster == 0 {
        part.count
    } else {
        part.count - 1
    };
    Cut {
        first: first as usize,
        end: end as usize,
        front: (first * cluster - part.from) as usize,
        tail: past.saturating_sub(end * cluster) as usize,
    }
}

// Whether each entry of a row is a hole.
fn are_holes(row: &[u8]) -> bool
    requires few { length row.now ≤ 2 ^ 21 }
    ensures holes { result ≡ true → (m : ℕ) → m < length row.now / 8 → offset (u64_at row.now (8 * m)) ≡ 0 }
{
    for index in 0..row.len() / 8 {
        if offset_at(row, index) != 0 {
            return false;
        }
    }
    true
}

impl Layout {
    /// Zeroes bytes of the disk, a part at a time.
    pub(crate) fn zero<D: Depot>(
        self,
        depot: &mut D,
        clusters: &mut Clusters,
        entries: &mut [u8],
        zeros: &[u8],
        at: u64,
        bytes: u64,
    ) -> Result<(), Failing>
        requires given { self.file.0 < (D.world depot.old).given }
        requires mapping { IsMapping (mapping self) }
        requires file { clusters.old.file ≡ self.file.0 }
        requires bits { clusters.old.pool.bits ≡ self.cluster_bits }
        requires long { length entries.old ≡ 2 ^ self.cluster_bits }
        requires zeros { zeros.now ≡ replicate (2 ^ self.cluster_bits) 0 }
        requires inside { at + bytes ≤ self.size }

        ensures changes { Changes (mapping self) (zero_of self.size at bytes) clusters.old clusters.new (D.world depot.old) (D.world depot.new) }
        ensures done { OnOk result (HasChanged (mapping self) (zero_of self.size at bytes) clusters.old (D.world depot.old) (D.world depot.new)) }
        ensures room { SameRoom (mapping self) clusters.old clusters.new (D.world depot.old) }
        ensures known { result ≢ Err failing.Tables → KnowsOn (mapping self) Always clusters.old clusters.new (D.world depot.old) (D.world depot.new) }
        ensures same { DiffersInUse clusters.old clusters.new }
        ensures went { Went self.file.0 (D.world depot.old) (D.world depot.new) (failure_of result) }
    {
        let mut done = 0;
        while done < bytes {
            let part = self.part_at(at + done, bytes - done);
            let row = &mut entries[..8 * part.count as usize];
            let is_last = at + done + part.length == self.size;
            self.zero_part(depot, clusters, row, zeros, &part, is_last)?;
            done += part.length;
        }
        Ok(())
    }

    // Zeroes the bytes of a part.
    fn zero_part<D: Depot>(
        self,
        depot: &mut D,
        clusters: &mut Clusters,
        row: &mut [u8],
        zeros: &[u8],
        part: &Part,
        is_last: bool,
    ) -> Result<(), Failing>
        requires given { self.file.0 < (D.world depot.old).given }
        requires mapping { IsMapping (mapping self) }
        requires file { clusters.old.file ≡ self.file.0 }
        requires bits { clusters.old.pool.bits ≡ self.cluster_bits }
        requires part { IsPartFor (mapping self) part.now }
        requires long { length row.old ≡ 8 * part.now.count }
        requires zeros { zeros.now ≡ replicate (2 ^ self.cluster_bits) 0 }
        requires some { 0 < part.now.length }
        requires short { 2 ^ self.cluster_bits * part.now.count < part.now.from + part.now.length + 2 ^ self.cluster_bits }
        requires last { is_last ≡ true → (s : Shape) → IsMapOf s (mapping self) → disk_place s part.now.table part.now.slot + part.now.from + part.now.length ≡ self.size }

        ensures alters { Alters (mapping self) Always
            (record { table = part.now.table; slot = part.now.slot; count = part.now.count; from = part.now.from; bytes = replicate part.now.length 0; goal = clears_in part.now (2 ^ self.cluster_bits) is_last })
            clusters.old clusters.new (D.world depot.old) (D.world depot.new) }
        ensures done { OnOk result (HasAltered (mapping self) Always
            (record { table = part.now.table; slot = part.now.slot; count = part.now.count; from = part.now.from; bytes = replicate part.now.length 0; goal = clears_in part.now (2 ^ self.cluster_bits) is_last })
            clusters.old (D.world depot.old) (D.world depot.new)) }
        ensures tables { (s : Shape) (disks : List (List ℕ)) (first : ℕ) → IsMapOf s (mapping self) → HandsOut first clusters.old →
            Reads self.file.0 (Allocates s disks first clusters.old) (SameTables s) (D.world depot.old) (D.world depot.new) }
        ensures room { SameRoom (mapping self) clusters.old clusters.new (D.world depot.old) }
        ensures known { result ≢ Err failing.Tables → KnowsOn (mapping self) Always clusters.old clusters.new (D.world depot.old) (D.world depot.new) }
        ensures same { DiffersInUse clusters.old clusters.new }
        ensures went { Went self.file.0 (D.world depot.old) (D.world depot.new) (failure_of result) }
    {
        let table = match self.read_row(depot, part, row) {
            Ok(0) => return Ok(()), // all are holes
            Ok(table) => table,
            Err(_) => return Err(Failing::Data),
        };
        let cluster = cluster_of(self.cluster_bits);
        if part.from != 0 && part.from + part.length <= cluster {
            return self.zero_some(depot, row, part.from, zeros, part.length as usize);
        }
        let cut = cut_of(part, cluster, is_last);
        let spot = table + 8 * part.slot;
        let front = &row[..8 * cut.first];
        match self.zero_some(depot, front, part.from, zeros, cut.front) {
            Ok(()) => {}
            Err(why) => return Err(why),
        }
        let whole = &row[8 * cut.first..8 * cut.end];
        match self.clear_row(depot, clusters, spot + 8 * cut.first as u64, whole, zeros) {
            Ok(()) => {}
            Err(why) => return Err(why),
        }
        self.zero_some(depot, &row[8 * cut.end..], 0, zeros, cut.tail)
    }

    // Writes zeros over bytes of the cluster of a row's one entry from one on, where they are stored. A row of no entries has none.
    fn zero_some<D: Depot>(
        self,
        depot: &mut D,
        row: &[u8],
        from: u64,
        zeros: &[u8],
        bytes: usize,
    ) -> Result<(), Failing>
        requires given { self.file.0 < (D.world depot.old).given }
        requires mapping { IsMapping (mapping self) }
        requires row { length row.now % 8 ≡ 0 }
        requires few { length row.now ≤ 8 }
        requires zeros { zeros.now ≡ replicate (2 ^ self.cluster_bits) 0 }
        requires inside { from + bytes ≤ 2 ^ self.cluster_bits * (length row.now / 8) }

        // `a` is an allocator of the image.
        ensures alters { (a : Allocator) (spot i j : ℕ) → a.file ≡ self.file.0 → Alters (mapping self) (ToldRow (mapping self) spot i j (length row.now / 8) row.now)
            (zeroes i j (length row.now / 8) from bytes stays) a a (D.world depot.old) (D.world depot.new) }
        ensures done { OnOk result ((a : Allocator) (spot i j : ℕ) → a.file ≡ self.file.0 → HasAltered (mapping self) (ToldRow (mapping self) spot i j (length row.now / 8) row.now)
            (zeroes i j (length row.now / 8) from bytes stays) a (D.world depot.old) (D.world depot.new)) }
        ensures known { (a : Allocator) (spot i j : ℕ) → a.file ≡ self.file.0 → KnowsOn (mapping self) (ToldRow (mapping self) spot i j (length row.now / 8) row.now) a a (D.world depot.old) (D.world depot.new) }
        ensures tables { (a : Allocator) (spot i j : ℕ) → a.file ≡ self.file.0 → KeepsTables (mapping self) (ToldRow (mapping self) spot i j (length row.now / 8) row.now) a (D.world depot.old) (D.world depot.new) }
        ensures failed { result ≢ Err failing.Tables }
        ensures went { Went self.file.0 (D.world depot.old) (D.world depot.new) (failure_of result) }
    {
        if bytes == 0 {
            return Ok(());
        }
        let host = stored_at(row, 0);
        if host == 0 {
            return Ok(());
        }
        match overwrite_run(depot, self.file, host + from, &zeros[..bytes]) {
            Ok(()) => Ok(()),
            Err(_) => Err(Failing::Data),
        }
    }

    // Makes the entries of a row holes, and gives their clusters back. The row lies from `spot` of the image on.
    fn clear_row<D: Depot>(
        self,
        depot: &mut D,
        clusters: &mut Clusters,
        spot: u64,
        row: &[u8],
        zeros: &[u8],
    ) -> Result<(), Failing>
        requires given { self.file.0 < (D.world depot.old).given }
        requires mapping { IsMapping (mapping self) }
        requires file { clusters.old.file ≡ self.file.0 }
        requires bits { clusters.old.pool.bits ≡ self.cluster_bits }
        requires row { length row.now % 8 ≡ 0 }
        requires few { length row.now ≤ 2 ^ self.cluster_bits }
        requires spot { spot + length row.now ≤ 2 ^ 62 }
        requires zeros { zeros.now ≡ replicate (2 ^ self.cluster_bits) 0 }

        ensures alters { (i j : ℕ) → Alters (mapping self) (ToldRow (mapping self) spot i j (length row.now / 8) row.now)
            (clears (mapping self) i j (length row.now / 8)) clusters.old clusters.new (D.world depot.old) (D.world depot.new) }
        ensures done { OnOk result ((i j : ℕ) → HasAltered (mapping self) (ToldRow (mapping self) spot i j (length row.now / 8) row.now)
            (clears (mapping self) i j (length row.now / 8)) clusters.old (D.world depot.old) (D.world depot.new)) }
        ensures room { (i j : ℕ) → KeepsRoom (mapping self) (ToldRow (mapping self) spot i j (length row.now / 8) row.now) clusters.old clusters.new (D.world depot.old) }
        ensures known { result ≢ Err failing.Tables → (i j : ℕ) → KnowsOn (mapping self) (ToldRow (mapping self) spot i j (length row.now / 8) row.now) clusters.old clusters.new (D.world depot.old) (D.world depot.new) }
        ensures tables { (i j : ℕ) → KeepsTables (mapping self) (ToldRow (mapping self) spot i j (length row.now / 8) row.now) clusters.old (D.world depot.old) (D.world depot.new) }
        ensures same { DiffersInUse clusters.old clusters.new }
        ensures went { Went self.file.0 (D.world depot.old) (D.world depot.new) (failure_of result) }
    {
        if are_holes(row) {
            return Ok(());
        }
        match clear_entries(depot, self.file, spot, &zeros[..row.len()]) {
            Ok(()) => {
                give_back_named(clusters, self.cluster_bits, row, row.len() / 8);
                Ok(())
            }
            Err(_) => Err(Failing::Tables),
        }
    }
}
