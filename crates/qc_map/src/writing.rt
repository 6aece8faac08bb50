//! Bytes written to the guest's disk.

ghost use Rattle.std.specs.Prelude.{◌≡◌, ◌≢◌, ◌⊎◌, ℕ, ◌+◌, ◌-◌, ◌*◌, ◌/◌, ◌%◌, ◌^◌, ◌<◌, ◌≤◌, List, length, take, count_by, Ok, Err, IfOk, OnOk, IsTrue, true, false};
ghost use Rattle.std.specs.List.{range_with_len};
ghost use Rattle.disk_model.specs.Files.{u64_at};
ghost use Rattle.disk_model.specs.World.{Runs, reads_of};
ghost use Rattle.file_device.specs.File.{file_of};
ghost use Rattle.cluster_pool.specs.Pool.{room};
ghost use Rattle.image_model.specs.Clusters.{Shape, stored, Reads};
ghost use Rattle.image_model.specs.Calls.{Told, LeavesGuest, SameTablesBut};
ghost use Rattle.image_model.specs.Space.{Store, need};
ghost use Rattle.map_rows.specs.Runs.{place_in};
ghost use Rattle.map_rows.specs.Stores.{HasStore, has_table, is_open_at};
ghost use Rattle.qc_alloc.specs.Allocator.{Allocates, HandsOut, StandsFrom};
ghost use Rattle.qc_map.specs.Altering.{stores, IsSameImage, UsesUpTo, Alters, HasAltered, KnowsOn, ToldRow, Always};
ghost use Rattle.qc_map.specs.Changing.{Changes, HasChanged, write_of, extent_of};
ghost use Rattle.qc_map.specs.Failures.{Went, failure};
ghost use Rattle.qc_map.specs.Filling.{NamesBelow};
ghost use Rattle.qc_map.specs.Linking.{LinksTable, HasLinked, LacksTable};
ghost use Rattle.qc_map.specs.Mapping.{IsMapping, IsMapOf, mapping};
ghost use Rattle.qc_map.specs.Needing.{part_need};
ghost use Rattle.qc_map.specs.Reading.{IsPartFor};
ghost use Rattle.qc_map.specs.declared.failures.NotWritten.TheVariants as failures;
ghost use Rattle.qc_map.specs.declared.failures.Failing.TheVariants as failing;

use crate::failures::{Failing, NotWritten};
use crate::layout::Layout;
use disk_model::{Depot, WriteRefusal};
use image_calls::{add_table, overwrite_run};
use map_rows::{Part, cluster_of, run_from};
use qc_alloc::Clusters;
use qc_alloc::laws::{prepared_is_clean, prepared_stays_exact, table_stays_exact};

/// What an entry of the first level has beside an offset: its table is counted once.
const ONCE: u64 = 1 << 63;

impl Layout {
    /// Writes bytes of the disk, a part at a time. `NoRoom` comes before anything is done.
    pub(crate) fn write<D: Depot>(
        self,
        depot: &mut D,
        clusters: &mut Clusters,
        entries: &mut [u8],
        at: u64,
        bytes: &[u8],
    ) -> Result<(), NotWritten>
        requires given { self.file.0 < (D.world depot.old).given }
        requires mapping { IsMapping (mapping self) }
        requires file { clusters.old.file ≡ self.file.0 }
        requires bits { clusters.old.pool.bits ≡ self.cluster_bits }
        requires long { length entries.old ≡ 2 ^ self.cluster_bits }
        requires inside { at + length bytes.now ≤ self.size }

        ensures changes { Changes (mapping self) (write_of at bytes.now) clusters.old clusters.new (D.world depot.old) (D.world depot.new) }
        ensures done { OnOk result (HasChanged (mapping self) (write_of at bytes.now) clusters.old (D.world depot.old) (D.world depot.new)) }
        ensures room { OnOk result ((s : Shape) (disks : List (List ℕ)) (first : ℕ) → IsMapOf s (mapping self) → HandsOut first clusters.old →
            Reads self.file.0 (Allocates s disks first clusters.old) (λ old new. (store : Store) → HasStore s self.size old store → room clusters.new.pool + need store (extent_of at bytes.now) ≡ room clusters.old.pool)
            (D.world depot.old) (D.world depot.new)) }
        ensures uses { (s : Shape) (disks : List (List ℕ)) (first : ℕ) → IsMapOf s (mapping self) → HandsOut first clusters.old →
            Reads self.file.0 (Allocates s disks first clusters.old) (λ old new. (store : Store) → HasStore s self.size old store → UsesUpTo clusters.old clusters.new (need store (extent_of at bytes.now)))
            (D.world depot.old) (D.world depot.new) }
        ensures short { result ≡ Err failures.NoRoom → (s : Shape) (disks : List (List ℕ)) (first : ℕ) → IsMapOf s (mapping self) → HandsOut first clusters.old →
            Reads self.file.0 (Allocates s disks first clusters.old) (λ old new. (store : Store) → HasStore s self.size old store → room clusters.old.pool < need store (extent_of at bytes.now))
            (D.world depot.old) (D.world depot.new) }
        ensures kept { result ≡ Err failures.NoRoom → (s : Shape) (disks : List (List ℕ)) (first : ℕ) → IsMapOf s (mapping self) → HandsOut first clusters.old →
            Allocates s disks first clusters.old (D.world depot.old) → IsTrue (D.world depot.old).tells →
            (clusters.new ≡ clusters.old) × (file_of (D.world depot.new) self.file.0 ≡ file_of (D.world depot.old) self.file.0) }
        ensures known { result ≢ Err (failures.Failed failing.Tables) → KnowsOn (mapping self) Always clusters.old clusters.new (D.world depot.old) (D.world depot.new) }
        ensures same { IsSameImage clusters.old clusters.new }
        ensures went { Went self.file.0 (D.world depot.old) (D.world depot.new) (failure result) }
    {
        if self.lacks_room(depot, clusters.room(), entries, at, bytes.len() as u64)? {
            return Err(NotWritten::NoRoom);
        }
        let mut done = 0;
        while done < bytes.len() {
            let part = self.part_at(at + done as u64, (bytes.len() - done) as u64);
            let end = done + part.length as usize;
            let row = &mut entries[..8 * part.count as usize];
            self.write_part(depot, clusters, row, &part, &bytes[done..end])?;
            done = end;
        }
        Ok(())
    }

    // Whether a write needs more clusters than this. Entries are read where it may.
    fn lacks_room<D: Depot>(
        self,
        depot: &mut D,
        room: u64,
        entries: &mut [u8],
        at: u64,
        bytes: u64,
    ) -> Result<bool, NotWritten>
        requires given { self.file.0 < (D.world depot.old).given }
        requires mapping { IsMapping (mapping self) }
        requires long { length entries.old ≡ 2 ^ self.cluster_bits }
        requires inside { at + bytes ≤ self.size }
        ensures lacks { IfOk result (λ lacks. (s : Shape) (store : Store) → IsMapOf s (mapping self) → IsTrue (D.world depot.old).tells → HasStore s self.size ((D.world depot.old).seen self.file.0) store →
            ((lacks ≡ true) × (room < need store (record { at = at; size = bytes }))) ⊎ ((lacks ≡ false) × (need store (record { at = at; size = bytes }) ≤ room))) }
        ensures failed { result ≢ Err failures.NoRoom }
        ensures kept { file_of (D.world depot.new) self.file.0 ≡ file_of (D.world depot.old) self.file.0 }
        ensures reads { Runs (reads_of self.file.0) (D.world depot.old) (D.world depot.new) }
        ensures went { Went self.file.0 (D.world depot.old) (D.world depot.new) (failure result) }
    {
        // One for each cluster of the disk, and one for each table, would do.
        let cluster = cluster_of(self.cluster_bits);
        let all = self.size.div_ceil(cluster);
        if all + all.div_ceil(cluster / 8) <= room {
            return Ok(false);
        }
        match self.need(depot, entries, at, bytes) {
            Ok(need) => Ok(room < need),
            Err(_) => Err(NotWritten::Failed(Failing::Data)),
        }
    }

    // Writes the bytes of a part.
    fn write_part<D: Depot>(
        self,
        depot: &mut D,
        clusters: &mut Clusters,
        row: &mut [u8],
        part: &Part,
        bytes: &[u8],
    ) -> Result<(), NotWritten>
        requires given { self.file.0 < (D.world depot.old).given }
        requires mapping { IsMapping (mapping self) }
        requires file { clusters.old.file ≡ self.file.0 }
        requires bits { clusters.old.pool.bits ≡ self.cluster_bits }
        requires part { IsPartFor (mapping self) part.now }
        requires long { length row.old ≡ 8 * part.now.count }
        requires bytes { length bytes.now ≡ part.now.length }
        requires some { 0 < part.now.length }
        requires least { 2 ^ self.cluster_bits * part.now.count < part.now.from + part.now.length + 2 ^ self.cluster_bits }

        ensures alters { Alters (mapping self) Always (record { table = part.now.table; slot = part.now.slot; count = part.now.count; from = part.now.from; bytes = bytes.now; goal = stores })
            clusters.old clusters.new (D.world depot.old) (D.world depot.new) }
        ensures done { OnOk result (HasAltered (mapping self) Always (record { table = part.now.table; slot = part.now.slot; count = part.now.count; from = part.now.from; bytes = bytes.now; goal = stores })
            clusters.old (D.world depot.old) (D.world depot.new)) }
        ensures room { OnOk result ((s : Shape) (disks : List (List ℕ)) (first : ℕ) → IsMapOf s (mapping self) → HandsOut first clusters.old →
            Reads self.file.0 (Allocates s disks first clusters.old) (λ old new. (has_table s new part.now.table ≡ true) × (room clusters.new.pool + part_need s old part.now.table part.now.slot part.now.count ≡ room clusters.old.pool))
            (D.world depot.old) (D.world depot.new)) }
        ensures uses { (s : Shape) (disks : List (List ℕ)) (first : ℕ) → IsMapOf s (mapping self) → HandsOut first clusters.old →
            Reads self.file.0 (Allocates s disks first clusters.old) (λ old new. UsesUpTo clusters.old clusters.new (part_need s old part.now.table part.now.slot part.now.count)) (D.world depot.old) (D.world depot.new) }
        ensures short { result ≡ Err failures.NoRoom → (s : Shape) (disks : List (List ℕ)) (first : ℕ) → IsMapOf s (mapping self) → HandsOut first clusters.old →
            Reads self.file.0 (Allocates s disks first clusters.old) (λ old new. room clusters.old.pool < part_need s old part.now.table part.now.slot part.now.count) (D.world depot.old) (D.world depot.new) }
        ensures known { result ≢ Err (failures.Failed failing.Tables) → KnowsOn (mapping self) Always clusters.old clusters.new (D.world depot.old) (D.world depot.new) }
        ensures same { IsSameImage clusters.old clusters.new }
        ensures went { Went self.file.0 (D.world depot.old) (D.world depot.new) (failure result) }
    {
        let table = match self.read_row(depot, part, row) {
            Ok(table) => table,
            Err(_) => return Err(NotWritten::Failed(Failing::Data)),
        };
        if table != 0 {
            let spot = table + 8 * part.slot;
            return self.write_row(depot, clusters, spot, row, part.from, bytes);
        }
        match self.open_table(depot, clusters, part.table) {
            Ok(opened) => {
                let spot = opened + 8 * part.slot;
                self.write_row(depot, clusters, spot, row, part.from, bytes)
            }
            Err(why) => Err(why),
        }
    }

    // Links a table of the second level, of zeros, where there is none. Gives its offset.
    fn open_table<D: Depot>(
        self,
        depot: &mut D,
        clusters: &mut Clusters,
        index: u64,
    ) -> Result<u64, NotWritten>
        requires given { self.file.0 < (D.world depot.old).given }
        requires mapping { IsMapping (mapping self) }
        requires file { clusters.old.file ≡ self.file.0 }
        requires bits { clusters.old.pool.bits ≡ self.cluster_bits }
        requires inside { index < self.tables }

        ensures links { LinksTable (mapping self) index clusters.old clusters.new (D.world depot.old) (D.world depot.new) }
        ensures linked { IfOk result (λ offset. HasLinked (mapping self) index offset clusters.old (D.world depot.old) (D.world depot.new)) }
        ensures near { IfOk result (λ offset. offset ≤ 2 ^ 51) }
        ensures room { OnOk result (room clusters.new.pool + 1 ≡ room clusters.old.pool) }
        ensures uses { UsesUpTo clusters.old clusters.new 1 }
        ensures short { result ≡ Err failures.NoRoom → room clusters.old.pool < 1 }
        ensures known { result ≢ Err (failures.Failed failing.Tables) → KnowsOn (mapping self) (LacksTable (mapping self) index) clusters.old clusters.new (D.world depot.old) (D.world depot.new) }
        ensures same { IsSameImage clusters.old clusters.new }
        ensures went { Went self.file.0 (D.world depot.old) (D.world depot.new) (failure result) }
    {
        let _room = clusters.room();
        match clusters.top_up(depot, 1) {
            Ok(()) => {}
            Err(WriteRefusal::NoRoom) => return Err(NotWritten::NoRoom),
            Err(WriteRefusal::Failed) => return Err(NotWritten::Failed(Failing::Tables)),
        }
        prepared_is_clean();
        prepared_stays_exact();
        table_stays_exact();
        let offset = clusters.take_ready() << self.cluster_bits;
        match add_table(
            depot,
            self.file,
            self.first_level + 8 * index,
            offset + ONCE,
        ) {
            Ok(()) => Ok(offset),
            Err(_) => Err(NotWritten::Failed(Failing::Tables)),
        }
    }

    // Writes bytes of the clusters of a row of entries, which lie from `spot` of the image on. Neighbours are written by one call.
    fn write_row<D: Depot>(
        self,
        depot: &mut D,
        clusters: &mut Clusters,
        spot: u64,
        row: &[u8],
        from: u64,
        bytes: &[u8],
    ) -> Result<(), NotWritten>
        requires given { self.file.0 < (D.world depot.old).given }
        requires mapping { IsMapping (mapping self) }
        requires file { clusters.old.file ≡ self.file.0 }
        requires bits { clusters.old.pool.bits ≡ self.cluster_bits }
        requires row { length row.now % 8 ≡ 0 }
        requires few { length row.now ≤ 2 ^ 21 }
        requires end { spot + length row.now ≤ 2 ^ 62 }
        requires inside { from < 2 ^ self.cluster_bits }
        requires covers { from + length bytes.now ≤ 2 ^ self.cluster_bits * (length row.now / 8) }
        requires least { 2 ^ self.cluster_bits * (length row.now / 8) < from + length bytes.now + 2 ^ self.cluster_bits }

        ensures alters { (i j : ℕ) → Alters (mapping self) (ToldRow (mapping self) spot i j (length row.now / 8) row.now)
            (record { table = i; slot = j; count = length row.now / 8; from = from; bytes = bytes.now; goal = stores }) clusters.old clusters.new (D.world depot.old) (D.world depot.new) }
        ensures done { OnOk result ((i j : ℕ) → HasAltered (mapping self) (ToldRow (mapping self) spot i j (length row.now / 8) row.now)
            (record { table = i; slot = j; count = length row.now / 8; from = from; bytes = bytes.now; goal = stores }) clusters.old (D.world depot.old) (D.world depot.new)) }
        ensures room { OnOk result (NamesBelow self.cluster_bits (length row.now / 8) row.now clusters.old.pool.next →
            room clusters.new.pool + count_by (is_open_at row.now) (range_with_len 0 (length row.now / 8)) ≡ room clusters.old.pool) }
        ensures uses { NamesBelow self.cluster_bits (length row.now / 8) row.now clusters.old.pool.next →
            UsesUpTo clusters.old clusters.new (count_by (is_open_at row.now) (range_with_len 0 (length row.now / 8))) }
        ensures next { clusters.old.pool.next ≤ clusters.new.pool.next }
        ensures short { result ≡ Err failures.NoRoom → NamesBelow self.cluster_bits (length row.now / 8) row.now clusters.old.pool.next →
            room clusters.old.pool < count_by (is_open_at row.now) (range_with_len 0 (length row.now / 8)) }
        ensures known { result ≢ Err (failures.Failed failing.Tables) → (i j : ℕ) →
            KnowsOn (mapping self) (ToldRow (mapping self) spot i j (length row.now / 8) row.now) clusters.old clusters.new (D.world depot.old) (D.world depot.new) }
        ensures same { IsSameImage clusters.old clusters.new }
        ensures went { Went self.file.0 (D.world depot.old) (D.world depot.new) (failure result) }
    {
        let cluster = cluster_of(self.cluster_bits);
        let count = row.len() / 8;
        let mut index = 0;
        let mut done = 0;
        while index < count {
            let run = run_from(row, index, count, cluster);
            let place = if index == 0 { from } else { 0 };
            let end = ((index + run.count) as u64 * cluster - from).min(
                bytes.len() as u64,
            ) as usize;
            let entries = &row[8 * index..8 * (index + run.count)];
            let piece = &bytes[done..end];
            let at = spot + 8 * index as u64;
            match self.write_run(depot, clusters, at, entries, run.host, place, piece) {
                Ok(more) => {
                    index += more;
                    done = (index as u64 * cluster - from).min(bytes.len() as u64) as usize;
                }
                Err(why) => return Err(why),
            }
        }
        Ok(())
    }

    // So of entries that are stored next to one another from `host` of the image on, or have nothing stored where that is 0. In the place of
    // holes and zeros it may store the bytes of the first entries alone, and gives how many they are.
    fn write_run<D: Depot>(
        self,
        depot: &mut D,
        clusters: &mut Clusters,
        spot: u64,
        row: &[u8],
        host: u64,
        from: u64,
        bytes: &[u8],
    ) -> Result<usize, NotWritten>
        requires given { self.file.0 < (D.world depot.old).given }
        requires mapping { IsMapping (mapping self) }
        requires file { clusters.old.file ≡ self.file.0 }
        requires bits { clusters.old.pool.bits ≡ self.cluster_bits }
        requires row { length row.now % 8 ≡ 0 }
        requires some { 0 < length row.now }
        requires few { length row.now ≤ 2 ^ 21 }
        requires end { spot + length row.now ≤ 2 ^ 62 }
        requires run { (m : ℕ) → m < length row.now / 8 → stored (u64_at row.now (8 * m)) ≡ place_in host (2 ^ self.cluster_bits) m }
        requires near { host < 2 ^ 56 }
        requires inside { from < 2 ^ self.cluster_bits }
        requires covers { from + length bytes.now ≤ 2 ^ self.cluster_bits * (length row.now / 8) }
        requires least { 2 ^ self.cluster_bits * (length row.now / 8) < from + length bytes.now + 2 ^ self.cluster_bits }

        ensures count { IfOk result (λ n. (0 < n) × (8 * n ≤ length row.now)) }
        ensures alters { (i j : ℕ) → Alters (mapping self) (ToldRow (mapping self) spot i j (length row.now / 8) row.now)
            (record { table = i; slot = j; count = length row.now / 8; from = from; bytes = bytes.now; goal = stores }) clusters.old clusters.new (D.world depot.old) (D.world depot.new) }
        ensures done { IfOk result (λ n. (i j : ℕ) → HasAltered (mapping self) (ToldRow (mapping self) spot i j (length row.now / 8) row.now)
            (record { table = i; slot = j; count = n; from = from; bytes = take (2 ^ self.cluster_bits * n - from) bytes.now; goal = stores }) clusters.old (D.world depot.old) (D.world depot.new)) }
        ensures room { IfOk result (λ n. NamesBelow self.cluster_bits (length row.now / 8) row.now clusters.old.pool.next →
            room clusters.new.pool + count_by (is_open_at row.now) (range_with_len 0 n) ≡ room clusters.old.pool) }
        ensures uses { NamesBelow self.cluster_bits (length row.now / 8) row.now clusters.old.pool.next →
            UsesUpTo clusters.old clusters.new (count_by (is_open_at row.now) (range_with_len 0 (length row.now / 8))) }
        ensures next { clusters.old.pool.next ≤ clusters.new.pool.next }
        ensures short { result ≡ Err failures.NoRoom → room clusters.old.pool < count_by (is_open_at row.now) (range_with_len 0 (length row.now / 8)) }
        ensures known { result ≢ Err (failures.Failed failing.Tables) → (i j : ℕ) →
            KnowsOn (mapping self) (ToldRow (mapping self) spot i j (length row.now / 8) row.now) clusters.old clusters.new (D.world depot.old) (D.world depot.new) }
        ensures same { IsSameImage clusters.old clusters.new }
        ensures went { Went self.file.0 (D.world depot.old) (D.world depot.new) (failure result) }
    {
        if host == 0 {
            return self.fill(depot, clusters, spot, row, from, bytes);
        }
        match overwrite_run(depot, self.file, host + from, bytes) {
            Ok(()) => Ok(row.len() / 8),
            Err(_) => Err(NotWritten::Failed(Failing::Data)),
        }
    }
}
