//! The map.

ghost use Rattle.std.specs.Prelude.{◌≡◌, ◌≢◌, ℕ, ◌+◌, ◌<◌, ◌≤◌, ◌++◌, List, length, vec_len, vec_capacity, Err, IfOk, OnOk, IsTrue};
ghost use Rattle.bitmap_model.specs.Runs.{first_runs, runs_of};
ghost use Rattle.disk_model.specs.Files.{reading};
ghost use Rattle.file_device.specs.Calls.{Looks};
ghost use Rattle.file_device.specs.File.{file_of, Gives};
ghost use Rattle.cluster_pool.specs.Pool.{room};
ghost use Rattle.image_model.specs.Clusters.{Shape, size, Reads};
ghost use Rattle.image_model.specs.Disks.{disk_of};
ghost use Rattle.image_model.specs.Space.{Store, need};
ghost use Rattle.map_rows.specs.Stores.{HasStore};
ghost use Rattle.qc_alloc.specs.Allocator.{Allocates, HandsOut, DiffersInUse};
ghost use Rattle.qc_map.specs.Altering.{IsSameImage, UsesUpTo, KnowsOn, Always};
ghost use Rattle.qc_map.specs.Changing.{Changes, HasChanged, write_of, zero_of, extent_of};
ghost use Rattle.qc_map.specs.Failures.{Went, failure, failure_of};
ghost use Rattle.qc_map.specs.Mapping.{IsMapping, IsMapOf, mapping_of};
ghost use Rattle.qc_map.specs.Telling.{flags_of};
ghost use Rattle.qc_map.specs.Zeroing.{SameRoom};
ghost use Rattle.qc_map.specs.declared.failures.Failing.TheVariants as failing;
ghost use Rattle.qc_map.specs.declared.failures.NotWritten.TheVariants as failures;

use crate::failures::{Failing, NotWritten};
use crate::layout::Layout;
use disk_model::{Depot, Failed, FileNo};
use map_rows::cluster_of;
use qc_alloc::Clusters;
use qc_layout::Header;
use span_algebra::Runs;
use std::alloc::{AllocError, Global};
use std::marker::Model;

/// The cluster map of an image.
#[derive(Debug, Drop)]
pub struct Map {
    layout: Layout,
    // Words of one table, as they were read last: a cluster long.
    entries: Vec<u8>,
    // As many zeros.
    zeros: Vec<u8>,
}

impl Model for Map {
    ghost use Rattle.qc_map.specs.Mapping.{Mapping, mapping};
    ghost use Rattle.qc_map.specs.Inside.{IsInside};

    ghost Value = { Mapping };

    ghost view = { λ m. mapping m.layout };

    ghost invariant = { IsInside };
}

impl Map {
    /// The map of an image with this header. It takes all memory that the map ever takes.
    pub(crate) fn over(alloc: Global, file: FileNo, header: &Header) -> Result<Map, AllocError>
        requires { IsMapping (mapping_of file.0 header.now.fields) }
        ensures { IfOk result (λ m. m ≡ mapping_of file.0 header.now.fields) }
    {
        let fields = &header.fields;
        let layout = Layout {
            file,
            cluster_bits: fields.cluster_bits,
            size: fields.size,
            first_level: fields.l1_table_offset,
            tables: u64::from(fields.l1_size),
        };
        let cluster = cluster_of(layout.cluster_bits) as usize;
        let entries = vec![in alloc; 0u8; cluster]?;
        let zeros = vec![in alloc; 0u8; cluster]?;
        Ok(Map {
            layout,
            entries,
            zeros,
        })
    }

    /// Bytes of the guest's disk.
    pub fn size(&self) -> u64
        ensures size { result ≡ self.now.size }
        ensures mapping { IsMapping self.now }
    {
        self.layout.size
    }

    /// Reads bytes of the guest's disk. Neighbours are read by one call, and nothing is read for holes and zeros.
    pub fn read<D: Depot>(&mut self, depot: &mut D, at: u64, out: &mut [u8]) -> Result<(), Failed>
        requires given { self.old.file < (D.world depot.old).given }
        requires inside { at + length out.old ≤ self.old.size }
        ensures bytes { OnOk result (Gives (file_of (D.world depot.old) self.old.file) (λ c. (s : Shape) → IsMapOf s self.old → out.new ≡ reading (disk_of s self.old.size c) at (length out.old))) }
        ensures same { self.new ≡ self.old }
        ensures looks { Looks self.old.file (D.world depot.old) (D.world depot.new) result }
    {
        let layout = self.layout;
        layout.read(depot, &mut self.entries, at, out)
    }

    /// How many clusters of the image a write of a range needs: one for each cluster of the disk that it touches and that has no bytes
    /// stored, and one for each table of theirs that isn't there.
    pub fn need<D: Depot>(&mut self, depot: &mut D, at: u64, length: u64) -> Result<u64, Failed>
        requires given { self.old.file < (D.world depot.old).given }
        requires inside { at + length ≤ self.old.size }
        ensures need { IfOk result (λ n. Gives (file_of (D.world depot.old) self.old.file) (λ c. (s : Shape) (store : Store) → IsMapOf s self.old → HasStore s self.old.size c store →
            n ≡ need store (record { at = at; size = length }))) }
        ensures same { self.new ≡ self.old }
        ensures looks { Looks self.old.file (D.world depot.old) (D.world depot.new) result }
    {
        let layout = self.layout;
        layout.need(depot, &mut self.entries, at, length)
    }

    /// Appends the first 1,024 runs of what NBD tells of a range: 3 for holes, 2 for zeros that clusters are kept for, 0 for data. There
    /// is room in `out` for as many.
    pub fn kinds<D: Depot>(
        &mut self,
        depot: &mut D,
        at: u64,
        length: u64,
        out: &mut Runs,
    ) -> Result<(), Failed>
        requires given { self.old.file < (D.world depot.old).given }
        requires some { 0 < length }
        requires inside { at + length ≤ self.old.size }
        requires room { vec_len out.old.items + 1024 ≤ vec_capacity out.old.items }
        ensures runs { OnOk result (Gives (file_of (D.world depot.old) self.old.file) (λ c. (s : Shape) (store : Store) → IsMapOf s self.old → HasStore s self.old.size c store →
            out.new.items.items ≡ out.old.items.items ++ first_runs (runs_of (size s) (flags_of store) (record { at = at; size = length })))) }
        ensures capacity { vec_capacity out.new.items ≡ vec_capacity out.old.items }
        ensures same { self.new ≡ self.old }
        ensures looks { Looks self.old.file (D.world depot.old) (D.world depot.new) result }
    {
        let layout = self.layout;
        layout.kinds(depot, &mut self.entries, at, length, out)
    }

    /// Writes bytes to the guest's disk. Where clusters are stored, data is written over them; in the place of holes and zeros it is written into
    /// ready clusters, which are named after. `NoRoom` comes exactly where more clusters are needed than can be handed out; nothing is done then.
    pub fn write<D: Depot>(
        &mut self,
        depot: &mut D,
        clusters: &mut Clusters,
        at: u64,
        bytes: &[u8],
    ) -> Result<(), NotWritten>
        requires given { self.old.file < (D.world depot.old).given }
        requires file { clusters.old.file ≡ self.old.file }
        requires bits { clusters.old.pool.bits ≡ self.old.bits }
        requires inside { at + length bytes.now ≤ self.old.size }

        // Whatever it answers, the image goes on to stand, each crash since leaves a file that an opening takes, and each sector of the disk, each
        // kind and each table is as it was or as after all of the write.
        ensures changes { Changes self.old (write_of at bytes.now) clusters.old clusters.new (D.world depot.old) (D.world depot.new) }
        ensures done { OnOk result (HasChanged self.old (write_of at bytes.now) clusters.old (D.world depot.old) (D.world depot.new)) }

        // After Ok as many clusters were used as were needed; whatever it answers no more were.
        ensures room { OnOk result ((s : Shape) (disks : List (List ℕ)) (first : ℕ) → IsMapOf s self.old → HandsOut first clusters.old →
            Reads self.old.file (Allocates s disks first clusters.old) (λ old new. (store : Store) → HasStore s self.old.size old store → room clusters.new.pool + need store (extent_of at bytes.now) ≡ room clusters.old.pool)
            (D.world depot.old) (D.world depot.new)) }
        ensures uses { (s : Shape) (disks : List (List ℕ)) (first : ℕ) → IsMapOf s self.old → HandsOut first clusters.old →
            Reads self.old.file (Allocates s disks first clusters.old) (λ old new. (store : Store) → HasStore s self.old.size old store → UsesUpTo clusters.old clusters.new (need store (extent_of at bytes.now)))
            (D.world depot.old) (D.world depot.new) }
        ensures short { result ≡ Err failures.NoRoom → (s : Shape) (disks : List (List ℕ)) (first : ℕ) → IsMapOf s self.old → HandsOut first clusters.old →
            Reads self.old.file (Allocates s disks first clusters.old) (λ old new. (store : Store) → HasStore s self.old.size old store → room clusters.old.pool < need store (extent_of at bytes.now))
            (D.world depot.old) (D.world depot.new) }
        ensures kept { result ≡ Err failures.NoRoom → (s : Shape) (disks : List (List ℕ)) (first : ℕ) → IsMapOf s self.old → HandsOut first clusters.old →
            Allocates s disks first clusters.old (D.world depot.old) → IsTrue (D.world depot.old).tells →
            (clusters.new ≡ clusters.old) × (file_of (D.world depot.new) self.old.file ≡ file_of (D.world depot.old) self.old.file) }

        // Unless a write of tables failed, the clusters that are referred to are just those that are spoken for, where they were before.
        ensures known { result ≢ Err (failures.Failed failing.Tables) → KnowsOn self.old Always clusters.old clusters.new (D.world depot.old) (D.world depot.new) }
        ensures image { IsSameImage clusters.old clusters.new }
        ensures same { self.new ≡ self.old }
        ensures went { Went self.old.file (D.world depot.old) (D.world depot.new) (failure result) }
    {
        let layout = self.layout;
        layout.write(depot, clusters, &mut self.entries, at, bytes)
    }

    /// Zeroes bytes of the guest's disk. Clusters that are covered whole become holes, the last one where what lies on the disk is covered; in others
    /// zeros are written where bytes are stored. No cluster is needed.
    pub fn zero<D: Depot>(
        &mut self,
        depot: &mut D,
        clusters: &mut Clusters,
        at: u64,
        length: u64,
    ) -> Result<(), Failing>
        requires given { self.old.file < (D.world depot.old).given }
        requires file { clusters.old.file ≡ self.old.file }
        requires bits { clusters.old.pool.bits ≡ self.old.bits }
        requires inside { at + length ≤ self.old.size }

        // Whatever it answers, as of a write.
        ensures changes { Changes self.old (zero_of self.old.size at length) clusters.old clusters.new (D.world depot.old) (D.world depot.new) }
        ensures done { OnOk result (HasChanged self.old (zero_of self.old.size at length) clusters.old (D.world depot.old) (D.world depot.new)) }
        ensures room { SameRoom self.old clusters.old clusters.new (D.world depot.old) }
        ensures known { result ≢ Err failing.Tables → KnowsOn self.old Always clusters.old clusters.new (D.world depot.old) (D.world depot.new) }
        ensures image { DiffersInUse clusters.old clusters.new }
        ensures same { self.new ≡ self.old }
        ensures went { Went self.old.file (D.world depot.old) (D.world depot.new) (failure_of result) }
    {
        let layout = self.layout;
        layout.zero(depot, clusters, &mut self.entries, &self.zeros, at, length)
    }
}
