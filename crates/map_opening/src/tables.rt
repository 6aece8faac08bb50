//! The two levels of tables are read, and gone through.

ghost use Rattle.std.specs.Prelude.{◌≡◌, ℕ, ◌+◌, ◌*◌, ◌/◌, ◌^◌, ◌<◌, ◌≤◌, ◌++◌, length, OnOk};
ghost use Rattle.disk_model.specs.Files.{u64_at};
ghost use Rattle.disk_model.specs.World.{World};
ghost use Rattle.qc_layout.specs.Opening.{each_below};
ghost use Rattle.map_opening.specs.Opening.{IsFirstLevel, each_from, table_slots, level_checks, entry_of, first_claims, GoesThrough};

use crate::claims::{FirstLevel, word_at};
use crate::refusals::{MapRefusal, refused_entry};
use disk_model::{Depot, FileNo};
use file_device::read;
use qc_alloc::Clusters;
use qc_layout::read_l1;
use std::alloc::Global;

/// Bytes of the first level that one call reads, at most.
const PIECE: u64 = 1 << 20;

impl FirstLevel {
    // Claims a table, reads it, and goes through its slots.
    fn claim_table<D: Depot>(
        self,
        depot: &mut D,
        file: FileNo,
        table: u64,
        words: &mut [u8],
        clusters: &mut Clusters,
    ) -> Result<(), MapRefusal>
        requires given { file.0 < (D.world depot.old).given }
        requires level { IsFirstLevel self }
        requires bits { clusters.old.pool.bits ≡ self.cluster_bits }
        requires whole { length words.old ≡ 2 ^ self.cluster_bits }
        ensures { (i : ℕ) → GoesThrough file.0 (λ seen. table_slots self.cluster_bits seen i table) clusters.old clusters.new
            (D.world depot.old) (D.world depot.new) result }
    {
        self.claim_at(clusters, table)?;
        read(depot, file, table, words)?;
        self.claim_slots(clusters, table, words)
    }

    // Tests an entry of the first level, and goes through the table that it names.
    fn claim_entry<D: Depot>(
        self,
        depot: &mut D,
        file: FileNo,
        index: u64,
        entry: u64,
        words: &mut [u8],
        clusters: &mut Clusters,
    ) -> Result<(), MapRefusal>
        requires given { file.0 < (D.world depot.old).given }
        requires level { IsFirstLevel self }
        requires bits { clusters.old.pool.bits ≡ self.cluster_bits }
        requires whole { length words.old ≡ 2 ^ self.cluster_bits }
        requires end { self.place + 8 * index ≤ 2 ^ 62 }
        ensures { GoesThrough file.0 (λ seen. level_checks self seen index entry) clusters.old clusters.new
            (D.world depot.old) (D.world depot.new) result }
    {
        match read_l1(entry, self.cluster_bits) {
            Err(fault) => Err(refused_entry(fault, self.place + 8 * index)),
            Ok(None) => Ok(()),
            Ok(Some(table)) => self.claim_table(depot, file, table, words, clusters),
        }
    }

    // Goes through entries of the first level that were read, from one on.
    fn claim_entries<D: Depot>(
        self,
        depot: &mut D,
        file: FileNo,
        first: u64,
        entries: &[u8],
        words: &mut [u8],
        clusters: &mut Clusters,
    ) -> Result<(), MapRefusal>
        requires given { file.0 < (D.world depot.old).given }
        requires level { IsFirstLevel self }
        requires bits { clusters.old.pool.bits ≡ self.cluster_bits }
        requires whole { length words.old ≡ 2 ^ self.cluster_bits }
        requires end { self.place + 8 * first + length entries.now ≤ 2 ^ 62 }
        ensures { GoesThrough file.0 (λ seen. each_below (length entries.now / 8) (λ k. level_checks self seen (first + k) (u64_at entries.now (8 * k))))
            clusters.old clusters.new (D.world depot.old) (D.world depot.new) result }
    {
        for index in 0..entries.len() / 8 {
            let entry = word_at(entries, index);
            self.claim_entry(depot, file, first + index as u64, entry, words, clusters)?;
        }
        Ok(())
    }

    // Reads entries of the first level, from one on, and goes through them.
    fn claim_piece<D: Depot>(
        self,
        depot: &mut D,
        file: FileNo,
        first: u64,
        entries: &mut [u8],
        words: &mut [u8],
        clusters: &mut Clusters,
    ) -> Result<(), MapRefusal>
        requires given { file.0 < (D.world depot.old).given }
        requires level { IsFirstLevel self }
        requires bits { clusters.old.pool.bits ≡ self.cluster_bits }
        requires whole { length words.old ≡ 2 ^ self.cluster_bits }
        requires end { self.place + 8 * first + length entries.old ≤ 2 ^ 62 }
        ensures { GoesThrough file.0 (λ seen. each_from first (length entries.old / 8) (entry_of self seen))
            clusters.old clusters.new (D.world depot.old) (D.world depot.new) result }
    {
        read(depot, file, self.place + 8 * first, entries)?;
        self.claim_entries(depot, file, first, entries, words, clusters)
    }

    // Reads the first level in pieces of a buffer's length, and goes through its entries.
    fn claim_pieces<D: Depot>(
        self,
        depot: &mut D,
        file: FileNo,
        buffer: &mut [u8],
        words: &mut [u8],
        clusters: &mut Clusters,
    ) -> Result<(), MapRefusal>
        requires given { file.0 < (D.world depot.old).given }
        requires level { IsFirstLevel self }
        requires bits { clusters.old.pool.bits ≡ self.cluster_bits }
        requires whole { length words.old ≡ 2 ^ self.cluster_bits }
        requires near { 0 < self.entries → self.place ≤ 2 ^ 52 }
        requires some { 0 < self.entries → 8 ≤ length buffer.old }
        ensures { GoesThrough file.0 (λ seen. each_below self.entries (entry_of self seen))
            clusters.old clusters.new (D.world depot.old) (D.world depot.new) result }
    {
        let mut done = 0;
        while done < self.entries {
            let count = (self.entries - done).min(buffer.len() as u64 / 8);
            let entries = &mut buffer[..8 * count as usize];
            self.claim_piece(depot, file, done, entries, words, clusters)?;
            done += count;
        }
        Ok(())
    }

    /// Claims the clusters of the first level, and goes through its entries.
    pub(crate) fn claim_all<D: Depot>(
        self,
        alloc: Global,
        depot: &mut D,
        file: FileNo,
        clusters: &mut Clusters,
    ) -> Result<(), MapRefusal>
        requires given { file.0 < (D.world depot.old).given }
        requires level { IsFirstLevel self }
        requires bits { clusters.old.pool.bits ≡ self.cluster_bits }
        ensures goes { GoesThrough file.0 (λ seen. first_claims self ++ each_below self.entries (entry_of self seen))
            clusters.old clusters.new (D.world depot.old) (D.world depot.new) result }
        ensures near { OnOk result (0 < self.entries → self.place ≤ 2 ^ 52) }
    {
        let mut buffer = vec![in alloc; 0u8; (8 * self.entries).min(PIECE) as usize]?;
        let mut words = vec![in alloc; 0u8; 1 << self.cluster_bits]?;
        self.claim_first(clusters)?;
        self.claim_pieces(depot, file, &mut buffer, &mut words, clusters)
    }
}
