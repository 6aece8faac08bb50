//! The refcounts of an image, read once.

ghost use Rattle.std.specs.Prelude.{◌≡◌, ◌≢◌, ℕ, ◌+◌, ◌-◌, ◌*◌, ◌/◌, ◌%◌, ◌^◌, ◌<◌, ◌≤◌, List, [], length, map, slice_index, vec_capacity, Some, None, IfOk, IfErr, OnOk, IsTrue};
ghost use Rattle.disk_model.specs.Files.{u16_at, u64_at, reading};
ghost use Rattle.disk_model.specs.World.{World};
ghost use Rattle.qc_layout.specs.Disks.{blocks_in, counts_in, refcount};
ghost use Rattle.qc_layout.specs.Opening.{count_clusters, Check};
ghost use Rattle.qc_alloc.specs.Opening.{rule_of};
ghost use Rattle.qc_layout.specs.Opening.Check.{Reached};
ghost use Rattle.qc_alloc.specs.Tables.{IsLayout, IsLayoutOf, blocks_of, reach_by, IsReached, IsBlock, entry_fault, AreBlocks, AreWords, IsBadNext, IsFirstBad, IsRow, Notes, IsTableOf, HasCounts, Stops, Reads};

use crate::refusals::ClusterRefusal;
use cluster_pool::ClusterSet;
use disk_model::{Depot, FileNo};
use file_device::{read, size};
use qc_layout::Fields;
use std::alloc::Global;

/// Words of the refcount table that one call reads, at most.
const WORDS: usize = 1 << 17;

/// Bytes of neighbouring blocks that one call reads, at most, where a block is no longer.
const NEIGHBOURS: u64 = 1 << 20;

/// Where the refcounts of an image are.
#[derive(Clone, Copy)]
pub(crate) struct Layout {
    pub(crate) cluster_bits: u32,
    /// Bytes of a cluster.
    pub(crate) cluster: u64,
    /// Where the refcount table stands, and how many clusters it fills.
    pub(crate) table: u64,
    pub(crate) clusters: u64,
}

// The clusters that were found counted, among those below a limit, and one past the last of all, or 0.
#[derive(Drop)]
struct Counted {
    set: ClusterSet,
    limit: u64,
    past: u64,
}

impl Layout {
    /// That of a header.
    pub(crate) fn of(fields: &Fields) -> Layout
        requires { fields.now.cluster_bits ≤ 21 }
        ensures bits { result.cluster_bits ≡ fields.now.cluster_bits }
        ensures cluster { result.cluster ≡ 2 ^ fields.now.cluster_bits }
        ensures table { result.table ≡ fields.now.refcount_table_offset }
        ensures clusters { result.clusters ≡ fields.now.refcount_table_clusters }
    {
        Layout {
            cluster_bits: fields.cluster_bits,
            cluster: 1 << fields.cluster_bits,
            table: fields.refcount_table_offset,
            clusters: u64::from(fields.refcount_table_clusters),
        }
    }

    /// How many blocks the table may name.
    pub(crate) fn blocks(self) -> u64
        requires { IsLayout self }
        ensures count { result ≡ blocks_of self }
        ensures few { result ≤ 2 ^ 23 }
    {
        self.clusters * (self.cluster / 8)
    }

    // How many clusters a block counts.
    fn each(self) -> u64
        requires { IsLayout self }
        ensures each { result ≡ counts_in self.cluster_bits }
        ensures half { 2 * result ≡ self.cluster }
    {
        self.cluster / 2
    }

    /// No cluster from here on can be used.
    pub(crate) fn reach(self) -> u64
        requires { IsLayout self }
        ensures { result ≡ reach_by self }
    {
        (1u64 << 30).min(self.blocks() * self.each())
    }

    /// Tests that the table lies below the reach.
    pub(crate) fn test_table(self) -> Result<(), ClusterRefusal>
        requires { IsLayout self }
        ensures reached { OnOk result (IsReached self) }
        ensures rule { IfErr result (λ why. rule_of why ≢ None) }
        ensures refused { IfErr result (λ why. rule_of why ≢ None → (file : List ℕ) → IsLayoutOf self file → Stops file [] (map Reached (count_clusters file)) (rule_of why)) }
    {
        let first = self.table / self.cluster;
        let past = first.max(self.reach());
        if past < first + self.clusters {
            return Err(ClusterRefusal::PastLimit(past * self.cluster));
        }
        Ok(())
    }

    /// Tests an entry of the table: the block that it names, or 0.
    fn test_entry(self, index: u64, word: u64) -> Result<u64, ClusterRefusal>
        requires layout { IsLayout self }
        requires inside { index < blocks_of self }
        requires table { self.table + 8 * blocks_of self ≤ 2 ^ 62 }
        ensures passes { IfOk result (λ block. (block ≡ word) × IsBlock self word) }
        ensures refused { IfErr result (λ why. (rule_of why ≢ None) × (rule_of why ≡ entry_fault self index word)) }
    {
        if word % 512 != 0 || word % self.cluster != 0 {
            return Err(ClusterRefusal::BadBlock(self.table + 8 * index));
        }
        if word / self.cluster >= self.reach() {
            return Err(ClusterRefusal::PastLimit(word));
        }
        Ok(word)
    }

    // Tests words of the table, behind those whose blocks are there, and appends their blocks.
    fn test_entries(self, bytes: &[u8], blocks: &mut Vec<u64>) -> Result<(), ClusterRefusal>
        requires layout { IsLayout self }
        requires inside { length blocks.old.items + length bytes.now / 8 ≤ blocks_of self }
        requires table { self.table + 8 * blocks_of self ≤ 2 ^ 62 }
        requires room { length blocks.old.items + length bytes.now / 8 ≤ vec_capacity blocks.old }
        ensures capacity { vec_capacity blocks.new ≡ vec_capacity blocks.old }
        ensures count { OnOk result (length blocks.new.items ≡ length blocks.old.items + length bytes.now / 8) }
        ensures blocks { AreBlocks self blocks.old.items → AreBlocks self blocks.new.items }
        ensures words { (file : List ℕ) → bytes.now ≡ reading file (self.table + 8 * length blocks.old.items) (length bytes.now) →
            AreWords self file blocks.old.items → AreWords self file blocks.new.items }
        ensures rule { IfErr result (λ why. rule_of why ≢ None) }
        ensures refused { IfErr result (λ why. (file : List ℕ) → bytes.now ≡ reading file (self.table + 8 * length blocks.old.items) (length bytes.now) →
            IsBadNext self file blocks.new.items (rule_of why)) }
    {
        for index in 0..bytes.len() / 8 {
            let block = self.test_entry(blocks.len() as u64, word_at(bytes, index))?;
            blocks.push_reserved(block);
        }
        Ok(())
    }

    // Reads words of the table, behind those whose blocks are there, and tests them.
    fn read_entries<D: Depot>(
        self,
        depot: &mut D,
        file: FileNo,
        bytes: &mut [u8],
        blocks: &mut Vec<u64>,
    ) -> Result<(), ClusterRefusal>
        requires given { file.0 < (D.world depot.old).given }
        requires layout { IsLayout self }
        requires inside { length blocks.old.items + length bytes.old / 8 ≤ blocks_of self }
        requires whole { length bytes.old % 8 ≡ 0 }
        requires table { self.table + 8 * blocks_of self ≤ 2 ^ 62 }
        requires room { length blocks.old.items + length bytes.old / 8 ≤ vec_capacity blocks.old }
        ensures capacity { vec_capacity blocks.new ≡ vec_capacity blocks.old }
        ensures count { OnOk result (length blocks.new.items ≡ length blocks.old.items + length bytes.old / 8) }
        ensures blocks { AreBlocks self blocks.old.items → AreBlocks self blocks.new.items }
        ensures words { (IsTrue (D.world depot.old).tells → AreWords self ((D.world depot.old).seen file.0) blocks.old.items) →
            IsTrue (D.world depot.old).tells → AreWords self ((D.world depot.old).seen file.0) blocks.new.items }
        ensures refused { IfErr result (λ why. rule_of why ≢ None → IsTrue (D.world depot.old).tells →
            IsBadNext self ((D.world depot.old).seen file.0) blocks.new.items (rule_of why)) }
        ensures reads { Reads file.0 (D.world depot.old) (D.world depot.new) result }
    {
        read(depot, file, self.table + 8 * blocks.len() as u64, bytes)?;
        self.test_entries(bytes, blocks)
    }

    /// Reads the refcount table, and tests each entry in its order.
    pub(crate) fn read_table<D: Depot>(
        self,
        alloc: Global,
        depot: &mut D,
        file: FileNo,
    ) -> Result<Vec<u64>, ClusterRefusal>
        requires given { file.0 < (D.world depot.old).given }
        requires layout { IsLayout self }
        requires table { self.table + 8 * blocks_of self ≤ 2 ^ 62 }
        ensures count { IfOk result (λ blocks. length blocks.items ≡ blocks_of self) }
        ensures blocks { IfOk result (λ blocks. AreBlocks self blocks.items) }
        ensures words { IfOk result (λ blocks. IsTrue (D.world depot.old).tells → AreWords self ((D.world depot.old).seen file.0) blocks.items) }
        ensures refused { IfErr result (λ why. rule_of why ≢ None → IsTrue (D.world depot.old).tells →
            IsFirstBad self ((D.world depot.old).seen file.0) (rule_of why)) }
        ensures reads { Reads file.0 (D.world depot.old) (D.world depot.new) result }
    {
        let count = self.blocks() as usize;
        let mut blocks = Vec::with_capacity(alloc, count)?;
        let mut buffer = vec![in alloc; 0u8; 8 * count.min(WORDS)]?;
        self.read_pieces(depot, file, &mut buffer, &mut blocks)?;
        Ok(blocks)
    }

    // Reads the refcount table in pieces of a buffer's length, and tests its words.
    fn read_pieces<D: Depot>(
        self,
        depot: &mut D,
        file: FileNo,
        buffer: &mut [u8],
        blocks: &mut Vec<u64>,
    ) -> Result<(), ClusterRefusal>
        requires given { file.0 < (D.world depot.old).given }
        requires layout { IsLayout self }
        requires table { self.table + 8 * blocks_of self ≤ 2 ^ 62 }
        requires some { 8 ≤ length buffer.old }
        requires none { length blocks.old.items ≡ 0 }
        requires room { blocks_of self ≤ vec_capacity blocks.old }
        ensures count { OnOk result (length blocks.new.items ≡ blocks_of self) }
        ensures blocks { AreBlocks self blocks.new.items }
        ensures words { IsTrue (D.world depot.old).tells → AreWords self ((D.world depot.old).seen file.0) blocks.new.items }
        ensures refused { IfErr result (λ why. rule_of why ≢ None → IsTrue (D.world depot.old).tells →
            IsFirstBad self ((D.world depot.old).seen file.0) (rule_of why)) }
        ensures reads { Reads file.0 (D.world depot.old) (D.world depot.new) result }
    {
        let count = self.blocks() as usize;
        while blocks.len() < count {
            let words = (count - blocks.len()).min(buffer.len() / 8);
            self.read_entries(depot, file, &mut buffer[..8 * words], blocks)?;
        }
        Ok(())
    }

    // Reads neighbouring blocks, none or more, from one on, and notes their counts.
    fn read_blocks<D: Depot>(
        self,
        depot: &mut D,
        file: FileNo,
        blocks: &[u64],
        first: usize,
        bytes: &mut [u8],
        counted: &mut Counted,
    ) -> Result<(), ClusterRefusal>
        requires given { file.0 < (D.world depot.old).given }
        requires layout { IsLayout self }
        requires few { length blocks.now ≡ blocks_of self }
        requires blocks { AreBlocks self blocks.now }
        requires whole { length bytes.old % self.cluster ≡ 0 }
        requires long { length bytes.old ≤ 2 ^ 21 }
        requires row { IsRow self.cluster blocks.now first (length bytes.old / self.cluster) }
        requires limit { counted.old.limit ≡ length counted.old.set }
        ensures limit { (counted.new.limit ≡ counted.old.limit) × (counted.new.limit ≡ length counted.new.set) }
        ensures notes { OnOk result (IsTrue (D.world depot.old).tells → IsTableOf self ((D.world depot.old).seen file.0) blocks.now →
            Notes (refcount ((D.world depot.old).seen file.0)) (first * counts_in self.cluster_bits) counted.old.set counted.old.past →
            Notes (refcount ((D.world depot.old).seen file.0)) ((first + length bytes.old / self.cluster) * counts_in self.cluster_bits) counted.new.set counted.new.past) }
        ensures why { IfErr result (λ why. rule_of why ≡ None) }
        ensures reads { Reads file.0 (D.world depot.old) (D.world depot.new) result }
    {
        if bytes.is_empty() {
            return Ok(());
        }
        read(depot, file, blocks[first], bytes)?;
        note_counts(bytes, first as u64 * self.each(), counted);
        Ok(())
    }

    /// Reads the blocks: which clusters below the reach are counted, and the first cluster from which on none is and the file has no bytes.
    pub(crate) fn read_counts<D: Depot>(
        self,
        alloc: Global,
        depot: &mut D,
        file: FileNo,
        blocks: &[u64],
    ) -> Result<(ClusterSet, u64), ClusterRefusal>
        requires given { file.0 < (D.world depot.old).given }
        requires layout { IsLayout self }
        requires few { length blocks.now ≡ blocks_of self }
        requires blocks { AreBlocks self blocks.now }
        ensures counts { IfOk result (λ found. IsTrue (D.world depot.old).tells → IsTableOf self ((D.world depot.old).seen file.0) blocks.now →
            HasCounts ((D.world depot.old).seen file.0) (reach_by self) found.0 found.1) }
        ensures why { IfErr result (λ why. rule_of why ≡ None) }
        ensures reads { Reads file.0 (D.world depot.old) (D.world depot.new) result }
    {
        let length = size(depot, file)?;
        let most = (NEIGHBOURS / self.cluster).max(1) as usize;
        let limit = self.reach().min(blocks_end(blocks) as u64 * self.each());
        let mut counted = Counted {
            set: ClusterSet::new(alloc, limit)?,
            limit,
            past: 0,
        };
        let mut buffer = vec![in alloc; 0u8; most * self.cluster as usize]?;
        self.count_blocks(depot, file, blocks, &mut buffer, &mut counted)?;
        let Counted { set, past, .. } = counted;
        Ok((set, length.div_ceil(self.cluster).max(past)))
    }

    // Reads all blocks, as many neighbours at once as a buffer takes, and notes their counts.
    fn count_blocks<D: Depot>(
        self,
        depot: &mut D,
        file: FileNo,
        blocks: &[u64],
        buffer: &mut [u8],
        counted: &mut Counted,
    ) -> Result<(), ClusterRefusal>
        requires given { file.0 < (D.world depot.old).given }
        requires layout { IsLayout self }
        requires few { length blocks.now ≡ blocks_of self }
        requires blocks { AreBlocks self blocks.now }
        requires some { self.cluster ≤ length buffer.old }
        requires long { length buffer.old ≤ 2 ^ 21 }
        requires limit { counted.old.limit ≡ length counted.old.set }
        ensures limit { (counted.new.limit ≡ counted.old.limit) × (counted.new.limit ≡ length counted.new.set) }
        ensures notes { OnOk result (IsTrue (D.world depot.old).tells → IsTableOf self ((D.world depot.old).seen file.0) blocks.now →
            Notes (refcount ((D.world depot.old).seen file.0)) 0 counted.old.set counted.old.past →
            Notes (refcount ((D.world depot.old).seen file.0)) (length blocks.now * counts_in self.cluster_bits) counted.new.set counted.new.past) }
        ensures why { IfErr result (λ why. rule_of why ≡ None) }
        ensures reads { Reads file.0 (D.world depot.old) (D.world depot.new) result }
    {
        let cluster = self.cluster as usize;
        let mut index = 0;
        while index < blocks.len() {
            let count = neighbours(blocks, index, buffer.len() / cluster, self.cluster);
            self.read_blocks(
                depot,
                file,
                blocks,
                index,
                &mut buffer[..count * cluster],
                counted,
            )?;
            index += count.max(1);
        }
        Ok(())
    }
}

// A word among others, the highest byte first.
fn word_at(words: &[u8], index: usize) -> u64
    requires { 8 * index + 8 ≤ length words.now }
    ensures { result ≡ u64_at words.now (8 * index) }
{
    let at = 8 * index;
    u64::from_be_bytes(words[at..at + 8].try_into().unwrap())
}

// One past the last block that is there.
fn blocks_end(blocks: &[u64]) -> usize
    ensures within { result ≤ length blocks.now }
    ensures behind { (i : ℕ) → result ≤ i → slice_index blocks.now i ≡ 0 }
    ensures last { 0 < result → slice_index blocks.now (result - 1) ≢ 0 }
{
    let mut end = 0;
    for index in 0..blocks.len() {
        if blocks[index] != 0 {
            end = index + 1;
        }
    }
    end
}

// How many blocks from this one on stand in a row, at most so many; none where it is missing.
fn neighbours(blocks: &[u64], first: usize, most: usize, cluster: u64) -> usize
    requires inside { first < length blocks.now }
    requires some { 0 < most }
    requires near { (i : ℕ) → slice_index blocks.now i ≤ 2 ^ 52 }
    requires few { length blocks.now ≤ 2 ^ 23 }
    requires cluster { cluster ≤ 2 ^ 21 }
    ensures most { result ≤ most }
    ensures row { IsRow cluster blocks.now first result }
    ensures none { result ≡ 0 → slice_index blocks.now first ≡ 0 }
{
    if blocks[first] == 0 {
        return 0;
    }
    for count in 1..most.min(blocks.len() - first) {
        if blocks[first + count] != blocks[first] + count as u64 * cluster {
            return count;
        }
    }
    most.min(blocks.len() - first)
}

// Notes the counts of clusters from one on.
fn note_counts(bytes: &[u8], from: u64, counted: &mut Counted)
    requires near { from + length bytes.now ≤ 2 ^ 62 }
    requires limit { counted.old.limit ≡ length counted.old.set }
    ensures limit { (counted.new.limit ≡ counted.old.limit) × (counted.new.limit ≡ length counted.new.set) }
    ensures notes { (counts : ℕ → ℕ) → ((i : ℕ) → i < length bytes.now / 2 → counts (from + i) ≡ u16_at bytes.now (2 * i)) →
        Notes counts from counted.old.set counted.old.past → Notes counts (from + length bytes.now / 2) counted.new.set counted.new.past }
{
    for index in 0..bytes.len() / 2 {
        note(count_at(bytes, index), from + index as u64, counted);
    }
}

// A count among others, the high byte first.
fn count_at(counts: &[u8], index: usize) -> u16
    requires { 2 * index + 2 ≤ length counts.now }
    ensures { result ≡ u16_at counts.now (2 * index) }
{
    u16::from_be_bytes([counts[2 * index], counts[2 * index + 1]])
}

// Notes the count of a cluster.
fn note(count: u16, cluster: u64, counted: &mut Counted)
    requires near { cluster < 2 ^ 62 }
    requires limit { counted.old.limit ≡ length counted.old.set }
    ensures limit { (counted.new.limit ≡ counted.old.limit) × (counted.new.limit ≡ length counted.new.set) }
    ensures notes { (counts : ℕ → ℕ) → counts cluster ≡ count →
        Notes counts cluster counted.old.set counted.old.past → Notes counts (cluster + 1) counted.new.set counted.new.past }
{
    if count == 0 {
        return;
    }
    counted.past = cluster + 1;
    if cluster < counted.limit {
        counted.set.insert(cluster);
    }
}
