//! Clusters that entries name are claimed, with no call on the file.

ghost use Rattle.std.specs.Prelude.{◌≡◌, ℕ, ◌+◌, ◌*◌, ◌/◌, ◌^◌, ◌<◌, ◌≤◌, [], ◌∷◌, length, OnOk};
ghost use Rattle.disk_model.specs.Files.{u64_at};
ghost use Rattle.qc_layout.specs.Disks.{place_of};
ghost use Rattle.qc_layout.specs.Entries.{l2_of};
ghost use Rattle.qc_layout.specs.Opening.{each_below, slot_checks};
ghost use Rattle.qc_layout.specs.Opening.Check.{Claim};
ghost use Rattle.qc_layout.specs.Owners.{Who};
ghost use Rattle.qc_alloc.specs.Allocator.{IsAllocator};
ghost use Rattle.map_opening.specs.Opening.{IsFirstLevel, word_checks, first_claims, Claims};

use crate::refusals::{MapRefusal, refused_claim, refused_entry};
use cluster_pool::laws::claims_are_exact;
use qc_alloc::Clusters;
use qc_layout::{Fields, L2Entry, read_l2};

/// Where the first level of an image's tables is.
#[derive(Clone, Copy)]
pub(crate) struct FirstLevel {
    pub(crate) cluster_bits: u32,
    /// Where it begins, and how many entries it has.
    pub(crate) place: u64,
    pub(crate) entries: u64,
}

impl FirstLevel {
    /// That of a header.
    pub(crate) fn of(fields: &Fields) -> FirstLevel
        ensures bits { result.cluster_bits ≡ fields.now.cluster_bits }
        ensures place { result.place ≡ fields.now.l1_table_offset }
        ensures entries { result.entries ≡ fields.now.l1_size }
    {
        FirstLevel {
            cluster_bits: fields.cluster_bits,
            place: fields.l1_table_offset,
            entries: u64::from(fields.l1_size),
        }
    }

    /// Claims the clusters that the first level fills.
    pub(crate) fn claim_first(self, clusters: &mut Clusters) -> Result<(), MapRefusal>
        requires level { IsFirstLevel self }
        requires bits { clusters.old.pool.bits ≡ self.cluster_bits }
        ensures claims { Claims (first_claims self) clusters.old clusters.new result }
        ensures near { OnOk result (0 < self.entries → self.place ≤ 2 ^ 52) }
    {
        let first = self.place >> self.cluster_bits;
        let cluster = 1u64 << self.cluster_bits;
        for index in 0..(8 * self.entries).div_ceil(cluster) {
            claim_cluster(clusters, first + index)?;
        }
        Ok(())
    }

    /// Claims the cluster that begins at an offset.
    pub(crate) fn claim_at(self, clusters: &mut Clusters, offset: u64) -> Result<(), MapRefusal>
        requires level { IsFirstLevel self }
        requires bits { clusters.old.pool.bits ≡ self.cluster_bits }
        ensures claims { (owner : Who) → Claims (Claim owner (offset / 2 ^ self.cluster_bits) ∷ []) clusters.old clusters.new result }
        ensures near { OnOk result (offset ≤ 2 ^ 52) }
    {
        claim_cluster(clusters, offset >> self.cluster_bits)
    }

    // Tests the entry of a slot, which stands here, and claims the cluster that it names.
    fn claim_slot(self, clusters: &mut Clusters, at: u64, entry: u64) -> Result<(), MapRefusal>
        requires level { IsFirstLevel self }
        requires bits { clusters.old.pool.bits ≡ self.cluster_bits }
        ensures { (owner : Who) → Claims (slot_checks self.cluster_bits owner at (l2_of self.cluster_bits entry)) clusters.old clusters.new result }
    {
        match read_l2(entry, self.cluster_bits) {
            Err(fault) => Err(refused_entry(fault, at)),
            Ok(L2Entry::Compressed) => Err(MapRefusal::Compressed(at)),
            Ok(L2Entry::Hole) => Ok(()),
            Ok(L2Entry::Zero(host)) => self.claim_at(clusters, host),
            Ok(L2Entry::Stored(host)) => self.claim_at(clusters, host),
        }
    }

    /// Goes through the slots of a table that was read.
    pub(crate) fn claim_slots(
        self,
        clusters: &mut Clusters,
        table: u64,
        words: &[u8],
    ) -> Result<(), MapRefusal>
        requires level { IsFirstLevel self }
        requires bits { clusters.old.pool.bits ≡ self.cluster_bits }
        requires end { table + length words.now ≤ 2 ^ 62 }
        ensures { (i : ℕ) → Claims (each_below (length words.now / 8) (λ j. word_checks self.cluster_bits i table j (u64_at words.now (8 * j))))
            clusters.old clusters.new result }
    {
        for index in 0..words.len() / 8 {
            self.claim_slot(clusters, table + 8 * index as u64, word_at(words, index))?;
        }
        Ok(())
    }
}

// Claims a cluster, by its number.
fn claim_cluster(clusters: &mut Clusters, index: u64) -> Result<(), MapRefusal>
    requires { place_of clusters.old.pool.bits index < 2 ^ 64 }
    ensures claims { (owner : Who) → Claims (Claim owner index ∷ []) clusters.old clusters.new result }
    ensures near { OnOk result (index < 2 ^ 30) }
{
    claims_are_exact();
    holds(clusters);
    match clusters.claim(index) {
        Ok(()) => Ok(()),
        Err(why) => Err(refused_claim(why)),
    }
}

// What holds of each allocator.
fn holds(clusters: &Clusters)
    ensures { IsAllocator clusters.now }
{
    let _room = clusters.room();
}

/// A word among others, the highest byte first.
pub(crate) fn word_at(words: &[u8], index: usize) -> u64
    requires { 8 * index + 8 ≤ length words.now }
    ensures { result ≡ u64_at words.now (8 * index) }
{
    let at = 8 * index;
    u64::from_be_bytes(words[at..at + 8].try_into().unwrap())
}
