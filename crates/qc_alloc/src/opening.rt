//! Opening.

ghost use Rattle.std.specs.Prelude.{◌≡◌, ◌≢◌, ℕ, ◌+◌, ◌*◌, ◌/◌, ◌%◌, ◌^◌, ◌<◌, ◌≤◌, List, [], ◌∷◌, length, map, Some, None, IfOk, IfErr, OnOk, IsTrue};
ghost use Rattle.std.specs.List.{range_with_len};
ghost use Rattle.disk_model.specs.World.{World, Runs, reads_of, ReadCause, IsQuiet};
ghost use Rattle.qc_layout.specs.Disks.{bits_of, blocks_in};
ghost use Rattle.qc_layout.specs.Opening.{Check, count_clusters, each_below, block_named, block_claims, count_tests, count_claims, count_checks, refused_after};
ghost use Rattle.qc_layout.specs.Opening.Check.{Claim};
ghost use Rattle.qc_layout.specs.Owners.{Who};
ghost use Rattle.qc_layout.specs.Owners.Who.{Head, Counts, Block};
ghost use Rattle.image_header.specs.Headers.{IsRead};
ghost use Rattle.qc_alloc.specs.declared.refusals.ClusterRefusal.TheVariants as refusals;
ghost use Rattle.cluster_pool.specs.Pool.{block_at, reach};
ghost use Rattle.qc_alloc.specs.Opening.{rule_of, IsFound};
ghost use Rattle.qc_alloc.specs.Tables.{IsLayout, IsLayoutOf, blocks_of, AreBlocks, IsReached, Stops, Knows, Went, Names, IsFresh, IsTested, IsKept, Reads};

use crate::clusters::{Clusters, claim};
use crate::refusals::ClusterRefusal;
use crate::tables::Layout;
use cluster_pool::Pool;
use cluster_pool::laws::{claims_are_exact, fresh_is_room};
use disk_model::{Depot, FileNo};
use qc_layout::Header;
use std::alloc::Global;

/// Counts that one call writes, at most.
const COUNTS: u64 = 1 << 15;

impl Clusters {
    /// The clusters of an image whose header was read. Tested are, in this order, that the refcount table lies below the reach, and each
    /// entry of it; then the header, the table and its blocks are claimed. It reads the file alone, each block once.
    pub fn open<D: Depot>(
        alloc: Global,
        depot: &mut D,
        file: FileNo,
        header: &Header,
    ) -> Result<Clusters, ClusterRefusal>
        requires given { file.0 < (D.world depot.old).given }
        requires header { IsRead header.now file.0 (D.world depot.old) }

        ensures opened { IfOk result (λ c. IsTrue (D.world depot.old).tells → IsFound c ((D.world depot.old).seen file.0)) }
        ensures is { IfOk result (λ c. (c.file ≡ file.0) × (c.table ≡ header.now.fields.refcount_table_offset) × (c.pool.bits ≡ header.now.fields.cluster_bits)) }
        ensures fresh { IfOk result (λ c. (c.pool.ready ≡ []) × (c.pool.prepared ≡ c.pool.next)) }
        ensures refused { IfErr result (λ why. rule_of why ≢ None → IsTrue (D.world depot.old).tells →
            rule_of why ≡ refused_after ((D.world depot.old).seen file.0) [] (count_checks ((D.world depot.old).seen file.0))) }
        ensures failed { result ≡ Err refusals.Failed → ReadCause (D.world depot.old) (D.world depot.new) file.0 result }
        ensures quiet { result ≢ Err refusals.Failed → IsQuiet (D.world depot.old) (D.world depot.new) }
        ensures run { Runs (reads_of file.0) (D.world depot.old) (D.world depot.new) }
    {
        let layout = Layout::of(&header.fields);
        let mut pool = read_pool(alloc, depot, file, layout)?;
        claim_all(&mut pool, layout)?;
        let each = (1u64 << pool.cluster_bits()) / 2;
        let counts = vec![in alloc; 0u8; 2 * COUNTS.min(each) as usize]?;
        fresh_is_room();
        Ok(Clusters {
            file,
            table: layout.table,
            batch: 0,
            counts,
            pool,
        })
    }
}

// Tests the refcount table and reads the counts.
fn read_pool<D: Depot>(
    alloc: Global,
    depot: &mut D,
    file: FileNo,
    layout: Layout,
) -> Result<Pool, ClusterRefusal>
    requires given { file.0 < (D.world depot.old).given }
    requires layout { IsLayout layout }
    ensures fresh { IfOk result (IsFresh layout) }
    ensures tested { IfOk result (λ p. IsTrue (D.world depot.old).tells → IsLayoutOf layout ((D.world depot.old).seen file.0) →
        IsTested p ((D.world depot.old).seen file.0) (count_tests ((D.world depot.old).seen file.0))) }
    ensures refused { IfErr result (λ why. rule_of why ≢ None → IsTrue (D.world depot.old).tells → IsLayoutOf layout ((D.world depot.old).seen file.0) →
        Stops ((D.world depot.old).seen file.0) [] (count_tests ((D.world depot.old).seen file.0)) (rule_of why)) }
    ensures reads { Reads file.0 (D.world depot.old) (D.world depot.new) result }
{
    layout.test_table()?;
    let blocks = layout.read_table(alloc, depot, file)?;
    let found = layout.read_counts(alloc, depot, file, &blocks)?;
    let pool = Pool::new(alloc, layout.cluster_bits, blocks, found.0, found.1)?;
    Ok(pool)
}

// Claims the header, the refcount table and its blocks.
fn claim_all(pool: &mut Pool, layout: Layout) -> Result<(), ClusterRefusal>
    requires layout { IsLayout layout }
    requires bits { pool.old.bits ≡ layout.cluster_bits }
    requires table { IsReached layout }
    ensures kept { IsKept pool.old pool.new }
    ensures rule { IfErr result (λ why. rule_of why ≢ None) }
    ensures head { OnOk result (0 < pool.old.prepared) }
    ensures below { OnOk result ((i : ℕ) → i < length pool.old.blocks → block_at pool.old i ≢ 0 → block_at pool.old i / 2 ^ pool.old.bits < pool.old.prepared) }
    ensures checks { (file : List ℕ) → IsLayoutOf layout file → Knows pool.old file [] → ((i : ℕ) → i < blocks_in file → Names file i (block_at pool.old i)) →
        Went file [] (count_claims file) pool.new result }
{
    claim_at(pool, 0)?;
    claim_table(pool, layout)?;
    claim_blocks(pool)
}

// Claims the clusters of the refcount table.
fn claim_table(pool: &mut Pool, layout: Layout) -> Result<(), ClusterRefusal>
    requires layout { IsLayout layout }
    requires bits { pool.old.bits ≡ layout.cluster_bits }
    requires table { IsReached layout }
    ensures kept { IsKept pool.old pool.new }
    ensures rule { IfErr result (λ why. rule_of why ≢ None) }
    ensures checks { (file claimed : List ℕ) → Knows pool.old file claimed →
        Went file claimed (map (Claim Counts) (range_with_len (layout.table / layout.cluster) layout.clusters)) pool.new result }
{
    for index in 0..layout.clusters {
        claim_at(pool, layout.table + index * layout.cluster)?;
    }
    Ok(())
}

// Claims the blocks.
fn claim_blocks(pool: &mut Pool) -> Result<(), ClusterRefusal>
    ensures kept { IsKept pool.old pool.new }
    ensures rule { IfErr result (λ why. rule_of why ≢ None) }
    ensures below { OnOk result ((i : ℕ) → i < length pool.old.blocks → block_at pool.old i ≢ 0 → block_at pool.old i / 2 ^ pool.old.bits < pool.old.prepared) }
    ensures checks { (file claimed : List ℕ) → Knows pool.old file claimed → ((i : ℕ) → i < length pool.old.blocks → Names file i (block_at pool.old i)) →
        Went file claimed (each_below (length pool.old.blocks) (λ i. block_claims file i (block_named file i))) pool.new result }
{
    for index in 0..pool.block_count() {
        claim_block(pool, index)?;
    }
    Ok(())
}

// Claims a block, if it is there.
fn claim_block(pool: &mut Pool, index: usize) -> Result<(), ClusterRefusal>
    requires { index < length pool.old.blocks }
    ensures kept { IsKept pool.old pool.new }
    ensures rule { IfErr result (λ why. rule_of why ≢ None) }
    ensures below { OnOk result (block_at pool.old index ≢ 0 → block_at pool.old index / 2 ^ pool.old.bits < pool.old.prepared) }
    ensures checks { (file claimed : List ℕ) → Knows pool.old file claimed → Names file index (block_at pool.old index) →
        Went file claimed (block_claims file index (block_named file index)) pool.new result }
{
    let block = pool.block(index);
    if block == 0 {
        return Ok(());
    }
    claim_at(pool, block)
}

// Claims the cluster that begins at an offset.
fn claim_at(pool: &mut Pool, offset: u64) -> Result<(), ClusterRefusal>
    ensures kept { IsKept pool.old pool.new }
    ensures rule { IfErr result (λ why. rule_of why ≢ None) }
    ensures below { OnOk result (offset / 2 ^ pool.old.bits < pool.old.prepared) }
    ensures checks { (file claimed : List ℕ) (owner : Who) → Knows pool.old file claimed → Went file claimed (Claim owner (offset / 2 ^ pool.old.bits) ∷ []) pool.new result }
{
    claims_are_exact();
    claim(pool, offset >> pool.cluster_bits())
}
