//! The allocator.

ghost use Rattle.std.specs.Prelude.{◌≡◌, ◌≢◌, ◌⊎◌, ℕ, ◌+◌, ◌*◌, ◌^◌, ◌<◌, ◌≤◌, List, length, Some, None, IfErr, OnOk, OnErr, IsTrue, slice_index};
ghost use Rattle.bitmap_model.specs.Granules.{is_in};
ghost use Rattle.qc_layout.specs.Disks.{place_of};
ghost use Rattle.cluster_pool.specs.Pool.{IsPool, IsReady, room, fresh, claim_refusal, claimed, given_back, HasTaken, HasTakenRow};
ghost use Rattle.qc_alloc.specs.Allocator.{IsAllocator, HandsOut};
ghost use Rattle.qc_alloc.specs.Opening.{rule_of};
ghost use Rattle.qc_alloc.specs.Tables.{IsClaimFault};

use crate::refusals::ClusterRefusal;
use cluster_pool::{Neighbours, Pool};
use disk_model::FileNo;
use qc_layout::ImageFault;
use std::marker::Model;

/// The clusters of an image that was opened.
///
/// Its calls act on the image's file alone. Clusters are handed out upwards; one whose refcount block is missing becomes that block.
#[derive(Debug, Drop)]
pub struct Clusters {
    pub(crate) file: FileNo,
    pub(crate) table: u64,
    pub(crate) batch: u64,
    pub(crate) counts: Vec<u8>,
    pub(crate) pool: Pool,
}

impl Model for Clusters {
    ghost use Rattle.qc_alloc.specs.Allocator.{Allocator};
    ghost use Rattle.qc_alloc.specs.Inside.{allocator_view, IsInside};

    ghost Value = { Allocator };

    ghost view = { allocator_view };

    ghost invariant = { IsInside };
}

/// Records in a pool that something refers to a cluster.
pub(crate) fn claim(pool: &mut Pool, index: u64) -> Result<(), ClusterRefusal>
    requires { place_of pool.old.bits index < 2 ^ 64 }
    ensures refused { IfErr result (λ why. (rule_of why ≢ None) × (rule_of why ≡ claim_refusal pool.old index)) }
    ensures claimed { OnOk result ((claim_refusal pool.old index ≡ None) × (pool.new ≡ claimed pool.old index)) }
    ensures kept { OnErr result (pool.new ≡ pool.old) }
{
    match pool.claim(index) {
        Ok(()) => Ok(()),
        Err(fault) => Err(refusal_of(fault)),
    }
}

// The refusal of a claim's fault; no claim has another.
fn refusal_of(fault: ImageFault) -> ClusterRefusal
    ensures { IsClaimFault fault → rule_of result ≡ Some fault }
{
    match fault {
        ImageFault::PastLimit(offset) => ClusterRefusal::PastLimit(offset),
        ImageFault::Overlap(offset) => ClusterRefusal::Overlap(offset),
        ImageFault::Uncounted(offset) => ClusterRefusal::Uncounted(offset),
        _ => ClusterRefusal::Memory,
    }
}

impl Clusters {
    /// Records that something refers to a cluster, by its number. Refused are, in this order, one past the reach, one that was claimed
    /// before, and one whose refcount is 0. Claims belong to an opening: after `settle`, one that was given back before is uncounted.
    pub fn claim(&mut self, index: u64) -> Result<(), ClusterRefusal>
        requires { place_of self.old.pool.bits index < 2 ^ 64 }
        ensures refused { IfErr result (λ why. (rule_of why ≢ None) × (rule_of why ≡ claim_refusal self.old.pool index)) }
        ensures claimed { OnOk result ((claim_refusal self.old.pool index ≡ None) × (self.new ≡ record self.old { pool = claimed self.old.pool index })) }
        ensures kept { OnErr result (self.new ≡ self.old) }
        ensures hands { (first : ℕ) → HandsOut first self.old → HandsOut first self.new }
    {
        claim(&mut self.pool, index)
    }

    /// How many clusters can still be handed out, ready ones included.
    pub fn room(&self) -> u64
        ensures room { result ≡ room self.now.pool }
        ensures allocator { IsAllocator self.now }
    {
        self.pool.room()
    }

    /// The first fresh cluster: after an opening, the file has no bytes from there on, and none is counted.
    pub fn next(&self) -> u64
        ensures { result ≡ self.now.pool.next }
    {
        self.pool.next()
    }

    /// How many clusters are ready.
    pub fn ready(&self) -> usize
        ensures { result ≡ length self.now.pool.ready }
    {
        self.pool.ready()
    }

    /// Takes a ready cluster: it is counted once, zero, and synced so.
    pub fn take_ready(&mut self) -> u64
        requires { 0 < length self.old.pool.ready }
        ensures taken { HasTaken self.old.pool self.new.pool result }
        ensures ready { IsReady self.old.pool result }
        ensures fresh { fresh self.new.pool ≡ fresh self.old.pool }
        ensures allocator { IsAllocator self.old }
        ensures same { (self.new.file ≡ self.old.file) × (self.new.table ≡ self.old.table) }
        ensures hands { (first : ℕ) → HandsOut first self.old → (first ≤ result) × HandsOut (result + 1) self.new }
    {
        self.pool.take_ready()
    }

    /// Takes the first ready cluster, and those behind it that are its neighbours, at most so many: each is counted once, zero, and synced so.
    pub fn take_neighbours(&mut self, most: u64) -> Neighbours
        requires ready { 0 < length self.old.pool.ready }
        requires some { 0 < most }
        ensures taken { HasTakenRow self.old.pool self.new.pool result.first result.count }
        ensures most { result.count ≤ most }
        ensures whole { result.count < most → slice_index self.new.pool.ready 0 ≢ result.first + result.count }
        ensures ready { (k : ℕ) → result.first ≤ k → k < result.first + result.count → IsReady self.old.pool k }
        ensures fresh { fresh self.new.pool ≡ fresh self.old.pool }
        ensures room { room self.old.pool ≡ room self.new.pool + result.count }
        ensures allocator { IsAllocator self.old }
        ensures same { (self.new.file ≡ self.old.file) × (self.new.table ≡ self.old.table) }
        ensures hands { (first : ℕ) → HandsOut first self.old → (first ≤ result.first) × HandsOut (result.first + result.count) self.new }
    {
        self.pool.take_neighbours(most)
    }

    /// Whether something refers to a cluster, or it was taken.
    pub fn is_taken(&self, index: u64) -> bool
        ensures { result ≡ is_in self.now.pool.spoken index }
    {
        self.pool.is_spoken(index)
    }

    /// Nothing refers any more to a cluster that was claimed or taken. One before the first fresh cluster isn't handed out again; one that
    /// was claimed among the fresh ones is fresh again.
    pub fn give_back(&mut self, index: u64)
        requires { IsTrue (is_in self.old.pool.spoken index) }
        ensures { self.new ≡ record self.old { pool = given_back self.old.pool index } }
    {
        self.pool.give_back(index)
    }
}
