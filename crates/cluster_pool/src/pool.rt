//! Clusters that are spoken for, and those that can be handed out.

ghost use Rattle.std.specs.Prelude.{◌≡◌, ◌≢◌, ◌↔◌, ◌⊎◌, ℕ, ◌+◌, ◌*◌, ◌/◌, ◌%◌, ◌^◌, ◌<◌, ◌≤◌, List, length, true, false, Bool, Some, None, Err, IfOk, IfErr, OnOk, OnErr, IfSome, IsNone, IsTrue, filter, not, ◌==◌, ◌-◌, ◌&&◌, min, All, count_by, nat_lt, nat_le, if◌then◌else◌, [], slice_index};
ghost use Rattle.std.specs.List.{range_with_len};
ghost use Rattle.bitmap_model.specs.Granules.{is_in};
ghost use Rattle.qc_layout.specs.Disks.{place_of, counts_in};
ghost use Rattle.qc_layout.specs.declared.faults.ImageFault.{ImageFault};
ghost use Rattle.cluster_pool.specs.Pool as pools;
ghost use Rattle.cluster_pool.specs.Sets.{with_member};
ghost use Rattle.cluster_pool.specs.Pool.{IsPool, IsReady, each, reach, block_of, is_own_block, becomes_block, is_open, fresh, room, is_counted, claim_refusal, found_pool, claimed, given_back, HasTaken, HasTakenRow, prepared_on, HasAddedBlock, stepped, IsRunOf, IsFirstRunOf, HasNoRunOf, HasTakenRun, emptied, settled};

use crate::set::ClusterSet;
use qc_layout::ImageFault;
use std::alloc::{AllocError, Global};
use std::collections::VecDeque;
use std::marker::Model;

/// How many clusters may be ready at once.
const READY: usize = 64;

/// Clusters next to one another.
#[derive(Clone, Copy, Debug, PartialEq, Eq)]
pub struct Neighbours {
    /// The first, by its number.
    pub first: u64,
    /// How many they are.
    pub count: u64,
}

/// The clusters of an image, as an allocator sees them.
#[derive(Debug, Drop)]
pub struct Pool {
    cluster_bits: u32,
    reach: u64,
    blocks: Vec<u64>,
    spoken: ClusterSet,
    counted: ClusterSet,
    from: u64,
    ready: VecDeque<u64>,
    next: u64,
    prepared: u64,
    fresh: u64,
}

impl Model for Pool {
    ghost use Rattle.cluster_pool.specs.Pool as pools;
    ghost use Rattle.cluster_pool.specs.Inside.{pool_view, IsInside};

    ghost Value = { pools.Pool };

    ghost view = { pool_view };

    ghost invariant = { IsInside };
}

impl Pool {
    /// The pool of an image with these blocks, of which nothing is claimed yet. `counted` has the clusters below `next` that
    /// are counted; from `next` on none is, and the file has no bytes.
    pub fn new(
        alloc: Global,
        cluster_bits: u32,
        blocks: Vec<u64>,
        counted: ClusterSet,
        next: u64,
    ) -> Result<Pool, AllocError>
        requires low { 9 ≤ cluster_bits }
        requires high { cluster_bits ≤ 21 }
        requires few { length blocks.items ≤ 2 ^ 23 }
        ensures { IfOk result (λ p. p ≡ found_pool cluster_bits blocks.items counted next) }
    {
        let each = 1u64 << (cluster_bits - 1);
        let reach = (1u64 << 30).min(blocks.len() as u64 * each);
        let fresh = count_fresh(cluster_bits, &blocks, reach, next);
        Ok(Pool {
            cluster_bits,
            reach,
            blocks,
            spoken: ClusterSet::new(alloc, reach)?,
            counted,
            from: next,
            ready: VecDeque::with_capacity(alloc, READY)?,
            next,
            prepared: next,
            fresh,
        })
    }

    /// The cluster bits.
    pub fn cluster_bits(&self) -> u32
        ensures bits { result ≡ self.now.bits }
        ensures pool { IsPool self.now }
    {
        self.cluster_bits
    }

    /// How many clusters a block counts.
    pub fn each(&self) -> u64
        ensures { result ≡ each self.now }
    {
        1 << (self.cluster_bits - 1)
    }

    /// No cluster from here on can be used.
    pub fn reach(&self) -> u64
        ensures { result ≡ reach self.now }
    {
        self.reach
    }

    /// How many blocks the refcount table may name.
    pub fn block_count(&self) -> usize
        ensures { result ≡ length self.now.blocks }
    {
        self.blocks.len()
    }

    /// Where a block stands, or 0 where there is none.
    pub fn block(&self, index: usize) -> u64
        requires { index < length self.now.blocks }
        ensures { result ≡ pools.block_at self.now index }
    {
        self.blocks[index]
    }

    /// The first fresh cluster.
    pub fn next(&self) -> u64
        ensures { result ≡ self.now.next }
    {
        self.next
    }

    /// The first cluster that isn't prepared.
    pub fn prepared(&self) -> u64
        ensures { result ≡ self.now.prepared }
    {
        self.prepared
    }

    /// How many clusters can be taken at once.
    pub fn ready(&self) -> usize
        ensures { result ≡ length self.now.ready }
    {
        self.ready.len()
    }

    /// How many fresh clusters can be handed out.
    pub fn fresh(&self) -> u64
        ensures { result ≡ fresh self.now }
    {
        self.fresh
    }

    /// How many clusters can still be handed out, ready ones included.
    pub fn room(&self) -> u64
        ensures { result ≡ room self.now }
    {
        self.ready.len() as u64 + self.fresh
    }

    /// Whether something refers to the cluster, or it was taken.
    pub fn is_spoken(&self, index: u64) -> bool
        ensures { result ≡ is_in self.now.spoken index }
    {
        self.spoken.has(index)
    }

    /// Records a reference to a cluster. Refused are, in this order, one past the reach, one that was claimed before, and
    /// one that isn't counted.
    pub fn claim(&mut self, index: u64) -> Result<(), ImageFault>
        requires { place_of self.old.bits index < 2 ^ 64 }
        ensures refused { (fault : ImageFault) → (result ≡ Err fault) ↔ (claim_refusal self.old index ≡ Some fault) }
        ensures claimed { OnOk result (self.new ≡ claimed self.old index) }
        ensures kept { OnErr result (self.new ≡ self.old) }
    {
        let offset = index << self.cluster_bits;
        if index >= self.reach {
            return Err(ImageFault::PastLimit(offset));
        }
        if self.spoken.has(index) {
            return Err(ImageFault::Overlap(offset));
        }
        if !self.is_counted(index) {
            return Err(ImageFault::Uncounted(offset));
        }
        self.drop_ready(index);
        self.speak(index);
        Ok(())
    }

    /// Takes the first ready cluster.
    pub fn take_ready(&mut self) -> u64
        requires { 0 < length self.old.ready }
        ensures taken { HasTaken self.old self.new result }
        ensures ready { IsReady self.old result }
        ensures fresh { fresh self.new ≡ fresh self.old }
        ensures pool { IsPool self.new }
    {
        match self.ready.pop_front() {
            Some(index) => {
                self.spoken.insert(index);
                index
            }
            None => 0,
        }
    }

    /// Takes the first ready cluster, and those behind it that are its neighbours, at most so many.
    pub fn take_neighbours(&mut self, most: u64) -> Neighbours
        requires ready { 0 < length self.old.ready }
        requires some { 0 < most }
        ensures taken { HasTakenRow self.old self.new result.first result.count }
        ensures most { result.count ≤ most }
        ensures whole { result.count < most → slice_index self.new.ready 0 ≢ result.first + result.count }
        ensures ready { (k : ℕ) → result.first ≤ k → k < result.first + result.count → IsReady self.old k }
        ensures fresh { fresh self.new ≡ fresh self.old }
        ensures pool { IsPool self.new }
    {
        let first = self.take_ready();
        let mut count = 1;
        while count < most && self.ready.front() == Some(&(first + count)) {
            self.take_ready();
            count += 1;
        }
        Neighbours { first, count }
    }

    /// Nothing refers to a cluster any more. One before the first fresh cluster isn't handed out again; any other is fresh again.
    pub fn give_back(&mut self, index: u64)
        requires { IsTrue (is_in self.old.spoken index) }
        ensures given { self.new ≡ given_back self.old index }
    {
        self.fresh += self.fresh_at(index);
        self.spoken.remove(index);
    }

    /// So many clusters from the first that isn't prepared on are counted once, zero and synced.
    pub fn prepare(&mut self, count: u64)
        requires linked { block_of self.old self.old.prepared ≢ 0 }
        requires within { self.old.prepared % each self.old + count ≤ each self.old }
        requires below { self.old.prepared + count ≤ reach self.old }
        ensures prepared { self.new ≡ prepared_on self.old count }
        ensures fresh { fresh self.new ≡ fresh self.old }
    {
        self.prepared += count;
    }

    /// The first cluster that isn't prepared is the block that counts it.
    pub fn add_block(&mut self)
        requires missing { block_of self.old self.old.prepared ≡ 0 }
        requires below { self.old.prepared < reach self.old }
        requires some { 0 < self.old.prepared }
        ensures added { HasAddedBlock self.old self.new }
        ensures fresh { fresh self.new ≡ fresh self.old }
    {
        let index = (self.prepared / self.each()) as usize;
        self.blocks[index] = self.prepared << self.cluster_bits;
        self.spoken.insert(self.prepared);
        self.prepared += 1;
    }

    /// Passes one prepared cluster, which is ready from now on where it can be handed out.
    pub fn step(&mut self)
        requires prepared { self.old.next < self.old.prepared }
        requires below { self.old.next < reach self.old }
        requires few { length self.old.ready < 64 }
        ensures stepped { self.new ≡ stepped self.old }
        ensures room { room self.new ≡ room self.old }
    {
        let index = self.next;
        let opens = self.is_open(index);
        self.pass();
        if opens {
            self.ready.push_back_reserved(index);
        }
    }

    /// The first of so many fresh neighbours of which none becomes a block.
    pub fn find_run(&self, count: u64) -> Option<u64>
        requires some { 0 < count }
        ensures found { IfSome result (IsFirstRunOf self.now count) }
        ensures none { IsNone result ↔ HasNoRunOf self.now count }
    {
        let mut first = self.next;
        for index in self.next..self.reach {
            if !self.is_open(index) {
                first = index + 1;
            } else if index + 1 - first == count {
                return Some(first);
            }
        }
        None
    }

    /// Takes neighbours that were prepared, and passes over the fresh clusters before them.
    pub fn take_run(&mut self, first: u64, count: u64)
        requires run { IsRunOf self.old count first }
        requires prepared { first + count ≤ self.old.prepared }
        ensures { HasTakenRun self.old self.new first count }
    {
        for index in self.next..first + count {
            if first <= index {
                self.speak(index);
            }
            self.pass();
        }
    }

    /// No cluster is ready any more.
    pub fn empty(&mut self)
        ensures { self.new ≡ emptied self.old }
    {
        self.ready.clear();
        while self.next < self.prepared {
            self.pass();
        }
    }

    /// Each cluster that is spoken for is counted once, and no other is.
    pub fn settle(&mut self)
        ensures { self.new ≡ settled self.old }
    {
        self.counted.clear();
        self.from = self.prepared;
    }

    // Whether a cluster below the reach is no block and becomes none.
    fn is_plain(&self, index: u64) -> bool
        requires { index < reach self.now }
        ensures { result ≡ (not (is_own_block self.now index) && not (becomes_block self.now index)) }
    {
        let each = self.each();
        let block = self.blocks[(index / each) as usize];
        block != index << self.cluster_bits
            && (block != 0 || index != self.next.max(index / each * each))
    }

    // Whether a cluster below the reach can be handed out, where it is fresh.
    fn is_open(&self, index: u64) -> bool
        requires { index < reach self.now }
        ensures { result ≡ is_open self.now index }
    {
        !self.spoken.has(index) && self.is_plain(index)
    }

    // How many fresh clusters more there would be without what refers to this one, or less with it.
    fn fresh_at(&self, index: u64) -> u64
        requires { index < reach self.now }
        ensures { result ≡ (if nat_le self.now.next index && (not (is_own_block self.now index) && not (becomes_block self.now index)) then 1 else 0) }
    {
        if self.next <= index && self.is_plain(index) {
            1
        } else {
            0
        }
    }

    // How many fresh clusters less there are when the first is passed.
    fn fresh_next(&self) -> u64
        ensures { result ≡ (if nat_lt self.now.next (reach self.now) && is_open self.now self.now.next then 1 else 0) }
    {
        if self.next < self.reach && self.is_open(self.next) {
            1
        } else {
            0
        }
    }

    // Whether a cluster is counted.
    fn is_counted(&self, index: u64) -> bool
        ensures { result ≡ is_counted self.now index }
    {
        if index < self.from {
            self.counted.has(index)
        } else {
            index < self.prepared
        }
    }

    // A cluster isn't ready any more.
    fn drop_ready(&mut self, index: u64)
        ensures { self.new ≡ record self.old { ready = filter (λ m. not (m == index)) self.old.ready } }
    {
        self.ready.retain(|other| *other != index);
    }

    // Something refers to a cluster from now on, to which nothing did and which isn't ready.
    fn speak(&mut self, index: u64)
        requires below { index < reach self.old }
        requires unspoken { is_in self.old.spoken index ≡ false }
        requires unready { All (λ m. m ≢ index) self.old.ready }
        ensures { self.new ≡ record self.old { spoken = with_member self.old.spoken index } }
    {
        self.fresh -= self.fresh_at(index);
        self.spoken.insert(index);
    }

    // Passes the first fresh cluster, which was prepared.
    fn pass(&mut self)
        requires { self.old.next < self.old.prepared }
        ensures passed { self.new ≡ record self.old { next = self.old.next + 1 } }
        ensures fresh { fresh self.old ≡ fresh self.new + (if nat_lt self.old.next (reach self.old) && is_open self.old self.old.next then 1 else 0) }
    {
        self.fresh -= self.fresh_next();
        self.next += 1;
    }
}

// How many of the clusters from `start` on and before `end`, which one block counts, are no block and become none. The block
// stands at a place, or is missing where that is 0: then the first of them becomes it.
fn count_plain(cluster_bits: u32, block: u64, start: u64, end: u64) -> u64
    requires { cluster_bits ≤ 21 }
    ensures { result ≡ count_by (λ k. not (block == place_of cluster_bits k) && not ((block == 0) && (k == start))) (range_with_len start (end - start)) }
{
    if end <= start {
        return 0;
    }
    if block == 0 {
        return end - start - 1;
    }
    let own = block >> cluster_bits;
    if own << cluster_bits == block && start <= own && own < end {
        return end - start - 1;
    }
    end - start
}

// How many clusters from `next` on can be handed out where nothing is claimed and blocks stand so.
fn count_fresh(cluster_bits: u32, blocks: &[u64], reach: u64, next: u64) -> u64
    requires low { 9 ≤ cluster_bits }
    requires high { cluster_bits ≤ 21 }
    requires few { length blocks.now ≤ 2 ^ 23 }
    requires reach { reach ≡ min (2 ^ 30) (length blocks.now * counts_in cluster_bits) }
    ensures { result ≡ fresh (found_pool cluster_bits blocks.now [] next) }
{
    let each = 1u64 << (cluster_bits - 1);
    let mut fresh = 0;
    for index in 0..blocks.len() {
        let start = index as u64 * each;
        fresh += count_plain(
            cluster_bits,
            blocks[index],
            next.max(start),
            reach.min(start + each),
        );
    }
    fresh
}
