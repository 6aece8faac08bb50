//! Tests of a pool: what its definitions mean, by small examples. Clusters have 512 bytes, so a block counts 256 of them.

ghost use Rattle.std.specs.Prelude.{◌≡◌, ◌<◌, IfSome};
ghost use Rattle.cluster_pool.specs.Pool.{block_of, reach};

use crate::{ClusterSet, Pool};
use qc_layout::ImageFault;
use std::alloc::{AllocError, Global};

// A pool with these blocks, where these clusters below `next` are counted, and clusters are fresh from `next` on.
fn pool_of(alloc: Global, places: [u64; 2], found: &[u64], next: u64) -> Result<Pool, AllocError> {
    let mut counted = ClusterSet::new(alloc, next.min(512))?;
    for number in found {
        put(&mut counted, *number);
    }
    Pool::new(alloc, 9, Vec::from_array(alloc, places)?, counted, next)
}

// Puts a number into a set, where it may be in it.
fn put(set: &mut ClusterSet, number: u64) {
    if number < set.limit() {
        set.insert(number);
    }
}

// Takes a number out of a set, where it may be in it.
fn take_out(set: &mut ClusterSet, number: u64) {
    if number < set.limit() {
        set.remove(number);
    }
}

// What is done to a pool.
#[derive(Clone, Copy, Debug)]
enum Act {
    Prepare(u64),
    AddBlock,
    Step,
    Take,
    Find(u64),
    TakeRun(u64),
    GiveBack(u64),
    Claim(u64),
    Empty,
    Settle,
}

// The block that counts the first cluster that isn't prepared: its place, or 0 where there is none.
fn block_of_next(pool: &Pool) -> Option<u64>
    ensures block { IfSome result (λ place. place ≡ block_of pool.now pool.now.prepared) }
    ensures below { IfSome result (λ _. pool.now.prepared < reach pool.now) }
{
    let each = pool.each();
    if each == 0 || pool.prepared() >= pool.reach() {
        return None;
    }
    let index = (pool.prepared() / each) as usize;
    if index >= pool.block_count() {
        return None;
    }
    Some(pool.block(index))
}

// Takes a run, where there is one that was prepared.
fn take_run(pool: &mut Pool, count: u64) -> Option<u64> {
    if count == 0 {
        return None;
    }
    let first = pool.find_run(count)?;
    if count > pool.prepared() || first > pool.prepared() - count {
        return None;
    }
    pool.take_run(first, count);
    Some(first)
}

// Prepares so many clusters, where the block that counts them is there.
fn prepare(pool: &mut Pool, count: u64) -> Option<u64> {
    let each = pool.each();
    if block_of_next(pool)? == 0 || each == 0 {
        return None;
    }
    if count > each - pool.prepared() % each || count > pool.reach() - pool.prepared() {
        return None;
    }
    pool.prepare(count);
    Some(pool.prepared())
}

// Adds the block that counts the first cluster that isn't prepared, where it is missing.
fn add_block(pool: &mut Pool) -> Option<u64> {
    if block_of_next(pool)? != 0 || pool.prepared() == 0 {
        return None;
    }
    pool.add_block();
    Some(pool.prepared())
}

// Does what can be done, and tells which cluster or how many there are now; nothing where the pool can't do it.
fn carry_out(pool: &mut Pool, act: Act) -> Option<u64> {
    match act {
        Act::Prepare(count) => prepare(pool, count),
        Act::AddBlock => add_block(pool),
        Act::Step => {
            if pool.next() >= pool.prepared() || pool.next() >= pool.reach() || pool.ready() >= 64 {
                return None;
            }
            pool.step();
            Some(pool.ready() as u64)
        }
        Act::Take => {
            if pool.ready() == 0 {
                return None;
            }
            Some(pool.take_ready())
        }
        Act::Find(count) => {
            if count == 0 {
                return None;
            }
            pool.find_run(count)
        }
        Act::TakeRun(count) => take_run(pool, count),
        Act::GiveBack(index) => {
            if !pool.is_spoken(index) {
                return None;
            }
            pool.give_back(index);
            Some(index)
        }
        Act::Claim(index) => claim(pool, index).ok().map(|_| index),
        Act::Empty => {
            pool.empty();
            Some(pool.next())
        }
        Act::Settle => {
            pool.settle();
            Some(pool.prepared())
        }
    }
}

// Claims a cluster whose offset can be told.
#[tactic(auto, using(crate::proofs::Sizes::place_fits))]
fn claim(pool: &mut Pool, index: u64) -> Result<(), ImageFault> {
    if pool.cluster_bits() > 21 || index >= 1 << 30 {
        return Err(ImageFault::PastLimit(u64::MAX));
    }
    pool.claim(index)
}

#[test]
fn claims_are_refused_in_their_order(rt: HostRuntime) -> Result<(), AllocError> {
    let alloc = rt.alloc();
    let mut pool = pool_of(alloc, [512, 0], &[0, 1, 2], 4)?;
    let table = [
        // Past the reach, and not counted.
        (512, Err(ImageFault::PastLimit(262144))),
        (2, Ok(())),
        (2, Err(ImageFault::Overlap(1024))),
        (3, Err(ImageFault::Uncounted(1536))),
        // Fresh, and not counted yet.
        (4, Err(ImageFault::Uncounted(2048))),
        (1, Ok(())),
    ];
    for (index, answer) in table {
        assert_eq!(rt; claim(&mut pool, index), answer, "cluster {index}");
    }
    // From here on cluster 2 is claimed and no longer counted.
    pool.settle();
    assert_eq!(rt; claim(&mut pool, 2), Err(ImageFault::Overlap(1024)));
    assert_eq!(rt; claim(&mut pool, 0), Err(ImageFault::Uncounted(0)));
    assert_eq!(rt; pool.room(), 507);
    Ok(())
}

#[test]
fn runs_skip_blocks(rt: HostRuntime) -> Result<(), AllocError> {
    let alloc = rt.alloc();
    // The blocks, the first fresh cluster, the room, and for some lengths the first run.
    let table = [
        // Block 1 is missing: cluster 256 becomes it.
        (
            [1024, 0],
            5,
            506,
            [
                (251, Some(5)),
                (252, Some(257)),
                (255, Some(257)),
                (256, None),
            ],
        ),
        // It is missing in the middle of its range: the first fresh cluster becomes it.
        (
            [1024, 0],
            300,
            211,
            [(1, Some(301)), (211, Some(301)), (212, None), (512, None)],
        ),
        // It stands behind the first fresh cluster.
        (
            [1024, 153600],
            290,
            221,
            [
                (10, Some(290)),
                (11, Some(301)),
                (211, Some(301)),
                (212, None),
            ],
        ),
        // Nothing is left.
        (
            [1024, 0],
            511,
            0,
            [(1, None), (2, None), (3, None), (4, None)],
        ),
        (
            [1024, 1536],
            900,
            0,
            [(1, None), (2, None), (3, None), (4, None)],
        ),
    ];
    for (places, next, room, runs) in table {
        let mut pool = pool_of(alloc, places, &[], next)?;
        assert_eq!(rt; pool.room(), room, "from {next}");
        for (count, first) in runs {
            assert_eq!(rt;
                carry_out(&mut pool, Act::Find(count)),
                first,
                "{count} from {next}"
            );
        }
    }
    Ok(())
}

#[test]
fn clusters_go_out_and_come_back(rt: HostRuntime) -> Result<(), AllocError> {
    let mut pool = pool_of(rt.alloc(), [1024, 0], &[0, 1, 2], 250)?;
    // What is done, what it tells, and the room after it.
    let table = [
        (Act::Take, None, 261),
        (Act::Step, None, 261),
        (Act::AddBlock, None, 261),
        (Act::Prepare(7), None, 261),
        (Act::Prepare(4), Some(254), 261),
        (Act::Step, Some(1), 261),
        (Act::Step, Some(2), 261),
        // One that is ready is claimed, and then one that is fresh and prepared.
        (Act::Claim(250), Some(250), 260),
        (Act::Claim(252), Some(252), 259),
        (Act::Step, Some(1), 259),
        (Act::Take, Some(251), 258),
        (Act::Take, None, 258),
        // What comes back behind the first fresh cluster is counted already, and no room.
        (Act::GiveBack(251), Some(251), 258),
        (Act::GiveBack(251), None, 258),
        (Act::Prepare(2), Some(256), 258),
        (Act::Prepare(1), None, 258),
        (Act::AddBlock, Some(257), 258),
        (Act::Claim(256), None, 258),
        (Act::Prepare(3), Some(260), 258),
        (Act::Find(3), Some(253), 258),
        (Act::Find(4), Some(257), 258),
        // A run that isn't prepared yet isn't taken; one that is passes what is before it.
        (Act::TakeRun(4), None, 258),
        (Act::Prepare(1), Some(261), 258),
        (Act::TakeRun(4), Some(257), 251),
        (Act::GiveBack(258), Some(258), 251),
        (Act::Prepare(2), Some(263), 251),
        (Act::Step, Some(1), 251),
        // A fresh cluster that comes back is fresh again.
        (Act::Claim(262), Some(262), 250),
        (Act::GiveBack(262), Some(262), 251),
        (Act::Empty, Some(263), 249),
        (Act::Take, None, 249),
        (Act::Settle, Some(263), 249),
        (Act::Claim(253), None, 249),
    ];
    for (done, told, room) in table {
        assert_eq!(rt; carry_out(&mut pool, done), told, "{done:?}");
        assert_eq!(rt; pool.room(), room, "{done:?}");
    }
    Ok(())
}

// Whether a set has the numbers of a plain list, and none behind it.
fn is_same(set: &ClusterSet, plain: &[bool]) -> bool {
    for number in 0..plain.len() {
        if set.has(number as u64) != plain[number] {
            return false;
        }
    }
    !set.has(plain.len() as u64) && !set.has(u64::MAX)
}

#[test]
fn sets_are_as_plain_lists(rt: HostRuntime) -> Result<(), AllocError> {
    let alloc = rt.alloc();
    for count in [1, 63, 64, 65, 4097] {
        let mut set = ClusterSet::new(alloc, count)?;
        let mut plain = vec![in alloc; false; count as usize]?;
        assert!(rt; is_same(&set, &plain), "{count}");
        for number in 0..plain.len() {
            if number % 3 != 1 {
                plain[number] = true;
                put(&mut set, number as u64);
            }
        }
        assert!(rt; is_same(&set, &plain), "{count}");
        for number in 0..plain.len() {
            if number % 5 < 2 {
                plain[number] = false;
                take_out(&mut set, number as u64);
            }
        }
        assert!(rt; is_same(&set, &plain), "{count}");
        set.clear();
        plain.as_mut_slice().fill(false);
        assert!(rt; is_same(&set, &plain), "{count}");
    }
    Ok(())
}
