//! Lays a new file out in memory.

ghost use Rattle.std.specs.Prelude.{◌≡◌, ◌+◌, ◌-◌, ◌*◌, ◌^◌, ◌<◌, ◌≤◌, ◌++◌, length, take, drop, replicate, true, IfOk};
ghost use Rattle.backup_file.specs.Layout.{is_form, parts_of};
ghost use Rattle.backup_file.specs.Plans.{IsPlan, IsPlanOf, PutsWords, PutsOnes, IsLaidOut};

use std::alloc::{AllocError, Global};

/// The numbers of a new image.
#[derive(Clone, Copy, Debug)]
pub(crate) struct Plan {
    /// The disk's size.
    pub size: u64,
    pub cluster_bits: u32,
    /// Bytes of a cluster.
    pub cluster: u64,
    /// Clusters of the refcount table, and blocks of refcounts.
    pub table: u64,
    pub blocks: u64,
    /// Entries of the first level, and the cluster at which it begins.
    pub entries: u64,
    pub first_level: u64,
    /// All clusters of the file.
    pub clusters: u64,
}

/// How many parts of this length cover so many.
fn parts(part: u64, count: u64) -> u64
    requires part { 1 ≤ part }
    requires small { count + (part - 1) < 2 ^ 64 }
    ensures { result ≡ parts_of part count }
{
    (count + (part - 1)) / part
}

/// The numbers of an image for a disk of `size` bytes.
pub(crate) fn plan_of(size: u64, cluster_bits: u32) -> Plan
    requires { is_form cluster_bits size ≡ true }
    ensures { IsPlanOf cluster_bits size result }
{
    let cluster = 1 << cluster_bits;
    let words = cluster / 8;
    let counts = cluster / 2;
    let table = parts(words * counts, 2 * parts(cluster, size) + 1024);
    let entries = parts(cluster * words, size);
    let level = parts(cluster, 8 * entries);
    let blocks = parts(counts - 1, 1 + table + level);
    let first_level = 1 + table + blocks;
    Plan {
        size,
        cluster_bits,
        cluster,
        table,
        blocks,
        entries,
        first_level,
        clusters: first_level + level,
    }
}

/// Puts bytes in the place of others.
fn put(out: &mut [u8], at: usize, bytes: &[u8])
    requires { at + length bytes.now ≤ length out.old }
    ensures { out.new ≡ take at out.old ++ bytes.now ++ drop (at + length bytes.now) out.old }
{
    out[at..at + bytes.len()].copy_from_slice(bytes);
}

/// Puts words of eight bytes from a place on, the first and each next one a step higher.
fn put_words(out: &mut [u8], from: usize, count: usize, first: u64, step: u64)
    requires room { from + 8 * count ≤ length out.old }
    requires small { first + step * count < 2 ^ 64 }
    ensures { PutsWords from count first step out.old out.new }
{
    let mut word = first;
    for i in 0..count {
        put(out, from + 8 * i, &word.to_be_bytes());
        word += step;
    }
}

/// Puts counts of 1 from a place on.
fn put_ones(out: &mut [u8], from: usize, count: usize)
    requires { from + 2 * count ≤ length out.old }
    ensures { PutsOnes from count out.old out.new }
{
    for i in 0..count {
        put(out, from + 2 * i, &1u16.to_be_bytes());
    }
}

/// Puts a first sector, the refcount table and its blocks over zeros.
fn fill(out: &mut [u8], plan: &Plan, sector: &[u8; 512])
    requires plan { IsPlan plan.now }
    requires zeros { out.old ≡ replicate (plan.now.cluster * plan.now.clusters) 0 }
    ensures { IsLaidOut plan.now.cluster_bits plan.now.size sector.now out.new }
{
    let counts = plan.cluster * (1 + plan.table);
    put(out, 0, sector);
    put_words(
        out,
        plan.cluster as usize,
        plan.blocks as usize,
        counts,
        plan.cluster,
    );
    put_ones(out, counts as usize, plan.clusters as usize);
}

/// A whole file: its first sector, the refcount table, its blocks, and zeros.
pub(crate) fn lay_out(alloc: Global, plan: &Plan, sector: &[u8; 512]) -> Result<Vec<u8>, AllocError>
    requires { IsPlan plan.now }
    ensures { IfOk result (λ bytes. IsLaidOut plan.now.cluster_bits plan.now.size sector.now bytes.items) }
{
    let mut bytes = vec![in alloc; 0u8; (plan.cluster * plan.clusters) as usize]?;
    fill(&mut bytes, plan, sector);
    Ok(bytes)
}
