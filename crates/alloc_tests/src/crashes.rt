//! What a crash leaves of an image while clusters are handed out and settled.

ghost use Rattle.std.specs.Prelude.{◌≡◌, ◌^◌, ◌<◌, ◌≤◌, IfOk, IsTrue};
ghost use Rattle.disk_memory.specs.Host.{told_by};

use crate::images::{claim, found, made, open, settle, take, take_run, top_up};
use disk_memory::MemoryHost;
use disk_model::FileNo;
use file_device::word;
use image_calls::{add_table, write_run};
use qc_alloc::Clusters;
use std::alloc::Global;
use std::test::Fail;

/// Of a cluster's number: where it begins, in clusters of 512 bytes.
const CLUSTER: u64 = 512;

/// No offset in these tests is higher.
const MOST: u64 = 1 << 40;

/// Bit 63 of an entry.
const ONCE: u64 = 1 << 63;

// Opens the image, and claims each cluster that its two levels name.
fn walk(alloc: Global, host: &mut MemoryHost) -> Result<(), Fail> {
    let file = found(host)?;
    let mut clusters = open(alloc, host, file)?;
    let table = entry(host, 3 * CLUSTER)?;
    if table == 0 {
        return Ok(());
    }
    claim(&mut clusters, table / CLUSTER)?;
    for slot in 0..64 {
        claim_entry(host, &mut clusters, table + 8 * slot)?;
    }
    Ok(())
}

// Claims the cluster that an entry names, if it names one.
fn claim_entry(host: &mut MemoryHost, clusters: &mut Clusters, at: u64) -> Result<(), Fail> {
    let stored = entry(host, at)?;
    if stored == 0 {
        return Ok(());
    }
    claim(clusters, stored / CLUSTER)
}

// The offset that an entry names.
fn entry(host: &mut MemoryHost, at: u64) -> Result<u64, Fail>
    ensures { IfOk result (λ offset. offset ≤ 2 ^ 40) }
{
    let file = found(host)?;
    if at > MOST {
        return Err("past the file".into());
    }
    match word(host, file, at) {
        Ok(entry) => Ok((entry % ONCE).min(MOST)),
        Err(_) => Err("not read".into()),
    }
}

// Each of 16 outcomes of a moment is opened anew.
fn walk_moment(alloc: Global, host: &MemoryHost, moment: u64) -> Result<(), Fail>
    requires told { IsTrue (told_by host.now).outcomes }
    requires moment { moment ≤ (told_by host.now).now }
{
    for choice in 0..16 {
        let mut left = host.pick_outcome(moment, choice)?;
        walk(alloc, &mut left)?;
    }
    Ok(())
}

// The same of each moment since one. Gives how many outcomes there were.
fn walk_outcomes(alloc: Global, host: &MemoryHost, from: u64) -> Result<u64, Fail> {
    if !host.keeps_calls() {
        return Err("no outcomes".into());
    }
    let end = host.moments();
    for moment in from..end {
        walk_moment(alloc, host, moment)?;
    }
    Ok(end.saturating_sub(from).saturating_mul(16))
}

// Names a table by the first entry.
#[tactic(auto, using(crate::proofs::OnFile::given_puts_all))]
fn name_table(host: &mut MemoryHost, file: FileNo, at: u64) -> Result<(), Fail>
    requires given { file.0 < (told_by host.old).given }
    requires at { at ≤ 2 ^ 40 }
    ensures given { (told_by host.old).given ≤ (told_by host.new).given }
{
    match add_table(host, file, 3 * CLUSTER, at + ONCE) {
        Ok(()) => Ok(()),
        Err(_) => Err("no table".into()),
    }
}

// Stores a cluster of the guest's, and names it by an entry of the table.
#[tactic(auto, using(crate::proofs::OnFile::given_puts_all))]
fn store_data(host: &mut MemoryHost, file: FileNo, table: u64, spot: u64) -> Result<(), Fail>
    requires given { file.0 < (told_by host.old).given }
    requires table { table ≤ 2 ^ 40 }
    requires place { spot ≤ 2 ^ 40 }
    ensures given { (told_by host.old).given ≤ (told_by host.new).given }
{
    let words = (spot + ONCE).to_be_bytes();
    match write_run(host, file, spot, b"data", table + 40, &words) {
        Ok(()) => Ok(()),
        Err(_) => Err("no data".into()),
    }
}

// Two ready clusters become a table and a cluster of the guest.
fn store(host: &mut MemoryHost, clusters: &mut Clusters, file: FileNo) -> Result<(), Fail>
    requires given { clusters.old.file < (told_by host.old).given }
    requires file { clusters.old.file ≡ file.0 }
    ensures file { clusters.new.file ≡ clusters.old.file }
    ensures given { clusters.new.file < (told_by host.new).given }
{
    let table = take(host, clusters)?.min(MOST / CLUSTER) * CLUSTER;
    let data = take(host, clusters)?.min(MOST / CLUSTER) * CLUSTER;
    name_table(host, file, table)?;
    store_data(host, file, table, data)
}

// The same image in a host that keeps its calls from now on.
fn again(alloc: Global, host: &MemoryHost) -> Result<MemoryHost, Fail> {
    let mut next = MemoryHost::new(alloc, true)?;
    match host.file("s") {
        Some(bytes) => next.put_file("s", bytes)?,
        None => return Err("no file".into()),
    }
    Ok(next)
}

// An empty image, in a host that keeps its calls from now on.
fn empty_image(alloc: Global) -> Result<MemoryHost, Fail> {
    let mut host = MemoryHost::new(alloc, false)?;
    let _file = made(alloc, &mut host, 65536, 9)?;
    again(alloc, &host)
}

// The same with a table, a cluster of the guest's, and a run that fills most of the first block.
fn full_image(alloc: Global) -> Result<MemoryHost, Fail> {
    let mut host = MemoryHost::new(alloc, false)?;
    let file = made(alloc, &mut host, 65536, 9)?;
    let mut clusters = open(alloc, &mut host, file)?;
    top_up(&mut host, &mut clusters, 2)?;
    store(&mut host, &mut clusters, file)?;
    let _first = take_run(&mut host, &mut clusters, 240)?;
    settle(&mut host, &mut clusters)?;
    again(alloc, &host)
}

// Its clusters, with those claimed that its two levels name.
fn full_clusters(alloc: Global, host: &mut MemoryHost) -> Result<Clusters, Fail>
    ensures { IfOk result (λ c. c.file < (told_by host.new).given) }
{
    let file = found(host)?;
    let mut clusters = open(alloc, host, file)?;
    claim(&mut clusters, 4)?;
    claim(&mut clusters, 5)?;
    Ok(clusters)
}

#[test]
fn a_crash_while_clusters_are_counted_leaves_them_counted(rt: HostRuntime) -> Result<(), Fail> {
    let alloc = rt.alloc();
    let mut host = empty_image(alloc)?;
    let file = found(&mut host)?;
    let mut clusters = open(alloc, &mut host, file)?;
    top_up(&mut host, &mut clusters, 2)?;
    store(&mut host, &mut clusters, file)?;
    top_up(&mut host, &mut clusters, 20)?;
    assert!(rt; walk_outcomes(alloc, &host, 1)? > 100);
    Ok(())
}

#[test]
fn a_crash_while_a_run_is_taken_leaves_clusters_counted(rt: HostRuntime) -> Result<(), Fail> {
    let alloc = rt.alloc();
    let mut host = full_image(alloc)?;
    let mut clusters = full_clusters(alloc, &mut host)?;
    assert_eq!(rt; take_run(&mut host, &mut clusters, 20)?, 257);
    assert!(rt; walk_outcomes(alloc, &host, 1)? > 100);
    Ok(())
}

#[test]
fn a_crash_while_counts_are_settled_leaves_clusters_counted(rt: HostRuntime) -> Result<(), Fail> {
    let alloc = rt.alloc();
    let mut first = full_image(alloc)?;
    let mut taken = full_clusters(alloc, &mut first)?;
    let _first = take_run(&mut first, &mut taken, 20)?;
    let mut host = again(alloc, &first)?;
    let mut clusters = full_clusters(alloc, &mut host)?;
    settle(&mut host, &mut clusters)?;
    assert!(rt; walk_outcomes(alloc, &host, 1)? > 50);
    Ok(())
}
