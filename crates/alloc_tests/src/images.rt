//! Images in a depot, and the allocator on them; what fails ends the test.

ghost use Rattle.std.specs.Prelude.{◌≡◌, ◌^◌, ◌<◌, ◌≤◌, length, IfOk, OnOk, IsTrue};
ghost use Rattle.disk_model.specs.World.{World};
ghost use Rattle.image_header.specs.Headers.{IsRead};

use backup_file::{create_source, valid_form};
use disk_model::{Depot, FileNo};
use image_header::read_image_header;
use qc_alloc::Clusters;
use qc_layout::{Header, Part};
use std::alloc::Global;
use std::test::Fail;

/// Makes an empty image of a disk of so many bytes.
pub(crate) fn made<D: Depot>(
    alloc: Global,
    depot: &mut D,
    bytes: u64,
    cluster_bits: u32,
) -> Result<FileNo, Fail>
    ensures given { IfOk result (λ file. file.0 < (D.world depot.new).given) }
{
    if !valid_form(bytes, cluster_bits) {
        return Err("no form".into());
    }
    match create_source(alloc, depot, "s", bytes, cluster_bits, [7; 16]) {
        Ok(file) => Ok(file),
        Err(_) => Err("not made".into()),
    }
}

/// The image's file.
pub(crate) fn found<D: Depot>(depot: &mut D) -> Result<FileNo, Fail>
    ensures given { IfOk result (λ file. file.0 < (D.world depot.new).given) }
{
    match depot.find("s") {
        Ok(Some(file)) => Ok(file),
        _ => Err("no file".into()),
    }
}

/// The image's header.
pub(crate) fn header_of<D: Depot>(
    alloc: Global,
    depot: &mut D,
    file: FileNo,
) -> Result<Header, Fail>
    requires given { file.0 < (D.world depot.old).given }
    ensures given { file.0 < (D.world depot.new).given }
    ensures read { IfOk result (λ h. IsRead h file.0 (D.world depot.new)) }
{
    match read_image_header(alloc, depot, file, Part::Source) {
        Ok(header) => Ok(header),
        Err(_) => Err("no header".into()),
    }
}

/// Opens the clusters of an image whose header was read.
#[tactic(auto, using(crate::proofs::OnFile::read_on))]
pub(crate) fn opened<D: Depot>(
    alloc: Global,
    depot: &mut D,
    file: FileNo,
    header: &Header,
) -> Result<Clusters, Fail>
    requires given { file.0 < (D.world depot.old).given }
    requires header { IsRead header.now file.0 (D.world depot.old) }
    ensures file { IfOk result (λ c. c.file ≡ file.0) }
    ensures bits { IfOk result (λ c. c.pool.bits ≡ header.now.fields.cluster_bits) }
    ensures given { file.0 < (D.world depot.new).given }
    ensures read { IsRead header.now file.0 (D.world depot.new) }
{
    match Clusters::open(alloc, depot, file, header) {
        Ok(clusters) => Ok(clusters),
        Err(_) => Err("not opened".into()),
    }
}

// Claims so many clusters, from one on.
fn claim_each(clusters: &mut Clusters, first: u64, count: u64) -> Result<(), Fail>
    ensures file { clusters.new.file ≡ clusters.old.file }
{
    for index in 0..count {
        claim(clusters, first.saturating_add(index))?;
    }
    Ok(())
}

/// Opens the clusters of the image, and claims its first level.
pub(crate) fn open<D: Depot>(alloc: Global, depot: &mut D, file: FileNo) -> Result<Clusters, Fail>
    requires given { file.0 < (D.world depot.old).given }
    ensures file { IfOk result (λ c. c.file ≡ file.0) }
    ensures given { file.0 < (D.world depot.new).given }
{
    let header = header_of(alloc, depot, file)?;
    let mut clusters = opened(alloc, depot, file, &header)?;
    let cluster = 1u64 << header.fields.cluster_bits.min(21);
    let first = header.fields.l1_table_offset / cluster;
    let count = (8 * u64::from(header.fields.l1_size)).div_ceil(cluster);
    claim_each(&mut clusters, first, count)?;
    Ok(clusters)
}

/// Claims a cluster.
#[tactic(auto, using(crate::proofs::OnFile::claimable))]
pub(crate) fn claim(clusters: &mut Clusters, index: u64) -> Result<(), Fail>
    ensures file { clusters.new.file ≡ clusters.old.file }
{
    // its contract tells what holds of each allocator
    let _room = clusters.room();
    if index >= 1 << 32 {
        return Err("no cluster".into());
    }
    match clusters.claim(index) {
        Ok(()) => Ok(()),
        Err(_) => Err("not claimed".into()),
    }
}

/// Makes clusters ready.
#[tactic(auto, using(crate::proofs::OnFile::given_puts))]
pub(crate) fn top_up<D: Depot>(
    depot: &mut D,
    clusters: &mut Clusters,
    want: usize,
) -> Result<(), Fail>
    requires given { clusters.old.file < (D.world depot.old).given }
    requires few { want ≤ 64 }
    ensures file { clusters.new.file ≡ clusters.old.file }
    ensures given { clusters.new.file < (D.world depot.new).given }
{
    match clusters.top_up(depot, want) {
        Ok(()) => Ok(()),
        Err(_) => Err("no room".into()),
    }
}

// Makes a cluster ready, where none is.
fn make_ready<D: Depot>(depot: &mut D, clusters: &mut Clusters) -> Result<(), Fail>
    requires given { clusters.old.file < (D.world depot.old).given }
    ensures file { clusters.new.file ≡ clusters.old.file }
    ensures given { clusters.new.file < (D.world depot.new).given }
{
    if clusters.ready() != 0 {
        return Ok(());
    }
    top_up(depot, clusters, 1)
}

/// Takes a ready cluster, or a new one.
pub(crate) fn take<D: Depot>(depot: &mut D, clusters: &mut Clusters) -> Result<u64, Fail>
    requires given { clusters.old.file < (D.world depot.old).given }
    ensures file { clusters.new.file ≡ clusters.old.file }
    ensures given { clusters.new.file < (D.world depot.new).given }
{
    make_ready(depot, clusters)?;
    if clusters.ready() == 0 {
        return Err("none is ready".into());
    }
    Ok(clusters.take_ready())
}

/// Takes so many clusters, one by one.
pub(crate) fn take_each<D: Depot>(
    depot: &mut D,
    clusters: &mut Clusters,
    count: u64,
) -> Result<(), Fail>
    requires given { clusters.old.file < (D.world depot.old).given }
    ensures file { clusters.new.file ≡ clusters.old.file }
    ensures given { clusters.new.file < (D.world depot.new).given }
{
    for index in 0..count {
        let _number = index;
        let _cluster = take(depot, clusters)?;
    }
    Ok(())
}

/// Takes neighbours.
#[tactic(auto, using(crate::proofs::OnFile::given_puts))]
pub(crate) fn take_run<D: Depot>(
    depot: &mut D,
    clusters: &mut Clusters,
    count: u64,
) -> Result<u64, Fail>
    requires given { clusters.old.file < (D.world depot.old).given }
    requires some { 0 < count }
    ensures file { clusters.new.file ≡ clusters.old.file }
    ensures given { clusters.new.file < (D.world depot.new).given }
{
    match clusters.take_run(depot, count) {
        Ok(first) => Ok(first),
        Err(_) => Err("no run".into()),
    }
}

/// Settles the refcounts.
pub(crate) fn settle<D: Depot>(depot: &mut D, clusters: &mut Clusters) -> Result<(), Fail>
    requires given { clusters.old.file < (D.world depot.old).given }
    ensures file { clusters.new.file ≡ clusters.old.file }
    ensures given { clusters.new.file < (D.world depot.new).given }
{
    match clusters.settle(depot) {
        Ok(()) => Ok(()),
        Err(_) => Err("not settled".into()),
    }
}
