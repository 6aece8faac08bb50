//! A backup's clusters are found, and its file stands from then on.

ghost use Rattle.std.specs.Prelude.{◌≡◌, ℕ, List, [], ◌∷◌, ◌^◌, ◌<◌, ◌≤◌, IfOk, OnOk, IsTrue};
ghost use Rattle.disk_model.specs.World.{World, Runs, reads_of, EachSinceSync};
ghost use Rattle.image_model.specs.Clusters.{IsSafe};
ghost use Rattle.image_model.specs.Calls.{Told, shape_of};
ghost use Rattle.alloc_tests.specs.Opening.{IsAllFound, Starts};

use disk_model::{Depot, Failed, FileNo};
use file_device::size;
use image_calls::laws::{backup_claims, backup_opens};
use image_calls::{begin, extend};
use image_header::{NoHeader, read_image_header};
use map_opening::{MapRefusal, claim_tables};
use qc_alloc::{ClusterRefusal, Clusters};
use qc_layout::Part;
use qc_layout::laws::opening_is_exact;
use std::alloc::Global;

/// Why a backup isn't opened.
#[derive(Drop)]
pub enum NotOpened {
    /// Its header.
    Header(NoHeader),
    /// Its refcounts.
    Counts(ClusterRefusal),
    /// Its tables.
    Tables(MapRefusal),
    /// A call on the file failed.
    Failed,
    /// It is too long.
    TooLong,
}

impl From<NoHeader> for NotOpened {
    fn from(e: NoHeader) -> NotOpened {
        NotOpened::Header(e)
    }
}

impl From<ClusterRefusal> for NotOpened {
    fn from(e: ClusterRefusal) -> NotOpened {
        NotOpened::Counts(e)
    }
}

impl From<MapRefusal> for NotOpened {
    fn from(e: MapRefusal) -> NotOpened {
        NotOpened::Tables(e)
    }
}

impl From<Failed> for NotOpened {
    fn from(_e: Failed) -> NotOpened {
        NotOpened::Failed
    }
}

/// Reads the header and all tables, and claims their clusters.
pub fn find_clusters<D: Depot>(
    alloc: Global,
    depot: &mut D,
    file: FileNo,
) -> Result<Clusters, NotOpened>
    requires given { file.0 < (D.world depot.old).given }
    ensures file { IfOk result (λ c. c.file ≡ file.0) }
    ensures found { IfOk result (λ c. IsTrue (D.world depot.old).tells → IsAllFound c ((D.world depot.old).seen file.0)) }
    ensures run { Runs (reads_of file.0) (D.world depot.old) (D.world depot.new) }
{
    let header = read_image_header(alloc, depot, file, Part::Target)?;
    let mut clusters = Clusters::open(alloc, depot, file, &header)?;
    claim_tables(alloc, depot, file, &header, &mut clusters)?;
    backup_opens();
    backup_claims();
    opening_is_exact();
    let _room = clusters.room();
    Ok(clusters)
}

/// Syncs the file, and makes it reach to the end of its clusters.
pub fn start_clusters<D: Depot>(
    depot: &mut D,
    file: FileNo,
    cluster_bits: u32,
    clusters: &Clusters,
) -> Result<(), NotOpened>
    requires given { file.0 < (D.world depot.old).given }
    requires file { clusters.now.file ≡ file.0 }
    requires bits { clusters.now.pool.bits ≡ cluster_bits }
    ensures stands { OnOk result (IsTrue (D.world depot.old).tells → IsAllFound clusters.now ((D.world depot.old).seen file.0) → Starts clusters.now ((D.world depot.old).seen file.0) (D.world depot.new)) }
    ensures crash { Told (IsAllFound clusters.now) file.0 (D.world depot.old) →
        EachSinceSync (D.world depot.old) (D.world depot.new) file.0 (IsSafe (shape_of ((D.world depot.old).seen file.0)) ((D.world depot.old).seen file.0 ∷ [])) }
{
    let length = size(depot, file)?;
    let next = clusters.next();
    let _room = clusters.room();
    begin(depot, file)?;
    if next > 1 << 40 {
        return Err(NotOpened::TooLong);
    }
    let end = next << cluster_bits;
    if length < end {
        extend(depot, file, end - 1)?;
    }
    Ok(())
}
