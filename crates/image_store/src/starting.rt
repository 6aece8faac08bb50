//! The first calls on an image that was found in order.

ghost use Rattle.std.specs.Prelude.{◌≡◌, ◌^◌, ◌<◌, ◌≤◌, min, [], ◌∷◌, OnOk, IsTrue};
ghost use Rattle.disk_model.specs.World.{EachSinceSync};
ghost use Rattle.file_device.specs.Calls.{Calls};
ghost use Rattle.qc_layout.specs.Disks.{place_of};
ghost use Rattle.image_model.specs.Clusters.{IsSafe};
ghost use Rattle.image_model.specs.Calls.{Told, shape_of};
ghost use Rattle.image_store.specs.Finding.{IsAllFound};
ghost use Rattle.image_store.specs.Opening.{Starts};

use disk_model::{Depot, Failed, FileNo};
use file_device::size;
use image_calls::{begin, extend};
use qc_alloc::Clusters;

/// No image uses a cluster from here on.
const REACH: u64 = 1 << 30;

// Where the first clusters end, as far as an image can use them.
fn end_of(clusters: &Clusters, cluster_bits: u32) -> u64
    requires bits { clusters.now.pool.bits ≡ cluster_bits }
    ensures end { result ≡ place_of cluster_bits (min clusters.now.pool.next (2 ^ 30)) }
    ensures low { result ≤ 2 ^ 51 }
{
    let _room = clusters.room();
    clusters.next().min(REACH) << cluster_bits
}

/// Syncs the file, and makes it reach to the end of its clusters.
pub(crate) fn start<D: Depot>(
    depot: &mut D,
    file: FileNo,
    cluster_bits: u32,
    clusters: &Clusters,
) -> Result<(), Failed>
    requires given { file.0 < (D.world depot.old).given }
    requires file { clusters.now.file ≡ file.0 }
    requires bits { clusters.now.pool.bits ≡ cluster_bits }
    ensures stands { OnOk result (IsTrue (D.world depot.old).tells → IsAllFound clusters.now ((D.world depot.old).seen file.0) →
        Starts clusters.now ((D.world depot.old).seen file.0) (D.world depot.new)) }

    // Each crash since its first sync leaves the image as it was found, and so do reads.
    ensures crash { Told (IsAllFound clusters.now) file.0 (D.world depot.old) →
        EachSinceSync (D.world depot.old) (D.world depot.new) file.0 (IsSafe (shape_of ((D.world depot.old).seen file.0)) ((D.world depot.old).seen file.0 ∷ [])) }
    ensures seen { Told (IsAllFound clusters.now) file.0 (D.world depot.old) →
        Told (IsSafe (shape_of ((D.world depot.old).seen file.0)) ((D.world depot.old).seen file.0 ∷ [])) file.0 (D.world depot.new) }
    ensures calls { Calls file.0 (D.world depot.old) (D.world depot.new) result }
{
    let length = size(depot, file)?;
    begin(depot, file)?;
    let end = end_of(clusters, cluster_bits);
    if length < end {
        extend(depot, file, end - 1)?;
    }
    Ok(())
}
