//! Opening.

ghost use Rattle.std.specs.Prelude.{◌≡◌, ◌≢◌, ℕ, ◌^◌, ◌<◌, ◌≤◌, List, Err, OnOk, IsTrue};
ghost use Rattle.disk_model.specs.World.{World, Runs, reads_of, ReadCause, IsQuiet};
ghost use Rattle.qc_layout.specs.Opening.{map_checks};
ghost use Rattle.image_header.specs.Headers.{IsRead};
ghost use Rattle.qc_alloc.specs.Tables.{Knows, IsKept};
ghost use Rattle.map_opening.specs.declared.refusals.MapRefusal.TheVariants as refusals;
ghost use Rattle.map_opening.specs.Opening.{Went};

use crate::claims::FirstLevel;
use crate::refusals::MapRefusal;
use disk_model::{Depot, FileNo};
use qc_alloc::Clusters;
use qc_layout::Header;
use std::alloc::Global;

/// Goes through the first level and each second-level table: claims the clusters of the first level, then for each of its entries, in
/// order, tests it, claims its table, and goes through that table's entries in order, each tested before its cluster is claimed. All
/// entries are gone through, those past the disk's end too. It reads the file alone: the first level in calls of up to 1 MiB, and each
/// table by one call.
pub fn claim_tables<D: Depot>(
    alloc: Global,
    depot: &mut D,
    file: FileNo,
    header: &Header,
    clusters: &mut Clusters,
) -> Result<(), MapRefusal>
    requires given { file.0 < (D.world depot.old).given }
    requires header { IsRead header.now file.0 (D.world depot.old) }
    requires bits { clusters.old.pool.bits ≡ header.now.fields.cluster_bits }

    // Where the pool knows the file with these clusters claimed, the file's checks pass and the pool knows what they claim besides; or
    // the rule that is told is the first that fails.
    ensures claims { (claimed : List ℕ) → IsTrue (D.world depot.old).tells → Knows clusters.old.pool ((D.world depot.old).seen file.0) claimed →
        Went ((D.world depot.old).seen file.0) claimed (map_checks ((D.world depot.old).seen file.0)) clusters.new.pool result }

    ensures near { OnOk result (0 < header.now.fields.l1_size → header.now.fields.l1_table_offset ≤ 2 ^ 52) }

    // Whatever it answers, only claims changed.
    ensures kept { IsKept clusters.old.pool clusters.new.pool }
    ensures same { (clusters.new.file ≡ clusters.old.file) × (clusters.new.table ≡ clusters.old.table) }
    ensures failed { result ≡ Err refusals.Failed → ReadCause (D.world depot.old) (D.world depot.new) file.0 result }
    ensures quiet { result ≢ Err refusals.Failed → IsQuiet (D.world depot.old) (D.world depot.new) }
    ensures run { Runs (reads_of file.0) (D.world depot.old) (D.world depot.new) }
{
    FirstLevel::of(&header.fields).claim_all(alloc, depot, file, clusters)
}
