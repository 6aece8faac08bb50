//! Opening.

ghost use Rattle.std.specs.Prelude.{◌≡◌, ◌≢◌, ℕ, ◌<◌, List, Err, IfOk, IsTrue};
ghost use Rattle.disk_model.specs.World.{World, Runs, reads_of, ReadCause, IsQuiet};
ghost use Rattle.image_header.specs.Headers.{IsRead};
ghost use Rattle.map_opening.specs.Opening.{Went};
ghost use Rattle.map_opening.specs.declared.refusals.MapRefusal.TheVariants as refusals;
ghost use Rattle.qc_alloc.specs.Tables.{Knows, IsKept};
ghost use Rattle.qc_layout.specs.Opening.{map_checks};
ghost use Rattle.qc_map.specs.Mapping.{mapping_of};

use crate::map::Map;
use disk_model::{Depot, FileNo};
use map_opening::{MapRefusal, claim_tables};
use qc_alloc::Clusters;
use qc_layout::Header;
use std::alloc::Global;

impl Map {
    /// Opens the map of an image whose header was read: claims the first level, and each table and cluster that entries name, each tested
    /// before. It takes all memory that the map ever takes.
    pub fn open<D: Depot>(
        alloc: Global,
        depot: &mut D,
        file: FileNo,
        header: &Header,
        clusters: &mut Clusters,
    ) -> Result<Map, MapRefusal>
        requires given { file.0 < (D.world depot.old).given }
        requires header { IsRead header.now file.0 (D.world depot.old) }
        requires bits { clusters.old.pool.bits ≡ header.now.fields.cluster_bits }
        ensures map { IfOk result (λ m. m ≡ mapping_of file.0 header.now.fields) }

        // Where the pool knows the file with these clusters claimed, the file's checks pass and the pool knows what they claim besides; or
        // the rule that is told is the first that fails.
        ensures claims { (claimed : List ℕ) → IsTrue (D.world depot.old).tells → Knows clusters.old.pool ((D.world depot.old).seen file.0) claimed →
            Went ((D.world depot.old).seen file.0) claimed (map_checks ((D.world depot.old).seen file.0)) clusters.new.pool result }

        // Whatever it answers, only claims changed.
        ensures kept { IsKept clusters.old.pool clusters.new.pool }
        ensures same { (clusters.new.file ≡ clusters.old.file) × (clusters.new.table ≡ clusters.old.table) }
        ensures failed { result ≡ Err refusals.Failed → ReadCause (D.world depot.old) (D.world depot.new) file.0 result }
        ensures quiet { result ≢ Err refusals.Failed → IsQuiet (D.world depot.old) (D.world depot.new) }
        ensures run { Runs (reads_of file.0) (D.world depot.old) (D.world depot.new) }
    {
        claim_tables(alloc, depot, file, header, clusters)?;
        Ok(Map::over(alloc, file, header)?)
    }
}
