//! An image's header and tables are read, and its clusters claimed.

ghost use Rattle.std.specs.Prelude.{◌≡◌, ◌≢◌, ◌<◌, Err, None, Some, IfOk, IfErr, IsTrue};
ghost use Rattle.disk_model.specs.World.{World, Runs, reads_of, ReadCause, IsQuiet};
ghost use Rattle.qc_layout.specs.declared.header.Own.{Own as PlainOwn};
ghost use Rattle.image_store.specs.Finding.{IsFound};
ghost use Rattle.image_store.specs.Refusals.{own_refusal, IsRefused};
ghost use Rattle.image_store.specs.declared.refusals.NotOpened.TheVariants as refusals;

use crate::refusals::NotOpened;
use disk_model::{Depot, FileNo};
use image_header::read_image_header;
use qc_alloc::Clusters;
use qc_layout::{Header, Own, Part};
use qc_map::Map;
use std::alloc::Global;

/// What an image is read for.
#[derive(Clone, Copy, Debug, PartialEq, Eq)]
pub(crate) enum Wanted {
    /// To be opened: it has an id and an epoch that isn't the last.
    Opened,
    /// To be made a source: it has neither.
    Adopted,
}

/// An image that passed all rules.
#[derive(Drop)]
pub(crate) struct Found {
    pub(crate) header: Header,
    pub(crate) clusters: Clusters,
    pub(crate) map: Map,
}

// Why an image with this extension of the project's own isn't what is wanted.
fn refusal_of(wanted: Wanted, own: &Own) -> Option<NotOpened>
    ensures { result ≡ own_refusal wanted own.now }
{
    match (wanted, own) {
        (Wanted::Opened, Own::Source { epoch, .. }) => {
            if *epoch == u64::MAX {
                Some(NotOpened::EpochSpent)
            } else {
                None
            }
        }
        (Wanted::Opened, _) => Some(NotOpened::NotAdopted),
        (Wanted::Adopted, Own::Absent) => None,
        (Wanted::Adopted, _) => Some(NotOpened::AlreadyAdopted),
    }
}

/// Reads the header and all tables, each rule in its order, and claims each cluster that something refers to. The file is read alone.
pub(crate) fn find<D: Depot>(
    alloc: Global,
    depot: &mut D,
    file: FileNo,
    wanted: Wanted,
) -> Result<Found, NotOpened>
    requires given { file.0 < (D.world depot.old).given }
    ensures found { IfOk result (λ found. IsTrue (D.world depot.old).tells → IsFound file.0 found ((D.world depot.old).seen file.0)) }
    ensures header { IfOk result (λ found. (own_refusal wanted found.header.own ≡ None) × (found.header.bitmaps ≡ None)) }
    ensures same { IfOk result (λ found. (found.clusters.file ≡ file.0) × (found.map.file ≡ file.0) × (found.clusters.pool.bits ≡ found.map.bits)
        × (found.clusters.pool.bits ≡ found.header.fields.cluster_bits)) }
    ensures refused { IfErr result (λ why. IsTrue (D.world depot.old).tells → IsRefused wanted ((D.world depot.old).seen file.0) why) }
    ensures failed { result ≡ Err refusals.Failed → ReadCause (D.world depot.old) (D.world depot.new) file.0 result }
    ensures quiet { result ≢ Err refusals.Failed → IsQuiet (D.world depot.old) (D.world depot.new) }
    ensures run { Runs (reads_of file.0) (D.world depot.old) (D.world depot.new) }
{
    let header = read_image_header(alloc, depot, file, Part::Source)?;
    if header.bitmaps.is_some() {
        return Err(NotOpened::Unbuilt);
    }
    if let Some(why) = refusal_of(wanted, &header.own) {
        return Err(why);
    }
    let mut clusters = Clusters::open(alloc, depot, file, &header)?;
    let map = Map::open(alloc, depot, file, &header, &mut clusters)?;
    let _room = clusters.room();
    Ok(Found {
        header,
        clusters,
        map,
    })
}
