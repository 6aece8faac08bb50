//! Opening.

ghost use Rattle.std.specs.Prelude.{◌≡◌, ◌≢◌, ℕ, ◌+◌, ◌<◌, ◌^◌, List, Err, None, IfOk, IfErr, IsTrue};
ghost use Rattle.disk_model.specs.World.{World, Runs, reads_of, only_file, EachSinceSync, FileFailed, IsQuiet};
ghost use Rattle.qc_layout.specs.declared.header.Own.TheVariants as owns;
ghost use Rattle.image_store.specs.Images.{IsInOrder};
ghost use Rattle.image_store.specs.Opening.{IsOpening, Opens, HasSector};
ghost use Rattle.image_store.specs.Refusals.{IsRefused};
ghost use Rattle.image_store.specs.declared.finding.Wanted.TheVariants.{Opened};
ghost use Rattle.image_store.specs.declared.refusals.NotOpened.TheVariants as refusals;

use crate::finding::{Wanted, find};
use crate::refusals::NotOpened;
use crate::source::Source;
use crate::starting::start;
use disk_model::{Depot, FileNo};
use image_calls::turn;
use qc_layout::{Header, Own, write_header};
use std::alloc::Global;

impl Source {
    /// Opens an image as a source: reads its header and all tables, each rule in its order, syncs it, makes it reach to the end of its
    /// clusters, and draws the next epoch by one sector of the header, between two syncs. An image that is refused isn't touched.
    pub fn open<D: Depot>(alloc: Global, depot: &mut D, file: FileNo) -> Result<Source, NotOpened>
        requires given { file.0 < (D.world depot.old).given }
        ensures opened { IfOk result (λ source. IsTrue (D.world depot.old).tells → Opens source ((D.world depot.old).seen file.0) (D.world depot.new)) }
        ensures begins { IfOk result (λ source. (source.map.file ≡ file.0) × (source.event ≡ 0) × (source.broken ≡ None)) }
        ensures since { (id : List ℕ) (epoch : ℕ) (disk : List ℕ) → IsTrue (D.world depot.old).tells → IsInOrder id epoch disk ((D.world depot.old).seen file.0) →
            EachSinceSync (D.world depot.old) (D.world depot.new) file.0 (IsOpening id epoch disk ((D.world depot.old).seen file.0)) }
        ensures seen { (id : List ℕ) (epoch : ℕ) (disk : List ℕ) → IsTrue (D.world depot.old).tells → IsInOrder id epoch disk ((D.world depot.old).seen file.0) →
            IsOpening id epoch disk ((D.world depot.old).seen file.0) ((D.world depot.new).seen file.0) }
        ensures refused { IfErr result (λ why. IsTrue (D.world depot.old).tells → IsRefused Opened ((D.world depot.old).seen file.0) why) }
        ensures untouched { IfErr result (λ why. why ≢ refusals.Failed → Runs (reads_of file.0) (D.world depot.old) (D.world depot.new)) }
        ensures failed { result ≡ Err refusals.Failed → FileFailed file.0 (D.world depot.old) (D.world depot.new) }
        ensures quiet { result ≢ Err refusals.Failed → IsQuiet (D.world depot.old) (D.world depot.new) }
        ensures run { Runs (only_file file.0) (D.world depot.old) (D.world depot.new) }
    {
        let found = find(alloc, depot, file, Wanted::Opened)?;
        let (disk, epoch) = match found.header.own {
            Own::Source { disk, epoch, .. } => (disk, epoch + 1),
            _ => return Err(NotOpened::NotAdopted),
        };
        start(
            depot,
            file,
            found.header.fields.cluster_bits,
            &found.clusters,
        )?;
        let sector = sector_with(found.header, disk, epoch);
        turn(depot, file, &sector)?;
        Ok(Source {
            file,
            disk,
            epoch,
            event: 0,
            broken: None,
            clusters: found.clusters,
            map: found.map,
        })
    }
}

/// The first sector of a header that says the same, with this id, this epoch and no table of spans, and without autoclear bits.
pub(crate) fn sector_with(header: Header, disk: [u8; 16], epoch: u64) -> [u8; 512]
    ensures { HasSector header disk epoch result }
{
    let mut next = header;
    next.own = Own::Source {
        disk,
        epoch,
        spans_offset: 0,
        spans_length: 0,
    };
    next.fields.autoclear_features = 0;
    let mut sector = [0; 512];
    write_header(&next, &mut sector);
    sector
}
