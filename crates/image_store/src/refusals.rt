//! Why an image isn't opened as a source, or isn't made one.

ghost use Rattle.std.specs.Prelude.{◌≡◌};
ghost use Rattle.image_store.specs.Refusals.{of_header, of_clusters, of_tables};
ghost use Rattle.image_store.specs.declared.refusals.NotOpened.TheVariants as refusals;

use disk_model::Failed;
use image_header::NoHeader;
use map_opening::MapRefusal;
use qc_alloc::ClusterRefusal;
use qc_layout::{HeaderFault, ImageFault};

/// Why an image isn't opened as a source, or isn't made one, in the order of the tests; `Failed` and `Memory` come at their calls.
#[derive(Clone, Copy, Debug, PartialEq, Eq)]
pub enum NotOpened {
    /// A rule of its header; never `HeaderFault::Memory`.
    Header(HeaderFault),
    /// It has bitmaps, which aren't opened as yet.
    Unbuilt,
    /// It has no id and epoch of a source.
    NotAdopted,
    /// It has them already.
    AlreadyAdopted,
    /// No epoch is left.
    EpochSpent,
    /// A rule of its clusters, by the place of an entry or the offset of a cluster.
    Clusters(ImageFault),
    /// A call on its file failed.
    Failed,
    /// There was no memory.
    Memory,
}

impl From<NoHeader> for NotOpened {
    ghost from_gives = { λ why e. e ≡ of_header why };

    fn from(why: NoHeader) -> NotOpened {
        match why {
            NoHeader::Fault(fault) => NotOpened::Header(fault),
            NoHeader::Failed => NotOpened::Failed,
            NoHeader::Memory => NotOpened::Memory,
        }
    }
}

impl From<ClusterRefusal> for NotOpened {
    ghost from_gives = { λ why e. e ≡ of_clusters why };

    fn from(why: ClusterRefusal) -> NotOpened {
        match why {
            ClusterRefusal::BadBlock(at) => NotOpened::Clusters(ImageFault::BadBlock(at)),
            ClusterRefusal::PastLimit(offset) => NotOpened::Clusters(ImageFault::PastLimit(offset)),
            ClusterRefusal::Overlap(offset) => NotOpened::Clusters(ImageFault::Overlap(offset)),
            ClusterRefusal::Uncounted(offset) => NotOpened::Clusters(ImageFault::Uncounted(offset)),
            ClusterRefusal::Failed => NotOpened::Failed,
            ClusterRefusal::Memory => NotOpened::Memory,
        }
    }
}

impl From<MapRefusal> for NotOpened {
    ghost from_gives = { λ why e. e ≡ of_tables why };

    fn from(why: MapRefusal) -> NotOpened {
        match why {
            MapRefusal::Reserved(at) => NotOpened::Clusters(ImageFault::Reserved(at)),
            MapRefusal::Compressed(at) => NotOpened::Clusters(ImageFault::Compressed(at)),
            MapRefusal::Misaligned(at) => NotOpened::Clusters(ImageFault::Misaligned(at)),
            MapRefusal::PastLimit(offset) => NotOpened::Clusters(ImageFault::PastLimit(offset)),
            MapRefusal::Overlap(offset) => NotOpened::Clusters(ImageFault::Overlap(offset)),
            MapRefusal::Uncounted(offset) => NotOpened::Clusters(ImageFault::Uncounted(offset)),
            MapRefusal::Failed => NotOpened::Failed,
            MapRefusal::Memory => NotOpened::Memory,
        }
    }
}

impl From<Failed> for NotOpened {
    ghost from_gives = { λ _ e. e ≡ refusals.Failed };

    fn from(_e: Failed) -> NotOpened {
        NotOpened::Failed
    }
}
