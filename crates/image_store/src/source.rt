//! The source.

ghost use Rattle.std.specs.Prelude.{◌≡◌, ◌<◌, ◌≤◌};
ghost use Rattle.cluster_pool.specs.Pool.{room};
ghost use Rattle.image_store.specs.Images.{Image};

use disk_model::FileNo;
use qc_alloc::Clusters;
use qc_map::Map;
use std::marker::Model;

/// A source: an image whose disk a guest reads and writes.
#[derive(Debug, Drop)]
pub struct Source {
    pub(crate) file: FileNo,
    pub(crate) disk: [u8; 16],
    pub(crate) epoch: u64,
    // The event that is carried out, and the one in which the source broke.
    pub(crate) event: u64,
    pub(crate) broken: Option<u64>,
    pub(crate) clusters: Clusters,
    pub(crate) map: Map,
}

impl Model for Source {
    ghost use Rattle.image_store.specs.Images.{Image};
    ghost use Rattle.image_store.specs.Inside.{image_of, IsInside};

    ghost Value = { Image };

    ghost view = { image_of };

    ghost invariant = { IsInside };
}

impl Source {
    /// The id of its disk.
    pub fn disk(&self) -> [u8; 16]
        ensures { result ≡ self.now.id }
    {
        self.disk
    }

    /// The epoch that its opening drew.
    pub fn epoch(&self) -> u64
        ensures { result ≡ self.now.epoch }
    {
        self.epoch
    }

    /// Bytes of its disk.
    pub fn size(&self) -> u64
        ensures { result ≡ self.now.map.size }
    {
        self.map.size()
    }

    /// The event in which it broke: the first in which a write of tables or refcounts, or a sync, failed.
    pub fn broken_at(&self) -> Option<u64>
        ensures { result ≡ self.now.broken }
    {
        self.broken
    }

    /// How many clusters can still be handed out.
    pub fn room(&self) -> u64
        ensures { result ≡ room self.now.clusters.pool }
    {
        self.clusters.room()
    }

    /// Tells which event is carried out from now on; 0 until then.
    pub fn set_event(&mut self, event: u64)
        ensures { self.new ≡ record self.old { event = event } }
    {
        self.event = event;
    }
}
