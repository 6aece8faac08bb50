//! Why clusters are refused.

ghost use Rattle.std.specs.Prelude.{◌≡◌, ◌≢◌, Some, None};
ghost use Rattle.qc_alloc.specs.Opening.{rule_of};
ghost use Rattle.qc_alloc.specs.declared.refusals.ClusterRefusal.TheVariants as refusals;

use disk_model::Failed;
use qc_layout::ImageFault;
use std::alloc::{AllocError, AllocFailed};

/// Why clusters are refused: a rule of the refcounts, or of a reference to a cluster, whose offset is told.
#[derive(Clone, Copy, Debug, PartialEq, Eq)]
pub enum ClusterRefusal {
    /// An entry of the refcount table, at this place, has a reserved bit or is misaligned.
    BadBlock(u64),
    /// No refcount reaches the cluster.
    PastLimit(u64),
    /// Something else refers to the cluster.
    Overlap(u64),
    /// The cluster isn't counted.
    Uncounted(u64),
    /// A call on the file failed.
    Failed,
    /// There was no memory.
    Memory,
}

impl From<Failed> for ClusterRefusal {
    ghost from_gives = { λ _ e. e ≡ refusals.Failed };

    fn from(_e: Failed) -> ClusterRefusal {
        ClusterRefusal::Failed
    }
}

impl From<AllocError> for ClusterRefusal {
    ghost from_gives = { λ _ e. e ≡ refusals.Memory };

    fn from(_e: AllocError) -> ClusterRefusal {
        ClusterRefusal::Memory
    }
}

impl<T: Drop> From<AllocFailed<T>> for ClusterRefusal {
    ghost from_gives = { λ _ e. e ≡ refusals.Memory };

    fn from(_e: AllocFailed<T>) -> ClusterRefusal {
        ClusterRefusal::Memory
    }
}
