//! Why the tables of an image's disk are refused.

ghost use Rattle.std.specs.Prelude.{◌≡◌, Some};
ghost use Rattle.qc_layout.specs.declared.faults.ImageFault.{ImageFault};
ghost use Rattle.qc_layout.specs.Opening.{fault_at};
ghost use Rattle.qc_alloc.specs.Opening as clusters;
ghost use Rattle.qc_alloc.specs.Tables.{IsClaimFault};
ghost use Rattle.map_opening.specs.Refusals.{rule_of};
ghost use Rattle.map_opening.specs.declared.refusals.MapRefusal.TheVariants as refusals;

use disk_model::Failed;
use qc_alloc::ClusterRefusal;
use qc_layout::EntryFault;
use std::alloc::{AllocError, AllocFailed};

/// Why the tables of an image's disk are refused: an entry, by its place in the file, or a cluster, by its offset.
#[derive(Clone, Copy, Debug, PartialEq, Eq)]
pub enum MapRefusal {
    /// A bit of the entry that must be zero is set.
    Reserved(u64),
    /// The entry says that a cluster is compressed.
    Compressed(u64),
    /// The offset in the entry is no multiple of the cluster size.
    Misaligned(u64),
    /// No refcount reaches the cluster.
    PastLimit(u64),
    /// Something else refers to the cluster.
    Overlap(u64),
    /// The cluster isn't counted.
    Uncounted(u64),
    /// A call on the file failed.
    Failed,
    /// There was no memory.
    Memory,
}

impl From<Failed> for MapRefusal {
    ghost from_gives = { λ _ e. e ≡ refusals.Failed };

    fn from(_e: Failed) -> MapRefusal {
        MapRefusal::Failed
    }
}

impl From<AllocError> for MapRefusal {
    ghost from_gives = { λ _ e. e ≡ refusals.Memory };

    fn from(_e: AllocError) -> MapRefusal {
        MapRefusal::Memory
    }
}

impl<T: Drop> From<AllocFailed<T>> for MapRefusal {
    ghost from_gives = { λ _ e. e ≡ refusals.Memory };

    fn from(_e: AllocFailed<T>) -> MapRefusal {
        MapRefusal::Memory
    }
}

/// The refusal of an entry that stands here.
pub(crate) fn refused_entry(fault: EntryFault, at: u64) -> MapRefusal
    ensures { rule_of result ≡ Some (fault_at at fault) }
{
    match fault {
        EntryFault::Reserved => MapRefusal::Reserved(at),
        EntryFault::Misaligned => MapRefusal::Misaligned(at),
    }
}

/// The refusal of a claim; no claim has another.
pub(crate) fn refused_claim(why: ClusterRefusal) -> MapRefusal
    ensures { (fault : ImageFault) → clusters.rule_of why ≡ Some fault → IsClaimFault fault → rule_of result ≡ Some fault }
{
    match why {
        ClusterRefusal::PastLimit(offset) => MapRefusal::PastLimit(offset),
        ClusterRefusal::Overlap(offset) => MapRefusal::Overlap(offset),
        ClusterRefusal::Uncounted(offset) => MapRefusal::Uncounted(offset),
        ClusterRefusal::BadBlock(_) | ClusterRefusal::Failed | ClusterRefusal::Memory => {
            MapRefusal::Memory
        }
    }
}
