//! Why a source isn't opened or closed.

use qc_layout::{DirFault, HeaderFault, ImageFault};

/// Why an image isn't opened as a source, in the order of the tests; `Failed` and `Memory` come at their calls.
#[derive(Clone, Copy, Debug, PartialEq, Eq)]
pub enum OpenRefusal {
    /// A rule of its header.
    Header(HeaderFault),
    /// It has no id and epoch of a source.
    NotAdopted,
    /// No epoch is left.
    EpochSpent,
    /// A rule of its clusters.
    Clusters(ImageFault),
    /// A rule of its directory of bitmaps, which the entry of this number fails first.
    Bitmaps(u32, DirFault),
    /// There is no room to mark its bitmaps.
    NoRoom,
    /// A call on its file failed.
    Failed,
    /// There was no memory.
    Memory,
}

/// Why a source isn't closed.
#[derive(Clone, Copy, Debug, PartialEq, Eq)]
pub enum CloseRefusal {
    /// It broke, in the event of this number.
    Broken(u64),
    /// There is no room to store its bitmaps.
    NoRoom,
    /// A call on its file failed.
    Failed,
    /// There was no memory.
    Memory,
}
