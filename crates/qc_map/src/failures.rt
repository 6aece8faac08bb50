//! Why a call on the guest's disk didn't end well.

use thiserror::Error;

/// What a failed call was to do.
#[derive(Clone, Copy, Debug, PartialEq, Eq, Error)]
pub enum Failing {
    /// A read, or a write of data: tables and refcounts are in order.
    #[error("a read or a write of data failed")]
    Data,
    /// A write of tables or refcounts, or a sync.
    #[error("a write of tables or a sync failed")]
    Tables,
}

/// Why a write didn't end well.
#[derive(Clone, Copy, Debug, PartialEq, Eq, Error)]
pub enum NotWritten {
    /// It needs more clusters than can be handed out. Nothing was done.
    #[error("there is no room")]
    NoRoom,
    /// A call on the image failed.
    #[error("{0}")]
    Failed(Failing),
}
