//! What queries list.

use crate::commands::Sources;
use span_algebra::{Name, Span};
use std::marker::Model;

/// A job, or a view.
#[derive(Debug, Drop)]
pub struct JobInfo {
    pub id: Name,
    /// How many bytes are copied, counted by units of the copy.
    pub current: u64,
    /// How many bytes are to be copied in all; of a view, the size of the disk.
    pub total: u64,
}

/// Jobs, in their order, and then views.
#[derive(Debug, Drop)]
pub struct JobInfos {
    pub items: Vec<JobInfo>,
}

impl Model for JobInfos {
    ghost use Rattle.std.specs.Prelude.{List};
    ghost use Rattle.core_events.specs.declared.infos.JobInfo.{JobInfo};

    ghost Value = { List JobInfo };

    ghost view = { λ a. a.items.items };
}

/// The drive, or a view of it.
#[derive(Debug, Drop)]
pub struct NodeInfo {
    pub name: Name,
    /// The size of the disk, in bytes.
    pub size: u64,
    /// The bitmaps in the order in which they were added. `None` exactly on views.
    pub bitmaps: Option<BitmapInfos>,
    /// The number of the event at which the drive broke.
    pub broken_at: Option<u64>,
}

/// The drive, and then views.
#[derive(Debug, Drop)]
pub struct NodeInfos {
    pub items: Vec<NodeInfo>,
}

impl Model for NodeInfos {
    ghost use Rattle.std.specs.Prelude.{List};
    ghost use Rattle.core_events.specs.declared.infos.NodeInfo.{NodeInfo};

    ghost Value = { List NodeInfo };

    ghost view = { λ a. a.items.items };
}

/// A bitmap of the drive.
#[derive(Debug, Drop)]
pub struct BitmapInfo {
    pub name: Name,
    /// The size of a granule, in bytes.
    pub granularity: u64,
    /// How many bytes its dirty granules have, each counted whole.
    pub count: u64,
    /// From when to when the bitmap has all that was written.
    pub span: Span,
    /// Whether writes are recorded.
    pub recording: bool,
    /// Whether it is kept in the image.
    pub persistent: bool,
    /// Whether a job uses it.
    pub busy: bool,
    /// Whether the image didn't say that it can be trusted.
    pub inconsistent: bool,
}

/// Bitmaps, in the order in which they were added.
#[derive(Debug, Drop)]
pub struct BitmapInfos {
    pub items: Vec<BitmapInfo>,
}

impl Model for BitmapInfos {
    ghost use Rattle.std.specs.Prelude.{List};
    ghost use Rattle.core_events.specs.declared.infos.BitmapInfo.{BitmapInfo};

    ghost Value = { List BitmapInfo };

    ghost view = { λ a. a.items.items };
}

/// An export, as clients may see it.
#[derive(Debug, Drop)]
pub struct ExportInfo {
    /// The name by which clients ask for it.
    pub name: Name,
    /// The size of the disk, in bytes.
    pub size: u64,
    /// Whether clients may write.
    pub writable: bool,
    /// The bitmaps whose status clients may ask.
    pub contexts: Sources,
}

/// Exports, in the order in which they were added.
#[derive(Debug, Drop)]
pub struct ExportList {
    pub items: Vec<ExportInfo>,
}

impl Model for ExportList {
    ghost use Rattle.std.specs.Prelude.{List};
    ghost use Rattle.core_events.specs.declared.infos.ExportInfo.{ExportInfo};

    ghost Value = { List ExportInfo };

    ghost view = { λ a. a.items.items };
}
