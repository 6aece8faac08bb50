//! Commands of the monitor.

use span_algebra::Name;
use std::marker::Model;

/// What the monitor commands.
#[derive(Debug, Drop)]
pub enum Command {
    /// One action, as a transaction of it alone.
    Act(Action),
    /// All of the actions at one point, or none.
    Transaction(Actions),
    /// Ends the job of this name, or the view.
    JobCancel(Name),
    /// Lists the jobs, and then the views.
    QueryJobs,
    /// Lists the drive with its bitmaps, and then the views.
    QueryNodes,
    /// Offers a node to clients.
    ExportAdd(ExportArgs),
    /// Ends the run.
    Quit,
}

/// One action of a transaction.
#[derive(Debug, Drop)]
pub enum Action {
    /// Adds a bitmap. The granularity is in bytes; where none is given, it follows the disk's clusters.
    Add {
        node: Name,
        name: Name,
        granularity: Option<u64>,
        persistent: bool,
        recording: bool,
    },
    /// Takes a bitmap away.
    Remove {
        node: Name,
        name: Name,
    },
    /// Empties a bitmap.
    Clear {
        node: Name,
        name: Name,
    },
    /// From now on the bitmap records writes.
    Enable {
        node: Name,
        name: Name,
    },
    /// From now on the bitmap records no writes.
    Disable {
        node: Name,
        name: Name,
    },
    /// Joins the sources' bits to the target's.
    Merge {
        node: Name,
        target: Name,
        sources: Sources,
    },
    /// Starts a backup.
    Backup(BackupArgs),
    /// Is always refused, and the whole transaction with it.
    Abort,
}

/// Actions, in order.
#[derive(Debug, Drop)]
pub struct Actions {
    pub items: Vec<Action>,
}

impl Model for Actions {
    ghost use Rattle.std.specs.Prelude.{List};
    ghost use Rattle.core_events.specs.declared.commands.Action.{Action};

    ghost Value = { List Action };

    ghost view = { λ a. a.items.items };
}

/// A bitmap by its name. A node may stand beside it.
#[derive(Debug, Drop)]
pub struct SourceName {
    pub node: Option<Name>,
    pub name: Name,
}

/// Names of bitmaps, in order.
#[derive(Debug, Drop)]
pub struct Sources {
    pub items: Vec<SourceName>,
}

impl Model for Sources {
    ghost use Rattle.std.specs.Prelude.{List};
    ghost use Rattle.core_events.specs.declared.commands.SourceName.{SourceName};

    ghost Value = { List SourceName };

    ghost view = { λ a. a.items.items };
}

/// What a backup is to copy, and where to.
#[derive(Debug, Drop)]
pub struct BackupArgs {
    /// The name of the job.
    pub job: Name,
    /// The node that is copied.
    pub device: Name,
    /// The file that is copied to.
    pub target: Name,
    pub sync: SyncKind,
    /// The bitmap whose bits are copied.
    pub bitmap: Option<Name>,
    /// What becomes of the bitmap.
    pub mode: Option<Mode>,
}

/// Which parts of a disk a backup copies.
#[derive(Clone, Copy, Debug, PartialEq, Eq)]
pub enum SyncKind {
    /// All of it.
    Full,
    /// What the bitmap has. Its mode can't be [`Mode::Never`].
    Incremental,
    /// What the bitmap has, by either mode.
    Bitmap,
    /// No part by itself: a view of the disk as it is now, that keeps what is overwritten.
    Nothing,
}

/// What becomes of a backup's bitmap.
#[derive(Clone, Copy, Debug, PartialEq, Eq)]
pub enum Mode {
    /// Where the job completes, the bitmap keeps only what was written since its start.
    OnSuccess,
    /// The bitmap keeps what it had, and gains what was written since the job's start.
    Never,
}

/// What an export offers.
#[derive(Debug, Drop)]
pub struct ExportArgs {
    /// The name by which commands know it.
    pub id: Name,
    /// The node that is offered.
    pub node: Name,
    /// The name by which clients ask for it.
    pub name: Name,
    /// Whether clients may write.
    pub writable: bool,
    /// The bitmaps whose status clients may ask.
    pub bitmaps: Sources,
}

/// Names, in order.
#[derive(Debug, Drop)]
pub struct Names {
    pub items: Vec<Name>,
}

impl Model for Names {
    ghost use Rattle.std.specs.Prelude.{List, ℕ};

    ghost Value = { List (List ℕ) };

    ghost view = { λ a. a.items.items };
}
