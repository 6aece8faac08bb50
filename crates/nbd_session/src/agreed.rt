//! What a client and the server agreed on.

ghost use Rattle.std.specs.Prelude.{◌≤◌, length};

use core_events::Names;
use span_algebra::Name;

/// How far a connection is.
#[derive(Clone, Copy, Debug, PartialEq, Eq)]
pub(crate) enum Phase {
    /// The client's flags are due.
    Greeted,
    /// Options are due.
    Haggling,
    /// Requests are due.
    Transmitting,
}

/// What a client and the server agreed on.
#[derive(Debug, Drop)]
pub(crate) struct Agreed {
    pub(crate) phase: Phase,
    /// The export that requests are for, once there may be any.
    pub(crate) export: Name,
    /// Whether no zeros follow an export's flags.
    pub(crate) no_zeroes: bool,
    /// Whether replies are structured.
    pub(crate) structured: bool,
    /// The contexts that were selected last, and of which export.
    pub(crate) selected: Names,
    pub(crate) selected_of: Name,
    ghost few: { length selected ≤ 16 },
}
