//! Lines, and why a script is refused.

use core_events::Request;
use span_algebra::Bytes;
use std::marker::Model;
use thiserror::Error;

/// What a line of a script says.
#[derive(Debug, Drop)]
pub enum Line {
    /// Asks something of a disk.
    Ask(Request),
    /// Commands what the text says.
    Qmp(Bytes),
    /// There is time to copy a piece of a job.
    Tick,
    /// Ends the run without closing.
    Stop,
    /// Closes, and ends the run.
    Quit,
    /// A comment, or an empty line.
    Nothing,
}

/// The lines of a script, from first to last.
#[derive(Debug, Drop)]
pub struct Lines {
    pub items: Vec<Line>,
}

impl Model for Lines {
    ghost use Rattle.std.specs.Prelude.{List};
    ghost use Rattle.script_codec.specs.declared.lines.Line.{Line};

    ghost Value = { List Line };

    ghost view = { λ a. a.items.items };
}

/// Why a script is refused.
#[derive(Clone, Copy, Debug, PartialEq, Eq, Error)]
pub enum ScriptRefusal {
    /// The line of this number, from 1, has no form, and each before it has one.
    #[error("line {0} has no form")]
    BadLine(u64),
    /// There was no memory.
    #[error("out of memory")]
    Memory,
}
