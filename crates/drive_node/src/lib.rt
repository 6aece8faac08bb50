//! The core over a drive (`drive_core`) keeps the promise of a core (`core_node`), whatever the image below it is, and a session over it.
#![tactic(auto)]

mod node;
mod run;

pub use node::Core;
pub use run::run_drive;
