//! The toy core as a core (`core_node`), and a session over it.
#![tactic(auto)]

mod node;
mod run;

pub use node::Core;
pub use run::run_toy;
