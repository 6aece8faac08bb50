//! Messages to the monitor: where each ends, and the command that it is or why it is refused (QEMU's QMP).
#![tactic(auto)]

mod actions;
mod commands;
mod cut;
mod floats;
pub mod laws;
mod members;
mod orders;
mod reading;
mod recording;
mod tables;
mod transactions;
mod values;

pub use cut::{Cut, cut_message};
pub use orders::{Id, Order, QmpFault, QmpRefusal};
pub use reading::read_command;
pub use recording::recorded_text;

#[cfg(test)]
mod tests;
