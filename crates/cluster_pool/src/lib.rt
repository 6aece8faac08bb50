//! Which clusters of an image are spoken for, and which can be handed out.
//!
//! A [`Pool`] knows the blocks of refcounts, one truth value for each cluster that something refers to, and which
//! clusters are fresh. It makes no device call: `qc_alloc` counts, zeroes and syncs what a pool hands out.
#![tactic(auto)]

pub mod laws;
mod pool;
mod set;
#[cfg(test)]
mod tests;

pub use pool::{Neighbours, Pool};
pub use set::ClusterSet;
