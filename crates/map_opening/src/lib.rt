//! What an opening does with the clusters of an image's disk.
//!
//! It goes through the first level of tables and each second-level table, in order: each entry is tested before its cluster is claimed.
//! What is refused first is said in `qc_layout`'s words for an opening, [`map_checks`](../qc_layout/specs/Opening.antt); what was claimed
//! then, by the pool of the image's clusters.
#![tactic(auto)]

mod claims;
mod opening;
mod refusals;
mod tables;

pub use opening::claim_tables;
pub use refusals::MapRefusal;
