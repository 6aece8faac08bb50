//! The clusters of an image: which are referred to, and which can be handed out.
//!
//! A cluster that is handed out was counted once, zeroed and synced before, so whatever refers to it later is right in every crash
//! outcome. What [`Clusters`] does to the image's file is said in `image_model`'s words: it goes on to stand, and each crash since
//! leaves a file that an opening takes.
#![tactic(auto)]

mod clusters;
mod growing;
pub mod laws;
mod opening;
mod refusals;
mod settling;
mod tables;

pub use cluster_pool::Neighbours;
pub use clusters::Clusters;
pub use refusals::ClusterRefusal;
