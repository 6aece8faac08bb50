//! A caller of the allocator, proved from contracts alone, and tests of the allocator over files in memory.
#![tactic(auto)]

mod caller;
#[cfg(test)]
mod clusters;
#[cfg(test)]
mod costs;
#[cfg(test)]
mod counting;
#[cfg(test)]
mod crashes;
mod dropping;
#[cfg(test)]
mod images;
mod opening;
mod storing;
#[cfg(test)]
mod tables;

pub use caller::fill_hole;
pub use dropping::drop_cluster;
pub use opening::{NotOpened, find_clusters, start_clusters};
pub use storing::{Runs, store_run};
