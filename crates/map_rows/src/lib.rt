//! Requests on the guest's disk, cut by the tables of the second level, and what the entries of a table say.
//!
//! Nothing here touches a device: entries are bytes that a caller read. A [`Part`] is what one table maps of a request, a [`Run`] is
//! what one device call can serve of a part.
#![tactic(auto)]

mod entries;
mod parts;
mod runs;

pub use entries::{count_open, flags_at, offset_at, stored_at};
pub use parts::{Part, cluster_of};
pub use runs::{Run, run_from};
