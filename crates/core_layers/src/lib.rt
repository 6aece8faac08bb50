//! What the layers below a core export of the source's image and of a job's target, over bytes alone, and that it is enough for the core's crash clauses.
#![tactic(auto)]

mod calls;
mod image;
pub mod laws;
mod target;

pub use calls::{copy_and_write, seal};
pub use image::Image;
pub use target::Target;
