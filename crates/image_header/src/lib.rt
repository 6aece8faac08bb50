//! The header of an image, read from its file.
//!
//! Whoever opens an image begins here: what [`read_image_header`] gives is the header of the whole file, though only its first bytes are read.
#![tactic(auto)]

mod reading;
mod refusals;

pub use reading::read_image_header;
pub use refusals::NoHeader;
