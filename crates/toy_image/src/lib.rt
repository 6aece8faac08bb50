//! Images of one form: without holes and bitmaps, and with the guest's bytes in one run of the file (`specs/Images.antt`).
//!
//! [`look`] finds the numbers of such an image, and [`head`] makes its first sector with the next epoch.
#![tactic(auto)]

mod image;
mod numbers;

pub use image::{NotLooked, head, look};
pub use numbers::Numbers;
