//! A core that serves the guest's requests of the drive over an image that stores no bitmaps: reads, writes, zeros, flushes and status, each in its order of
//! refusals, and `quit`. Any other command finds no memory, and a tick has nothing to do.
#![tactic(auto)]

mod drive;
mod requests;
mod serving;
mod session;
mod stepping;

pub use drive::Drive;
pub use serving::Serves;
pub use stepping::step;
