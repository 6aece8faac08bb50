//! The bytes of a qcow2 image: its header, a backup's record, entries of its tables, and the disk that a file's bytes give.
//!
//! Readers and writers are exact both ways. `specs/Disks.antt` says which disk a file stands for; the layers above speak
//! of a file through it alone.
#![tactic(auto)]

mod checks;
mod contents;
mod entry;
mod extension;
mod faults;
mod header;
mod kind;
pub mod laws;
mod numbers;
mod reading;
mod records;
#[cfg(test)]
mod tests;
mod writing;

pub use entry::{
    EntryFault, L2Entry, OFLAG_COMPRESSED, OFLAG_COPIED, OFLAG_ZERO, read_l1, read_l2, write_l2,
};
pub use faults::{DirFault, ImageFault};
pub use header::{DirPlace, Fields, Header, HeaderFault, Own, Part, QCOW_MAGIC};
pub use kind::{kind_of, start_length};
pub use reading::read_header;
pub use records::{Record, RecordFault, State, read_record, write_record};
pub use writing::write_header;
