//! Laws of an image's clusters: how each write and sync leads from one standing to the next, in reads and in each crash.
//!
//! `Bridge`, `Disk` and `Headers` say the same in `qc_layout`'s words, and `OnDisk` of the disk as bytes; `Views`, `Storing`, `Links` and
//! `Dropping` are for callers.
#![tactic(auto)]
