//! What a client and the program say to each other over NBD, as definitions: the whole messages of a connection, what each
//! asks, and the bytes of each answer (fixed newstyle, structured replies, the contexts `base:allocation` and
//! `qemu:dirty-bitmap:NAME`).
//!
//! It runs nothing. Each law stands as the contract of a function of [`laws`].
#![tactic(auto)]

pub mod laws;
