//! The plain machine, as definitions with their laws: what happened to a disk, and what each event answers and changes.
//!
//! It runs nothing. The layers above are judged against these definitions, which name none of their types or loops. Each
//! law stands as the contract of a function, so that the gate proves it.
#![tactic(auto)]

pub mod laws;
