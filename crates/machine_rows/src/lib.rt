//! Worked examples of the plain machine: what scripts print, and which states they lead to, evaluated on its definitions.
//!
//! Each table stands as the contract of a function, so that the gate proves it.
#![tactic(auto)]

pub mod rows;
