//! Tests of the toy core over files in memory. It has no code of its own.
#![tactic(auto)]

#[cfg(test)]
mod asking;
#[cfg(test)]
mod image;
#[cfg(test)]
mod sessions;
