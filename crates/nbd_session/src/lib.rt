//! A client's connection: its bytes are fed, its whole messages are taken one after another, and each request is replied to.
//!
//! What a [`Session`] finds doesn't depend on how the bytes were cut when they were fed. It keeps a write's bytes and an option
//! of a lawful length alone: longer ones are counted and let go as they come.
#![tactic(auto)]

mod agreed;
mod agreeing;
mod asking;
mod contexts;
pub mod laws;
mod negotiating;
mod replying;
mod session;
mod unread;

pub use session::Session;

#[cfg(test)]
mod tests;
