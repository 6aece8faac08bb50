//! Makes the files of disks and of backups.
//!
//! A new file is laid out in memory and written at once, then synced. Once a call has answered Ok, each crash leaves the
//! whole file. A name that is there is left as it is.
#![tactic(auto)]

mod contents;
mod create;
mod form;
mod heading;
mod laws;
mod layout;
mod making;
#[cfg(test)]
mod tests;

pub use create::{CreateRefusal, create_source, create_target};
pub use form::valid_form;
pub use laws::{blocks_are_least, blocks_have_entries, table_is_least};
