//! Lists that are handed from crate to crate, each with its items in a public field.
//!
//! Contracts see a name as the list of its bytes. Of runs and of bytes they see the vector, so that a call can ask for
//! room in it.

ghost use Rattle.std.specs.Prelude.{◌≡◌, ◌↔◌, ℕ, List, IsTrue};

use std::marker::Model;

/// A run of bytes that have the same flags.
#[derive(Clone, Copy, Debug, PartialEq, Eq)]
pub struct Run {
    pub length: u64,
    pub flags: u32,
}

/// Runs, from first to last.
#[derive(Debug, Drop)]
pub struct Runs {
    pub items: Vec<Run>,
}

/// A name, as its bytes.
#[derive(Debug, Drop)]
pub struct Name {
    pub items: Vec<u8>,
}

impl Model for Name {
    ghost Value = { List ℕ };

    ghost view = { λ n. n.items.items };
}

impl Name {
    /// Whether two names have the same bytes.
    pub fn is(&self, other: &Name) -> bool
        ensures { IsTrue result ↔ (self.now ≡ other.now) }
    {
        self.items.as_slice() == other.items.as_slice()
    }
}

/// Bytes.
#[derive(Debug, Drop)]
pub struct Bytes {
    pub items: Vec<u8>,
}
