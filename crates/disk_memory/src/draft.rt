//! A file on the way to what a crash may leave of it.

ghost use Rattle.std.specs.Prelude.{◌≡◌, length};

// Its bytes, as many that a crash may leave, and how long it was at the last sync.
#[derive(Drop)]
pub(crate) struct Draft {
    pub(crate) now: Vec<u8>,
    pub(crate) mixed: Vec<u8>,
    pub(crate) shortest: usize,
    ghost long: { length mixed.items ≡ length now.items },
}
