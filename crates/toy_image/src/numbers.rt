//! The numbers of an image.

use span_algebra::Name;

/// Its id and epoch, where the guest's bytes begin and how many there are, its cluster size, and how many clusters can
/// still be handed out.
#[derive(Drop)]
pub struct Numbers {
    pub id: Name,
    pub epoch: u64,
    pub base: u64,
    pub size: u64,
    pub cluster: u64,
    pub room: u64,
}
