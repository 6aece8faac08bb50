//! The drive.

ghost use Rattle.std.specs.Prelude.{◌≡◌, []};

use core_events::ExportList;
use core_layers::Image;

/// A core over an image: the number of the last event, whether `quit` was commanded, and its exports, of which there are none.
#[derive(Drop)]
pub struct Drive<I: Image + Drop> {
    pub image: I,
    pub event: u64,
    pub ended: bool,
    pub exports: ExportList,
    ghost bare: { exports ≡ [] },
}
