//! A core for images without holes, bitmaps and jobs.

ghost use Rattle.std.specs.Prelude.{◌≡◌, ◌+◌, ◌^◌, ◌≤◌, []};

use core_events::ExportList;
use disk_model::FileNo;
use toy_image::Numbers;

/// A source: its file, the numbers of its image, and its exports, of which there are none.
#[derive(Drop)]
pub struct Source {
    pub file: FileNo,
    pub image: Numbers,
    pub exports: ExportList,
    ghost near: { image.base + image.size ≤ 2 ^ 62 },
    ghost bare: { exports ≡ [] },
}

/// A core over it, the number of the last event, and that at which the source broke.
#[derive(Drop)]
pub struct Toy {
    pub source: Source,
    pub event: u64,
    pub broken: Option<u64>,
}
