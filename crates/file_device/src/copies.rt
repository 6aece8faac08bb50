//! Calls on two files.

ghost use Rattle.std.specs.Prelude.{◌≡◌, ◌≢◌, ◌+◌, ◌^◌, ◌<◌, ◌≤◌, length, OnOk};
ghost use Rattle.disk_model.specs.Files.{reading};
ghost use Rattle.file_device.specs.File.{file_of, Gives};
ghost use Rattle.file_device.specs.Calls.{Wrote};
ghost use Rattle.file_device.specs.Pairs.{Copied};

use crate::calls::{read, write};
use disk_model::{Depot, Failed, FileNo};

/// Copies a range of one file to a place of another, through a buffer as long as the range.
pub fn copy<D: Depot>(
    depot: &mut D,
    from: FileNo,
    at: u64,
    to: FileNo,
    place: u64,
    buffer: &mut [u8],
) -> Result<(), Failed>
    requires from { from.0 < (D.world depot.old).given }
    requires to { to.0 < (D.world depot.old).given }
    requires apart { from.0 ≢ to.0 }
    requires end { at + length buffer.old ≤ 2 ^ 62 }
    requires last { place + length buffer.old ≤ 2 ^ 62 }
    ensures copied { Copied from.0 at to.0 place (length buffer.old) (D.world depot.old) (D.world depot.new) result }
{
    read(depot, from, at, buffer)?;
    write(depot, to, place, buffer)
}
