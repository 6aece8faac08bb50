//! Another first sector, in the place of the one that is there.
//!
//! A crash at any moment leaves the file with the old sector or with the new one, whole, and once the call is done with
//! the new one. A qcow2 header fits into that sector, so this is how an image's header changes.
#![tactic(auto)]

ghost use Rattle.std.specs.Prelude.{◌<◌, ◌≤◌, length, OnOk};
ghost use Rattle.disk_model.specs.World.{EachSinceSync};
ghost use Rattle.file_device.specs.File.{file_of, Gives, Is, IsSettled};
ghost use Rattle.file_device.specs.Calls.{Puts};
ghost use Rattle.first_sector.specs.Sectors.{New, OldOrNew};

use disk_model::{Depot, Failed, FileNo};
use file_device::{sync, write};

/// Puts another sector in the place of a file's first.
pub fn rewrite_first_sector<D: Depot>(
    depot: &mut D,
    file: FileNo,
    sector: &[u8; 512],
) -> Result<(), Failed>
    requires { file.0 < (D.world depot.old).given }

    // At Ok reads give the file with the new sector, so does each crash, and nothing is left to be lost.
    ensures done { OnOk result (Is (New sector.now (file_of (D.world depot.old) file.0)) (file_of (D.world depot.new) file.0)) }
    ensures settled { OnOk result (IsSettled (file_of (D.world depot.new) file.0)) }

    // Up to the first sync a crash leaves what it might have left before; from then on the file with the old sector or with the new one.
    ensures crash { Gives (file_of (D.world depot.old) file.0) (λ c. 512 ≤ length c) →
        EachSinceSync (D.world depot.old) (D.world depot.new) file.0 (OldOrNew sector.now (file_of (D.world depot.old) file.0)) }

    // Whatever the call answers, reads give the one or the other.
    ensures seen { Gives (file_of (D.world depot.old) file.0) (λ c. 512 ≤ length c) →
        Gives (file_of (D.world depot.new) file.0) (OldOrNew sector.now (file_of (D.world depot.old) file.0)) }

    ensures puts { Puts file.0 (D.world depot.old) (D.world depot.new) result }
{
    sync(depot, file)?; // the old sectors
    write(depot, file, 0, sector)?;
    sync(depot, file) // the new sector
}
