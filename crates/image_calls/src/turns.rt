//! Another first sector of the header.

ghost use Rattle.std.specs.Prelude.{◌≡◌, ◌⊎◌, ℕ, List, [], ◌∷◌, ◌<◌, ◌≤◌, length, OnOk, IsTrue};
ghost use Rattle.disk_model.specs.Files.{overlay};
ghost use Rattle.disk_model.specs.World.{EachSinceSync};
ghost use Rattle.file_device.specs.Calls.{Puts, Synced};
ghost use Rattle.file_device.specs.File.{file_of, Gives, Is};
ghost use Rattle.first_sector.specs.Sectors.{New, OldOrNew};
ghost use Rattle.image_model.specs.Clusters.{Shape, IsShape, Standing, IsStanding, Moves};
ghost use Rattle.image_model.specs.Calls.{Told};
ghost use Rattle.image_model.specs.Turns.{Turns, Turning, IsEither};

use disk_model::{Depot, Failed, FileNo};
use file_device::sync;
use first_sector::rewrite_first_sector;

/// Syncs, writes another first sector, and syncs: a file that is as one shape says becomes as another says, with the same disk.
pub fn turn<D: Depot>(depot: &mut D, file: FileNo, sector: &[u8; 512]) -> Result<(), Failed>
    requires given { file.0 < (D.world depot.old).given }

    ensures moves { (s t : Shape) (disks : List (List ℕ)) (first last : ℕ) →
        Moves file.0 (IsEither s t disks) (Turning s t disks first last sector.now file.0) (Turning s t disks first last sector.now file.0)
        (D.world depot.old) (D.world depot.new) }

    ensures turned { OnOk result ((s t : Shape) (disks : List (List ℕ)) (first last : ℕ) →
        Moves file.0 (IsEither s t disks) (Turning s t disks first last sector.now file.0)
        (IsStanding t ((D.world depot.new).seen file.0 ∷ []) first last file.0) (D.world depot.old) (D.world depot.new)) }

    // By what reads gave alone: of each crash since the first sync that succeeded.
    ensures crash { (s t : Shape) (disks : List (List ℕ)) (first last : ℕ) → Told (Turns s t disks first last sector.now) file.0 (D.world depot.old) →
        EachSinceSync (D.world depot.old) (D.world depot.new) file.0 (IsEither s t disks) }

    // So a call that failed may be made again, with the same sector.
    ensures again { (s t : Shape) (disks : List (List ℕ)) (first last : ℕ) → Told (Turns s t disks first last sector.now) file.0 (D.world depot.old) →
        Told (Turns s t disks first last sector.now) file.0 (D.world depot.new) }

    ensures done { OnOk result ((s t : Shape) (disks : List (List ℕ)) (first last : ℕ) →
        Told (Turns s t disks first last sector.now) file.0 (D.world depot.old) →
        IsStanding t ((D.world depot.new).seen file.0 ∷ []) first last file.0 (D.world depot.new) × (IsTrue (D.world depot.old).tells → IsShape t)) }

    // Reads give the old sector or the new one; at Ok the new one.
    ensures seen { Gives (file_of (D.world depot.old) file.0) (λ c. 512 ≤ length c) →
        Gives (file_of (D.world depot.new) file.0) (OldOrNew sector.now (file_of (D.world depot.old) file.0)) }
    ensures new { OnOk result (Is (New sector.now (file_of (D.world depot.old) file.0)) (file_of (D.world depot.new) file.0)) }

    ensures puts { Puts file.0 (D.world depot.old) (D.world depot.new) result }
{
    rewrite_first_sector(depot, file, sector)
}

/// Syncs after a `turn` that failed: it stands as the one shape says or as the other, and reads tell which.
pub fn after_turn<D: Depot>(depot: &mut D, file: FileNo) -> Result<(), Failed>
    requires given { file.0 < (D.world depot.old).given }

    ensures stays { (s t : Shape) (disks : List (List ℕ)) (first last : ℕ) (sector : List ℕ) →
        Moves file.0 (IsEither s t disks) (Turning s t disks first last sector file.0) (Turning s t disks first last sector file.0)
        (D.world depot.old) (D.world depot.new) }

    ensures stands { OnOk result ((s t : Shape) (disks : List (List ℕ)) (first last : ℕ) (sector : List ℕ) →
        Turning s t disks first last sector file.0 (D.world depot.old) → IsTrue (D.world depot.new).tells →
        Standing s ((D.world depot.new).seen file.0 ∷ []) first last file.0 (D.world depot.new) ⊎ (Standing t ((D.world depot.new).seen file.0 ∷ []) first last file.0 (D.world depot.new) × IsShape t)) }

    ensures synced { Synced file.0 (D.world depot.old) (D.world depot.new) result }
{
    sync(depot, file)
}
