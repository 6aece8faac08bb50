//! Opening.

ghost use Rattle.std.specs.Prelude.{◌≡◌, ℕ, List, [], ◌∷◌, ◌+◌, ◌*◌, ◌^◌, ◌<◌, ◌≤◌, length, OnOk, IsTrue, ◌⊎◌};
ghost use Rattle.disk_model.specs.World.{EachSinceSync};
ghost use Rattle.file_device.specs.Calls.{Puts, Synced};
ghost use Rattle.image_model.specs.Clusters.{Shape, IsSafe, IsStanding, Moves};
ghost use Rattle.image_model.specs.Calls.{Told, IsOpened, AreInside, IsExtending, Begins, SameBeside, IsWithin};

use disk_model::{Depot, Failed, FileNo};
use file_device::{sync, write};

/// Syncs a file that was found in order. It stands, where all that is referred to lies in it.
pub fn begin<D: Depot>(depot: &mut D, file: FileNo) -> Result<(), Failed>
    requires given { file.0 < (D.world depot.old).given }

    ensures begins { OnOk result ((s : Shape) (next : ℕ) → Told (IsOpened s next) file.0 (D.world depot.old) →
        Begins s next ((D.world depot.new).seen file.0) file.0 (D.world depot.new)) }

    ensures stands { OnOk result ((s : Shape) (next : ℕ) → Told (IsOpened s next) file.0 (D.world depot.old) →
        Told (AreInside s) file.0 (D.world depot.old) →
        IsStanding s ((D.world depot.new).seen file.0 ∷ []) next next file.0 (D.world depot.new)) }

    // By what reads gave alone: of each crash since a sync that succeeded.
    ensures crash { (s : Shape) (next : ℕ) → Told (IsOpened s next) file.0 (D.world depot.old) →
        EachSinceSync (D.world depot.old) (D.world depot.new) file.0 (IsSafe s ((D.world depot.old).seen file.0 ∷ [])) }

    // Until it ends a crash leaves what it might have left before, and so where it failed.
    ensures synced { Synced file.0 (D.world depot.old) (D.world depot.new) result }
{
    sync(depot, file)
}

/// Makes a file reach to the end of so many clusters that all that is referred to lies in it. It stands from then on.
pub fn extend<D: Depot>(depot: &mut D, file: FileNo, finish: u64) -> Result<(), Failed>
    requires given { file.0 < (D.world depot.old).given }
    requires end { finish + 1 ≤ 2 ^ 62 }

    ensures begins { (s : Shape) (next whole : ℕ) (found : List ℕ) → (IsTrue (D.world depot.old).tells → IsExtending s next whole finish found) →
        Moves file.0 (IsSafe s (found ∷ [])) (Begins s next found file.0) (Begins s next found file.0) (D.world depot.old) (D.world depot.new) }

    ensures stands { OnOk result ((s : Shape) (next whole : ℕ) (found : List ℕ) → (IsTrue (D.world depot.old).tells → IsExtending s next whole finish found) →
        Moves file.0 (IsSafe s (found ∷ [])) (Begins s next found file.0) (IsStanding s (found ∷ []) next next file.0) (D.world depot.old)
        (D.world depot.new)) }

    // It writes no other byte.
    ensures frame { IsTrue (D.world depot.old).tells → SameBeside (λ b. IsWithin b finish 1) ((D.world depot.old).seen file.0) ((D.world depot.new).seen file.0) }

    ensures puts { Puts file.0 (D.world depot.old) (D.world depot.new) result }
{
    write(depot, file, finish, &[0])?;
    sync(depot, file)
}
