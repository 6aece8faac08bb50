//! Over one second-level table: data over stored clusters next to one another, and entries made holes in a row.

ghost use Rattle.std.specs.Prelude.{◌≡◌, ◌⊎◌, ℕ, List, ◌∷◌, ◌+◌, ◌*◌, ◌^◌, ◌<◌, ◌≤◌, length, OnOk, IsTrue};
ghost use Rattle.file_device.specs.Calls.{Puts};
ghost use Rattle.image_model.specs.Clusters.{Shape, guest, word_of, IsTable, IsSafe, IsStanding, Moves, Reads};
ghost use Rattle.image_model.specs.Calls.{Shows, IsPartly, SameTables, SameBlocks, SameBeside, IsWithin};
ghost use Rattle.image_model.specs.Runs.{LeavesRest};
ghost use Rattle.image_model.specs.Rows.{IsOverwriting, IsClearing, AreUntouched, AreCleared};

use disk_model::{Depot, Failed, FileNo};
use file_device::write;

/// Writes data over stored clusters that are neighbours in the image and on the disk, or over a part of them.
pub fn overwrite_run<D: Depot>(
    depot: &mut D,
    file: FileNo,
    at: u64,
    bytes: &[u8],
) -> Result<(), Failed>
    requires given { file.0 < (D.world depot.old).given }
    requires data_end { at + length bytes.now ≤ 2 ^ 62 }

    ensures moves { (s : Shape) (disks : List (List ℕ)) (first last k n i j : ℕ) →
        IsOverwriting s k n i j at (length bytes.now) file.0 (D.world depot.old) →
        Moves file.0 (IsSafe s ((D.world depot.new).seen file.0 ∷ disks)) (IsStanding s disks first last file.0)
        (IsStanding s ((D.world depot.new).seen file.0 ∷ disks) first last file.0) (D.world depot.old) (D.world depot.new) }

    // Whatever it answers, nothing else of the guest's changes.
    ensures leaves { (s : Shape) (disks : List (List ℕ)) (first last k n i j : ℕ) →
        IsOverwriting s k n i j at (length bytes.now) file.0 (D.world depot.old) →
        Reads file.0 (IsStanding s disks first last file.0) (LeavesRest s i j n) (D.world depot.old) (D.world depot.new) }

    ensures shows { OnOk result ((s : Shape) (disks : List (List ℕ)) (first last k n i j : ℕ) →
        IsOverwriting s k n i j at (length bytes.now) file.0 (D.world depot.old) →
        Reads file.0 (IsStanding s disks first last file.0) (λ old new. (m : ℕ) → m < n →
        Shows s i (j + m) (k + m) at bytes.now (guest s old i (j + m)) new) (D.world depot.old) (D.world depot.new)) }

    // Whatever it answers, no entry changes.
    ensures entry { (s : Shape) (disks : List (List ℕ)) (first last k n i j : ℕ) →
        IsOverwriting s k n i j at (length bytes.now) file.0 (D.world depot.old) →
        Reads file.0 (IsStanding s disks first last file.0) (λ old new. (m : ℕ) → m < n → word_of s new i (j + m) ≡ word_of s old i (j + m))
        (D.world depot.old) (D.world depot.new) }

    // Each sector is as it was, or as it is to be.
    ensures partly { (s : Shape) (disks : List (List ℕ)) (first last k n i j : ℕ) →
        IsOverwriting s k n i j at (length bytes.now) file.0 (D.world depot.old) →
        Reads file.0 (IsStanding s disks first last file.0) (λ old new. (m : ℕ) → m < n → IsPartly s i (j + m) (k + m) at bytes.now old new)
        (D.world depot.old) (D.world depot.new) }

    // Whatever it answers, no word of the refcount table and of the first level changes.
    ensures rows { (s : Shape) (disks : List (List ℕ)) (first last k n i j : ℕ) →
        IsOverwriting s k n i j at (length bytes.now) file.0 (D.world depot.old) →
        Reads file.0 (IsStanding s disks first last file.0) (λ old new. SameTables s old new × SameBlocks s old new) (D.world depot.old) (D.world depot.new) }

    // It writes no other byte.
    ensures frame { IsTrue (D.world depot.old).tells → SameBeside (λ b. IsWithin b at (length bytes.now)) ((D.world depot.old).seen file.0) ((D.world depot.new).seen file.0) }

    ensures puts { Puts file.0 (D.world depot.old) (D.world depot.new) result }
{
    write(depot, file, at, bytes)
}

/// Makes entries in a row holes, by writing these zeros over them.
pub fn clear_entries<D: Depot>(
    depot: &mut D,
    file: FileNo,
    spot: u64,
    zeros: &[u8],
) -> Result<(), Failed>
    requires given { file.0 < (D.world depot.old).given }
    requires end { spot + length zeros.now ≤ 2 ^ 62 }

    ensures moves { (s : Shape) (disks : List (List ℕ)) (first last q i j n : ℕ) →
        IsClearing s q i j n spot file.0 zeros.now (D.world depot.old) →
        Moves file.0 (IsSafe s ((D.world depot.new).seen file.0 ∷ disks)) (IsStanding s disks first last file.0)
        (IsStanding s ((D.world depot.new).seen file.0 ∷ disks) first last file.0) (D.world depot.old) (D.world depot.new) }

    // Whatever it answers, nothing else of the guest's changes.
    ensures leaves { (s : Shape) (disks : List (List ℕ)) (first last q i j n : ℕ) →
        IsClearing s q i j n spot file.0 zeros.now (D.world depot.old) →
        Reads file.0 (IsStanding s disks first last file.0) (LeavesRest s i j n) (D.world depot.old) (D.world depot.new) }

    ensures cleared { OnOk result ((s : Shape) (disks : List (List ℕ)) (first last q i j n : ℕ) →
        IsClearing s q i j n spot file.0 zeros.now (D.world depot.old) →
        Reads file.0 (IsStanding s disks first last file.0) (λ old new. IsTable s new i q × ((m : ℕ) → m < n → word_of s new i (j + m) ≡ 0))
        (D.world depot.old) (D.world depot.new)) }

    // The entries of each sector are as they were, with what they show, or all of them are zero.
    ensures whether { (s : Shape) (disks : List (List ℕ)) (first last q i j n : ℕ) →
        IsClearing s q i j n spot file.0 zeros.now (D.world depot.old) →
        Reads file.0 (IsStanding s disks first last file.0) (λ old new. (x : ℕ) →
        AreUntouched s q i j n x old new ⊎ AreCleared s q i j n x new) (D.world depot.old) (D.world depot.new) }

    // Whatever it answers, no word of the refcount table and of the first level changes.
    ensures rows { (s : Shape) (disks : List (List ℕ)) (first last q i j n : ℕ) →
        IsClearing s q i j n spot file.0 zeros.now (D.world depot.old) →
        Reads file.0 (IsStanding s disks first last file.0) (λ old new. SameTables s old new × SameBlocks s old new) (D.world depot.old) (D.world depot.new) }

    // It writes no other byte.
    ensures frame { IsTrue (D.world depot.old).tells → SameBeside (λ b. IsWithin b spot (length zeros.now)) ((D.world depot.old).seen file.0) ((D.world depot.new).seen file.0) }

    ensures puts { Puts file.0 (D.world depot.old) (D.world depot.new) result }
{
    write(depot, file, spot, zeros)
}
