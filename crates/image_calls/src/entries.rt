//! A guest's clusters.

ghost use Rattle.std.specs.Prelude.{◌≡◌, ◌⊎◌, ℕ, List, ◌∷◌, ◌+◌, ◌*◌, ◌^◌, ◌<◌, ◌≤◌, length, OnOk, IsTrue};
ghost use Rattle.disk_model.specs.Files.{u64_at};
ghost use Rattle.file_device.specs.Calls.{Puts};
ghost use Rattle.image_model.specs.Clusters.{Shape, per, guest, word_of, ShowsAs, IsShape, IsTable, IsSafe, IsStanding, Moves, Reads};
ghost use Rattle.image_model.specs.Calls.{Told, IsSlot, IsIn, IsData, IsTablePut, Shows, IsPartly, LeavesGuest, LeavesOthers, IsNewTable, SameTables, SameBlocks, SameTablesBut, SameBeside, IsWithin};

use crate::rows::{clear_entries, overwrite_run};
use disk_model::{Depot, Failed, FileNo};
use file_device::write;

/// Makes an entry a hole.
pub fn clear_entry<D: Depot>(depot: &mut D, file: FileNo, slot: u64) -> Result<(), Failed>
    requires given { file.0 < (D.world depot.old).given }
    requires end { slot + 8 ≤ 2 ^ 62 }

    ensures moves { (s : Shape) (disks : List (List ℕ)) (first last q i j : ℕ) → IsShape s → IsSlot s q i j slot →
        Told (λ c. IsTable s c i q) file.0 (D.world depot.old) →
        Moves file.0 (IsSafe s ((D.world depot.new).seen file.0 ∷ disks)) (IsStanding s disks first last file.0)
        (IsStanding s ((D.world depot.new).seen file.0 ∷ disks) first last file.0) (D.world depot.old) (D.world depot.new) }

    // Whatever it answers, nothing else of the guest's changes.
    ensures leaves { (s : Shape) (disks : List (List ℕ)) (first last q i j : ℕ) → IsShape s → IsSlot s q i j slot →
        Told (λ c. IsTable s c i q) file.0 (D.world depot.old) →
        Reads file.0 (IsStanding s disks first last file.0) (LeavesOthers s i j) (D.world depot.old) (D.world depot.new) }

    ensures cleared { OnOk result ((s : Shape) (disks : List (List ℕ)) (first last q i j : ℕ) → IsShape s → IsSlot s q i j slot →
        Told (λ c. IsTable s c i q) file.0 (D.world depot.old) →
        Reads file.0 (IsStanding s disks first last file.0) (λ old new. IsTable s new i q × (word_of s new i j ≡ 0)) (D.world depot.old)
        (D.world depot.new)) }

    // The entry and its bytes are as they were, or it is zero.
    ensures whether { (s : Shape) (disks : List (List ℕ)) (first last q i j : ℕ) → IsShape s → IsSlot s q i j slot →
        Told (λ c. IsTable s c i q) file.0 (D.world depot.old) →
        Reads file.0 (IsStanding s disks first last file.0) (λ old new. ((word_of s new i j ≡ word_of s old i j) × ((o : ℕ) → o < s.sectors →
        ShowsAs s i j o new old)) ⊎ (word_of s new i j ≡ 0)) (D.world depot.old) (D.world depot.new) }

    // Whatever it answers, no word of the refcount table and of the first level changes.
    ensures rows { (s : Shape) (disks : List (List ℕ)) (first last q i j : ℕ) → IsShape s → IsSlot s q i j slot →
        Told (λ c. IsTable s c i q) file.0 (D.world depot.old) →
        Reads file.0 (IsStanding s disks first last file.0) (λ old new. SameTables s old new × SameBlocks s old new) (D.world depot.old) (D.world depot.new) }

    // It writes no other byte.
    ensures frame { IsTrue (D.world depot.old).tells → SameBeside (λ b. IsWithin b slot 8) ((D.world depot.old).seen file.0) ((D.world depot.new).seen file.0) }

    ensures puts { Puts file.0 (D.world depot.old) (D.world depot.new) result }
{
    clear_entries(depot, file, slot, &[0; 8])
}

/// Writes data over a stored cluster, or a part of it.
pub fn overwrite<D: Depot>(depot: &mut D, file: FileNo, at: u64, bytes: &[u8]) -> Result<(), Failed>
    requires given { file.0 < (D.world depot.old).given }
    requires data_end { at + length bytes.now ≤ 2 ^ 62 }

    ensures moves { (s : Shape) (disks : List (List ℕ)) (first last k i j : ℕ) → IsShape s → i < s.tables → j < per s →
        IsIn s k at (length bytes.now) → Told (IsData s i j k) file.0 (D.world depot.old) →
        Moves file.0 (IsSafe s ((D.world depot.new).seen file.0 ∷ disks)) (IsStanding s disks first last file.0)
        (IsStanding s ((D.world depot.new).seen file.0 ∷ disks) first last file.0) (D.world depot.old) (D.world depot.new) }

    // Whatever it answers, nothing else of the guest's changes.
    ensures leaves { (s : Shape) (disks : List (List ℕ)) (first last k i j : ℕ) → IsShape s → i < s.tables → j < per s →
        IsIn s k at (length bytes.now) → Told (IsData s i j k) file.0 (D.world depot.old) →
        Reads file.0 (IsStanding s disks first last file.0) (LeavesOthers s i j) (D.world depot.old) (D.world depot.new) }

    ensures shows { OnOk result ((s : Shape) (disks : List (List ℕ)) (first last k i j : ℕ) → IsShape s → i < s.tables → j < per s →
        IsIn s k at (length bytes.now) → Told (IsData s i j k) file.0 (D.world depot.old) →
        Reads file.0 (IsStanding s disks first last file.0) (λ old new. Shows s i j k at bytes.now (guest s old i j) new) (D.world depot.old)
        (D.world depot.new)) }

    ensures entry { (s : Shape) (disks : List (List ℕ)) (first last k i j : ℕ) → IsShape s → i < s.tables → j < per s →
        IsIn s k at (length bytes.now) → Told (IsData s i j k) file.0 (D.world depot.old) →
        Reads file.0 (IsStanding s disks first last file.0) (λ old new. word_of s new i j ≡ word_of s old i j) (D.world depot.old) (D.world depot.new) }

    // Each sector is as it was, or as it is to be.
    ensures partly { (s : Shape) (disks : List (List ℕ)) (first last k i j : ℕ) → IsShape s → i < s.tables → j < per s →
        IsIn s k at (length bytes.now) → Told (IsData s i j k) file.0 (D.world depot.old) →
        Reads file.0 (IsStanding s disks first last file.0) (IsPartly s i j k at bytes.now) (D.world depot.old) (D.world depot.new) }

    // Whatever it answers, no word of the refcount table and of the first level changes.
    ensures rows { (s : Shape) (disks : List (List ℕ)) (first last k i j : ℕ) → IsShape s → i < s.tables → j < per s →
        IsIn s k at (length bytes.now) → Told (IsData s i j k) file.0 (D.world depot.old) →
        Reads file.0 (IsStanding s disks first last file.0) (λ old new. SameTables s old new × SameBlocks s old new) (D.world depot.old) (D.world depot.new) }

    // It writes no other byte.
    ensures frame { IsTrue (D.world depot.old).tells → SameBeside (λ b. IsWithin b at (length bytes.now)) ((D.world depot.old).seen file.0) ((D.world depot.new).seen file.0) }

    ensures puts { Puts file.0 (D.world depot.old) (D.world depot.new) result }
{
    overwrite_run(depot, file, at, bytes)
}

/// Names a ready cluster as a second-level table, whose zeros are holes.
pub fn add_table<D: Depot>(depot: &mut D, file: FileNo, slot: u64, entry: u64) -> Result<(), Failed>
    requires given { file.0 < (D.world depot.old).given }
    requires end { slot + 8 ≤ 2 ^ 62 }

    ensures moves { (s : Shape) (disks : List (List ℕ)) (first last t i : ℕ) → IsTablePut s first last t i slot entry file.0 (D.world depot.old) →
        Moves file.0 (IsSafe s disks) (IsStanding s disks first last file.0) (IsStanding s disks (t + 1) last file.0) (D.world depot.old)
        (D.world depot.new) }

    ensures leaves { (s : Shape) (disks : List (List ℕ)) (first last t i : ℕ) → IsTablePut s first last t i slot entry file.0 (D.world depot.old) →
        Reads file.0 (IsStanding s disks first last file.0) (LeavesGuest s) (D.world depot.old) (D.world depot.new) }

    // Whatever it answers, the word is as it was, or names the table.
    ensures either { (s : Shape) (disks : List (List ℕ)) (first last t i : ℕ) → IsTablePut s first last t i slot entry file.0 (D.world depot.old) →
        Reads file.0 (IsStanding s disks first last file.0) (λ old new. (u64_at new slot ≡ u64_at old slot) ⊎ IsNewTable s t i entry new)
        (D.world depot.old) (D.world depot.new) }

    ensures linked { OnOk result ((s : Shape) (disks : List (List ℕ)) (first last t i : ℕ) →
        IsTablePut s first last t i slot entry file.0 (D.world depot.old) →
        Reads file.0 (IsStanding s disks first last file.0) (λ old new. IsNewTable s t i entry new) (D.world depot.old) (D.world depot.new)) }

    // Whatever it answers, no other word of the first level changes, and none of the refcount table.
    ensures rows { (s : Shape) (disks : List (List ℕ)) (first last t i : ℕ) →
        IsTablePut s first last t i slot entry file.0 (D.world depot.old) →
        Reads file.0 (IsStanding s disks first last file.0) (λ old new. SameTablesBut s i old new × SameBlocks s old new) (D.world depot.old) (D.world depot.new) }

    // It writes no other byte.
    ensures frame { IsTrue (D.world depot.old).tells → SameBeside (λ b. IsWithin b slot 8) ((D.world depot.old).seen file.0) ((D.world depot.new).seen file.0) }

    ensures puts { Puts file.0 (D.world depot.old) (D.world depot.new) result }
{
    write(depot, file, slot, &entry.to_be_bytes())
}
