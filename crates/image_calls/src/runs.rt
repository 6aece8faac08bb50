//! A guest's clusters next to one another: data first, then the entries that name it.

ghost use Rattle.std.specs.Prelude.{◌≡◌, ◌⊎◌, ℕ, List, ◌∷◌, ◌+◌, ◌*◌, ◌^◌, ◌<◌, ◌≤◌, length, OnOk, Err, IsTrue};
ghost use Rattle.disk_model.specs.Files.{u64_at};
ghost use Rattle.file_device.specs.Calls.{Puts};
ghost use Rattle.image_model.specs.Clusters.{Shape, SameIn, IsSafe, IsStanding, Moves, Reads};
ghost use Rattle.image_model.specs.Calls.{LeavesGuest, SameTables, SameBlocks, SameBeside, IsWithin};
ghost use Rattle.image_model.specs.Runs.{IsFilling, IsHolding, HasData, IsLinking, LeavesRest, IsLinked, AreAsBefore, AreLinked, IsStored, AreStored};
ghost use Rattle.image_calls.specs.declared.runs.NotStored.TheVariants.{Data, Entries};

use disk_model::{Depot, Failed, FileNo};
use file_device::write;
use thiserror::Error;

/// Which write failed.
#[derive(Clone, Copy, Debug, PartialEq, Eq, Error)]
pub enum NotStored {
    /// That of the data.
    #[error("the data wasn't written")]
    Data,
    /// That of the entries that name it.
    #[error("the data isn't named")]
    Entries,
}

/// Writes data into ready clusters next to one another. Nothing names them yet.
pub fn write_data<D: Depot>(
    depot: &mut D,
    file: FileNo,
    at: u64,
    bytes: &[u8],
) -> Result<(), Failed>
    requires given { file.0 < (D.world depot.old).given }
    requires end { at + length bytes.now ≤ 2 ^ 62 }

    ensures moves { (s : Shape) (disks : List (List ℕ)) (first last k n : ℕ) →
        IsFilling s first last k n at (length bytes.now) file.0 (D.world depot.old) →
        Moves file.0 (IsSafe s disks) (IsStanding s disks first last file.0) (IsHolding s disks k n (k + n) last file.0) (D.world depot.old)
        (D.world depot.new) }

    // Whatever it answers, nothing of the guest's changes.
    ensures leaves { (s : Shape) (disks : List (List ℕ)) (first last k n : ℕ) →
        IsFilling s first last k n at (length bytes.now) file.0 (D.world depot.old) →
        Reads file.0 (IsStanding s disks first last file.0) (LeavesGuest s) (D.world depot.old) (D.world depot.new) }

    ensures there { OnOk result ((s : Shape) (disks : List (List ℕ)) (first last k n : ℕ) →
        IsFilling s first last k n at (length bytes.now) file.0 (D.world depot.old) →
        Reads file.0 (IsStanding s disks first last file.0) (λ old new. HasData s k n at bytes.now new) (D.world depot.old) (D.world depot.new)) }

    // Whatever it answers, no word of the refcount table and of the first level changes.
    ensures rows { (s : Shape) (disks : List (List ℕ)) (first last k n : ℕ) →
        IsFilling s first last k n at (length bytes.now) file.0 (D.world depot.old) →
        Reads file.0 (IsStanding s disks first last file.0) (λ old new. SameTables s old new × SameBlocks s old new) (D.world depot.old) (D.world depot.new) }

    // It writes no other byte.
    ensures frame { IsTrue (D.world depot.old).tells → SameBeside (λ b. IsWithin b at (length bytes.now)) ((D.world depot.old).seen file.0) ((D.world depot.new).seen file.0) }

    ensures puts { Puts file.0 (D.world depot.old) (D.world depot.new) result }
{
    write(depot, file, at, bytes)
}

/// Names clusters that hold data, in a row, in the place of holes.
pub fn link<D: Depot>(depot: &mut D, file: FileNo, spot: u64, entries: &[u8]) -> Result<(), Failed>
    requires given { file.0 < (D.world depot.old).given }
    requires end { spot + length entries.now ≤ 2 ^ 62 }

    ensures moves { (s : Shape) (disks : List (List ℕ)) (first last k n q i j : ℕ) →
        IsLinking s first k n q i j spot file.0 entries.now (D.world depot.old) →
        Moves file.0 (IsSafe s ((D.world depot.new).seen file.0 ∷ disks)) (IsHolding s disks k n first last file.0)
        (IsStanding s ((D.world depot.new).seen file.0 ∷ disks) first last file.0) (D.world depot.old) (D.world depot.new) }

    // Whatever it answers, nothing else of the guest's changes.
    ensures leaves { (s : Shape) (disks : List (List ℕ)) (first last k n q i j : ℕ) →
        IsLinking s first k n q i j spot file.0 entries.now (D.world depot.old) →
        Reads file.0 (IsHolding s disks k n first last file.0) (LeavesRest s i j n) (D.world depot.old) (D.world depot.new) }

    // And the data stays in its clusters.
    ensures stays { (s : Shape) (disks : List (List ℕ)) (first last k n q i j : ℕ) →
        IsLinking s first k n q i j spot file.0 entries.now (D.world depot.old) →
        Reads file.0 (IsHolding s disks k n first last file.0) (λ old new. (m : ℕ) → m < n → SameIn s (k + m) old new) (D.world depot.old)
        (D.world depot.new) }

    // The entries of each sector are as they were, or all of them name their clusters.
    ensures either { (s : Shape) (disks : List (List ℕ)) (first last k n q i j : ℕ) →
        IsLinking s first k n q i j spot file.0 entries.now (D.world depot.old) →
        Reads file.0 (IsHolding s disks k n first last file.0) (λ old new. (x : ℕ) →
        AreAsBefore s q i j n x old new ⊎ AreLinked s k q i j n x entries.now old new) (D.world depot.old) (D.world depot.new) }

    ensures linked { OnOk result ((s : Shape) (disks : List (List ℕ)) (first last k n q i j : ℕ) →
        IsLinking s first k n q i j spot file.0 entries.now (D.world depot.old) →
        Reads file.0 (IsHolding s disks k n first last file.0) (λ old new. (m : ℕ) → m < n →
        IsLinked s i (j + m) (k + m) (u64_at entries.now (8 * m)) old new) (D.world depot.old) (D.world depot.new)) }

    // Whatever it answers, no word of the refcount table and of the first level changes.
    ensures rows { (s : Shape) (disks : List (List ℕ)) (first last k n q i j : ℕ) →
        IsLinking s first k n q i j spot file.0 entries.now (D.world depot.old) →
        Reads file.0 (IsHolding s disks k n first last file.0) (λ old new. SameTables s old new × SameBlocks s old new) (D.world depot.old) (D.world depot.new) }

    // It writes no other byte.
    ensures frame { IsTrue (D.world depot.old).tells → SameBeside (λ b. IsWithin b spot (length entries.now)) ((D.world depot.old).seen file.0) ((D.world depot.new).seen file.0) }

    ensures puts { Puts file.0 (D.world depot.old) (D.world depot.new) result }
{
    write(depot, file, spot, entries)
}

/// Writes data into ready clusters next to one another, and names them in a row, in the place of holes.
pub fn write_run<D: Depot>(
    depot: &mut D,
    file: FileNo,
    at: u64,
    bytes: &[u8],
    spot: u64,
    entries: &[u8],
) -> Result<(), NotStored>
    requires given { file.0 < (D.world depot.old).given }
    requires data_end { at + length bytes.now ≤ 2 ^ 62 }
    requires end { spot + length entries.now ≤ 2 ^ 62 }

    ensures moves { (s : Shape) (disks : List (List ℕ)) (first last k n q i j : ℕ) →
        IsFilling s first last k n at (length bytes.now) file.0 (D.world depot.old) →
        IsLinking s (k + n) k n q i j spot file.0 entries.now (D.world depot.old) →
        Moves file.0 (IsSafe s ((D.world depot.new).seen file.0 ∷ disks)) (IsStanding s disks first last file.0)
        (IsStanding s ((D.world depot.new).seen file.0 ∷ disks) (k + n) last file.0) (D.world depot.old) (D.world depot.new) }

    // Whatever it answers, nothing else of the guest's changes.
    ensures leaves { (s : Shape) (disks : List (List ℕ)) (first last k n q i j : ℕ) →
        IsFilling s first last k n at (length bytes.now) file.0 (D.world depot.old) →
        IsLinking s (k + n) k n q i j spot file.0 entries.now (D.world depot.old) →
        Reads file.0 (IsStanding s disks first last file.0) (LeavesRest s i j n) (D.world depot.old) (D.world depot.new) }

    // Where the data wasn't written, nothing of the guest's changes.
    ensures alike { result ≡ Err Data → (s : Shape) (disks : List (List ℕ)) (first last k n q i j : ℕ) →
        IsFilling s first last k n at (length bytes.now) file.0 (D.world depot.old) →
        IsLinking s (k + n) k n q i j spot file.0 entries.now (D.world depot.old) →
        Reads file.0 (IsStanding s disks first last file.0) (LeavesGuest s) (D.world depot.old) (D.world depot.new) }

    // Where the entries weren't, the data is in its clusters.
    ensures held { result ≡ Err Entries → (s : Shape) (disks : List (List ℕ)) (first last k n q i j : ℕ) →
        IsFilling s first last k n at (length bytes.now) file.0 (D.world depot.old) →
        IsLinking s (k + n) k n q i j spot file.0 entries.now (D.world depot.old) →
        Reads file.0 (IsStanding s disks first last file.0) (λ old new. HasData s k n at bytes.now new) (D.world depot.old) (D.world depot.new) }

    // The entries of each sector are as they were, or all of them name their clusters, which show the data.
    ensures either { (s : Shape) (disks : List (List ℕ)) (first last k n q i j : ℕ) →
        IsFilling s first last k n at (length bytes.now) file.0 (D.world depot.old) →
        IsLinking s (k + n) k n q i j spot file.0 entries.now (D.world depot.old) →
        Reads file.0 (IsStanding s disks first last file.0) (λ old new. (x : ℕ) →
        AreAsBefore s q i j n x old new ⊎ AreStored s k q i j n x entries.now at bytes.now new) (D.world depot.old) (D.world depot.new) }

    ensures stored { OnOk result ((s : Shape) (disks : List (List ℕ)) (first last k n q i j : ℕ) →
        IsFilling s first last k n at (length bytes.now) file.0 (D.world depot.old) →
        IsLinking s (k + n) k n q i j spot file.0 entries.now (D.world depot.old) →
        Reads file.0 (IsStanding s disks first last file.0) (λ old new. (m : ℕ) → m < n →
        IsStored s i (j + m) (k + m) (u64_at entries.now (8 * m)) at bytes.now new) (D.world depot.old) (D.world depot.new)) }

    // Whatever it answers, no word of the refcount table and of the first level changes.
    ensures rows { (s : Shape) (disks : List (List ℕ)) (first last k n q i j : ℕ) →
        IsFilling s first last k n at (length bytes.now) file.0 (D.world depot.old) →
        IsLinking s (k + n) k n q i j spot file.0 entries.now (D.world depot.old) →
        Reads file.0 (IsStanding s disks first last file.0) (λ old new. SameTables s old new × SameBlocks s old new) (D.world depot.old) (D.world depot.new) }

    // It writes no other byte.
    ensures frame { IsTrue (D.world depot.old).tells → SameBeside (λ b. IsWithin b at (length bytes.now) ⊎ IsWithin b spot (length entries.now)) ((D.world depot.old).seen file.0) ((D.world depot.new).seen file.0) }

    ensures puts { Puts file.0 (D.world depot.old) (D.world depot.new) result }
{
    match write_data(depot, file, at, bytes) {
        Ok(()) => match link(depot, file, spot, entries) {
            Ok(()) => Ok(()),
            Err(_) => Err(NotStored::Entries),
        },
        Err(_) => Err(NotStored::Data),
    }
}
