//! Counts of clusters.

ghost use Rattle.std.specs.Prelude.{◌≡◌, ℕ, List, [], ◌∷◌, ◌+◌, ◌*◌, ◌^◌, ◌<◌, ◌≤◌, length, Bool, OnOk, IsTrue, ◌⊎◌};
ghost use Rattle.disk_model.specs.Files.{u64_at};
ghost use Rattle.file_device.specs.Calls.{Puts, Synced};
ghost use Rattle.file_device.specs.File.{file_of, IsSettled};
ghost use Rattle.image_model.specs.Clusters.{Shape, each, place, IsShape, IsBlock, IsSafe, IsStanding, Moves, Reads};
ghost use Rattle.image_model.specs.Calls.{Told, IsToppingUp, IsAddingBlock, IsSettling, AreNamed, Rests, LeavesGuest, LeavesCounts, HasCounts, IsBareBlock, CountsNoOther, EndsBy, last_after, SameTables, SameBlocks, SameBlocksBut, SameBeside, IsWithin};

use disk_model::{Depot, Failed, FileNo};
use file_device::{sync, write};

/// Makes fresh clusters ready, whose counts lie in one block: makes the file reach so far, counts them, and syncs.
pub fn top_up<D: Depot>(
    depot: &mut D,
    file: FileNo,
    finish: u64,
    spot: u64,
    counts: &[u8],
) -> Result<(), Failed>
    requires given { file.0 < (D.world depot.old).given }
    requires end { finish + 1 ≤ 2 ^ 62 }
    requires counts_end { spot + length counts.now ≤ 2 ^ 62 }

    ensures moves { (s : Shape) (disks : List (List ℕ)) (first last q i low n : ℕ) →
        IsToppingUp s last q i low n spot finish file.0 counts.now (D.world depot.old) →
        Moves file.0 (IsSafe s disks) (IsStanding s disks first last file.0) (IsStanding s disks first (last_after result last n) file.0)
        (D.world depot.old) (D.world depot.new) }

    ensures leaves { (s : Shape) (disks : List (List ℕ)) (first last q i low n : ℕ) →
        IsToppingUp s last q i low n spot finish file.0 counts.now (D.world depot.old) →
        Reads file.0 (IsStanding s disks first last file.0) (LeavesGuest s) (D.world depot.old) (D.world depot.new) }

    // Whatever it answers, no other count changes, and the file ends with the last of the clusters.
    ensures others { (s : Shape) (disks : List (List ℕ)) (first last q i low n : ℕ) →
        IsToppingUp s last q i low n spot finish file.0 counts.now (D.world depot.old) →
        Reads file.0 (IsStanding s disks first last file.0) (LeavesCounts s last n) (D.world depot.old) (D.world depot.new) }
    ensures ends { (s : Shape) (disks : List (List ℕ)) (first last q i low n : ℕ) →
        IsToppingUp s last q i low n spot finish file.0 counts.now (D.world depot.old) →
        Reads file.0 (IsStanding s disks first last file.0) (EndsBy finish) (D.world depot.old) (D.world depot.new) }

    // Whatever it answers, no word of the refcount table and of the first level changes.
    ensures rows { (s : Shape) (disks : List (List ℕ)) (first last q i low n : ℕ) →
        IsToppingUp s last q i low n spot finish file.0 counts.now (D.world depot.old) →
        Reads file.0 (IsStanding s disks first last file.0) (λ old new. SameTables s old new × SameBlocks s old new) (D.world depot.old) (D.world depot.new) }

    // It writes no other byte.
    ensures frame { IsTrue (D.world depot.old).tells → SameBeside (λ b. IsWithin b finish 1 ⊎ IsWithin b spot (length counts.now)) ((D.world depot.old).seen file.0) ((D.world depot.new).seen file.0) }

    ensures puts { Puts file.0 (D.world depot.old) (D.world depot.new) result }
{
    write(depot, file, finish, &[0])?;
    write(depot, file, spot, counts)?;
    sync(depot, file)
}

/// Makes the next fresh cluster a block of counts, which counts itself. `end` is the last byte of its cluster: the low one of
/// its own count where that stands last, else 0.
pub fn add_block<D: Depot>(
    depot: &mut D,
    file: FileNo,
    finish: u64,
    end: u8,
    spot: u64,
    at: u64,
    word: u64,
) -> Result<(), Failed>
    requires given { file.0 < (D.world depot.old).given }
    requires finish_end { finish + 1 ≤ 2 ^ 62 }
    requires count_end { spot + 2 ≤ 2 ^ 62 }
    requires word_end { at + 8 ≤ 2 ^ 62 }

    ensures moves { (s : Shape) (disks : List (List ℕ)) (first last i slot : ℕ) →
        IsAddingBlock s i last slot spot finish end at word file.0 (D.world depot.old) →
        Moves file.0 (IsSafe s disks) (IsStanding s disks first last file.0) (IsStanding s disks first (last_after result last 1) file.0)
        (D.world depot.old) (D.world depot.new) }

    ensures leaves { (s : Shape) (disks : List (List ℕ)) (first last i slot : ℕ) →
        IsAddingBlock s i last slot spot finish end at word file.0 (D.world depot.old) →
        Reads file.0 (IsStanding s disks first last file.0) (LeavesGuest s) (D.world depot.old) (D.world depot.new) }

    ensures linked { OnOk result ((s : Shape) (disks : List (List ℕ)) (first last i slot : ℕ) →
        IsAddingBlock s i last slot spot finish end at word file.0 (D.world depot.old) →
        Reads file.0 (IsStanding s disks first last file.0) (λ old new. IsBlock s new i last × (CountsNoOther s i last old → IsBareBlock s i last new))
        (D.world depot.old) (D.world depot.new)) }

    // Whatever it answers, the table's word is as it was, or names the block.
    ensures either { (s : Shape) (disks : List (List ℕ)) (first last i slot : ℕ) →
        IsAddingBlock s i last slot spot finish end at word file.0 (D.world depot.old) →
        Reads file.0 (IsStanding s disks first last file.0) (λ old new. (u64_at new at ≡ u64_at old at) ⊎ IsBlock s new i last)
        (D.world depot.old) (D.world depot.new) }

    // Whatever it answers: where the cluster counted no other, it doesn't.
    ensures bare { (s : Shape) (disks : List (List ℕ)) (first last i slot : ℕ) →
        IsAddingBlock s i last slot spot finish end at word file.0 (D.world depot.old) →
        Reads file.0 (IsStanding s disks first last file.0) (λ old new. CountsNoOther s i last old → CountsNoOther s i last new) (D.world depot.old)
        (D.world depot.new) }

    // Whatever it answers, no count of another block changes, and the file ends with the cluster.
    ensures others { (s : Shape) (disks : List (List ℕ)) (first last i slot : ℕ) →
        IsAddingBlock s i last slot spot finish end at word file.0 (D.world depot.old) →
        Reads file.0 (IsStanding s disks first last file.0) (LeavesCounts s (each s * i) (each s)) (D.world depot.old) (D.world depot.new) }
    ensures ends { (s : Shape) (disks : List (List ℕ)) (first last i slot : ℕ) →
        IsAddingBlock s i last slot spot finish end at word file.0 (D.world depot.old) →
        Reads file.0 (IsStanding s disks first last file.0) (EndsBy finish) (D.world depot.old) (D.world depot.new) }

    // Whatever it answers, no other word of the refcount table changes, and none of the first level.
    ensures rows { (s : Shape) (disks : List (List ℕ)) (first last i slot : ℕ) →
        IsAddingBlock s i last slot spot finish end at word file.0 (D.world depot.old) →
        Reads file.0 (IsStanding s disks first last file.0) (λ old new. SameTables s old new × SameBlocksBut s i old new) (D.world depot.old) (D.world depot.new) }

    // It writes no other byte.
    ensures frame { IsTrue (D.world depot.old).tells → SameBeside (λ b. IsWithin b finish 1 ⊎ (IsWithin b spot 2 ⊎ IsWithin b at 8)) ((D.world depot.old).seen file.0) ((D.world depot.new).seen file.0) }

    ensures puts { Puts file.0 (D.world depot.old) (D.world depot.new) result }
{
    write(depot, file, finish, &[end])?;
    write(depot, file, spot, &[0, 1])?;
    sync(depot, file)?;
    write(depot, file, at, &word.to_be_bytes()) // the next sync makes it last
}

/// Syncs. Then the disk as it is is the one that a crash may leave, and what nothing refers to may be used for anything. No cluster is
/// ready any more; one that is taken and that nothing refers to stays counted.
pub fn rest<D: Depot>(depot: &mut D, file: FileNo) -> Result<(), Failed>
    requires given { file.0 < (D.world depot.old).given }

    ensures stays { (s : Shape) (disks : List (List ℕ)) (first last : ℕ) →
        Moves file.0 (IsSafe s disks) (IsStanding s disks first last file.0) (IsStanding s disks first last file.0) (D.world depot.old)
        (D.world depot.new) }

    ensures one { OnOk result ((s : Shape) (disks : List (List ℕ)) (first last : ℕ) →
        Moves file.0 (IsSafe s disks) (IsStanding s disks first last file.0) (IsStanding s ((D.world depot.new).seen file.0 ∷ []) first last file.0)
        (D.world depot.old) (D.world depot.new)) }

    ensures rests { OnOk result ((s : Shape) (disks : List (List ℕ)) (taken : ℕ → Bool) (first last : ℕ) →
        Told (AreNamed s taken) file.0 (D.world depot.old) →
        Moves file.0 (IsSafe s disks) (IsStanding s disks first last file.0) (Rests s ((D.world depot.new).seen file.0 ∷ []) taken last file.0)
        (D.world depot.old) (D.world depot.new)) }

    ensures settled { OnOk result (IsSettled (file_of (D.world depot.new) file.0)) }

    ensures synced { Synced file.0 (D.world depot.old) (D.world depot.new) result }
{
    sync(depot, file)
}

/// Writes counts of one block, for clusters that rest.
pub fn settle_counts<D: Depot>(
    depot: &mut D,
    file: FileNo,
    spot: u64,
    counts: &[u8],
) -> Result<(), Failed>
    requires given { file.0 < (D.world depot.old).given }
    requires counts_end { spot + length counts.now ≤ 2 ^ 62 }

    ensures moves { (s : Shape) (disks : List (List ℕ)) (taken : ℕ → Bool) (last q i low n : ℕ) → IsShape s →
        IsSettling s taken q i low n spot counts.now → Told (λ c. IsBlock s c i q) file.0 (D.world depot.old) →
        Moves file.0 (IsSafe s disks) (Rests s disks taken last file.0) (Rests s disks taken last file.0) (D.world depot.old) (D.world depot.new) }

    // Whatever it answers, nothing of the guest's changes, and no other count.
    ensures leaves { (s : Shape) (disks : List (List ℕ)) (taken : ℕ → Bool) (last q i low n : ℕ) → IsShape s →
        IsSettling s taken q i low n spot counts.now → Told (λ c. IsBlock s c i q) file.0 (D.world depot.old) →
        Reads file.0 (Rests s disks taken last file.0) (LeavesGuest s) (D.world depot.old) (D.world depot.new) }
    ensures others { (s : Shape) (disks : List (List ℕ)) (taken : ℕ → Bool) (last q i low n : ℕ) → IsShape s →
        IsSettling s taken q i low n spot counts.now → Told (λ c. IsBlock s c i q) file.0 (D.world depot.old) →
        Reads file.0 (Rests s disks taken last file.0) (LeavesCounts s (each s * i + low) n) (D.world depot.old) (D.world depot.new) }

    ensures counts { OnOk result ((s : Shape) (disks : List (List ℕ)) (taken : ℕ → Bool) (last q i low n : ℕ) → IsShape s →
        IsSettling s taken q i low n spot counts.now → Told (λ c. IsBlock s c i q) file.0 (D.world depot.old) →
        Reads file.0 (Rests s disks taken last file.0) (λ old new. HasCounts s (each s * i + low) n counts.now new) (D.world depot.old)
        (D.world depot.new)) }

    // Whatever it answers, no word of the refcount table and of the first level changes.
    ensures rows { (s : Shape) (disks : List (List ℕ)) (taken : ℕ → Bool) (last q i low n : ℕ) → IsShape s →
        IsSettling s taken q i low n spot counts.now → Told (λ c. IsBlock s c i q) file.0 (D.world depot.old) →
        Reads file.0 (Rests s disks taken last file.0) (λ old new. SameTables s old new × SameBlocks s old new) (D.world depot.old) (D.world depot.new) }

    // It writes no other byte.
    ensures frame { IsTrue (D.world depot.old).tells → SameBeside (λ b. IsWithin b spot (length counts.now)) ((D.world depot.old).seen file.0) ((D.world depot.new).seen file.0) }

    ensures puts { Puts file.0 (D.world depot.old) (D.world depot.new) result }
{
    write(depot, file, spot, counts)
}
