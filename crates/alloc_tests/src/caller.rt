//! A caller of the allocator, proved from contracts alone.

ghost use Rattle.std.specs.Prelude.{◌≡◌, ◌⊎◌, ◌↔◌, ℕ, List, ◌∷◌, ◌+◌, ◌^◌, ◌<◌, ◌≤◌, length, Err, OnOk, IsTrue};
ghost use Rattle.disk_model.specs.Files.{byte};
ghost use Rattle.disk_model.specs.declared.depot.WriteRefusal.TheVariants as refusals;
ghost use Rattle.bitmap_model.specs.Granules.{is_in};
ghost use Rattle.image_model.specs.Clusters.{Shape, size, guest, IsSafe, Moves, Reads};
ghost use Rattle.image_model.specs.Runs.{LeavesRest};
ghost use Rattle.cluster_pool.specs.Pool.{room, is_own_block};
ghost use Rattle.qc_alloc.specs.Allocator.{Allocates, HandsOut, StandsFrom};
ghost use Rattle.alloc_tests.specs.Caller.{IsHole, IsFull};

use disk_model::{Depot, FileNo, WriteRefusal};
use image_calls::{NotStored, write_run};
use qc_alloc::Clusters;
use qc_alloc::laws::prepared_is_clean;

/// What an entry has beside an offset, where it names a cluster that is counted once.
const ONCE: u64 = 1 << 63;

/// Stores one cluster of the guest's in the place of a hole, whose entry lies at `spot`. Gives how many clusters can still be handed
/// out. `NoRoom` comes exactly where none can be, and then nothing is done.
pub fn fill_hole<D: Depot>(
    depot: &mut D,
    clusters: &mut Clusters,
    file: FileNo,
    cluster_bits: u32,
    bytes: &[u8],
    spot: u64,
) -> Result<u64, WriteRefusal>
    requires given { file.0 < (D.world depot.old).given }
    requires file { clusters.old.file ≡ file.0 }
    requires bits { clusters.old.pool.bits ≡ cluster_bits }
    requires whole { length bytes.now ≡ 2 ^ cluster_bits }
    requires end { spot + 8 ≤ 2 ^ 62 }

    ensures room { (result ≡ Err refusals.NoRoom) ↔ (room clusters.old.pool < 1) }
    ensures kept { result ≡ Err refusals.NoRoom → (clusters.new ≡ clusters.old) × (D.world depot.new ≡ D.world depot.old) }

    // Whatever it answers, the image stands, and each crash since leaves a file that an opening takes: its disk is mixed of those
    // that might be mixed before, and the disk as it is now.
    ensures moves { (s : Shape) (disks : List (List ℕ)) (first q i j : ℕ) → IsHole s q i j spot file.0 (D.world depot.old) → HandsOut first clusters.old →
        Moves file.0 (IsSafe s ((D.world depot.new).seen file.0 ∷ disks)) (Allocates s disks first clusters.old)
        (StandsFrom s ((D.world depot.new).seen file.0 ∷ disks) clusters.new) (D.world depot.old) (D.world depot.new) }

    // Nothing else of the guest's changes.
    ensures leaves { (s : Shape) (disks : List (List ℕ)) (first q i j : ℕ) → IsHole s q i j spot file.0 (D.world depot.old) → HandsOut first clusters.old →
        Reads file.0 (Allocates s disks first clusters.old) (LeavesRest s i j 1) (D.world depot.old) (D.world depot.new) }

    // No cluster leaks: one that is spoken for and wasn't before is a block, or holds the bytes.
    ensures spoken { (s : Shape) (disks : List (List ℕ)) (first q i j : ℕ) → IsHole s q i j spot file.0 (D.world depot.old) → HandsOut first clusters.old →
        Reads file.0 (Allocates s disks first clusters.old) (λ old new. (k : ℕ) → IsTrue (is_in clusters.new.pool.spoken k) →
        IsTrue (is_in clusters.old.pool.spoken k) ⊎ (IsTrue (is_own_block clusters.new.pool k) ⊎ IsFull s k bytes.now new)) (D.world depot.old) (D.world depot.new) }

    // After Ok the guest's cluster shows the bytes.
    ensures shows { OnOk result ((s : Shape) (disks : List (List ℕ)) (first q i j : ℕ) → IsHole s q i j spot file.0 (D.world depot.old) → HandsOut first clusters.old →
        Reads file.0 (Allocates s disks first clusters.old) (λ old new. (t : ℕ) → t < size s → guest s new i j t ≡ byte bytes.now t)
        (D.world depot.old) (D.world depot.new)) }
{
    clusters.top_up(depot, 1)?;
    prepared_is_clean();
    let room = clusters.room() - 1;
    let index = clusters.take_ready();
    let at = index << cluster_bits;
    let entry = (at + ONCE).to_be_bytes();
    match write_run(depot, file, at, bytes, spot, &entry) {
        Ok(()) => Ok(room),
        Err(NotStored::Data) => {
            clusters.give_back(index);
            Err(WriteRefusal::Failed)
        }
        Err(NotStored::Entries) => Err(WriteRefusal::Failed),
    }
}
