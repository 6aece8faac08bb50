//! Data is stored in clusters next to one another, and another run is taken.

ghost use Rattle.std.specs.Prelude.{◌≡◌, ℕ, List, ◌+◌, ◌*◌, ◌^◌, ◌<◌, ◌≤◌, length, IfOk, IsTrue};
ghost use Rattle.image_model.specs.Clusters.{Shape, IsSafe, Moves, Reads};
ghost use Rattle.image_model.specs.Runs.{HasData};
ghost use Rattle.qc_alloc.specs.Allocator.{Allocates, HandsOut};
ghost use Rattle.qc_alloc.specs.Laws.{CanBeUsed};
ghost use Rattle.alloc_tests.specs.Storing.{AllocatesSome};

use disk_model::{Depot, FileNo, WriteRefusal};
use image_calls::write_data;
use qc_alloc::Clusters;
use qc_alloc::laws::prepared_is_clean;

/// Two runs of neighbours.
#[derive(Clone, Copy, Drop)]
pub struct Runs {
    pub first: u64,
    pub second: u64,
}

/// Writes bytes into so many neighbours, which nothing names yet, and takes more.
pub fn store_run<D: Depot>(
    depot: &mut D,
    clusters: &mut Clusters,
    file: FileNo,
    cluster_bits: u32,
    count: u64,
    bytes: &[u8],
    more: u64,
) -> Result<Runs, WriteRefusal>
    requires given { file.0 < (D.world depot.old).given }
    requires file { clusters.old.file ≡ file.0 }
    requires bits { clusters.old.pool.bits ≡ cluster_bits }
    requires some { 0 < count }
    requires others { 0 < more }
    requires long { length bytes.now ≤ count * 2 ^ cluster_bits }
    requires short { length bytes.now ≤ 2 ^ 60 }

    // Whatever it answers, the image stands, and each crash since leaves a file that an opening takes.
    ensures moves { (s : Shape) (disks : List (List ℕ)) (first : ℕ) → HandsOut first clusters.old →
        Moves file.0 (IsSafe s disks) (Allocates s disks first clusters.old) (AllocatesSome s disks clusters.new) (D.world depot.old) (D.world depot.new) }

    // The first run has the data.
    ensures data { IfOk result (λ runs. (s : Shape) (disks : List (List ℕ)) (first : ℕ) → HandsOut first clusters.old →
        Reads file.0 (Allocates s disks first clusters.old) (λ old new. HasData s runs.first count (2 ^ cluster_bits * runs.first) bytes.now new) (D.world depot.old) (D.world depot.new)) }

    // The second can be put to use.
    ensures clean { IfOk result (λ runs. (s : Shape) (disks : List (List ℕ)) (first : ℕ) → HandsOut first clusters.old →
        Allocates s disks first clusters.old (D.world depot.old) → IsTrue (D.world depot.new).tells → (k : ℕ) → runs.second ≤ k → k < runs.second + more → CanBeUsed s k file.0 (D.world depot.new)) }
{
    let first = clusters.take_run(depot, count)?;
    let _room = clusters.room();
    prepared_is_clean();
    write_data(depot, file, first << cluster_bits, bytes)?;
    let second = clusters.take_run(depot, more)?;
    let _left = clusters.room();
    Ok(Runs { first, second })
}
