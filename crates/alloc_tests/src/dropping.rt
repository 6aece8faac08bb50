//! A guest's cluster is dropped, its cluster given back, and the counts settled.

ghost use Rattle.std.specs.Prelude.{◌≡◌, ℕ, List, ◌+◌, ◌^◌, ◌<◌, ◌≤◌, OnOk, IsTrue, length, None};
ghost use Rattle.qc_layout.specs.declared.header.Header.{Header};
ghost use Rattle.qc_layout.specs.declared.header.Part.TheVariants as parts;
ghost use Rattle.qc_layout.specs.Spelling.{Spells};
ghost use Rattle.qc_layout.specs.Directory.{directory_fault, spans_in};
ghost use Rattle.qc_layout.specs.Owners.{Tight};
ghost use Rattle.bitmap_model.specs.Granules.{is_in};
ghost use Rattle.image_model.specs.Clusters.{Shape, IsTable, IsGuest, Reads, OwnsAsListed};
ghost use Rattle.image_model.specs.Calls.{Told, IsSlot, AreExactly};
ghost use Rattle.qc_alloc.specs.Allocator.{Allocates};

use disk_model::{Depot, Failed, FileNo};
use image_calls::clear_entry;
use image_calls::laws::settled_is_tight;
use qc_alloc::Clusters;

/// Makes a stored cluster a hole, gives its cluster back, and settles.
pub fn drop_cluster<D: Depot>(
    depot: &mut D,
    clusters: &mut Clusters,
    file: FileNo,
    spot: u64,
    index: u64,
) -> Result<(), Failed>
    requires given { file.0 < (D.world depot.old).given }
    requires file { clusters.old.file ≡ file.0 }
    requires end { spot + 8 ≤ 2 ^ 62 }
    requires spoken { IsTrue (is_in clusters.old.pool.spoken index) }
    ensures tight { OnOk result ((s : Shape) (disks : List (List ℕ)) (first q i j : ℕ) → IsSlot s q i j spot →
        Told (λ c. IsTable s c i q) file.0 (D.world depot.old) → Told (λ c. IsGuest s c i j index) file.0 (D.world depot.old) →
        Told (AreExactly s (is_in clusters.old.pool.spoken)) file.0 (D.world depot.old) →
        Reads file.0 (Allocates s disks first clusters.old)
        (λ old new. (h : Header) → 104 ≤ length s.base → Spells parts.Source s.base h → directory_fault s.base ≡ None → (spans_in s.base ≡ None → spans_in new ≡ None) → OwnsAsListed s → Tight new) (D.world depot.old) (D.world depot.new)) }
{
    settled_is_tight();
    clear_entry(depot, file, spot)?;
    clusters.give_back(index);
    clusters.settle(depot)
}
