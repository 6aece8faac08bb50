//! Adopting.

ghost use Rattle.std.specs.Prelude.{◌≡◌, ◌≢◌, ◌<◌, List, ℕ, Err, IfErr, OnOk, IsTrue};
ghost use Rattle.disk_model.specs.World.{World, Runs, reads_of, only_file, EachSinceSync, FileFailed, Holds, IsQuiet};
ghost use Rattle.image_store.specs.Images.{IsInOrder};
ghost use Rattle.image_store.specs.Opening.{IsForeign, IsAdopting, RewritesHeader};
ghost use Rattle.image_store.specs.Refusals.{IsRefused};
ghost use Rattle.image_store.specs.declared.finding.Wanted.TheVariants.{Adopted};
ghost use Rattle.image_store.specs.declared.refusals.NotOpened.TheVariants as refusals;

use crate::finding::{Wanted, find};
use crate::opening::sector_with;
use crate::refusals::NotOpened;
use disk_model::{Depot, FileNo};
use first_sector::rewrite_first_sector;
use std::alloc::Global;

/// Makes an image of another program a source of this id, with epoch 0, by one sector of the header, between two syncs. It passes the rules
/// of an opening, and has no id yet; an image that is refused isn't touched.
pub fn adopt<D: Depot>(
    alloc: Global,
    depot: &mut D,
    file: FileNo,
    disk: [u8; 16],
) -> Result<(), NotOpened>
    requires given { file.0 < (D.world depot.old).given }
    ensures adopted { OnOk result (IsTrue (D.world depot.old).tells → (content : List ℕ) × IsForeign content ((D.world depot.old).seen file.0)
        × Holds file.0 (IsInOrder disk 0 content) (IsInOrder disk 0 content) (D.world depot.new)
        × RewritesHeader disk 0 ((D.world depot.old).seen file.0) ((D.world depot.new).seen file.0)) }
    ensures since { (content : List ℕ) → IsTrue (D.world depot.old).tells → IsForeign content ((D.world depot.old).seen file.0) →
        EachSinceSync (D.world depot.old) (D.world depot.new) file.0 (IsAdopting disk content ((D.world depot.old).seen file.0)) }
    ensures seen { (content : List ℕ) → IsTrue (D.world depot.old).tells → IsForeign content ((D.world depot.old).seen file.0) →
        IsAdopting disk content ((D.world depot.old).seen file.0) ((D.world depot.new).seen file.0) }
    ensures refused { IfErr result (λ why. IsTrue (D.world depot.old).tells → IsRefused Adopted ((D.world depot.old).seen file.0) why) }
    ensures untouched { IfErr result (λ why. why ≢ refusals.Failed → Runs (reads_of file.0) (D.world depot.old) (D.world depot.new)) }
    ensures failed { result ≡ Err refusals.Failed → FileFailed file.0 (D.world depot.old) (D.world depot.new) }
    ensures quiet { result ≢ Err refusals.Failed → IsQuiet (D.world depot.old) (D.world depot.new) }
    ensures run { Runs (only_file file.0) (D.world depot.old) (D.world depot.new) }
{
    let found = find(alloc, depot, file, Wanted::Adopted)?;
    let sector = sector_with(found.header, disk, 0);
    rewrite_first_sector(depot, file, &sector)?;
    Ok(())
}
