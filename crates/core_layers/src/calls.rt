//! What follows for a history: a guest's write with the copy before it, and a seal.

ghost use Rattle.std.specs.Prelude.{◌≡◌, ◌+◌, ◌<◌, ◌≤◌, ℕ, List, length, All, Err, IsTrue, IsOk, OnOk, OnErr};
ghost use Rattle.disk_model.specs.World.{Holds, EachNow, EachSince, FileFailed};
ghost use Rattle.disk_model.specs.declared.depot.WriteRefusal.TheVariants as refusals;
ghost use Rattle.plain_model.specs.History.{History, IsHistory, now, timeline_of};
ghost use Rattle.plain_model.specs.Lawful.{IsOfEpoch};
ghost use Rattle.plain_model.specs.Records.{RecordIsTrue};
ghost use Rattle.core_node.specs.Files.{IsLawfulTarget};
ghost use Rattle.core_layers.specs.Layers.{IsSealedFile, CarriesWrite};

use crate::image::Image;
use crate::target::Target;
use disk_model::{Depot, Failed, WriteRefusal};

/// A guest's write while a job runs: a unit is copied first, and a failed copy doesn't stop the write.
pub fn copy_and_write<I: Image, T: Target, D: Depot>(
    depot: &mut D,
    image: &mut I,
    target: &mut T,
    n: u64,
    unit: &[u8],
    at: u64,
    bytes: &[u8],
) -> Result<(), WriteRefusal>
    requires given { (I.facts image.old).file < (D.world depot.old).given }
    requires target { T.file target.old < (D.world depot.old).given }
    requires inside { at + length bytes.now ≤ (I.facts image.old).size }
    requires apart { (I.facts image.old).file ≡ T.file target.old → ⊥ }
    ensures carries { (h : History) (mixed : List (List ℕ)) → IsTrue (D.world depot.old).tells → IsHistory h → All (IsOfEpoch (I.facts image.old).directory.epoch) (timeline_of h).entries →
        I.holds image.old (D.world depot.old) (now h) mixed → T.holds target.old (D.world depot.old) → EachNow (D.world depot.old) (T.file target.old) (IsLawfulTarget (I.facts image.old).id h) →
        CarriesWrite (I.facts image.old).file (T.file target.old) (I.facts image.old).id (I.facts image.old).directory at bytes.now (IsOk result) h mixed
        (I.holds image.new (D.world depot.new)) (T.holds target.new (D.world depot.new)) (D.world depot.old) (D.world depot.new) }
    ensures cause { result ≡ Err refusals.Failed → FileFailed (I.facts image.old).file (D.world depot.old) (D.world depot.new) }
{
    let _copied = target.put_unit(depot, n, unit);
    image.write(depot, at, bytes)
}

/// A seal, whose record is true for the history.
pub fn seal<T: Target, D: Depot>(depot: &mut D, target: &mut T) -> Result<(), Failed>
    requires given { T.file target.old < (D.world depot.old).given }
    ensures lawful { (id : List ℕ) (h : History) → IsTrue (D.world depot.old).tells → RecordIsTrue h (T.seals target.old (D.world depot.old)) →
        T.holds target.old (D.world depot.old) → EachNow (D.world depot.old) (T.file target.old) (IsLawfulTarget id h) →
        EachSince (D.world depot.new) (D.world depot.old).now (T.file target.old) (IsLawfulTarget id h) × Holds (T.file target.old) (IsLawfulTarget id h) (IsLawfulTarget id h) (D.world depot.new) }
    ensures done { OnOk result (IsTrue (D.world depot.old).tells → T.holds target.old (D.world depot.old) →
        Holds (T.file target.old) (IsSealedFile (T.seals target.old (D.world depot.old))) (IsSealedFile (T.seals target.old (D.world depot.old))) (D.world depot.new)) }
{
    target.seal(depot)
}
