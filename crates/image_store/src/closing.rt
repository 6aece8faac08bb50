//! Closing.

ghost use Rattle.std.specs.Prelude.{◌≡◌, ◌<◌, ℕ, List, Some, None, Err, IfErr, OnOk, IsTrue};
ghost use Rattle.image_model.specs.declared.refusals.CloseRefusal.TheVariants.{Broken};
ghost use Rattle.disk_model.specs.World.{World, Runs, only_file, EachSince, Holds, IsQuiet};
ghost use Rattle.image_store.specs.Closing.{NotClosedBy, IsAtRest};
ghost use Rattle.image_store.specs.Images.{file_of, IsInOrder, IsMixture, KeepsFirst, Stands};

use crate::source::Source;
use disk_model::Depot;
use image_model::CloseRefusal;

impl Source {
    /// Ends a session: syncs, and counts each cluster that something refers to once, and no other. A source that broke is left as it is.
    pub fn close<D: Depot>(self, depot: &mut D) -> Result<(), CloseRefusal>
        requires given { file_of self < (D.world depot.old).given }
        ensures since { (disk : List ℕ) (mixed : List (List ℕ)) → Stands self disk mixed (D.world depot.old) →
            EachSince (D.world depot.new) (D.world depot.old).now (file_of self) (IsMixture self.id self.epoch mixed) }
        ensures first { (disk : List ℕ) (mixed : List (List ℕ)) → IsTrue (D.world depot.old).tells → Stands self disk mixed (D.world depot.old) → KeepsFirst self (D.world depot.old) (D.world depot.new) }
        ensures seen { (disk : List ℕ) (mixed : List (List ℕ)) → IsTrue (D.world depot.old).tells → Stands self disk mixed (D.world depot.old) →
            IsInOrder self.id self.epoch disk ((D.world depot.new).seen (file_of self)) }
        ensures done { OnOk result ((disk : List ℕ) (mixed : List (List ℕ)) → IsTrue (D.world depot.old).tells → Stands self disk mixed (D.world depot.old) →
            Holds (file_of self) (IsAtRest self disk) (IsAtRest self disk) (D.world depot.new)) }
        ensures whole { OnOk result (self.broken ≡ None) }
        ensures broken { (event : ℕ) → self.broken ≡ Some event → (result ≡ Err (Broken event)) × (D.world depot.new ≡ D.world depot.old) }
        ensures quiet { OnOk result (IsQuiet (D.world depot.old) (D.world depot.new)) }
        ensures cause { IfErr result (λ why. NotClosedBy why self (D.world depot.old) (D.world depot.new)) }
        ensures run { Runs (only_file (file_of self)) (D.world depot.old) (D.world depot.new) }
    {
        if let Some(event) = self.broken {
            return Err(CloseRefusal::Broken(event));
        }
        let mut clusters = self.clusters;
        match clusters.settle(depot) {
            Ok(()) => Ok(()),
            Err(_) => Err(CloseRefusal::Failed),
        }
    }
}
