//! The target of a job, as the core sees it.

ghost use Rattle.std.specs.Prelude.{◌≡◌, ◌≢◌, ◌⊎◌, ◌<◌, ℕ, List, Option, Some, Bool, true, IsTrue, OnOk, OnErr};
ghost use Rattle.disk_model.specs.World.{World, Runs, only_file, Holds, EachNow, EachSinceSync, FileFailed, IsSpared};
ghost use Rattle.image_model.specs.Backups.{Backup};
ghost use Rattle.core_layers.specs.Layers.{ClaimsNothing, HasUnit, IsSealedFile};

use disk_model::{Depot, Failed};

/// The target of a job.
pub trait Target {
    ghost file: { Self → ℕ };

    /// Whether it was begun.
    ghost begun: { Self → Bool };

    /// What it knows of its file, which claims nothing.
    ghost holds: { Self → World → Type 0 };

    /// What a unit of it holds, where it was copied.
    ghost unit: { Self → ℕ → Option (List ℕ) };

    /// Copies a unit. A target that wasn't begun is synced, begun and synced first. Up to the first sync a crash leaves what it might have left
    /// before, and from then on a file that claims nothing. One that was begun needs no sync. Whatever it answers, it can go on.
    fn put_unit<D: Depot>(&mut self, depot: &mut D, n: u64, bytes: &[u8]) -> Result<(), Failed>
        requires given { file self.old < (D.world depot.old).given }
        ensures goes { IsTrue (D.world depot.old).tells → holds self.old (D.world depot.old) → holds self.new (D.world depot.new) }
        ensures within { IsTrue (D.world depot.old).tells → holds self.old (D.world depot.old) → EachSinceSync (D.world depot.old) (D.world depot.new) (file self.old) ClaimsNothing }
        ensures copied { OnOk result (unit self.new n ≡ Some bytes.now) }
        ensures others { (m : ℕ) → m ≢ n → unit self.new m ≡ unit self.old m }
        ensures done { OnOk result (begun self.new ≡ true) }
        ensures stays { begun self.old ≡ true → begun self.new ≡ true }
        ensures cause { OnErr result (FileFailed (file self.old) (D.world depot.old) (D.world depot.new)) }
        ensures file { file self.new ≡ file self.old }
        ensures run { Runs (only_file (file self.old)) (D.world depot.old) (D.world depot.new) };

    /// The backup that a seal makes of it.
    ghost seals: { Self → World → Backup };

    /// Seals it: from its first sync on each crash leaves it claiming nothing, or sealed; after an Ok it is sealed.
    fn seal<D: Depot>(&mut self, depot: &mut D) -> Result<(), Failed>
        requires given { file self.old < (D.world depot.old).given }
        ensures seen { let b = seals self.old (D.world depot.old) in IsTrue (D.world depot.old).tells → holds self.old (D.world depot.old) →
            ClaimsNothing ((D.world depot.new).seen (file self.old)) ⊎ IsSealedFile b ((D.world depot.new).seen (file self.old)) }
        ensures within { let b = seals self.old (D.world depot.old) in IsTrue (D.world depot.old).tells → holds self.old (D.world depot.old) →
            EachSinceSync (D.world depot.old) (D.world depot.new) (file self.old) (λ c. ClaimsNothing c ⊎ IsSealedFile b c) }
        ensures done { OnOk result (IsTrue (D.world depot.old).tells → holds self.old (D.world depot.old) →
            Holds (file self.old) (IsSealedFile (seals self.old (D.world depot.old))) (IsSealedFile (seals self.old (D.world depot.old))) (D.world depot.new)) }
        ensures cause { OnErr result (FileFailed (file self.old) (D.world depot.old) (D.world depot.new)) }
        ensures file { file self.new ≡ file self.old }
        ensures run { Runs (only_file (file self.old)) (D.world depot.old) (D.world depot.new) };

    /// The backup that a seal makes has just the units that were copied, and reads as they do.
    ghost reads: { (target : Self) (w : World) (n : ℕ) → holds target w → HasUnit (seals target w) n (unit target n) };

    /// Reads give a file that claims nothing.
    ghost claims: { (target : Self) (w : World) → holds target w → IsTrue w.tells → ClaimsNothing (w.seen (file target)) };

    /// Once it was begun, so does each crash.
    ghost crashes: { (target : Self) (w : World) → holds target w → begun target ≡ true → EachNow w (file target) ClaimsNothing };

    /// Calls on other files, prints and look-ups keep what it knows.
    ghost spared: { (target : Self) (old new : World) → IsSpared old new (file target) → holds target old → holds target new };
}
