//! What a guest asks of its disk.

ghost use Rattle.std.specs.Prelude.{◌≡◌, ◌≢◌, ℕ, ◌+◌, ◌<◌, ◌≤◌, List, [], ◌∷◌, length, replicate, Err, None, IfOk, OnOk, OnErr, IsTrue};
ghost use Rattle.disk_model.specs.Files.{reading};
ghost use Rattle.disk_model.specs.World.{World, Runs, only_file, EachSince, FileFailed, IsQuiet};
ghost use Rattle.disk_model.specs.declared.depot.WriteRefusal.TheVariants as refusals;
ghost use Rattle.file_device.specs.Calls.{Looks};
ghost use Rattle.image_model.specs.Space.{Store, need, store_written, store_zeroed};
ghost use Rattle.image_store.specs.Images.{file_of, IsMixture, KeepsFirst, Stands, HasSpace};
ghost use Rattle.image_store.specs.Requests.{disk_now, Leaves, IsSameSource, MayBreak, SpendsUpTo, broken_in};

use crate::source::Source;
use disk_model::{Depot, Failed, WriteRefusal};
use image_calls::rest;
use qc_map::{Failing, NotWritten};

impl Source {
    /// Reads bytes of the disk.
    pub fn read<D: Depot>(&mut self, depot: &mut D, at: u64, out: &mut [u8]) -> Result<(), Failed>
        requires given { file_of self.old < (D.world depot.old).given }
        requires inside { at + length out.old ≤ self.old.map.size }
        ensures bytes { OnOk result ((disk : List ℕ) (mixed : List (List ℕ)) → IsTrue (D.world depot.old).tells → Stands self.old disk mixed (D.world depot.old) → out.new ≡ reading disk at (length out.old)) }
        ensures same { self.new ≡ self.old }
        ensures looks { Looks (file_of self.old) (D.world depot.old) (D.world depot.new) result }
    {
        self.map.read(depot, at, out)
    }

    /// How many clusters a write of a range needs: one for each cluster that it touches and that has no bytes stored, and one for each table
    /// of theirs that isn't there.
    pub fn need<D: Depot>(&mut self, depot: &mut D, at: u64, length: u64) -> Result<u64, Failed>
        requires given { file_of self.old < (D.world depot.old).given }
        requires inside { at + length ≤ self.old.map.size }
        ensures need { IfOk result (λ n. (disk : List ℕ) (mixed : List (List ℕ)) (store : Store) → IsTrue (D.world depot.old).tells → Stands self.old disk mixed (D.world depot.old) →
            HasSpace self.old ((D.world depot.old).seen (file_of self.old)) store → n ≡ need store (record { at = at; size = length })) }
        ensures same { self.new ≡ self.old }
        ensures looks { Looks (file_of self.old) (D.world depot.old) (D.world depot.new) result }
    {
        self.map.need(depot, at, length)
    }

    /// Writes bytes to the disk. `NoRoom` comes exactly where more clusters are needed than can be handed out, and changes nothing. Whatever it
    /// answers, what the range reads as is told, and a crash leaves each sector as before or as it reads now.
    pub fn write<D: Depot>(
        &mut self,
        depot: &mut D,
        at: u64,
        bytes: &[u8],
    ) -> Result<(), WriteRefusal>
        requires given { file_of self.old < (D.world depot.old).given }
        requires inside { at + length bytes.now ≤ self.old.map.size }
        ensures leaves { (disk : List ℕ) (mixed : List (List ℕ)) → IsTrue (D.world depot.old).tells → Stands self.old disk mixed (D.world depot.old) →
            Leaves self.old self.new at bytes.now (disk_now self.old at (length bytes.now) (D.world depot.new)) disk mixed (D.world depot.old) (D.world depot.new) }
        ensures done { OnOk result ((disk : List ℕ) (mixed : List (List ℕ)) → IsTrue (D.world depot.old).tells → Stands self.old disk mixed (D.world depot.old) →
            disk_now self.old at (length bytes.now) (D.world depot.new) ≡ bytes.now) }

        // Kinds, tables and room.
        ensures space { (disk : List ℕ) (mixed : List (List ℕ)) (was is : Store) → IsTrue (D.world depot.old).tells → Stands self.old disk mixed (D.world depot.old) →
            HasSpace self.old ((D.world depot.old).seen (file_of self.old)) was → HasSpace self.new ((D.world depot.new).seen (file_of self.old)) is →
            SpendsUpTo was (store_written was (record { at = at; size = length bytes.now })) is (need was (record { at = at; size = length bytes.now })) }
        ensures spent { OnOk result ((disk : List ℕ) (mixed : List (List ℕ)) (was : Store) → IsTrue (D.world depot.old).tells → Stands self.old disk mixed (D.world depot.old) →
            HasSpace self.old ((D.world depot.old).seen (file_of self.old)) was → need was (record { at = at; size = length bytes.now }) ≤ was.room
            × HasSpace self.new ((D.world depot.new).seen (file_of self.old)) (store_written was (record { at = at; size = length bytes.now }))) }
        ensures short { result ≡ Err refusals.NoRoom → (disk : List ℕ) (mixed : List (List ℕ)) (was : Store) → IsTrue (D.world depot.old).tells → Stands self.old disk mixed (D.world depot.old) →
            HasSpace self.old ((D.world depot.old).seen (file_of self.old)) was → was.room < need was (record { at = at; size = length bytes.now }) }
        ensures kept { result ≡ Err refusals.NoRoom → (disk : List ℕ) (mixed : List (List ℕ)) → IsTrue (D.world depot.old).tells → Stands self.old disk mixed (D.world depot.old) →
            (self.new ≡ self.old) × ((D.world depot.new).seen (file_of self.old) ≡ (D.world depot.old).seen (file_of self.old)) }

        ensures breaks { MayBreak self.old self.new (D.world depot.old) (D.world depot.new) }
        ensures same { IsSameSource self.old self.new }
        ensures failed { result ≡ Err refusals.Failed → FileFailed (file_of self.old) (D.world depot.old) (D.world depot.new) }
        ensures quiet { result ≢ Err refusals.Failed → IsQuiet (D.world depot.old) (D.world depot.new) × (self.new.broken ≡ self.old.broken) }
        ensures run { Runs (only_file (file_of self.old)) (D.world depot.old) (D.world depot.new) }
    {
        match self.map.write(depot, &mut self.clusters, at, bytes) {
            Ok(()) => Ok(()),
            Err(NotWritten::NoRoom) => Err(WriteRefusal::NoRoom),
            Err(NotWritten::Failed(Failing::Data)) => Err(WriteRefusal::Failed),
            Err(NotWritten::Failed(Failing::Tables)) => {
                self.breaks();
                Err(WriteRefusal::Failed)
            }
        }
    }

    /// Zeroes bytes of the disk: clusters that it covers whole become holes, and in stored ones that it covers in part zeros are written. It
    /// needs no cluster.
    pub fn zero<D: Depot>(&mut self, depot: &mut D, at: u64, length: u64) -> Result<(), Failed>
        requires given { file_of self.old < (D.world depot.old).given }
        requires inside { at + length ≤ self.old.map.size }
        ensures leaves { (disk : List ℕ) (mixed : List (List ℕ)) → IsTrue (D.world depot.old).tells → Stands self.old disk mixed (D.world depot.old) →
            Leaves self.old self.new at (replicate length 0) (disk_now self.old at length (D.world depot.new)) disk mixed (D.world depot.old) (D.world depot.new) }
        ensures done { OnOk result ((disk : List ℕ) (mixed : List (List ℕ)) → IsTrue (D.world depot.old).tells → Stands self.old disk mixed (D.world depot.old) →
            disk_now self.old at length (D.world depot.new) ≡ replicate length 0) }
        ensures space { (disk : List ℕ) (mixed : List (List ℕ)) (was is : Store) → IsTrue (D.world depot.old).tells → Stands self.old disk mixed (D.world depot.old) →
            HasSpace self.old ((D.world depot.old).seen (file_of self.old)) was → HasSpace self.new ((D.world depot.new).seen (file_of self.old)) is →
            SpendsUpTo was (store_zeroed self.old.map.size was (record { at = at; size = length })) is 0 }
        ensures cleared { OnOk result ((disk : List ℕ) (mixed : List (List ℕ)) (was : Store) → IsTrue (D.world depot.old).tells → Stands self.old disk mixed (D.world depot.old) →
            HasSpace self.old ((D.world depot.old).seen (file_of self.old)) was →
            HasSpace self.new ((D.world depot.new).seen (file_of self.old)) (store_zeroed self.old.map.size was (record { at = at; size = length }))) }
        ensures breaks { MayBreak self.old self.new (D.world depot.old) (D.world depot.new) }
        ensures same { IsSameSource self.old self.new }
        ensures failed { OnErr result (FileFailed (file_of self.old) (D.world depot.old) (D.world depot.new)) }
        ensures quiet { OnOk result (IsQuiet (D.world depot.old) (D.world depot.new) × (self.new.broken ≡ self.old.broken)) }
        ensures run { Runs (only_file (file_of self.old)) (D.world depot.old) (D.world depot.new) }
    {
        match self.map.zero(depot, &mut self.clusters, at, length) {
            Ok(()) => Ok(()),
            Err(Failing::Data) => Err(Failed),
            Err(Failing::Tables) => {
                self.breaks();
                Err(Failed)
            }
        }
    }

    /// Syncs the image: what was written before lasts from then on.
    pub fn flush<D: Depot>(&mut self, depot: &mut D) -> Result<(), Failed>
        requires given { file_of self.old < (D.world depot.old).given }
        ensures done { OnOk result ((disk : List ℕ) (mixed : List (List ℕ)) → Stands self.old disk mixed (D.world depot.old) → Stands self.new disk (disk ∷ []) (D.world depot.new)) }
        ensures undone { OnErr result ((disk : List ℕ) (mixed : List (List ℕ)) → Stands self.old disk mixed (D.world depot.old) → Stands self.new disk mixed (D.world depot.new)) }
        ensures since { (disk : List ℕ) (mixed : List (List ℕ)) → Stands self.old disk mixed (D.world depot.old) →
            EachSince (D.world depot.new) (D.world depot.old).now (file_of self.old) (IsMixture self.old.id self.old.epoch mixed) }
        ensures first { (disk : List ℕ) (mixed : List (List ℕ)) → IsTrue (D.world depot.old).tells → Stands self.old disk mixed (D.world depot.old) → KeepsFirst self.old (D.world depot.old) (D.world depot.new) }
        ensures clusters { self.new.clusters ≡ self.old.clusters }
        ensures file { (D.world depot.new).seen (file_of self.old) ≡ (D.world depot.old).seen (file_of self.old) }
        ensures breaks { OnErr result (MayBreak self.old self.new (D.world depot.old) (D.world depot.new) × (self.new.broken ≢ None)) }
        ensures whole { OnOk result (self.new ≡ self.old) }
        ensures same { IsSameSource self.old self.new }
        ensures failed { OnErr result (FileFailed (file_of self.old) (D.world depot.old) (D.world depot.new)) }
        ensures quiet { OnOk result (IsQuiet (D.world depot.old) (D.world depot.new)) }
        ensures run { Runs (only_file (file_of self.old)) (D.world depot.old) (D.world depot.new) }
    {
        match rest(depot, self.file) {
            Ok(()) => Ok(()),
            Err(_) => {
                self.breaks();
                Err(Failed)
            }
        }
    }

    // It breaks in the event that is carried out, unless it broke before.
    fn breaks(&mut self)
        ensures { self.new ≡ record self.old { broken = broken_in self.old } }
    {
        if self.broken.is_none() {
            self.broken = Some(self.event);
        }
    }
}
