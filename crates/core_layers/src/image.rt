//! The source's image, as the core sees it.

ghost use Rattle.std.specs.Prelude.{◌≡◌, ◌≢◌, ◌+◌, ◌<◌, ◌≤◌, ◌++◌, ◌∷◌, [], ℕ, List, Option, None, Err, length, map, replicate, vec_len, vec_capacity, IsTrue, IfOk, IfErr, OnOk, OnErr, All, Contains};
ghost use Rattle.disk_model.specs.Files.{reading};
ghost use Rattle.disk_model.specs.World.{World, Runs, reads_of, only_file, Holds, EachSince, EachSinceSync, FileFailed, IsSpared};
ghost use Rattle.disk_model.specs.declared.depot.WriteRefusal.TheVariants as refusals;
ghost use Rattle.span_algebra.specs.Timelines.{Extent};
ghost use Rattle.bitmap_model.specs.Runs.{first_runs, runs_of};
ghost use Rattle.qc_layout.specs.Directory.{directory_in};
ghost use Rattle.image_model.specs.Space.{Store, IsShapedStore, allocation_flags, need, store_written, store_zeroed};
ghost use Rattle.image_model.specs.Images.{IsSourceOf};
ghost use Rattle.image_model.specs.Refusals.{FileFault, IsSourceFault};
ghost use Rattle.core_node.specs.Rest.{Directory};
ghost use Rattle.core_node.specs.Ends.{NotOpenedFor, IsHeadKnown, KeepsHeader};
ghost use Rattle.core_layers.specs.Layers.{Facts, IsInOrder, NoneTrusted, IsMixed, IsFound, KeepsOrMarks, WritesDisk, Spends, Opens, IsClosed, NotClosedBy, MayBreak, KeepsHead};

use disk_model::{Depot, Failed, FileNo, WriteRefusal};
use image_model::{CloseRefusal, OpenRefusal};
use std::alloc::Global;

/// The image of a source that stores no bitmaps, over bytes and disks: no history is known here.
pub trait Image: Sized {
    /// What no request changes.
    ghost facts: { Self → Facts };

    /// The event that is carried out, and the one in which it broke.
    ghost event: { Self → ℕ };

    ghost broken: { Self → Option ℕ };

    /// How many clusters can be handed out.
    ghost room: { Self → ℕ };

    /// The kinds of the disk's clusters and the tables that are there, as reads give them, and that room.
    ghost space: { Self → World → Store };

    /// What it knows of its file: it stands for this disk, and a crash mixes no disks but these.
    ghost holds: { Self → World → List ℕ → List (List ℕ) → Type 0 };

    /// Opens an image that stores no bitmaps, and draws the next epoch.
    fn open<D: Depot>(alloc: Global, depot: &mut D, file: FileNo) -> Result<Self, OpenRefusal>
        requires given { file.0 < (D.world depot.old).given }
        requires bare { IsTrue (D.world depot.old).tells → directory_in ((D.world depot.old).seen file.0) ≡ None }
        ensures begins { IfOk result (λ image. ((facts image).file ≡ file.0) × (event image ≡ 0) × (broken image ≡ None)) }
        ensures faultless { IfOk result (λ image. IsTrue (D.world depot.old).tells → (fault : FileFault) → IsSourceFault ((D.world depot.old).seen file.0) fault → ⊥) }
        ensures opened { IfOk result (λ image. (id : List ℕ) (d : Directory) (disk : List ℕ) → IsTrue (D.world depot.old).tells → IsInOrder id d disk ((D.world depot.old).seen file.0) →
            Opens id d disk file.0 (facts image) (space image (D.world depot.new)) (holds image (D.world depot.new)) (D.world depot.old) (D.world depot.new)) }

        // From its first sync on each crash leaves the very disk, with the directory as it was or marked, and so do reads, whatever it answers.
        ensures since { (id : List ℕ) (d : Directory) (disk : List ℕ) → IsTrue (D.world depot.old).tells → IsInOrder id d disk ((D.world depot.old).seen file.0) →
            EachSinceSync (D.world depot.old) (D.world depot.new) file.0 (λ c. IsFound id d disk c × KeepsOrMarks ((D.world depot.old).seen file.0) d c) }
        ensures seen { (id : List ℕ) (d : Directory) (disk : List ℕ) → IsTrue (D.world depot.old).tells → IsInOrder id d disk ((D.world depot.old).seen file.0) →
            IsFound id d disk ((D.world depot.new).seen file.0) × KeepsOrMarks ((D.world depot.old).seen file.0) d ((D.world depot.new).seen file.0) }
        ensures cause { IfErr result (λ why. NotOpenedFor why file.0 (D.world depot.old) (D.world depot.new)) }
        ensures run { Runs (only_file file.0) (D.world depot.old) (D.world depot.new) };

    /// Bytes of the disk.
    fn size(&self) -> u64
        ensures { result ≡ (facts self.now).size };

    /// The event in which it broke.
    fn broken_at(&self) -> Option<u64>
        ensures { result ≡ broken self.now };

    /// Tells which event is carried out from now on.
    fn set_event(&mut self, number: u64)
        ensures facts { facts self.new ≡ facts self.old }
        ensures event { event self.new ≡ number }
        ensures broken { broken self.new ≡ broken self.old }
        ensures room { room self.new ≡ room self.old }
        ensures space { (w : World) → space self.new w ≡ space self.old w }
        ensures holds { (w : World) (disk : List ℕ) (mixed : List (List ℕ)) → holds self.old w disk mixed → holds self.new w disk mixed };

    /// Reads bytes of the disk.
    fn read<D: Depot>(&mut self, depot: &mut D, at: u64, out: &mut [u8]) -> Result<(), Failed>
        requires given { (facts self.old).file < (D.world depot.old).given }
        requires inside { at + length out.old ≤ (facts self.old).size }
        ensures bytes { OnOk result ((disk : List ℕ) (mixed : List (List ℕ)) → IsTrue (D.world depot.old).tells → holds self.old (D.world depot.old) disk mixed → out.new ≡ reading disk at (length out.old)) }
        ensures same { self.new ≡ self.old }
        ensures cause { OnErr result (FileFailed (facts self.old).file (D.world depot.old) (D.world depot.new)) }
        ensures run { Runs (reads_of (facts self.old).file) (D.world depot.old) (D.world depot.new) };

    /// Appends the first 1,024 runs of how a range is stored, in NBD's flags. There is room in `out` for as many.
    fn kinds<D: Depot>(
        &mut self,
        depot: &mut D,
        at: u64,
        length: u64,
        out: &mut span_algebra::Runs,
    ) -> Result<(), Failed>
        requires given { (facts self.old).file < (D.world depot.old).given }
        requires some { 0 < length }
        requires inside { at + length ≤ (facts self.old).size }
        requires room { vec_len out.old.items + 1024 ≤ vec_capacity out.old.items }
        ensures runs { OnOk result ((disk : List ℕ) (mixed : List (List ℕ)) → IsTrue (D.world depot.old).tells → holds self.old (D.world depot.old) disk mixed → (let store = space self.old (D.world depot.old) in
            out.new.items.items ≡ out.old.items.items ++ first_runs (runs_of store.cluster (map allocation_flags store.kinds) (record { at = at; size = length })))) }
        ensures capacity { vec_capacity out.new.items ≡ vec_capacity out.old.items }
        ensures same { self.new ≡ self.old }
        ensures cause { OnErr result (FileFailed (facts self.old).file (D.world depot.old) (D.world depot.new)) }
        ensures run { Runs (reads_of (facts self.old).file) (D.world depot.old) (D.world depot.new) };

    /// Writes bytes to the disk. `NoRoom` comes exactly where more clusters are needed than can be handed out, and where they are, nothing changes.
    /// What is left of a torn write is the same for all disks.
    fn write<D: Depot>(&mut self, depot: &mut D, at: u64, bytes: &[u8]) -> Result<(), WriteRefusal>
        requires given { (facts self.old).file < (D.world depot.old).given }
        requires inside { at + length bytes.now ≤ (facts self.old).size }
        ensures writes { IsTrue (D.world depot.old).tells → (left : List ℕ) × OnOk result (left ≡ bytes.now)
            × ((disk : List ℕ) (mixed : List (List ℕ)) → holds self.old (D.world depot.old) disk mixed →
            WritesDisk (facts self.old).file (facts self.old).id (facts self.old).directory at bytes.now left disk mixed (holds self.new (D.world depot.new)) (D.world depot.old) (D.world depot.new)) }
        ensures space { (disk : List ℕ) (mixed : List (List ℕ)) → IsTrue (D.world depot.old).tells → holds self.old (D.world depot.old) disk mixed → (let was = space self.old (D.world depot.old) in let e : Extent = record { at = at; size = length bytes.now } in
            Spends was (store_written was e) (space self.new (D.world depot.new)) (need was e)) }
        ensures spent { OnOk result ((disk : List ℕ) (mixed : List (List ℕ)) → IsTrue (D.world depot.old).tells → holds self.old (D.world depot.old) disk mixed → (let was = space self.old (D.world depot.old) in let e : Extent = record { at = at; size = length bytes.now } in
            need was e ≤ was.room × (space self.new (D.world depot.new) ≡ store_written was e))) }
        ensures short { result ≡ Err refusals.NoRoom → (disk : List ℕ) (mixed : List (List ℕ)) → IsTrue (D.world depot.old).tells → holds self.old (D.world depot.old) disk mixed → (let was = space self.old (D.world depot.old) in
            was.room < need was (record { at = at; size = length bytes.now })) }
        ensures kept { (disk : List ℕ) (mixed : List (List ℕ)) → IsTrue (D.world depot.old).tells → holds self.old (D.world depot.old) disk mixed → (let was = space self.old (D.world depot.old) in
            was.room < need was (record { at = at; size = length bytes.now }) → (self.new ≡ self.old) × ((D.world depot.new).seen (facts self.old).file ≡ (D.world depot.old).seen (facts self.old).file)) }
        ensures breaks { MayBreak (facts self.old).file (event self.old) (broken self.old) (broken self.new) (D.world depot.old) (D.world depot.new) }
        ensures failed { result ≡ Err refusals.Failed → FileFailed (facts self.old).file (D.world depot.old) (D.world depot.new) }
        ensures whole { result ≢ Err refusals.Failed → broken self.new ≡ broken self.old }
        ensures facts { facts self.new ≡ facts self.old }
        ensures event { event self.new ≡ event self.old }
        ensures head { (disk : List ℕ) (mixed : List (List ℕ)) → holds self.old (D.world depot.old) disk mixed → KeepsHead (facts self.old).file (space self.old (D.world depot.old)).cluster (D.world depot.old) (D.world depot.new) }
        ensures run { Runs (only_file (facts self.old).file) (D.world depot.old) (D.world depot.new) };

    /// Zeroes bytes of the disk. Clusters that are covered whole become holes, and it needs none.
    fn zero<D: Depot>(&mut self, depot: &mut D, at: u64, length: u64) -> Result<(), Failed>
        requires given { (facts self.old).file < (D.world depot.old).given }
        requires inside { at + length ≤ (facts self.old).size }
        ensures writes { IsTrue (D.world depot.old).tells → (left : List ℕ) × OnOk result (left ≡ replicate length 0)
            × ((disk : List ℕ) (mixed : List (List ℕ)) → holds self.old (D.world depot.old) disk mixed →
            WritesDisk (facts self.old).file (facts self.old).id (facts self.old).directory at (replicate length 0) left disk mixed (holds self.new (D.world depot.new)) (D.world depot.old) (D.world depot.new)) }
        ensures space { (disk : List ℕ) (mixed : List (List ℕ)) → IsTrue (D.world depot.old).tells → holds self.old (D.world depot.old) disk mixed → (let was = space self.old (D.world depot.old) in
            Spends was (store_zeroed (facts self.old).size was (record { at = at; size = length })) (space self.new (D.world depot.new)) 0) }
        ensures cleared { OnOk result ((disk : List ℕ) (mixed : List (List ℕ)) → IsTrue (D.world depot.old).tells → holds self.old (D.world depot.old) disk mixed → (let was = space self.old (D.world depot.old) in
            space self.new (D.world depot.new) ≡ store_zeroed (facts self.old).size was (record { at = at; size = length }))) }
        ensures breaks { MayBreak (facts self.old).file (event self.old) (broken self.old) (broken self.new) (D.world depot.old) (D.world depot.new) }
        ensures failed { OnErr result (FileFailed (facts self.old).file (D.world depot.old) (D.world depot.new)) }
        ensures whole { OnOk result (broken self.new ≡ broken self.old) }
        ensures facts { facts self.new ≡ facts self.old }
        ensures event { event self.new ≡ event self.old }
        ensures head { (disk : List ℕ) (mixed : List (List ℕ)) → holds self.old (D.world depot.old) disk mixed → KeepsHead (facts self.old).file (space self.old (D.world depot.old)).cluster (D.world depot.old) (D.world depot.new) }
        ensures run { Runs (only_file (facts self.old).file) (D.world depot.old) (D.world depot.new) };

    /// Writes zeros, as a write of as many bytes.
    fn write_zeros<D: Depot>(
        &mut self,
        depot: &mut D,
        at: u64,
        length: u64,
    ) -> Result<(), WriteRefusal>
        requires given { (facts self.old).file < (D.world depot.old).given }
        requires inside { at + length ≤ (facts self.old).size }
        ensures writes { IsTrue (D.world depot.old).tells → (left : List ℕ) × OnOk result (left ≡ replicate length 0)
            × ((disk : List ℕ) (mixed : List (List ℕ)) → holds self.old (D.world depot.old) disk mixed →
            WritesDisk (facts self.old).file (facts self.old).id (facts self.old).directory at (replicate length 0) left disk mixed (holds self.new (D.world depot.new)) (D.world depot.old) (D.world depot.new)) }
        ensures space { (disk : List ℕ) (mixed : List (List ℕ)) → IsTrue (D.world depot.old).tells → holds self.old (D.world depot.old) disk mixed → (let was = space self.old (D.world depot.old) in let e : Extent = record { at = at; size = length } in
            Spends was (store_written was e) (space self.new (D.world depot.new)) (need was e)) }
        ensures spent { OnOk result ((disk : List ℕ) (mixed : List (List ℕ)) → IsTrue (D.world depot.old).tells → holds self.old (D.world depot.old) disk mixed → (let was = space self.old (D.world depot.old) in let e : Extent = record { at = at; size = length } in
            need was e ≤ was.room × (space self.new (D.world depot.new) ≡ store_written was e))) }
        ensures short { result ≡ Err refusals.NoRoom → (disk : List ℕ) (mixed : List (List ℕ)) → IsTrue (D.world depot.old).tells → holds self.old (D.world depot.old) disk mixed → (let was = space self.old (D.world depot.old) in
            was.room < need was (record { at = at; size = length })) }
        ensures kept { (disk : List ℕ) (mixed : List (List ℕ)) → IsTrue (D.world depot.old).tells → holds self.old (D.world depot.old) disk mixed → (let was = space self.old (D.world depot.old) in
            was.room < need was (record { at = at; size = length }) → (self.new ≡ self.old) × ((D.world depot.new).seen (facts self.old).file ≡ (D.world depot.old).seen (facts self.old).file)) }
        ensures breaks { MayBreak (facts self.old).file (event self.old) (broken self.old) (broken self.new) (D.world depot.old) (D.world depot.new) }
        ensures failed { result ≡ Err refusals.Failed → FileFailed (facts self.old).file (D.world depot.old) (D.world depot.new) }
        ensures whole { result ≢ Err refusals.Failed → broken self.new ≡ broken self.old }
        ensures facts { facts self.new ≡ facts self.old }
        ensures event { event self.new ≡ event self.old }
        ensures head { (disk : List ℕ) (mixed : List (List ℕ)) → holds self.old (D.world depot.old) disk mixed → KeepsHead (facts self.old).file (space self.old (D.world depot.old)).cluster (D.world depot.old) (D.world depot.new) }
        ensures run { Runs (only_file (facts self.old).file) (D.world depot.old) (D.world depot.new) };

    /// Syncs the image: what was written before lasts from then on. Where that fails, the source is broken.
    fn sync<D: Depot>(&mut self, depot: &mut D) -> Result<(), Failed>
        requires given { (facts self.old).file < (D.world depot.old).given }
        ensures done { OnOk result ((disk : List ℕ) (mixed : List (List ℕ)) → holds self.old (D.world depot.old) disk mixed → holds self.new (D.world depot.new) disk (disk ∷ [])) }
        ensures undone { OnErr result ((disk : List ℕ) (mixed : List (List ℕ)) → holds self.old (D.world depot.old) disk mixed → holds self.new (D.world depot.new) disk mixed) }
        ensures since { (disk : List ℕ) (mixed : List (List ℕ)) → holds self.old (D.world depot.old) disk mixed →
            EachSince (D.world depot.new) (D.world depot.old).now (facts self.old).file (IsMixed (facts self.old).id (facts self.old).directory mixed) }
        ensures space { space self.new (D.world depot.new) ≡ space self.old (D.world depot.old) }
        ensures breaks { OnErr result (MayBreak (facts self.old).file (event self.old) (broken self.old) (broken self.new) (D.world depot.old) (D.world depot.new) × (broken self.new ≢ None)) }
        ensures failed { OnErr result (FileFailed (facts self.old).file (D.world depot.old) (D.world depot.new)) }
        ensures whole { OnOk result (broken self.new ≡ broken self.old) }
        ensures facts { facts self.new ≡ facts self.old }
        ensures event { event self.new ≡ event self.old }
        ensures head { (disk : List ℕ) (mixed : List (List ℕ)) → holds self.old (D.world depot.old) disk mixed → KeepsHead (facts self.old).file (space self.old (D.world depot.old)).cluster (D.world depot.old) (D.world depot.new) }
        ensures run { Runs (only_file (facts self.old).file) (D.world depot.old) (D.world depot.new) };

    /// Ends a session: syncs, and counts each cluster that something refers to once, and no other. One that broke is left as it is.
    fn close<D: Depot>(self, depot: &mut D) -> Result<(), CloseRefusal>
        requires given { (facts self).file < (D.world depot.old).given }
        ensures since { (disk : List ℕ) (mixed : List (List ℕ)) → holds self (D.world depot.old) disk mixed →
            EachSince (D.world depot.new) (D.world depot.old).now (facts self).file (λ c. IsMixed (facts self).id (facts self).directory mixed c × KeepsHeader ((D.world depot.old).seen (facts self).file) c) }
        ensures seen { (disk : List ℕ) (mixed : List (List ℕ)) → IsTrue (D.world depot.old).tells → holds self (D.world depot.old) disk mixed →
            IsInOrder (facts self).id (facts self).directory disk ((D.world depot.new).seen (facts self).file) × KeepsHeader ((D.world depot.old).seen (facts self).file) ((D.world depot.new).seen (facts self).file) }
        ensures done { OnOk result ((disk : List ℕ) (mixed : List (List ℕ)) → IsTrue (D.world depot.old).tells → holds self (D.world depot.old) disk mixed →
            IsClosed (facts self) (space self (D.world depot.old)) disk (D.world depot.old) (D.world depot.new)) }
        ensures whole { OnOk result (broken self ≡ None) }
        ensures cause { IfErr result (λ why. NotClosedBy why (facts self).file (broken self) (D.world depot.old) (D.world depot.new)) }
        ensures run { Runs (only_file (facts self).file) (D.world depot.old) (D.world depot.new) };

    // ---- laws

    /// The file is in order, as reads give it and in each crash.
    ghost in_order: { (image : Self) (w : World) (disk : List ℕ) (mixed : List (List ℕ)) → holds image w disk mixed →
        Holds (facts image).file (λ c. IsInOrder (facts image).id (facts image).directory disk c × NoneTrusted (facts image).directory) (IsMixed (facts image).id (facts image).directory mixed) w };

    /// Its clusters are those that the image shows.
    ghost has_space: { (image : Self) (w : World) (disk : List ℕ) (mixed : List (List ℕ)) → IsTrue w.tells → holds image w disk mixed →
        IsSourceOf (w.seen (facts image).file) disk (facts image).id (facts image).directory.epoch (space image w) × IsShapedStore (facts image).size (space image w) × ((space image w).room ≡ room image) };

    /// Each crash now leaves the first cluster that reads give.
    ghost has_head: { (image : Self) (w : World) (disk : List ℕ) (mixed : List (List ℕ)) → IsTrue w.tells → holds image w disk mixed → IsHeadKnown (facts image).file w };

    /// The disk now is among those that a crash may mix, and all are as long as it.
    ghost among: { (image : Self) (w : World) (disk : List ℕ) (mixed : List (List ℕ)) → holds image w disk mixed → Contains mixed disk };

    ghost sizes: { (image : Self) (w : World) (disk : List ℕ) (mixed : List (List ℕ)) → holds image w disk mixed → (length disk ≡ (facts image).size) × All (λ other. length other ≡ (facts image).size) mixed };

    /// A crash may be said to mix one more.
    ghost mixes_more: { (image : Self) (w : World) (disk : List ℕ) (mixed : List (List ℕ)) (other : List ℕ) → length other ≡ (facts image).size → holds image w disk mixed → holds image w disk (mixed ++ other ∷ []) };

    /// No bitmap is stored.
    ghost bare: { (image : Self) (w : World) (disk : List ℕ) (mixed : List (List ℕ)) → holds image w disk mixed → (facts image).directory.entries ≡ [] };

    /// Calls on other files, prints and look-ups keep it.
    ghost spared: { (image : Self) (old new : World) (disk : List ℕ) (mixed : List (List ℕ)) → IsSpared old new (facts image).file → holds image old disk mixed → holds image new disk mixed };

    ghost same_space: { (image : Self) (old new : World) → new.seen (facts image).file ≡ old.seen (facts image).file → space image new ≡ space image old };
}
