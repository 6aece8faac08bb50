//! What a guest is told of its disk.

ghost use Rattle.std.specs.Prelude.{◌≡◌, ℕ, ◌+◌, ◌<◌, ◌≤◌, ◌++◌, List, vec_len, vec_capacity, OnOk, IsTrue};
ghost use Rattle.bitmap_model.specs.Runs.{first_runs, runs_of};
ghost use Rattle.disk_model.specs.World.{World};
ghost use Rattle.file_device.specs.Calls.{Looks};
ghost use Rattle.image_model.specs.Space.{Store};
ghost use Rattle.qc_map.specs.Telling.{flags_of};
ghost use Rattle.image_store.specs.Images.{file_of, Stands, HasSpace};

use crate::source::Source;
use disk_model::{Depot, Failed};
use span_algebra::Runs;

impl Source {
    /// Appends the first 1,024 runs of what NBD tells of a range: 3 for holes, 2 for zeros that clusters are kept for, 0 for data. There
    /// is room in `out` for as many.
    pub fn kinds<D: Depot>(
        &mut self,
        depot: &mut D,
        at: u64,
        length: u64,
        out: &mut Runs,
    ) -> Result<(), Failed>
        requires given { file_of self.old < (D.world depot.old).given }
        requires some { 0 < length }
        requires inside { at + length ≤ self.old.map.size }
        requires room { vec_len out.old.items + 1024 ≤ vec_capacity out.old.items }
        ensures runs { OnOk result ((disk : List ℕ) (mixed : List (List ℕ)) (store : Store) → IsTrue (D.world depot.old).tells → Stands self.old disk mixed (D.world depot.old) →
            HasSpace self.old ((D.world depot.old).seen (file_of self.old)) store →
            out.new.items.items ≡ out.old.items.items ++ first_runs (runs_of store.cluster (flags_of store) (record { at = at; size = length }))) }
        ensures capacity { vec_capacity out.new.items ≡ vec_capacity out.old.items }
        ensures same { self.new ≡ self.old }
        ensures looks { Looks (file_of self.old) (D.world depot.old) (D.world depot.new) result }
    {
        self.map.kinds(depot, at, length, out)
    }
}
