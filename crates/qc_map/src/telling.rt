//! Kinds of the disk's clusters, as runs of what NBD tells of them.

ghost use Rattle.std.specs.Prelude.{◌≡◌, ℕ, ◌+◌, ◌*◌, ◌^◌, ◌<◌, ◌≤◌, ◌++◌, List, length, vec_len, vec_capacity, IfSome, OnOk};
ghost use Rattle.span_algebra.specs.declared.lists.Run.{Run};
ghost use Rattle.bitmap_model.specs.Runs.{first_runs, runs_of};
ghost use Rattle.file_device.specs.Calls.{Looks};
ghost use Rattle.file_device.specs.File.{file_of, Gives};
ghost use Rattle.image_model.specs.Clusters.{size};
ghost use Rattle.image_model.specs.Space.{Store};
ghost use Rattle.map_rows.specs.Stores.{HasStore};
ghost use Rattle.qc_map.specs.Mapping.{IsMapping, mapping, shape_by};
ghost use Rattle.qc_map.specs.Telling.{range, flags_of, Tells, GoesOn, IsPiece, IsRowAt};

use crate::layout::Layout;
use disk_model::{Depot, Failed};
use map_rows::{Part, cluster_of, flags_at};
use span_algebra::{Run, Runs};

/// How many runs one call appends at most.
const RUNS: usize = 1024;

// Goes on by a piece behind the run that is held: it joins that where both have the same flags, else that is appended. It gives the run
// that is held then, or none where 1,024 have been appended behind those that were there from the start.
fn add(out: &mut Runs, start: usize, last: Run, next: Run) -> Option<Run>
    requires some { 0 < next.length }
    requires short { last.length + next.length < 2 ^ 64 }
    requires order { start ≤ vec_len out.old.items }
    requires few { vec_len out.old.items < start + 1024 }
    requires room { start + 1024 ≤ vec_capacity out.old.items }
    ensures goes { (g : ℕ) (flags : List ℕ) (at d k : ℕ) (old : List Run) → 0 < g → length old ≡ start → Tells g flags at d old out.old.items.items last → IsPiece g flags at d k next →
        GoesOn g flags at (d + next.length) old out.new.items.items result }
    ensures capacity { vec_capacity out.new.items ≡ vec_capacity out.old.items }
    ensures order { start ≤ vec_len out.new.items }
    ensures few { IfSome result (λ _. vec_len out.new.items < start + 1024) }
    ensures some { IfSome result (λ r. 0 < r.length) }
    ensures short { IfSome result (λ r. r.length ≤ last.length + next.length) }
{
    if last.length == 0 {
        return Some(next);
    }
    if last.flags == next.flags {
        return Some(Run {
            length: last.length + next.length,
            flags: last.flags,
        });
    }
    out.items.push_reserved(last);
    if out.items.len() - start == RUNS {
        return None;
    }
    Some(next)
}

// Goes on by the clusters of a part.
fn add_row(
    row: &[u8],
    cluster: u64,
    part: &Part,
    start: usize,
    last: Run,
    out: &mut Runs,
) -> Option<Run>
    requires cluster { cluster ≤ 2 ^ 21 }
    requires inside { part.now.from < cluster }
    requires bytes { 0 < part.now.length }
    requires covers { part.now.from + part.now.length ≤ cluster * part.now.count }
    requires least { cluster * part.now.count < part.now.from + part.now.length + cluster }
    requires long { length row.now ≡ 8 * part.now.count }
    requires most { part.now.length ≤ 2 ^ 40 }
    requires short { last.length ≤ 2 ^ 40 }
    requires order { start ≤ vec_len out.old.items }
    requires few { vec_len out.old.items < start + 1024 }
    requires room { start + 1024 ≤ vec_capacity out.old.items }
    ensures goes { (flags : List ℕ) (at d first : ℕ) (old : List Run) → length old ≡ start → IsRowAt cluster flags at d first part.now row.now → Tells cluster flags at d old out.old.items.items last →
        GoesOn cluster flags at (d + part.now.length) old out.new.items.items result }
    ensures capacity { vec_capacity out.new.items ≡ vec_capacity out.old.items }
    ensures order { start ≤ vec_len out.new.items }
    ensures few { IfSome result (λ _. vec_len out.new.items < start + 1024) }
    ensures some { IfSome result (λ r. 0 < r.length) }
    ensures short { IfSome result (λ r. r.length ≤ last.length + part.now.length) }
{
    let mut held = last;
    for index in 0..part.count {
        let low = (index * cluster).max(part.from);
        let high = ((index + 1) * cluster).min(part.from + part.length);
        let next = Run {
            length: high - low,
            flags: flags_at(row, index as usize),
        };
        held = add(out, start, held, next)?;
    }
    Some(held)
}

impl Layout {
    /// Appends the first 1,024 runs of what NBD tells of a range, a part at a time. Nothing is read behind those.
    pub(crate) fn kinds<D: Depot>(
        self,
        depot: &mut D,
        entries: &mut [u8],
        at: u64,
        bytes: u64,
        out: &mut Runs,
    ) -> Result<(), Failed>
        requires given { self.file.0 < (D.world depot.old).given }
        requires mapping { IsMapping (mapping self) }
        requires long { length entries.old ≡ 2 ^ self.cluster_bits }
        requires some { 0 < bytes }
        requires inside { at + bytes ≤ self.size }
        requires room { vec_len out.old.items + 1024 ≤ vec_capacity out.old.items }
        ensures runs { OnOk result (Gives (file_of (D.world depot.old) self.file.0) (λ c. (store : Store) → HasStore (shape_by (mapping self)) self.size c store →
            out.new.items.items ≡ out.old.items.items ++ first_runs (runs_of (size (shape_by (mapping self))) (flags_of store) (range at bytes)))) }
        ensures capacity { vec_capacity out.new.items ≡ vec_capacity out.old.items }
        ensures looks { Looks self.file.0 (D.world depot.old) (D.world depot.new) result }
    {
        let cluster = cluster_of(self.cluster_bits);
        let start = out.items.len();
        let mut last = Run {
            length: 0,
            flags: 0,
        };
        let mut done = 0;
        while done < bytes {
            let part = self.part_at(at + done, bytes - done);
            let row = &mut entries[..8 * part.count as usize];
            self.read_row(depot, &part, row)?;
            let Some(next) = add_row(row, cluster, &part, start, last, out) else {
                return Ok(());
            };
            last = next;
            done += part.length;
        }
        out.items.push_reserved(last);
        Ok(())
    }
}
