//! Bytes of the guest's disk.

ghost use Rattle.std.specs.Prelude.{◌≡◌, ℕ, ◌+◌, ◌*◌, ◌/◌, ◌%◌, ◌^◌, ◌<◌, ◌≤◌, length, OnOk};
ghost use Rattle.disk_model.specs.Files.{byte, reading};
ghost use Rattle.file_device.specs.Calls.{Looks};
ghost use Rattle.file_device.specs.File.{file_of, Gives};
ghost use Rattle.image_model.specs.Clusters.{pick, guest, size};
ghost use Rattle.image_model.specs.Disks.{disk_of};
ghost use Rattle.qc_map.specs.Mapping.{IsMapping, mapping, shape_by};
ghost use Rattle.qc_map.specs.Reading.{IsPartFor, row_byte};

use crate::layout::{Layout, clear};
use disk_model::{Depot, Failed, FileNo};
use file_device::read;
use map_rows::{Part, cluster_of, run_from};

impl Layout {
    /// Reads bytes of the disk, a part at a time.
    pub(crate) fn read<D: Depot>(
        self,
        depot: &mut D,
        entries: &mut [u8],
        at: u64,
        out: &mut [u8],
    ) -> Result<(), Failed>
        requires given { self.file.0 < (D.world depot.old).given }
        requires mapping { IsMapping (mapping self) }
        requires long { length entries.old ≡ 2 ^ self.cluster_bits }
        requires inside { at + length out.old ≤ self.size }
        ensures bytes { OnOk result (Gives (file_of (D.world depot.old) self.file.0) (λ c. out.new ≡ reading (disk_of (shape_by (mapping self)) self.size c) at (length out.old))) }
        ensures looks { Looks self.file.0 (D.world depot.old) (D.world depot.new) result }
    {
        let mut done = 0;
        while done < out.len() {
            let part = self.part_at(at + done as u64, (out.len() - done) as u64);
            let end = done + part.length as usize;
            let row = &mut entries[..8 * part.count as usize];
            self.read_part(depot, &part, row, &mut out[done..end])?;
            done = end;
        }
        Ok(())
    }

    // Reads the bytes of a part.
    fn read_part<D: Depot>(
        self,
        depot: &mut D,
        part: &Part,
        row: &mut [u8],
        out: &mut [u8],
    ) -> Result<(), Failed>
        requires given { self.file.0 < (D.world depot.old).given }
        requires mapping { IsMapping (mapping self) }
        requires part { IsPartFor (mapping self) part.now }
        requires long { length row.old ≡ 8 * part.now.count }
        requires bytes { length out.old ≡ part.now.length }
        ensures bytes { OnOk result (Gives (file_of (D.world depot.old) self.file.0) (λ c. (x : ℕ) → x < part.now.length →
            byte out.new x ≡ guest (shape_by (mapping self)) c part.now.table (part.now.slot + (part.now.from + x) / size (shape_by (mapping self))) ((part.now.from + x) % size (shape_by (mapping self))))) }
        ensures looks { Looks self.file.0 (D.world depot.old) (D.world depot.new) result }
    {
        self.read_row(depot, part, row)?;
        read_clusters(
            depot,
            self.file,
            cluster_of(self.cluster_bits),
            row,
            part.from,
            out,
        )
    }
}

// Reads bytes of the clusters of a row of entries, from one place in the first one's cluster on. One call reads neighbours.
fn read_clusters<D: Depot>(
    depot: &mut D,
    file: FileNo,
    cluster: u64,
    row: &[u8],
    from: u64,
    out: &mut [u8],
) -> Result<(), Failed>
    requires given { file.0 < (D.world depot.old).given }
    requires least { 512 ≤ cluster }
    requires most { cluster ≤ 2 ^ 21 }
    requires inside { from < cluster }
    requires few { length row.now ≤ 2 ^ 21 }
    requires covers { from + length out.old ≤ cluster * (length row.now / 8) }
    ensures bytes { OnOk result (Gives (file_of (D.world depot.old) file.0) (λ c. (x : ℕ) → x < length out.old → byte out.new x ≡ row_byte cluster row.now c (from + x))) }
    ensures looks { Looks file.0 (D.world depot.old) (D.world depot.new) result }
{
    let mut done = 0;
    while done < out.len() {
        let place = from + done as u64;
        let first = (place / cluster) as usize;
        let run = run_from(row, first, row.len() / 8, cluster);
        let past = (first + run.count) as u64 * cluster - from;
        let end = past.min(out.len() as u64) as usize;
        read_run(depot, file, run.host, place % cluster, &mut out[done..end])?;
        done = end;
    }
    Ok(())
}

// Reads bytes of clusters that are stored from `host` on, or zeros where they are stored nowhere.
fn read_run<D: Depot>(
    depot: &mut D,
    file: FileNo,
    host: u64,
    from: u64,
    out: &mut [u8],
) -> Result<(), Failed>
    requires given { file.0 < (D.world depot.old).given }
    requires host { host < 2 ^ 56 }
    requires from { from < 2 ^ 21 }
    requires long { length out.old ≤ 2 ^ 40 }
    ensures bytes { OnOk result (Gives (file_of (D.world depot.old) file.0) (λ c. (x : ℕ) → x < length out.old → byte out.new x ≡ pick host (byte c (host + from + x)))) }
    ensures looks { Looks file.0 (D.world depot.old) (D.world depot.new) result }
{
    if host == 0 {
        clear(out);
        return Ok(());
    }
    read(depot, file, host + from, out)
}
