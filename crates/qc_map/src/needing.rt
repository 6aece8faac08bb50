//! How many clusters a write of a range of the guest's disk needs.

ghost use Rattle.std.specs.Prelude.{◌≡◌, ◌+◌, ◌*◌, ◌^◌, ◌<◌, ◌≤◌, length, count_by, IfOk, if◌then◌else◌, ◌==◌};
ghost use Rattle.std.specs.List.{range_with_len};
ghost use Rattle.file_device.specs.Calls.{Looks};
ghost use Rattle.file_device.specs.File.{file_of, Gives};
ghost use Rattle.image_model.specs.Space.{Store, need};
ghost use Rattle.map_rows.specs.Stores.{HasStore, is_open_at};
ghost use Rattle.qc_map.specs.Mapping.{IsMapping, mapping, shape_by};
ghost use Rattle.qc_map.specs.Needing.{part_need};
ghost use Rattle.qc_map.specs.Reading.{IsPartFor};

use crate::layout::Layout;
use disk_model::{Depot, Failed};
use map_rows::{Part, count_open};

impl Layout {
    /// How many clusters a write of a range needs, a part at a time.
    pub(crate) fn need<D: Depot>(
        self,
        depot: &mut D,
        entries: &mut [u8],
        at: u64,
        bytes: u64,
    ) -> Result<u64, Failed>
        requires given { self.file.0 < (D.world depot.old).given }
        requires mapping { IsMapping (mapping self) }
        requires long { length entries.old ≡ 2 ^ self.cluster_bits }
        requires inside { at + bytes ≤ self.size }
        ensures need { IfOk result (λ n. Gives (file_of (D.world depot.old) self.file.0) (λ c. (store : Store) → HasStore (shape_by (mapping self)) self.size c store → n ≡ need store (record { at = at; size = bytes }))) }
        ensures looks { Looks self.file.0 (D.world depot.old) (D.world depot.new) result }
    {
        let mut total = 0;
        let mut done = 0;
        while done < bytes {
            let part = self.part_at(at + done, bytes - done);
            total += self.need_part(depot, &part, &mut entries[..8 * part.count as usize])?;
            done += part.length;
        }
        Ok(total)
    }

    // How many a part needs.
    fn need_part<D: Depot>(self, depot: &mut D, part: &Part, row: &mut [u8]) -> Result<u64, Failed>
        requires given { self.file.0 < (D.world depot.old).given }
        requires mapping { IsMapping (mapping self) }
        requires part { IsPartFor (mapping self) part.now }
        requires long { length row.old ≡ 8 * part.now.count }
        ensures need { IfOk result (λ n. Gives (file_of (D.world depot.old) self.file.0) (λ c. n ≡ part_need (shape_by (mapping self)) c part.now.table part.now.slot part.now.count)) }
        ensures few { IfOk result (λ n. n ≤ part.now.count + 1) }
        ensures looks { Looks self.file.0 (D.world depot.old) (D.world depot.new) result }
    {
        let table = self.read_row(depot, part, row)?;
        Ok(needed(row, part.count as usize, table))
    }
}

// One cluster for each open entry, and one for their table where it isn't there.
fn needed(row: &[u8], count: usize, table: u64) -> u64
    requires { 8 * count ≤ length row.now }
    ensures need { result ≡ count_by (is_open_at row.now) (range_with_len 0 count) + (if table == 0 then 1 else 0) }
    ensures few { result ≤ count + 1 }
{
    let open = count_open(row, count);
    if table == 0 { open + 1 } else { open }
}
