//! Where the two levels of tables stand, and one row of entries read from them.

ghost use Rattle.std.specs.Prelude.{◌≡◌, ℕ, ◌+◌, ◌*◌, ◌^◌, ◌<◌, ◌≤◌, length, IfOk, OnOk};
ghost use Rattle.disk_model.specs.Files.{byte, u64_at};
ghost use Rattle.file_device.specs.Calls.{Looks};
ghost use Rattle.file_device.specs.File.{file_of, Gives};
ghost use Rattle.image_model.specs.Clusters.{offset, pick};
ghost use Rattle.map_rows.specs.Parts.{IsPart};
ghost use Rattle.qc_map.specs.Mapping.{IsMapping, mapping, shape_by};
ghost use Rattle.qc_map.specs.Reading.{IsPartFor, IsRow};

use disk_model::{Depot, Failed, FileNo};
use file_device::read;
use map_rows::{Part, offset_at};

/// Where the two levels of tables of an image stand.
#[derive(Clone, Copy, Debug)]
pub(crate) struct Layout {
    pub(crate) file: FileNo,
    pub(crate) cluster_bits: u32,
    /// Bytes of the guest's disk.
    pub(crate) size: u64,
    /// Where the first level stands, and how many entries it has.
    pub(crate) first_level: u64,
    pub(crate) tables: u64,
}

impl Layout {
    /// The first part of a request.
    pub(crate) fn part_at(self, at: u64, length: u64) -> Part
        requires mapping { IsMapping (mapping self) }
        requires some { 0 < length }
        requires inside { at + length ≤ self.size }
        ensures part { IsPart (shape_by (mapping self)) at length result }
        ensures lies { IsPartFor (mapping self) result }
        ensures few { 8 * result.count ≤ 2 ^ self.cluster_bits }
        ensures most { 2 ^ self.cluster_bits ≤ 2 ^ 21 }
        ensures some { 0 < result.length }
        ensures within { result.length ≤ length }
        ensures count { result.count ≤ result.length + 1 }
        ensures from { result.from < 2 ^ self.cluster_bits }
    {
        Part::first_of(self.cluster_bits, at, length)
    }

    // The offset of a table of the second level, or 0 where it isn't there.
    fn table_at<D: Depot>(self, depot: &mut D, index: u64) -> Result<u64, Failed>
        requires given { self.file.0 < (D.world depot.old).given }
        requires mapping { IsMapping (mapping self) }
        requires inside { index < self.tables }
        ensures table { IfOk result (λ at. Gives (file_of (D.world depot.old) self.file.0) (λ c. at ≡ offset (u64_at c (self.first_level + 8 * index)))) }
        ensures near { IfOk result (λ at. at < 2 ^ 56) }
        ensures looks { Looks self.file.0 (D.world depot.old) (D.world depot.new) result }
    {
        let mut entry = [0u8; 8];
        read(depot, self.file, self.first_level + 8 * index, &mut entry)?;
        Ok(offset_at(&entry, 0))
    }

    /// Reads the entries of a part; where its table isn't there, all are 0. It gives the table's offset, or 0.
    pub(crate) fn read_row<D: Depot>(
        self,
        depot: &mut D,
        part: &Part,
        row: &mut [u8],
    ) -> Result<u64, Failed>
        requires given { self.file.0 < (D.world depot.old).given }
        requires mapping { IsMapping (mapping self) }
        requires part { IsPartFor (mapping self) part.now }
        requires long { length row.old ≡ 8 * part.now.count }
        ensures row { OnOk result (Gives (file_of (D.world depot.old) self.file.0) (λ c. IsRow (shape_by (mapping self)) c part.now.table part.now.slot part.now.count row.new)) }
        ensures table { IfOk result (λ at. Gives (file_of (D.world depot.old) self.file.0) (λ c. at ≡ offset (u64_at c (self.first_level + 8 * part.now.table)))) }
        ensures near { IfOk result (λ at. at < 2 ^ 56) }
        ensures looks { Looks self.file.0 (D.world depot.old) (D.world depot.new) result }
    {
        let table = self.table_at(depot, part.table)?;
        read_words(depot, self.file, table, part.slot, row)?;
        Ok(table)
    }
}

/// Makes all bytes 0.
pub(crate) fn clear(bytes: &mut [u8])
    ensures { (x : ℕ) → x < length bytes.old → byte bytes.new x ≡ 0 }
{
    bytes.fill(0);
}

// Reads words of a table from one of them on, or makes all 0 where the table isn't there.
fn read_words<D: Depot>(
    depot: &mut D,
    file: FileNo,
    table: u64,
    slot: u64,
    row: &mut [u8],
) -> Result<(), Failed>
    requires given { file.0 < (D.world depot.old).given }
    requires near { table < 2 ^ 56 }
    requires slot { slot ≤ 2 ^ 18 }
    requires long { length row.old ≤ 2 ^ 21 }
    ensures words { OnOk result (Gives (file_of (D.world depot.old) file.0) (λ c. (m : ℕ) → 8 * m + 8 ≤ length row.old →
        u64_at row.new (8 * m) ≡ pick table (u64_at c (table + 8 * (slot + m))))) }
    ensures looks { Looks file.0 (D.world depot.old) (D.world depot.new) result }
{
    if table == 0 {
        clear(row);
        return Ok(());
    }
    read(depot, file, table + 8 * slot, row)
}
