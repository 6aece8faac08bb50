//! The disk of an image, read and written through its tables.

ghost use Rattle.std.specs.Prelude.{◌≡◌, ◌≢◌, ◌+◌, ◌*◌, ◌/◌, ◌%◌, ◌^◌, ◌<◌, ◌≤◌, ℕ, List, length, replicate, IsTrue, OnOk, IfOk, IfErr, OnErr};
ghost use Rattle.disk_model.specs.Files.{overlay, reading, u64_at};
ghost use Rattle.disk_model.specs.World.{World, Runs, reads_of, writes_of, only_file, ReadCause, WriteCause, Writes, HasWritten};
ghost use Rattle.qc_layout.specs.Entries.{offset_in};
ghost use Rattle.qc_layout.specs.FirstForm.{host_of, table_offset, clusters_of};
ghost use Rattle.qback_top.specs.Open.{file_in, disk_in, IsOpen, WhereOpen, WhereInside, HasDisk, Spares, Between, KeepsRest, Goes, FileCause};

use disk_model::{Depot, Failed, FileNo};
use qc_layout::{L2Entry, write_l2};

/// The bytes of a cluster.
pub const CLUSTER: u64 = 4096;

/// An open image. Sizes and offsets are in bytes.
#[derive(Clone, Copy, Debug)]
pub struct Image {
    pub file: FileNo,
    /// The size of the disk.
    pub size: u64,
    /// Where the first-level table stands.
    pub l1: u64,
    /// Where the file ends.
    pub end: u64,
}

/// The number of eight bytes at an offset of a file.
fn number_at<D: Depot>(depot: &mut D, file: FileNo, at: u64) -> Result<u64, Failed>
    requires given { file.0 < (D.world depot.old).given }
    requires end { at + 8 ≤ 2 ^ 62 }
    ensures number { IfOk result (λ n. IsTrue (D.world depot.old).tells → n ≡ u64_at ((D.world depot.old).seen file.0) at) }
    ensures run { Runs (reads_of file.0) (D.world depot.old) (D.world depot.new) }
    ensures cause { ReadCause (D.world depot.old) (D.world depot.new) file.0 result }
{
    let mut bytes = [0u8; 8];
    depot.read_at(file, at, &mut bytes)?;
    Ok(u64::from_be_bytes(bytes))
}

fn offset(entry: u64) -> u64
    ensures value { result ≡ offset_in entry }
    ensures limit { result < 2 ^ 56 }
{
    entry / 512 % (1 << 47) * 512
}

/// Where the second-level table stands, or 0.
fn table<D: Depot>(depot: &mut D, image: &Image) -> Result<u64, Failed>
    requires given { image.now.file.0 < (D.world depot.old).given }
    requires l1 { image.now.l1 ≤ 2 ^ 41 }
    ensures table { IfOk result (λ n. WhereOpen (D.world depot.old) image.now
        (n ≡ table_offset (file_in (D.world depot.old) image.now))) }
    ensures limit { IfOk result (λ n. n < 2 ^ 56) }
    ensures run { Runs (reads_of image.now.file.0) (D.world depot.old) (D.world depot.new) }
    ensures cause { ReadCause (D.world depot.old) (D.world depot.new) image.now.file.0 result }
{
    Ok(offset(number_at(depot, image.file, image.l1)?))
}

/// Where a cluster of the disk is stored, or 0.
fn host<D: Depot>(depot: &mut D, image: &Image, cluster: u64) -> Result<u64, Failed>
    requires given { image.now.file.0 < (D.world depot.old).given }
    requires l1 { image.now.l1 ≤ 2 ^ 41 }
    requires cluster { cluster < 512 }
    ensures host { IfOk result (λ n. WhereOpen (D.world depot.old) image.now
        (n ≡ host_of (file_in (D.world depot.old) image.now) cluster)) }
    ensures limit { IfOk result (λ n. n < 2 ^ 56) }
    ensures run { Runs (reads_of image.now.file.0) (D.world depot.old) (D.world depot.new) }
    ensures cause { ReadCause (D.world depot.old) (D.world depot.new) image.now.file.0 result }
{
    let table = table(depot, image)?;
    if table == 0 {
        return Ok(0);
    }
    Ok(offset(number_at(depot, image.file, table + 8 * cluster)?))
}

fn clear(out: &mut [u8])
    ensures { out.new ≡ replicate (length out.old) 0 }
{
    for byte in out.iter_mut() {
        *byte = 0;
    }
}

/// Reads a part of one cluster.
fn read_piece<D: Depot>(depot: &mut D, image: &Image, at: u64, out: &mut [u8]) -> Result<(), Failed>
    requires given { image.now.file.0 < (D.world depot.old).given }
    requires l1 { image.now.l1 ≤ 2 ^ 41 }
    requires cluster { at / 4096 < 512 }
    requires some { 0 < length out.old }
    requires piece { at % 4096 + length out.old ≤ 4096 }
    ensures bytes { OnOk result (WhereInside (D.world depot.old) image.now at (length out.old)
        (out.new ≡ reading (disk_in (D.world depot.old) image.now) at (length out.old))) }
    ensures run { Runs (reads_of image.now.file.0) (D.world depot.old) (D.world depot.new) }
    ensures cause { ReadCause (D.world depot.old) (D.world depot.new) image.now.file.0 result }
{
    let host = host(depot, image, at / CLUSTER)?;
    if host == 0 {
        clear(out);
        return Ok(());
    }
    depot.read_at(image.file, host + at % CLUSTER, out)?;
    Ok(())
}

/// Reads a range of the disk.
pub fn read<D: Depot>(depot: &mut D, image: &Image, at: u64, out: &mut [u8]) -> Result<(), Failed>
    requires given { image.now.file.0 < (D.world depot.old).given }
    requires l1 { image.now.l1 ≤ 2 ^ 41 }
    requires range { at + length out.old ≤ 2 ^ 21 }
    ensures bytes { OnOk result (WhereInside (D.world depot.old) image.now at (length out.old)
        (out.new ≡ reading (disk_in (D.world depot.old) image.now) at (length out.old))) }
    ensures run { Runs (reads_of image.now.file.0) (D.world depot.old) (D.world depot.new) }
    ensures cause { ReadCause (D.world depot.old) (D.world depot.new) image.now.file.0 result }
{
    let mut done = 0;
    while done < out.len() {
        let from = at + done as u64;
        let room = (CLUSTER - from % CLUSTER) as usize;
        let piece = room.min(out.len() - done);
        read_piece(depot, image, from, &mut out[done..done + piece])?;
        done += piece;
    }
    Ok(())
}

/// Makes a cluster of zeros at the file's end, and answers where it stands.
fn grow<D: Depot>(depot: &mut D, image: &mut Image) -> Result<u64, Failed>
    requires given { image.old.file.0 < (D.world depot.old).given }
    requires end { image.old.end ≤ 2 ^ 55 }
    ensures image { OnOk result (image.new ≡ record image.old { end = image.old.end + 4096 }) }
    ensures same { OnErr result (image.new ≡ image.old) }
    ensures place { IfOk result (λ n. n ≡ image.old.end) }
    ensures done { OnOk result (HasWritten image.old.file.0 image.old.end (replicate 4096 0) (D.world depot.old) (D.world depot.new)) }
    ensures torn { Writes image.old.file.0 image.old.end (replicate 4096 0) (D.world depot.old) (D.world depot.new) }
    ensures cause { WriteCause (D.world depot.old) (D.world depot.new) image.old.file.0 result }
{
    let place = image.end;
    depot.write_at(image.file, place, &[0u8; 4096])?;
    image.end += CLUSTER;
    Ok(place)
}

/// Where the second-level table stands. It is made, with no entry in it, where there is none.
fn made_table<D: Depot>(depot: &mut D, image: &mut Image) -> Result<u64, Failed>
    requires given { image.old.file.0 < (D.world depot.old).given }
    requires l1 { image.old.l1 ≤ 2 ^ 41 }
    requires end { image.old.end ≤ 2 ^ 54 }
    ensures image { OnOk result (Goes image.old image.new 4096) }
    ensures limit { IfOk result (λ n. n < 2 ^ 56) }
    ensures table { IfOk result (λ n. WhereOpen (D.world depot.old) image.old
        (IsOpen image.new (file_in (D.world depot.new) image.old)
        × (disk_in (D.world depot.new) image.old ≡ disk_in (D.world depot.old) image.old)
        × KeepsRest (file_in (D.world depot.old) image.old) (file_in (D.world depot.new) image.old)
        × (n ≡ table_offset (file_in (D.world depot.new) image.old)) × (n ≢ 0))) }
    ensures hosts { IfOk result (λ n. WhereOpen (D.world depot.old) image.old
        ((m : ℕ) → m < 512 → host_of (file_in (D.world depot.new) image.old) m ≡ host_of (file_in (D.world depot.old) image.old) m)) }
    ensures spares { WhereOpen (D.world depot.old) image.old
        (Spares (file_in (D.world depot.old) image.old) (file_in (D.world depot.new) image.old)) }
    ensures disk { WhereOpen (D.world depot.old) image.old
        (disk_in (D.world depot.new) image.old ≡ disk_in (D.world depot.old) image.old) }
    ensures run { Runs (only_file image.old.file.0) (D.world depot.old) (D.world depot.new) }
    ensures cause { FileCause (D.world depot.old) (D.world depot.new) result }
{
    let found = table(depot, image)?;
    if found != 0 {
        return Ok(found);
    }
    let place = grow(depot, image)?;
    depot.write_at(image.file, image.l1, &(place + (1 << 63)).to_be_bytes())?;
    Ok(place)
}

/// Where a cluster of the disk is stored. It is made, with zeros in it, where it isn't stored.
fn stored<D: Depot>(depot: &mut D, image: &mut Image, cluster: u64) -> Result<u64, Failed>
    requires given { image.old.file.0 < (D.world depot.old).given }
    requires l1 { image.old.l1 ≤ 2 ^ 41 }
    requires end { image.old.end ≤ 2 ^ 54 }
    requires cluster { cluster < 512 }
    ensures image { OnOk result (Goes image.old image.new 8192) }
    ensures limit { IfOk result (λ n. n < 2 ^ 56) }
    ensures host { IfOk result (λ n. WhereOpen (D.world depot.old) image.old
        (cluster < clusters_of (file_in (D.world depot.old) image.old) →
        IsOpen image.new (file_in (D.world depot.new) image.old)
        × (disk_in (D.world depot.new) image.old ≡ disk_in (D.world depot.old) image.old)
        × KeepsRest (file_in (D.world depot.old) image.old) (file_in (D.world depot.new) image.old)
        × (n ≡ host_of (file_in (D.world depot.new) image.old) cluster) × (n ≢ 0))) }
    ensures spares { WhereOpen (D.world depot.old) image.old
        (cluster < clusters_of (file_in (D.world depot.old) image.old) →
        Spares (file_in (D.world depot.old) image.old) (file_in (D.world depot.new) image.old)) }
    ensures disk { WhereOpen (D.world depot.old) image.old
        (cluster < clusters_of (file_in (D.world depot.old) image.old) →
        disk_in (D.world depot.new) image.old ≡ disk_in (D.world depot.old) image.old) }
    ensures run { Runs (only_file image.old.file.0) (D.world depot.old) (D.world depot.new) }
    ensures cause { FileCause (D.world depot.old) (D.world depot.new) result }
{
    let found = host(depot, image, cluster)?;
    if found != 0 {
        return Ok(found);
    }
    let table = made_table(depot, image)?;
    let place = grow(depot, image)?;
    let entry = write_l2(L2Entry::Stored(place));
    depot.write_at(image.file, table + 8 * cluster, &entry.to_be_bytes())?;
    Ok(place)
}

/// Writes a part of one cluster.
fn write_piece<D: Depot>(
    depot: &mut D,
    image: &mut Image,
    at: u64,
    bytes: &[u8],
) -> Result<(), Failed>
    requires given { image.old.file.0 < (D.world depot.old).given }
    requires l1 { image.old.l1 ≤ 2 ^ 41 }
    requires end { image.old.end ≤ 2 ^ 54 }
    requires cluster { at / 4096 < 512 }
    requires some { 0 < length bytes.now }
    requires piece { at % 4096 + length bytes.now ≤ 4096 }
    ensures image { OnOk result (Goes image.old image.new 8192) }
    ensures written { OnOk result (WhereInside (D.world depot.old) image.old at (length bytes.now)
        (HasDisk (D.world depot.old) (D.world depot.new) image.old image.new (overlay (disk_in (D.world depot.old) image.old) at bytes.now))) }
    ensures spares { WhereInside (D.world depot.old) image.old at (length bytes.now)
        (Spares (file_in (D.world depot.old) image.old) (file_in (D.world depot.new) image.old)) }
    ensures between { WhereInside (D.world depot.old) image.old at (length bytes.now)
        (Between (disk_in (D.world depot.old) image.old) (overlay (disk_in (D.world depot.old) image.old) at bytes.now)
        (disk_in (D.world depot.new) image.old)) }
    ensures run { Runs (only_file image.old.file.0) (D.world depot.old) (D.world depot.new) }
    ensures cause { FileCause (D.world depot.old) (D.world depot.new) result }
{
    let host = stored(depot, image, at / CLUSTER)?;
    depot.write_at(image.file, host + at % CLUSTER, bytes)?;
    Ok(())
}

/// Writes a range of the disk. The file grows by at most twice the range and 16384 bytes.
pub fn write<D: Depot>(
    depot: &mut D,
    image: &mut Image,
    at: u64,
    bytes: &[u8],
) -> Result<(), Failed>
    requires given { image.old.file.0 < (D.world depot.old).given }
    requires l1 { image.old.l1 ≤ 2 ^ 41 }
    requires end { image.old.end ≤ 2 ^ 53 }
    requires range { at + length bytes.now ≤ 2 ^ 21 }
    ensures image { OnOk result (Goes image.old image.new (2 * length bytes.now + 16384)) }
    ensures written { OnOk result (WhereInside (D.world depot.old) image.old at (length bytes.now)
        (HasDisk (D.world depot.old) (D.world depot.new) image.old image.new (overlay (disk_in (D.world depot.old) image.old) at bytes.now))) }
    ensures spares { WhereInside (D.world depot.old) image.old at (length bytes.now)
        (Spares (file_in (D.world depot.old) image.old) (file_in (D.world depot.new) image.old)) }
    ensures between { WhereInside (D.world depot.old) image.old at (length bytes.now)
        (Between (disk_in (D.world depot.old) image.old) (overlay (disk_in (D.world depot.old) image.old) at bytes.now)
        (disk_in (D.world depot.new) image.old)) }
    ensures run { Runs (only_file image.old.file.0) (D.world depot.old) (D.world depot.new) }
    ensures cause { FileCause (D.world depot.old) (D.world depot.new) result }
{
    let mut done = 0;
    while done < bytes.len() {
        let from = at + done as u64;
        let room = (CLUSTER - from % CLUSTER) as usize;
        let piece = room.min(bytes.len() - done);
        write_piece(depot, image, from, &bytes[done..done + piece])?;
        done += piece;
    }
    Ok(())
}
