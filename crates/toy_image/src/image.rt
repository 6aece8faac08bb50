//! What an image of the form is, and its first sector with the next epoch.

ghost use Rattle.std.specs.Prelude.{◌≡◌, ◌+◌, ◌-◌, ◌*◌, ◌^◌, ◌<◌, ◌≤◌, ◌/◌, ◌==◌, ◌&&◌, nat_lt, ℕ, List, Ok, Some, MatchOption, IsTrue, IfOk, IfErr};
ghost use Rattle.disk_model.specs.Files.{reading};
ghost use Rattle.disk_model.specs.World.{World, Runs, reads_of};
ghost use Rattle.qc_layout.specs.declared.entry.L2Entry.TheVariants as entries;
ghost use Rattle.qc_layout.specs.Entries.{l1_of, l2_of};
ghost use Rattle.qc_layout.specs.Header.{fields_of};
ghost use Rattle.qc_layout.specs.Spelling.{Spells};
ghost use Rattle.qc_layout.specs.Room.{room_from};
ghost use Rattle.qc_layout.specs.declared.header.Own.TheVariants as owns;
ghost use Rattle.qc_layout.specs.declared.header.Part.TheVariants as parts;
ghost use Rattle.toy_image.specs.Images.{Opens, IsImageOf, IsLooked, NotLookedFor, IsRefusal, HasNextEpoch, is_missing_in, missing_in};
ghost use Rattle.toy_image.specs.declared.numbers.Numbers.{Numbers};
ghost use Rattle.toy_image.specs.declared.image.NotLooked.TheVariants as unlooked;

use crate::numbers::Numbers;
use disk_model::{Depot, Failed, FileNo};
use file_device::word;
use qc_layout::{
    Fields, Header, HeaderFault, L2Entry, Own, Part, read_header, read_l1, read_l2, write_header,
};
use span_algebra::Name;
use std::alloc::{AllocError, AllocFailed, Global};

/// How many of a file's first bytes say what its header says, at most.
const START: u64 = 65536;

/// No range ends past this place.
const END: u64 = 1 << 62;

/// Why it isn't known what an image is.
#[derive(Debug, Drop)]
pub enum NotLooked {
    /// It is of another form.
    Other,
    /// A call on its file failed.
    Failed,
    /// There was no memory.
    Memory,
}

impl From<AllocError> for NotLooked {
    ghost from_gives = { λ _ e. e ≡ unlooked.Memory };

    fn from(_e: AllocError) -> NotLooked {
        NotLooked::Memory
    }
}

impl<T: Drop> From<AllocFailed<T>> for NotLooked {
    ghost from_gives = { λ _ e. e ≡ unlooked.Memory };

    fn from(_e: AllocFailed<T>) -> NotLooked {
        NotLooked::Memory
    }
}

impl From<Failed> for NotLooked {
    ghost from_gives = { λ _ e. e ≡ unlooked.Failed };

    fn from(_e: Failed) -> NotLooked {
        NotLooked::Failed
    }
}

/// The first bytes of a file, with zeros past its end.
fn read_start<D: Depot>(
    alloc: Global,
    depot: &mut D,
    file: FileNo,
    count: u64,
) -> Result<Vec<u8>, NotLooked>
    requires given { file.0 < (D.world depot.old).given }
    requires count { count ≤ 65536 }
    ensures bytes { IfOk result (λ v. IsTrue (D.world depot.old).tells → v.items ≡ reading ((D.world depot.old).seen file.0) 0 count) }
    ensures not { IfErr result (λ why. NotLookedFor why file.0 (D.world depot.old) (D.world depot.new)) }
    ensures run { Runs (reads_of file.0) (D.world depot.old) (D.world depot.new) }
{
    let mut bytes = vec![in alloc; 0u8; count as usize]?;
    depot.read_at(file, 0, &mut bytes)?;
    Ok(bytes)
}

/// Why it isn't known what an image is whose header is refused.
fn refusal(fault: HeaderFault) -> NotLooked
    ensures { IsRefusal result fault }
{
    match fault {
        HeaderFault::Memory => NotLooked::Memory,
        _ => NotLooked::Other,
    }
}

/// The header of a file.
fn find_header<D: Depot>(alloc: Global, depot: &mut D, file: FileNo) -> Result<Header, NotLooked>
    requires { file.0 < (D.world depot.old).given }
    ensures spells { IfOk result (λ h. IsTrue (D.world depot.old).tells → Opens ((D.world depot.old).seen file.0) → Spells parts.Source ((D.world depot.old).seen file.0) h) }
    ensures not { IfErr result (λ why. NotLookedFor why file.0 (D.world depot.old) (D.world depot.new)) }
    ensures run { Runs (reads_of file.0) (D.world depot.old) (D.world depot.new) }
{
    let bytes = read_start(alloc, depot, file, START)?;
    match read_header(alloc, &bytes, Part::Source) {
        Ok(header) => Ok(header),
        Err(fault) => Err(refusal(fault)),
    }
}

/// The table that an entry of the first level names.
fn table_in(entry: u64, cluster_bits: u32) -> Option<u64>
    requires low { 9 ≤ cluster_bits }
    requires high { cluster_bits ≤ 21 }
    ensures { MatchOption result ((table : ℕ) → l1_of cluster_bits entry ≡ Ok (Some table) → ⊥) (λ table. l1_of cluster_bits entry ≡ Ok (Some table)) }
{
    match read_l1(entry, cluster_bits) {
        Ok(Some(table)) => Some(table),
        Ok(None) => None,
        Err(_) => None,
    }
}

/// The cluster that an entry of the second level names as stored.
fn host_in(entry: u64, cluster_bits: u32) -> Option<u64>
    requires low { 9 ≤ cluster_bits }
    requires high { cluster_bits ≤ 21 }
    ensures { MatchOption result ((host : ℕ) → l2_of cluster_bits entry ≡ Ok (entries.Stored host) → ⊥) (λ host. l2_of cluster_bits entry ≡ Ok (entries.Stored host)) }
{
    match read_l2(entry, cluster_bits) {
        Ok(L2Entry::Stored(host)) => Some(host),
        Ok(L2Entry::Hole) => None,
        Ok(L2Entry::Zero(_)) => None,
        Ok(L2Entry::Compressed) => None,
        Err(_) => None,
    }
}

/// Where the guest's bytes begin: at the host cluster that the first entry of the first table names.
fn find_base<D: Depot>(depot: &mut D, file: FileNo, fields: &Fields) -> Result<u64, NotLooked>
    requires given { file.0 < (D.world depot.old).given }
    requires fields { IsTrue (D.world depot.old).tells → Opens ((D.world depot.old).seen file.0) → fields.now ≡ fields_of ((D.world depot.old).seen file.0) }
    ensures base { IfOk result (λ base. IsTrue (D.world depot.old).tells → (n : Numbers) → IsImageOf n ((D.world depot.old).seen file.0) → base ≡ n.base) }
    ensures not { IfErr result (λ why. NotLookedFor why file.0 (D.world depot.old) (D.world depot.new)) }
    ensures run { Runs (reads_of file.0) (D.world depot.old) (D.world depot.new) }
{
    let bits = fields.cluster_bits;
    if bits < 9 || bits > 21 || fields.l1_table_offset > END - 8 {
        return Err(NotLooked::Other);
    }
    let first = word(depot, file, fields.l1_table_offset)?;
    let table = match table_in(first, bits) {
        Some(table) => table,
        None => return Err(NotLooked::Other),
    };
    let second = word(depot, file, table)?;
    match host_in(second, bits) {
        Some(host) => Ok(host),
        None => Err(NotLooked::Other),
    }
}

/// Where the blocks of refcounts are named, how many there may be, how many clusters each counts, and between which two
/// clusters a missing one is counted.
#[derive(Clone, Copy)]
struct Blocks {
    at: u64,
    count: u64,
    counts: u64,
    next: u64,
    reach: u64,
}

/// Whether the entry names no block, and the block would count a cluster between the two.
fn misses(blocks: &Blocks, i: u64, entry: u64) -> bool
    requires few { i < 2 ^ 62 }
    requires near { (i + 1) * blocks.now.counts < 2 ^ 64 }
    ensures { result ≡ ((entry / 512 == 0) && (nat_lt blocks.now.next ((i + 1) * blocks.now.counts) && nat_lt (i * blocks.now.counts) blocks.now.reach)) }
{
    entry / 512 == 0 && blocks.next < (i + 1) * blocks.counts && i * blocks.counts < blocks.reach
}

/// Whether a block is missing that counts a cluster between the two.
fn is_missing<D: Depot>(
    depot: &mut D,
    file: FileNo,
    blocks: &Blocks,
    i: u64,
) -> Result<bool, NotLooked>
    requires given { file.0 < (D.world depot.old).given }
    requires end { blocks.now.at + 8 * i + 8 ≤ 2 ^ 62 }
    requires few { i < 2 ^ 62 }
    requires near { (i + 1) * blocks.now.counts < 2 ^ 64 }
    ensures missing { IfOk result (λ missing. IsTrue (D.world depot.old).tells → missing ≡ is_missing_in ((D.world depot.old).seen file.0) blocks.now i) }
    ensures not { IfErr result (λ why. NotLookedFor why file.0 (D.world depot.old) (D.world depot.new)) }
    ensures run { Runs (reads_of file.0) (D.world depot.old) (D.world depot.new) }
{
    let entry = word(depot, file, blocks.at + 8 * i)?;
    Ok(misses(blocks, i, entry))
}

/// How many blocks are missing that count a cluster between the two.
fn count_missing<D: Depot>(depot: &mut D, file: FileNo, blocks: &Blocks) -> Result<u64, NotLooked>
    requires given { file.0 < (D.world depot.old).given }
    requires end { blocks.now.at + 8 * blocks.now.count ≤ 2 ^ 62 }
    requires near { (blocks.now.count + 1) * blocks.now.counts < 2 ^ 64 }
    requires few { blocks.now.count < 2 ^ 62 }
    ensures missing { IfOk result (λ missing. IsTrue (D.world depot.old).tells → missing ≡ missing_in ((D.world depot.old).seen file.0) blocks.now) }
    ensures not { IfErr result (λ why. NotLookedFor why file.0 (D.world depot.old) (D.world depot.new)) }
    ensures run { Runs (reads_of file.0) (D.world depot.old) (D.world depot.new) }
{
    let mut missing = 0;
    for i in 0..blocks.count {
        if is_missing(depot, file, blocks, i)? {
            missing += 1;
        }
    }
    Ok(missing)
}

/// How many clusters from this one on can be handed out.
fn find_room<D: Depot>(
    depot: &mut D,
    file: FileNo,
    fields: &Fields,
    next: u64,
) -> Result<u64, NotLooked>
    requires given { file.0 < (D.world depot.old).given }
    requires fields { IsTrue (D.world depot.old).tells → Opens ((D.world depot.old).seen file.0) → fields.now ≡ fields_of ((D.world depot.old).seen file.0) }
    ensures room { IfOk result (λ room. IsTrue (D.world depot.old).tells → Opens ((D.world depot.old).seen file.0) → room ≡ room_from ((D.world depot.old).seen file.0) next) }
    ensures not { IfErr result (λ why. NotLookedFor why file.0 (D.world depot.old) (D.world depot.new)) }
    ensures run { Runs (reads_of file.0) (D.world depot.old) (D.world depot.new) }
{
    let bits = fields.cluster_bits;
    if bits < 9 || bits > 21 {
        return Err(NotLooked::Other);
    }
    let cluster = 1u64 << bits;
    let long = u64::from(fields.refcount_table_clusters) * cluster;
    let at = fields.refcount_table_offset;
    if long > 1 << 26 || at > END - long {
        return Err(NotLooked::Other);
    }
    let count = u64::from(fields.refcount_table_clusters) * (cluster / 8);
    let counts = cluster / 2;
    let reach = (1u64 << 30).min(count * counts);
    let blocks = Blocks {
        at,
        count,
        counts,
        next,
        reach,
    };
    let missing = count_missing(depot, file, &blocks)?;
    Ok(reach.saturating_sub(next).saturating_sub(missing))
}

/// What an image of the form is, and its header.
pub fn look<D: Depot>(
    alloc: Global,
    depot: &mut D,
    file: FileNo,
) -> Result<(Numbers, Header), NotLooked>
    requires given { file.0 < (D.world depot.old).given }
    ensures looked { IfOk result (λ found. IsLooked found.0 found.1 ((D.world depot.old).tells) ((D.world depot.old).seen file.0)) }
    ensures not { IfErr result (λ why. NotLookedFor why file.0 (D.world depot.old) (D.world depot.new)) }
    ensures run { Runs (reads_of file.0) (D.world depot.old) (D.world depot.new) }
{
    let header = find_header(alloc, depot, file)?;
    let (disk, epoch) = match header.own {
        Own::Source { disk, epoch, .. } => (disk, epoch),
        Own::Absent => return Err(NotLooked::Other),
        Own::Target(_) => return Err(NotLooked::Other),
    };
    let base = find_base(depot, file, &header.fields)?;
    let size = header.fields.size;
    if base > END || size > END - base || header.fields.cluster_bits > 21 {
        return Err(NotLooked::Other);
    }
    let cluster = 1u64 << header.fields.cluster_bits;
    let next = (base + size).div_ceil(cluster);
    let room = match find_room(depot, file, &header.fields, next) {
        Ok(room) => room,
        Err(why) => return Err(why),
    };
    let mut id = Vec::new(alloc);
    id.extend_from_slice(&disk)?;
    let numbers = Numbers {
        id: Name { items: id },
        epoch,
        base,
        size,
        cluster,
        room,
    };
    Ok((numbers, header))
}

/// What the extension of a disk says, with the next epoch.
fn next_own(own: Own) -> Own
    ensures { (id : List ℕ) (epoch offset long : ℕ) → own ≡ owns.Source id epoch offset long → epoch < 2 ^ 64 - 1 → result ≡ owns.Source id (epoch + 1) offset long }
{
    match own {
        Own::Source {
            disk,
            epoch,
            spans_offset,
            spans_length,
        } => Own::Source {
            disk,
            epoch: epoch.saturating_add(1),
            spans_offset,
            spans_length,
        },
        Own::Absent => Own::Absent,
        Own::Target(record) => Own::Target(record),
    }
}

/// The header's sector, with the next epoch and without autoclear bits.
pub fn head(header: Header) -> [u8; 512]
    ensures { HasNextEpoch header result }
{
    let mut next = header;
    next.own = next_own(next.own);
    next.fields.autoclear_features = 0;
    let mut sector = [0; 512];
    write_header(&next, &mut sector);
    sector
}
