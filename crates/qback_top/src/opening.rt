//! Whether a file is an image of the form that is taken.

ghost use Rattle.std.specs.Prelude.{◌≡◌, ◌≢◌, ◌+◌, ◌*◌, ◌<◌, ◌≤◌, ◌^◌, ℕ, List, length, IfOk, IfSome, MatchOption, IsTrue, ◌↔◌, ◌%◌};
ghost use Rattle.disk_model.specs.World.{World, Runs, reads_of, ReadCause};
ghost use Rattle.disk_model.specs.Files.{u32_at, u64_at, reading};
ghost use Rattle.qc_layout.specs.Entries.{offset_in};
ghost use Rattle.qc_layout.specs.FirstForm.{IsTaken, IsHeader};
ghost use Rattle.qback_top.specs.Open.{IsOpen, IsNamed, EntryFits, EntriesFit, TablesFit, HeadFits};

use crate::image::{CLUSTER, Image};
use disk_model::{Depot, Failed, FileNo};
use qc_layout::{L2Entry, read_l1, read_l2};

/// The number of four bytes at an offset.
fn number32(bytes: &[u8], at: usize) -> u32
    requires { at + 4 ≤ length bytes.now }
    ensures { result ≡ u32_at bytes.now at }
{
    let part = &bytes[at..at + 4];
    u32::from_be_bytes([part[0], part[1], part[2], part[3]])
}

/// The number of eight bytes at an offset.
fn number64(bytes: &[u8], at: usize) -> u64
    requires { at + 8 ≤ length bytes.now }
    ensures { result ≡ u64_at bytes.now at }
{
    let part = &bytes[at..at + 8];
    u64::from_be_bytes([
        part[0], part[1], part[2], part[3], part[4], part[5], part[6], part[7],
    ])
}

fn has_form(head: &[u8]) -> bool
    requires { 104 ≤ length head.now }
    ensures { IsTrue result ↔ ((u32_at head.now 0 ≡ 0x514649fb) × (u32_at head.now 4 ≡ 3) × (u32_at head.now 20 ≡ 12) × (u32_at head.now 36 ≡ 1) × (u32_at head.now 96 ≡ 4)) }
{
    number32(head, 0) == 0x514649fb
        && number32(head, 4) == 3
        && number32(head, 20) == 12
        && number32(head, 36) == 1
        && number32(head, 96) == 4
}

fn has_no_features(head: &[u8]) -> bool
    requires { 104 ≤ length head.now }
    ensures { IsTrue result ↔ ((u64_at head.now 8 ≡ 0) × (u32_at head.now 32 ≡ 0) × (u32_at head.now 60 ≡ 0) × (u64_at head.now 72 ≡ 0) × (u64_at head.now 88 ≡ 0)) }
{
    number64(head, 8) == 0
        && number32(head, 32) == 0
        && number32(head, 60) == 0
        && number64(head, 72) == 0
        && number64(head, 88) == 0
}

fn has_size(head: &[u8]) -> bool
    requires { 104 ≤ length head.now }
    ensures { IsTrue result ↔ ((0 < u64_at head.now 24) × (u64_at head.now 24 ≤ 2 ^ 21) × (u64_at head.now 24 % 512 ≡ 0)) }
{
    let size = number64(head, 24);
    size > 0 && size <= 1 << 21 && size % 512 == 0
}

/// Whether the header is one that is taken.
fn is_header(head: &[u8]) -> bool
    requires { 104 ≤ length head.now }
    ensures { IsTrue result ↔ IsHeader head.now }
{
    has_form(head) && has_no_features(head) && has_size(head)
}

fn is_cluster(offset: u64, end: u64) -> bool
    ensures { IsTrue result ↔ ((offset % 4096 ≡ 0) × (0 < offset) × (offset < end)) }
{
    offset % CLUSTER == 0 && offset > 0 && offset < end
}

/// The offset that a plain first-level entry names, or 0.
fn table_in(entry: u64) -> Option<u64>
    ensures { MatchOption result (IsNamed entry → ⊥) (λ offset. IsNamed entry × (offset ≡ offset_in entry)) }
{
    match read_l1(entry, 12) {
        Ok(Some(offset)) => Some(offset),
        Ok(None) => { if entry == 0 { Some(0) } else { None } }
        Err(_) => None,
    }
}

/// The offset that a plain second-level entry names, or 0.
fn host_in(entry: u64) -> Option<u64>
    ensures { MatchOption result (IsNamed entry → ⊥) (λ offset. IsNamed entry × (offset ≡ offset_in entry)) }
{
    match read_l2(entry, 12) {
        Ok(L2Entry::Stored(offset)) => Some(offset),
        Ok(L2Entry::Hole) => { if entry == 0 { Some(0) } else { None } }
        Ok(L2Entry::Zero(_)) => None,
        Ok(L2Entry::Compressed) => None,
        Err(_) => None,
    }
}

/// Whether an entry before this one names the offset.
fn is_named_before(entries: &[u8], n: usize, offset: u64) -> bool
    requires { 8 * n ≤ length entries.now }
    ensures { IsTrue result ↔ ((m : ℕ) × (m < n) × (offset_in (u64_at entries.now (8 * m)) ≡ offset)) }
{
    for m in 0..n {
        if number64(entries, 8 * m) / 512 % (1 << 47) * 512 == offset {
            return true;
        }
    }
    false
}

fn entry_fits(entries: &[u8], l1: u64, table: u64, end: u64, n: usize) -> bool
    requires { 8 * n + 8 ≤ length entries.now }
    ensures { IsTrue result ↔ EntryFits entries.now l1 table end n }
{
    match host_in(number64(entries, 8 * n)) {
        None => false,
        Some(0) => true,
        Some(offset) => {
            offset < end && offset != l1 && offset != table && !is_named_before(entries, n, offset)
        }
    }
}

fn entries_fit(entries: &[u8], l1: u64, table: u64, end: u64, count: usize) -> bool
    requires { 8 * count ≤ length entries.now }
    ensures { IsTrue result ↔ EntriesFit entries.now l1 table end count }
{
    for n in 0..count {
        if !entry_fits(entries, l1, table, end, n) {
            return false;
        }
    }
    true
}

/// Whether the tables of the image fit, its header having been tested.
fn tables_fit<D: Depot>(depot: &mut D, image: &Image) -> Result<bool, Failed>
    requires given { image.now.file.0 < (D.world depot.old).given }
    requires l1 { image.now.l1 ≤ 2 ^ 40 }
    requires end { image.now.end ≤ 2 ^ 40 }
    requires size { image.now.size ≤ 2 ^ 21 }
    ensures fit { IfOk result (λ fit. IsTrue (D.world depot.old).tells → IsTrue fit ↔ TablesFit ((D.world depot.old).seen image.now.file.0) image.now.size image.now.l1 image.now.end) }
    ensures run { Runs (reads_of image.now.file.0) (D.world depot.old) (D.world depot.new) }
    ensures cause { ReadCause (D.world depot.old) (D.world depot.new) image.now.file.0 result }
{
    let mut word = [0u8; 8];
    depot.read_at(image.file, image.l1, &mut word)?;
    let table = match table_in(u64::from_be_bytes(word)) {
        None => return Ok(false),
        Some(0) => return Ok(true),
        Some(table) => table,
    };
    if table >= image.end || table == image.l1 {
        return Ok(false);
    }
    let mut entries = [0u8; 4096];
    depot.read_at(image.file, table, &mut entries)?;
    let count = image.size.div_ceil(CLUSTER) as usize;
    Ok(entries_fit(&entries, image.l1, table, image.end, count))
}

/// The image that a header of this file describes, if it is one that is taken.
fn image_of(head: &[u8], file: FileNo, end: u64) -> Option<Image>
    requires { 104 ≤ length head.now }
    ensures { MatchOption result (HeadFits head.now end → ⊥) (λ image. HeadFits head.now end
        × (image ≡ record { file = file; size = u64_at head.now 24; l1 = u64_at head.now 40; end = end })) }
{
    let l1 = number64(head, 40);
    if is_header(head) && is_cluster(l1, end) {
        let size = number64(head, 24);
        Some(Image {
            file,
            size,
            l1,
            end,
        })
    } else {
        None
    }
}

/// Opens an image, if it is of the form that is taken. Nothing is written.
pub fn open_image<D: Depot>(depot: &mut D, file: FileNo) -> Result<Option<Image>, Failed>
    requires { file.0 < (D.world depot.old).given }
    ensures taken { IfOk result (λ found. IsTrue (D.world depot.old).tells →
        MatchOption found (IsTaken ((D.world depot.old).seen file.0) → ⊥)
        (λ image. IsTaken ((D.world depot.old).seen file.0) × IsOpen image ((D.world depot.old).seen file.0))) }
    ensures found { IfOk result (λ found. IfSome found (λ image. (image.file ≡ file) × (image.l1 ≤ 2 ^ 40) × (image.end ≤ 2 ^ 40) × (image.size ≤ 2 ^ 21))) }
    ensures run { Runs (reads_of file.0) (D.world depot.old) (D.world depot.new) }
    ensures cause { ReadCause (D.world depot.old) (D.world depot.new) file.0 result }
{
    let end = depot.size(file)?;
    if end < 104 || end % CLUSTER != 0 || end > 1 << 40 {
        return Ok(None);
    }
    let mut head = [0u8; 104];
    depot.read_at(file, 0, &mut head)?;
    let Some(image) = image_of(&head, file, end) else {
        return Ok(None);
    };
    if tables_fit(depot, &image)? {
        Ok(Some(image))
    } else {
        Ok(None)
    }
}
