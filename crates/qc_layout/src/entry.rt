//! The entries of an image's two levels of tables.

ghost use Rattle.std.specs.Prelude.{◌≡◌, ◌≤◌, ◌<◌, ◌^◌, ℕ, Ok};
ghost use Rattle.qc_layout.specs.Entries.{offset_in, l1_of, l2_of, l2_word, IsWritable};

/// Bit 63 of an entry: the refcount is one.
pub const OFLAG_COPIED: u64 = 1 << 63;

/// Bit 62 of an entry of the second level: the cluster is compressed.
pub const OFLAG_COMPRESSED: u64 = 1 << 62;

/// Bit 0 of an entry of the second level: the cluster reads as zeros.
pub const OFLAG_ZERO: u64 = 1;

/// Why an entry of a table is refused.
#[derive(Clone, Copy, Debug, PartialEq, Eq)]
pub enum EntryFault {
    /// A bit that must be zero is set.
    Reserved,
    /// The offset is no multiple of the cluster size.
    Misaligned,
}

/// What an entry of a second-level table says of a cluster of the disk. Offsets are in bytes from the file's start.
#[derive(Clone, Copy, Debug, PartialEq, Eq)]
pub enum L2Entry {
    /// Nothing is stored, and the cluster reads as zeros.
    Hole,
    /// The cluster reads as zeros, and a host cluster is kept for it.
    Zero(u64),
    /// The cluster is stored at this offset.
    Stored(u64),
    /// The cluster is compressed.
    Compressed,
}

/// The offset in an entry: its bits 9 to 55.
fn offset_in(entry: u64) -> u64
    ensures { result ≡ offset_in entry }
{
    entry / 512 % (1 << 47) * 512
}

/// What a word of the first-level table says: the offset of a second-level table, or none. `cluster_bits` is from 9 to 21.
///
/// qcow2 specification, "L1 table entry". Bits 0 to 8 and 56 to 62 are reserved; bit 63 isn't tested.
#[tactic(auto, unfolding(crate::specs::Entries::l1_of))]
pub fn read_l1(entry: u64, cluster_bits: u32) -> Result<Option<u64>, EntryFault>
    requires low { 9 ≤ cluster_bits }
    requires high { cluster_bits ≤ 21 }
    ensures { result ≡ l1_of cluster_bits entry }
{
    if entry % 512 != 0 || entry / (1 << 56) % 128 != 0 {
        return Err(EntryFault::Reserved);
    }
    let offset = offset_in(entry);
    if offset % (1 << cluster_bits) != 0 {
        return Err(EntryFault::Misaligned);
    }
    if offset == 0 {
        Ok(None)
    } else {
        Ok(Some(offset))
    }
}

/// What a word of a second-level table says. `cluster_bits` is from 9 to 21.
///
/// qcow2 specification, "L2 table entry" and "Standard Cluster Descriptor". Bit 62 is tested first; bits 1 to 8 and 56
/// to 61 are reserved; bit 63 isn't tested.
#[tactic(auto, unfolding(crate::specs::Entries::l2_of))]
pub fn read_l2(entry: u64, cluster_bits: u32) -> Result<L2Entry, EntryFault>
    requires low { 9 ≤ cluster_bits }
    requires high { cluster_bits ≤ 21 }
    ensures { result ≡ l2_of cluster_bits entry }
{
    if entry / OFLAG_COMPRESSED % 2 == 1 {
        return Ok(L2Entry::Compressed);
    }
    if entry / 2 % 256 != 0 || entry / (1 << 56) % 64 != 0 {
        return Err(EntryFault::Reserved);
    }
    let offset = offset_in(entry);
    if offset % (1 << cluster_bits) != 0 {
        return Err(EntryFault::Misaligned);
    }
    if offset == 0 {
        Ok(L2Entry::Hole)
    } else if entry % 2 == OFLAG_ZERO {
        Ok(L2Entry::Zero(offset))
    } else {
        Ok(L2Entry::Stored(offset))
    }
}

/// The word that says this, with bit 63 set (the refcount is one) where there is an offset; a hole is 0.
///
/// What is said of the word holds of an entry that some word says, for clusters of some size: its offset, where it has
/// one, is a multiple of 512 above 0 and below 2^56.
#[tactic(auto, unfolding(crate::specs::Entries::l2_of))]
pub fn write_l2(entry: L2Entry) -> u64
    ensures word { IsWritable entry → result ≡ l2_word entry }
    // The word is read as this entry, by whoever reads such an entry from some word.
    ensures reads_back { (bits word : ℕ) → 9 ≤ bits → bits ≤ 21 → l2_of bits word ≡ Ok entry → l2_of bits result ≡ Ok entry }
{
    match entry {
        L2Entry::Hole => 0,
        L2Entry::Zero(offset) => (offset | OFLAG_ZERO) | OFLAG_COPIED,
        L2Entry::Stored(offset) => offset | OFLAG_COPIED,
        L2Entry::Compressed => OFLAG_COMPRESSED,
    }
}
