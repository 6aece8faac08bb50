//! A header, as the parts that it spells.

use span_algebra::Bytes;

/// What a qcow2 image begins with.
pub const QCOW_MAGIC: u32 = 0x514649fb;

/// As what a header is read.
#[derive(Clone, Copy, Debug, PartialEq, Eq)]
pub enum Part {
    /// A disk of this project.
    Source,
    /// A backup of this project.
    Target,
    /// An image of another program, or one of this project's disks.
    Foreign,
}

/// Why a header is refused, in the order in which the rules are tested.
#[derive(Clone, Copy, Debug, PartialEq, Eq)]
pub enum HeaderFault {
    /// The file has fewer than 104 bytes.
    Short,
    /// It doesn't begin as a qcow2 image.
    Magic,
    /// The version isn't 3.
    Version,
    /// The header's length is below 104, above 504 or no multiple of 8.
    HeaderLength,
    /// The cluster bits aren't from 9 to 21.
    ClusterBits,
    /// The disk's size is 0, above 2^40, above 2^27 clusters or no multiple of 512.
    Size,
    /// A disk has a backing file.
    Backing,
    /// The image is encrypted.
    Encrypted,
    /// It has internal snapshots.
    Snapshots,
    /// The dirty bit is set.
    Dirty,
    /// The corrupt bit is set.
    Corrupt,
    /// The data are in another file.
    ExternalData,
    /// The compression type isn't 0.
    Compression,
    /// Entries of the second level are extended.
    ExtendedL2,
    /// Another incompatible feature is set.
    Incompatible,
    /// Refcounts haven't 16 bits.
    RefcountOrder,
    /// The first-level table is too long, too short or misplaced.
    L1Table,
    /// The refcount table is empty, too long or misplaced.
    RefcountTable,
    /// An extension runs past the list's end, or one of two kinds stands twice.
    Extensions,
    /// What a rewritten header keeps doesn't fit into a sector.
    TooLong,
    /// The bitmaps extension is ill formed.
    BitmapsExtension,
    /// Bitmaps are said to be consistent, and there is no extension of them.
    Autoclear,
    /// This project's extension is of no form that it may have.
    OwnExtension,
    /// There was no memory.
    Memory,
}

/// The numbers of a header, each under its name in the format (qcow2 specification, "Header"). Offsets, sizes and lengths
/// are in bytes.
#[derive(Clone, Copy, Debug)]
pub struct Fields {
    pub magic: u32,
    pub version: u32,
    pub backing_file_offset: u64,
    pub backing_file_size: u32,
    pub cluster_bits: u32,
    pub size: u64,
    pub crypt_method: u32,
    pub l1_size: u32,
    pub l1_table_offset: u64,
    pub refcount_table_offset: u64,
    pub refcount_table_clusters: u32,
    pub nb_snapshots: u32,
    pub snapshots_offset: u64,
    pub incompatible_features: u64,
    pub compatible_features: u64,
    pub autoclear_features: u64,
    pub refcount_order: u32,
    pub header_length: u32,
    /// 0 where it isn't there.
    pub compression_type: u8,
}

/// Where the directory of bitmaps stands, how many bytes it has, and how many entries.
#[derive(Clone, Copy, Debug, PartialEq, Eq)]
pub struct DirPlace {
    pub offset: u64,
    pub size: u64,
    pub count: u32,
}

/// What this project's extension says.
#[derive(Clone, Copy, Debug)]
pub enum Own {
    /// There is none.
    Absent,
    /// Of a disk: its id, its epoch, and where the spans of its bitmaps stand.
    Source {
        disk: [u8; 16],
        epoch: u64,
        spans_offset: u64,
        spans_length: u64,
    },
    /// Of a backup: its record.
    Target([u8; 64]),
}

/// A header.
#[derive(Debug, Drop)]
pub struct Header {
    pub fields: Fields,
    /// The header's bytes past its 112th, then the extensions of unknown kinds, as they stand.
    pub kept: Bytes,
    /// What the bitmaps extension says.
    pub bitmaps: Option<DirPlace>,
    /// What this project's extension says.
    pub own: Own,
    /// Where the content of that begins in the file, or 0 where there is none.
    pub own_at: u64,
}
