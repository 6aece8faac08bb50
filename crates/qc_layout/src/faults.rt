//! Why the clusters of an image, or its bitmaps, are refused.

/// What an opening refuses of an image's clusters first: an entry, by its own place in the file, or a cluster, by its offset.
#[derive(Clone, Copy, Debug, PartialEq, Eq)]
pub enum ImageFault {
    /// An entry of the refcount table is misaligned or has a reserved bit.
    BadBlock(u64),
    /// An entry of one of the two levels has a reserved bit.
    Reserved(u64),
    /// An entry of the second level names a compressed cluster.
    Compressed(u64),
    /// An entry of one of the two levels is misaligned.
    Misaligned(u64),
    /// No refcount reaches the cluster.
    PastLimit(u64),
    /// Something else refers to the cluster.
    Overlap(u64),
    /// The cluster isn't counted.
    Uncounted(u64),
}

/// Why a directory of bitmaps is refused, in the order of the tests.
#[derive(Clone, Copy, Debug, PartialEq, Eq)]
pub enum DirFault {
    /// There are more than 64 entries.
    TooManyEntries,
    /// The directory is too long, or its entries don't fill it.
    Entries,
    /// An unknown flag is set.
    Flags,
    /// The bitmap is no dirty bitmap.
    Kind,
    /// The granularity is out of range, or there are too many granules.
    Granularity,
    /// There is extra data.
    ExtraData,
    /// The name has no form.
    NameForm,
    /// An earlier entry has the name.
    SameName,
    /// The table has another size than the granules need, or isn't at a cluster.
    TableSize,
    /// An entry of the table has a reserved bit, or is misaligned.
    TableEntry,
    /// A bit behind the last granule is set.
    Tail,
}
