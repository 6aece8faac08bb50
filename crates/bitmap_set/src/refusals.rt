//! Why a call is refused.

/// Why a call is refused: the first of these rules that fails, in this order, or want of memory.
#[derive(Clone, Copy, Debug, PartialEq, Eq)]
pub enum BitmapRefusal {
    /// A name is empty, has more than 1,023 bytes, isn't UTF-8, or has a byte below 32 or equal to 127.
    BadName,
    /// There is a bitmap of that name.
    NameTaken,
    /// There are 64 bitmaps.
    TooMany,
    /// The granularity is no power of two from 512 to 2^31.
    BadGranularity,
    /// There would be more than 2^27 granules.
    TooFine,
    /// There is no bitmap of that name.
    NoSuchBitmap,
    /// A job uses the bitmap.
    Busy,
    /// The image didn't say that the bitmap can be trusted. It can only be removed.
    Inconsistent,
    /// There was no memory.
    Memory,
}
