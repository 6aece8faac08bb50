//! The heads of options and of requests.

ghost use Rattle.std.specs.Prelude.{◌≡◌};
ghost use Rattle.nbd_codec.specs.Heads.{parsed_option, parsed_request};

use crate::numbers::{u16_at, u32_at, u64_at};

/// What the first bytes of a stream say.
#[derive(Clone, Copy, Debug, PartialEq, Eq)]
pub enum Parsed<T> {
    /// There is no whole head yet.
    More,
    /// A head of so many bytes.
    Got(T, usize),
    /// A whole head would begin with other bytes.
    WrongMagic,
}

/// An option's number, and how many bytes its content has.
#[derive(Clone, Copy, Debug, PartialEq, Eq)]
pub struct OptionHead {
    pub number: u32,
    pub length: u32,
}

/// A request's head. A write's bytes follow it.
#[derive(Clone, Copy, Debug, PartialEq, Eq)]
pub struct RequestHead {
    pub flags: u16,
    pub kind: u16,
    pub cookie: u64,
    pub offset: u64,
    pub length: u32,
}

/// Reads the head of an option, of 16 bytes.
pub fn read_option(bytes: &[u8]) -> Parsed<OptionHead>
    ensures { result ≡ parsed_option bytes.now }
{
    if bytes.len() < 16 {
        return Parsed::More;
    }
    if &bytes[..8] != b"IHAVEOPT".as_slice() {
        return Parsed::WrongMagic;
    }
    let head = OptionHead {
        number: u32_at(bytes, 8),
        length: u32_at(bytes, 12),
    };
    Parsed::Got(head, 16)
}

/// Reads the head of a request, of 28 bytes.
pub fn read_request(bytes: &[u8]) -> Parsed<RequestHead>
    ensures { result ≡ parsed_request bytes.now }
{
    if bytes.len() < 28 {
        return Parsed::More;
    }
    if &bytes[..4] != [0x25, 0x60, 0x95, 0x13].as_slice() {
        return Parsed::WrongMagic;
    }
    let head = RequestHead {
        flags: u16_at(bytes, 4),
        kind: u16_at(bytes, 6),
        cookie: u64_at(bytes, 8),
        offset: u64_at(bytes, 16),
        length: u32_at(bytes, 24),
    };
    Parsed::Got(head, 28)
}
