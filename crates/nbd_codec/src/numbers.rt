//! Numbers in bytes, first byte first.

ghost use Rattle.std.specs.Prelude.{◌≡◌, ◌+◌, ◌≤◌, length};
ghost use Rattle.nbd_model.specs.Numbers as numbers;

/// The number of two bytes at a place.
pub(crate) fn u16_at(bytes: &[u8], at: usize) -> u16
    requires { at + 2 ≤ length bytes.now }
    ensures { result ≡ numbers.u16_at bytes.now at }
{
    u16::from_be_bytes(bytes[at..at + 2].try_into().unwrap())
}

/// The number of four bytes at a place.
pub(crate) fn u32_at(bytes: &[u8], at: usize) -> u32
    requires { at + 4 ≤ length bytes.now }
    ensures { result ≡ numbers.u32_at bytes.now at }
{
    u32::from_be_bytes(bytes[at..at + 4].try_into().unwrap())
}

/// The number of eight bytes at a place.
pub(crate) fn u64_at(bytes: &[u8], at: usize) -> u64
    requires { at + 8 ≤ length bytes.now }
    ensures { result ≡ numbers.u64_at bytes.now at }
{
    u64::from_be_bytes(bytes[at..at + 8].try_into().unwrap())
}
