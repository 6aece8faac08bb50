//! Bytes and numbers at an offset, with zeros past the end.

ghost use Rattle.std.specs.Prelude.{◌≡◌, ◌<◌, ◌≤◌, ◌^◌};
ghost use Rattle.disk_model.specs.Files.{byte, reading, u32_at, u64_at};

/// The byte at an offset.
pub(crate) fn byte_at(bytes: &[u8], at: u64) -> u8
    ensures { result ≡ byte bytes.now at }
{
    let at = at as usize;
    if at < bytes.len() { bytes[at] } else { 0 }
}

/// The bytes from an offset on.
pub(crate) fn array_at<const N: usize>(bytes: &[u8], at: u64) -> [u8; N]
    requires near { at < 2 ^ 32 }
    requires few { N ≤ 64 }
    ensures { result ≡ reading bytes.now at N }
{
    let mut out = [0; N];
    for i in 0..N {
        out[i] = byte_at(bytes, at + i as u64);
    }
    out
}

/// The number of four bytes at an offset.
#[tactic(auto, unfolding(disk_model::specs::Files::number_at))]
pub(crate) fn number_32(bytes: &[u8], at: u64) -> u32
    requires { at < 2 ^ 32 }
    ensures { result ≡ u32_at bytes.now at }
{
    u32::from_be_bytes(array_at(bytes, at))
}

/// The number of eight bytes at an offset.
#[tactic(auto, unfolding(disk_model::specs::Files::number_at))]
pub(crate) fn number_64(bytes: &[u8], at: u64) -> u64
    requires { at < 2 ^ 32 }
    ensures { result ≡ u64_at bytes.now at }
{
    u64::from_be_bytes(array_at(bytes, at))
}
