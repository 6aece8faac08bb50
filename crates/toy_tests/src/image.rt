//! An image for the tests.

use std::alloc::{AllocError, Global};

/// How long it is, in bytes.
pub const LENGTH: usize = 4608;

/// Puts bytes at a place, as far as the image goes.
pub fn put(image: &mut Vec<u8>, at: usize, bytes: &[u8]) {
    for (i, byte) in bytes.iter().enumerate() {
        if let Some(place) = image.get_mut(at.saturating_add(i)) {
            *place = *byte;
        }
    }
}

/// An empty disk of 2048 bytes in clusters of 512, written by hand from the format: the header, with the id of a disk and
/// its 7th epoch, the refcount table and its block, the two levels, and the disk's four clusters in a row.
pub fn image(alloc: Global, length: usize) -> Result<Vec<u8>, AllocError> {
    let mut bytes = vec![in alloc; 0u8; length]?;
    put(&mut bytes, 0, b"QFI\xfb\0\0\0\x03");
    put(&mut bytes, 20, b"\0\0\0\x09\0\0\0\0\0\0\x08\0");
    put(&mut bytes, 36, b"\0\0\0\x01\0\0\0\0\0\0\x06\0");
    put(&mut bytes, 48, b"\0\0\0\0\0\0\x02\0\0\0\0\x01");
    put(&mut bytes, 96, b"\0\0\0\x04\0\0\0\x70");
    put(
        &mut bytes,
        112,
        b"RBK1\0\0\0\x280123456789abcdef\0\0\0\0\0\0\0\x07",
    );
    put(&mut bytes, 512, b"\0\0\0\0\0\0\x04\0");
    put(
        &mut bytes,
        1024,
        b"\0\x01\0\x01\0\x01\0\x01\0\x01\0\x01\0\x01\0\x01\0\x01",
    );
    put(&mut bytes, 1536, b"\x80\0\0\0\0\0\x08\0");
    put(
        &mut bytes,
        2048,
        b"\x80\0\0\0\0\0\x0a\0\x80\0\0\0\0\0\x0c\0",
    );
    put(
        &mut bytes,
        2064,
        b"\x80\0\0\0\0\0\x0e\0\x80\0\0\0\0\0\x10\0",
    );
    Ok(bytes)
}
