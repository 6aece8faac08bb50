//! Images for the tests.

use std::alloc::{AllocError, Global};
use std::test::Fail;

/// Puts bytes at a place, as far as the image goes.
pub fn put(image: &mut Vec<u8>, at: usize, bytes: &[u8]) {
    for (i, byte) in bytes.iter().enumerate() {
        if let Some(place) = image.get_mut(at.saturating_add(i)) {
            *place = *byte;
        }
    }
}

/// The hexadecimal digits that a name stands for, and another text itself: the extension of a disk in its 7th epoch, the
/// first bytes of that of a backup, of a blank backup's record, and a well-formed extension of two bitmaps. A claim is a
/// record's id, the point that it is based on, and its own.
fn digits_of(name: &str) -> &str {
    match name {
        "source" => {
            "52424b3100000028303132333435363738396162636465660000000000000007\
             00000000000060000000000000000200"
        }
        "target" => "52424b3100000040",
        "record" => "00000001000000000000000000001000",
        "bitmaps" => "2385287500000018000000020000000000000000000000400000000000005000",
        "claim" => {
            "3031323334353637383961626364656600000000000000030000000100000000\
             0000000000000102ffffffffffffffff"
        }
        _ => name,
    }
}

/// Puts parts, each written as `AT:DIGITS` or `AT:NAME`, with spaces between them.
pub fn put_parts(alloc: Global, image: &mut Vec<u8>, parts: &str) -> Result<(), Fail> {
    if parts.is_empty() {
        return Ok(());
    }
    for part in parts.split(' ') {
        let (at, what) = part.split_once(':').ok_or("a place")?;
        let bytes = hex::decode(alloc, digits_of(what))?;
        put(image, at.parse()?, &bytes);
    }
    Ok(())
}

/// An empty disk of 16384 bytes in clusters of 4096.
pub fn image(alloc: Global) -> Result<Vec<u8>, AllocError> {
    let mut bytes = vec![in alloc; 0u8; 16384]?;
    put(&mut bytes, 0, b"QFI\xfb\0\0\0\x03");
    put(&mut bytes, 20, b"\0\0\0\x0c\0\0\0\0\0\0\x40\0");
    put(&mut bytes, 36, b"\0\0\0\x01\0\0\0\0\0\0\x30\0");
    put(&mut bytes, 48, b"\0\0\0\0\0\0\x10\0\0\0\0\x01");
    put(&mut bytes, 96, b"\0\0\0\x04\0\0\0\x70");
    put(&mut bytes, 4096, b"\0\0\0\0\0\0\x20\0");
    put(&mut bytes, 8192, b"\0\x01\0\x01\0\x01\0\x01");
    Ok(bytes)
}

/// The same with other bytes at one place.
pub fn changed_image(alloc: Global, at: usize, bytes: &[u8]) -> Result<Vec<u8>, AllocError> {
    let mut image = image(alloc)?;
    put(&mut image, at, bytes);
    Ok(image)
}
