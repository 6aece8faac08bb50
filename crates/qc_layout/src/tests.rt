//! Headers as the format's own description spells them.

use crate::{DirPlace, Header, HeaderFault, Own, Part, read_header};
use std::alloc::{AllocError, Global};

// Puts bytes at one place.
fn put(image: &mut Vec<u8>, at: usize, bytes: &[u8]) {
    for (i, byte) in bytes.iter().enumerate() {
        if let Some(place) = image.get_mut(at.saturating_add(i)) {
            *place = *byte;
        }
    }
}

// A disk of 16384 bytes in clusters of 4096, whose header has 120 bytes.
fn plain(alloc: Global) -> Result<Vec<u8>, AllocError> {
    let mut bytes = vec![in alloc; 0u8; 512]?;
    put(&mut bytes, 0, b"QFI\xfb\0\0\0\x03");
    put(&mut bytes, 20, b"\0\0\0\x0c\0\0\0\0\0\0\x40\0");
    put(&mut bytes, 36, b"\0\0\0\x01\0\0\0\0\0\0\x30\0");
    put(&mut bytes, 48, b"\0\0\0\0\0\0\x10\0\0\0\0\x01");
    put(&mut bytes, 80, b"\0\0\0\0\0\0\0\x01\0\0\0\0\0\0\0\x01");
    put(&mut bytes, 96, b"\0\0\0\x04\0\0\0\x78");
    put(&mut bytes, 112, b"ABCDEFGH");
    Ok(bytes)
}

// With an unknown extension of three bytes, the names of features, bitmaps, and this project's own.
fn full(alloc: Global) -> Result<Vec<u8>, AllocError> {
    let mut bytes = plain(alloc)?;
    put(&mut bytes, 120, b"\x11\x22\x33\x44\0\0\0\x03xyz\0\0\0\0\0");
    put(&mut bytes, 136, b"\x68\x03\xf8\x57\0\0\0\x05names\0\0\0");
    put(
        &mut bytes,
        152,
        b"\x23\x85\x28\x75\0\0\0\x18\0\0\0\x02\0\0\0\0\0\0\0\0\0\0\0\x40\0\0\0\0\0\0\x50\0",
    );
    put(
        &mut bytes,
        184,
        b"RBK1\0\0\0\x280123456789abcdef\0\0\0\0\0\0\0\x07\0\0\0\0\0\0\x60\0\0\0\0\0\0\0\x02\0",
    );
    Ok(bytes)
}

// What is refused once these bytes stand at one place.
fn fault_with(alloc: Global, at: usize, bytes: &[u8]) -> Result<Option<HeaderFault>, AllocError> {
    let mut image = full(alloc)?;
    put(&mut image, at, bytes);
    Ok(read_header(alloc, &image, Part::Source).err())
}

fn read(alloc: Global) -> Result<Header, HeaderFault> {
    let bytes = full(alloc).map_err(|_| HeaderFault::Memory)?;
    read_header(alloc, &bytes, Part::Source)
}

#[test]
fn a_header_is_read(rt: HostRuntime) {
    let header = read(rt.alloc()).expect(&rt, "a header");
    assert_eq!(rt; header.fields.cluster_bits, 12);
    assert_eq!(rt; header.fields.size, 16384);
    assert_eq!(rt; header.fields.l1_table_offset, 0x3000);
    assert_eq!(rt; header.fields.refcount_table_offset, 0x1000);
    assert_eq!(rt; header.fields.header_length, 120);
    assert_eq!(rt;
        header.kept.items.as_slice(),
        b"ABCDEFGH\x11\x22\x33\x44\0\0\0\x03xyz\0\0\0\0\0".as_slice()
    );
    assert_eq!(rt;
        header.bitmaps,
        Some(DirPlace {
            offset: 0x5000,
            size: 64,
            count: 2
        })
    );
    assert_eq!(rt; header.own_at, 192);
    let Own::Source {
        disk,
        epoch,
        spans_offset,
        spans_length,
    } = header.own
    else {
        panic!(rt; "no id");
    };
    assert_eq!(rt; disk, *b"0123456789abcdef");
    assert_eq!(rt; epoch, 7);
    assert_eq!(rt; spans_offset, 0x6000);
    assert_eq!(rt; spans_length, 512);
}

#[test]
fn headers_are_refused(rt: HostRuntime) {
    let alloc = rt.alloc();
    assert_eq!(rt; fault_with(alloc, 0, b""), Ok(None));
    assert_eq!(rt; fault_with(alloc, 0, b"q"), Ok(Some(HeaderFault::Magic)));
    assert_eq!(rt;
        fault_with(alloc, 20, b"\0\0\0\x16"),
        Ok(Some(HeaderFault::ClusterBits))
    );
    assert_eq!(rt;
        fault_with(alloc, 79, b"\x02"),
        Ok(Some(HeaderFault::Corrupt))
    );
    assert_eq!(rt;
        fault_with(alloc, 39, b"\0"),
        Ok(Some(HeaderFault::L1Table))
    );
    assert_eq!(rt;
        fault_with(alloc, 124, b"\0\0\x0f\x80"),
        Ok(Some(HeaderFault::TooLong))
    );
    assert_eq!(rt;
        fault_with(alloc, 124, b"\0\0\x0f\x81"),
        Ok(Some(HeaderFault::Extensions))
    );
    assert_eq!(rt;
        fault_with(alloc, 188, b"\0\0\0\x29"),
        Ok(Some(HeaderFault::OwnExtension))
    );
}
