//! Bytes as the protocol's document has them.

use crate::{
    NbdFault, OptionHead, Parsed, RequestHead, read_info, read_meta, read_option, read_request,
    write_chunk, write_chunk_head, write_greeting, write_option_reply, write_simple,
};
use span_algebra::Bytes;
use std::alloc::{AllocError, Global};

// An option of number 3 without content.
const LIST: &[u8] = b"IHAVEOPT\x00\x00\x00\x03\x00\x00\x00\x00";

// A write of two bytes at 0x200.
const WRITE: &[u8] =
    b"\x25\x60\x95\x13\x00\x01\x00\x01\x01\x02\x03\x04\x05\x06\x07\x08\x00\x00\x00\x00\x00\x00\x02\x00\x00\x00\x00\x02\xaa\xbb";

fn empty(alloc: Global) -> Bytes {
    Bytes {
        items: Vec::new(alloc),
    }
}

#[test]
fn a_connection_is_greeted(rt: HostRuntime) {
    let mut out = empty(rt.alloc());
    write_greeting(rt.alloc(), &mut out).expect(&rt, "memory");
    let want = [
        0x4e, 0x42, 0x44, 0x4d, 0x41, 0x47, 0x49, 0x43, 0x49, 0x48, 0x41, 0x56, 0x45, 0x4f, 0x50,
        0x54, 0x00, 0x03,
    ];
    assert_eq!(rt; out.items.as_slice(), want.as_slice());
}

#[test]
fn an_option_shows_once_its_head_is_whole(rt: HostRuntime) {
    for end in 0..16 {
        assert_eq!(rt; read_option(&LIST[..end]), Parsed::More, "{end}");
    }
    let head = OptionHead {
        number: 3,
        length: 0,
    };
    assert_eq!(rt; read_option(LIST), Parsed::Got(head, 16));
    let other = b"IHAVEOPS\x00\x00\x00\x03\x00\x00\x00\x00";
    assert_eq!(rt; read_option(&other[..15]), Parsed::More);
    assert_eq!(rt; read_option(other), Parsed::WrongMagic);
}

#[test]
fn a_request_shows_once_its_head_is_whole(rt: HostRuntime) {
    for end in 0..28 {
        assert_eq!(rt; read_request(&WRITE[..end]), Parsed::More, "{end}");
    }
    let head = RequestHead {
        flags: 1,
        kind: 1,
        cookie: 0x0102_0304_0506_0708,
        offset: 512,
        length: 2,
    };
    assert_eq!(rt; read_request(WRITE), Parsed::Got(head, 28));
    assert_eq!(rt; read_request(&WRITE[..28]), Parsed::Got(head, 28));
    let other = &WRITE[1..29];
    assert_eq!(rt; read_request(&other[..27]), Parsed::More);
    assert_eq!(rt; read_request(other), Parsed::WrongMagic);
}

// Whether sizes are asked of the export `v`; none where the content has another form.
fn asks_sizes(alloc: Global, content: &[u8]) -> Result<Option<bool>, AllocError> {
    match read_info(alloc, content) {
        Ok(ask) => {
            if ask.name.items.as_slice() == b"v".as_slice() {
                Ok(Some(ask.sizes))
            } else {
                Ok(None)
            }
        }
        Err(fault) => match fault {
            NbdFault::Memory => Err(AllocError),
            _ => Ok(None),
        },
    }
}

#[test]
fn information_is_asked_by_kinds(rt: HostRuntime) {
    let table: [(&[u8], Option<bool>); 9] = [
        (b"\x00\x00\x00\x01v\x00\x00", Some(false)),
        (b"\x00\x00\x00\x01v\x00\x01\x00\x03", Some(true)),
        (b"\x00\x00\x00\x01v\x00\x01\x03\x00", Some(false)),
        (b"\x00\x00\x00\x01v\x00\x02\x00\x00\x00\x03", Some(true)),
        (b"\x00\x00\x00\x01v\x00\x02\x00\x00\x03\x00", Some(false)),
        (b"\x00\x00\x00\x01v\x00\x01\x00\x03\x00", None),
        (b"\x00\x00\x00\x01v\x00", None),
        (b"\x00\x00\x00\x02v\x00", None),
        (b"\x00\x00\x00", None),
    ];
    for (content, want) in table {
        let got = asks_sizes(rt.alloc(), content).expect(&rt, "memory");
        assert_eq!(rt; got, want, "{content:?}");
    }
}

#[test]
fn contexts_are_asked_by_queries(rt: HostRuntime) {
    let content = b"\x00\x00\x00\x01v\x00\x00\x00\x01\x00\x00\x00\x15qemu:dirty-bitmap:tmp";
    match read_meta(rt.alloc(), content) {
        Ok(ask) => {
            assert_eq!(rt; ask.name.items.as_slice(), b"v".as_slice());
            assert_eq!(rt; ask.queries.items.len(), 1);
            let query = ask.queries.items[0].items.as_slice();
            assert_eq!(rt; query, b"qemu:dirty-bitmap:tmp".as_slice());
        }
        Err(_) => assert!(rt; false, "it has a form"),
    }
}

// A word for what becomes of a content that asks contexts.
fn met(alloc: Global, content: &[u8]) -> &'static str {
    match read_meta(alloc, content) {
        Ok(_) => "read",
        Err(fault) => match fault {
            NbdFault::BadForm => "bad form",
            NbdFault::TooMany(name) => {
                if name.items.as_slice() == b"v".as_slice() {
                    "too many"
                } else {
                    "another name"
                }
            }
            NbdFault::Memory => "no memory",
        },
    }
}

// Queries that are empty, of the export `v`.
fn queries(alloc: Global, told: u8, count: usize) -> Result<Vec<u8>, AllocError> {
    let mut content = Vec::from_slice(alloc, b"\x00\x00\x00\x01v\x00\x00\x00")?;
    content.push(told)?;
    for _ in 0..count {
        content.extend_from_slice(b"\x00\x00\x00\x00")?;
    }
    Ok(content)
}

#[test]
fn a_bad_form_is_told_before_too_many_queries(rt: HostRuntime) {
    let table = [
        (0, 0, "read"),
        (16, 16, "read"),
        (17, 17, "too many"),
        (200, 200, "too many"),
        (16, 17, "bad form"),
        (17, 16, "bad form"),
        (17, 18, "bad form"),
    ];
    for (told, count, want) in table {
        let content = queries(rt.alloc(), told, count).expect(&rt, "memory");
        assert_eq!(rt; met(rt.alloc(), &content), want, "{told} {count}");
    }
    let many = b"\x00\x00\x00\x01v\xff\xff\xff\xff\x00\x00\x00\x00\x00\x00\x00\x00";
    assert_eq!(rt; met(rt.alloc(), many), "bad form");
    assert_eq!(rt;
        met(rt.alloc(), b"\x00\x00\x00\x01v\x00\x00\x00"),
        "bad form"
    );
    assert_eq!(rt; met(rt.alloc(), b"\x00\x00\x00\x01"), "bad form");
}

#[test]
fn replies_are_appended(rt: HostRuntime) {
    let mut out = empty(rt.alloc());
    let cookie = 0x0102_0304_0506_0708;
    write_option_reply(rt.alloc(), 7, 0x8000_0006, b"", &mut out).expect(&rt, "memory");
    write_simple(rt.alloc(), 1, cookie, b"", &mut out).expect(&rt, "memory");
    write_simple(rt.alloc(), 0, cookie, b"\xcc", &mut out).expect(&rt, "memory");
    let want =
        b"\x00\x03\xe8\x89\x04\x55\x65\xa9\x00\x00\x00\x07\x80\x00\x00\x06\x00\x00\x00\x00\x67\x44\x66\x98\x00\x00\x00\x01\x01\x02\x03\x04\x05\x06\x07\x08\x67\x44\x66\x98\x00\x00\x00\x00\x01\x02\x03\x04\x05\x06\x07\x08\xcc";
    assert_eq!(rt; out.items.as_slice(), want.as_slice());
}

#[test]
fn chunks_are_appended(rt: HostRuntime) {
    let mut out = empty(rt.alloc());
    let cookie = 0x0102_0304_0506_0708;
    let content = b"\x00\x00\x00\x00\x00\x00\x02\x00\xaa\xbb";
    write_chunk(rt.alloc(), true, 1, cookie, content, &mut out).expect(&rt, "memory");
    let want =
        b"\x66\x8e\x33\xef\x00\x01\x00\x01\x01\x02\x03\x04\x05\x06\x07\x08\x00\x00\x00\x0a\x00\x00\x00\x00\x00\x00\x02\x00\xaa\xbb";
    assert_eq!(rt; out.items.as_slice(), want.as_slice());
    let mut head = empty(rt.alloc());
    write_chunk_head(rt.alloc(), false, 5, cookie, 12, &mut head).expect(&rt, "memory");
    let want = b"\x66\x8e\x33\xef\x00\x00\x00\x05\x01\x02\x03\x04\x05\x06\x07\x08\x00\x00\x00\x0c";
    assert_eq!(rt; head.items.as_slice(), want.as_slice());
}
