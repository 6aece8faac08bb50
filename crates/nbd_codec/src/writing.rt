//! The greeting and replies, as they are sent.

ghost use Rattle.std.specs.Prelude.{◌≡◌, ◌<◌, ◌^◌, ◌++◌, length, OnOk, OnErr};
ghost use Rattle.nbd_model.specs.Numbers.{be16, be32, be64, option_reply_magic, simple_magic};
ghost use Rattle.nbd_model.specs.Options as options;
ghost use Rattle.nbd_model.specs.Requests as requests;
ghost use Rattle.nbd_model.specs.Sessions as sessions;
ghost use Rattle.nbd_codec.specs.Spelling as spelling;

use span_algebra::Bytes;
use std::alloc::{AllocError, Global};

/// The greeting: fixed newstyle, and no zeros if the client likes.
const GREETING: &[u8] = b"NBDMAGICIHAVEOPT\x00\x03";

/// Appends a head and its content, or nothing.
fn append(out: &mut Bytes, head: &[u8], content: &[u8]) -> Result<(), AllocError>
    ensures written { OnOk result (out.new.items.items ≡ out.old.items.items ++ (head.now ++ content.now)) }
    ensures kept { OnErr result (out.new.items.items ≡ out.old.items.items) }
{
    out.items.reserve(head.len() + content.len())?;
    out.items.extend_from_slice(head)?;
    out.items.extend_from_slice(content)
}

/// Appends the greeting.
pub fn write_greeting(_alloc: Global, out: &mut Bytes) -> Result<(), AllocError>
    ensures written { OnOk result (out.new.items.items ≡ out.old.items.items ++ sessions.greeting) }
    ensures kept { OnErr result (out.new.items.items ≡ out.old.items.items) }
{
    out.items.extend_from_slice(GREETING)
}

/// What stands before the content of an option's reply.
fn option_reply_head(option: u32, kind: u32, size: u32) -> [u8; 20]
    ensures { result ≡ option_reply_magic ++ be32 option ++ be32 kind ++ be32 size }
{
    let o = option.to_be_bytes();
    let k = kind.to_be_bytes();
    let s = size.to_be_bytes();
    [
        0x00, 0x03, 0xe8, 0x89, 0x04, 0x55, 0x65, 0xa9, o[0], o[1], o[2], o[3], k[0], k[1], k[2],
        k[3], s[0], s[1], s[2], s[3],
    ]
}

/// Appends a reply to the option of this number.
pub fn write_option_reply(
    _alloc: Global,
    option: u32,
    kind: u32,
    content: &[u8],
    out: &mut Bytes,
) -> Result<(), AllocError>
    requires { length content.now < 2 ^ 32 }
    ensures written { OnOk result (out.new.items.items ≡ out.old.items.items ++ options.option_reply option kind content.now) }
    ensures kept { OnErr result (out.new.items.items ≡ out.old.items.items) }
{
    let head = option_reply_head(option, kind, content.len() as u32);
    append(out, &head, content)
}

/// What stands before the bytes of a simple reply.
fn simple_head(error: u32, cookie: u64) -> [u8; 16]
    ensures { result ≡ simple_magic ++ be32 error ++ be64 cookie }
{
    let e = error.to_be_bytes();
    let c = cookie.to_be_bytes();
    [
        0x67, 0x44, 0x66, 0x98, e[0], e[1], e[2], e[3], c[0], c[1], c[2], c[3], c[4], c[5], c[6],
        c[7],
    ]
}

/// Appends a simple reply to the request of this cookie, with the bytes of a read.
pub fn write_simple(
    _alloc: Global,
    error: u32,
    cookie: u64,
    bytes: &[u8],
    out: &mut Bytes,
) -> Result<(), AllocError>
    ensures written { OnOk result (out.new.items.items ≡ out.old.items.items ++ requests.simple_reply error cookie bytes.now) }
    ensures kept { OnErr result (out.new.items.items ≡ out.old.items.items) }
{
    append(out, &simple_head(error, cookie), bytes)
}

/// What stands before the content of a chunk.
fn chunk_head(done: bool, kind: u16, cookie: u64, size: u32) -> [u8; 20]
    ensures { result ≡ spelling.chunk_head done kind cookie size }
{
    let flags = u8::from(done);
    let k = kind.to_be_bytes();
    let c = cookie.to_be_bytes();
    let s = size.to_be_bytes();
    [
        0x66, 0x8e, 0x33, 0xef, 0x00, flags, k[0], k[1], c[0], c[1], c[2], c[3], c[4], c[5], c[6],
        c[7], s[0], s[1], s[2], s[3],
    ]
}

/// Appends a chunk of the structured reply to the request of this cookie, the last one or not.
pub fn write_chunk(
    _alloc: Global,
    done: bool,
    kind: u16,
    cookie: u64,
    content: &[u8],
    out: &mut Bytes,
) -> Result<(), AllocError>
    requires { length content.now < 2 ^ 32 }
    ensures written { OnOk result (out.new.items.items ≡ out.old.items.items ++ requests.chunk done kind cookie content.now) }
    ensures kept { OnErr result (out.new.items.items ≡ out.old.items.items) }
{
    let head = chunk_head(done, kind, cookie, content.len() as u32);
    append(out, &head, content)
}

/// Appends the head of a chunk whose content has so many bytes. The content is to follow.
pub fn write_chunk_head(
    _alloc: Global,
    done: bool,
    kind: u16,
    cookie: u64,
    size: u32,
    out: &mut Bytes,
) -> Result<(), AllocError>
    ensures written { OnOk result (out.new.items.items ≡ out.old.items.items ++ spelling.chunk_head done kind cookie size) }
    ensures kept { OnErr result (out.new.items.items ≡ out.old.items.items) }
{
    out.items
        .extend_from_slice(&chunk_head(done, kind, cookie, size))
}
