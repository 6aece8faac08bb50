//! The list of header extensions.

ghost use Rattle.std.specs.Prelude.{◌≡◌, ◌+◌, ◌≤◌, ◌^◌, List, IfOk, MatchOption, nat_lt};
ghost use Rattle.std.specs.List.{All};
ghost use Rattle.qc_layout.specs.Extensions.{IsExtension, AreExtensions, padded, behind, count_of, first_of_kind, is_kept, kept_length, list_end};
ghost use Rattle.qc_layout.specs.Reading.{IsNext, IsNear, IsNearIfThere};

use crate::numbers::number_32;
use std::alloc::{AllocError, Global};

/// The kind of the backing file's format.
const BACKING_KIND: u32 = 0xe2792aca;

/// The kind of names of features.
const NAMES_KIND: u32 = 0x6803f857;

/// The kind of persistent bitmaps.
pub(crate) const BITMAPS_KIND: u32 = 0x23852875;

/// The kind that is this project's own.
pub(crate) const OWN_KIND: u32 = 0x52424b31;

/// One extension: its kind, and where its content stands in the file.
#[derive(Clone, Copy, Debug)]
pub(crate) struct Extension {
    pub kind: u32,
    pub place: u64,
    pub length: u32,
}

/// What stands at a place of the list.
#[derive(Clone, Copy)]
pub(crate) enum Next {
    /// The list ends.
    End,
    /// An extension runs past the list's end.
    Broken,
    /// An extension.
    Whole(Extension),
}

/// Where the list ends at the latest, for clusters of 2 to the power `bits` bytes.
pub(crate) fn list_end(bits: u32) -> u64
    requires { bits ≤ 21 }
    ensures { result ≡ list_end bits }
{
    (1 << bits).min(65536)
}

/// How many bytes a content of so many takes.
pub(crate) fn padded(length: u32) -> u64
    ensures { result ≡ padded length }
{
    (u64::from(length) + 7) / 8 * 8
}

/// What stands here in a list that ends at `end`.
pub(crate) fn next_extension(bytes: &[u8], end: u64, from: u64) -> Next
    requires end { end ≤ 65536 }
    requires from { from ≤ 2 ^ 32 }
    ensures { IsNext bytes.now end from result }
{
    if end < from + 8 {
        return Next::End;
    }
    let kind = number_32(bytes, from);
    if kind == 0 {
        return Next::End;
    }
    let length = number_32(bytes, from + 4);
    let place = from + 8;
    if place + u64::from(length) > end {
        return Next::Broken;
    }
    Next::Whole(Extension {
        kind,
        place,
        length,
    })
}

/// The extensions from here on, or none where one of them runs past the list's end.
pub(crate) fn list_extensions(
    alloc: Global,
    bytes: &[u8],
    end: u64,
    from: u64,
) -> Result<Option<Vec<Extension>>, AllocError>
    requires end { end ≤ 65536 }
    requires from { from ≤ 65536 }
    ensures { IfOk result (λ found. MatchOption found ((es : List Extension) → AreExtensions bytes.now end from es → ⊥) (λ v. AreExtensions bytes.now end from v.items)) }
{
    let mut found = Vec::new(alloc);
    let mut at = from;
    loop {
        match next_extension(bytes, end, at) {
            Next::End => return Ok(Some(found)),
            Next::Broken => return Ok(None),
            Next::Whole(e) => {
                at = e.place + padded(e.length);
                found.push(e)?;
            }
        }
    }
}

/// How many are of a kind.
pub(crate) fn count_of(kind: u32, extensions: &[Extension]) -> usize
    ensures { result ≡ count_of kind extensions.now }
{
    let mut count = 0;
    for e in extensions {
        if e.kind == kind {
            count += 1;
        }
    }
    count
}

/// The first of a kind.
pub(crate) fn first_of_kind(kind: u32, extensions: &[Extension]) -> Option<Extension>
    requires { All IsNear extensions.now }
    ensures first { result ≡ first_of_kind kind extensions.now }
    ensures near { IsNearIfThere result }
{
    for e in extensions {
        if e.kind == kind {
            return Some(*e);
        }
    }
    None
}

/// Whether a rewritten header keeps it.
pub(crate) fn is_kept(extension: &Extension) -> bool
    ensures { result ≡ is_kept extension.now }
{
    let kind = extension.kind;
    !(kind == BACKING_KIND || kind == NAMES_KIND || kind == BITMAPS_KIND || kind == OWN_KIND)
}

/// Whether what a rewritten header keeps doesn't fit into a sector.
pub(crate) fn is_too_long(header_length: u32, extensions: &[Extension]) -> bool
    requires { header_length ≤ 504 }
    ensures { result ≡ nat_lt 512 (header_length + kept_length extensions.now + 48 + 32 + 8) }
{
    let mut total = u64::from(header_length) + 48 + 32 + 8;
    for e in extensions {
        if is_kept(e) {
            total += 8 + padded(e.length);
        }
        if total > 512 {
            return true;
        }
    }
    total > 512
}
