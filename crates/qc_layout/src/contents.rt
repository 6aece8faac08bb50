//! What extensions contain, and the rules that they pass.

ghost use Rattle.std.specs.Prelude.{◌≡◌, ◌+◌, ◌≤◌, ◌^◌, ◌++◌, List, IfOk, OnOk};
ghost use Rattle.std.specs.List.{All};
ghost use Rattle.disk_model.specs.Files.{reading};
ghost use Rattle.qc_layout.specs.Header.{first_of};
ghost use Rattle.qc_layout.specs.Extensions.{is_bad_bitmaps, is_bad_own, bitmaps_in, own_in, place_in, extension_rules, tail_of, kept_bytes};
ghost use Rattle.qc_layout.specs.Reading.{IsNear, IsNearIfThere};

use crate::checks::{has_bit, is_place};
use crate::extension::{
    BITMAPS_KIND, Extension, OWN_KIND, count_of, first_of_kind, is_kept, is_too_long, padded,
};
use crate::header::{DirPlace, Fields, HeaderFault, Own, Part};
use crate::numbers::{array_at, byte_at, number_32, number_64};
use std::alloc::{AllocError, Global};

/// Whether the bitmaps extension is ill formed.
fn is_bad_bitmaps(bits: u32, bytes: &[u8], found: Option<Extension>) -> bool
    requires bits { bits ≤ 21 }
    requires near { IsNearIfThere found }
    ensures { result ≡ is_bad_bitmaps bits bytes.now found }
{
    match found {
        None => false,
        Some(e) => {
            e.length != 24
                || number_32(bytes, e.place + 4) > 0
                || number_32(bytes, e.place) == 0
                || !is_place(bits, number_64(bytes, e.place + 16))
        }
    }
}

/// Whether this project's extension is of no form that it may have.
fn is_bad_own(part: Part, found: Option<Extension>) -> bool
    requires { IsNearIfThere found }
    ensures { result ≡ is_bad_own part found }
{
    match found {
        None => false,
        Some(e) => match part {
            Part::Target => e.length != 64 || e.place + u64::from(e.length) > 512,
            Part::Source => e.length != 40,
            Part::Foreign => e.length != 40,
        },
    }
}

/// The rule of its extensions that a header fails.
pub(crate) fn extension_fault(
    part: Part,
    bytes: &[u8],
    fields: &Fields,
    extensions: &[Extension],
) -> Option<HeaderFault>
    requires bits { fields.now.cluster_bits ≤ 21 }
    requires length { fields.now.header_length ≤ 504 }
    requires near { All IsNear extensions.now }
    ensures { result ≡ first_of (extension_rules part bytes.now fields.now extensions.now) }
{
    let bitmaps = first_of_kind(BITMAPS_KIND, extensions);
    let own = first_of_kind(OWN_KIND, extensions);
    if count_of(BITMAPS_KIND, extensions) > 1 || count_of(OWN_KIND, extensions) > 1 {
        return Some(HeaderFault::Extensions);
    }
    if is_too_long(fields.header_length, extensions) {
        return Some(HeaderFault::TooLong);
    }
    if is_bad_bitmaps(fields.cluster_bits, bytes, bitmaps) {
        return Some(HeaderFault::BitmapsExtension);
    }
    if has_bit(fields.autoclear_features, 0) && bitmaps.is_none() {
        return Some(HeaderFault::Autoclear);
    }
    if is_bad_own(part, own) {
        return Some(HeaderFault::OwnExtension);
    }
    None
}

/// What the bitmaps extension says.
pub(crate) fn bitmaps_in(bytes: &[u8], found: Option<Extension>) -> Option<DirPlace>
    requires { IsNearIfThere found }
    ensures { result ≡ bitmaps_in bytes.now found }
{
    match found {
        None => None,
        Some(e) => Some(DirPlace {
            offset: number_64(bytes, e.place + 16),
            size: number_64(bytes, e.place + 8),
            count: number_32(bytes, e.place),
        }),
    }
}

/// What this project's own says.
pub(crate) fn own_in(bytes: &[u8], found: Option<Extension>) -> Own
    requires { IsNearIfThere found }
    ensures { result ≡ own_in bytes.now found }
{
    match found {
        None => Own::Absent,
        Some(e) => {
            if e.length == 40 {
                Own::Source {
                    disk: array_at(bytes, e.place),
                    epoch: number_64(bytes, e.place + 16),
                    spans_offset: number_64(bytes, e.place + 24),
                    spans_length: number_64(bytes, e.place + 32),
                }
            } else {
                Own::Target(array_at(bytes, e.place))
            }
        }
    }
}

/// Where its content begins, or 0.
pub(crate) fn place_in(found: Option<Extension>) -> u64
    ensures { result ≡ place_in found }
{
    match found {
        None => 0,
        Some(e) => e.place,
    }
}

/// Adds so many bytes from an offset on.
fn add_bytes(out: &mut Vec<u8>, bytes: &[u8], from: u64, count: u64) -> Result<(), AllocError>
    requires { from + count ≤ 2 ^ 32 }
    ensures { OnOk result (out.new.items ≡ out.old.items ++ reading bytes.now from count) }
{
    for i in 0..count {
        out.push(byte_at(bytes, from + i))?;
    }
    Ok(())
}

/// What a rewritten header keeps as it stands.
pub(crate) fn read_kept(
    alloc: Global,
    bytes: &[u8],
    header_length: u32,
    extensions: &[Extension],
) -> Result<Vec<u8>, AllocError>
    requires length { header_length ≤ 504 }
    requires near { All IsNear extensions.now }
    ensures { IfOk result (λ v. v.items ≡ tail_of bytes.now header_length ++ kept_bytes bytes.now extensions.now) }
{
    let mut kept = Vec::new(alloc);
    add_bytes(
        &mut kept,
        bytes,
        112,
        u64::from(header_length).saturating_sub(112),
    )?;
    for e in extensions {
        if is_kept(e) {
            add_bytes(&mut kept, bytes, e.place - 8, 8 + padded(e.length))?;
        }
    }
    Ok(kept)
}
