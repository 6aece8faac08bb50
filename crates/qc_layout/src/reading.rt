//! Reads a header.

ghost use Rattle.std.specs.Prelude.{◌≡◌, ◌≢◌, ◌≤◌, IfOk, MatchResult, nat_lt, if◌then◌else◌};
ghost use Rattle.disk_model.specs.Files.{byte};
ghost use Rattle.std.specs.List.{All};
ghost use Rattle.qc_layout.specs.Header.{fields_of};
ghost use Rattle.qc_layout.specs.Reading.{IsNear, IsMade};
ghost use Rattle.qc_layout.specs.Spelling.{IsHeaderOf, IsFault};
ghost use Rattle.qc_layout.specs.declared.header.HeaderFault.TheVariants.{Memory};

use crate::checks::number_fault;
use crate::contents::{bitmaps_in, extension_fault, own_in, place_in, read_kept};
use crate::extension::{
    BITMAPS_KIND, Extension, OWN_KIND, first_of_kind, list_end, list_extensions,
};
use crate::header::{Fields, Header, HeaderFault, Part};
use crate::numbers::{byte_at, number_32, number_64};
use span_algebra::Bytes;
use std::alloc::{AllocError, Global};

/// The compression type, which only a header has that is longer than 104 bytes.
fn read_compression(bytes: &[u8], header_length: u32) -> u8
    ensures { result ≡ (if nat_lt 104 header_length then byte bytes.now 104 else 0) }
{
    if header_length > 104 {
        byte_at(bytes, 104)
    } else {
        0
    }
}

/// The numbers of a header.
#[tactic(auto, unfolding(crate::specs::Header::fields_of))]
fn read_fields(bytes: &[u8]) -> Fields
    ensures { result ≡ fields_of bytes.now }
{
    let header_length = number_32(bytes, 100);
    Fields {
        magic: number_32(bytes, 0),
        version: number_32(bytes, 4),
        backing_file_offset: number_64(bytes, 8),
        backing_file_size: number_32(bytes, 16),
        cluster_bits: number_32(bytes, 20),
        size: number_64(bytes, 24),
        crypt_method: number_32(bytes, 32),
        l1_size: number_32(bytes, 36),
        l1_table_offset: number_64(bytes, 40),
        refcount_table_offset: number_64(bytes, 48),
        refcount_table_clusters: number_32(bytes, 56),
        nb_snapshots: number_32(bytes, 60),
        snapshots_offset: number_64(bytes, 64),
        incompatible_features: number_64(bytes, 72),
        compatible_features: number_64(bytes, 80),
        autoclear_features: number_64(bytes, 88),
        refcount_order: number_32(bytes, 96),
        header_length,
        compression_type: read_compression(bytes, header_length),
    }
}

/// The header that has these numbers and extensions.
fn make_header(
    alloc: Global,
    bytes: &[u8],
    fields: &Fields,
    extensions: &[Extension],
) -> Result<Header, AllocError>
    requires length { fields.now.header_length ≤ 504 }
    requires near { All IsNear extensions.now }
    ensures { IfOk result (λ h. IsMade bytes.now fields.now extensions.now h) }
{
    let own = first_of_kind(OWN_KIND, extensions);
    Ok(Header {
        fields: *fields,
        kept: Bytes {
            items: read_kept(alloc, bytes, fields.header_length, extensions)?,
        },
        bitmaps: bitmaps_in(bytes, first_of_kind(BITMAPS_KIND, extensions)),
        own: own_in(bytes, own),
        own_at: place_in(own),
    })
}

/// The header that the bytes spell: the first bytes of a file, as many as it has, or [`crate::start_length`] at least.
pub fn read_header(alloc: Global, bytes: &[u8], part: Part) -> Result<Header, HeaderFault>
    ensures { MatchResult result (λ h. IsHeaderOf part bytes.now h) (λ fault. fault ≢ Memory → IsFault part bytes.now fault) }
{
    let fields = read_fields(bytes);
    if let Some(fault) = number_fault(part, bytes.len() as u64, &fields) {
        return Err(fault);
    }
    let end = list_end(fields.cluster_bits);
    match list_extensions(alloc, bytes, end, u64::from(fields.header_length)) {
        Err(_) => Err(HeaderFault::Memory),
        Ok(None) => Err(HeaderFault::Extensions),
        Ok(Some(extensions)) => {
            let extensions = extensions.as_slice();
            if let Some(fault) = extension_fault(part, bytes, &fields, extensions) {
                return Err(fault);
            }
            match make_header(alloc, bytes, &fields, extensions) {
                Err(_) => Err(HeaderFault::Memory),
                Ok(header) => Ok(header),
            }
        }
    }
}
