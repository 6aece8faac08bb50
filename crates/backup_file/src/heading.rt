//! The header of a new image, and the file that it heads.

ghost use Rattle.std.specs.Prelude.{◌≡◌, ◌++◌, ◌≤◌, length, IfOk};
ghost use Rattle.backup_file.specs.Plans.{IsPlan};
ghost use Rattle.backup_file.specs.Headings.{IsNewHeader, IsFileOf, format_bytes};

use crate::layout::{Plan, lay_out};
use qc_layout::{Fields, Header, Own, QCOW_MAGIC, write_header};
use span_algebra::Bytes;
use std::alloc::{AllocError, Global};

/// The extension of the backing file's format, "qcow2", and the eight zeros that end the list of extensions.
const FORMAT: [u8; 24] = [
    0xe2, 0x79, 0x2a, 0xca, 0, 0, 0, 5, b'q', b'c', b'o', b'w', b'2', 0, 0, 0, 0, 0, 0, 0, 0, 0, 0,
    0,
];

/// The format of the file under a backup, and its name behind it.
pub(crate) fn format_and_name(alloc: Global, name: &str) -> Result<Bytes, AllocError>
    ensures { IfOk result (λ kept. kept.items.items ≡ format_bytes ++ name.now) }
{
    let mut items = Vec::new(alloc);
    items.extend_from_slice(&FORMAT)?;
    items.extend_from_slice(name.as_bytes())?;
    Ok(Bytes { items })
}

/// The header of a new image. What it keeps goes behind this project's extension.
pub(crate) fn new_header(
    plan: &Plan,
    own: Own,
    kept: Bytes,
    backing_file_offset: u64,
    backing_file_size: u32,
) -> Header
    requires { IsPlan plan.now }
    ensures { IsNewHeader plan.now.cluster_bits plan.now.size backing_file_offset backing_file_size own kept.items.items result }
{
    let fields = Fields {
        magic: QCOW_MAGIC,
        version: 3,
        backing_file_offset,
        backing_file_size,
        cluster_bits: plan.cluster_bits,
        size: plan.size,
        crypt_method: 0,
        l1_size: plan.entries as u32,
        l1_table_offset: plan.cluster * plan.first_level,
        refcount_table_offset: plan.cluster,
        refcount_table_clusters: plan.table as u32,
        nb_snapshots: 0,
        snapshots_offset: 0,
        incompatible_features: 0,
        compatible_features: 0,
        autoclear_features: 0,
        refcount_order: 4,
        header_length: 112,
        compression_type: 0,
    };
    Header {
        fields,
        kept,
        bitmaps: None,
        own,
        own_at: 120,
    }
}

/// A whole file, from its header on.
pub(crate) fn file_of(alloc: Global, plan: &Plan, header: &Header) -> Result<Vec<u8>, AllocError>
    requires { IsPlan plan.now }
    ensures { IfOk result (λ bytes. IsFileOf plan.now header.now bytes.items) }
{
    let mut sector = [0; 512];
    write_header(header, &mut sector);
    lay_out(alloc, plan, &sector)
}
