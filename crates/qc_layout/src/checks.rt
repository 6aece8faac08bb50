//! The rules that a header's numbers pass, in the order in which they are tested.

ghost use Rattle.std.specs.Prelude.{◌≡◌, ◌<◌, ◌≤◌, ◌^◌, ◌*◌, ◌%◌, ◌||◌, ◌==◌, not, nat_lt};
ghost use Rattle.qc_layout.specs.Header.{is_bits, is_size, is_place, is_disk, l1_needed, has_bit, first_of, form_rules, feature_rules, table_rules, number_fault};

use crate::header::{Fields, HeaderFault, Part, QCOW_MAGIC};

/// Whether a bit is set.
pub(crate) fn has_bit(number: u64, bit: u32) -> bool
    requires { bit < 64 }
    ensures { result ≡ has_bit bit number }
{
    (number >> bit) % 2 == 1
}

/// Whether a cluster other than the first begins here.
pub(crate) fn is_place(bits: u32, offset: u64) -> bool
    requires { bits ≤ 21 }
    ensures { result ≡ is_place bits offset }
{
    offset > 0 && offset % (1 << bits) == 0
}

/// Whether clusters may have this size.
fn is_bits(bits: u32) -> bool
    ensures { result ≡ is_bits bits }
{
    bits >= 9 && bits <= 21
}

/// Whether a disk may have this size.
fn is_size(bits: u32, size: u64) -> bool
    requires { bits ≤ 21 }
    ensures { result ≡ is_size bits size }
{
    size > 0 && size <= 1 << 40 && size <= (1 << 27) * (1 << bits) && size % 512 == 0
}

/// Whether the header's length is none that it may have.
fn is_bad_length(length: u32) -> bool
    ensures { result ≡ (nat_lt length 104 || nat_lt 504 length || not (length % 8 == 0)) }
{
    length < 104 || length > 504 || length % 8 != 0
}

/// The rule of its form that a header fails, in a file of so many bytes.
pub(crate) fn form_fault(length: u64, fields: &Fields) -> Option<HeaderFault>
    ensures { result ≡ first_of (form_rules length fields.now) }
{
    if length < 104 {
        return Some(HeaderFault::Short);
    }
    if fields.magic != QCOW_MAGIC {
        return Some(HeaderFault::Magic);
    }
    if fields.version != 3 {
        return Some(HeaderFault::Version);
    }
    if is_bad_length(fields.header_length) {
        return Some(HeaderFault::HeaderLength);
    }
    if !is_bits(fields.cluster_bits) {
        return Some(HeaderFault::ClusterBits);
    }
    if !is_size(fields.cluster_bits, fields.size) {
        return Some(HeaderFault::Size);
    }
    None
}

/// Whether an image isn't read as a backup.
fn is_disk(part: Part) -> bool
    ensures { result ≡ is_disk part }
{
    match part {
        Part::Target => false,
        Part::Source => true,
        Part::Foreign => true,
    }
}

/// The rule of its features that a header fails.
pub(crate) fn feature_fault(part: Part, fields: &Fields) -> Option<HeaderFault>
    ensures { result ≡ first_of (feature_rules part fields.now) }
{
    let features = fields.incompatible_features;
    if is_disk(part) && fields.backing_file_offset > 0 {
        return Some(HeaderFault::Backing);
    }
    if fields.crypt_method > 0 {
        return Some(HeaderFault::Encrypted);
    }
    if fields.nb_snapshots > 0 {
        return Some(HeaderFault::Snapshots);
    }
    if has_bit(features, 0) {
        return Some(HeaderFault::Dirty);
    }
    if has_bit(features, 1) {
        return Some(HeaderFault::Corrupt);
    }
    if has_bit(features, 2) {
        return Some(HeaderFault::ExternalData);
    }
    if has_bit(features, 3) || fields.compression_type > 0 {
        return Some(HeaderFault::Compression);
    }
    if has_bit(features, 4) {
        return Some(HeaderFault::ExtendedL2);
    }
    if features / 32 > 0 {
        return Some(HeaderFault::Incompatible);
    }
    if fields.refcount_order != 4 {
        return Some(HeaderFault::RefcountOrder);
    }
    None
}

/// How many entries of the first level a disk needs.
fn l1_needed(bits: u32, size: u64) -> u64
    requires low { 9 ≤ bits }
    requires high { bits ≤ 21 }
    requires small { size ≤ 2 ^ 40 }
    ensures { result ≡ l1_needed bits size }
{
    let cluster: u64 = 1 << bits;
    let covered = cluster * (cluster / 8);
    (size + (covered - 1)) / covered
}

/// Whether the first-level table is too long, too short or misplaced.
fn is_bad_l1(fields: &Fields) -> bool
    requires low { 9 ≤ fields.now.cluster_bits }
    requires high { fields.now.cluster_bits ≤ 21 }
    requires small { fields.now.size ≤ 2 ^ 40 }
    ensures { result ≡ (nat_lt (2 ^ 20) fields.now.l1_size || nat_lt fields.now.l1_size (l1_needed fields.now.cluster_bits fields.now.size) || not (is_place fields.now.cluster_bits fields.now.l1_table_offset)) }
{
    fields.l1_size > 1 << 20
        || u64::from(fields.l1_size) < l1_needed(fields.cluster_bits, fields.size)
        || !is_place(fields.cluster_bits, fields.l1_table_offset)
}

/// Whether the refcount table is empty, too long or misplaced.
fn is_bad_refcounts(fields: &Fields) -> bool
    requires { fields.now.cluster_bits ≤ 21 }
    ensures { result ≡ ((fields.now.refcount_table_clusters == 0) || nat_lt (2 ^ 26) (fields.now.refcount_table_clusters * 2 ^ fields.now.cluster_bits) || not (is_place fields.now.cluster_bits fields.now.refcount_table_offset)) }
{
    fields.refcount_table_clusters == 0
        || u64::from(fields.refcount_table_clusters) * (1 << fields.cluster_bits) > 1 << 26
        || !is_place(fields.cluster_bits, fields.refcount_table_offset)
}

/// The rule of its tables that a header fails.
pub(crate) fn table_fault(fields: &Fields) -> Option<HeaderFault>
    requires low { 9 ≤ fields.now.cluster_bits }
    requires high { fields.now.cluster_bits ≤ 21 }
    requires small { fields.now.size ≤ 2 ^ 40 }
    ensures { result ≡ first_of (table_rules fields.now) }
{
    if is_bad_l1(fields) {
        return Some(HeaderFault::L1Table);
    }
    if is_bad_refcounts(fields) {
        return Some(HeaderFault::RefcountTable);
    }
    None
}

/// The first rule that a header's numbers fail, in a file of so many bytes.
pub(crate) fn number_fault(part: Part, length: u64, fields: &Fields) -> Option<HeaderFault>
    ensures { result ≡ number_fault part length fields.now }
{
    if let Some(fault) = form_fault(length, fields) {
        return Some(fault);
    }
    if let Some(fault) = feature_fault(part, fields) {
        return Some(fault);
    }
    table_fault(fields)
}
