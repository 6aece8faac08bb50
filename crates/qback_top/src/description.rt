//! What a file is, by its header, as a text.

ghost use Rattle.std.specs.Prelude.{◌≡◌, ◌≢◌, ◌++◌, ◌≤◌, ◌^◌, ℕ, List, IfOk, OnOk, None, codes};
ghost use Rattle.std.specs.Fmt.{decimal};
ghost use Rattle.hex.specs.Hex.{encode_lower};
ghost use Rattle.disk_model.specs.World.{World};
ghost use Rattle.qc_layout.specs.declared.header.HeaderFault.TheVariants as header_faults;
ghost use Rattle.image_model.specs.Refusals.{header_reason, record_reason};
ghost use Rattle.qback_top.specs.Infos.{point_text, base_line, record_lines, kind_line, own_lines};
ghost use Rattle.qback_top.specs.Descriptions.{Describes, DescribesHeader, AddsOwn};
ghost use Rattle.qback_top.specs.Stops.{StopsFor};

use crate::stop::Stop;
use itoa::Buffer;
use qc_layout::{
    Header, HeaderFault, Own, Record, RecordFault, State, kind_of, read_header, read_record,
};
use span_algebra::{Base, Point};
use std::alloc::{AllocError, Global};

/// What a file is.
#[derive(Debug, Drop)]
pub enum Description {
    /// It is refused, for this reason.
    Refused(&'static str),
    /// This text says it.
    Text(Vec<u8>),
}

/// The name of a header's fault.
fn header_reason(fault: HeaderFault) -> &'static str
    ensures { result.now ≡ header_reason fault }
{
    match fault {
        HeaderFault::Short => "Short",
        HeaderFault::Magic => "Magic",
        HeaderFault::Version => "Version",
        HeaderFault::HeaderLength => "HeaderLength",
        HeaderFault::ClusterBits => "ClusterBits",
        HeaderFault::Size => "Size",
        HeaderFault::Backing => "Backing",
        HeaderFault::Encrypted => "Encrypted",
        HeaderFault::Snapshots => "Snapshots",
        HeaderFault::Dirty => "Dirty",
        HeaderFault::Corrupt => "Corrupt",
        HeaderFault::ExternalData => "ExternalData",
        HeaderFault::Compression => "Compression",
        HeaderFault::ExtendedL2 => "ExtendedL2",
        HeaderFault::Incompatible => "Incompatible",
        HeaderFault::RefcountOrder => "RefcountOrder",
        HeaderFault::L1Table => "L1Table",
        HeaderFault::RefcountTable => "RefcountTable",
        HeaderFault::Extensions => "Extensions",
        HeaderFault::TooLong => "TooLong",
        HeaderFault::BitmapsExtension => "BitmapsExtension",
        HeaderFault::Autoclear => "Autoclear",
        HeaderFault::OwnExtension => "OwnExtension",
        HeaderFault::Memory => "Memory",
    }
}

/// The name of a record's fault.
fn record_reason(fault: RecordFault) -> &'static str
    ensures { result.now ≡ record_reason fault }
{
    match fault {
        RecordFault::RecordVersion => "RecordVersion",
        RecordFault::RecordState => "RecordState",
        RecordFault::RecordKind => "RecordKind",
        RecordFault::RecordUnit => "RecordUnit",
    }
}

/// Adds a number's decimal digits.
fn add_number(text: &mut Vec<u8>, number: u64) -> Result<(), AllocError>
    ensures { OnOk result (text.new.items ≡ text.old.items ++ decimal number) }
{
    let mut digits = Buffer::new();
    text.extend_from_slice(digits.format(number).as_bytes())
}

/// Adds an id's hexadecimal digits.
fn add_id(alloc: Global, text: &mut Vec<u8>, id: &[u8; 16]) -> Result<(), AllocError>
    ensures { OnOk result (text.new.items ≡ text.old.items ++ encode_lower id.now) }
{
    let digits = hex::encode(alloc, id.as_slice())?;
    text.extend_from_slice(digits.as_bytes())
}

/// Adds a point.
fn add_point(text: &mut Vec<u8>, point: Point) -> Result<(), AllocError>
    ensures { OnOk result (text.new.items ≡ text.old.items ++ point_text point) }
{
    add_number(text, point.epoch)?;
    text.extend_from_slice(b".")?;
    add_number(text, point.serial)
}

/// Adds the line of a base.
fn add_base(text: &mut Vec<u8>, base: Base) -> Result<(), AllocError>
    ensures { OnOk result (text.new.items ≡ text.old.items ++ base_line base) }
{
    match base {
        Base::Whole => text.extend_from_slice(b"full\n"),
        Base::Since(point) => {
            text.extend_from_slice(b"since ")?;
            add_point(text, point)?;
            text.extend_from_slice(b"\n")
        }
        Base::Loose => text.extend_from_slice(b"loose\n"),
    }
}

/// Adds the lines of a sealed record.
fn add_sealed(alloc: Global, text: &mut Vec<u8>, record_: &Record) -> Result<(), AllocError>
    ensures { OnOk result (text.new.items ≡ text.old.items ++ (codes "state sealed\nid " ++ encode_lower record_.now.disk ++ codes "\n" ++ base_line record_.now.base ++ codes "point " ++ point_text record_.now.point ++ codes "\n")) }
{
    text.extend_from_slice(b"state sealed\nid ")?;
    add_id(alloc, text, &record_.disk)?;
    text.extend_from_slice(b"\n")?;
    add_base(text, record_.base)?;
    text.extend_from_slice(b"point ")?;
    add_point(text, record_.point)?;
    text.extend_from_slice(b"\n")
}

/// Adds the lines of a record.
fn add_record(alloc: Global, text: &mut Vec<u8>, record_: &Record) -> Result<(), AllocError>
    ensures { OnOk result (text.new.items ≡ text.old.items ++ record_lines record_.now) }
{
    match record_.state {
        State::Blank => text.extend_from_slice(b"state blank\n"),
        State::Begun => text.extend_from_slice(b"state opened\n"),
        State::Sealed => add_sealed(alloc, text, record_),
    }
}

/// Adds the lines of a disk's id and epoch.
fn add_source(
    alloc: Global,
    text: &mut Vec<u8>,
    disk: &[u8; 16],
    epoch: u64,
) -> Result<(), AllocError>
    ensures { OnOk result (text.new.items ≡ text.old.items ++ (codes "id " ++ encode_lower disk.now ++ codes "\nepoch " ++ decimal epoch ++ codes "\n")) }
{
    text.extend_from_slice(b"id ")?;
    add_id(alloc, text, disk)?;
    text.extend_from_slice(b"\nepoch ")?;
    add_number(text, epoch)?;
    text.extend_from_slice(b"\n")
}

/// Adds the lines of this project's extension, unless its record is refused.
fn add_own(
    alloc: Global,
    text: &mut Vec<u8>,
    cluster_bits: u32,
    own: &Own,
) -> Result<Option<RecordFault>, AllocError>
    requires low { 9 ≤ cluster_bits }
    requires high { cluster_bits ≤ 21 }
    ensures { IfOk result (λ fault. AddsOwn cluster_bits own.now fault text.old.items text.new.items) }
{
    match own {
        Own::Absent => {}
        Own::Source { disk, epoch, .. } => add_source(alloc, text, disk, *epoch)?,
        Own::Target(bytes) => match read_record(bytes, cluster_bits) {
            Err(fault) => return Ok(Some(fault)),
            Ok(found) => add_record(alloc, text, &found)?,
        },
    }
    Ok(None)
}

/// The line that says the kind of a file.
fn kind_line(own: &Own) -> &'static str
    ensures { result.now ≡ kind_line own.now }
{
    match own {
        Own::Absent => "kind image\n",
        Own::Source { .. } => "kind source\n",
        Own::Target(_) => "kind target\n",
    }
}

/// The lines that each header has.
fn head_lines(alloc: Global, header: &Header) -> Result<Vec<u8>, AllocError>
    requires { header.now.fields.cluster_bits ≤ 21 }
    ensures { IfOk result (λ text. text.items ≡ kind_line header.now.own ++ codes "size " ++ decimal header.now.fields.size ++ codes "\ncluster " ++ decimal (2 ^ header.now.fields.cluster_bits) ++ codes "\n") }
{
    let mut text = Vec::from_slice(alloc, kind_line(&header.own).as_bytes())?;
    text.extend_from_slice(b"size ")?;
    add_number(&mut text, header.fields.size)?;
    text.extend_from_slice(b"\ncluster ")?;
    add_number(&mut text, 1 << header.fields.cluster_bits)?;
    text.extend_from_slice(b"\n")?;
    Ok(text)
}

/// What a file with this header is.
fn describe_header(alloc: Global, header: &Header) -> Result<Description, AllocError>
    requires low { 9 ≤ header.now.fields.cluster_bits }
    requires high { header.now.fields.cluster_bits ≤ 21 }
    ensures { IfOk result (λ description. DescribesHeader header.now description) }
{
    if header.bitmaps.is_some() {
        return Ok(Description::Refused("Unbuilt"));
    }
    let mut text = head_lines(alloc, header)?;
    match add_own(alloc, &mut text, header.fields.cluster_bits, &header.own)? {
        Some(fault) => Ok(Description::Refused(record_reason(fault))),
        None => Ok(Description::Text(text)),
    }
}

/// What a file is that begins with these bytes, by its header.
pub fn describe(alloc: Global, bytes: &[u8]) -> Result<Description, Stop>
    ensures described { IfOk result (λ description. Describes bytes.now description) }
    ensures cause { (old new : World) → StopsFor old new result }
{
    let part = kind_of(bytes);
    match read_header(alloc, bytes, part) {
        Err(HeaderFault::Memory) => Err(Stop::Memory),
        Err(fault) => Ok(Description::Refused(header_reason(fault))),
        Ok(header) => Ok(describe_header(alloc, &header)?),
    }
}
