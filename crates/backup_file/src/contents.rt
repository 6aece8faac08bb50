//! What a new file has in it, whole.

ghost use Rattle.std.specs.Prelude.{◌≡◌, ◌≤◌, ℕ, List, true, Some, None, length, option_map, IfOk, IfSome};
ghost use Rattle.backup_file.specs.Layout.{is_form};
ghost use Rattle.backup_file.specs.Headings.{IsBlankOwn};
ghost use Rattle.backup_file.specs.Made.{IsNewSource, IsNewTarget};

use crate::heading::{file_of, format_and_name, new_header};
use crate::layout::plan_of;
use qc_layout::{Own, Record, State, write_record};
use span_algebra::{Base, Bytes, Point};
use std::alloc::{AllocError, Global};

/// A disk of zeros with this id.
pub(crate) fn source_bytes(
    alloc: Global,
    size: u64,
    cluster_bits: u32,
    disk: [u8; 16],
) -> Result<Vec<u8>, AllocError>
    requires { is_form cluster_bits size ≡ true }
    ensures { IfOk result (λ bytes. IsNewSource cluster_bits size disk bytes.items) }
{
    let plan = plan_of(size, cluster_bits);
    let own = Own::Source {
        disk,
        epoch: 0,
        spans_offset: 0,
        spans_length: 0,
    };
    let kept = Bytes {
        items: Vec::new(alloc),
    };
    let header = new_header(&plan, own, kept, 0, 0);
    file_of(alloc, &plan, &header)
}

/// What a backup says of itself that nothing was written to.
fn blank_own(cluster_bits: u32) -> Own
    requires low { 9 ≤ cluster_bits }
    requires high { cluster_bits ≤ 21 }
    ensures { IsBlankOwn cluster_bits result }
{
    Own::Target(write_record(&Record {
        state: State::Blank,
        disk: [0; 16],
        base: Base::Loose,
        point: Point {
            epoch: 0,
            serial: 0,
        },
        unit: 1 << cluster_bits,
    }))
}

/// A backup with nothing in it, and no file under it.
fn bare_target(alloc: Global, size: u64, cluster_bits: u32) -> Result<Vec<u8>, AllocError>
    requires { is_form cluster_bits size ≡ true }
    ensures { IfOk result (λ bytes. IsNewTarget cluster_bits size None bytes.items) }
{
    let plan = plan_of(size, cluster_bits);
    let kept = Bytes {
        items: Vec::new(alloc),
    };
    let header = new_header(&plan, blank_own(cluster_bits), kept, 0, 0);
    file_of(alloc, &plan, &header)
}

/// A backup with nothing in it, and a file of this name under it.
fn backed_target(
    alloc: Global,
    size: u64,
    cluster_bits: u32,
    name: &str,
) -> Result<Vec<u8>, AllocError>
    requires form { is_form cluster_bits size ≡ true }
    requires some { 1 ≤ length name.now }
    requires short { length name.now ≤ 255 }
    ensures { IfOk result (λ bytes. IsNewTarget cluster_bits size (Some name.now) bytes.items) }
{
    let plan = plan_of(size, cluster_bits);
    let kept = format_and_name(alloc, name)?;
    let header = new_header(&plan, blank_own(cluster_bits), kept, 208, name.len() as u32);
    file_of(alloc, &plan, &header)
}

/// A backup with nothing in it.
pub(crate) fn target_bytes(
    alloc: Global,
    size: u64,
    cluster_bits: u32,
    backing: Option<&str>,
) -> Result<Vec<u8>, AllocError>
    requires form { is_form cluster_bits size ≡ true }
    requires backing { IfSome backing (λ b. (1 ≤ length b.now) × (length b.now ≤ 255)) }
    ensures { IfOk result (λ bytes. IsNewTarget cluster_bits size (option_map (λ b. b.now) backing.entry) bytes.items) }
{
    match backing {
        None => bare_target(alloc, size, cluster_bits),
        Some(name) => backed_target(alloc, size, cluster_bits, name),
    }
}
