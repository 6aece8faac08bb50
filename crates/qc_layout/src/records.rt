//! The record of a backup.

ghost use Rattle.std.specs.Prelude.{◌≡◌, ◌≤◌, ◌<◌, ◌+◌, ◌^◌, ◌++◌, ℕ, List, Ok, Err, Some, None, length, take, drop, not, ◌&&◌, ◌||◌, ◌==◌, nat_lt, MatchResult};
ghost use Rattle.std.specs.Int.{to_be_bytes, w32, w64};
ghost use Rattle.qc_layout.specs.Records.{record_fault, record_of, record_bytes, state_in, kind_in, unit_in, base_in, point_in, state_number, kind_number, claim_bytes, base_bytes, point_bytes};
ghost use Rattle.span_algebra.specs.declared.points.Point.{Point};
ghost use Rattle.span_algebra.specs.declared.spans.Base.TheVariants.{Since};

use crate::numbers::{array_at, number_32, number_64};
use span_algebra::{Base, Point};

/// How far a backup has come.
#[derive(Clone, Copy, Debug, PartialEq, Eq)]
pub enum State {
    /// It was made, and nothing was written to it.
    Blank,
    /// A backup to it was begun.
    Begun,
    /// It is whole.
    Sealed,
}

/// What a backup says of itself. In one that isn't sealed the id is zeros, the base is loose and the point is 0.0.
#[derive(Clone, Copy, Debug)]
pub struct Record {
    pub state: State,
    /// The id of the disk.
    pub disk: [u8; 16],
    pub base: Base,
    pub point: Point,
    /// Bytes of a copy unit.
    pub unit: u32,
}

/// Why a record is refused, in the order in which the rules are tested.
#[derive(Clone, Copy, Debug, PartialEq, Eq)]
pub enum RecordFault {
    /// The version isn't 1.
    RecordVersion,
    /// The state is above 2.
    RecordState,
    /// The kind is above 3, or 0 in a sealed record.
    RecordKind,
    /// The unit isn't the cluster size.
    RecordUnit,
}

/// What a record says, for clusters of 2 to the power `cluster_bits` bytes; `cluster_bits` is from 9 to 21.
#[tactic(auto, unfolding(crate::specs::Records::record_fault))]
pub fn read_record(bytes: &[u8; 64], cluster_bits: u32) -> Result<Record, RecordFault>
    requires low { 9 ≤ cluster_bits }
    requires high { cluster_bits ≤ 21 }
    ensures { MatchResult result
        (λ r. (record_fault cluster_bits bytes.now ≡ None) × (r ≡ record_of bytes.now))
        (λ fault. record_fault cluster_bits bytes.now ≡ Some fault) }
{
    let state = number_32(bytes, 4);
    let kind = number_32(bytes, 8);
    let unit = number_32(bytes, 12);
    if number_32(bytes, 0) != 1 {
        return Err(RecordFault::RecordVersion);
    }
    if state > 2 {
        return Err(RecordFault::RecordState);
    }
    if !takes_kind(state, kind) {
        return Err(RecordFault::RecordKind);
    }
    if unit != 1 << cluster_bits {
        return Err(RecordFault::RecordUnit);
    }
    Ok(said(bytes, state, kind, unit))
}

/// Whether a record of this state may have this kind.
fn takes_kind(state: u32, kind: u32) -> bool
    ensures { not result ≡ (nat_lt 3 kind || ((state == 2) && (kind == 0))) }
{
    kind <= 3 && (state != 2 || kind != 0)
}

/// What a record of this state, kind and unit says.
#[tactic(auto, unfolding(crate::specs::Records::record_of))]
fn said(bytes: &[u8; 64], state: u32, kind: u32, unit: u32) -> Record
    requires state { state ≡ state_in bytes.now }
    requires kind { kind ≡ kind_in bytes.now }
    requires unit { unit ≡ unit_in bytes.now }
    ensures { result ≡ record_of bytes.now }
{
    if state == 2 {
        return Record {
            state: State::Sealed,
            disk: array_at(bytes, 16),
            base: base_in(bytes, kind),
            point: point_in(bytes, 48),
            unit,
        };
    }
    Record {
        state: if state == 0 {
            State::Blank
        } else {
            State::Begun
        },
        disk: [0; 16],
        base: Base::Loose,
        point: Point {
            epoch: 0,
            serial: 0,
        },
        unit,
    }
}

/// The base that a sealed record of this kind has.
fn base_in(bytes: &[u8; 64], kind: u32) -> Base
    requires { kind ≡ kind_in bytes.now }
    ensures { result ≡ base_in bytes.now }
{
    match kind {
        1 => Base::Whole,
        2 => Base::Since(point_in(bytes, 32)),
        _ => Base::Loose,
    }
}

/// The point at an offset.
fn point_in(bytes: &[u8; 64], at: u64) -> Point
    requires { at + 16 ≤ 64 }
    ensures { result ≡ point_in bytes.now at }
{
    Point {
        epoch: number_64(bytes, at),
        serial: number_64(bytes, at + 8),
    }
}

/// The bytes that say this; what is unused is written as zeros.
pub fn write_record(value: &Record) -> [u8; 64]
    ensures bytes { result ≡ record_bytes value.now }
    // A value that is read from some bytes is read from these too.
    ensures reads_back { (bits : ℕ) (bytes : List ℕ) → length bytes ≡ 64 → record_fault bits bytes ≡ None → value.now ≡ record_of bytes →
        (record_fault bits result ≡ None) × (record_of result ≡ value.now) }
{
    let Record {
        state,
        base,
        unit,
        ..
    } = *value;
    let mut out = [0; 64];
    put(&mut out, 0, &head_bytes(state, base, unit));
    put(&mut out, 16, &claim_bytes(value));
    out
}

/// The version, the state, the kind and the unit.
fn head_bytes(state: State, base: Base, unit: u32) -> [u8; 16]
    ensures { result ≡ to_be_bytes w32 1 ++ to_be_bytes w32 (state_number state) ++ to_be_bytes w32 (kind_number state base) ++ to_be_bytes w32 unit }
{
    let mut out = [0; 16];
    put(&mut out, 0, &1u32.to_be_bytes());
    put(&mut out, 4, &state_number(state).to_be_bytes());
    put(&mut out, 8, &kind_number(state, base).to_be_bytes());
    put(&mut out, 12, &unit.to_be_bytes());
    out
}

/// The number of a state.
fn state_number(state: State) -> u32
    ensures { result ≡ state_number state }
{
    match state {
        State::Blank => 0,
        State::Begun => 1,
        State::Sealed => 2,
    }
}

/// The number of a base, or 0 where the state uses none.
fn kind_number(state: State, base: Base) -> u32
    ensures { result ≡ kind_number state base }
{
    match (state, base) {
        (State::Sealed, Base::Whole) => 1,
        (State::Sealed, Base::Since(_)) => 2,
        (State::Sealed, Base::Loose) => 3,
        _ => 0,
    }
}

/// The id, the base and the point, or zeros where the state uses none.
fn claim_bytes(value: &Record) -> [u8; 48]
    ensures bytes { result ≡ claim_bytes value.now }
    ensures point { (value.now.point.epoch < 2 ^ 64) × (value.now.point.serial < 2 ^ 64) }
    ensures base { (p : Point) → value.now.base ≡ Since p → (p.epoch < 2 ^ 64) × (p.serial < 2 ^ 64) }
{
    let base = base_bytes(value.base);
    let point = point_bytes(value.point);
    match value.state {
        State::Sealed => joined(&value.disk, &base, &point),
        _ => [0; 48],
    }
}

/// Three parts, one after the other.
fn joined(first: &[u8; 16], second: &[u8; 16], third: &[u8; 16]) -> [u8; 48]
    ensures { result ≡ first.now ++ second.now ++ third.now }
{
    let mut out = [0; 48];
    put(&mut out, 0, first);
    put(&mut out, 16, second);
    put(&mut out, 32, third);
    out
}

/// What a base names, or zeros.
fn base_bytes(base: Base) -> [u8; 16]
    ensures bytes { result ≡ base_bytes base }
    ensures fits { (p : Point) → base ≡ Since p → (p.epoch < 2 ^ 64) × (p.serial < 2 ^ 64) }
{
    match base {
        Base::Since(point) => point_bytes(point),
        _ => [0; 16],
    }
}

/// The epoch and the serial of a point.
fn point_bytes(point: Point) -> [u8; 16]
    ensures bytes { result ≡ point_bytes point }
    ensures fits { (point.epoch < 2 ^ 64) × (point.serial < 2 ^ 64) }
{
    let mut out = [0; 16];
    put(&mut out, 0, &point.epoch.to_be_bytes());
    put(&mut out, 8, &point.serial.to_be_bytes());
    out
}

/// Puts bytes in the place of others.
fn put(out: &mut [u8], at: usize, bytes: &[u8])
    requires { at + length bytes.now ≤ length out.old }
    ensures { out.new ≡ take at out.old ++ bytes.now ++ drop (at + length bytes.now) out.old }
{
    out[at..at + bytes.len()].copy_from_slice(bytes);
}
