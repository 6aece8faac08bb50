//! Bits in bytes.

ghost use Rattle.std.specs.Prelude.{◌≡◌, ◌≢◌, ◌↔◌, ℕ, ◌+◌, ◌*◌, ◌^◌, ◌<◌, ◌≤◌, length, IsTrue, IfOk, SomeIndex, slice_index};
ghost use Rattle.bitmap_model.specs.Granules.{set_of};
ghost use Rattle.bits_granular.specs.Bytes.{bit_of, HasTail, IsSpelling};
ghost use Rattle.bits_granular.specs.Words.{has};

use crate::flags::Flags;
use std::alloc::{AllocError, Global};

// Whether a byte isn't 0.
fn has_ones(bytes: &[u8]) -> bool
    ensures { IsTrue result ↔ SomeIndex bytes.now (λ k. slice_index bytes.now k ≢ 0) }
{
    bytes.iter().any(|b| *b != 0)
}

// Whether a bit is set from number `count` on.
pub(crate) fn has_tail(bytes: &[u8], count: usize) -> bool
    ensures { IsTrue result ↔ HasTail count bytes.now }
{
    let first = count / 8;
    if first >= bytes.len() {
        return false;
    }
    bytes[first] >> (count % 8) != 0 || has_ones(&bytes[first + 1..])
}

// Word number `number` of the bits, 0 past their end.
fn word_of(bytes: &[u8], number: usize) -> u64
    requires { number < 2 ^ 32 }
    ensures { (i : ℕ) → i < 64 → has result i ≡ bit_of bytes.now (number * 64 + i) }
{
    let mut word = 0;
    for place in 0..8 {
        let at = number * 8 + place;
        if at < bytes.len() {
            word |= (bytes[at] as u64) << (place * 8);
        }
    }
    word
}

// The first `count` bits.
pub(crate) fn read_bits(alloc: Global, bytes: &[u8], count: usize) -> Result<Flags, AllocError>
    requires few { count ≤ 2 ^ 27 }
    requires whole { HasTail count bytes.now → ⊥ }
    ensures count { IfOk result (λ flags. length flags ≡ count) }
    ensures flags { IfOk result (λ flags. flags ≡ set_of count (bit_of bytes.now)) }
{
    let mut flags = Flags::none(alloc, count)?;
    for number in 0..count.div_ceil(64) {
        flags.put_word(number, word_of(bytes, number));
    }
    Ok(flags)
}

// One of the eight bytes of a word.
fn byte_of(word: u64, place: usize) -> u8
    requires { place < 8 }
    ensures { (i : ℕ) → i < 8 → has result i ≡ has word (place * 8 + i) }
{
    (word >> (place * 8) & 0xff) as u8
}

// The bytes that spell these bits.
pub(crate) fn write_bits(alloc: Global, flags: &Flags) -> Result<Vec<u8>, AllocError>
    ensures { IfOk result (λ bytes. IsSpelling flags.now bytes.items) }
{
    let length = flags.len().div_ceil(8);
    let mut bytes = Vec::with_capacity(alloc, length)?;
    for number in 0..length {
        bytes.push(byte_of(flags.word(number / 8), number % 8))?;
    }
    Ok(bytes)
}
