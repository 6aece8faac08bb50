//! Sets of granules.

ghost use Rattle.std.specs.Prelude.{◌≡◌, ◌≢◌, ℕ, ◌⊎◌, ◌-◌, length, ◌↔◌, ◌+◌, ◌*◌, ◌^◌, ◌<◌, ◌≤◌, ◌++◌, ◌∷◌, min, vec_len, vec_capacity, false, IsTrue, IfOk, IfErr, OnOk, IfSome, IsNone, IsErrOf};
ghost use Rattle.bitmap_model.specs.Granules.{is_granularity, granules_in, IsAllowed, is_in, is_clean, count_of, IsNext, HasNoNext, IsShaped, none_of, cleared, marked, merged};
ghost use Rattle.bitmap_model.specs.Runs.{between, first_runs, dirty_runs, count_runs};
ghost use Rattle.bits_granular.specs.Words.{granules_from};
ghost use Rattle.bits_granular.specs.Bytes.{bytes_for, AreEnough, HasTail, IsSpelling, spelled};

use crate::flags::Flags;
use crate::spelling::{has_tail, read_bits, write_bits};
use span_algebra::{Bytes, Run, Runs};
use std::alloc::{AllocError, Global};
use std::marker::Model;
use thiserror::Error;

/// Want of memory.
pub type Memory = AllocError;

/// Why a set of granules isn't made.
#[derive(Clone, Copy, Debug, PartialEq, Eq, Error)]
pub enum BitsRefusal {
    #[error("the granularity is no power of two from 512 to 2^31")]
    BadGranularity,
    #[error("there would be more than 2^27 granules")]
    TooFine,
    #[error("there are fewer bytes than the granules take")]
    BadLength,
    #[error("a bit past the last granule is set")]
    BadTail,
    #[error("out of memory")]
    Memory,
}

/// How many runs one call appends at most.
const RUNS: usize = 1024;

/// A set of granules of a disk.
#[derive(Debug, Drop)]
pub struct GranularBits {
    size: u64,
    granularity: u64,
    dirty: Flags,
}

impl Model for GranularBits {
    ghost use Rattle.bitmap_model.specs.Granules.{GranuleSet, IsShaped};

    ghost Value = { GranuleSet };

    ghost view = { λ b. record { size = b.size; granularity = b.granularity; set = b.dirty } };

    ghost invariant = { λ b. IsShaped (record { size = b.size; granularity = b.granularity; set = b.dirty }) };
}

// Whether a granularity is a power of two from 512 to 2^31.
fn is_lawful(granularity: u64) -> bool
    ensures { result ≡ is_granularity granularity }
{
    granularity.is_power_of_two() && 512 <= granularity && granularity <= 1 << 31
}

// How many granules a disk has, where there may be so many of these.
fn count_granules(size: u64, granularity: u64) -> Result<usize, BitsRefusal>
    ensures ok { IfOk result (λ n. n ≡ granules_in size granularity) }
    ensures allowed { OnOk result (IsAllowed size granularity) }
    ensures bad_granularity { IsErrOf result BitsRefusal.BadGranularity ↔ (is_granularity granularity ≡ false) }
    ensures too_fine { IsErrOf result BitsRefusal.TooFine
        ↔ (IsTrue (is_granularity granularity) × (2 ^ 27 < granules_in size granularity)) }
    ensures only { IfErr result (λ e. (e ≡ BitsRefusal.BadGranularity) ⊎ (e ≡ BitsRefusal.TooFine)) }
{
    if !is_lawful(granularity) {
        return Err(BitsRefusal::BadGranularity);
    }
    let count = size.div_ceil(granularity);
    if count > 1 << 27 {
        return Err(BitsRefusal::TooFine);
    }
    Ok(count as usize)
}

impl GranularBits {
    /// The set with no granule of a disk of `size` bytes, in granules of `granularity` bytes each. A granularity that is no
    /// power of two from 512 to 2^31 is refused, then more than 2^27 granules; `Memory` may come in place of Ok.
    pub fn new(alloc: Global, size: u64, granularity: u64) -> Result<GranularBits, BitsRefusal>
        ensures ok { IfOk result (λ b. b ≡ none_of size granularity) }
        ensures shaped { IfOk result IsShaped }

        ensures bad_granularity { IsErrOf result BitsRefusal.BadGranularity ↔ (is_granularity granularity ≡ false) }
        ensures too_fine { IsErrOf result BitsRefusal.TooFine
            ↔ (IsTrue (is_granularity granularity) × (2 ^ 27 < granules_in size granularity)) }
        ensures no_bytes { (result ≢ Err BitsRefusal.BadLength) × (result ≢ Err BitsRefusal.BadTail) }
    {
        let count = count_granules(size, granularity)?;
        let dirty = Flags::none(alloc, count).map_err(|_| BitsRefusal::Memory)?;
        Ok(GranularBits {
            size,
            granularity,
            dirty,
        })
    }

    /// The set of granules that bytes spell, bit n in byte n / 8 at the value 2^(n % 8). Refused are, in this order, what
    /// `new` refuses, fewer bytes than the granules take, and a bit that is set past the last granule; `Memory` may come in
    /// place of Ok.
    pub fn from_bytes(
        alloc: Global,
        size: u64,
        granularity: u64,
        bytes: &[u8],
    ) -> Result<GranularBits, BitsRefusal>
        ensures ok { IfOk result (λ b. b ≡ spelled size granularity bytes.now) }
        ensures shaped { IfOk result IsShaped }
        ensures whole { OnOk result (AreEnough size granularity bytes.now
            × (HasTail (granules_in size granularity) bytes.now → ⊥)) }

        ensures bad_granularity { IsErrOf result BitsRefusal.BadGranularity ↔ (is_granularity granularity ≡ false) }
        ensures too_fine { IsErrOf result BitsRefusal.TooFine
            ↔ (IsTrue (is_granularity granularity) × (2 ^ 27 < granules_in size granularity)) }
        ensures bad_length { IsErrOf result BitsRefusal.BadLength
            ↔ (IsAllowed size granularity × (length bytes.now < bytes_for (granules_in size granularity))) }
        ensures bad_tail { IsErrOf result BitsRefusal.BadTail
            ↔ (AreEnough size granularity bytes.now × HasTail (granules_in size granularity) bytes.now) }
    {
        let count = count_granules(size, granularity)?;
        if bytes.len() < count.div_ceil(8) {
            return Err(BitsRefusal::BadLength);
        }
        if has_tail(bytes, count) {
            return Err(BitsRefusal::BadTail);
        }
        let dirty = read_bits(alloc, bytes, count).map_err(|_| BitsRefusal::Memory)?;
        Ok(GranularBits {
            size,
            granularity,
            dirty,
        })
    }

    /// Adds each granule that meets the range of `length` bytes at byte `at`.
    pub fn mark(&mut self, at: u64, length: u64)
        requires { at + length ≤ self.old.size }
        ensures { self.new ≡ marked self.old (record { at = at; size = length }) }
    {
        if length == 0 {
            return;
        }
        let first = at / self.granularity;
        let past = (at + length).div_ceil(self.granularity);
        self.dirty.fill(first as usize, past as usize);
    }

    // Adds each granule that meets one of the granules, of some size, from number `first` to before number `past`.
    fn mark_granules(&mut self, granularity: u64, first: u64, past: u64)
        requires order { first < past }
        requires few { past ≤ 2 ^ 27 }
        requires small { granularity ≤ 2 ^ 31 }
        requires inside { first * granularity < self.old.size }
        ensures { self.new ≡ marked self.old (granules_from granularity first past) }
    {
        let size = self.size;
        let at = first * granularity;
        let length = (past - first) * granularity;
        self.mark(at, length.min(size - at));
    }

    /// Adds each granule that meets a granule of the other set, whatever the two granularities.
    pub fn merge_from(&mut self, other: &GranularBits)
        requires { other.now.size ≡ self.old.size }
        ensures { self.new ≡ merged self.old other.now }
    {
        if self.granularity == other.granularity {
            self.dirty.join(&other.dirty);
            return;
        }
        let mut from = 0;
        while let Some(first) = other.next_dirty(from) {
            from = other.change_after(first);
            self.mark_granules(other.granularity(), first, from);
        }
    }

    /// Takes each granule out of the set.
    pub fn clear_all(&mut self)
        ensures { self.new ≡ cleared self.old }
    {
        self.dirty.clear();
    }

    /// Whether a granule is in the set; none past the last one is.
    pub fn is_dirty(&self, granule: u64) -> bool
        ensures { result ≡ is_in self.now.set granule }
    {
        granule < self.dirty.len() as u64 && self.dirty.get(granule as usize)
    }

    /// The least granule from `from` on that is in the set.
    pub fn next_dirty(&self, from: u64) -> Option<u64>
        ensures found { IfSome result (IsNext (is_in self.now.set) from) }
        ensures none { IsNone result ↔ HasNoNext (is_in self.now.set) from }
    {
        if from >= self.dirty.len() as u64 {
            return None;
        }
        let granule = self.dirty.next_set(from as usize)?;
        Some(granule as u64)
    }

    /// The least granule from `from` on that isn't in the set.
    pub fn next_clean(&self, from: u64) -> Option<u64>
        ensures found { IfSome result (IsNext (is_clean self.now.set) from) }
        ensures none { IsNone result ↔ HasNoNext (is_clean self.now.set) from }
    {
        if from >= self.dirty.len() as u64 {
            return None;
        }
        let granule = self.dirty.next_unset(from as usize)?;
        Some(granule as u64)
    }

    // The first granule after a granule of the disk that differs from it, or how many granules there are.
    fn change_after(&self, granule: u64) -> u64
        requires { granule < length self.now.set }
        ensures after { granule < result }
        ensures within { result ≤ length self.now.set }
        ensures same { (k : ℕ) → granule ≤ k → k < result → is_in self.now.set k ≡ is_in self.now.set granule }
        ensures other { result < length self.now.set → is_in self.now.set result ≢ is_in self.now.set granule }
    {
        let count = self.dirty.len() as u64;
        if self.is_dirty(granule) {
            self.next_clean(granule).unwrap_or(count)
        } else {
            self.next_dirty(granule).unwrap_or(count)
        }
    }

    // The greatest run of equal flags that begins at byte `from` and ends at byte `end` at the latest.
    fn run_at(&self, from: u64, end: u64) -> Run
        requires some { from < end }
        requires inside { end ≤ self.now.size }
        ensures first { dirty_runs self.now (between from end)
            ≡ result ∷ dirty_runs self.now (between (from + result.length) end) }
        ensures some { 0 < result.length }
        ensures inside { from + result.length ≤ end }
    {
        let granule = from / self.granularity;
        let past = end.min(self.change_after(granule) * self.granularity);
        Run {
            length: past - from,
            flags: if self.is_dirty(granule) { 1 } else { 0 },
        }
    }

    /// Appends the greatest runs of bytes with equal flags, 1 for dirty and 0 for clean, in the range of `length` bytes at
    /// byte `at`, but no more than the first 1,024 of them. There is room in `out` for as many.
    pub fn runs(&self, at: u64, length: u64, out: &mut Runs)
        requires inside { at + length ≤ self.now.size }
        requires room { vec_len out.old.items + min 1024 (count_runs self.now (record { at = at; size = length }))
            ≤ vec_capacity out.old.items }
        ensures runs { out.new.items.items
            ≡ out.old.items.items ++ first_runs (dirty_runs self.now (record { at = at; size = length })) }
        ensures capacity { vec_capacity out.new.items ≡ vec_capacity out.old.items }
    {
        let _size = &self.size; // so that the sum is known to fit
        let end = at + length;
        let mut from = at;
        for number in 0..RUNS {
            let _number = number;
            if from >= end {
                return;
            }
            let run = self.run_at(from, end);
            out.items.push_reserved(run);
            from += run.length;
        }
    }

    /// How many granules are in the set.
    pub fn count(&self) -> u64
        ensures { result ≡ count_of self.now.set }
    {
        self.dirty.count()
    }

    /// The size of the disk in bytes.
    pub fn size(&self) -> u64
        ensures size { result ≡ self.now.size }
        ensures shaped { IsShaped self.now }
    {
        self.size
    }

    /// The size of a granule in bytes.
    pub fn granularity(&self) -> u64
        ensures granularity { result ≡ self.now.granularity }
        ensures shaped { IsShaped self.now }
    {
        self.granularity
    }

    /// The same set once more.
    pub fn copy(&self, alloc: Global) -> Result<GranularBits, Memory>
        ensures { IfOk result (λ b. b ≡ self.now) }
    {
        Ok(GranularBits {
            size: self.size,
            granularity: self.granularity,
            dirty: self.dirty.copy(alloc)?,
        })
    }

    /// The bytes that spell the set, bit n in byte n / 8 at the value 2^(n % 8); the bits past the last granule are 0.
    pub fn to_bytes(&self, alloc: Global) -> Result<Bytes, Memory>
        ensures { IfOk result (λ bytes. IsSpelling self.now.set bytes.items.items) }
    {
        Ok(Bytes {
            items: write_bits(alloc, &self.dirty)?,
        })
    }
}
