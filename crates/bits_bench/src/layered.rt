//! The work on a set in layers.

use bits_granular::GranularBits;
use span_algebra::Runs;
use std::alloc::Global;

/// Marks a range, as far as the disk goes.
pub(crate) fn mark(bits: &mut GranularBits, at: u64, length: u64) {
    let size = bits.size();
    if at <= size {
        bits.mark(at, length.min(size - at));
    }
}

/// The first dirty granule, so many times; from places in the first word, so that no two calls in a row are one.
pub(crate) fn next_dirty(bits: &GranularBits, calls: u32) -> u64 {
    let mut answer = 0;
    for call in 0..calls {
        if let Some(granule) = bits.next_dirty(u64::from(call % 64)) {
            answer = granule;
        }
    }
    answer
}

// How many of a range's runs one call gives, and where they end.
fn some_runs(alloc: Global, bits: &GranularBits, at: u64) -> Option<(u64, u64)> {
    let size = bits.size();
    if at > size {
        return None;
    }
    let mut out = Runs {
        items: Vec::with_capacity(alloc, 1024).ok()?,
    };
    bits.runs(at, size - at, &mut out);
    let mut end = at;
    for run in &out.items {
        end = end.saturating_add(run.length);
    }
    Some((out.items.len() as u64, end))
}

// How many runs there are on the whole disk, up to 1,024 for each of so many calls.
fn all_runs(alloc: Global, bits: &GranularBits, calls: u32) -> Option<u64> {
    let mut at = 0;
    let mut count = 0u64;
    for _ in 0..calls {
        if at >= bits.size() {
            break;
        }
        let (more, end) = some_runs(alloc, bits, at)?;
        count = count.saturating_add(more);
        at = end;
    }
    Some(count)
}

/// How many runs there are on the whole disk, so many times.
pub(crate) fn runs(alloc: Global, bits: &GranularBits, calls: u32) -> Option<u64> {
    let mut answer = 0;
    for _ in 0..calls {
        answer = all_runs(alloc, bits, 1000)?;
    }
    Some(answer)
}

/// So many marks of 4 KiB at places all over a disk of 2^27 granules.
pub(crate) fn marks(bits: &mut GranularBits, calls: u32) {
    for call in 0..calls {
        let block = u64::from(call) * 7919 % (1 << 24);
        mark(bits, block * 4096, 4096);
    }
}
