//! Sets of granules, by small examples.

use crate::{BitsRefusal, GranularBits};
use span_algebra::Runs;
use std::alloc::Global;

// The runs of a range, as lengths and flags.
fn runs_of(alloc: Global, bits: &GranularBits, at: u64, length: u64) -> Option<Vec<(u64, u32)>> {
    if at > bits.size() || length > bits.size() - at {
        return None;
    }
    let mut out = Runs {
        items: Vec::with_capacity(alloc, 1024).ok()?,
    };
    bits.runs(at, length, &mut out);
    let mut runs = Vec::new(alloc);
    for run in &out.items {
        runs.push((run.length, run.flags)).ok()?;
    }
    Some(runs)
}

// Puts a granule into a set, where the disk has it.
fn put(bits: &mut GranularBits, granule: u64) {
    let at = granule.saturating_mul(bits.granularity());
    if at < bits.size() {
        bits.mark(at, 1);
    }
}

// Merges a set into another of the same size.
fn merge(bits: &mut GranularBits, other: &GranularBits) {
    if other.size() == bits.size() {
        bits.merge_from(other);
    }
}

// A set with these granules.
fn with(alloc: Global, size: u64, granularity: u64, granules: &[u64]) -> Option<GranularBits> {
    let mut bits = GranularBits::new(alloc, size, granularity).ok()?;
    for granule in granules {
        put(&mut bits, *granule);
    }
    Some(bits)
}

#[test]
fn the_last_granule_may_be_short(rt: HostRuntime) {
    let bits = with(rt.alloc(), 16896, 4096, &[4]).expect(&rt, "a set");
    assert_eq!(rt; bits.count(), 1);
    assert_eq!(rt; bits.next_dirty(0), Some(4));
    assert_eq!(rt; bits.next_dirty(5), None);
    assert_eq!(rt; bits.next_clean(4), None);
    let runs = runs_of(rt.alloc(), &bits, 0, 16896).expect(&rt, "runs");
    assert_eq!(rt; runs.as_slice(), [(16384, 0), (512, 1)].as_slice());
    let cut = runs_of(rt.alloc(), &bits, 16000, 500).expect(&rt, "runs");
    assert_eq!(rt; cut.as_slice(), [(384, 0), (116, 1)].as_slice());
    let none = runs_of(rt.alloc(), &bits, 16896, 0).expect(&rt, "runs");
    assert_eq!(rt; none.len(), 0);
}

#[test]
fn neighbours_of_one_flag_are_one_run(rt: HostRuntime) {
    let bits = with(rt.alloc(), 8192, 512, &[2, 3, 7]).expect(&rt, "a set");
    let runs = runs_of(rt.alloc(), &bits, 512, 4096).expect(&rt, "runs");
    assert_eq!(rt;
        runs.as_slice(),
        [(512, 0), (1024, 1), (1536, 0), (512, 1), (512, 0)].as_slice()
    );
    assert_eq!(rt; bits.next_dirty(4), Some(7));
    assert_eq!(rt; bits.next_clean(2), Some(4));
}

#[test]
fn a_call_gives_no_more_than_1024_runs(rt: HostRuntime) {
    let mut bits = GranularBits::new(rt.alloc(), 4096 * 512, 512).expect(&rt, "a set");
    for granule in 0..1024u64 {
        put(&mut bits, granule * 2);
    }
    let runs = runs_of(rt.alloc(), &bits, 0, 4096 * 512).expect(&rt, "runs");
    assert_eq!(rt; runs.len(), 1024);
    assert_eq!(rt; runs.last(), Some(&(512, 0)));
}

#[test]
fn sets_of_two_granularities_merge(rt: HostRuntime) {
    let mut fine = with(rt.alloc(), 16384, 512, &[9]).expect(&rt, "a set");
    let mut coarse = with(rt.alloc(), 16384, 4096, &[]).expect(&rt, "a set");
    merge(&mut coarse, &fine);
    assert_eq!(rt; coarse.count(), 1);
    assert_eq!(rt; coarse.is_dirty(1), true);
    merge(&mut fine, &coarse);
    assert_eq!(rt; fine.count(), 8);
    assert_eq!(rt; fine.next_dirty(0), Some(8));
    assert_eq!(rt; fine.next_clean(8), Some(16));
    fine.clear_all();
    assert_eq!(rt; fine.next_dirty(0), None);
}

#[test]
fn forms_are_refused(rt: HostRuntime) {
    let cases = [
        (8192, 0, Some(BitsRefusal::BadGranularity)),
        (8192, 256, Some(BitsRefusal::BadGranularity)),
        (8192, 1536, Some(BitsRefusal::BadGranularity)),
        (8192, 1 << 32, Some(BitsRefusal::BadGranularity)),
        (1 << 40, 512, Some(BitsRefusal::TooFine)),
        (u64::MAX, 1 << 31, Some(BitsRefusal::TooFine)),
        (0, 512, None),
        (8192, 512, None),
        (1, 1 << 31, None),
    ];
    for (size, granularity, refusal) in cases {
        let made = GranularBits::new(rt.alloc(), size, granularity);
        assert_eq!(rt; made.err(), refusal);
    }
}

#[test]
fn bytes_are_read_and_spelled(rt: HostRuntime) {
    let cases: [(&[u8], Option<BitsRefusal>); 6] = [
        (b"\x01\x02", None),
        (b"\x01\x02\0", None),
        (b"\x01", Some(BitsRefusal::BadLength)),
        (b"\x01\x12", Some(BitsRefusal::BadTail)),
        (b"\x01\x02\x01", Some(BitsRefusal::BadTail)),
        (b"\xff\x0f", None),
    ];
    for (bytes, refusal) in cases {
        let read = GranularBits::from_bytes(rt.alloc(), 6000, 512, bytes);
        assert_eq!(rt; read.err(), refusal);
    }
    let read = GranularBits::from_bytes(rt.alloc(), 6000, 512, b"\x01\x02\0").expect(&rt, "a set");
    assert_eq!(rt; read.count(), 2);
    assert_eq!(rt; read.is_dirty(9), true);
    let copy = read.copy(rt.alloc()).expect(&rt, "a copy");
    let bytes = copy.to_bytes(rt.alloc()).expect(&rt, "bytes");
    assert_eq!(rt; bytes.items.as_slice(), b"\x01\x02".as_slice());
}

// An empty set of so many granules of 512 bytes, of which the last is short.
fn granules_of(alloc: Global, count: u64) -> Option<GranularBits> {
    GranularBits::new(alloc, count.saturating_mul(512).saturating_sub(100), 512).ok()
}

// So many flags, none of them set.
fn plain_of(alloc: Global, count: u64) -> Option<Vec<bool>> {
    let mut plain = Vec::new(alloc);
    for _ in 0..count {
        plain.push(false).ok()?;
    }
    Some(plain)
}

// Sets the flags from place `first` to before place `past`.
fn mark_plain(plain: &mut [bool], first: u64, past: u64) {
    for (place, flag) in plain.iter_mut().enumerate() {
        if first <= place as u64 && (place as u64) < past {
            *flag = true;
        }
    }
}

// Whether each answer is that of the plain list.
fn agrees(bits: &GranularBits, plain: &[bool]) -> bool {
    let mut dirty = None;
    let mut clean = None;
    for passed in 0..plain.len() {
        let place = plain.len() - 1 - passed;
        if plain[place] {
            dirty = Some(place as u64);
        } else {
            clean = Some(place as u64);
        }
        let granule = place as u64;
        if bits.is_dirty(granule) != plain[place]
            || bits.next_dirty(granule) != dirty
            || bits.next_clean(granule) != clean
        {
            return false;
        }
    }
    let count = plain.iter().filter(|flag| **flag).count() as u64;
    let past = plain.len() as u64;
    bits.count() == count && bits.next_dirty(past).is_none() && bits.next_clean(past).is_none()
}

// Whether the bytes of a set are read as a set that agrees too.
fn spells(alloc: Global, bits: &GranularBits, plain: &[bool]) -> Option<bool> {
    let bytes = bits.to_bytes(alloc).ok()?;
    let (size, granularity) = (bits.size(), bits.granularity());
    let read = GranularBits::from_bytes(alloc, size, granularity, bytes.items.as_slice()).ok()?;
    Some(agrees(&read, plain))
}

// Marks a range in both, as far as the disk goes.
fn mark_range(bits: &mut GranularBits, plain: &mut [bool], at: u64, length: u64) {
    let size = bits.size();
    if at <= size && length <= size - at && length > 0 {
        bits.mark(at, length);
        mark_plain(plain, at / 512, at.saturating_add(length).div_ceil(512));
    }
}

// Merges a set of another granularity with one range, and does the same with the plain list.
fn merge_range(
    alloc: Global,
    bits: &mut GranularBits,
    plain: &mut [bool],
    granularity: u64,
    at: u64,
    length: u64,
) -> Option<()> {
    let mut other = GranularBits::new(alloc, bits.size(), granularity).ok()?;
    let size = bits.size();
    if at <= size && length <= size - at && length > 0 {
        other.mark(at, length);
        let step = granularity.max(1);
        let many = granularity / 512;
        let past = at.saturating_add(length).div_ceil(step);
        mark_plain(
            plain,
            (at / step).saturating_mul(many),
            past.saturating_mul(many),
        );
    }
    merge(bits, &other);
    Some(())
}

// Changes a set and a plain list in the same way, as a number says.
fn change(alloc: Global, bits: &mut GranularBits, plain: &mut [bool], number: u64) -> Option<()> {
    let at = number % bits.size().max(1);
    let length = ((number >> 32) % 65536).min(bits.size().saturating_sub(at));
    match number >> 60 {
        0 => {
            bits.clear_all();
            plain.fill(false);
            Some(())
        }
        1..=5 => merge_range(alloc, bits, plain, 512, at, length),
        6..=9 => merge_range(alloc, bits, plain, 4096, at, length),
        _ => {
            mark_range(bits, plain, at, length);
            Some(())
        }
    }
}

// The next number of a seeded run.
fn number_after(number: u64) -> u64 {
    let one = number ^ (number << 13);
    let other = one ^ (one >> 7);
    other ^ (other << 17)
}

// Whether so many granules agree with a plain list while they are filled, all but the last first, and when they are taken back.
fn is_right_when_full(alloc: Global, count: u64) -> Option<bool> {
    let mut bits = granules_of(alloc, count)?;
    let mut plain = plain_of(alloc, count)?;
    let last = count.saturating_sub(1);
    let empty = agrees(&bits, plain.as_slice());
    mark_range(&mut bits, plain.as_mut_slice(), 0, last.saturating_mul(512));
    let nearly = agrees(&bits, plain.as_slice()) && bits.next_clean(0) == Some(last);
    mark_range(&mut bits, plain.as_mut_slice(), last.saturating_mul(512), 1);
    let full = agrees(&bits, plain.as_slice()) && bits.next_clean(0).is_none();
    let spelled = spells(alloc, &bits, plain.as_slice())?;
    bits.clear_all();
    Some(empty && nearly && full && spelled && bits.count() == 0 && bits.next_dirty(0).is_none())
}

#[test]
fn full_sets_have_no_clean_granule(rt: HostRuntime) {
    for count in [1u64, 63, 64, 65, 4096, 4097] {
        assert_eq!(rt;
            is_right_when_full(rt.alloc(), count),
            Some(true),
            "{count} granules"
        );
    }
}

// Whether a set whose last granule alone is dirty finds it each time.
fn finds_the_last(alloc: Global, count: u64, calls: u32) -> Option<bool> {
    let mut bits = granules_of(alloc, count)?;
    let last = count.saturating_sub(1);
    put(&mut bits, last);
    for _ in 0..calls {
        if bits.next_dirty(0) != Some(last) {
            return Some(false);
        }
    }
    Some(true)
}

#[test]
fn the_last_of_many_is_found_by_layers(rt: HostRuntime) {
    for count in [1u64 << 27] {
        assert_eq!(rt; finds_the_last(rt.alloc(), count, 100_000), Some(true));
    }
}

// Whether so many granules agree with a plain list at each step of a seeded run.
fn agrees_all_along(alloc: Global, count: u64, steps: u32) -> Option<bool> {
    let mut bits = granules_of(alloc, count)?;
    let mut plain = plain_of(alloc, count)?;
    let mut number = number_after(20261201 ^ count);
    for _ in 0..steps {
        change(alloc, &mut bits, plain.as_mut_slice(), number)?;
        if !agrees(&bits, plain.as_slice()) {
            return Some(false);
        }
        number = number_after(number);
    }
    spells(alloc, &bits, plain.as_slice())
}

#[test]
fn a_seeded_run_agrees_with_a_plain_list(rt: HostRuntime) {
    for count in [700u64, 4200] {
        assert_eq!(rt;
            agrees_all_along(rt.alloc(), count, 300),
            Some(true),
            "{count} granules"
        );
    }
}
