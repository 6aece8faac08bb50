//! Times sets of granules in layers beside a plain loop over words of 64 granules, on the same sets in one run.
//!
//! With no word it does the same work once and prints its answers alone; with the word `time` it prints a line for each
//! measure: how many calls, and how many nanoseconds a call took in layers and by the plain loop.
#![tactic(auto)]

mod layered;
mod plain;

use bits_granular::GranularBits;
use std::alloc::Global;
use std::env;
use std::time::Instant;

/// What a measure does: how many granules the set has, and how many calls are made in layers and by the plain loop.
#[derive(Clone, Copy)]
struct Work {
    granules: u64,
    calls: u32,
    plain_calls: u32,
}

/// What a measure found: the two answers, and the microseconds that each took.
#[derive(Drop)]
struct Found {
    answer: u64,
    plain_answer: u64,
    micros: u64,
    plain_micros: u64,
}

/// The granules' size in bytes.
const GRANULARITY: u64 = 512;

// An empty set of so many granules, and as many words.
fn made(alloc: Global, granules: u64) -> Option<(GranularBits, Vec<u64>)> {
    let bits = GranularBits::new(alloc, granules.saturating_mul(GRANULARITY), GRANULARITY).ok()?;
    let length = usize::try_from(granules.div_ceil(64)).ok()?;
    let words = vec![in alloc; 0u64; length].ok()?;
    Some((bits, words))
}

fn micros_since(rt: &HostRuntime, start: Instant) -> Option<u64> {
    u64::try_from(start.elapsed(rt).ok()?.as_micros()).ok()
}

// The first dirty granule of a set whose last one alone is dirty.
fn next_dirty(rt: &HostRuntime, work: Work) -> Option<Found> {
    let (mut bits, mut words) = made(rt.alloc(), work.granules)?;
    let last = work.granules.saturating_sub(1);
    layered::mark(&mut bits, last.saturating_mul(GRANULARITY), 1);
    plain::mark(words.as_mut_slice(), last, 1);
    let start = Instant::now(rt).ok()?;
    let answer = layered::next_dirty(&bits, work.calls);
    let micros = micros_since(rt, start)?;
    let start = Instant::now(rt).ok()?;
    let plain_answer = plain::next_dirty(words.as_slice(), work.plain_calls);
    let plain_micros = micros_since(rt, start)?;
    Some(Found {
        answer,
        plain_answer,
        micros,
        plain_micros,
    })
}

// The runs of a set whose every second granule is dirty.
fn runs(rt: &HostRuntime, work: Work) -> Option<Found> {
    let (mut bits, mut words) = made(rt.alloc(), work.granules)?;
    for pair in 0..work.granules / 2 {
        layered::mark(&mut bits, pair.saturating_mul(2 * GRANULARITY), 1);
        plain::mark(words.as_mut_slice(), pair.saturating_mul(2), 1);
    }
    let start = Instant::now(rt).ok()?;
    let answer = layered::runs(rt.alloc(), &bits, work.calls)?;
    let micros = micros_since(rt, start)?;
    let start = Instant::now(rt).ok()?;
    let plain_answer = plain::runs(words.as_slice(), work.plain_calls);
    let plain_micros = micros_since(rt, start)?;
    Some(Found {
        answer,
        plain_answer,
        micros,
        plain_micros,
    })
}

// Marks of 4 KiB at places all over the disk.
fn marks(rt: &HostRuntime, work: Work) -> Option<Found> {
    let (mut bits, mut words) = made(rt.alloc(), work.granules)?;
    let start = Instant::now(rt).ok()?;
    layered::marks(&mut bits, work.calls);
    let micros = micros_since(rt, start)?;
    let start = Instant::now(rt).ok()?;
    plain::marks(words.as_mut_slice(), work.plain_calls);
    let plain_micros = micros_since(rt, start)?;
    Some(Found {
        answer: bits.count(),
        plain_answer: plain::count(words.as_slice()),
        micros,
        plain_micros,
    })
}

// The nanoseconds of one of so many calls.
fn nanos_each(micros: u64, calls: u32) -> u64 {
    micros.saturating_mul(1000) / u64::from(calls).max(1)
}

// The line of a measure.
fn show(rt: &HostRuntime, name: &str, work: Work, found: &Found, timed: bool) -> Option<()> {
    if timed {
        let each = nanos_each(found.micros, work.calls);
        let plain = nanos_each(found.plain_micros, work.plain_calls);
        println!(rt;
            "{name}: {} calls in layers, {each} ns each; {} calls of a plain loop, {plain} ns each",
            work.calls, work.plain_calls
        )
        .ok()
    } else {
        println!(rt; "{name}: {} {}", found.answer, found.plain_answer).ok()
    }
}

fn is_timed(rt: &HostRuntime) -> Option<bool> {
    let first = env::args(rt).ok()?.skip(1).next();
    Some(first.is_some_and(|word| word.as_str() == "time"))
}

fn run(rt: &HostRuntime) -> Option<()> {
    let timed = is_timed(rt)?;
    let many = if timed { 1 } else { 1000 };
    let work = Work {
        granules: 1 << 27,
        calls: 100_000 / many,
        plain_calls: if timed { 100 } else { 1 },
    };
    show(rt, "next_dirty", work, &next_dirty(rt, work)?, timed)?;
    let work = Work {
        granules: 65_536,
        calls: 1000 / many,
        plain_calls: 1000 / many,
    };
    show(rt, "runs", work, &runs(rt, work)?, timed)?;
    let work = Work {
        granules: 1 << 27,
        calls: 1_000_000 / many,
        plain_calls: 1_000_000 / many,
    };
    show(rt, "mark of 4 KiB", work, &marks(rt, work)?, timed)
}

fn main(rt: HostRuntime) {
    let done = run(&rt);
    if done.is_none() {
        let _ = println!(&rt; "no memory, no clock, or a word that is no text");
    }
}
