//! What no clause says: that calls succeed, which refusal comes first, and spans and granules as worked out by hand.

ghost use Rattle.std.specs.Prelude.{IsTrue};
ghost use Rattle.bitmap_set.specs.Answers.{IsBusyIn};

use crate::lookup::place_of;
use crate::{BitmapRefusal, BitmapSet, StoredBitmap};
use bits_granular::GranularBits;
use span_algebra::{Base, End, Name, Point, Span};
use std::alloc::{AllocError, Global};

fn name_of(alloc: Global, text: &[u8]) -> Result<Name, AllocError> {
    Ok(Name {
        items: text.to_vec(alloc)?,
    })
}

fn at(serial: u64) -> Point {
    Point { epoch: 1, serial }
}

// Whether a job uses the bitmap of this name.
#[tactic(auto, using(crate::proofs::Changes::busy_in))]
fn is_used(set: &BitmapSet, name: &Name) -> bool
    ensures { IsTrue result → IsBusyIn set.now.bitmaps name.now }
{
    match place_of(set.list(), name) {
        Some(place) => {
            let bitmap = &set.list()[place];
            bitmap.busy
        }
        None => false,
    }
}

// Ends a job's use of a bitmap, where one uses it.
fn end_job(set: &mut BitmapSet, name: &Name, point: Option<Point>) {
    if is_used(set, name) {
        match point {
            Some(p) => set.abdicate(name, p),
            None => set.reclaim(name),
        }
    }
}

// Marks a write, where it lies on the disk.
fn write(set: &mut BitmapSet, from: u64, length: u64) {
    if from <= set.size() && length <= set.size() - from {
        set.mark(from, length);
    }
}

// Restores what an image has of an empty bitmap.
fn restore(alloc: Global, set: &mut BitmapSet, name: Name, trusted: bool) -> Option<BitmapRefusal> {
    let bits = GranularBits::new(alloc, set.size(), 1 << 30).ok()?;
    let entry = StoredBitmap {
        name,
        bits,
        span: Span::Known {
            from: at(0),
            to: End::Now,
        },
        recording: true,
        trusted,
    };
    set.restore_entry(entry).err()
}

// What a call answered.
#[derive(Clone, Copy, Debug, PartialEq)]
enum Reply {
    Done,
    Base(Base),
    Refused(BitmapRefusal),
}

fn told(answer: Result<(), BitmapRefusal>) -> Reply {
    match answer {
        Ok(()) => Reply::Done,
        Err(refusal) => Reply::Refused(refusal),
    }
}

fn told_base(answer: Result<Base, BitmapRefusal>) -> Reply {
    match answer {
        Ok(base) => Reply::Base(base),
        Err(refusal) => Reply::Refused(refusal),
    }
}

// The answer that a table writes so; a number stands for the serial of the point that a backup builds on.
fn answer_of(word: &str) -> Reply {
    match word {
        "Ok" => Reply::Done,
        "Loose" => Reply::Base(Base::Loose),
        "BadName" => Reply::Refused(BitmapRefusal::BadName),
        "NameTaken" => Reply::Refused(BitmapRefusal::NameTaken),
        "TooMany" => Reply::Refused(BitmapRefusal::TooMany),
        "BadGranularity" => Reply::Refused(BitmapRefusal::BadGranularity),
        "TooFine" => Reply::Refused(BitmapRefusal::TooFine),
        "NoSuchBitmap" => Reply::Refused(BitmapRefusal::NoSuchBitmap),
        "Busy" => Reply::Refused(BitmapRefusal::Busy),
        "Inconsistent" => Reply::Refused(BitmapRefusal::Inconsistent),
        serial => Reply::Base(Base::Since(at(number(serial)))),
    }
}

// A line of a table: a call, what it answers, and where the span of its bitmap then begins and ends.
#[derive(Clone, Copy)]
struct Line<'a> {
    verb: &'a str,
    name: &'a str,
    other: &'a str,
    serial: &'a str,
    answer: &'a str,
    from: &'a str,
    to: &'a str,
}

fn read_line(text: &str) -> Line<'_> {
    let mut words = text.split(' ');
    Line {
        verb: words.next().unwrap_or(""),
        name: words.next().unwrap_or(""),
        other: words.next().unwrap_or(""),
        serial: words.next().unwrap_or(""),
        answer: words.next().unwrap_or(""),
        from: words.next().unwrap_or("-"),
        to: words.next().unwrap_or("-"),
    }
}

fn number(word: &str) -> u64 {
    word.parse().unwrap_or(0)
}

// Carries out the call of a line, whose point has the line's serial.
fn play(alloc: Global, set: &mut BitmapSet, line: &Line) -> Result<Reply, AllocError> {
    let name = name_of(alloc, line.name.as_bytes())?;
    let p = at(number(line.serial));
    let granularity = match line.other {
        "-" => None,
        word => Some(number(word)),
    };
    let answer = match line.verb {
        "add" => told(set.add(alloc, &name, granularity, true, false, p)),
        "hold" => told(set.add(alloc, &name, granularity, false, false, p)),
        "restore" => told_restored(restore(alloc, set, name, true)),
        "lost" => told_restored(restore(alloc, set, name, false)),
        "remove" => told(set.remove(&name)),
        "clear" => told(set.clear(&name, p)),
        "enable" => told(set.enable(&name, p)),
        "disable" => told(set.disable(&name, p)),
        "merge" => {
            let source = name_of(alloc, line.other.as_bytes())?;
            told(set.merge(&name, &source, p))
        }
        "freeze" => told_base(set.freeze(alloc, &name, p)),
        "abdicate" => {
            end_job(set, &name, Some(p));
            Reply::Done
        }
        "reclaim" => {
            end_job(set, &name, None);
            Reply::Done
        }
        _ => Reply::Base(Base::Whole), // no line has it
    };
    Ok(answer)
}

fn told_restored(refusal: Option<BitmapRefusal>) -> Reply {
    told(refusal.map_or(Ok(()), Err))
}

// The span of the bitmap of this name.
fn span_of(set: &BitmapSet, name: &str) -> Option<Span> {
    for bitmap in set.list() {
        if bitmap.name.items.as_slice() == name.as_bytes() {
            return Some(bitmap.span);
        }
    }
    None
}

// The span that a line names, where it names one.
fn span_named(line: &Line) -> Option<Span> {
    let from = at(number(line.from));
    match line.to {
        "-" => None,
        "unknown" => Some(Span::Unknown),
        "now" => Some(Span::Known { from, to: End::Now }),
        serial => Some(Span::Known {
            from,
            to: End::At(at(number(serial))),
        }),
    }
}

// Each call by a verb, a name, a granularity or another name, the serial of its point, and its answer. Of the rules that fail
// at once the first is answered.
const REFUSALS: &str = "\
add a - 1 Ok
add b 512 2 TooFine
add b 256 2 BadGranularity
add b 1536 2 BadGranularity
add b 4294967296 2 BadGranularity
add a 512 2 NameTaken
add a\u{7f} 512 2 BadName
restore a - 2 NameTaken
lost a\u{1f} - 2 BadName
lost c - 2 Ok
add d - 2 Ok
freeze a - 3 1
remove q - 4 NoSuchBitmap
clear q - 4 NoSuchBitmap
enable q - 4 NoSuchBitmap
disable q - 4 NoSuchBitmap
freeze q - 4 NoSuchBitmap
remove a - 4 Busy
clear a - 4 Busy
enable a - 4 Busy
disable a - 4 Busy
freeze a - 4 Busy
clear c - 4 Inconsistent
enable c - 4 Inconsistent
disable c - 4 Inconsistent
freeze c - 4 Inconsistent
merge q a 4 NoSuchBitmap
merge a q 4 Busy
merge c a 4 Inconsistent
merge d q 4 NoSuchBitmap
merge d a 4 Busy
merge d c 4 Inconsistent
merge d d 4 Ok
remove c - 4 Ok
remove c - 4 NoSuchBitmap
reclaim a - 4 Ok
remove a - 4 Ok";

#[test]
fn refusals_come_in_order(rt: HostRuntime) {
    let mut set = BitmapSet::new(rt.alloc(), 1 << 40, 1 << 30).expect(&rt, "memory");
    for text in REFUSALS.lines() {
        let line = read_line(text);
        let answer = play(rt.alloc(), &mut set, &line).expect(&rt, "memory");
        assert_eq!(rt; answer, answer_of(line.answer), "{text}");
    }
}

// The same, and where the span of the named bitmap then begins and ends.
const SPANS: &str = "\
add a - 1 Ok 1 now
hold b - 2 Ok 2 2
enable a - 3 Ok 1 now
disable a - 3 Ok 1 3
enable a - 3 Ok 1 now
disable a - 4 Ok 1 4
disable a - 5 Ok 1 4
enable a - 6 Ok 6 now
clear a - 7 Ok 7 now
merge b a 8 Ok 7 8
merge a b 9 Ok 7 now
hold c - 10 Ok 10 10
disable a - 11 Ok 7 11
hold d - 13 Ok 13 13
enable d - 14 Ok 14 now
merge a d 15 Ok 7 11
merge d a 15 Ok 14 now
merge c d 15 Ok 14 15
merge c c 16 Ok 14 15
freeze a - 16 Loose 7 11
abdicate a - 16 Ok 16 16
freeze d - 16 14 14 now
abdicate d - 16 Ok 16 now
freeze d - 17 16 16 now
reclaim d - 17 Ok 16 now
restore e - 18 Ok 0 now
lost f - 18 Ok 0 unknown";

#[test]
fn spans_move_by_each_change(rt: HostRuntime) {
    let mut set = BitmapSet::new(rt.alloc(), 16384, 4096).expect(&rt, "memory");
    for text in SPANS.lines() {
        let line = read_line(text);
        let answer = play(rt.alloc(), &mut set, &line).expect(&rt, "memory");
        assert_eq!(rt; answer, answer_of(line.answer), "{text}");
        assert_eq!(rt; span_of(&set, line.name), span_named(&line), "{text}");
    }
}

#[test]
fn names_are_tried_byte_by_byte(rt: HostRuntime) {
    let long = vec![in rt.alloc(); b'n'; 1024].expect(&rt, "memory");
    let cases: [(&[u8], bool); 12] = [
        (b"", false),
        (b"a", true),
        (&long[..1023], true),
        (&long, false),
        (b"a b", true),
        (b"a\0", false),
        (b"\x1f", false),
        (b"~", true),
        (b"\x7f", false),
        (b"\xc3\xa9", true),
        (b"\xc3", false),
        (b"\xff", false),
    ];
    let mut set = BitmapSet::new(rt.alloc(), 512, 512).expect(&rt, "memory");
    for (text, lawful) in cases {
        let name = name_of(rt.alloc(), text).expect(&rt, "memory");
        let answer = told(set.add(rt.alloc(), &name, None, true, true, at(1)));
        let want = answer_of(if lawful { "Ok" } else { "BadName" });
        assert_eq!(rt; answer, want, "{text:?}");
    }
}

// The name of a bitmap that has a number.
fn numbered(alloc: Global, number: u8) -> Result<Name, AllocError> {
    name_of(alloc, &[b'n', 32 + number / 16, 32 + number % 16])
}

#[test]
fn there_are_64_bitmaps_at_most(rt: HostRuntime) {
    let mut set = BitmapSet::new(rt.alloc(), 1 << 40, 1 << 30).expect(&rt, "memory");
    for number in 0..64u8 {
        let name = numbered(rt.alloc(), number).expect(&rt, "memory");
        assert_eq!(rt;
            told(set.add(rt.alloc(), &name, None, true, true, at(1))),
            Reply::Done
        );
    }
    let cases = [
        ("add n\u{7f} 256 2", "BadName"),
        ("add m 256 2", "TooMany"),
        ("add n# 256 2", "TooMany"),
        ("add n# - 2", "TooMany"),
        ("lost n# - 2", "TooMany"),
    ];
    for (text, want) in cases {
        let line = read_line(text);
        let answer = play(rt.alloc(), &mut set, &line).expect(&rt, "memory");
        assert_eq!(rt; answer, answer_of(want), "{text}");
    }
    let first = numbered(rt.alloc(), 0).expect(&rt, "memory");
    assert_eq!(rt;
        told(set.add(rt.alloc(), &first, Some(256), true, true, at(2))),
        Reply::Refused(BitmapRefusal::NameTaken)
    );
    let mut copy = set.copy(rt.alloc()).expect(&rt, "memory");
    assert_eq!(rt; told(copy.remove(&first)), Reply::Done);
    assert_eq!(rt;
        told(copy.add(rt.alloc(), &first, None, true, true, at(3))),
        Reply::Done
    );
    assert_eq!(rt; copy.list().len(), 64);
    assert_eq!(rt; set.list().len(), 64);
}

// The disk of the random run: 64 blocks of 512 bytes, so that a set of granules is a word with a bit for each block.
const DISK: u64 = 64 * 512;

// A bitmap of the plain model. Granules are blocks that are always in a set together.
#[derive(Clone, Copy, PartialEq, Debug)]
struct Plain {
    name: u8,
    blocks: u64,
    own: u64,
    since: Option<u64>,
    recording: bool,
}

// Each granule of so many blocks that has one of these blocks.
fn widened(set: u64, blocks: u64) -> u64 {
    let mut out = 0u64;
    for block in 0..64u64 {
        let first = block - block % blocks.max(1);
        for other in 0..blocks.min(64) {
            if first + other < 64 && set >> (first + other) & 1 == 1 {
                out |= 1 << block;
            }
        }
    }
    out
}

// The blocks of a set of granules.
fn blocks_of(bits: &GranularBits) -> u64 {
    let mut out = 0u64;
    for block in 0..64u64 {
        if bits.is_dirty(block * 512 / bits.granularity().max(1)) {
            out |= 1 << block;
        }
    }
    out
}

// What a set has, as the plain model has it.
fn plain_of(alloc: Global, set: &BitmapSet) -> Result<Vec<Plain>, AllocError> {
    let mut out = Vec::new(alloc);
    for bitmap in set.list() {
        out.push(Plain {
            name: bitmap.name.items.first().copied().unwrap_or(0),
            blocks: bitmap.bits.granularity() / 512,
            own: blocks_of(&bitmap.bits),
            since: bitmap.successor.as_ref().map(blocks_of),
            recording: bitmap.recording,
        })?;
    }
    Ok(out)
}

// A call of the random run.
#[derive(Clone, Copy)]
struct Call {
    kind: u64,
    name: u8,
    other: u8,
    granularity: u64,
    recording: bool,
    from: u64,
    length: u64,
}

// The next of numbers that look random, below 2^31.
fn drawn(seed: &mut u64) -> u64 {
    *seed = seed
        .wrapping_mul(6364136223846793005)
        .wrapping_add(1442695040888963407);
    *seed >> 33
}

fn drawn_call(seed: &mut u64) -> Call {
    let kind = drawn(seed) % 14;
    let name = b'a' + (drawn(seed) % 5) as u8;
    let other = b'a' + (drawn(seed) % 5) as u8;
    let granularity = 256 << (drawn(seed) % 6);
    let recording = drawn(seed) % 3 > 0;
    let from = drawn(seed) % DISK;
    let length = drawn(seed) % 3000 % (DISK - from + 1);
    Call {
        kind,
        name,
        other,
        granularity,
        recording,
        from,
        length,
    }
}

// The place of a bitmap that no job uses, in the plain model.
fn plain_place(plain: &[Plain], name: u8) -> Result<usize, BitmapRefusal> {
    let place = plain
        .iter()
        .position(|b| b.name == name)
        .ok_or(BitmapRefusal::NoSuchBitmap)?;
    match plain.get(place) {
        Some(b) if b.since.is_none() => Ok(place),
        _ => Err(BitmapRefusal::Busy),
    }
}

// A bitmap's granules in the plain model, and those that were marked since a job took it into use.
fn plain_merged(plain: &mut [Plain], call: Call) -> Result<(), BitmapRefusal> {
    let to = plain_place(plain, call.name)?;
    let from = plain_place(plain, call.other)?;
    let source = plain.get(from).map_or(0, |b| b.own);
    if let Some(target) = plain.get_mut(to) {
        target.own |= widened(source, target.blocks);
    }
    Ok(())
}

// A job ends its use of a bitmap, in the plain model.
fn plain_ended(plain: &mut [Plain], call: Call) {
    for b in plain.iter_mut() {
        if b.name == call.name
            && let Some(since) = b.since
        {
            b.own = if call.kind == 7 { since } else { b.own | since };
            b.since = None;
        }
    }
}

// A write, in the plain model.
fn plain_written(plain: &mut [Plain], call: Call) {
    let mut range = 0u64;
    for block in 0..64u64 {
        if call.from.max(block * 512)
            < call.from.saturating_add(call.length).min(block * 512 + 512)
        {
            range |= 1 << block;
        }
    }
    for b in plain.iter_mut() {
        let marks = if b.recording {
            widened(range, b.blocks)
        } else {
            0
        };
        match b.since {
            Some(since) => b.since = Some(since | marks),
            None => b.own |= marks,
        }
    }
}

// A call on the plain model, where it isn't one of adding and removing.
fn plain_changed(plain: &mut [Plain], call: Call) -> Result<(), BitmapRefusal> {
    match call.kind {
        5 => return plain_merged(plain, call),
        7 | 8 => plain_ended(plain, call),
        2 | 3 | 4 | 6 => {
            let place = plain_place(plain, call.name)?;
            if let Some(b) = plain.get_mut(place) {
                match call.kind {
                    2 => b.own = 0,
                    3 => b.recording = true,
                    4 => b.recording = false,
                    _ => b.since = Some(0),
                }
            }
        }
        _ => plain_written(plain, call),
    }
    Ok(())
}

// A call on the plain model.
fn plain_call(plain: &mut Vec<Plain>, call: Call) -> Result<(), BitmapRefusal> {
    match call.kind {
        0 => {
            if plain.iter().any(|b| b.name == call.name) {
                return Err(BitmapRefusal::NameTaken);
            }
            if call.granularity < 512 {
                return Err(BitmapRefusal::BadGranularity);
            }
            let added = Plain {
                name: call.name,
                blocks: call.granularity / 512,
                own: 0,
                since: None,
                recording: call.recording,
            };
            plain.push(added).map_err(|_| BitmapRefusal::Memory)
        }
        1 => {
            let place = plain_place(plain.as_slice(), call.name)?;
            if place < plain.len() {
                let _removed = plain.remove(place);
            }
            Ok(())
        }
        _ => plain_changed(plain.as_mut_slice(), call),
    }
}

// The same call on a set.
fn real_call(alloc: Global, set: &mut BitmapSet, call: Call) -> Result<Reply, AllocError> {
    let name = name_of(alloc, &[call.name])?;
    let answer = match call.kind {
        0 => told(set.add(
            alloc,
            &name,
            Some(call.granularity),
            call.recording,
            false,
            at(1),
        )),
        1 => told(set.remove(&name)),
        2 => told(set.clear(&name, at(1))),
        3 => told(set.enable(&name, at(1))),
        4 => told(set.disable(&name, at(1))),
        5 => {
            let source = name_of(alloc, &[call.other])?;
            told(set.merge(&name, &source, at(1)))
        }
        6 => match set.freeze(alloc, &name, at(1)) {
            Ok(_) => Reply::Done,
            Err(refusal) => Reply::Refused(refusal),
        },
        7 => {
            end_job(set, &name, Some(at(1)));
            Reply::Done
        }
        8 => {
            end_job(set, &name, None);
            Reply::Done
        }
        _ => {
            write(set, call.from, call.length);
            Reply::Done
        }
    };
    Ok(answer)
}

#[test]
fn a_run_of_calls_is_that_of_the_plain_model(rt: HostRuntime) {
    let mut set = BitmapSet::new(rt.alloc(), DISK, 4096).expect(&rt, "memory");
    let mut plain = Vec::new(rt.alloc());
    let mut seed = 7u64;
    for step in 0..1500 {
        let call = drawn_call(&mut seed);
        let want = told(plain_call(&mut plain, call));
        let answer = real_call(rt.alloc(), &mut set, call).expect(&rt, "memory");
        assert_eq!(rt; answer, want, "at {step}");
        let got = plain_of(rt.alloc(), &set).expect(&rt, "memory");
        assert_eq!(rt; got.as_slice(), plain.as_slice(), "at {step}");
    }
}
