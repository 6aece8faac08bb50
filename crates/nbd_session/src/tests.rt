//! Streams of a client, fed byte by byte and at once, on an export `v` whose bitmap `tmp` has granule 3 alone.

use crate::Session;
use core_events::{
    Answer, Errno, Event, ExportInfo, ExportList, Memory, Next, Reply, Request, SourceName,
    Sources, Work,
};
use span_algebra::{Bytes, Name, Run};
use std::alloc::{AllocError, Global};

/// What a word of a row stands for; a row is what comes and what is sent.
const WORDS: &str = "\
option 49484156454f5054
reply 0003e889045565a9
request 25609513
simple 67446698
chunk 668e33ef
negotiate 49484156454f50540000000800000000
negotiated 0003e889045565a9000000080000000100000000
set 49484156454f50540000000a000000220000000176000000010000001571656d753a64697274792d6269746d61703a746d70
is_set 0003e889045565a90000000a00000004000000190000000171656d753a64697274792d6269746d61703a746d700003e889045565a90000000a0000000100000000
go 49484156454f5054000000070000000700000001760000
gone 0003e889045565a900000007000000030000000c00000000000000010000004d0003e889045565a9000000070000000100000000";

/// Options, requests, and each way to be refused or hung up.
const ROWS: &str = "\
option 00000003 00000000 = reply 00000003 00000002 00000005 00000001 76 reply 00000003 00000001 00000000
option 00000003 00000001 00 = reply 00000003 80000003 00000000
option 00000005 00000000 = reply 00000005 80000001 00000000
option 00000008 00000001 00 = reply 00000008 80000003 00000000
option 0000000a 00000004 00000000 = reply 0000000a 80000003 00000000
negotiate option 0000000a 00000004 00000000 = negotiated reply 0000000a 80000003 00000000
negotiate option 00000009 00000009 00000001 77 00000000 = negotiated reply 00000009 80000006 00000000
option 00000006 00000007 00000001 77 0000 = reply 00000006 80000006 00000000
option 00000006 00000006 00000001 76 00 = reply 00000006 80000003 00000000
option 00000002 00000000 option = reply 00000002 00000001 00000000 hang
option 00000001 00000001 77 = hang
option 00000004 02000001 = hang
494841564d4f5054 00000001 00000001 = hang
go 25609514 0000 0000 0000000000000001 0000000000000000 00000000 = gone hang
go request ffff 0002 0000000000000001 0000000000000000 00000000 = gone hang
negotiate set go request 0000 0007 0000000000000007 0000000000000000 00004000 = negotiated is_set gone chunk 0001 0005 0000000000000007 00000014 00000001 00003000 00000000 00001000 00000001
negotiate set go request 0008 0007 0000000000000007 0000000000000000 00004000 = negotiated is_set gone chunk 0001 0005 0000000000000007 0000000c 00000001 00003000 00000000
negotiate go request 0000 0007 0000000000000007 0000000000000000 00004000 = negotiated gone chunk 0001 8001 0000000000000007 00000006 00000016 0000
negotiate go request 0000 0000 0000000000000009 0000000000000fff 00000002 = negotiated gone chunk 0001 0001 0000000000000009 0000000a 0000000000000fff aabb
negotiate go request 0000 0000 0000000000000009 0000000000000fff 00000000 = negotiated gone chunk 0001 0000 0000000000000009 00000000
go request 0000 0000 0000000000000009 0000000000000fff 00000002 = gone simple 00000000 0000000000000009 aabb
go request 0000 0001 0000000000000009 0000000000000fff 00000002 aabb request 0000 0003 000000000000000a 0000000000000000 00000000 = gone simple 00000000 0000000000000009 simple 00000000 000000000000000a
go request 0002 0001 0000000000000009 0000000000000fff 00000002 aabb request 0001 0006 000000000000000a 0000000000000000 00001000 = gone simple 00000016 0000000000000009 simple 00000000 000000000000000a
go request 0000 0004 0000000000000009 0000000000000fff 00000002 = gone simple 00000016 0000000000000009
option 00000003 00010001 zeros:65537 option 00000005 00000000 = reply 00000003 80000009 00000000 reply 00000005 80000001 00000000";

fn bytes_of(alloc: Global, hex: &[u8]) -> Result<Vec<u8>, Memory> {
    match hex::decode(alloc, hex) {
        Ok(bytes) => Ok(bytes),
        Err(_) => Err(AllocError),
    }
}

// The digits that a word stands for: its own, where it has no line.
fn digits_of(word: &str) -> &[u8] {
    for line in WORDS.lines() {
        if let Some((name, hex)) = line.split_once(' ')
            && name == word
        {
            return hex.as_bytes();
        }
    }
    word.as_bytes()
}

// What the words stand for; true where the last one is `hang`.
fn meant(alloc: Global, words: &str) -> Result<(Vec<u8>, bool), Memory> {
    let mut bytes = Vec::new(alloc);
    for word in words.split_whitespace() {
        if word == "hang" {
            return Ok((bytes, true));
        }
        if let Some(count) = word.strip_prefix("zeros:") {
            let count = count.parse::<usize>().unwrap_or(0);
            bytes.resize(bytes.len().saturating_add(count), 0)?;
            continue;
        }
        bytes.extend_from_slice(&bytes_of(alloc, digits_of(word))?)?;
    }
    Ok((bytes, false))
}

fn name(alloc: Global, text: &[u8]) -> Result<Name, Memory> {
    Ok(Name {
        items: text.to_vec(alloc)?,
    })
}

fn exports(alloc: Global) -> Result<ExportList, Memory> {
    let mut contexts = Vec::new(alloc);
    contexts.push(SourceName {
        node: None,
        name: name(alloc, b"tmp")?,
    })?;
    let mut items = Vec::new(alloc);
    items.push(ExportInfo {
        name: name(alloc, b"v")?,
        size: 65_536,
        writable: true,
        contexts: Sources { items: contexts },
    })?;
    Ok(ExportList { items })
}

// What the core answers.
fn answer(request: &Request, answer: &mut Answer) -> Result<(), Memory> {
    answer.bytes.items.clear();
    answer.runs.items.clear();
    answer.reply = match request.work {
        Work::Read => {
            let bytes = b"\xaa\xbb".as_slice();
            let count = bytes.len().min(request.length as usize);
            answer.bytes.items.extend_from_slice(&bytes[..count])?;
            Reply::Bytes
        }
        Work::Status { context: _, one } => {
            answer.runs.items.push(Run {
                length: 12_288,
                flags: 0,
            })?;
            if !one {
                answer.runs.items.push(Run {
                    length: 4096,
                    flags: 1,
                })?;
            }
            Reply::Runs
        }
        _ => Reply::Done,
    };
    Ok(())
}

// Takes and answers all that is there; true where it is hung up.
fn serve(
    alloc: Global,
    session: &mut Session,
    given: &mut Answer,
    out: &mut Bytes,
) -> Result<bool, Memory> {
    let exports = exports(alloc)?;
    for _ in 0..64 {
        match session.next_request(alloc, &exports, out)? {
            Next::More => return Ok(false),
            Next::HangUp => return Ok(true),
            Next::Answered => {}
            Next::Take(Event::Guest(request)) => {
                answer(&request, given)?;
                if session.reply(alloc, given, out)? {
                    out.items.extend_from_slice(&given.bytes.items)?;
                }
            }
            Next::Take(_) => return Ok(true),
        }
    }
    Ok(false)
}

// What is sent behind the greeting, where the stream comes in pieces of this size; true where it is hung up.
fn sent(alloc: Global, stream: &[u8], size: usize) -> Result<(Vec<u8>, bool), Memory> {
    let mut out = Bytes {
        items: Vec::new(alloc),
    };
    let mut given = Answer::new(alloc, 4096)?;
    let mut session = Session::new(alloc, &mut out)?;
    out.items.clear();
    let mut hung = false;
    for piece in stream.chunks(size.max(1)) {
        if !hung {
            session.feed(piece)?;
            hung = serve(alloc, &mut session, &mut given, &mut out)?;
        }
    }
    Ok((out.items, hung))
}

// Whether the row is met in pieces of this size.
fn is_met(alloc: Global, row: &str, size: usize) -> Result<bool, Memory> {
    let Some((comes, wanted)) = row.split_once('=') else {
        return Ok(false);
    };
    let mut stream = vec![in alloc; 0, 0, 0, 3]?;
    stream.extend_from_slice(&meant(alloc, comes)?.0)?;
    let (wanted, hangs) = meant(alloc, wanted)?;
    let (got, hung) = sent(alloc, &stream, size)?;
    Ok(got.as_slice() == wanted.as_slice() && hung == hangs)
}

#[test]
fn rows_are_met_however_they_are_cut(rt: HostRuntime) {
    for row in ROWS.lines() {
        for size in [1, 7, 65_536] {
            let good = is_met(rt.alloc(), row, size).expect(&rt, "memory");
            assert!(rt; good, "{row} in pieces of {size}");
        }
    }
}
