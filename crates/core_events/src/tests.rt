//! Which answers fit which events, and what making room keeps.

use crate::{
    Action, Actions, Answer, Command, Errno, Event, Memory, Notices, Reply, Request, Way, Work,
};
use span_algebra::{Bytes, Name, Runs};
use std::alloc::Global;

/// What is asked.
#[derive(Clone, Copy)]
enum Ask {
    Tick,
    Abort,
    Read,
    Write,
    Flush,
    Status,
    OneRun,
}

fn name(alloc: Global, text: &str) -> Result<Name, Memory> {
    Ok(Name {
        items: text.as_bytes().to_vec(alloc)?,
    })
}

fn work(alloc: Global, ask: Ask) -> Result<Option<Work>, Memory> {
    let one = matches!(ask, Ask::OneRun);
    Ok(match ask {
        Ask::Tick | Ask::Abort => None,
        Ask::Read => Some(Work::Read),
        Ask::Write => Some(Work::Write { fua: true }),
        Ask::Flush => Some(Work::Flush),
        Ask::Status | Ask::OneRun => Some(Work::Status {
            context: name(alloc, "base:allocation")?,
            one,
        }),
    })
}

fn abort(alloc: Global) -> Result<Event, Memory> {
    let mut items = Vec::new(alloc);
    items.push(Action::Abort)?;
    Ok(Event::Monitor(Command::Transaction(Actions { items })))
}

// An event that asks this of so many bytes.
fn event(alloc: Global, ask: Ask, length: u64) -> Result<Event, Memory> {
    match work(alloc, ask)? {
        Some(work) => Ok(Event::Guest(Request {
            way: Way::Node(name(alloc, "drive0")?),
            work,
            offset: 0,
            length,
            bytes: Bytes {
                items: Vec::new(alloc),
            },
        })),
        None if matches!(ask, Ask::Abort) => abort(alloc),
        None => Ok(Event::Tick),
    }
}

// An answer with room for so many bytes, runs and notices.
fn answer(alloc: Global, room: (usize, usize, usize)) -> Result<Answer, Memory> {
    Ok(Answer {
        reply: Reply::Fault(Errno::Io),
        bytes: Bytes {
            items: Vec::with_capacity(alloc, room.0)?,
        },
        runs: Runs {
            items: Vec::with_capacity(alloc, room.1)?,
        },
        notices: Notices {
            items: Vec::with_capacity(alloc, room.2)?,
        },
    })
}

// Whether an answer with so much room fits an event as wanted, and does once it made room.
fn agrees(
    alloc: Global,
    room: (usize, usize, usize),
    ask: Ask,
    length: u64,
    want: bool,
) -> Result<bool, Memory> {
    let mut answer = answer(alloc, room)?;
    let event = event(alloc, ask, length)?;
    let before = answer.fits(&event);
    answer.make_room(alloc, &event)?;
    Ok(before == want && answer.fits(&event))
}

const LONGEST: u64 = 1 << 25;

// What is asked, of how many bytes, in room for how many bytes, runs and notices; whether it fits.
#[test]
fn an_answer_fits_the_events_that_it_has_room_for(rt: HostRuntime) {
    for (ask, length, room, want) in [
        (Ask::Tick, 0, (0, 0, 0), false),
        (Ask::Tick, 0, (64, 1024, 15), false),
        (Ask::Tick, 0, (0, 0, 16), true),
        (Ask::Read, 0, (0, 0, 16), true),
        (Ask::Read, 1, (0, 0, 16), false),
        (Ask::Read, 512, (512, 0, 16), true),
        (Ask::Read, 513, (512, 0, 16), false),
        (Ask::Read, LONGEST, (512, 0, 16), false),
        (Ask::Read, LONGEST + 1, (0, 0, 16), true),
        (Ask::Status, 512, (512, 1023, 16), false),
        (Ask::Status, 512, (0, 1024, 16), true),
        (Ask::OneRun, 512, (0, 1, 16), false),
        (Ask::OneRun, 512, (0, 1024, 16), true),
        (Ask::Write, 512, (0, 0, 16), true),
        (Ask::Flush, 512, (0, 0, 16), true),
        (Ask::Abort, 512, (0, 0, 16), true),
    ] {
        let good = agrees(rt.alloc(), room, ask, length, want).expect(&rt, "memory");
        assert!(rt; good, "{length} bytes in {room:?}");
    }
}

// Whether a new answer for so many bytes fits an event.
fn new_fits(alloc: Global, bytes: usize, ask: Ask, length: u64) -> Result<bool, Memory> {
    let answer = Answer::new(alloc, bytes)?;
    Ok(answer.fits(&event(alloc, ask, length)?))
}

#[test]
fn a_new_answer_fits_what_was_foreseen(rt: HostRuntime) {
    for (ask, length, want) in [
        (Ask::Read, 4096, true),
        (Ask::Read, 4097, false),
        (Ask::Status, 4097, true),
        (Ask::Tick, 0, true),
    ] {
        let got = new_fits(rt.alloc(), 4096, ask, length).expect(&rt, "memory");
        assert_eq!(rt; got, want, "{length}");
    }
}
