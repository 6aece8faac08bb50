//! What a guest asks of the drive.

ghost use Rattle.std.specs.Prelude.{IfOk};
ghost use Rattle.core_events.specs.Views.{plain_event};
ghost use Rattle.plain_model.specs.Step.{IsWhole};
ghost use Rattle.toy_core.specs.Toy.{Takes};

use core_events::{Event, Request, Way, Work};
use span_algebra::{Bytes, Name};
use std::alloc::{AllocError, Global};

fn drive(alloc: Global) -> Result<Way, AllocError> {
    Ok(Way::Node(Name {
        items: b"drive0".to_vec(alloc)?,
    }))
}

pub fn write(alloc: Global, offset: u64, bytes: &[u8]) -> Result<Event, AllocError>
    ensures whole { IfOk result (λ event. IsWhole (plain_event event)) }
    ensures takes { IfOk result (λ event. Takes (plain_event event)) }
{
    Ok(Event::Guest(Request {
        way: drive(alloc)?,
        work: Work::Write { fua: false },
        offset,
        length: bytes.len() as u64,
        bytes: Bytes {
            items: bytes.to_vec(alloc)?,
        },
    }))
}

pub fn read(alloc: Global, offset: u64, length: u64) -> Result<Event, AllocError>
    ensures whole { IfOk result (λ event. IsWhole (plain_event event)) }
    ensures takes { IfOk result (λ event. Takes (plain_event event)) }
{
    Ok(Event::Guest(Request {
        way: drive(alloc)?,
        work: Work::Read,
        offset,
        length,
        bytes: Bytes {
            items: Vec::new(alloc),
        },
    }))
}

pub fn flush(alloc: Global) -> Result<Event, AllocError>
    ensures whole { IfOk result (λ event. IsWhole (plain_event event)) }
    ensures takes { IfOk result (λ event. Takes (plain_event event)) }
{
    Ok(Event::Guest(Request {
        way: drive(alloc)?,
        work: Work::Flush,
        offset: 0,
        length: 0,
        bytes: Bytes {
            items: Vec::new(alloc),
        },
    }))
}
