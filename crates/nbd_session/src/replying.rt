//! Replies to requests.

ghost use Rattle.std.specs.Prelude.{◌≡◌, ◌+◌, ◌<◌, ℕ, List, [], ◌++◌, Bool, false, length, if◌then◌else◌, IfOk, OnOk, OnErr};
ghost use Rattle.span_algebra.specs.declared.lists.Run.{Run};
ghost use Rattle.core_events.specs.Events as events;
ghost use Rattle.core_events.specs.Views.{plain_reply};
ghost use Rattle.nbd_model.specs.Numbers.{be32};
ghost use Rattle.nbd_model.specs.Requests as requests;
ghost use Rattle.nbd_model.specs.Requests.{Head};
ghost use Rattle.nbd_session.specs.Connections.{Connection};
ghost use Rattle.nbd_session.specs.Parts.{plain_head, Grows};
ghost use Rattle.nbd_session.specs.Reading.{IsAt, NoneIsDue, left_behind, next_turn, part};
ghost use Rattle.nbd_session.specs.Turns as turns;

use crate::agreed::Agreed;
use crate::asking::STATUS;
use crate::session::{Asked, Session, Turn};
use core_events::{Answer, Errno, Memory, Reply};
use nbd_codec::{RequestHead, write_chunk, write_chunk_head, write_simple};
use span_algebra::{Bytes, Run};
use std::alloc::{AllocError, Global};

const READ: u16 = 0;

/// Kinds of chunks.
const NONE: u16 = 0;

const OFFSET_DATA: u16 = 1;

const BLOCK_STATUS: u16 = 5;

const ERROR: u16 = 0x8001;

/// The number of an error on the wire.
fn error_number(errno: Errno) -> u32
    ensures { result ≡ requests.error_number errno }
{
    match errno {
        Errno::Perm => 1,
        Errno::Io => 5,
        Errno::NoMemory => 12,
        Errno::Invalid => 22,
        Errno::NoSpace => 28,
        Errno::Shutdown => 108,
    }
}

/// An error's chunk, which ends a reply.
fn write_error_chunk(alloc: Global, error: u32, cookie: u64, out: &mut Bytes) -> Result<(), Memory>
    ensures sent { OnOk result (out.new.items.items ≡ out.old.items.items ++ requests.error_chunk error cookie) }
    ensures kept { OnErr result (out.new.items.items ≡ out.old.items.items) }
{
    let e = error.to_be_bytes();
    let content = [e[0], e[1], e[2], e[3], 0x00, 0x00];
    write_chunk(alloc, true, ERROR, cookie, &content, out)
}

/// An error, by the way in which the request is answered.
pub(crate) fn write_error(
    alloc: Global,
    structured: bool,
    head: &RequestHead,
    error: u32,
    out: &mut Bytes,
) -> Result<(), Memory>
    ensures sent { OnOk result (out.new.items.items ≡ out.old.items.items ++ requests.error_reply structured (plain_head head.now) error) }
    ensures kept { OnErr result (out.new.items.items ≡ out.old.items.items) }
{
    if structured && (head.kind == READ || head.kind == STATUS) {
        write_error_chunk(alloc, error, head.cookie, out)
    } else {
        write_simple(alloc, error, head.cookie, &[], out)
    }
}

/// What stands before the bytes of a read. True tells that they are to follow.
#[tactic(auto, using(crate::proofs::Growing::grows_not, crate::proofs::Growing::grows_by))]
fn write_read(
    alloc: Global,
    structured: bool,
    head: &RequestHead,
    bytes: &[u8],
    out: &mut Bytes,
) -> Result<bool, Memory>
    ensures sent { IfOk result (λ follows. out.new.items.items ++ (if follows then bytes.now else []) ≡ out.old.items.items ++ requests.read_reply structured (plain_head head.now) bytes.now) }
    ensures begun { OnErr result (Grows out.old.items.items out.new.items.items) }
{
    if !structured {
        write_simple(alloc, 0, head.cookie, &[], out)?;
        return Ok(true);
    }
    if bytes.is_empty() {
        write_chunk(alloc, true, NONE, head.cookie, &[], out)?;
        return Ok(false);
    }
    if bytes.len() > 0xffff_fff7 {
        return Err(AllocError);
    }
    let size = 8 + bytes.len() as u32;
    write_chunk_head(alloc, true, OFFSET_DATA, head.cookie, size, out)?;
    out.items.extend_from_slice(&head.offset.to_be_bytes())?;
    Ok(true)
}

/// The bytes of runs. Each length has 32 bits.
#[tactic(auto, using(crate::proofs::Growing::grows_not, crate::proofs::Growing::grows_by))]
fn write_runs(runs: &[Run], out: &mut Bytes) -> Result<(), Memory>
    ensures sent { OnOk result (out.new.items.items ≡ out.old.items.items ++ requests.run_bytes runs.now) }
    ensures begun { OnErr result (Grows out.old.items.items out.new.items.items) }
{
    for run in runs {
        let l = run.length.to_be_bytes();
        let f = run.flags.to_be_bytes();
        let bytes = [l[4], l[5], l[6], l[7], f[0], f[1], f[2], f[3]];
        out.items.extend_from_slice(&bytes)?;
    }
    Ok(())
}

/// The chunk of a status: the runs by the context of this number.
#[tactic(auto, using(crate::proofs::Growing::grows_not, crate::proofs::Growing::grows_by))]
fn write_flags(
    alloc: Global,
    last: bool,
    id: u32,
    cookie: u64,
    runs: &[Run],
    out: &mut Bytes,
) -> Result<(), Memory>
    ensures sent { OnOk result (out.new.items.items ≡ out.old.items.items ++ requests.chunk last 5 cookie (be32 id ++ requests.run_bytes runs.now)) }
    ensures begun { OnErr result (Grows out.old.items.items out.new.items.items) }
{
    if runs.len() > 0x1fff_fffe {
        return Err(AllocError);
    }
    let size = 4 + 8 * runs.len() as u32;
    write_chunk_head(alloc, last, BLOCK_STATUS, cookie, size, out)?;
    out.items.extend_from_slice(&id.to_be_bytes())?;
    write_runs(runs, out)
}

/// The reply to a request that isn't a status. True tells that the answer's bytes are to follow.
#[tactic(auto, using(crate::proofs::Growing::grows_not, crate::proofs::Growing::grows_by))]
fn write_whole(
    alloc: Global,
    structured: bool,
    head: &RequestHead,
    answer: &Answer,
    out: &mut Bytes,
) -> Result<bool, Memory>
    ensures sent { IfOk result (λ follows. out.new.items.items ++ (if follows then answer.now.bytes.items.items else []) ≡ out.old.items.items ++ requests.reply_of structured (plain_head head.now) (plain_reply answer.now.reply answer.now.bytes.items.items answer.now.runs.items.items)) }
    ensures begun { OnErr result (Grows out.old.items.items out.new.items.items) }
{
    match &answer.reply {
        Reply::Bytes => write_read(alloc, structured, head, &answer.bytes.items, out),
        Reply::Fault(errno) => {
            write_error(alloc, structured, head, error_number(*errno), out)?;
            Ok(false)
        }
        Reply::Done | Reply::Runs | Reply::Jobs(_) | Reply::Nodes(_) | Reply::Refused(_, _) => {
            write_simple(alloc, 0, head.cookie, &[], out)?;
            Ok(false)
        }
    }
}

/// The part of a status's reply that is of one context.
#[tactic(auto, using(crate::proofs::Growing::grows_not, crate::proofs::Growing::grows_by))]
fn write_part(
    alloc: Global,
    asked: &Asked,
    last: bool,
    answer: &Answer,
    out: &mut Bytes,
) -> Result<(), Memory>
    ensures sent { OnOk result (out.new.items.items ≡ out.old.items.items ++ turns.status_part (plain_head asked.now.head) last asked.now.answered (plain_reply answer.now.reply answer.now.bytes.items.items answer.now.runs.items.items)) }
    ensures begun { OnErr result (Grows out.old.items.items out.new.items.items) }
{
    let cookie = asked.head.cookie;
    match &answer.reply {
        Reply::Runs => {
            let id = u32::from(asked.answered) + 1;
            write_flags(alloc, last, id, cookie, &answer.runs.items, out)
        }
        Reply::Fault(errno) => write_error_chunk(alloc, error_number(*errno), cookie, out),
        Reply::Done | Reply::Bytes | Reply::Jobs(_) | Reply::Nodes(_) | Reply::Refused(_, _) => Ok(
            (),
        ),
    }
}

/// What a reply adds, or its beginning where there is no memory.
#[tactic(auto, using(crate::proofs::Growing::grows_not, crate::proofs::Growing::grows_by))]
fn write_reply(
    alloc: Global,
    structured: bool,
    asked: &Asked,
    last: bool,
    answer: &Answer,
    out: &mut Bytes,
) -> Result<bool, Memory>
    ensures sent { IfOk result (λ follows. out.new.items.items ++ (if follows then answer.now.bytes.items.items else []) ≡ out.old.items.items ++ part structured (plain_head asked.now.head) last asked.now.answered asked.now.ended (plain_reply answer.now.reply answer.now.bytes.items.items answer.now.runs.items.items)) }
    ensures begun { OnErr result (Grows out.old.items.items out.new.items.items) }
{
    if asked.ended {
        return Ok(false);
    }
    if asked.head.kind == STATUS {
        write_part(alloc, asked, last, answer, out)?;
        return Ok(false);
    }
    write_whole(alloc, structured, &asked.head, answer, out)
}

/// Whether no context of the request is left to be asked.
fn is_last(agreed: &Agreed, asked: &Asked) -> bool
    ensures last { result ≡ turns.is_last (left_behind agreed.now (plain_head asked.now.head) asked.now.answered) }
    ensures few { result ≡ false → asked.now.answered + 1 < 16 }
{
    asked.head.kind != STATUS || usize::from(asked.answered) + 1 >= agreed.selected.items.len()
}

/// Whether the reply is the runs that were asked.
fn is_runs(reply: &Reply) -> bool
    ensures { (bytes : List ℕ) (runs : List Run) → result ≡ turns.is_flags (plain_reply reply.now bytes runs) }
{
    match reply {
        Reply::Runs => true,
        Reply::Done
        | Reply::Bytes
        | Reply::Fault(_)
        | Reply::Jobs(_)
        | Reply::Nodes(_)
        | Reply::Refused(_, _) => false,
    }
}

impl Asked {
    /// What waits behind the reply.
    fn next(self, last: bool, reply: &Reply) -> Turn
        requires { last ≡ false → self.answered + 1 < 16 }
        ensures { (bytes : List ℕ) (runs : List Run) → result ≡ next_turn last self (plain_reply reply.now bytes runs) }
    {
        if last {
            return Turn::Idle;
        }
        Turn::Left(Asked {
            head: self.head,
            answered: self.answered + 1,
            ended: self.ended || !is_runs(reply),
        })
    }
}

impl Session {
    /// Replies to the request that was given last. True tells that the answer's bytes are to follow: they aren't copied. Where no
    /// reply is due, nothing is done.
    pub fn reply(&mut self, alloc: Global, answer: &Answer, out: &mut Bytes) -> Result<bool, Memory>
        ensures replied { IfOk result (λ follows. (c : Connection) (h : Head) (left : List events.Request) (answered : ℕ) (ended : Bool) → IsAt self.old c → c.turn ≡ turns.Due h left answered ended →
            let reply = plain_reply answer.now.reply answer.now.bytes.items.items answer.now.runs.items.items in
            (out.new.items.items ++ (if follows then answer.now.bytes.items.items else []) ≡ out.old.items.items ++ turns.part_of c.session.structured h left answered ended reply)
            × IsAt self.new (record c { turn = turns.after_reply h left answered ended reply })) }
        ensures untimely { (c : Connection) → IsAt self.old c → NoneIsDue c.turn → (result ≡ Ok false) × (out.new.items.items ≡ out.old.items.items) × IsAt self.new c }
        ensures kept { OnErr result (self.new ≡ self.old) }
        ensures sent { OnErr result (out.new.items.items ≡ out.old.items.items) }
    {
        let turn = self.turn;
        let Turn::Due(asked) = turn else {
            return Ok(false);
        };
        let last = is_last(&self.agreed, &asked);
        let before = out.items.len();
        match write_reply(alloc, self.agreed.structured, &asked, last, answer, out) {
            Ok(follows) => {
                self.turn = asked.next(last, &answer.reply);
                Ok(follows)
            }
            Err(e) => {
                out.items.truncate(before);
                Err(e)
            }
        }
    }
}
