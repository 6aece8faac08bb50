//! Messages: their heads, the bytes behind them, and the request that each asks.

ghost use Rattle.std.specs.Prelude.{◌≡◌, ◌≢◌, ◌<◌, ◌≤◌, ℕ, List, [], ◌++◌, Bool, true, false, IsTrue, length, take, drop, get_or, IfOk, OnOk, OnErr};
ghost use Rattle.core_events.specs.Views.{plain_request};
ghost use Rattle.core_events.specs.declared.infos.ExportInfo.{ExportInfo};
ghost use Rattle.nbd_model.specs.Numbers.{u32_at};
ghost use Rattle.nbd_model.specs.Requests as requests;
ghost use Rattle.nbd_model.specs.Sessions.{HangsUp, taken_of};
ghost use Rattle.nbd_session.specs.Connections.{Connection};
ghost use Rattle.nbd_session.specs.Parts.{plain_head};
ghost use Rattle.nbd_session.specs.Reading as read;

use crate::agreed::{Agreed, Phase};
use crate::agreeing::copy_of;
use crate::negotiating::Dealt;
use crate::replying::write_error;
use crate::session::{Asked, Reading, Session, Turn};
use core_events::{Event, ExportList, Memory, Names, Next, Request, Way, Work};
use nbd_codec::{OptionHead, Parsed, RequestHead, read_option, read_request};
use span_algebra::Bytes;
use std::alloc::{AllocError, Global};

/// The longest option whose content is kept, and the longest that is skipped.
const LONGEST_OPTION: u32 = 65_536;

const LONGEST_SKIPPED: u32 = 1 << 25;

/// The longest write whose bytes are kept.
const LONGEST_WRITE: u32 = 1 << 25;

const READ: u16 = 0;

const WRITE: u16 = 1;

const DISC: u16 = 2;

const FLUSH: u16 = 3;

const ZERO: u16 = 6;

pub(crate) const STATUS: u16 = 7;

const NO_MEMORY: u32 = 12;

const INVALID: u32 = 22;

/// How a message begins.
#[derive(Clone, Copy, Debug, PartialEq, Eq)]
pub(crate) enum Opened {
    /// No head is whole.
    Waits,
    /// The connection is to be hung up.
    HangsUp,
    /// A head of so many bytes was read.
    Reads(Reading, usize),
}

/// How many bytes follow the head.
fn behind(head: &RequestHead) -> u32
    ensures { result ≡ requests.bytes_behind (plain_head head.now) }
{
    if head.kind == WRITE { head.length } else { 0 }
}

/// Whether each flag may stand in the request.
fn are_allowed(head: &RequestHead) -> bool
    ensures { result ≡ requests.are_allowed (plain_head head.now) }
{
    let fua = head.flags % 2;
    let no_hole = if head.kind == ZERO && head.flags / 2 % 2 == 1 {
        2
    } else {
        0
    };
    let one_run = if head.kind == STATUS && head.flags / 8 % 2 == 1 {
        8
    } else {
        0
    };
    fua + no_hole + one_run == head.flags
}

fn is_known(kind: u16) -> bool
    ensures { result ≡ requests.is_known kind }
{
    kind == READ || (kind == WRITE || (kind == FLUSH || (kind == ZERO || kind == STATUS)))
}

/// Whether the request is refused at once: by its kind, by its flags, or as a status without a context.
fn is_refused(selected: &Names, head: &RequestHead) -> bool
    ensures { result ≡ requests.is_refused selected.now (plain_head head.now) }
{
    !is_known(head.kind)
        || (!are_allowed(head) || (head.kind == STATUS && selected.items.is_empty()))
}

/// The number in the first four bytes.
fn first_number(bytes: &[u8]) -> u32
    requires { 4 ≤ length bytes.now }
    ensures { result ≡ u32_at bytes.now 0 }
{
    u32::from_be_bytes(bytes[..4].try_into().unwrap())
}

/// How an option begins.
fn open_option(head: OptionHead) -> Opened
    ensures { result ≡ read.opened_option head }
{
    if head.length > LONGEST_SKIPPED {
        Opened::HangsUp
    } else if head.length > LONGEST_OPTION {
        let long = Reading::LongOption {
            number: head.number,
            left: head.length,
        };
        Opened::Reads(long, 16)
    } else {
        Opened::Reads(Reading::Content(head), 16)
    }
}

/// How a request begins.
fn open_request(selected: &Names, head: RequestHead) -> Opened
    ensures { result ≡ read.opened_request selected.now head }
{
    if head.kind == DISC {
        return Opened::HangsUp;
    }
    let left = behind(&head);
    if is_refused(selected, &head) || left > LONGEST_WRITE {
        Opened::Reads(Reading::Skipped { head, left }, 28)
    } else {
        Opened::Reads(Reading::Bytes(head), 28)
    }
}

/// How the next message begins.
fn open(agreed: &Agreed, bytes: &[u8]) -> Opened
    ensures { (exports : List ExportInfo) → read.Opens result exports agreed.now bytes.now }
{
    match agreed.phase {
        Phase::Greeted => Opened::Waits,
        Phase::Haggling => match read_option(bytes) {
            Parsed::More => Opened::Waits,
            Parsed::WrongMagic => Opened::HangsUp,
            Parsed::Got(head, _) => open_option(head),
        },
        Phase::Transmitting => match read_request(bytes) {
            Parsed::More => Opened::Waits,
            Parsed::WrongMagic => Opened::HangsUp,
            Parsed::Got(head, _) => open_request(&agreed.selected, head),
        },
    }
}

/// What a request asks; a status, of this context. None is asked of a context that isn't selected.
fn work_of(alloc: Global, selected: &Names, head: &RequestHead, context: u8) -> Result<Work, Memory>
    ensures { IfOk result (λ work. work ≡ read.work_of (plain_head head.now) (get_or selected.now context [])) }
{
    let fua = head.flags % 2 == 1;
    if head.kind == READ {
        Ok(Work::Read)
    } else if head.kind == WRITE {
        Ok(Work::Write { fua })
    } else if head.kind == FLUSH {
        Ok(Work::Flush)
    } else if head.kind == ZERO {
        let no_hole = head.flags / 2 % 2 == 1;
        Ok(Work::Zero { fua, no_hole })
    } else {
        let Some(context) = selected.items.get(usize::from(context)) else {
            return Err(AllocError);
        };
        let context = copy_of(alloc, context)?;
        let one = head.flags / 8 % 2 == 1;
        Ok(Work::Status { context, one })
    }
}

/// A request on the export; a status, of this context.
fn request_of(
    alloc: Global,
    agreed: &Agreed,
    head: &RequestHead,
    context: u8,
    bytes: &[u8],
) -> Result<Request, Memory>
    ensures { IfOk result (λ request. plain_request request ≡ read.request_at agreed.now (plain_head head.now) context bytes.now) }
{
    let work = work_of(alloc, &agreed.selected, head, context)?;
    let export = copy_of(alloc, &agreed.export)?;
    let bytes = Bytes {
        items: bytes.to_vec(alloc)?,
    };
    Ok(Request {
        way: Way::Export(export),
        work,
        offset: head.offset,
        length: u64::from(head.length),
        bytes,
    })
}

impl Session {
    /// Takes the first whole message.
    pub(crate) fn take_message(
        &mut self,
        alloc: Global,
        exports: &ExportList,
        out: &mut Bytes,
    ) -> Result<Next, Memory>
        requires { self.old.turn ≡ Turn.Idle }
        ensures { read.Answers exports.now self.old self.new out.old.items.items out.new.items.items result }
    {
        if !self.read_head() {
            return Ok(Next::HangUp);
        }
        let reading = self.reading;
        match reading {
            Reading::Head => Ok(self.take_flags()),
            Reading::Content(head) => self.take_content(alloc, head, exports, out),
            Reading::LongOption { number, left } => self.end_option(alloc, number, left, out),
            Reading::Bytes(head) => self.take_bytes(alloc, head, out),
            Reading::Skipped { head, left } => self.end_skipped(alloc, head, left, out),
        }
    }

    /// Reads the head of the next message, where it is whole and wasn't read. False tells to hang up.
    fn read_head(&mut self) -> bool
        ensures reads { IsTrue result → (c : Connection) → read.IsAt self.old c → read.IsAt self.new c }
        ensures waits { IsTrue result → (exports : List ExportInfo) → read.WaitsForHead self.new exports }
        ensures turn { self.new.turn ≡ self.old.turn }
        ensures hangs { result ≡ false → (c : Connection) (exports : List ExportInfo) → read.IsAt self.old c → taken_of exports c.session c.unread ≡ HangsUp [] }
    {
        if self.reading != Reading::Head {
            return true;
        }
        match open(&self.agreed, self.unread.as_slice()) {
            Opened::Waits => true,
            Opened::HangsUp => false,
            Opened::Reads(reading, size) => {
                let skipped = reading.skips().min(self.unread.as_slice().len() - size);
                self.unread.take(size + skipped);
                self.reading = reading.without(skipped);
                true
            }
        }
    }

    /// Takes the client's flags, where they are due.
    fn take_flags(&mut self) -> Next
        requires reading { self.old.reading ≡ Reading.Head }
        requires turn { self.old.turn ≡ Turn.Idle }
        ensures { (c : Connection) (exports : List ExportInfo) (out : List ℕ) → read.IsAt self.old c → read.WaitsForHead self.old exports → read.Does exports c self.new out out result }
    {
        if self.agreed.phase != Phase::Greeted {
            return Next::More;
        }
        let bytes = self.unread.as_slice();
        if bytes.len() < 4 {
            return Next::More;
        }
        let flags = first_number(bytes);
        if flags > 3 {
            return Next::HangUp;
        }
        self.agreed.phase = Phase::Haggling;
        self.agreed.no_zeroes = flags >= 2;
        self.unread.take(4);
        Next::Answered
    }

    /// Takes an option, once its content is here.
    fn take_content(
        &mut self,
        alloc: Global,
        head: OptionHead,
        exports: &ExportList,
        out: &mut Bytes,
    ) -> Result<Next, Memory>
        requires reading { self.old.reading ≡ Reading.Content head }
        requires turn { self.old.turn ≡ Turn.Idle }
        ensures { read.Answers exports.now self.old self.new out.old.items.items out.new.items.items result }
    {
        let size = head.length as usize;
        let bytes = self.unread.as_slice();
        if bytes.len() < size {
            return Ok(Next::More);
        }
        let (content, _) = bytes.split_at(size);
        let dealt = self
            .agreed
            .take_option(alloc, head.number, content, exports, out)?;
        match dealt {
            Dealt::HangUp => Ok(Next::HangUp),
            Dealt::Answered => {
                self.unread.take(size);
                self.reading = Reading::Head;
                Ok(Next::Answered)
            }
        }
    }

    /// Answers an option that is too long, once it was skipped.
    fn end_option(
        &mut self,
        alloc: Global,
        number: u32,
        left: u32,
        out: &mut Bytes,
    ) -> Result<Next, Memory>
        requires reading { self.old.reading ≡ Reading.LongOption number left }
        requires turn { self.old.turn ≡ Turn.Idle }
        ensures { (exports : List ExportInfo) → read.Answers exports self.old self.new out.old.items.items out.new.items.items result }
    {
        if left > 0 {
            return Ok(Next::More);
        }
        self.agreed.skip_option(alloc, number, out)?;
        self.reading = Reading::Head;
        Ok(Next::Answered)
    }

    /// Takes a request, once its bytes are here.
    fn take_bytes(
        &mut self,
        alloc: Global,
        head: RequestHead,
        out: &mut Bytes,
    ) -> Result<Next, Memory>
        requires reading { self.old.reading ≡ Reading.Bytes head }
        requires turn { self.old.turn ≡ Turn.Idle }
        ensures { (exports : List ExportInfo) → read.Answers exports self.old self.new out.old.items.items out.new.items.items result }
    {
        let size = behind(&head) as usize;
        if self.unread.as_slice().len() < size {
            return Ok(Next::More);
        }
        self.ask(alloc, head, size, out)
    }

    /// Refuses a request whose bytes were skipped, or takes it without them.
    fn end_skipped(
        &mut self,
        alloc: Global,
        head: RequestHead,
        left: u32,
        out: &mut Bytes,
    ) -> Result<Next, Memory>
        requires reading { self.old.reading ≡ Reading.Skipped head left }
        requires turn { self.old.turn ≡ Turn.Idle }
        ensures { (exports : List ExportInfo) → read.Answers exports self.old self.new out.old.items.items out.new.items.items result }
    {
        if left > 0 {
            return Ok(Next::More);
        }
        if is_refused(&self.agreed.selected, &head) {
            write_error(alloc, self.agreed.structured, &head, INVALID, out)?;
            self.reading = Reading::Head;
            return Ok(Next::Answered);
        }
        self.ask(alloc, head, 0, out)
    }

    /// Asks a request; its first, of a status.
    fn ask(
        &mut self,
        alloc: Global,
        head: RequestHead,
        size: usize,
        out: &mut Bytes,
    ) -> Result<Next, Memory>
        requires { size ≤ length self.old.unread }
        ensures { read.AsksFirst head size self.old self.new out.old.items.items out.new.items.items result }
    {
        match request_of(
            alloc,
            &self.agreed,
            &head,
            0,
            &self.unread.as_slice()[..size],
        ) {
            Ok(request) => {
                self.unread.take(size);
                self.reading = Reading::Head;
                self.turn = Turn::Due(Asked {
                    head,
                    answered: 0,
                    ended: false,
                });
                Ok(Next::Take(Event::Guest(request)))
            }
            Err(_) => {
                write_error(alloc, self.agreed.structured, &head, NO_MEMORY, out)?;
                self.unread.take(size);
                self.reading = Reading::Head;
                Ok(Next::Answered)
            }
        }
    }

    /// Asks the status of the next context.
    pub(crate) fn ask_left(&mut self, alloc: Global, asked: Asked) -> Result<Next, Memory>
        requires { self.old.turn ≡ Turn.Left asked }
        ensures { (exports : List ExportInfo) (out : List ℕ) → read.Answers exports self.old self.new out out result }
    {
        let request = request_of(alloc, &self.agreed, &asked.head, asked.answered, &[])?;
        self.turn = Turn::Due(asked);
        Ok(Next::Take(Event::Guest(request)))
    }
}
