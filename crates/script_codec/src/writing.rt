//! Writes lines.

ghost use Rattle.std.specs.Prelude.{◌≡◌, ◌++◌, ◌∷◌, [], IfOk, OnOk, OnErr};
ghost use Rattle.std.specs.Fmt.{decimal};
ghost use Rattle.core_events.specs.Views.{plain_request};
ghost use Rattle.script_model.specs.Lines.{Ask};
ghost use Rattle.script_model.specs.Texts.{nohole_text, line_text, written_line, name_of, range_text, read_head};
ghost use Rattle.script_codec.specs.Views.{plain_line};

use crate::lines::Line;
use crate::requests::DRIVE;
use core_events::{Memory, Request, Way, Work};
use itoa::Buffer;
use span_algebra::Bytes;
use std::alloc::Global;

/// Appends a number in decimal.
fn push_number(text: &mut Vec<u8>, number: u64) -> Result<(), Memory>
    ensures { OnOk result (text.new.items ≡ text.old.items ++ decimal number) }
{
    let mut buffer = Buffer::new();
    text.extend_from_slice(buffer.format(number).as_bytes())
}

/// Appends an offset and a length.
fn push_range(text: &mut Vec<u8>, offset: u64, length: u64) -> Result<(), Memory>
    ensures { OnOk result (text.new.items ≡ text.old.items ++ range_text offset length) }
{
    push_number(text, offset)?;
    text.push(b' ')?;
    push_number(text, length)
}

/// What stands before the range of a read.
fn read_head(alloc: Global, name: &[u8]) -> Result<Vec<u8>, Memory>
    ensures { IfOk result (λ text. text.items ≡ read_head name.now) }
{
    if name == DRIVE {
        return Vec::from_slice(alloc, b"read ");
    }
    let mut text = Vec::from_slice(alloc, b"view ")?;
    text.extend_from_slice(name)?;
    text.push(b' ')?;
    Ok(text)
}

/// What stands behind the range of a zero.
fn nohole_word(no_hole: bool) -> &'static [u8]
    ensures { result.now ≡ nohole_text no_hole }
{
    if no_hole {
        return b" nohole";
    }
    &[]
}

/// The name of the node or the export that is asked.
fn name_of(way: &Way) -> &[u8]
    ensures { result.now ≡ name_of way.now }
{
    match way {
        Way::Node(name) => name.items.as_slice(),
        Way::Export(name) => name.items.as_slice(),
    }
}

/// The one spelling of a request, without its line feed.
fn request_text(alloc: Global, request: &Request) -> Result<Vec<u8>, Memory>
    ensures { IfOk result (λ text. text.items ≡ line_text (Ask (plain_request request.now))) }
{
    let name = name_of(&request.way);
    match &request.work {
        Work::Read => {
            let mut text = read_head(alloc, name)?;
            push_range(&mut text, request.offset, request.length)?;
            Ok(text)
        }
        Work::Write { .. } => {
            let mut text = Vec::from_slice(alloc, b"write ")?;
            push_number(&mut text, request.offset)?;
            text.push(b' ')?;
            text.extend_from_slice(hex::encode(alloc, &request.bytes.items)?.as_bytes())?;
            Ok(text)
        }
        Work::Zero { no_hole, .. } => {
            let mut text = Vec::from_slice(alloc, b"zero ")?;
            push_range(&mut text, request.offset, request.length)?;
            text.extend_from_slice(nohole_word(*no_hole))?;
            Ok(text)
        }
        Work::Flush => Vec::from_slice(alloc, b"flush"),
        Work::Status { context, .. } => {
            let mut text = Vec::from_slice(alloc, b"status ")?;
            text.extend_from_slice(name)?;
            text.push(b' ')?;
            text.extend_from_slice(&context.items)?;
            text.push(b' ')?;
            push_range(&mut text, request.offset, request.length)?;
            Ok(text)
        }
    }
}

/// The one spelling of a line, without its line feed.
fn line_text(alloc: Global, line: &Line) -> Result<Vec<u8>, Memory>
    ensures { IfOk result (λ text. text.items ≡ line_text (plain_line line.now)) }
{
    match line {
        Line::Ask(request) => request_text(alloc, request),
        Line::Qmp(json) => {
            let mut text = Vec::from_slice(alloc, b"qmp ")?;
            text.extend_from_slice(&json.items)?;
            Ok(text)
        }
        Line::Tick => Vec::from_slice(alloc, b"tick"),
        Line::Stop => Vec::from_slice(alloc, b"stop"),
        Line::Quit => Vec::from_slice(alloc, b"quit"),
        Line::Nothing => Ok(Vec::new(alloc)),
    }
}

/// Appends the line as it is written: its one spelling, a carriage return where that ends in one, and a line feed. Of a line
/// that no text says what is appended means nothing. Where there is no memory, nothing is appended.
pub fn write_line(alloc: Global, line: &Line, out: &mut Bytes) -> Result<(), Memory>
    ensures written { OnOk result (out.new.items.items ≡ out.old.items.items ++ written_line (plain_line line.now)) }
    ensures kept { OnErr result (out.new.items.items ≡ out.old.items.items) }
{
    let mut text = line_text(alloc, line)?;
    if text.last() == Some(&b'\r') {
        text.push(b'\r')?;
    }
    text.push(b'\n')?;
    out.items.extend_from_slice(&text)
}
