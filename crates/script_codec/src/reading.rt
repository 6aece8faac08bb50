//! Reads a script, line by line.

ghost use Rattle.std.specs.Prelude.{◌≡◌, ◌≢◌, ◌<◌, ◌∷◌, [], ℕ, List, length, map, IfOk, MatchOption, Err, MatchResult, IsTrue, ◌↔◌};
ghost use Rattle.script_model.specs.Words.{lines_of, without_return};
ghost use Rattle.script_model.specs.Lines.{IsNothing, IsScript, FirstBad, words_of};
ghost use Rattle.script_model.specs.Lines as spec;
ghost use Rattle.script_codec.specs.Views.{LineFound, plain_line};
ghost use Rattle.script_codec.specs.declared.lines.ScriptRefusal.TheVariants.{BadLine, Memory};

use crate::lines::{Line, Lines, ScriptRefusal};
use crate::requests::{flush, read_request_by};
use crate::words::{cut, cut_word};
use core_events::Memory;
use span_algebra::Bytes;
use std::alloc::Global;

/// Whether the line is empty or a comment.
fn is_nothing(text: &[u8]) -> bool
    ensures { IsTrue result ↔ IsNothing text.now }
{
    text.is_empty() || text[0] == b'#'
}

/// What a line of one word says.
fn read_word(alloc: Global, word: &[u8]) -> Result<Option<Line>, Memory>
    requires words { words_of word.now ≡ word.now ∷ [] }
    requires some { IsNothing word.now → ⊥ }
    ensures { IfOk result (λ found. LineFound word.now found) }
{
    if word == b"flush".as_slice() {
        return Ok(Some(Line::Ask(flush(alloc)?)));
    }
    if word == b"tick".as_slice() {
        return Ok(Some(Line::Tick));
    }
    if word == b"stop".as_slice() {
        return Ok(Some(Line::Stop));
    }
    if word == b"quit".as_slice() {
        return Ok(Some(Line::Quit));
    }
    Ok(None)
}

/// What one line, without its end, says; none where it has no form.
pub fn read_line(alloc: Global, text: &[u8]) -> Result<Option<Line>, Memory>
    ensures { IfOk result (λ found. LineFound text.now found) }
{
    if is_nothing(text) {
        return Ok(Some(Line::Nothing));
    }
    let Some((word, rest)) = cut_word(text) else {
        return read_word(alloc, text);
    };
    if word == b"qmp".as_slice() {
        return Ok(Some(Line::Qmp(Bytes {
            items: rest.to_vec(alloc)?,
        })));
    }
    match read_request_by(alloc, word, rest)? {
        Some(request) => Ok(Some(Line::Ask(request))),
        None => Ok(None),
    }
}

/// The line without a carriage return at its end.
fn without_return(line: &[u8]) -> &[u8]
    ensures { result.now ≡ without_return line.now }
{
    if !line.is_empty() && line[line.len() - 1] == b'\r' {
        &line[..line.len() - 1]
    } else {
        line
    }
}

/// The first line with its carriage return, and what follows it.
fn cut_line(text: &[u8]) -> (&[u8], &[u8])
    requires { 0 < length text.now }
    ensures lines { lines_of text.now ≡ result.0.now ∷ lines_of result.1.now }
    ensures shorter { length result.1.now < length text.now }
{
    match cut(text, b'\n') {
        Some(parts) => parts,
        None => (text, &[]),
    }
}

/// The first line without its end, and what follows it.
pub fn first_line(text: &[u8]) -> (&[u8], &[u8])
    requires { 0 < length text.now }
    ensures lines { (raw : List ℕ) × (lines_of text.now ≡ raw ∷ lines_of result.1.now) × (result.0.now ≡ without_return raw) }
    ensures shorter { length result.1.now < length text.now }
{
    let (line, rest) = cut_line(text);
    (without_return(line), rest)
}

/// The number, from 1, of the first line without a form, if there is one. Each line is read and let go.
pub fn first_bad_line(alloc: Global, text: &[u8]) -> Result<Option<u64>, Memory>
    ensures { IfOk result (λ bad. MatchOption bad ((ls : List spec.Line) × IsScript text.now ls) (λ n. FirstBad text.now n)) }
{
    let mut count: usize = 0;
    let mut rest = text;
    while !rest.is_empty() {
        let (line, after) = first_line(rest);
        count += 1;
        if read_line(alloc, line)?.is_none() {
            return Ok(Some(count as u64));
        }
        rest = after;
    }
    Ok(None)
}

/// The lines that the script says.
pub fn read_script(alloc: Global, bytes: &[u8]) -> Result<Lines, ScriptRefusal>
    ensures read { IfOk result (λ lines. IsScript bytes.now (map plain_line lines)) }
    ensures bad { (n : ℕ) → result ≡ Err (BadLine n) → FirstBad bytes.now n }
{
    let mut items = Vec::new(alloc);
    let mut count: usize = 0;
    let mut rest = bytes;
    while !rest.is_empty() {
        let (line, after) = first_line(rest);
        count += 1;
        match read_line(alloc, line) {
            Err(_) => return Err(ScriptRefusal::Memory),
            Ok(None) => return Err(ScriptRefusal::BadLine(count as u64)),
            Ok(Some(line)) => {
                if items.push(line).is_err() {
                    return Err(ScriptRefusal::Memory);
                }
            }
        }
        rest = after;
    }
    Ok(Lines { items })
}
