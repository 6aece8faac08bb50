//! The lines that ask something of a disk.

ghost use Rattle.std.specs.Prelude.{◌≡◌, ◌≢◌, ◌∷◌, [], ℕ, List, Bool, Ok, IfOk, MatchOption, false};
ghost use Rattle.core_events.specs.Views.{plain_request};
ghost use Rattle.core_events.specs.declared.events.Work.TheVariants as work;
ghost use Rattle.hex.specs.Hex.{decode_of};
ghost use Rattle.script_model.specs.Words.{IsNumber};
ghost use Rattle.script_model.specs.Lines.{IsContent, IsZeroRange, IsView, IsStatus, nohole_words, words_of, asked, asked_to_write};
ghost use Rattle.script_model.specs.Lines as spec;
ghost use Rattle.script_codec.specs.Views.{TakesFound, AsksFound};

use crate::words::{cut_word, number, range};
use core_events::{Memory, Request, Way, Work};
use hex::FromHexError;
use span_algebra::{Bytes, Name};
use std::alloc::{AllocError, Global};

/// The name of the drive.
pub const DRIVE: &[u8] = b"drive0";

/// The bytes that the digits spell, if they are one or more.
fn content(alloc: Global, digits: &[u8]) -> Result<Option<Vec<u8>>, Memory>
    ensures { IfOk result (λ found. MatchOption found ((bytes : List ℕ) → decode_of digits.now ≡ Ok bytes → bytes ≡ []) (λ v. (decode_of digits.now ≡ Ok v.items) × (v.items ≢ []))) }
{
    match hex::decode(alloc, digits) {
        Ok(bytes) => {
            if bytes.is_empty() {
                Ok(None)
            } else {
                Ok(Some(bytes))
            }
        }
        Err(e) => match e {
            FromHexError::OutOfMemory => Err(AllocError),
            _ => Ok(None),
        },
    }
}

/// The offset and the bytes of a write.
fn written(alloc: Global, text: &[u8]) -> Result<Option<(u64, Vec<u8>)>, Memory>
    ensures { IfOk result (λ found. MatchOption found ((at : ℕ) (bytes : List ℕ) → IsContent (words_of text.now) at bytes → ⊥) (λ x. IsContent (words_of text.now) x.0 x.1.items)) }
{
    let Some((offset, digits)) = cut_word(text) else {
        return Ok(None);
    };
    let Some(at) = number(offset) else {
        return Ok(None);
    };
    match content(alloc, digits)? {
        Some(bytes) => Ok(Some((at, bytes))),
        None => Ok(None),
    }
}

/// The last number, and whether `nohole` follows.
fn count_and_nohole(text: &[u8]) -> Option<(u64, bool)>
    ensures { MatchOption result
        ((count : List ℕ) (n : ℕ) (no_hole : Bool) → words_of text.now ≡ count ∷ nohole_words no_hole → IsNumber count n → ⊥)
        (λ x. (count : List ℕ) × (words_of text.now ≡ count ∷ nohole_words x.1) × IsNumber count x.0) }
{
    match cut_word(text) {
        None => match number(text) {
            Some(count) => Some((count, false)),
            None => None,
        },
        Some((length, rest)) => {
            if rest != b"nohole".as_slice() {
                return None;
            }
            match number(length) {
                Some(count) => Some((count, true)),
                None => None,
            }
        }
    }
}

/// The range of a zero, and whether `nohole` follows.
fn hole(text: &[u8]) -> Option<(u64, u64, bool)>
    ensures { MatchOption result ((at n : ℕ) (no_hole : Bool) → IsZeroRange (words_of text.now) at n no_hole → ⊥) (λ x. IsZeroRange (words_of text.now) x.0 x.1 x.2) }
{
    let Some((offset, rest)) = cut_word(text) else {
        return None;
    };
    let Some(at) = number(offset) else {
        return None;
    };
    let Some((count, no_hole)) = count_and_nohole(rest) else {
        return None;
    };
    Some((at, count, no_hole))
}

/// A node, and a range of it.
fn view(text: &[u8]) -> Option<(&[u8], u64, u64)>
    ensures { MatchOption result ((name : List ℕ) (at n : ℕ) → IsView (words_of text.now) name at n → ⊥) (λ x. IsView (words_of text.now) x.0.now x.1 x.2) }
{
    let Some((name, rest)) = cut_word(text) else {
        return None;
    };
    if name.is_empty() {
        return None;
    }
    let Some((at, count)) = range(rest) else {
        return None;
    };
    Some((name, at, count))
}

/// A node, a context, and a range.
fn status(text: &[u8]) -> Option<(&[u8], &[u8], u64, u64)>
    ensures { MatchOption result ((name context : List ℕ) (at n : ℕ) → IsStatus (words_of text.now) name context at n → ⊥) (λ x. IsStatus (words_of text.now) x.0.now x.1.now x.2 x.3) }
{
    let Some((name, rest)) = cut_word(text) else {
        return None;
    };
    if name.is_empty() {
        return None;
    }
    let Some((context, at, count)) = view(rest) else {
        return None;
    };
    Some((name, context, at, count))
}

/// A request without bytes.
fn request(
    alloc: Global,
    node: &[u8],
    work: Work,
    offset: u64,
    length: u64,
) -> Result<Request, Memory>
    ensures { IfOk result (λ r. plain_request r ≡ asked node.now work offset length) }
{
    Ok(Request {
        way: Way::Node(Name {
            items: node.to_vec(alloc)?,
        }),
        work,
        offset,
        length,
        bytes: Bytes {
            items: Vec::new(alloc),
        },
    })
}

/// A flush of the drive.
pub fn flush(alloc: Global) -> Result<Request, Memory>
    ensures { IfOk result (λ r. plain_request r ≡ asked spec.drive work.Flush 0 0) }
{
    request(alloc, DRIVE, Work::Flush, 0, 0)
}

/// The write that the words behind `write` ask.
fn write_request(alloc: Global, text: &[u8]) -> Result<Option<Request>, Memory>
    ensures { IfOk result (λ found. TakesFound spec.Write text.now found) }
{
    let Some((offset, bytes)) = written(alloc, text)? else {
        return Ok(None);
    };
    let mut asked = request(
        alloc,
        DRIVE,
        Work::Write { fua: false },
        offset,
        bytes.len() as u64,
    )?;
    asked.bytes = Bytes { items: bytes };
    Ok(Some(asked))
}

/// The read that the words behind `read` ask.
fn read_request(alloc: Global, text: &[u8]) -> Result<Option<Request>, Memory>
    ensures { IfOk result (λ found. TakesFound spec.Read text.now found) }
{
    let Some((offset, length)) = range(text) else {
        return Ok(None);
    };
    let asked = request(alloc, DRIVE, Work::Read, offset, length)?;
    Ok(Some(asked))
}

/// The zero that the words behind `zero` ask.
fn zero_request(alloc: Global, text: &[u8]) -> Result<Option<Request>, Memory>
    ensures { IfOk result (λ found. TakesFound spec.Zero text.now found) }
{
    let Some((offset, length, no_hole)) = hole(text) else {
        return Ok(None);
    };
    let work = Work::Zero {
        fua: false,
        no_hole,
    };
    let asked = request(alloc, DRIVE, work, offset, length)?;
    Ok(Some(asked))
}

/// The read that the words behind `view` ask.
fn view_request(alloc: Global, text: &[u8]) -> Result<Option<Request>, Memory>
    ensures { IfOk result (λ found. TakesFound spec.View text.now found) }
{
    let Some((name, offset, length)) = view(text) else {
        return Ok(None);
    };
    let asked = request(alloc, name, Work::Read, offset, length)?;
    Ok(Some(asked))
}

/// The status that the words behind `status` ask.
fn status_request(alloc: Global, text: &[u8]) -> Result<Option<Request>, Memory>
    ensures { IfOk result (λ found. TakesFound spec.Status text.now found) }
{
    let Some((name, context, offset, length)) = status(text) else {
        return Ok(None);
    };
    let context = Name {
        items: context.to_vec(alloc)?,
    };
    let asked = request(
        alloc,
        name,
        Work::Status {
            context,
            one: false,
        },
        offset,
        length,
    )?;
    Ok(Some(asked))
}

/// What a word and the text behind its blank ask; none where they ask nothing.
pub fn read_request_by(alloc: Global, word: &[u8], text: &[u8]) -> Result<Option<Request>, Memory>
    ensures { IfOk result (λ found. AsksFound word.now text.now found) }
{
    if word == b"write".as_slice() {
        return write_request(alloc, text);
    }
    if word == b"read".as_slice() {
        return read_request(alloc, text);
    }
    if word == b"zero".as_slice() {
        return zero_request(alloc, text);
    }
    if word == b"view".as_slice() {
        return view_request(alloc, text);
    }
    if word == b"status".as_slice() {
        return status_request(alloc, text);
    }
    Ok(None)
}
