//! The contents of options: what INFO and GO ask, and what LIST_META_CONTEXT and SET_META_CONTEXT ask.

ghost use Rattle.std.specs.Prelude.{◌≡◌, ◌≤◌, ℕ, List, None, Some, is_some, IfOk, MatchOption};
ghost use Rattle.nbd_model.specs.Options as model;
ghost use Rattle.nbd_codec.specs.Contents.{InfoRead, MetaRead};
ghost use Rattle.nbd_codec.specs.declared.contents.NbdFault.TheVariants.{Memory};

use crate::numbers::{u16_at, u32_at};
use core_events::Names;
use span_algebra::Name;
use std::alloc::{AllocError, Global};
use thiserror::Error;

/// How many queries one option may have.
const MOST_QUERIES: u32 = 16;

/// What INFO and GO ask.
#[derive(Debug, Drop)]
pub struct InfoAsk {
    /// The name of an export.
    pub name: Name,
    /// Whether the sizes of blocks are asked.
    pub sizes: bool,
}

/// What LIST_META_CONTEXT and SET_META_CONTEXT ask.
#[derive(Debug, Drop)]
pub struct MetaAsk {
    /// The name of an export.
    pub name: Name,
    pub queries: Names,
}

/// Why an option's content isn't taken.
#[derive(Debug, Drop, Error)]
pub enum NbdFault {
    /// It has no form.
    #[error("bad form")]
    BadForm,
    /// It has a form, but more queries than 16. It asks for the export of this name.
    #[error("too many queries")]
    TooMany(Name),
    /// There was no memory.
    #[error("out of memory")]
    Memory,
}

impl From<AllocError> for NbdFault {
    ghost from_gives = { λ _ e. e ≡ Memory };

    fn from(_e: AllocError) -> NbdFault {
        NbdFault::Memory
    }
}

/// A text with its length before it, and what follows.
fn cut_text(bytes: &[u8]) -> Option<(&[u8], &[u8])>
    ensures { MatchOption result (model.cut_text bytes.now ≡ None) (λ parts. model.cut_text bytes.now ≡ Some (record { text = parts.0.now; rest = parts.1.now })) }
{
    if bytes.len() < 4 {
        return None;
    }
    let size = u32_at(bytes, 0) as usize;
    if size > bytes.len() - 4 {
        return None;
    }
    Some((&bytes[4..4 + size], &bytes[4 + size..]))
}

/// Whether the kinds of information that are asked have the sizes of blocks.
fn asks_sizes(kinds: &[u8]) -> bool
    ensures { result ≡ model.asks_kind 3 kinds.now }
{
    let mut rest = kinds;
    while rest.len() >= 2 {
        if u16::from(rest[0]) * 256 + u16::from(rest[1]) == 3 {
            return true;
        }
        rest = &rest[2..];
    }
    false
}

/// Reads the content of INFO or GO.
pub fn read_info(alloc: Global, content: &[u8]) -> Result<InfoAsk, NbdFault>
    ensures { InfoRead content.now result }
{
    let Some((name, rest)) = cut_text(content) else {
        return Err(NbdFault::BadForm);
    };
    if rest.len() < 2 || rest.len() != 2 + 2 * usize::from(u16_at(rest, 0)) {
        return Err(NbdFault::BadForm);
    }
    let name = Name {
        items: name.to_vec(alloc)?,
    };
    Ok(InfoAsk {
        name,
        sizes: asks_sizes(&rest[2..]),
    })
}

/// Whether the bytes are so many texts, and nothing behind them.
fn are_texts(count: u32, bytes: &[u8]) -> bool
    ensures { result ≡ is_some (model.texts_of count bytes.now) }
{
    let mut left = count;
    let mut rest = bytes;
    while left > 0 {
        let Some((_, after)) = cut_text(rest) else {
            return false;
        };
        rest = after;
        left -= 1;
    }
    rest.is_empty()
}

/// The texts, where the bytes are so many.
fn texts_of(alloc: Global, count: u32, bytes: &[u8]) -> Result<Names, AllocError>
    requires { count ≤ model.most_queries }
    ensures { IfOk result (λ names. (texts : List (List ℕ)) → model.texts_of count bytes.now ≡ Some texts → names ≡ texts) }
{
    let mut items = Vec::with_capacity(alloc, count as usize)?;
    let mut left = count;
    let mut rest = bytes;
    while left > 0 {
        let Some((text, after)) = cut_text(rest) else {
            return Ok(Names { items });
        };
        items.push(Name {
            items: text.to_vec(alloc)?,
        })?;
        rest = after;
        left -= 1;
    }
    Ok(Names { items })
}

/// Reads the content of LIST_META_CONTEXT or SET_META_CONTEXT. Its form is tested whole before the number of its queries.
pub fn read_meta(alloc: Global, content: &[u8]) -> Result<MetaAsk, NbdFault>
    ensures { MetaRead content.now result }
{
    let Some((name, rest)) = cut_text(content) else {
        return Err(NbdFault::BadForm);
    };
    if rest.len() < 4 {
        return Err(NbdFault::BadForm);
    }
    let count = u32_at(rest, 0);
    if !are_texts(count, &rest[4..]) {
        return Err(NbdFault::BadForm);
    }
    let name = Name {
        items: name.to_vec(alloc)?,
    };
    if count > MOST_QUERIES {
        return Err(NbdFault::TooMany(name));
    }
    let queries = texts_of(alloc, count, &rest[4..])?;
    Ok(MetaAsk { name, queries })
}
