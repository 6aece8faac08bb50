//! Contexts of an export, listed and selected.

ghost use Rattle.std.specs.Prelude.{◌≡◌, ◌≤◌, ℕ, ◌+◌, List, [], ◌∷◌, ◌++◌, length, filter, bytes_eq, IfOk, OnOk, OnErr};
ghost use Rattle.std.specs.List.{list_any};
ghost use Rattle.nbd_model.specs.Options as options;
ghost use Rattle.nbd_session.specs.Parts.{Grows};

use crate::agreeing::copy_of;
use crate::negotiating::{ACK, numbered};
use core_events::{ExportInfo, Memory, Names, SourceName};
use nbd_codec::write_option_reply;
use span_algebra::{Bytes, Name};
use std::alloc::Global;

const META_CONTEXT: u32 = 4;

const BASE: &[u8] = b"base:";

const QEMU: &[u8] = b"qemu:";

const BITMAP: &[u8] = b"qemu:dirty-bitmap:";

const ALLOCATION: &[u8] = b"base:allocation";

/// Whether the name is among these.
fn has(names: &Names, name: &Name) -> bool
    ensures { result ≡ list_any (bytes_eq name.now) names.now }
{
    for other in &names.items {
        if name.items.as_slice() == other.items.as_slice() {
            return true;
        }
    }
    false
}

/// Adds a name, unless it is there.
#[tactic(auto, using(crate::proofs::Once::stays))]
fn add_once(names: &mut Names, name: Name) -> Result<(), Memory>
    ensures once { OnOk result ((before : List (List ℕ)) → names.old ≡ options.once_each before → names.new ≡ options.once_each (before ++ name ∷ [])) }
    ensures few { OnOk result (length names.new ≤ length names.old + 1) }
{
    if !has(names, &name) {
        names.items.push(name)?;
    }
    Ok(())
}

/// The context of a bitmap.
fn bitmap_context(alloc: Global, bitmap: &SourceName) -> Result<Name, Memory>
    ensures { IfOk result (λ name. name ≡ options.bitmap_context bitmap.now) }
{
    let mut items = Vec::new(alloc);
    items.extend_from_slice(BITMAP)?;
    items.extend_from_slice(bitmap.name.items.as_slice())?;
    Ok(Name { items })
}

/// The contexts of an export: how it is stored, and then one for each of its bitmaps.
pub(crate) fn contexts_of(alloc: Global, export: &ExportInfo) -> Result<Names, Memory>
    ensures { IfOk result (λ names. names ≡ options.contexts_of export.now) }
{
    let mut names = Names {
        items: Vec::new(alloc),
    };
    let base = Name {
        items: ALLOCATION.to_vec(alloc)?,
    };
    names.items.push(base)?;
    for bitmap in &export.contexts.items {
        let name = bitmap_context(alloc, bitmap)?;
        add_once(&mut names, name)?;
    }
    Ok(names)
}

/// Whether the query is a namespace, or the front of bitmaps' contexts.
fn is_namespace(query: &[u8]) -> bool
    ensures { result ≡ options.is_namespace query.now }
{
    query == BASE || (query == QEMU || query == BITMAP)
}

/// Whether the query answers the context.
fn answers(context: &[u8], query: &[u8]) -> bool
    ensures { result ≡ options.answers context.now query.now }
{
    query == context || (is_namespace(query) && context.starts_with(query))
}

/// Whether some query answers the context, or there is none.
fn is_listed(queries: &Names, context: &Name) -> bool
    ensures { result ≡ options.is_listed queries.now context.now }
{
    if queries.items.is_empty() {
        return true;
    }
    for query in &queries.items {
        if answers(&context.items, &query.items) {
            return true;
        }
    }
    false
}

/// A context's reply.
fn write_context(
    alloc: Global,
    option: u32,
    id: u32,
    name: &Name,
    out: &mut Bytes,
) -> Result<(), Memory>
    ensures sent { OnOk result (out.new.items.items ≡ out.old.items.items ++ options.context_reply option id name.now) }
    ensures kept { OnErr result (out.new.items.items ≡ out.old.items.items) }
{
    let content = numbered(alloc, id, &name.items)?;
    write_option_reply(alloc, option, META_CONTEXT, &content, out)
}

/// The replies of a list of contexts: those that are asked for.
#[tactic(auto, using(crate::proofs::Growing::grows_not, crate::proofs::Growing::grows_by))]
pub(crate) fn write_listed(
    alloc: Global,
    option: u32,
    queries: &Names,
    contexts: &Names,
    out: &mut Bytes,
) -> Result<(), Memory>
    ensures sent { OnOk result (out.new.items.items ≡ out.old.items.items ++ options.listed_replies option (filter (options.is_listed queries.now) contexts.now)) }
    ensures begun { OnErr result (Grows out.old.items.items out.new.items.items) }
{
    for context in &contexts.items {
        if is_listed(queries, context) {
            write_context(alloc, option, 0, context, out)?;
        }
    }
    write_option_reply(alloc, option, ACK, &[], out)
}

/// Those queries that are contexts, each once.
pub(crate) fn select(alloc: Global, queries: &Names, contexts: &Names) -> Result<Names, Memory>
    ensures names { IfOk result (λ names. names ≡ options.once_each (filter (λ query. list_any (bytes_eq query) contexts.now) queries.now)) }
    ensures few { IfOk result (λ names. length names ≤ length queries.now) }
{
    let mut selected = Names {
        items: Vec::new(alloc),
    };
    for query in &queries.items {
        if has(contexts, query) {
            let name = copy_of(alloc, query)?;
            add_once(&mut selected, name)?;
        }
    }
    Ok(selected)
}

/// The replies of a selection, numbered from 1.
#[tactic(auto, using(crate::proofs::Growing::grows_not, crate::proofs::Growing::grows_by))]
pub(crate) fn write_selected(
    alloc: Global,
    option: u32,
    selected: &Names,
    out: &mut Bytes,
) -> Result<(), Memory>
    requires { length selected.now ≤ options.most_queries }
    ensures sent { OnOk result (out.new.items.items ≡ out.old.items.items ++ options.selected_replies option 1 selected.now) }
    ensures begun { OnErr result (Grows out.old.items.items out.new.items.items) }
{
    let mut id = 1;
    for context in &selected.items {
        write_context(alloc, option, id, context, out)?;
        id += 1;
    }
    write_option_reply(alloc, option, ACK, &[], out)
}
