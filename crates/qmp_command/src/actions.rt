//! Actions by their names.

ghost use Rattle.std.specs.Prelude.{◌≡◌, map, codes, IfOk, MatchResult, None};
ghost use Rattle.serde_json.specs.View.{view};
ghost use Rattle.monitor_model.specs.Commands as model;
ghost use Rattle.qmp_command.specs.Views.{seen, members, plain_table, Tells, Gives, Meets};

use crate::members::check;
use crate::orders::QmpFault;
use crate::tables::{ADD, BACKUP, BACKUP_BY_BITMAP, MERGE, Member, NAME};
use crate::values::{
    is_word, items_of, member, name_in, name_of, number_of, text_in, text_of, text_or, truth_of,
};
use core_events::{Action, BackupArgs, Memory, Mode, SourceName, Sources, SyncKind};
use serde_json::Value;
use span_algebra::Name;
use std::alloc::Global;

/// The addition of a bitmap.
fn add(alloc: Global, object: Option<&Value>) -> Result<Action, QmpFault>
    ensures { Gives result (model.checked (model.object_fault model.add_table (members object.entry)) (model.add_of (members object.entry))) }
{
    check(alloc, ADD, object)?;
    Ok(Action::Add {
        node: name_in(alloc, object, "node")?,
        name: name_in(alloc, object, "name")?,
        granularity: number_of(object, "granularity"),
        persistent: truth_of(object, "persistent"),
        recording: !truth_of(object, "disabled"),
    })
}

/// The node and the name of a bitmap.
fn node_and_name(alloc: Global, object: Option<&Value>) -> Result<(Name, Name), QmpFault>
    ensures { Gives result (model.checked (model.object_fault model.name_table (members object.entry)) (model.text_of (codes "node") (members object.entry), model.text_of (codes "name") (members object.entry))) }
{
    check(alloc, NAME, object)?;
    Ok((
        name_in(alloc, object, "node")?,
        name_in(alloc, object, "name")?,
    ))
}

/// A source of a merge: its name alone, or in an object beside a node.
fn source_of(alloc: Global, value: &Value) -> Result<SourceName, Memory>
    ensures { IfOk result (λ source. source ≡ model.source_of (view value.now)) }
{
    if value.is_object() {
        let object = Some(value);
        return Ok(SourceName {
            node: Some(name_in(alloc, object, "node")?),
            name: name_in(alloc, object, "name")?,
        });
    }
    Ok(SourceName {
        node: None,
        name: name_of(alloc, text_in(Some(value)).unwrap_or(""))?,
    })
}

/// The sources of a merge.
fn sources_of(alloc: Global, items: &[Value]) -> Result<Vec<SourceName>, Memory>
    ensures { IfOk result (λ sources. sources.items ≡ map model.source_of (map view items.now)) }
{
    let mut sources = Vec::new(alloc);
    for item in items {
        sources.push(source_of(alloc, item)?)?;
    }
    Ok(sources)
}

/// Tests each source that is an object.
fn check_sources(alloc: Global, items: &[Value]) -> Result<(), QmpFault>
    ensures { MatchResult result (λ _. model.first_of (map model.source_fault (map view items.now)) ≡ None) (Tells (model.first_of (map model.source_fault (map view items.now)))) }
{
    for item in items {
        if item.is_object() {
            check(alloc, NAME, Some(item))?;
        }
    }
    Ok(())
}

/// The merge of bitmaps.
fn merge(alloc: Global, object: Option<&Value>) -> Result<Action, QmpFault>
    ensures { Gives result (model.checked (model.merge_fault (members object.entry)) (model.merge_of (members object.entry))) }
{
    check(alloc, MERGE, object)?;
    let items = items_of(object, "bitmaps");
    check_sources(alloc, items)?;
    Ok(Action::Merge {
        node: name_in(alloc, object, "node")?,
        target: name_in(alloc, object, "target")?,
        sources: Sources {
            items: sources_of(alloc, items)?,
        },
    })
}

/// Which parts a backup copies; all where no word says another.
fn sync_of(value: Option<&Value>) -> SyncKind
    ensures { result ≡ model.sync_of (seen value.entry) }
{
    if is_word(value, "incremental") {
        SyncKind::Incremental
    } else if is_word(value, "bitmap") {
        SyncKind::Bitmap
    } else if is_word(value, "none") {
        SyncKind::Nothing
    } else {
        SyncKind::Full
    }
}

/// What becomes of a backup's bitmap, where a word says it.
fn mode_of(value: Option<&Value>) -> Option<Mode>
    ensures { result ≡ model.mode_of (seen value.entry) }
{
    if is_word(value, "on-success") {
        Some(Mode::OnSuccess)
    } else if is_word(value, "never") {
        Some(Mode::Never)
    } else {
        None
    }
}

/// The name that a member has as its text, where it has one.
fn name_if_there(alloc: Global, object: Option<&Value>, name: &str) -> Result<Option<Name>, Memory>
    ensures { IfOk result (λ found. found ≡ model.text_in (model.get name.now (members object.entry))) }
{
    match text_in(member(object, name)) {
        Some(text) => Ok(Some(name_of(alloc, text)?)),
        None => Ok(None),
    }
}

/// The arguments that a backup may have.
fn backup_table(object: Option<&Value>) -> &'static [Member]
    ensures { plain_table result.now ≡ model.backup_table (model.asks_mode (members object.entry)) }
{
    if is_word(member(object, "sync"), "bitmap") {
        BACKUP_BY_BITMAP
    } else {
        BACKUP
    }
}

/// The start of a backup.
fn backup(alloc: Global, object: Option<&Value>) -> Result<Action, QmpFault>
    ensures { Gives result (model.checked (model.object_fault (model.backup_table (model.asks_mode (members object.entry))) (members object.entry)) (model.backup_of (members object.entry))) }
{
    check(alloc, backup_table(object), object)?;
    let job = text_or(object, "job-id", text_of(object, "device"));
    Ok(Action::Backup(BackupArgs {
        job: name_of(alloc, job)?,
        device: name_in(alloc, object, "device")?,
        target: name_in(alloc, object, "target")?,
        sync: sync_of(member(object, "sync")),
        bitmap: name_if_there(alloc, object, "bitmap")?,
        mode: mode_of(member(object, "bitmap-mode")),
    }))
}

fn remove(alloc: Global, object: Option<&Value>) -> Result<Action, QmpFault>
    ensures { Gives result (model.checked (model.object_fault model.name_table (members object.entry)) (Action.Remove (model.text_of (codes "node") (members object.entry)) (model.text_of (codes "name") (members object.entry)))) }
{
    let (node, name) = node_and_name(alloc, object)?;
    Ok(Action::Remove { node, name })
}

fn clear(alloc: Global, object: Option<&Value>) -> Result<Action, QmpFault>
    ensures { Gives result (model.checked (model.object_fault model.name_table (members object.entry)) (Action.Clear (model.text_of (codes "node") (members object.entry)) (model.text_of (codes "name") (members object.entry)))) }
{
    let (node, name) = node_and_name(alloc, object)?;
    Ok(Action::Clear { node, name })
}

fn enable(alloc: Global, object: Option<&Value>) -> Result<Action, QmpFault>
    ensures { Gives result (model.checked (model.object_fault model.name_table (members object.entry)) (Action.Enable (model.text_of (codes "node") (members object.entry)) (model.text_of (codes "name") (members object.entry)))) }
{
    let (node, name) = node_and_name(alloc, object)?;
    Ok(Action::Enable { node, name })
}

fn disable(alloc: Global, object: Option<&Value>) -> Result<Action, QmpFault>
    ensures { Gives result (model.checked (model.object_fault model.name_table (members object.entry)) (Action.Disable (model.text_of (codes "node") (members object.entry)) (model.text_of (codes "name") (members object.entry)))) }
{
    let (node, name) = node_and_name(alloc, object)?;
    Ok(Action::Disable { node, name })
}

/// The action that a command or an action of this name starts with these arguments; none where there is no such action.
pub(crate) fn action_of(
    alloc: Global,
    name: &str,
    object: Option<&Value>,
) -> Option<Result<Action, QmpFault>>
    ensures { Meets result (model.action_of name.now (members object.entry)) }
{
    if name == "block-dirty-bitmap-add" {
        return Some(add(alloc, object));
    }
    if name == "block-dirty-bitmap-remove" {
        return Some(remove(alloc, object));
    }
    if name == "block-dirty-bitmap-clear" {
        return Some(clear(alloc, object));
    }
    if name == "block-dirty-bitmap-enable" {
        return Some(enable(alloc, object));
    }
    if name == "block-dirty-bitmap-disable" {
        return Some(disable(alloc, object));
    }
    if name == "block-dirty-bitmap-merge" {
        return Some(merge(alloc, object));
    }
    if name == "blockdev-backup" {
        return Some(backup(alloc, object));
    }
    None
}
