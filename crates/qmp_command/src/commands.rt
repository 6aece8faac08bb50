//! Commands by their names.

ghost use Rattle.std.specs.Prelude.{◌≡◌, ◌≢◌, [], map, codes, IfOk};
ghost use Rattle.serde_json.specs.View.{view};
ghost use Rattle.monitor_model.specs.Commands as model;
ghost use Rattle.qmp_command.specs.Views.{members, Gives, GivesAt, MeetsPlain};

use crate::actions::action_of;
use crate::members::check;
use crate::orders::{QmpFault, Refused};
use crate::tables::{EXPORT, ID, NODES, NOTHING};
use crate::transactions::transaction;
use crate::values::{items_of, name_in, name_of, text_in, text_of, text_or, truth_of};
use core_events::{Command, ExportArgs, Memory, SourceName, Sources};
use serde_json::Value;
use std::alloc::Global;

/// The bitmaps of an export, by their names alone.
fn bitmaps_of(alloc: Global, items: &[Value]) -> Result<Vec<SourceName>, Memory>
    ensures { IfOk result (λ sources. sources.items ≡ map model.export_source (map view items.now)) }
{
    let mut bitmaps = Vec::new(alloc);
    for item in items {
        bitmaps.push(SourceName {
            node: None,
            name: name_of(alloc, text_in(Some(item)).unwrap_or(""))?,
        })?;
    }
    Ok(bitmaps)
}

fn export_add(alloc: Global, object: Option<&Value>) -> Result<Command, QmpFault>
    ensures { Gives result (model.checked (model.object_fault model.export_table (members object.entry)) (model.export_of (members object.entry))) }
{
    check(alloc, EXPORT, object)?;
    let node = text_of(object, "node-name");
    Ok(Command::ExportAdd(ExportArgs {
        id: name_in(alloc, object, "id")?,
        node: name_of(alloc, node)?,
        name: name_of(alloc, text_or(object, "name", node))?,
        writable: truth_of(object, "writable"),
        bitmaps: Sources {
            items: bitmaps_of(alloc, items_of(object, "bitmaps"))?,
        },
    }))
}

fn job_cancel(alloc: Global, object: Option<&Value>) -> Result<Command, QmpFault>
    ensures { Gives result (model.checked (model.object_fault model.id_table (members object.entry)) (Command.JobCancel (model.text_of (codes "id") (members object.entry)))) }
{
    check(alloc, ID, object)?;
    Ok(Command::JobCancel(name_in(alloc, object, "id")?))
}

fn query_jobs(alloc: Global, object: Option<&Value>) -> Result<Command, QmpFault>
    ensures { Gives result (model.checked (model.object_fault [] (members object.entry)) Command.QueryJobs) }
{
    check(alloc, NOTHING, object)?;
    Ok(Command::QueryJobs)
}

fn query_nodes(alloc: Global, object: Option<&Value>) -> Result<Command, QmpFault>
    ensures { Gives result (model.checked (model.object_fault model.nodes_table (members object.entry)) Command.QueryNodes) }
{
    check(alloc, NODES, object)?;
    Ok(Command::QueryNodes)
}

fn quit(alloc: Global, object: Option<&Value>) -> Result<Command, QmpFault>
    ensures { Gives result (model.checked (model.object_fault [] (members object.entry)) Command.Quit) }
{
    check(alloc, NOTHING, object)?;
    Ok(Command::Quit)
}

/// The command of this name that is neither an action nor a transaction; none where there is no such command.
fn other_command(
    alloc: Global,
    name: &str,
    object: Option<&Value>,
) -> Option<Result<Command, QmpFault>>
    ensures { name.now ≢ codes "transaction" → MeetsPlain result (model.plain_command name.now (members object.entry)) }
{
    if name == "job-cancel" {
        return Some(job_cancel(alloc, object));
    }
    if name == "query-jobs" {
        return Some(query_jobs(alloc, object));
    }
    if name == "query-named-block-nodes" {
        return Some(query_nodes(alloc, object));
    }
    if name == "block-export-add" {
        return Some(export_add(alloc, object));
    }
    if name == "quit" {
        return Some(quit(alloc, object));
    }
    None
}

/// The command of this name with these arguments.
pub(crate) fn command_of(
    alloc: Global,
    name: &str,
    object: Option<&Value>,
) -> Result<Command, Refused>
    ensures { GivesAt result (model.command_of name.now (members object.entry)) }
{
    if name == "transaction" {
        return transaction(alloc, object);
    }
    if let Some(action) = action_of(alloc, name, object) {
        return Ok(Command::Act(action?));
    }
    match other_command(alloc, name, object) {
        Some(command) => Ok(command?),
        None => {
            let fault = QmpFault::UnknownCommand(name_of(alloc, name)?);
            Err(Refused::from(fault))
        }
    }
}
