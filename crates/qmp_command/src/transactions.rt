//! Transactions: many actions in one command.

ghost use Rattle.std.specs.Prelude.{map, Some};
ghost use Rattle.serde_json.specs.View.{view};
ghost use Rattle.monitor_model.specs.Commands as model;
ghost use Rattle.qmp_command.specs.Views.{members, Gives, GivesAt, GivesActions};

use crate::actions::action_of;
use crate::members::check;
use crate::orders::{QmpFault, Refused};
use crate::tables::{ACTION, NOTHING, PROPERTIES, TRANSACTION};
use crate::values::{items_of, member, name_of, text_of};
use core_events::{Action, Actions, Command};
use serde_json::Value;
use std::alloc::Global;

/// The action of this type with these arguments: that of a command, or `abort`.
fn by_kind(alloc: Global, kind: &str, object: Option<&Value>) -> Result<Action, QmpFault>
    ensures { Gives result (model.by_kind kind.now (members object.entry)) }
{
    if kind == "abort" {
        check(alloc, NOTHING, object)?;
        return Ok(Action::Abort);
    }
    match action_of(alloc, kind, object) {
        Some(action) => action,
        None => Err(QmpFault::UnknownAction(name_of(alloc, kind)?)),
    }
}

/// One action: its own members are tested, then its type, and then its arguments.
fn one_action(alloc: Global, value: &Value) -> Result<Action, QmpFault>
    ensures { Gives result (model.one_action (model.members_in (Some (view value.now)))) }
{
    let object = Some(value);
    check(alloc, ACTION, object)?;
    by_kind(alloc, text_of(object, "type"), member(object, "data"))
}

/// All actions, or the first that is refused, with its number.
fn actions_of(alloc: Global, items: &[Value]) -> Result<Vec<Action>, Refused>
    ensures { GivesActions result (model.actions_from 0 (map view items.now)) }
{
    let mut actions = Vec::new(alloc);
    for (number, item) in items.iter().enumerate() {
        match one_action(alloc, item) {
            Ok(action) => actions.push(action)?,
            Err(fault) => {
                return Err(Refused {
                    fault,
                    action: Some(number as u64),
                });
            }
        }
    }
    Ok(actions)
}

/// A transaction: its arguments are tested, then the properties, and then action by action.
pub(crate) fn transaction(alloc: Global, object: Option<&Value>) -> Result<Command, Refused>
    ensures { GivesAt result (model.transaction_of (members object.entry)) }
{
    check(alloc, TRANSACTION, object)?;
    check(alloc, PROPERTIES, member(object, "properties"))?;
    let items = actions_of(alloc, items_of(object, "actions"))?;
    Ok(Command::Transaction(Actions { items }))
}
