//! The order that a whole message is, or why it is refused.

ghost use Rattle.std.specs.Prelude.{◌≡◌, ◌≢◌, IfOk, IfErr, MatchResult, option_map, codes, true, false};
ghost use Rattle.serde_json.specs.View.{view};
ghost use Rattle.serde_json.specs.Written.{compact_text};
ghost use Rattle.monitor_model.specs.Commands as model;
ghost use Rattle.qmp_command.specs.Views.{seen, members, told, TellsId, GivesAsked};

use crate::commands::command_of;
use crate::floats::has_float;
use crate::members::{check, is_wrong, unknown_in};
use crate::orders::{Id, Order, QmpFault, QmpRefusal, Refused};
use crate::tables::{CAPABILITIES, Form, TOP};
use crate::values::{member, name_of, text_in};
use core_events::Command;
use serde_json::Value;
use std::alloc::Global;

/// The command of this name, or none where it is the negotiation, by the arguments of its message.
fn asked_by(
    alloc: Global,
    name: &str,
    arguments: Option<&Value>,
    negotiated: bool,
) -> Result<Option<Command>, Refused>
    ensures { GivesAsked result (λ id. model.order_by negotiated id name.now (members arguments.entry)) }
{
    if negotiated {
        return Ok(Some(command_of(alloc, name, arguments)?));
    }
    if name == "qmp_capabilities" {
        check(alloc, CAPABILITIES, arguments)?;
        return Ok(None);
    }
    let fault = QmpFault::NotNegotiated(name_of(alloc, name)?);
    Err(Refused::from(fault))
}

/// What a message that names a command asks: its own members are tested, and then its arguments.
fn asked(
    alloc: Global,
    name: &str,
    object: Option<&Value>,
    negotiated: bool,
) -> Result<Option<Command>, Refused>
    ensures { GivesAsked result (λ id. model.order_of_members negotiated id name.now (members object.entry)) }
{
    if let Some(unknown) = unknown_in(TOP, object) {
        let fault = QmpFault::UnknownMember(name_of(alloc, unknown)?);
        return Err(Refused::from(fault));
    }
    let arguments = member(object, "arguments");
    if is_wrong(Form::Object, arguments) {
        let fault = QmpFault::WrongType(name_of(alloc, "arguments")?);
        return Err(Refused::from(fault));
    }
    asked_by(alloc, name, arguments, negotiated)
}

/// The id, unless a number in it is no whole one of 64 bits.
fn read_id(alloc: Global, value: Option<&Value>) -> Result<Option<Id>, QmpFault>
    ensures { MatchResult result
        (λ id. (model.id_has_float (seen value.entry) ≡ false) × (id ≡ option_map compact_text (seen value.entry)))
        (λ e. e ≢ QmpFault.Memory → (model.id_has_float (seen value.entry) ≡ true) × (e ≡ QmpFault.WrongType (codes "id"))) }
{
    let Some(value) = value else {
        return Ok(None);
    };
    if has_float(value) {
        return Err(QmpFault::WrongType(name_of(alloc, "id")?));
    }
    Ok(Some(Id::new(value.clone()?)))
}

/// A refusal that tells no id.
fn without_id(fault: QmpFault) -> QmpRefusal
    ensures { result ≡ record { fault = fault; action = None; id = None } }
{
    QmpRefusal {
        fault,
        action: None,
        id: None,
    }
}

/// The order that a message's value is.
fn order_of(alloc: Global, value: &Value, negotiated: bool) -> Result<Order, QmpRefusal>
    ensures ordered { IfOk result (λ order. told (model.order_of_data negotiated (view value.now)) ≡ Ok order) }
    ensures refused { IfErr result (λ e. e.fault ≢ QmpFault.Memory → told (model.order_of_data negotiated (view value.now)) ≡ Err e) }
    ensures id { IfErr result (λ e. TellsId e.id (model.order_of_data negotiated (view value.now))) }
{
    let object = Some(value);
    let Some(name) = text_in(member(object, "execute")) else {
        return Err(without_id(QmpFault::NoExecute));
    };
    let id = match read_id(alloc, member(object, "id")) {
        Ok(id) => id,
        Err(fault) => return Err(without_id(fault)),
    };
    match asked(alloc, name, object, negotiated) {
        Ok(Some(command)) => Ok(Order::Run(command, id)),
        Ok(None) => Ok(Order::Negotiate(id)),
        Err(refused) => Err(QmpRefusal {
            fault: refused.fault,
            action: refused.action,
            id,
        }),
    }
}

/// The order that a whole message is, before or after the negotiation.
///
/// The message is read once. Where there is no memory, that is the fault that is told, with an id where one was read.
pub fn read_command(alloc: Global, message: &[u8], negotiated: bool) -> Result<Order, QmpRefusal>
    ensures ordered { IfOk result (λ order. told (model.order_of negotiated message.now) ≡ Ok order) }
    ensures refused { IfErr result (λ e. e.fault ≢ QmpFault.Memory → told (model.order_of negotiated message.now) ≡ Err e) }
    ensures id { IfErr result (λ e. TellsId e.id (model.order_of negotiated message.now)) }
{
    match Value::from_slice(alloc, message) {
        Ok(value) => order_of(alloc, &value, negotiated),
        Err(error) => {
            if error.is_memory() {
                Err(without_id(QmpFault::Memory))
            } else {
                Err(without_id(QmpFault::BadJson))
            }
        }
    }
}
