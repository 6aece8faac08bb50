//! What a message is found to be: an order, or a refusal.

use core_events::Command;
use serde_json::Value;
use span_algebra::Name;
use std::alloc::{AllocError, AllocFailed};
use std::marker::Model;

/// The id of a message, which its reply repeats: any JSON value in which each number is a whole one of 64 bits.
///
/// Contracts see its compact text.
#[derive(Debug, Drop)]
pub struct Id {
    value: Value,
}

impl Model for Id {
    ghost use Rattle.std.specs.Prelude.{◌≡◌, ℕ, List, false};
    ghost use Rattle.serde_json.specs.View as seen;
    ghost use Rattle.serde_json.specs.Written.{compact_text, has_float};

    ghost Value = { List ℕ };

    ghost view = { λ id. compact_text (seen.view id.value) };

    ghost invariant = { λ id. has_float (seen.view id.value) ≡ false };
}

/// What a message asks.
#[derive(Debug, Drop)]
pub enum Order {
    /// The negotiation.
    Negotiate(Option<Id>),
    /// A command.
    Run(Command, Option<Id>),
}

/// Why a message is refused. A name is that of the member, the command or the action's type.
#[derive(Debug, Drop)]
pub enum QmpFault {
    /// It is no JSON, or nests deeper than 127.
    BadJson,
    /// It is no object, or names no command.
    NoExecute,
    /// A member's value has another form than it may have.
    WrongType(Name),
    /// There is no such member.
    UnknownMember(Name),
    /// A command came before the negotiation.
    NotNegotiated(Name),
    /// There is no such command.
    UnknownCommand(Name),
    /// A member is needed and isn't there.
    MissingMember(Name),
    /// There is no action of this type.
    UnknownAction(Name),
    /// The message has no end within 2^20 bytes.
    TooLong,
    /// There was no memory.
    Memory,
}

/// A message that is refused.
#[derive(Debug, Drop)]
pub struct QmpRefusal {
    pub fault: QmpFault,
    /// The number of the action that has the fault, from 0, where it is one of a transaction.
    pub action: Option<u64>,
    /// The id, where one was read.
    pub id: Option<Id>,
}

impl From<AllocError> for QmpFault {
    ghost use Rattle.std.specs.Prelude.{◌≡◌};
    ghost use Rattle.qmp_command.specs.declared.orders.QmpFault.TheVariants.{Memory};

    ghost from_gives = { λ _ e. e ≡ Memory };

    fn from(_e: AllocError) -> QmpFault {
        QmpFault::Memory
    }
}

impl<T: Drop> From<AllocFailed<T>> for QmpFault {
    ghost use Rattle.std.specs.Prelude.{◌≡◌};
    ghost use Rattle.qmp_command.specs.declared.orders.QmpFault.TheVariants.{Memory};

    ghost from_gives = { λ _ e. e ≡ Memory };

    fn from(_e: AllocFailed<T>) -> QmpFault {
        QmpFault::Memory
    }
}

impl Id {
    ghost use Rattle.std.specs.Prelude.{◌≡◌, false};
    ghost use Rattle.serde_json.specs.View.{view};
    ghost use Rattle.serde_json.specs.Written.{compact_text, has_float};

    /// The value, which has no number but whole ones of 64 bits.
    pub fn value(&self) -> &Value
        ensures text { compact_text (view result.now) ≡ self.now }
        ensures whole { has_float (view result.now) ≡ false }
    {
        &self.value
    }

    /// The id that is this value.
    pub(crate) fn new(value: Value) -> Id
        requires { has_float (view value) ≡ false }
        ensures { result ≡ compact_text (view value) }
    {
        Id { value }
    }
}

/// Why a command is refused, and the action that has the fault.
#[derive(Debug, Drop)]
pub(crate) struct Refused {
    pub fault: QmpFault,
    pub action: Option<u64>,
}

impl From<QmpFault> for Refused {
    ghost use Rattle.std.specs.Prelude.{◌≡◌, None};

    ghost from_gives = { λ fault e. e ≡ record { fault = fault; action = None } };

    fn from(fault: QmpFault) -> Refused {
        Refused {
            fault,
            action: None,
        }
    }
}

impl From<AllocError> for Refused {
    ghost use Rattle.std.specs.Prelude.{◌≡◌, None};
    ghost use Rattle.qmp_command.specs.declared.orders.QmpFault.TheVariants.{Memory};

    ghost from_gives = { λ _ e. e ≡ record { fault = Memory; action = None } };

    fn from(_e: AllocError) -> Refused {
        Refused {
            fault: QmpFault::Memory,
            action: None,
        }
    }
}

impl<T: Drop> From<AllocFailed<T>> for Refused {
    ghost use Rattle.std.specs.Prelude.{◌≡◌, None};
    ghost use Rattle.qmp_command.specs.declared.orders.QmpFault.TheVariants.{Memory};

    ghost from_gives = { λ _ e. e ≡ record { fault = Memory; action = None } };

    fn from(_e: AllocFailed<T>) -> Refused {
        Refused {
            fault: QmpFault::Memory,
            action: None,
        }
    }
}
