//! Laws of the monitor's stream. Each function does nothing; its contract is the law.

ghost use Rattle.monitor_model.specs.Laws.{MessagesEndAlike, MessagesEndWithin};

/// Where a message ends doesn't depend on what follows it.
#[tactic(auto, using(crate::proofs::Ends::from_on))]
pub fn messages_end_alike()
    ensures { MessagesEndAlike }
{}

/// A message has a byte at least, and no more than are there.
#[tactic(auto, using(crate::proofs::Ends::of_within))]
pub fn messages_end_within()
    ensures { MessagesEndWithin }
{}
