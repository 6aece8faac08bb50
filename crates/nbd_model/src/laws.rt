//! Laws of connections. Each function does nothing; its contract is the law.

ghost use Rattle.nbd_model.specs.Laws.{MessagesAreTakenAlike, MessagesTakeTheirBytes};

/// What a whole message gives doesn't depend on what follows it.
#[tactic(auto, using(crate::proofs::Streams::taken_same))]
pub fn messages_are_taken_alike()
    ensures { MessagesAreTakenAlike }
{}

/// A message has a byte at least, and no more than are there.
#[tactic(auto, using(crate::proofs::Within::taken_within))]
pub fn messages_take_their_bytes()
    ensures { MessagesTakeTheirBytes }
{}
