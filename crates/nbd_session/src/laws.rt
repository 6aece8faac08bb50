//! Laws of connections. Each function does nothing; its contract is the law.

ghost use Rattle.nbd_session.specs.Turns.{PartsAreTheAnswer};
ghost use Rattle.nbd_session.specs.Connections.{RequestsAskSomething};

/// The parts that single replies add are the answer to the request.
#[tactic(auto, using(crate::proofs::Parts::parts_are))]
pub fn parts_are_the_answer()
    ensures { PartsAreTheAnswer }
{}

/// A request that is taken asks something, so a connection is never without a next step.
#[tactic(auto, using(crate::proofs::Events::taken_asks))]
pub fn requests_ask_something()
    ensures { RequestsAskSomething }
{}
