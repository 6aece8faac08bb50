//! A law of what is recorded of a message, and worked examples. Each function does nothing; its contract is the law or the examples.

ghost use Rattle.monitor_model.specs.Recorded.{RecordedTexts};
ghost use Rattle.qmp_command.specs.Laws.{AcceptedIsRecorded};

/// Messages as they are recorded.
#[tactic(auto, unfolding(crate::proofs::Computing::messages_compute))]
pub fn recorded_texts()
    ensures { RecordedTexts }
{}

/// A message that is an order is never left out of a recording.
#[tactic(auto, using(crate::proofs::Accepted::accepted))]
pub fn accepted_is_recorded()
    ensures { AcceptedIsRecorded }
{}
