//! Laws of the definitions. Each function does nothing; its contract is the law.

ghost use Rattle.plain_model.specs.Recorded.{LinesAreKept, Recordings};
ghost use Rattle.plain_model.specs.Laws.{SoundnessIsKept, OpeningIsSound, ClosingIsSound, ClosingStoresLasting, QuietAnswersAreOwed, DenialsChangeNothing, RefusalsChangeNothing, EmptyTransactionDrawsAPoint, OutOfMemoryNumbersAnAction, BreakAnswersIo, RecordStaysTrue, ChainGivesDisk, TakenExactlyAsChains, CompletedRecordIsTrue, CopiesReadAsPoint, SettlingLeadsToDisk, NothingToSettle, LastDiskIsKept};

/// Each event takes a sound state to a sound state.
pub fn soundness_is_kept()
    ensures { SoundnessIsKept }
{}

/// A session begins in a sound state.
pub fn opening_is_sound()
    ensures { OpeningIsSound }
{}

/// A closing leaves a sound state.
pub fn closing_is_sound()
    ensures { ClosingIsSound }
{}

/// What a closing stores is what the next opening restores, and it is true.
pub fn closing_stores_lasting()
    ensures { ClosingStoresLasting }
{}

/// Where no fault rises and nothing is refused for want of memory, an answer is a function of state and event.
pub fn quiet_answers_are_owed()
    ensures { QuietAnswersAreOwed }
{}

/// A request that is denied, for want of room too, changes nothing.
#[tactic(auto, using(crate::proofs::AnswerLaws::denial_unmoved))]
pub fn denials_change_nothing()
    ensures { DenialsChangeNothing }
{}

/// A command that is refused changes nothing.
#[tactic(auto, using(crate::proofs::AnswerLaws::refusal_unmoved))]
pub fn refusals_change_nothing()
    ensures { RefusalsChangeNothing }
{}

/// A transaction without actions draws a point.
#[tactic(auto, using(crate::proofs::AnswerLaws::empty_draws))]
pub fn empty_transaction_draws_a_point()
    ensures { EmptyTransactionDrawsAPoint }
{}

/// A transaction for which memory is wanting names one of its actions.
pub fn out_of_memory_numbers_an_action()
    ensures { OutOfMemoryNumbersAnAction }
{}

/// A source breaks in a request, which is answered with EIO.
#[tactic(auto, using(crate::proofs::AnswerLaws::break_answers))]
pub fn break_answers_io()
    ensures { BreakAnswersIo }
{}

/// A true record stays true as the history goes on.
pub fn record_stays_true()
    ensures { RecordStaysTrue }
{}

/// A chain of true records gives the disk at its last point.
#[tactic(auto, using(crate::proofs::ChainLaws::chain_gives))]
pub fn chain_gives_disk()
    ensures { ChainGivesDisk }
{}

/// Files are taken exactly where they are a chain.
#[tactic(auto, using(crate::proofs::TakenLaws::taken_are_chains))]
pub fn taken_exactly_as_chains()
    ensures { TakenExactlyAsChains }
{}

/// The record of a job of which nothing is missing is true.
pub fn completed_record_is_true()
    ensures { CompletedRecordIsTrue }
{}

/// A copy and the disk together give the disk at the point of the copy.
#[tactic(auto, using(crate::proofs::CopyLaws::read_as_point))]
pub fn copies_read_as_point()
    ensures { CopiesReadAsPoint }
{}

/// A settled history leads to the disk that was found.
pub fn settling_leads_to_disk()
    ensures { SettlingLeadsToDisk }
{}

/// A history whose disk is there has nothing to settle.
#[tactic(auto, using(crate::proofs::SettleLaws::nothing_settles))]
pub fn nothing_to_settle()
    ensures { NothingToSettle }
{}

/// After a sync that was answered a crash leaves the disk itself.
pub fn last_disk_is_kept()
    ensures { LastDiskIsKept }
{}

/// A recording keeps whole lines, up to the first that has no room.
#[tactic(auto, using(crate::proofs::Recording::kept))]
pub fn lines_are_kept()
    ensures { LinesAreKept }
{}

/// Worked examples of what a recording holds of a run.
#[tactic(auto, unfolding(crate::proofs::Recording::recordings_compute))]
pub fn recordings()
    ensures { Recordings }
{}
