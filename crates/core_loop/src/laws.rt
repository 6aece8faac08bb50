//! Laws of the definitions. Each function does nothing; its contract is the law.

ghost use Rattle.core_loop.specs.Laws.{ChainsAtRestGiveDisks, OpeningLeads, SourcesBegin, CoversGoOn, EioNeedsFaults, AnswersComeAfter, KilledIsACrash};

/// Chains of files at rest give the disk at their last point.
pub fn chains_at_rest_give_disks()
    ensures { ChainsAtRestGiveDisks }
{}

/// An opening that syncs first leads from rest to rest.
pub fn opening_leads()
    ensures { OpeningLeads }
{}

/// A new source is at rest.
pub fn sources_begin()
    ensures { SourcesBegin }
{}

/// The files that are spoken of serve for the next session too.
pub fn covers_go_on()
    ensures { CoversGoOn }
{}

/// A read or write is answered with EIO only where a call failed within it.
pub fn eio_needs_faults()
    ensures { EioNeedsFaults }
{}

/// An answer is told after its event was carried out.
pub fn answers_come_after()
    ensures { AnswersComeAfter }
{}

/// What a program leaves that is killed without a power failure is what a crash may leave.
pub fn killed_is_a_crash()
    ensures { KilledIsACrash }
{}
