//! What layers above may cite. Each function does nothing; its contract is the law.

ghost use Rattle.image_store.specs.Laws.{SpaceIsOfReads, StandingHasFirst, StandingHasSpace, StandingIsInOrder, StandingIsMixedOfOthers, StandingIsSpared};

/// What is known of a source says that its file is in order, as reads give it and in each crash.
pub fn standing_is_in_order()
    ensures { StandingIsInOrder }
{}

/// Calls of others keep it.
pub fn standing_is_spared()
    ensures { StandingIsSpared }
{}

/// It may be said of other disks that a crash mixes them, where all that was said follows.
pub fn standing_is_mixed_of_others()
    ensures { StandingIsMixedOfOthers }
{}

/// Each crash leaves the first cluster that reads give.
pub fn standing_has_first()
    ensures { StandingHasFirst }
{}

/// What it has of clusters is one value, which reads and the pool give.
pub fn standing_has_space()
    ensures { StandingHasSpace }
{}

/// The same reads give the same.
pub fn space_is_of_reads()
    ensures { SpaceIsOfReads }
{}
