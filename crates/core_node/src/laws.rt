//! Laws of the promises: what they refuse. Each function does nothing; its contract is the law.

ghost use Rattle.core_node.specs.Laws.{OneKind, DroppedIsNotSafe, RefusedIsNotReady, OpenedShowsId, OpenedHasBitmaps, OpenedHasRoom, OpenedKnows, StepsKnow, SealsAreTrue, SealsComeAtEnds, ClosedStoresBitmaps, ClosedKeepsBitmaps};

use crate::node::Node;

/// No file is both a source and a backup.
pub fn one_kind()
    ensures { OneKind }
{}

/// What dropped a stored bitmap isn't safe.
pub fn dropped_is_not_safe()
    ensures { DroppedIsNotSafe }
{}

/// An image that is refused isn't ready for any history, unless its last epoch is used.
pub fn refused_is_not_ready()
    ensures { RefusedIsNotReady }
{}

/// An opening that shows another id isn't one.
pub fn opened_shows_id<N: Node>()
    ensures { OpenedShowsId N.shown N.keeps }
{}

/// An opening that drops a stored bitmap isn't one.
pub fn opened_has_bitmaps<N: Node>()
    ensures { OpenedHasBitmaps N.shown N.keeps }
{}

/// An opening that takes room where no bitmap is stored isn't one.
pub fn opened_has_room<N: Node>()
    ensures { OpenedHasRoom N.shown N.keeps }
{}

/// An opening after which nothing is known isn't one.
pub fn opened_knows<N: Node>()
    ensures { OpenedKnows N.shown N.keeps }
{}

/// An event after which nothing is known isn't one.
pub fn steps_know<N: Node>()
    ensures { StepsKnow N.reading N.shown N.keeps }
{}

/// An event after which a target's record says a false thing isn't one.
pub fn seals_are_true<N: Node>()
    ensures { SealsAreTrue N.reading N.shown N.keeps }
{}

/// An event after which a target reads as sealed whose job didn't end at its seal, as one that ended for want of room, isn't one.
pub fn seals_come_at_ends<N: Node>()
    ensures { SealsComeAtEnds N.reading N.shown N.keeps }
{}

/// A closing that leaves a persistent bitmap out isn't one.
pub fn closed_stores_bitmaps()
    ensures { ClosedStoresBitmaps }
{}

/// After a closing that was answered no crash drops its bitmaps.
pub fn closed_keeps_bitmaps()
    ensures { ClosedKeepsBitmaps }
{}
