//! Laws of the definitions. Each function does nothing; its contract is the law.

ghost use Rattle.span_algebra.specs.Laws.{OrderIsTotal, OrderIsStrict, OrderIsTransitive, ClearingMakesTrue, DisablingKeepsTrue, EnablingKeepsTrue, MergingKeepsTrue, ReclaimKeepsTrue, AbdicationMakesTrue, WriteKeepsTrue, PointKeepsTrue, BaseIsTrue, GranulesCoverRange};

/// Of two points one precedes the other, or they are one.
pub fn order_is_total()
    ensures { OrderIsTotal }
{}

/// No two points precede each other, so none precedes itself.
pub fn order_is_strict()
    ensures { OrderIsStrict }
{}

/// What precedes a point precedes each point after it.
pub fn order_is_transitive()
    ensures { OrderIsTransitive }
{}

/// A bitmap that is added or cleared at the last point has a span that is true of the empty set.
pub fn clearing_makes_true()
    ensures { ClearingMakesTrue }
{}

/// Disabling at the last point keeps a span true.
#[tactic(auto, using(crate::proofs::LastPoint::disable_keeps))]
pub fn disabling_keeps_true()
    ensures { DisablingKeepsTrue }
{}

/// Enabling at the last point keeps a span true.
#[tactic(auto, using(crate::proofs::LastPoint::enable_keeps))]
pub fn enabling_keeps_true()
    ensures { EnablingKeepsTrue }
{}

/// Merging at the last point gives a span that is true of each set that has both bitmaps' sets.
#[tactic(auto, using(crate::proofs::Merging::merge_keeps))]
pub fn merging_keeps_true()
    ensures { MergingKeepsTrue }
{}

/// At any moment a span stays true where the successor's set is joined to the bitmap's own.
pub fn reclaim_keeps_true()
    ensures { ReclaimKeepsTrue }
{}

/// At any moment after a job's point the successor's set may take the bitmap's place, with a span from that point.
pub fn abdication_makes_true()
    ensures { AbdicationMakesTrue }
{}

/// A span stays true at a write; one that ends at now, where its set grows by the write's bytes.
#[tactic(auto, using(crate::proofs::Growth::write_keeps, crate::proofs::Growth::larger))]
pub fn write_keeps_true()
    ensures { WriteKeepsTrue }
{}

/// A span stays true at a further point.
pub fn point_keeps_true()
    ensures { PointKeepsTrue }
{}

/// A backup at the last point that builds on an earlier one is handed each byte that was written between the two.
pub fn base_is_true()
    ensures { BaseIsTrue }
{}

/// A set of granules has each byte of a range where it has each granule that meets the range.
pub fn granules_cover_range()
    ensures { GranulesCoverRange }
{}
