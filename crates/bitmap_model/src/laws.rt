//! Laws of the definitions. Each function does nothing; its contract is the law.

ghost use Rattle.bitmap_model.specs.BitmapLaws.{ChangesAtLastPoint, BaseIsCovered, WriteIsMarked, SuccessorRecords, PointKeepsBitmapTrue, FreezingKeepsTrue, ReclaimingKeepsTrue, AbdicatingMakesTrue, ShapeIsKept, RecordedIsKept, StoredIsRestored};
ghost use Rattle.bitmap_model.specs.Laws.{MeetingIsOverlap, MarkedTells, MarkingKeepsShape, MarkingCovers, MergedTells, MergingKeepsShape, MergingCovers, MergingLikeUnites, RunsAddUp, RunsAreGreatest, RunsTell};

/// Two ranges meet where they have a byte in common.
pub fn meeting_is_overlap()
    ensures { MeetingIsOverlap }
{}

/// A marked set has what it had, and each granule that meets the range.
#[tactic(auto, using(crate::proofs::Covering::sets_tell))]
pub fn marked_tells()
    ensures { MarkedTells }
{}

/// Marking keeps a set in shape.
#[tactic(auto, using(crate::proofs::Covering::sets_tell))]
pub fn marking_keeps_shape()
    ensures { MarkingKeepsShape }
{}

/// A marked set covers each byte of the range.
#[tactic(auto, using(crate::proofs::Covering::sets_cover))]
pub fn marking_covers()
    ensures { MarkingCovers }
{}

/// A merged set has what it had, each granule that meets one of the other set, and no more.
#[tactic(auto, using(crate::proofs::Covering::sets_cover))]
pub fn merged_tells()
    ensures { MergedTells }
{}

/// Merging keeps a set in shape.
#[tactic(auto, using(crate::proofs::Covering::sets_tell))]
pub fn merging_keeps_shape()
    ensures { MergingKeepsShape }
{}

/// A merged set covers each byte that it or the other covered.
#[tactic(auto, using(crate::proofs::Covering::sets_cover))]
pub fn merging_covers()
    ensures { MergingCovers }
{}

/// Where two sets have one granularity, merging gives their union.
#[tactic(auto, using(crate::proofs::Covering::sets_cover))]
pub fn merging_like_unites()
    ensures { MergingLikeUnites }
{}

/// The runs of a range have its length.
#[tactic(auto, using(crate::proofs::Totals::runs_total))]
pub fn runs_add_up()
    ensures { RunsAddUp }
{}

/// No run of a range is empty, and neighbours have different flags.
#[tactic(auto, using(crate::proofs::Totals::runs_greatest))]
pub fn runs_are_greatest()
    ensures { RunsAreGreatest }
{}

/// Each byte of a range stands in a run with the flags of its granule.
#[tactic(auto, using(crate::proofs::Totals::runs_flags))]
pub fn runs_tell()
    ensures { RunsTell }
{}

/// A change at the last point of what happened keeps a bitmap's span true.
pub fn changes_at_last_point()
    ensures { ChangesAtLastPoint }
{}

/// What a backup builds on is covered by its bitmap.
pub fn base_is_covered()
    ensures { BaseIsCovered }
{}

/// A write keeps a bitmap's span true.
pub fn write_is_marked()
    ensures { WriteIsMarked }
{}

/// While a job uses a bitmap, its successor records.
pub fn successor_records()
    ensures { SuccessorRecords }
{}

/// A further point keeps a bitmap's span true.
#[tactic(auto, using(crate::proofs::TrueSpans::further_point_keeps_true))]
pub fn point_keeps_bitmap_true()
    ensures { PointKeepsBitmapTrue }
{}

/// Being taken into use by a job keeps a bitmap's span true.
#[tactic(auto, using(crate::proofs::TrueSpans::frozen_keeps_true))]
pub fn freezing_keeps_true()
    ensures { FreezingKeepsTrue }
{}

/// Reclaim keeps a bitmap's span true at any moment.
#[tactic(auto, using(crate::proofs::TrueSpans::reclaimed_keeps_true))]
pub fn reclaiming_keeps_true()
    ensures { ReclaimingKeepsTrue }
{}

/// Abdication at a job's point makes a true span at any later moment.
pub fn abdicating_makes_true()
    ensures { AbdicatingMakesTrue }
{}

/// Each change of a bitmap keeps its sets in shape.
pub fn shape_is_kept()
    ensures { ShapeIsKept }
{}

/// Each change leaves a span up to now to bitmaps that are recording alone.
#[tactic(auto, using(crate::proofs::Recorded::added_keeps_recorded, crate::proofs::Recorded::written_keeps_recorded, crate::proofs::Recorded::cleared_keeps_recorded, crate::proofs::Recorded::enabled_keeps_recorded, crate::proofs::Recorded::disabled_keeps_recorded, crate::proofs::Recorded::merged_keeps_recorded, crate::proofs::Recorded::abdicated_keeps_recorded, crate::proofs::Recorded::reclaimed_keeps_recorded))]
pub fn recorded_is_kept()
    ensures { RecordedIsKept }
{}

/// What is stored of a bitmap is restored as that bitmap.
pub fn stored_is_restored()
    ensures { StoredIsRestored }
{}
