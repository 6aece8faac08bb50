//! Laws of the definitions. Each function does nothing; its contract is the law.

ghost use Rattle.core_layers.specs.Laws.{MixedIsSafe, TargetsJoin, ClosingIsSafe, FoundOpens};

/// What a crash within a session leaves of a source is safe for each history that fits.
pub fn mixed_is_safe()
    ensures { MixedIsSafe }
{}

/// A new target joins the backup files.
pub fn targets_join()
    ensures { TargetsJoin }
{}

/// Each crash within a closing leaves a safe image.
pub fn closing_is_safe()
    ensures { ClosingIsSafe }
{}

/// An opening over bytes alone is one that a node promises.
pub fn found_opens()
    ensures { FoundOpens }
{}
