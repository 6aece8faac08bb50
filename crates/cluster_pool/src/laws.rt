//! What layers above take from a pool. Each function does nothing; its contract is the law.

ghost use Rattle.cluster_pool.specs.Laws.{FreshIsRoom, RunsAreRuns, ClaimsAreExact};

/// As an opening finds it, a pool's room is the file's.
pub fn fresh_is_room()
    ensures { FreshIsRoom }
{}

/// And so are its runs of neighbours.
pub fn runs_are_runs()
    ensures { RunsAreRuns }
{}

/// A pool refuses a claim as the order of an opening does.
pub fn claims_are_exact()
    ensures { ClaimsAreExact }
{}
