//! What layers above take from an allocator. The function does nothing; its contract is the law.

ghost use Rattle.qc_alloc.specs.Laws.{PreparedIsClean, PreparedStaysExact, RunStaysExact, UseLeavesImage, EntriesStayExact, TableStaysExact};

/// A prepared cluster that is no block is counted once, zero, and named by nothing, in what reads give and in each crash.
pub fn prepared_is_clean()
    ensures { PreparedIsClean }
{}

/// Where the clusters that are spoken for are those that something refers to, they are so after calls that prepare more.
pub fn prepared_stays_exact()
    ensures { PreparedStaysExact }
{}

/// After a run was taken, those that are spoken for are those that something refers to, and the run, which nothing does yet.
pub fn run_stays_exact()
    ensures { RunStaysExact }
{}

/// An image stands whatever is spoken for.
pub fn use_leaves_image()
    ensures { UseLeavesImage }
{}

/// Where entries in a row alone changed, what is referred to changed by what they named and name.
pub fn entries_stay_exact()
    ensures { EntriesStayExact }
{}

/// Where a table of zeros was linked, it alone is referred to besides.
pub fn table_stays_exact()
    ensures { TableStaysExact }
{}
