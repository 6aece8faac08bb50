//! Laws of the definitions. Each function does nothing; its contract is the law.

ghost use Rattle.qc_layout.specs.Openings.{OpeningsRefuse};
ghost use Rattle.qc_layout.specs.Examples.{DirectoriesAreRead, ClustersAreHeld};
ghost use Rattle.qc_layout.specs.Laws.{OneListing, OneFault, FaultOrHeader, OneHeader, FromStart, OneDisk, OpeningIsExact, RefusalsHaveCauses, FindsAsSpelled, NoDirectoryStoresNothing, StoredIsShaped, OwnersByName, LoadingIsExact, LoadsHaveCauses, RecordsAreReplaced, StoredWhereHeld};

/// One list of extensions at most stands in a place.
pub fn one_listing()
    ensures { OneListing }
{}

/// A file is refused for one fault at most.
pub fn one_fault()
    ensures { OneFault }
{}

/// A file that spells a header is not refused.
pub fn fault_or_header()
    ensures { FaultOrHeader }
{}

/// A file spells one header at most.
pub fn one_header()
    ensures { OneHeader }
{}

/// What is read of a file depends on its first sector and its first cluster up to 65536 bytes alone, and on whether it has 104
/// bytes.
pub fn from_start()
    ensures { FromStart }
{}

/// A file stands for one disk at most.
pub fn one_disk()
    ensures { OneDisk }
{}

/// The directory of bitmaps and this project's extension are found in a file as its header says.
pub fn finds_as_spelled()
    ensures { FindsAsSpelled }
{}

/// A file without a directory stores no bitmap, and has no fault and no cluster of one.
pub fn no_directory_stores_nothing()
    ensures { NoDirectoryStoresNothing }
{}

/// What a file stores is in shape: at most 64 bitmaps, with names that differ, each with a set of granules of the disk.
pub fn stored_is_shaped()
    ensures { StoredIsShaped }
{}

/// Who holds a cluster for bitmaps depends on which are listed, and not on their order.
pub fn owners_by_name()
    ensures { OwnersByName }
{}

/// An opening refuses nothing of an image's clusters exactly where its tables pass the rules.
pub fn opening_is_exact()
    ensures { OpeningIsExact }
{}

/// Worked examples of directories: what they store, and why they are refused.
#[tactic(auto, unfolding(crate::proofs::Computing::directory_computes))]
pub fn directories_are_read()
    ensures { DirectoriesAreRead }
{}

/// What it refuses has a cause: an entry that says so, or who refers to the cluster.
pub fn refusals_have_causes()
    ensures { RefusalsHaveCauses }
{}

/// Worked examples of an opening.
pub fn openings_refuse()
    ensures { OpeningsRefuse }
{}

/// Worked examples of clusters that are held for bitmaps.
pub fn clusters_are_held()
    ensures { ClustersAreHeld }
{}

/// An opening refuses nothing of a source's clusters and bitmaps exactly where they pass the rules.
pub fn loading_is_exact()
    ensures { LoadingIsExact }
{}

/// What it refuses has a cause: an entry that says so, who owns the cluster, or the directory's first fault.
pub fn loads_have_causes()
    ensures { LoadsHaveCauses }
{}

/// A backup's record may be replaced in place, and the header says the same besides.
pub fn records_are_replaced()
    ensures { RecordsAreReplaced }
{}

/// What a file stores of bitmaps lies in its header and in the clusters that bitmaps hold.
pub fn stored_where_held()
    ensures { StoredWhereHeld }
{}
