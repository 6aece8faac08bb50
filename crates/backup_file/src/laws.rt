//! Laws of a new file's layout. Each function does nothing; its contract is the law.

ghost use Rattle.backup_file.specs.Laws.{TableIsLeast, BlocksAreLeast, BlocksHaveEntries};

/// The refcount table has as few clusters as can count twice the disk's clusters and 1024.
pub fn table_is_least()
    ensures { TableIsLeast }
{}

/// There are as few blocks of refcounts as can count all clusters of the file, these blocks among them.
pub fn blocks_are_least()
    ensures { BlocksAreLeast }
{}

/// Each block of refcounts has an entry of the table.
pub fn blocks_have_entries()
    ensures { BlocksHaveEntries }
{}
