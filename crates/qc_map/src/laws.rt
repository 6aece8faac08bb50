//! What layers above may cite.

ghost use Rattle.qc_map.specs.Laws.{StoreStands};

/// The kinds and tables that a map tells of a safe file are those of its clusters.
pub fn store_stands()
    ensures { StoreStands }
{}
