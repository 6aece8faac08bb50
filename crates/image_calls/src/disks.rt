//! What calls on a guest's clusters make of its disk as bytes. Each function does nothing; its contract is the law.

ghost use Rattle.image_calls.specs.Disks.{OverwrittenOnDisk, StoredOnDisk, ClearedOnDisk, SameOnDisk, PartlyOverwritten, PartlyStored, PartlyCleared};

/// After `overwrite_run` succeeded the disk is the old one with the bytes over it.
pub fn overwritten_on_disk()
    ensures { OverwrittenOnDisk }
{}

/// So after `write_run`.
pub fn stored_on_disk()
    ensures { StoredOnDisk }
{}

/// After `clear_entries` succeeded it is the old one with zeros in those clusters.
pub fn cleared_on_disk()
    ensures { ClearedOnDisk }
{}

/// Where nothing of the guest's changed it is the same.
pub fn same_on_disk()
    ensures { SameOnDisk }
{}

/// Whatever `overwrite_run` answered, each sector is as before, or as after a success.
pub fn partly_overwritten()
    ensures { PartlyOverwritten }
{}

/// So of `write_run`.
pub fn partly_stored()
    ensures { PartlyStored }
{}

/// So of `clear_entries`.
pub fn partly_cleared()
    ensures { PartlyCleared }
{}
