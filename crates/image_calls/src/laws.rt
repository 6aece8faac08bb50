//! What a layer above takes from a file that is safe. Each function does nothing; its contract is the law.

ghost use Rattle.image_calls.specs.Laws.{LoadableOpens, BackupOpens, LoadableClaims, BackupClaims, SafePasses, SafeHasHeader, SafeStands, SafeIsMixed, SafeLoads, SettledIsTight, RestingStands, BackupsTakeRecords};

/// An image that an opening takes has a shape, with the owners that its directory says.
pub fn loadable_opens()
    ensures { LoadableOpens }
{}

/// A backup whose tables pass has the shape of its header.
pub fn backup_opens()
    ensures { BackupOpens }
{}

/// What an opening claims of a source is just what is referred to.
pub fn loadable_claims()
    ensures { LoadableClaims }
{}

/// What an opening claims of a backup is just what is referred to.
pub fn backup_claims()
    ensures { BackupClaims }
{}

/// A safe file passes the rules of an opening, bitmaps apart.
pub fn safe_passes()
    ensures { SafePasses }
{}

/// It has the header of its shape's base.
pub fn safe_has_header()
    ensures { SafeHasHeader }
{}

/// It stands for the disk that its clusters show.
pub fn safe_stands()
    ensures { SafeStands }
{}

/// Each sector of that disk is one of those that may be mixed.
pub fn safe_is_mixed()
    ensures { SafeIsMixed }
{}

/// With bitmaps it passes an opening whole, and stores what the base stores.
pub fn safe_loads()
    ensures { SafeLoads }
{}

/// A settled image is tight.
pub fn settled_is_tight()
    ensures { SettledIsTight }
{}

/// What rests stands, with no cluster ready.
pub fn resting_stands()
    ensures { RestingStands }
{}

/// A backup's record may be replaced in place, and its disk reads as before.
pub fn backups_take_records()
    ensures { BackupsTakeRecords }
{}
