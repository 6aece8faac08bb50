//! Why the core refuses a command.

use span_algebra::Name;

/// Why a command is refused, and the value that is named with it.
#[derive(Debug, Drop)]
pub enum Refusal {
    /// The command isn't built yet; this is the word that is missing. It is told before any other refusal.
    Unbuilt(Name),
    /// The session has no point left to draw.
    SerialSpent,
    /// The node isn't there, or the action isn't for it.
    NodeUnknown(Name),
    /// The name is empty, longer than 1,023 bytes or no text, or it has a control character.
    BadName,
    /// There is a bitmap of this name.
    NameTaken(Name),
    /// There are as many bitmaps as there may be; so many.
    TooMany(u64),
    /// The granularity, in bytes, is no power of two from 512 to 2^31.
    BadGranularity(u64),
    /// With this granularity, in bytes, the disk would have more than 2^27 granules.
    TooFine(u64),
    /// There is no bitmap of this name.
    NoSuchBitmap(Name),
    /// A job uses the bitmap of this name.
    Busy(Name),
    /// The bitmap of this name can't be trusted.
    Inconsistent(Name),
    /// There is a job or a view of this name.
    JobTaken(Name),
    /// There are as many jobs and views as there may be; so many.
    TooManyJobs(u64),
    /// A backup by a bitmap names none.
    BitmapNeeded,
    /// A bitmap stands where none may, and this is its name; or this is a mode that the backup can't have.
    BitmapForbidden(Name),
    /// The drive broke at the event of this number.
    SourceBroken(u64),
    /// A job or a view holds the target, or it is the drive.
    TargetBusy(Name),
    /// A device call failed in this event, for this target.
    DeviceFailed(Name),
    /// There is no file of the target's name, or no file may have it.
    TargetMissing(Name),
    /// The target's file is no target, for this reason.
    TargetFault(Name),
    /// The target has been begun before.
    TargetUsed(Name),
    /// The target's disk has another size than the drive.
    OtherSize(Name),
    /// The action that is always refused.
    Aborted,
    /// There is no job and no view of this name.
    JobUnknown(Name),
    /// A view can't be written through an export.
    ReadOnlyNode(Name),
    /// There is an export of this id, or of this name.
    ExportTaken(Name),
    /// There are as many exports as there may be; so many.
    TooManyExports(u64),
    /// For want of memory.
    OutOfMemory,
}
