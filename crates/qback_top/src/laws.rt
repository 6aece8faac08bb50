//! Laws of the definitions. Each function does nothing; its contract is the law.

ghost use Rattle.qback_top.specs.Laws.{DiskFollowsHistory, HistoryStaysInside, OneEnding, OneTask, ReplayKeepsStanding, StatusTellsEnding};

/// The same words say at most one task.
pub fn one_task()
    ensures { OneTask }
{}

/// At most one end is due for the same words and files.
pub fn one_ending()
    ensures { OneEnding }
{}

/// Status 0 comes only where something was done, 1 only where the words have no form, 5 only of a bad line, 8 only where
/// the file to be made is there.
pub fn status_tells_ending()
    ensures { StatusTellsEnding }
{}

/// What a replay promises of the one form of image it promises of the disk that such an image stands for by the format.
pub fn replay_keeps_standing()
    ensures { ReplayKeepsStanding }
{}

/// The disk that a replay leaves is that of the history that it extends.
pub fn disk_follows_history()
    ensures { DiskFollowsHistory }
{}

/// A replay extends a history, whose writes lie in its disk, by writes that lie in its disk.
pub fn history_stays_inside()
    ensures { HistoryStaysInside }
{}
