//! Laws of the definitions. Each function does nothing; its contract is the law.

ghost use Rattle.core_events.specs.Laws.{BytesAreBounded, RoomFitsEachEvent, FitsEachSmaller, FitsWhileRoomStays, NeedsFollowValue, ContentsKeepValue, EmptyIsDone};

/// An event may bring 2^25 bytes at most.
pub fn bytes_are_bounded()
    ensures { BytesAreBounded }
{}

/// An answer with room for so many bytes fits each event that may bring so many at most.
pub fn room_fits_each_event()
    ensures { RoomFitsEachEvent }
{}

/// An answer that fits an event fits each that may bring no more.
pub fn fits_each_smaller()
    ensures { FitsEachSmaller }
{}

/// What an answer fits it fits as long as its room stays.
pub fn fits_while_room_stays()
    ensures { FitsWhileRoomStays }
{}

/// Events of one value need the same room.
pub fn needs_follow_value()
    ensures { NeedsFollowValue }
{}

/// An answer whose contents stay keeps its value.
pub fn contents_keep_value()
    ensures { ContentsKeepValue }
{}

/// An empty answer has the value of one that is done, with no notices.
pub fn empty_is_done()
    ensures { EmptyIsDone }
{}
