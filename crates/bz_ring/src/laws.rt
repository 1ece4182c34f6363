//! Laws of rings and of their journals. Each function does nothing: its contract is the law.
ghost use Rattle.bz_ring.specs.Fresh.{FreshMemoryIsEmpty};
ghost use Rattle.bz_ring.specs.Ends.{EndsTell};
ghost use Rattle.bz_ring.specs.Growth.{SoundJournalsGrow, FreshJournalsAreSound};
ghost use Rattle.bz_ring.specs.Moments.{EachMomentIsMeant};
ghost use Rattle.bz_ring.specs.Solitary.{NoneIsOpenBesideASolitaryCall};
ghost use Rattle.bz_ring.specs.ContentLaws.{ContentIsThese, PutsAppend, TakesDrop, CellsTellTheList, OtherWordsDoNotMatter};
ghost use Rattle.bz_ring.specs.Example.{FullByTwoLoads, WorkedAreRight, WorkedAreRefused};

/// The content of a memory is a list exactly where its counters and cells hold that list, place by place.
pub fn content_is_these()
    ensures { ContentIsThese }
{}

/// A put where there is room appends its item.
pub fn puts_append()
    ensures { PutsAppend }
{}

/// A take drops the first item.
pub fn takes_drop()
    ensures { TakesDrop }
{}

/// The cell of the tail tells whether the list is full, and the cell of the head its first item.
pub fn cells_tell_the_list()
    ensures { CellsTellTheList }
{}

/// Only the counters and the cells matter.
pub fn other_words_do_not_matter()
    ensures { OtherWordsDoNotMatter }
{}

/// Full, told of a load of the head and then one of the tail, is right at no moment where a take and a put came between: the list
/// was full at none.
pub fn full_by_two_loads()
    ensures { FullByTwoLoads }
{}

/// Worked journals that are sound: answers at their moments, and power cuts before and after an effect.
pub fn worked_are_right()
    ensures { WorkedAreRight }
{}

/// And journals that differ from them in one thing, which are not.
pub fn worked_are_refused()
    ensures { WorkedAreRefused }
{}

/// Fresh memory holds the empty list.
pub fn fresh_memory_is_empty()
    ensures { FreshMemoryIsEmpty }
{}

/// A journal with no mark is sound where its words hold a list.
pub fn fresh_journals_are_sound()
    ensures { FreshJournalsAreSound }
{}

/// A sound journal grows by a begin, by an act that leaves the list, by an act and the effect that it made durable, and by an end.
pub fn sound_journals_grow()
    ensures { SoundJournalsGrow }
{}

/// Soundness speaks of each moment that is not inner, whichever its number.
pub fn each_moment_is_meant()
    ensures { EachMomentIsMeant }
{}

/// What the End of a call tells in a sound journal: Spent, that no descriptor was left for another call; any other reply, what the
/// list answers at a moment of the call.
pub fn ends_tell()
    ensures { EndsTell }
{}

/// While a call is solitary no other worker's call is open.
pub fn none_is_open_beside()
    ensures { NoneIsOpenBesideASolitaryCall }
{}
