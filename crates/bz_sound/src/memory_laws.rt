//! Laws over sound journals over a memory. Each function does nothing: its contract is the law.
ghost use Rattle.bz_sound.specs.Memory.History.{OneHistory};
ghost use Rattle.bz_sound.specs.Memory.Laws.{FreshJournalsAreSound, QuietActsFollow, FencesFollow, EffectsFollowActs, BeginsFollow, EndsFollow, PageEndsFollow};
ghost use Rattle.bz_sound.specs.Memory.Laws.{LoadsAreSettled};
ghost use Rattle.bz_sound.specs.Memory.ImageLaws.{AnswersComeFromTheImage, PagesComeFromTheImage, ChangesFollow, SameContentDecodes};
ghost use Rattle.bz_sound.specs.Memory.ImageLaws.{EffectsAnswer, SpentAnswersFull, HeldSwapsAreSpent, HeldSlotsAreSpent};
ghost use Rattle.bz_sound.specs.Memory.CallLaws.{EffectsStandOnce};
ghost use Rattle.bz_sound.specs.Memory.OpenCallLaws.{OpenCallsLeaveRoom, EffectsStayOpen};
ghost use Rattle.bz_sound.specs.Memory.CallLaws.{OpenCallsAreKept, OpenCallsAreLast, ToldChangesTookEffect};

/// A journal without marks over a well-formed image is sound.
pub fn fresh_journals_are_sound()
    ensures { FreshJournalsAreSound }
{
    bz_content::laws::well_formed_images_have_no_fault();
    bz_content::laws::map_is_the_content();
}

/// A load, store, compare-and-swap or ask keeps a journal sound.
pub fn quiet_acts_follow()
    ensures { QuietActsFollow }
{}

/// So does a fence or an eviction after which the durable words decode to the map.
pub fn fences_follow()
    ensures { FencesFollow }
{}

/// So does a fence or an eviction with the Effect that names what it changed.
pub fn effects_follow_acts()
    ensures { EffectsFollowActs }
{}

/// So does the Begin of a call.
pub fn begins_follow()
    ensures { BeginsFollow }
{}

/// So does an End with a right reply.
pub fn ends_follow()
    ensures { EndsFollow }
{}

/// So does an End that names the page which comes with it.
pub fn page_ends_follow()
    ensures { PageEndsFollow }
{}

/// Directly after a load the durable words decode to the map.
pub fn loads_are_settled()
    ensures { LoadsAreSettled }
{}

/// What the image has there for a key gives the right reply.
pub fn answers_come_from_the_image()
    ensures { AnswersComeFromTheImage }
{}

/// What the image has there in a leaf gives the right page.
pub fn pages_come_from_the_image()
    ensures { PagesComeFromTheImage }
{}

/// A fence or an eviction that changes the content as an open call does is followed by its Effect.
pub fn changes_follow()
    ensures { ChangesFollow }
{}

/// A call that has an Effect is answered by the map directly before it.
pub fn effects_answer()
    ensures { EffectsAnswer }
{}

/// A call without one is answered Full where something is spent.
pub fn spent_answers_full()
    ensures { SpentAnswersFull }
{}

/// Descriptors are spent where each is taken or held by another worker with an open call.
pub fn held_swaps_are_spent()
    ensures { HeldSwapsAreSpent }
{}

/// More slots are lacking than are free where each other one is used or held by another worker with an open call.
pub fn held_slots_are_spent()
    ensures { HeldSlotsAreSpent }
{}

/// A fence or an eviction that leaves the content needs no Effect.
pub fn same_content_decodes()
    ensures { SameContentDecodes }
{}

/// Acts and the marks of other workers leave an open call.
pub fn open_calls_are_kept()
    ensures { OpenCallsAreKept }
{}

/// An open call is the last that its worker began, and the worker is not 0.
pub fn open_calls_are_last()
    ensures { OpenCallsAreLast }
{}

/// While a call is open there is room for its End, and for its page if it asks for one.
pub fn open_calls_leave_room()
    ensures { OpenCallsLeaveRoom }
{}

/// No call takes effect twice.
pub fn effects_stand_once()
    ensures { EffectsStandOnce }
{}

/// While a call with an Effect is open, further marks leave the map directly before the Effect.
pub fn effects_stay_open()
    ensures { EffectsStayOpen }
{}

/// A call that tells of a key inserted or deleted took effect.
pub fn told_changes_took_effect()
    ensures { ToldChangesTookEffect }
{}

/// The calls of a sound journal are one history of one map, in the order of the moments that it names.
pub fn one_history()
    ensures { OneHistory }
{}
