//! Laws over sound journals over a memory whose power fails and comes on again. Each function does nothing but call
//! the laws that it follows from: its contract is the law.
ghost use Rattle.bz_sound.specs.Solitary.{NoneIsOpenBesideASolitaryCall};
ghost use Rattle.bz_sound.specs.Power.CallLaws.{OpenCallsAreLast, OpenCallsLeaveRoom};
ghost use Rattle.bz_sound.specs.Power.Growth.{QuietActsFollow, FencesFollow, EffectsFollowActs, BeginsFollow, EndsFollow, PageEndsFollow, LoadsAreSettled};
ghost use Rattle.bz_sound.specs.Power.History.{OneHistory};
ghost use Rattle.bz_sound.specs.Power.ImageLaws.{AnswersComeFromTheImage, PagesComeFromTheImage, ChangesFollow, SameContentDecodes, SpentAnswersFull};
ghost use Rattle.bz_sound.specs.Power.Laws.{SoundAsBefore};

/// Without a power cut a journal is sound exactly where it is by the definitions that have none.
pub fn sound_as_before()
    ensures { SoundAsBefore }
{}

/// A load, store, compare-and-swap or ask keeps a journal sound, worker 0's in recovery among them.
pub fn quiet_acts_follow()
    ensures { QuietActsFollow }
{}

/// So does a fence or an eviction after which the durable words decode to the map.
pub fn fences_follow()
    ensures { FencesFollow }
{}

/// So does a fence or an eviction with the Effect that names what it changed.
pub fn effects_follow_acts()
    ensures { EffectsFollowActs }
{}

/// So does the Begin of a call with the power on.
pub fn begins_follow()
    ensures { BeginsFollow }
{}

/// So does an End with a right reply.
pub fn ends_follow()
    ensures { EndsFollow }
{}

/// So does an End that names the page which comes with it.
pub fn page_ends_follow()
    ensures { PageEndsFollow }
{}

/// Directly after a load the durable words decode to the map.
pub fn loads_are_settled()
    ensures { LoadsAreSettled }
{}

/// An open call is the last that its worker began, and the worker is not 0.
pub fn open_calls_are_last()
    ensures { OpenCallsAreLast }
{}

/// While a call is open there is room for its End, and for its page if it asks for one.
pub fn open_calls_leave_room()
    ensures { OpenCallsLeaveRoom }
{}

/// A call that began while none was open is the only one that is open until the next Begin.
pub fn none_is_open_beside_a_solitary_call()
    ensures { NoneIsOpenBesideASolitaryCall }
{}

/// What the image has there for a key gives the right reply.
pub fn answers_come_from_the_image()
    ensures { AnswersComeFromTheImage }
{}

/// What the image has there in a leaf gives the right page.
pub fn pages_come_from_the_image()
    ensures { PagesComeFromTheImage }
{}

/// A fence or an eviction that changes the content as an open call does is followed by its Effect.
pub fn changes_follow()
    ensures { ChangesFollow }
{}

/// One that leaves the content, as each does in recovery, needs no Effect.
pub fn same_content_decodes()
    ensures { SameContentDecodes }
{}

/// A call without one is answered Full where something is spent since the power came on.
pub fn spent_answers_full()
    ensures { SpentAnswersFull }
{}

/// The calls of a sound journal, those among them that a cut ended after their Effect, are one history of one map.
pub fn one_history()
    ensures { OneHistory }
{}
