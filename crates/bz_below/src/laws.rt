//! What is known of a parent that was read word by word, and of the link to it. Each function does nothing: its contract is the law.

ghost use Rattle.bz_below.specs.Duties.{WantOfRoomCostsLittle};
ghost use Rattle.bz_below.specs.Guards.{LinksLeaveTheirNodes, LinksStandOn};
ghost use Rattle.bz_below.specs.Parents.{ReadParentsWere};

/// The words of a parent that were read one by one are those of one moment, where its status is found again; and the leaf's place
/// may be parted there.
pub fn read_parents_were()
    ensures { ReadParentsWere }
{}

/// A link that was read stands where it stood, whatever became of its guard; and it led to another node than that in which it stands.
pub fn links_stand_on()
    ensures stand { LinksStandOn }
    ensures leave { LinksLeaveTheirNodes }
{}

/// Where a split ends for want of room, it has loaded one word, and no more.
pub fn want_of_room_costs_little()
    ensures { WantOfRoomCostsLittle }
{}
