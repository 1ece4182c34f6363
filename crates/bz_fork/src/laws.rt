//! What a split that finds no room has cost, and that a node above its limit has halves. Each function does nothing: its contract is
//! the law.

ghost use Rattle.bz_fork.specs.Duties.{WantOfRoomCostsLittle};
ghost use Rattle.bz_fork.specs.Halves.{FullNodesHaveHalves};

/// Where a split ends for want of room, it has read at most the node and one word of the parent.
pub fn want_of_room_costs_little()
    ensures { WantOfRoomCostsLittle }
{}

// A node above its limit has halves, whoever reads its words.
pub(crate) fn full_nodes_have_halves()
    ensures { FullNodesHaveHalves }
{
    bz_parted::laws::children_part_in_halves();
    bz_parted::laws::halves_are_inner();
}
