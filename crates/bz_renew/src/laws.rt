//! What swaps of links lead to, and what frozen leaves stay. Each function does nothing: its contract is the law.

ghost use Rattle.bz_renew.specs.FrozenLeaves.{FrozenLeavesStandStill, ViewsShowFrozenLeaves};
ghost use Rattle.bz_renew.specs.LinkSwaps.{LinkSwapsAreGood};
ghost use Rattle.bz_renew.specs.Renewals.{LinksMayBeTurned};
ghost use Rattle.bz_renew.specs.Standing.{GuardedLinksStand};
ghost use Rattle.bz_renew.specs.Turning.{RootLinksTurn, ChildLinksTurn, RootLinksTurnWith, ChildLinksTurnWith};

/// A swap of a link that leaves the image well formed with the same content is lawful for everybody.
pub fn link_swaps_are_good()
    ensures { LinkSwapsAreGood }
{}

/// A link that was read may be turned at any later moment; and what its swap does to the image, below the root pointer and below
/// an inner node.
pub fn links_turn()
    ensures asked { LinksMayBeTurned }
    ensures root { RootLinksTurn }
    ensures child { ChildLinksTurn }
{}

/// What the swap of a link that also freezes nodes does to the image, below the root pointer and below an inner node: as above,
/// and those nodes are frozen.
pub fn links_turn_and_nodes_freeze()
    ensures root { RootLinksTurnWith }
    ensures child { ChildLinksTurnWith }
{}

/// While the guard of a link below a parent has the value that was read, the link leads where it led.
pub fn guarded_links_stand()
    ensures { GuardedLinksStand }
{}

/// A leaf that was frozen stands as it stood.
pub fn frozen_leaves_stand_still()
    ensures { FrozenLeavesStandStill }
{}

/// What a view of a frozen leaf shows.
pub fn views_show_frozen_leaves()
    ensures { ViewsShowFrozenLeaves }
{}
