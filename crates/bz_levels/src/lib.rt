//! Two inner nodes made one, and a root that gives way to its only child: what such a swap makes of the tree.
#![tactic(auto)]
