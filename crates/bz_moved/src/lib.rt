//! A record that moves from one key to another by one swap: what such a swap makes of one leaf, and of two.
#![tactic(auto)]
