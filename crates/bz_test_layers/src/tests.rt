//! What acts and swaps leave and readers find in small memories, and threads in what they share, each in the file of its crate.

mod acts;
mod bench;
mod bus;
mod cells;
mod judge;
mod judge_rule;
mod judge_word;
mod page;
mod pm;
mod record;
mod recover;
mod recover_walk;
mod slotted;
mod swap;
