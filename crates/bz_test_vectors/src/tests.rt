//! What each format says of the words of an example, each in the file of its crate.

mod bench;
mod key;
mod layout;
mod mark;
mod node;
mod word;
