//! What is taken, refused and printed, each in the file of its crate.

mod bench;
mod image;
mod io;
mod journal;
mod script;
mod text;
mod text_summary;
mod words;
mod workload;
