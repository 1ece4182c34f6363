//! The command line: what its words ask for.
#![tactic(auto)]

mod arrangement;
mod command;
mod error;
pub mod laws;
mod parser;
mod read;

pub use command::{Command, CommandLine, RUN_MARKS, WORK_MARKS};
pub use error::WordsError;
pub use read::read_words;
