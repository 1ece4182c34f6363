//! Threads that write into one log, and passes that write one book.

mod book;
mod counts;
mod log;
mod threads;
