//! An index on one thread, and among threads.
mod alone;
mod bench;
mod cuts;
mod gates;
mod inserts;
mod limits;
mod reader;
mod stages;
mod storage;
mod threads;
