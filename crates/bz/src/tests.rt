//! The program over sources and sinks in memory.

mod bench;
mod failing;
mod images;
mod power;
mod queues;
mod runs;
mod threads;
mod traces;
mod workloads;
