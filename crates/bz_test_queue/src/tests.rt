//! Queues and their journals, beside a plain list.

mod bench;
mod cuts;
mod list;
mod pairs;
mod random;
mod solo;
mod worked;
