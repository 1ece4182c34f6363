//! Worlds and their journals, beside plain readers.

mod bench;
mod boot;
mod calls;
mod costs;
mod decode;
mod finds;
mod gets;
mod images;
mod limits;
mod map;
mod pairs;
mod power;
mod random;
mod reader;
mod restart;
mod solo;
mod spent;
mod worked;
