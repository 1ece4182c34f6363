//! Worlds whose trees grow, and their durable words beside plain decoders.

mod below;
mod bench;
mod cuts;
mod decode;
mod fences;
mod five_nodes;
mod inner;
mod levels;
mod merging;
mod neighbours;
mod pages;
mod random;
mod shrinking;
mod solo;
mod split;
mod tall;
mod three_children;
