//! A split, two merges and a copy over images, each cut before each of its fences, and its recovery before each of its own.

mod acts;
mod bench;
mod images;
mod rows;
mod table;
