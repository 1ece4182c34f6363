//! Image files: the words of a memory as bytes, and back.
#![tactic(auto)]

mod fault;
mod fetch;
mod form;
mod image;
pub mod laws;
mod read;
mod word_list;
mod write;

pub use fault::ImageFault;
pub use fetch::{FetchFault, fetch_image};
pub use form::{HEAD_BYTES, VERSION, WORD_BYTES, image_bytes};
pub use image::{Head, Image};
pub use read::{read_front, read_head, read_image};
pub use word_list::WordList;
pub use write::write_image;
