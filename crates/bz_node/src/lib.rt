//! Node images: a node made whole from its records or children, and a node read back.
#![tactic(auto)]

mod build;
mod child;
mod image;
mod inner_nodes;
pub mod laws;
mod leaves;
mod ordering;
mod reading;
mod record;
mod shared;
mod writing;

pub use child::Child;
pub use image::NodeImage;
pub use inner_nodes::inner;
pub use leaves::leaf;
