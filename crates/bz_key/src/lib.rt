//! Keys and payloads: short strings of bytes, how they are packed into words, and their one spelling.
#![tactic(auto)]

mod error;
mod key;
pub mod laws;
mod limits;
mod packing;
mod page_buf;
mod payload;
mod reading;
mod short_bytes;
mod spelling;

pub use error::{KeyError, PayloadError};
pub use key::Key;
pub use limits::{KEY_BYTES, PAGE_PAIRS, PAYLOAD_BYTES, SPELLED_BYTES};
pub use page_buf::PageBuf;
pub use payload::Payload;
pub use reading::{read_key, read_payload};
pub use spelling::spell;
