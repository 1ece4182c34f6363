//! Why bytes are no key, or no payload.

use std::error::Error;
use std::fmt;

/// Why bytes are no key.
#[derive(Clone, Copy, Debug, PartialEq, Eq)]
pub enum KeyError {
    /// There are no bytes.
    Empty,
    /// There are more than `KEY_BYTES` bytes.
    TooLong,
}

impl fmt::Display for KeyError {
    ghost use Rattle.std.specs.Prelude.{Some};
    ghost use Rattle.bz_key.specs.Texts.{key_error_text};

    ghost output = { λ error. Some (key_error_text error) };

    fn fmt<W: fmt::Write>(&self, f: &mut fmt::Formatter<W>) -> fmt::Result {
        match self {
            KeyError::Empty => write!(f, "a key has at least one byte"),
            KeyError::TooLong => write!(f, "too many bytes for a key"),
        }
    }
}

impl Error for KeyError {}

/// Why bytes are no payload.
#[derive(Clone, Copy, Debug, PartialEq, Eq)]
pub enum PayloadError {
    /// There are more than `PAYLOAD_BYTES` bytes.
    TooLong,
}

impl fmt::Display for PayloadError {
    ghost use Rattle.std.specs.Prelude.{Some, codes};

    ghost output = { λ _. Some (codes "too many bytes for a payload") };

    fn fmt<W: fmt::Write>(&self, f: &mut fmt::Formatter<W>) -> fmt::Result {
        match self {
            PayloadError::TooLong => write!(f, "too many bytes for a payload"),
        }
    }
}

impl Error for PayloadError {}
