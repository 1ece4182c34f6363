//! Laws of words: each function does nothing, and its contract is the law.

ghost use Rattle.bz_word.specs.Kinds.{word};
ghost use Rattle.bz_word.specs.Statuses.{status_word, status, IsStatus, IsStatusWord};
ghost use Rattle.bz_word.specs.Headers.{header_word, header, IsHeader, IsHeaderWord};
ghost use Rattle.bz_word.specs.Statements.{IsCodec};
ghost use Rattle.bz_word.specs.declared.status.Status.{Status};
ghost use Rattle.bz_word.specs.declared.header.Header.{Header};

/// A status and its word determine each other.
pub fn statuses()
    ensures { IsCodec Status IsStatus IsStatusWord status_word status }
{}

/// A header and its word determine each other.
pub fn headers()
    ensures { IsCodec Header IsHeader IsHeaderWord header_word header }
{}
