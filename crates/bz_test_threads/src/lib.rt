//! Tests of an index that threads share, through what its callers see: what each call is answered, beside a plain reader of the journal.
#![tactic(auto)]

#[cfg(test)]
mod tests;
