//! Tests of worlds through what callers see of them: journals and memory words beside plain readers.
#![tactic(auto)]

#[cfg(test)]
mod tests;
