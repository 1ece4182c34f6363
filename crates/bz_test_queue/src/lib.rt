//! Tests of queues through what callers see of them: journals beside a plain list.
#![tactic(auto)]

#[cfg(test)]
mod tests;
