//! Tests of what comes from outside and goes there: sources and sinks, command lines, scripts, workloads and reports.
#![tactic(auto)]

#[cfg(test)]
mod tests;
