//! Tests of small memories and of what works on them: acts and swaps, records, leaves judged and read, recoveries load by load, and
//! turns of threads over one value.
#![tactic(auto)]

#[cfg(test)]
mod tests;
