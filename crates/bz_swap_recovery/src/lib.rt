//! A swap memory from a power cut to its renewal: a sweep by worker 0, with evictions between its acts. It has laws alone (`proofs/Proved`).
#![tactic(auto)]
