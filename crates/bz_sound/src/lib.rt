//! What a sound journal is: the calls it shows stand once each, each reply is what an ordered map
//! answers at one moment of its call, and the durable words alone decode to that map.
#![tactic(auto)]

pub mod memory_laws;
pub mod power_laws;
