//! Sources and sinks of bytes: real ones, in memory, and failing on purpose.
#![tactic(auto)]

mod ends;
mod error;
mod failing;
mod mem;
mod plan;
mod reading;
mod real;
mod store;
mod writing;

pub use ends::{Sink, Source};
pub use error::{Failed, ReadFault};
pub use failing::{FailSink, FailSource};
pub use mem::{MemSink, MemSource};
pub use reading::read_all;
pub use real::{RealSink, RealSource};
pub use writing::write_all;
