//! Bytes in and out of `surge`: sources that give them, sinks that take them, and a count of faults
//! at each.
//!
//! What a source has left and what a sink holds is told where the outside allows it: memory tells
//! its bytes, and a stream tells none. What was taken from a source is told over each one, by what
//! its reads gave.
#![tactic(auto)]

mod line;
mod memory;
mod page;
mod reading;
mod sinks;
mod sources;
mod stream;
mod writing;

pub use line::{LINE_WIDTH, Line};
pub use memory::{MemorySink, MemorySource, SteadySource};
pub use page::Page;
pub use reading::{ReadFault, whole};
pub use sinks::Sink;
pub use sources::{Failed, Source};
pub use stream::{StreamSink, StreamSource};
pub use writing::put;
