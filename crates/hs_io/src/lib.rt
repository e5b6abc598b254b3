//! Where bytes come from and go to: sources and sinks that may fail and count it, and the two loops over them; and the gate
//! through which a caller goes while it holds a shared pointer.
#![tactic(auto)]

pub mod gate;
pub mod input;
pub mod mem_sink;
pub mod mem_source;
pub mod output;
pub mod standard;

pub use gate::{Gate, NoGate};
pub use input::{Failed, InputErr, Source, read_all};
pub use mem_sink::MemSink;
pub use mem_source::MemSource;
pub use output::{Sink, SinkErr, write_all};
pub use standard::{StdSink, StdSource};
