//! Sources, sinks and a port in memory, whose listed calls fail.
#![tactic(auto)]

mod front;
mod kept;
mod memory_port;
mod memory_sink;
mod memory_source;
mod poll_bytes;
mod port_log;
mod room_sink;
mod steady_source;

pub use memory_port::MemoryPort;
pub use memory_sink::MemorySink;
pub use memory_source::MemorySource;
pub use room_sink::RoomSink;
pub use steady_source::SteadySource;
