//! The outside of the program as two traits: a `Room`, from which files are fetched by name, and a
//! `Sink`, into which text is put.
//!
//! What is promised to the layer above. A fetch or a put that answers `Failed` is one at which a
//! count of faults rose, and a file that is called too long is longer than the limit that was
//! asked for. After a refused fetch the vector is empty, and after a refused put the bytes written
//! have grown by a prefix of the piece at most. Code that is generic over a room and a sink is
//! proved once, and holds for rooms and sinks in memory, which tell all their bytes, and for files
//! and standard output, which tell none.
#![tactic(auto)]

mod failing;
mod memory_room;
mod memory_sink;
mod outside;
mod real;

pub use memory_room::{MemoryRoom, QuietRoom};
pub use memory_sink::{MemorySink, QuietSink};
pub use outside::{Room, RoomFault, Sink, SinkFault};
pub use real::{FileRoom, StdSink, read_within};
