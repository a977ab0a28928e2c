// Bytes in and bytes out: sources, sinks, their faults, and the statuses of a run.
// Each call of a source or a sink moves bytes once; reading and writing all of n bytes costs n steps and one call for each piece.
#![tactic(auto)]

pub mod failed;
pub mod memory_sink;
pub mod memory_source;
mod moving;
pub mod read_error;
pub mod reader_source;
pub mod reading;
pub mod sink;
pub mod source;
pub mod status;
pub mod steady_source;
pub mod writer_sink;
pub mod writing;

pub use failed::Failed;
pub use memory_sink::MemorySink;
pub use memory_source::MemorySource;
pub use read_error::ReadError;
pub use reader_source::ReaderSource;
pub use reading::read_all;
pub use sink::Sink;
pub use source::Source;
pub use status::Status;
pub use steady_source::SteadySource;
pub use writer_sink::WriterSink;
pub use writing::write_all;
