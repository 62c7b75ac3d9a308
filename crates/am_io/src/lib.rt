//! The outside of a program: where it reads files and where it writes, and stand-ins in memory for both.
#![tactic(auto)]

mod file_list;
mod files;
mod host;
mod memory_files;
mod memory_sinks;
mod optional;
mod saying;
mod sinks;

pub use files::{Files, LoadError};
pub use host::{FileSink, FsFiles, OutSink};
pub use memory_files::{MemFiles, SureFiles};
pub use memory_sinks::{MemSink, NullSink, SureSink};
pub use saying::{SayError, say};
pub use sinks::{Sink, SinkFailed};
