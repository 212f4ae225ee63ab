//! Ports in memory, for tests of what stands on `fmt_ports`.
//!
//! They tell all their bytes, and fail at the calls whose numbers they are given.
#![tactic(auto)]

mod ends;
mod files;
mod plan;

pub use ends::{MemSink, MemSource};
pub use files::MemFiles;
