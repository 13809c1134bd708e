//! The outside of both programs: a folder of files that are read and written whole, and a sink
//! that bytes are put to. Each is a trait with an implementation in memory, for tests, and one over
//! the system. What their contracts cannot say of the system they leave open: the system's own
//! tell no content, and only count the answers of each kind.
//!
//! No call here ends the process, waits for another thread, or keeps a file open after it returns.
#![tactic(auto)]

mod host_folder;
mod host_sink;
mod mem_folder;
mod mem_sink;
mod opener;
mod outside;
mod whole;

pub use host_folder::HostFolder;
pub use host_sink::HostSink;
pub use mem_folder::MemFolder;
pub use mem_sink::MemSink;
pub use opener::Opener;
pub use outside::{Folder, PutFailed, ReadFail, Sink, WriteFail};
pub use par_base::memory::NoMemory;
