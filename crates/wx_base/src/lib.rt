//! Names, lists and the outside world, as every other crate of `wcet` sees them.
#![tactic(auto)]

mod copied;
mod files;
mod host_files;
mod host_sink;
mod lists;
mod mem_files;
mod mem_sink;
mod name;
mod no_memory;
mod reserved;
mod sequence;
mod sink;
mod sure_files;
mod sure_sink;

pub use files::{FetchError, Files, StoreError};
pub use host_files::HostFiles;
pub use host_sink::HostSink;
pub use lists::{Arg, Args, Names, Path, Words};
pub use mem_files::MemFiles;
pub use mem_sink::MemSink;
pub use name::Name;
pub use no_memory::NoMemory;
pub use reserved::Reserved;
pub use sequence::{Copied, Sequence};
pub use sink::{PutError, Sink};
pub use sure_files::SureFiles;
pub use sure_sink::SureSink;
