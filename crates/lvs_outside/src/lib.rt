//! The outside of the program: a store of files, a taker of summary bytes, and the loops over them.
#![tactic(auto)]

mod counted;
mod depot;
mod endless;
mod entries;
mod file;
mod files;
mod idle;
mod lent;
pub mod loops;
mod memory;
mod memory_sink;
mod quiet;
mod schedule;
mod sink;
mod stdout;
mod tally;
mod token;

pub use counted::Counted;
pub use depot::{Depot, Failed};
pub use endless::EndlessDepot;
pub use file::FileDepot;
pub use files::{Written, write_files};
pub use idle::IdleDepot;
pub use loops::{LIMIT, ReadFault, read_rest, write_all, write_file, write_whole};
pub use memory::MemoryDepot;
pub use memory_sink::MemorySink;
pub use quiet::QuietDepot;
pub use sink::Sink;
pub use stdout::StdoutSink;
