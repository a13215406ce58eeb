//! The outside of the program: where texts come from and where bytes go.
//!
//! [`Store`] and [`Sink`] say what the program relies on. [`FileStore`] and [`StdSink`] are the
//! real files and streams, which no contract can look into. [`MemStore`] and [`MemSink`] are exact
//! doubles that fail on demand, and [`SureStore`] and [`SureSink`] never fail.
#![tactic(auto)]

mod mem_sink;
mod mem_store;
mod sink;
mod store;
mod sure;
mod system;
#[cfg(test)]
mod tests;

pub use mem_sink::MemSink;
pub use mem_store::MemStore;
pub use sink::{Sink, SinkFailed, put_all};
pub use store::{Store, StoreFault};
pub use sure::{SureSink, SureStore};
pub use system::{FileStore, StdSink};
