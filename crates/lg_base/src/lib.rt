//! What every layer of the ledger stands on: amounts and volumes, the outside world as traits with a count of their
//! faults, feeds of text, and the two loops that read a source to its end and write bytes whole.
//!
//! Nothing here knows of ledgers, accounts or entries.
#![tactic(auto)]

mod amounts;
mod buffered_feed;
mod feed;
mod memory_sink;
mod memory_source;
mod output_buffer;
mod read_end;
mod reading;
mod sink;
mod sink_feed;
mod source;
mod status;
mod texts;

pub use amounts::{Amount, Volumes};
pub use buffered_feed::BufferedFeed;
pub use feed::{ByteFeed, CountFeed, Feed, Stop};
pub use memory_sink::{CalmSink, MemSink};
pub use memory_source::{CalmSource, MemSource};
pub use output_buffer::OutputBuffer;
pub use read_end::ReadEnd;
pub use reading::read_all;
pub use sink::{Failed, Sink};
pub use sink_feed::{SinkFeed, write_whole};
pub use source::Source;
pub use status::Status;
pub use std::alloc::AllocError as NoMemory;
pub use texts::{feed_escaped, feed_json_text, feed_number};
