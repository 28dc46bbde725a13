//! The outside as traits: where bytes come from and where they go, and the lines of the bytes that
//! were taken.
#![tactic(auto)]

mod buffered_sink;
mod chunk;
mod gather;
mod laws;
mod line_part;
mod line_reader;
mod memory_sink;
mod memory_source;
mod next_line;
mod plan;
mod real;
mod sink;
mod source;
mod sure_sink;
mod sure_source;

pub use buffered_sink::BufferedSink;
pub use chunk::{BUFFER_SIZE, line_feed_at};
pub use laws::limits_are_numbers;
pub use line_reader::LineReader;
pub use memory_sink::MemorySink;
pub use memory_source::MemorySource;
pub use next_line::{INPUT_LIMIT, LINE_LIMIT, LineFault, NextLine};
pub use real::{RealSink, RealSource};
pub use sink::{Sink, write_whole};
pub use source::{Failed, Source};
pub use sure_sink::SureSink;
pub use sure_source::SureSource;
