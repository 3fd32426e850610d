//! What every crate of the checker stands on: lists, boxes and bits that contracts see as what they hold, stretches of
//! the input, how a run ends, and the outside as sources and sinks.
#![tactic(auto)]

mod bits;
mod boxed;
mod failures;
mod limits;
mod list;
mod mem_sink;
mod mem_source;
mod sink;
mod source;
mod span;
mod status;
mod token;

pub use bits::Bits;
pub use boxed::Boxed;
pub use failures::{Failed, NoMemory};
pub use limits::MOST_BYTES;
pub use list::List;
pub use mem_sink::MemSink;
pub use mem_source::MemSource;
pub use sink::{Sink, write_all};
pub use source::{READ_PIECE, ReadAll, Source, read_all};
pub use span::Span;
pub use status::Status;
pub use token::{Class, Place};

#[cfg(test)]
mod tests;
