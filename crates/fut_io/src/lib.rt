//! Where bytes come from and go to: sources, sinks and loaders that count their faults.
//!
//! [`Words`], [`Source`], [`Sink`] and [`Loader`] say what each call gives, takes and leaves alone, in terms of what the
//! object tells of itself. The objects in memory tell all of it, and fail where they are told to. The real ones
//! tell their counts alone.
#![tactic(auto)]

mod all;
mod memory;
mod outside;
mod real;
mod words;

pub use all::{ReadErr, read_all, write_all};
pub use memory::{MemLoader, MemSink, MemSource, SureSink, SureSource};
pub use outside::{Failed, LoadErr, Loader, MOST_FILE_BYTES, Sink, Source, Words};
pub use real::{FileLoader, StdSink, StdSource};
pub use words::{MemWords, StdWords};
