//! The outside: where a script's bytes come from, where text goes, and who hears of each command.
//!
//! Stands on nothing. The script's reader and writer and the program are generic over these
//! traits, so that what they do is proved for every source and sink.
//! Read `specs/Told.antt` first: it says what is known of bytes and of faults.
#![tactic(auto)]

mod adapters;
mod gate;
mod memory;
mod sink;
mod source;
mod sure;

pub use adapters::{InputSource, OutputSink};
pub use gate::{Gate, NoGate};
pub use memory::{MemSink, MemSource};
pub use sink::{Sink, put_all};
pub use source::{Failed, Source};
pub use sure::{SureSink, SureSource};
