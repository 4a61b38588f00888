//! Walks in pieces of any size: a resumed walk keeps, beside a cursor, how many pairs of the next occupied bucket
//! it has shown, so that a piece may end in the middle of a bucket.
//!
//! Stands on `rht_run`, by whose `Table::walk` alone it walks, and on `rht_script`, whose lines resume scripts have
//! beside their own. The program reads a resume script, does it by `run_resumed` and writes what it leaves by
//! `write_resumed`; a program of one's own keeps a `Resumed` beside a pass.
//! Read `specs/Pieces.antt` first: which piece comes of what walks were answered, and where the walk is then.
#![tactic(auto)]

pub mod laws;
mod outcome;
mod reader;
mod replies;
mod resume;
mod resumed;
mod resuming;
mod worker;
mod writer;

pub use outcome::ResumeOutcome;
pub use reader::read_resume;
pub use replies::ResumeReplies;
pub use resume::{Piece, ResumeCall, ResumeReply, ResumeScript};
pub use resumed::{Resumed, Spot};
pub use resuming::run_resumed;
pub use writer::write_resumed;
