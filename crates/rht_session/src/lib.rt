//! Tables in other programs: handles, each with a session of its own.
//!
//! Stands on `rht_run`. A `Session` is a table that others share, with one of its passes; a `Handle` has a session
//! or none, and is what a program in another language keeps for each of its threads. A call that waits for nobody
//! is made as a whole, and any other in pieces: begun, and gone on with by so many operations, so nothing here
//! waits. What C sees of all this are numbers and flags: `plain` has the structs, `telling` the answers. Read
//! `specs/Sessions.antt` first, which says what calls leave of a session, and then `specs/Handles.antt`.
#![tactic(auto)]

mod address;
mod closing;
pub mod codes;
mod handle;
pub mod laws;
mod lists;
mod marks;
mod opening;
mod parts;
mod plain;
mod refused;
mod session;
mod shared;
mod telling;

pub use closing::NotClosed;
pub use handle::Handle;
pub use plain::{CClosed, CConfig, CCursor, CPair, CPort, CReply, NO_SPARE};
pub use refused::{NotOpened, Refused};
pub use session::Session;
pub use shared::Shared;
pub use telling::{
    told, told_closing, told_closing_all, told_closing_now, told_found, told_opening, told_whole,
};
