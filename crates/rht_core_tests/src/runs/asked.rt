//! Calls and events as the rows of the tests have them. A port is its key word, which is its number where it
//! is of net 0.

use rht_core::Event;
use rht_model::{Call, Cursor};
use rht_words::port_of;

/// A call.
#[derive(Clone, Copy, Debug, PartialEq)]
pub enum Asked {
    Bind { port: u64, owner: u32, once: bool },
    Find { port: u64 },
    All { port: u64 },
    Release { port: u64, owner: u32 },
    Rebind { port: u64, owner: u32, new: u32 },
    Walk { from: Option<Cursor>, limit: u32 },
    Work,
    Tidy,
    Count,
}

impl Asked {
    /// The call.
    pub fn call(self) -> Call {
        match self {
            Asked::Bind { port, owner, once } => Call::Bind {
                port: port_of(port),
                owner,
                once,
            },
            Asked::Find { port } => Call::Find {
                port: port_of(port),
            },
            Asked::All { port } => Call::All {
                port: port_of(port),
            },
            Asked::Release { port, owner } => Call::Release {
                port: port_of(port),
                owner,
            },
            Asked::Rebind { port, owner, new } => Call::Rebind {
                port: port_of(port),
                owner,
                new,
            },
            Asked::Walk { from, limit } => Call::Walk { from, limit },
            Asked::Work => Call::Work,
            Asked::Tidy => Call::Tidy,
            Asked::Count => Call::Count,
        }
    }
}

/// What a run is told.
#[derive(Clone, Copy, Debug, PartialEq)]
pub enum Told {
    Enroll,
    Begin { caller: u32, asked: Asked },
    Step { caller: u32 },
}

impl Told {
    /// The event.
    pub fn event(self) -> Event {
        match self {
            Told::Enroll => Event::Enroll,
            Told::Begin { caller, asked } => Event::Begin {
                caller,
                call: asked.call(),
                start: 0,
            },
            Told::Step { caller } => Event::Step { caller },
        }
    }
}
