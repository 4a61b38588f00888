//! Spans of time, from one reading of the clock to another.

use std::rt::Clock;
use std::time::{Duration, Instant};

/// From one reading of the clock to another.
#[derive(Clone, Copy)]
pub struct Span {
    /// The first.
    pub began: Instant,
    /// The second.
    pub ended: Instant,
}

impl Span {
    /// The span that began there and ends now. `None` where the clock can't be read, or couldn't.
    pub fn since<R: Clock>(rt: &R, began: Option<Instant>) -> Option<Span> {
        match (began, Instant::now(rt).ok()) {
            (Some(began), Some(ended)) => Some(Span { began, ended }),
            _ => None,
        }
    }

    /// The least span in which both lie.
    pub fn with(self, other: Span) -> Span {
        Span {
            began: self.began.min(other.began),
            ended: self.ended.max(other.ended),
        }
    }

    /// How long it is, in nanoseconds.
    pub fn nanos(self) -> u64 {
        nanos_of(self.ended.duration_since(self.began))
    }
}

/// The time in nanoseconds.
fn nanos_of(time: Duration) -> u64 {
    u64::try_from(time.as_nanos()).unwrap_or(u64::MAX)
}
