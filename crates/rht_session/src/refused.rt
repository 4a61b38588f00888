//! Why a call on a handle isn't made, and why no table is opened.

/// Why a call on a handle wasn't made. The handle is as it was.
#[derive(Clone, Copy, Debug, PartialEq, Eq)]
pub enum Refused {
    /// The handle has no session: it is blank, or was closed.
    NotOpen,
    /// The session is in a call, which has to be gone on with until it ends.
    InCall,
    /// The session is in no call.
    NoCall,
    /// To go on by no operation was asked.
    NoSteps,
    /// The handle has nodes that aren't tidied, which would stay taken; a closing alone is refused so.
    Waiting,
}

/// Why no table was opened. The handles are as they were.
#[derive(Clone, Copy, Debug, PartialEq, Eq)]
pub enum NotOpened {
    /// No table can be opened with this config, as `Config::is_settled` tells.
    Config,
    /// There aren't as many handles as the config has callers.
    Count,
    /// One of the handles is open.
    Open,
    /// Memory has run out, and none of it stays taken.
    Memory,
}
