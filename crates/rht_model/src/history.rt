//! Calls, replies, and the entries of a history, as plain data.

use crate::owners::Owners;
use rht_words::Port;

/// Where a walk goes on. The kernel's counterpart is `rhashtable_iter`.
#[derive(Clone, Copy, Debug, PartialEq, Eq)]
pub struct Cursor {
    /// Which of the tables made so far was walked.
    pub serial: u64,
    /// The bucket at which the walk goes on.
    pub bucket: u32,
}

/// What a caller asks of a table.
#[derive(Clone, Copy, Debug, PartialEq, Eq)]
pub enum Call {
    /// Binds a port to an owner, as `rhashtable_lookup_insert_key` and `rhltable_insert_key` do.
    /// Where `once` is set, it is tried once alone and may answer `Again`.
    Bind { port: Port, owner: u32, once: bool },
    /// Looks a port up, as `rhashtable_lookup_fast` does.
    Find { port: Port },
    /// Lists all owners of a port, as `rhltable_lookup` does.
    All { port: Port },
    /// Takes one binding of a port to this owner out, as `rhashtable_remove_fast` does.
    Release { port: Port, owner: u32 },
    /// Puts a new owner in the place of the port's first one that is `owner`. In a table of one
    /// owner each, that is what `rhashtable_replace_fast` does.
    Rebind { port: Port, owner: u32, new: u32 },
    /// Shows ports with their first owners, bucket by bucket, as `rhashtable_walk_next` does,
    /// until a bucket ends with `limit` of them shown.
    Walk { from: Option<Cursor>, limit: u32 },
    /// Resizes the table where that is due, as the kernel's worker `rht_deferred_worker` does.
    Work,
    /// Gives back the caller's removed nodes whose grace period is over.
    Tidy,
    /// Counts the bound ports.
    Count,
}

/// What a call answers. Tables are named by their slots, from 0 to 7.
#[derive(Clone, Copy, Debug, PartialEq, Eq)]
pub enum Reply {
    /// The port is bound to the owner now; with `kick`, `work` has something to do.
    Bound { kick: bool },
    /// The port was bound already, first of all to this owner, and the table is of one owner each.
    Exists { owner: u32 },
    /// The port's first owner.
    Found { owner: u32 },
    /// The port isn't bound.
    Missing,
    /// The port's owners, so many; the list itself comes beside the reply.
    Listed { len: u32 },
    /// The binding was taken out; with `kick`, `work` has something to do.
    Released { kick: bool },
    /// The port isn't bound to this owner.
    Absent,
    /// The new owner has the old one's place.
    Rebound,
    /// Refused: the table holds so many ports, which is all that it may hold or more.
    TooBig { count: u64 },
    /// Refused: there is a table behind the one that was used, and the call has to be made again.
    Again { table: u32 },
    /// Refused: a resize from `root` to `last` has to end first.
    Busy { root: u32, last: u32 },
    /// Refused: a table of this size was wanted and couldn't be had.
    NoTable { size: u32 },
    /// Refused: no node is free.
    NoNode,
    /// Refused: this caller is in a read section that began before the nodes were removed. `section`
    /// is its section word, which is odd.
    Pending { caller: u32, section: u64 },
    /// Refused: another caller is at work.
    Elsewhere,
    /// So many pairs were shown; they come beside the reply. With `next` the walk goes on there.
    Walked { len: u32, next: Option<Cursor> },
    /// Entries were moved to a new table; with `again`, there is more to do.
    Moved { again: bool },
    /// Nothing was to be done.
    Idle,
    /// So many nodes are free again.
    Clear { returned: u32 },
    /// So many ports are bound.
    Counted { count: u64 },
}

/// One entry of a history: who called, what it asked, and what it was answered.
#[derive(Debug, Drop)]
pub struct Entry {
    /// The caller, counted from 0.
    pub caller: u32,
    /// What it asked.
    pub call: Call,
    /// What it was answered.
    pub reply: Reply,
    /// The list that comes with `Listed`; empty for every other reply.
    pub owners: Owners,
}
