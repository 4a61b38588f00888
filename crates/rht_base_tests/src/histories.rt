//! Short histories of port 80, and whether they are legal.

use crate::bindings::{NET_3_PORT_80, assert_row};
use rht_model::{Call, Cursor, Entry, Owners, Reply, is_legal};
use rht_words::{Kind, port_of};
use std::alloc::{AllocError, Global};
use std::process::Abort;
use std::test::Fail;

/// A call, as rows have it.
#[derive(Clone, Copy, Debug)]
enum Asked {
    Bind { port: u64, owner: u32, once: bool },
    Find { port: u64 },
    All { port: u64 },
    Release { port: u64, owner: u32 },
    Rebind { port: u64, owner: u32, new: u32 },
    Walk { from: Option<Cursor>, limit: u32 },
    Work,
    Tidy,
    Count,
}

impl Asked {
    /// The call.
    fn call(self) -> Call {
        match self {
            Asked::Bind { port, owner, once } => Call::Bind {
                port: port_of(port),
                owner,
                once,
            },
            Asked::Find { port } => Call::Find {
                port: port_of(port),
            },
            Asked::All { port } => Call::All {
                port: port_of(port),
            },
            Asked::Release { port, owner } => Call::Release {
                port: port_of(port),
                owner,
            },
            Asked::Rebind { port, owner, new } => Call::Rebind {
                port: port_of(port),
                owner,
                new,
            },
            Asked::Walk { from, limit } => Call::Walk { from, limit },
            Asked::Work => Call::Work,
            Asked::Tidy => Call::Tidy,
            Asked::Count => Call::Count,
        }
    }
}

/// A call on port 80 or 81, or on 80 of net 3, its reply, and the owners that come with it.
type Line<'a> = (Asked, Reply, &'a [u32]);

fn owners_of(alloc: Global, list: &[u32]) -> Result<Owners, AllocError> {
    let mut owners = Owners::new(alloc);
    for owner in list {
        owners.push(*owner)?;
    }
    Ok(owners)
}

/// Whether these lines are a legal history of such a table.
fn legal(alloc: Global, kind: Kind, lines: &[Line]) -> Result<bool, AllocError> {
    let mut history = Vec::new(alloc);
    for (asked, reply, list) in lines {
        history.push(Entry {
            caller: 0,
            call: asked.call(),
            reply: *reply,
            owners: owners_of(alloc, list)?,
        })?;
    }
    is_legal(alloc, kind, &history)
}

const BOUND: Reply = Reply::Bound { kick: false };

const RELEASED: Reply = Reply::Released { kick: false };

const BIND_1: Asked = Asked::Bind {
    port: 80,
    owner: 1,
    once: false,
};

const BIND_2: Asked = Asked::Bind {
    port: 80,
    owner: 2,
    once: false,
};

const BIND_3: Asked = Asked::Bind {
    port: 80,
    owner: 3,
    once: false,
};

const BIND_ONCE: Asked = Asked::Bind {
    port: 80,
    owner: 1,
    once: true,
};

const BIND_81: Asked = Asked::Bind {
    port: 81,
    owner: 2,
    once: false,
};

const BIND_NET_3: Asked = Asked::Bind {
    port: NET_3_PORT_80,
    owner: 2,
    once: false,
};

const FIND: Asked = Asked::Find { port: 80 };

const ALL: Asked = Asked::All { port: 80 };

const FIND_NET_3: Asked = Asked::Find {
    port: NET_3_PORT_80,
};

const ALL_NET_3: Asked = Asked::All {
    port: NET_3_PORT_80,
};

const RELEASE_1: Asked = Asked::Release { port: 80, owner: 1 };

const RELEASE_2: Asked = Asked::Release { port: 80, owner: 2 };

const REBIND: Asked = Asked::Rebind {
    port: 80,
    owner: 1,
    new: 2,
};

const REBIND_BACK: Asked = Asked::Rebind {
    port: 80,
    owner: 2,
    new: 1,
};

const WALK: Asked = Asked::Walk {
    from: Some(Cursor {
        serial: 0,
        bucket: 0,
    }),
    limit: 1,
};

const BOUND_1: Line = (BIND_1, BOUND, &[]);

const BOUND_2: Line = (BIND_2, BOUND, &[]);

const BOUND_3: Line = (BIND_3, BOUND, &[]);

const BOUND_100: Line = (
    Asked::Bind {
        port: 80,
        owner: 100,
        once: false,
    },
    BOUND,
    &[],
);

const BOUND_81: Line = (BIND_81, BOUND, &[]);

const BOUND_NET_3: Line = (BIND_NET_3, BOUND, &[]);

const FOUND_1: Line = (FIND, Reply::Found { owner: 1 }, &[]);

const FOUND_2: Line = (FIND, Reply::Found { owner: 2 }, &[]);

const FOUND_100: Line = (FIND, Reply::Found { owner: 100 }, &[]);

const FOUND_NET_3: Line = (FIND_NET_3, Reply::Found { owner: 2 }, &[]);

const MISSING_NET_3: Line = (FIND_NET_3, Reply::Missing, &[]);

const MISSING: Line = (FIND, Reply::Missing, &[]);

const EXISTS_1: Line = (BIND_2, Reply::Exists { owner: 1 }, &[]);

const EXISTS_2: Line = (BIND_2, Reply::Exists { owner: 2 }, &[]);

const RELEASED_1: Line = (RELEASE_1, RELEASED, &[]);

const RELEASED_2: Line = (RELEASE_2, RELEASED, &[]);

const ABSENT_1: Line = (RELEASE_1, Reply::Absent, &[]);

const ABSENT_2: Line = (RELEASE_2, Reply::Absent, &[]);

const REBOUND: Line = (REBIND, Reply::Rebound, &[]);

const NOT_REBOUND: Line = (REBIND, Reply::Absent, &[]);

const REBOUND_BACK: Line = (REBIND_BACK, Reply::Rebound, &[]);

const NOT_REBOUND_BACK: Line = (REBIND_BACK, Reply::Absent, &[]);

const NO_NODE: Line = (BIND_1, Reply::NoNode, &[]);

/// Histories of tables of one owner each, and whether they are legal.
const SINGLE: [(&[Line], bool); 38] = [
    (&[], true),
    (&[BOUND_100, FOUND_100], true),
    (&[BOUND_100, MISSING], false),
    (&[BOUND_1, FOUND_2], false),
    (&[MISSING], true),
    (&[FOUND_1], false),
    // A bound port is told its owner, and stays with it.
    (&[BOUND_1, EXISTS_1, FOUND_1], true),
    (&[BOUND_1, EXISTS_2], false),
    (&[BOUND_1, BOUND_2], false),
    (&[BOUND_1, BOUND_81, FOUND_1], true),
    (&[EXISTS_2], false),
    // Ports of two nets are two ports, whatever their numbers.
    (&[BOUND_1, BOUND_NET_3, FOUND_1, FOUND_NET_3], true),
    (&[BOUND_NET_3, BOUND_1, RELEASED_1, FOUND_NET_3], true),
    (&[BOUND_1, MISSING_NET_3], true),
    (&[BOUND_NET_3, FOUND_2], false),
    // Neither `kick` nor `once` is looked at.
    (&[(BIND_1, Reply::Bound { kick: true }, &[]), FOUND_1], true),
    (
        &[
            BOUND_1,
            (RELEASE_1, Reply::Released { kick: true }, &[]),
            MISSING,
        ],
        true,
    ),
    (&[(BIND_ONCE, BOUND, &[]), FOUND_1], true),
    // Only a list has owners beside it.
    (&[(BIND_1, BOUND, &[1])], false),
    (&[BOUND_1, (FIND, Reply::Found { owner: 1 }, &[1])], false),
    (&[(BIND_1, Reply::NoNode, &[1])], false),
    (&[BOUND_1, (ALL, Reply::Listed { len: 1 }, &[1])], true),
    // A release takes out the binding to this owner alone.
    (&[BOUND_1, RELEASED_1, MISSING], true),
    (&[BOUND_1, RELEASED_1, FOUND_1], false),
    (&[BOUND_1, ABSENT_1], false),
    (&[BOUND_1, ABSENT_2, FOUND_1], true),
    (&[BOUND_1, RELEASED_2], false),
    (&[ABSENT_1], true),
    // A rebind wants the old owner.
    (&[BOUND_1, REBOUND, FOUND_2], true),
    (&[BOUND_1, REBOUND, FOUND_1], false),
    (&[BOUND_1, NOT_REBOUND], false),
    (&[BOUND_1, NOT_REBOUND_BACK, FOUND_1], true),
    (&[BOUND_1, REBOUND_BACK], false),
    (&[NOT_REBOUND, MISSING], true),
    (&[REBOUND], false),
    // A refusal changes nothing.
    (&[NO_NODE, MISSING, BOUND_1], true),
    (&[NO_NODE, FOUND_1], false),
    (&[BOUND_1, (REBIND, Reply::NoNode, &[]), FOUND_1], true),
];

/// Histories of tables of lists. After the binds of 1, 2 and 1 the list is 1, 2, 1; without its
/// first 1 it is 2, 1, and with a 2 in its place 2, 2, 1.
const LISTED: [(&[Line], bool); 21] = [
    (&[BOUND_1, (ALL, Reply::Listed { len: 1 }, &[1])], true),
    (&[(ALL, Reply::Listed { len: 0 }, &[])], true),
    (&[(ALL, Reply::Missing, &[])], false),
    (
        &[
            BOUND_1,
            BOUND_2,
            BOUND_1,
            (ALL, Reply::Listed { len: 3 }, &[1, 2, 1]),
        ],
        true,
    ),
    (
        &[BOUND_1, BOUND_2, (ALL, Reply::Listed { len: 2 }, &[1, 2])],
        false,
    ),
    (
        &[BOUND_1, BOUND_2, (ALL, Reply::Listed { len: 1 }, &[2, 1])],
        false,
    ),
    (
        &[BOUND_1, BOUND_2, (ALL, Reply::Listed { len: 2 }, &[2])],
        false,
    ),
    (&[BOUND_1, BOUND_2, FOUND_2], true),
    (&[BOUND_1, BOUND_2, FOUND_1], false),
    (&[BOUND_1, EXISTS_1], false),
    (
        &[BOUND_1, BOUND_81, (ALL, Reply::Listed { len: 1 }, &[1])],
        true,
    ),
    (
        &[
            BOUND_1,
            BOUND_NET_3,
            (ALL_NET_3, Reply::Listed { len: 1 }, &[2]),
        ],
        true,
    ),
    (
        &[
            BOUND_1,
            BOUND_NET_3,
            (ALL, Reply::Listed { len: 2 }, &[2, 1]),
        ],
        false,
    ),
    (
        &[
            BOUND_1,
            BOUND_2,
            BOUND_1,
            RELEASED_1,
            (ALL, Reply::Listed { len: 2 }, &[2, 1]),
        ],
        true,
    ),
    (
        &[
            BOUND_1,
            BOUND_2,
            BOUND_1,
            RELEASED_1,
            (ALL, Reply::Listed { len: 2 }, &[1, 2]),
        ],
        false,
    ),
    (
        &[
            BOUND_1,
            RELEASED_1,
            (ALL, Reply::Listed { len: 0 }, &[]),
            MISSING,
        ],
        true,
    ),
    (
        &[
            BOUND_1,
            BOUND_2,
            BOUND_1,
            REBOUND,
            (ALL, Reply::Listed { len: 3 }, &[2, 2, 1]),
        ],
        true,
    ),
    (
        &[
            BOUND_1,
            BOUND_2,
            BOUND_1,
            REBOUND,
            (ALL, Reply::Listed { len: 3 }, &[1, 2, 2]),
        ],
        false,
    ),
    (&[BOUND_1, BOUND_1, NOT_REBOUND], false),
    (&[NOT_REBOUND, (ALL, Reply::Listed { len: 0 }, &[])], true),
    (
        &[BOUND_1, REBOUND, (ALL, Reply::Listed { len: 1 }, &[2])],
        true,
    ),
];

/// Asserts of each history of such a table whether it is legal.
fn assert_legal(
    rt: &impl Abort,
    alloc: Global,
    kind: Kind,
    histories: &[(&[Line], bool)],
) -> Result<(), AllocError> {
    for i in 0..histories.len() {
        let (lines, want) = histories[i];
        assert_row(rt, (kind, i), legal(alloc, kind, lines)?, want);
    }
    Ok(())
}

#[test]
fn legal_histories(rt: HostRuntime) -> Result<(), Fail> {
    assert_legal(&rt, rt.alloc(), Kind::Single, &SINGLE)?;
    assert_legal(&rt, rt.alloc(), Kind::Listed, &LISTED)?;
    Ok(())
}

/// Rebinds of port 80 in a table of lists whose list is 3, 2, 1: the owner, the new one, the reply,
/// the list behind it, and whether that is legal.
const REBINDS: [(u32, u32, Reply, [u32; 3], bool); 12] = [
    // The first owner, the one in the middle, and the last one.
    (3, 9, Reply::Rebound, [9, 2, 1], true),
    (2, 9, Reply::Rebound, [3, 9, 1], true),
    (1, 9, Reply::Rebound, [3, 2, 9], true),
    // The new owner has the old one's place, and no other.
    (2, 9, Reply::Rebound, [9, 3, 1], false),
    (2, 9, Reply::Rebound, [3, 2, 1], false),
    (2, 9, Reply::Absent, [3, 2, 1], false),
    // It may have a place already, and may be the old one.
    (2, 3, Reply::Rebound, [3, 3, 1], true),
    (2, 2, Reply::Rebound, [3, 2, 1], true),
    (2, 2, Reply::Absent, [3, 2, 1], false),
    // An owner that isn't bound.
    (9, 2, Reply::Absent, [3, 2, 1], true),
    (9, 2, Reply::Rebound, [3, 2, 1], false),
    // A refusal changes nothing.
    (2, 9, Reply::NoNode, [3, 2, 1], true),
];

#[test]
fn rebinds_in_lists(rt: HostRuntime) -> Result<(), Fail> {
    for (owner, new, reply, list, want) in REBINDS {
        let port = 80;
        let lines: [Line; 5] = [
            BOUND_1,
            BOUND_2,
            BOUND_3,
            (Asked::Rebind { port, owner, new }, reply, &[]),
            (ALL, Reply::Listed { len: 3 }, &list),
        ];
        let legal = legal(rt.alloc(), Kind::Listed, &lines)?;
        assert_row(&rt, (owner, new, reply), legal, want);
    }
    Ok(())
}

/// Each refusal, whether a bind may give it, and whether a rebind may.
const REFUSALS: [(Reply, bool, bool); 7] = [
    (Reply::TooBig { count: 9 }, true, false),
    (Reply::Again { table: 1 }, true, false),
    (Reply::Busy { root: 0, last: 1 }, true, false),
    (Reply::NoTable { size: 64 }, true, false),
    (Reply::NoNode, true, true),
    (
        Reply::Pending {
            caller: 0,
            section: 3,
        },
        false,
        false,
    ),
    (Reply::Elsewhere, false, false),
];

#[test]
fn refusals(rt: HostRuntime) -> Result<(), Fail> {
    for (reply, bind_may, rebind_may) in REFUSALS {
        let calls = [
            (BIND_1, bind_may),
            (REBIND, rebind_may),
            (FIND, false),
            (ALL, false),
            (RELEASE_1, false),
        ];
        for (asked, want) in calls {
            let legal = legal(rt.alloc(), Kind::Single, &[(asked, reply, &[])])?;
            assert_row(&rt, (reply, asked), legal, want);
        }
    }
    Ok(())
}

/// Calls that aren't about bindings, with replies that they could give.
const OTHERS: [(Asked, Reply); 7] = [
    (WALK, Reply::Walked { len: 0, next: None }),
    (WALK, Reply::Again { table: 0 }),
    (Asked::Work, Reply::Idle),
    (Asked::Work, Reply::Moved { again: false }),
    (Asked::Work, Reply::Elsewhere),
    (Asked::Tidy, Reply::Clear { returned: 0 }),
    (Asked::Count, Reply::Counted { count: 0 }),
];

#[test]
fn other_calls_are_never_legal(rt: HostRuntime) -> Result<(), Fail> {
    for (asked, reply) in OTHERS {
        let legal = legal(rt.alloc(), Kind::Single, &[(asked, reply, &[])])?;
        assert_row(&rt, (reply, asked), legal, false);
    }
    Ok(())
}
