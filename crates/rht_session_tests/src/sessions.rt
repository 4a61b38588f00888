//! Handles of small tables, opened, used, refused and closed; and what C is told. Wanted are the replies that the
//! calls of a running table are said to give.

ghost use Rattle.std.specs.Prelude.{IfOk};
ghost use Rattle.rht_session.specs.Handles.{IsFitHandle};

use crate::asserts::assert_same;
use rht_model::{Call, Cursor, Reply};
use rht_session::{
    CConfig, CCursor, CPair, CPort, CReply, Handle, NO_SPARE, NotOpened, Refused, codes, told,
    told_closing, told_closing_now, told_found, told_opening, told_whole,
};
use rht_words::{Config, Hash, Kind, Port};
use std::alloc::Global;
use std::test::Fail;

/// A small table of lists for two callers. Ports are their own hashes.
pub const SMALL: Config = Config {
    kind: Kind::Listed,
    nodes: 8,
    pages: 4,
    callers: 2,
    hint: 0,
    min: 4,
    max: 4,
    seed: 1,
    rewalks: 8,
    hash: Hash::Low,
    shrink: false,
};

/// A reply without numbers, as C has it.
const NOTHING: CReply = CReply {
    count: 0,
    section: 0,
    next: CCursor {
        serial: 0,
        bucket: 0,
        more: false,
    },
    owner: 0,
    len: 0,
    table: 0,
    last: 0,
    size: 0,
    returned: 0,
    caller: 0,
    kick: false,
    again: false,
    spare: NO_SPARE,
};

/// The two handles of a table.
pub fn opened(alloc: Global, config: Config) -> Result<(Handle, Handle), Fail>
    ensures { IfOk result (λ h. IsFitHandle h.0 × IsFitHandle h.1) }
{
    let mut handles = [Handle::blank(alloc), Handle::blank(alloc)];
    Handle::open(alloc, config, &mut handles)
        .ok()
        .ok_or("not opened")?;
    let [first, second] = handles;
    Ok((first, second))
}

/// Makes a call, its first operation and then the others.
pub fn made(handle: &mut Handle, call: Call) -> Result<Reply, Fail>
    requires { IsFitHandle handle.old }
    ensures { IsFitHandle handle.new }
{
    let begun = handle.begin(call).ok().ok_or("not begun")?;
    if let Some(reply) = begun {
        return Ok(reply);
    }
    let ended = handle.go_on(1_000).ok().ok_or("not gone on with")?;
    Ok(ended.ok_or("not ended")?)
}

/// The call that binds a port to an owner.
pub fn bind(port: Port, owner: u32) -> Call {
    Call::Bind {
        port,
        owner,
        once: false,
    }
}

#[test]
fn handles_of_a_table_share_what_is_bound(rt: HostRuntime) -> Result<(), Fail> {
    let alloc = rt.alloc();
    for hash in [Hash::Low, Hash::Mix] {
        let (mut first, mut second) = opened(alloc, Config { hash, ..SMALL })?;
        let port = Port { net: 3, number: 80 };
        let bound = Reply::Bound { kick: false };
        assert_same(&rt, made(&mut first, bind(port, 7))?, bound);
        assert_same(&rt, made(&mut second, bind(port, 9))?, bound);
        assert_same(&rt, first.find(port), Ok(Reply::Found { owner: 9 }));
        let all = made(&mut second, Call::All { port })?;
        assert_same(&rt, all, Reply::Listed { len: 2 });
        let mut room = [0, 0];
        assert_same(&rt, second.owners(0, &mut room), Ok(2));
        assert_same(&rt, room, [9, 7]);
        let release = Call::Release { port, owner: 9 };
        let released = Reply::Released { kick: false };
        assert_same(&rt, made(&mut first, release)?, released);
        assert_same(&rt, first.tidy(), Ok(Reply::Clear { returned: 1 }));
        assert_same(&rt, second.count(), Ok(Reply::Counted { count: 1 }));
        assert_same(&rt, first.close(alloc), Ok(()));
        assert_same(&rt, second.find(port), Ok(Reply::Found { owner: 7 }));
        assert_same(&rt, second.close(alloc), Ok(()));
    }
    Ok(())
}

#[test]
fn lists_are_written_as_far_as_there_is_room(rt: HostRuntime) -> Result<(), Fail> {
    let alloc = rt.alloc();
    let (mut first, _second) = opened(alloc, SMALL)?;
    made(&mut first, bind(Port::plain(2), 5))?;
    made(&mut first, bind(Port::plain(2), 6))?;
    made(&mut first, bind(Port::plain(2), 7))?;
    made(&mut first, bind(Port { net: 1, number: 1 }, 8))?;
    made(
        &mut first,
        Call::All {
            port: Port::plain(2),
        },
    )?;
    let mut room = [0, 0];
    assert_same(&rt, first.owners(2, &mut room), Ok(1));
    assert_same(&rt, room, [5, 0]);
    assert_same(&rt, first.owners(4, &mut room), Ok(0));
    assert_same(&rt, first.owners(0, &mut room), Ok(2));
    assert_same(&rt, room, [7, 6]);
    let walked = Reply::Walked { len: 2, next: None };
    assert_same(&rt, first.walk(None, 8), Ok(walked));
    let want = [
        (CPort { number: 1, net: 1 }, 8),
        (CPort { number: 2, net: 0 }, 7),
    ];
    let blank = CPair {
        port: CPort { number: 0, net: 0 },
        owner: 0,
    };
    let mut pairs = [blank, blank, blank];
    assert_same(&rt, first.pairs(0, &mut pairs), Ok(2));
    let found = [
        (pairs[0].port, pairs[0].owner),
        (pairs[1].port, pairs[1].owner),
    ];
    assert_same(&rt, found, want);
    assert_same(&rt, pairs[2], blank);
    assert_same(&rt, first.owners(0, &mut room), Ok(0));
    Ok(())
}

#[test]
fn a_call_in_one_go_leaves_off_at_a_lock(rt: HostRuntime) -> Result<(), Fail> {
    let alloc = rt.alloc();
    let port = Port::plain(1);
    let release = Call::Release { port, owner: 7 };
    let released = Reply::Released { kick: false };
    let bound = Reply::Bound { kick: false };
    let (mut first, mut second) = opened(alloc, SMALL)?;
    assert_same(&rt, made(&mut first, bind(port, 7))?, bound);
    // with no round it is left before the lock, in its section, and any number of operations goes on with it
    assert_same(&rt, first.set_out(release, 0), Ok(None));
    assert_same(&rt, first.find(port), Err(Refused::InCall));
    assert_same(&rt, first.set_out(release, 1), Err(Refused::InCall));
    assert_same(&rt, second.find(port), Ok(Reply::Found { owner: 7 }));
    assert_same(&rt, first.go_on(1), Ok(None));
    assert_same(&rt, first.go_on(1_000), Ok(Some(released)));
    // eleven operations lead a bind to the lock of the port's bucket, which it has then
    assert_same(&rt, made(&mut first, bind(port, 7))?, bound);
    assert_same(&rt, second.begin(bind(port, 8)), Ok(None));
    assert_same(&rt, second.go_on(10), Ok(None));
    assert_same(&rt, first.set_out(release, 3), Ok(None));
    assert_same(&rt, first.go_on(5), Ok(None));
    assert_same(&rt, second.go_on(1_000), Ok(Some(bound)));
    assert_same(&rt, first.go_on(1_000), Ok(Some(released)));
    // and where nobody has it one round is enough
    let absent = first.set_out(release, 1);
    assert_same(&rt, absent, Ok(Some(Reply::Absent)));
    let other = Call::Release { port, owner: 8 };
    assert_same(&rt, first.set_out(other, 1), Ok(Some(released)));
    assert_same(&rt, second.find(port), Ok(Reply::Missing));
    Ok(())
}

#[test]
fn calls_are_refused_by_what_a_handle_has(rt: HostRuntime) -> Result<(), Fail> {
    let alloc = rt.alloc();
    let port = Port::plain(1);
    let mut blank = Handle::blank(alloc);
    assert_same(&rt, blank.find(port), Err(Refused::NotOpen));
    assert_same(&rt, blank.begin(Call::Work), Err(Refused::NotOpen));
    assert_same(&rt, blank.go_on(1), Err(Refused::NotOpen));
    assert_same(&rt, blank.close(alloc), Err(Refused::NotOpen));
    let (mut first, _second) = opened(alloc, SMALL)?;
    assert_same(&rt, first.go_on(0), Err(Refused::NoSteps));
    assert_same(&rt, first.go_on(1), Err(Refused::NoCall));
    assert_same(&rt, first.begin(bind(port, 7)), Ok(None));
    assert_same(&rt, first.go_on(1), Ok(None));
    assert_same(&rt, first.begin(Call::Count), Err(Refused::InCall));
    assert_same(&rt, first.find(port), Err(Refused::InCall));
    assert_same(&rt, first.walk(None, 1), Err(Refused::InCall));
    assert_same(&rt, first.tidy(), Err(Refused::InCall));
    assert_same(&rt, first.count(), Err(Refused::InCall));
    assert_same(&rt, first.owners(0, &mut [0]), Err(Refused::InCall));
    assert_same(&rt, first.close(alloc), Err(Refused::InCall));
    let bound = Reply::Bound { kick: false };
    assert_same(&rt, first.go_on(1_000), Ok(Some(bound)));
    assert_same(&rt, first.close(alloc), Ok(()));
    assert_same(&rt, first.close(alloc), Err(Refused::NotOpen));
    Ok(())
}

#[test]
fn openings_are_refused_by_the_first_reason(rt: HostRuntime) -> Result<(), Fail> {
    let alloc = rt.alloc();
    let mut handles = vec![in alloc; Handle::blank(alloc)]?;
    let no_nodes = Config { nodes: 0, ..SMALL };
    let one = Config {
        callers: 1,
        ..SMALL
    };
    let wanted = [
        (no_nodes, Err(NotOpened::Config)),
        (SMALL, Err(NotOpened::Count)),
        (one, Ok(())),
        (one, Err(NotOpened::Open)),
        (SMALL, Err(NotOpened::Count)),
    ];
    for (config, want) in wanted {
        let found = Handle::open(alloc, config, handles.as_mut_slice());
        assert_same(&rt, found, want);
    }
    Ok(())
}

#[test]
fn sizes_of_configs_are_rounded(rt: HostRuntime) -> Result<(), Fail> {
    let plain = CConfig::of(Config::plain());
    let rows = [
        (0, 0, 4, 0),
        (5, 7, 8, 4),
        (64, 131_072, 64, 131_072),
        (65_536, 131_071, 65_536, 65_536),
        (65_537, 131_073, 65_537, 131_073),
        (4_294_967_295, 4_294_967_295, 4_294_967_295, 4_294_967_295),
    ];
    for (min, max, least, greatest) in rows {
        let config = CConfig { min, max, ..plain }.config();
        assert_same(&rt, (config.min, config.max), (least, greatest));
    }
    let other = CConfig {
        listed: true,
        low: true,
        shrink: true,
        ..plain
    };
    assert_same(&rt, CConfig::of(other.config()), other);
    assert_same(&rt, other.has_no_spare(), true);
    let spare = [0, 0, 0, 0, 0, 0, 0, 1];
    let filled = CConfig { spare, ..other };
    assert_same(&rt, filled.has_no_spare(), false);
    Ok(())
}

#[test]
fn answers_are_told_by_codes_and_numbers(rt: HostRuntime) -> Result<(), Fail> {
    let cursor = Cursor {
        serial: 3,
        bucket: 9,
    };
    let next = CCursor::of(Some(cursor));
    assert_same(&rt, next.cursor(), Some(cursor));
    let walked = Reply::Walked {
        len: 2,
        next: Some(cursor),
    };
    let pending = Reply::Pending {
        caller: 1,
        section: 5,
    };
    let rows = [
        (
            walked,
            codes::WALKED,
            CReply {
                len: 2,
                next,
                ..NOTHING
            },
        ),
        (
            pending,
            codes::PENDING,
            CReply {
                caller: 1,
                section: 5,
                ..NOTHING
            },
        ),
        (
            Reply::Busy { root: 1, last: 2 },
            codes::BUSY,
            CReply {
                table: 1,
                last: 2,
                ..NOTHING
            },
        ),
        (Reply::Absent, codes::ABSENT, NOTHING),
    ];
    for (reply, code, want) in rows {
        let mut found = NOTHING;
        assert_same(&rt, told_whole(Ok(reply), &mut found), code);
        assert_same(&rt, found, want);
        assert_same(&rt, told(Ok(None), &mut found), codes::NOT_YET);
        assert_same(&rt, told(Err(Refused::InCall), &mut found), codes::IN_CALL);
        assert_same(&rt, found, want);
        assert_same(&rt, told(Ok(Some(reply)), &mut found), code);
    }
    let mut owner = 4;
    assert_same(
        &rt,
        told_found(Ok(Reply::Missing), &mut owner),
        codes::MISSING,
    );
    assert_same(&rt, owner, 4);
    let found = Reply::Found { owner: 6 };
    assert_same(&rt, told_found(Ok(found), &mut owner), codes::FOUND);
    assert_same(&rt, owner, 6);
    assert_same(&rt, told_opening(Err(NotOpened::Memory)), codes::NO_MEMORY);
    assert_same(&rt, told_closing(Ok(())), codes::CLOSED);
    let waiting = told_closing(Err(Refused::Waiting));
    assert_same(&rt, waiting, codes::WAITING);
    let mut given_up = 4;
    let refused = told_closing_now(Err(Refused::InCall), &mut given_up);
    assert_same(&rt, (refused, given_up), (codes::IN_CALL, 4));
    let closed = told_closing_now(Ok(6), &mut given_up);
    assert_same(&rt, (closed, given_up), (codes::CLOSED, 6));
    Ok(())
}
