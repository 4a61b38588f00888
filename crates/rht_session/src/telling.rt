//! Answers as C gets them: a code, and the numbers that come with a reply.

ghost use Rattle.std.specs.Prelude.{◌≡◌};
ghost use Rattle.rht_session.specs.Told.{code_of, refusal_code, opening_code, closing_code, fields_of, IsTold, IsToldWhole, IsToldFound, IsToldClosed, IsToldClosedNow};

use crate::closing::NotClosed;
use crate::codes;
use crate::lists::write_bindings;
use crate::plain::{CClosed, CCursor, CPair, CReply, NO_SPARE};
use crate::refused::{NotOpened, Refused};
use rht_model::{Closed, Reply};

/// A reply without numbers.
const NOTHING: CReply = CReply {
    count: 0,
    section: 0,
    next: CCursor {
        serial: 0,
        bucket: 0,
        more: false,
    },
    owner: 0,
    len: 0,
    table: 0,
    last: 0,
    size: 0,
    returned: 0,
    caller: 0,
    kick: false,
    again: false,
    spare: NO_SPARE,
};

/// Says what a call came to that may be in progress still.
pub fn told(answer: Result<Option<Reply>, Refused>, into: &mut CReply) -> u32
    ensures { IsTold answer result into.old into.new }
{
    match answer {
        Ok(Some(reply)) => {
            *into = fields_of(reply);
            code_of(reply)
        }
        Ok(None) => codes::NOT_YET,
        Err(refused) => refusal_code(refused),
    }
}

/// Says what a whole call came to.
pub fn told_whole(answer: Result<Reply, Refused>, into: &mut CReply) -> u32
    ensures { IsToldWhole answer result into.old into.new }
{
    match answer {
        Ok(reply) => {
            *into = fields_of(reply);
            code_of(reply)
        }
        Err(refused) => refusal_code(refused),
    }
}

/// Says what a look-up came to.
pub fn told_found(answer: Result<Reply, Refused>, owner: &mut u32) -> u32
    ensures { IsToldFound answer result owner.old owner.new }
{
    match answer {
        Ok(reply) => {
            if let Reply::Found { owner: first } = reply {
                *owner = first;
            }
            code_of(reply)
        }
        Err(refused) => refusal_code(refused),
    }
}

/// Says what an opening came to.
pub fn told_opening(answer: Result<(), NotOpened>) -> u32
    ensures { result ≡ opening_code answer }
{
    match answer {
        Ok(()) => codes::OPENED,
        Err(NotOpened::Config) => codes::BAD_CONFIG,
        Err(NotOpened::Count) => codes::BAD_COUNT,
        Err(NotOpened::Open) => codes::STILL_OPEN,
        Err(NotOpened::Memory) => codes::NO_MEMORY,
    }
}

/// Says what a closing came to.
pub fn told_closing(answer: Result<(), Refused>) -> u32
    ensures { result ≡ closing_code answer }
{
    match answer {
        Ok(()) => codes::CLOSED,
        Err(refused) => refusal_code(refused),
    }
}

/// Says what a closing came to that gives nodes up, and how many these are.
pub fn told_closing_now(answer: Result<u32, Refused>, given_up: &mut u32) -> u32
    ensures { IsToldClosedNow answer result given_up.old given_up.new }
{
    match answer {
        Ok(nodes) => {
            *given_up = nodes;
            codes::CLOSED
        }
        Err(refused) => refusal_code(refused),
    }
}

/// Says what the closing of several handles came to: where the table was closed, its bindings and what it was.
pub fn told_closing_all(
    answer: Result<Option<Closed>, NotClosed>,
    into: &mut [CPair],
    told: &mut CClosed,
) -> u32
    ensures { IsToldClosed answer result into.old into.new told.old told.new }
{
    match answer {
        Ok(Some(closed)) => {
            let len = write_bindings(&closed.bindings, into) as u64;
            *told = CClosed {
                len,
                keys: closed.keys,
                size: closed.size,
                spare: NO_SPARE,
            };
            codes::ENDED
        }
        Ok(None) => codes::CLOSED,
        Err(NotClosed::NotOpen) => codes::NOT_OPEN,
        Err(NotClosed::TwoTables) => codes::TWO_TABLES,
        Err(NotClosed::InCall) => codes::IN_CALL,
        Err(NotClosed::Memory) => codes::NO_MEMORY,
    }
}

/// The code of a refusal.
fn refusal_code(refused: Refused) -> u32
    ensures { result ≡ refusal_code refused }
{
    match refused {
        Refused::NotOpen => codes::NOT_OPEN,
        Refused::InCall => codes::IN_CALL,
        Refused::NoCall => codes::NO_CALL,
        Refused::NoSteps => codes::NO_STEPS,
        Refused::Waiting => codes::WAITING,
    }
}

/// The code of a reply.
fn code_of(reply: Reply) -> u32
    ensures { result ≡ code_of reply }
{
    match reply {
        Reply::Bound { .. } => codes::BOUND,
        Reply::Exists { .. } => codes::EXISTS,
        Reply::Found { .. } => codes::FOUND,
        Reply::Missing => codes::MISSING,
        Reply::Listed { .. } => codes::LISTED,
        Reply::Released { .. } => codes::RELEASED,
        Reply::Absent => codes::ABSENT,
        Reply::Rebound => codes::REBOUND,
        Reply::TooBig { .. } => codes::TOO_BIG,
        Reply::Again { .. } => codes::AGAIN,
        Reply::Busy { .. } => codes::BUSY,
        Reply::NoTable { .. } => codes::NO_TABLE,
        Reply::NoNode => codes::NO_NODE,
        Reply::Pending { .. } => codes::PENDING,
        Reply::Elsewhere => codes::ELSEWHERE,
        Reply::Walked { .. } => codes::WALKED,
        Reply::Moved { .. } => codes::MOVED,
        Reply::Idle => codes::IDLE,
        Reply::Clear { .. } => codes::CLEAR,
        Reply::Counted { .. } => codes::COUNTED,
    }
}

/// The numbers of a reply.
fn fields_of(reply: Reply) -> CReply
    ensures { result ≡ fields_of reply }
{
    match reply {
        Reply::Bound { kick } | Reply::Released { kick } => CReply { kick, ..NOTHING },
        Reply::Exists { owner } | Reply::Found { owner } => CReply { owner, ..NOTHING },
        Reply::Listed { len } => CReply { len, ..NOTHING },
        Reply::TooBig { count } | Reply::Counted { count } => CReply { count, ..NOTHING },
        Reply::Again { table } => CReply { table, ..NOTHING },
        Reply::Busy { root, last } => CReply {
            table: root,
            last,
            ..NOTHING
        },
        Reply::NoTable { size } => CReply { size, ..NOTHING },
        Reply::Pending { caller, section } => CReply {
            caller,
            section,
            ..NOTHING
        },
        Reply::Walked { len, next } => CReply {
            len,
            next: CCursor::of(next),
            ..NOTHING
        },
        Reply::Moved { again } => CReply { again, ..NOTHING },
        Reply::Clear { returned } => CReply {
            returned,
            ..NOTHING
        },
        Reply::Missing
        | Reply::Absent
        | Reply::Rebound
        | Reply::NoNode
        | Reply::Elsewhere
        | Reply::Idle => NOTHING,
    }
}
