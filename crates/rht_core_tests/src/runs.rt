//! Runs replayed operation by operation. The old values are worked out by hand from the layout: in
//! a table of 8 nodes and 4 pages the node map is at 280, the page map at 281, node n from
//! 282 + 4 * n on, and the pages from 314 on. With the low hash port 5 has bucket 5 of 64, which is
//! at 314 + 5 = 319, and the marker of that place is 2 * 319 + 1 = 639.

mod asked;
mod batches;
mod binds;
mod closing;
mod lists;
mod refusals;
mod resizing;
mod returning;
mod tidying;
mod walking;

ghost use Rattle.std.specs.Prelude.{◌≡◌, ◌<◌, length, IfSome};

use asked::{Asked, Told};
use rht_core::{Event, State, Stepped, owners_of};
use rht_model::Reply;
use rht_policy::Mix;
use rht_words::{Config, Geometry, Hash, Op, Port, port_of, word_of};
use std::alloc::{AllocError, Global};
use std::fmt::Debug;
use std::process::Abort;
use std::test::Fail;

const NOTHING: Stepped = Stepped {
    did: None,
    reply: None,
};

const BOUND: Reply = Reply::Bound { kick: false };

const RELEASED: Reply = Reply::Released { kick: false };

const FIND_5: Asked = Asked::Find { port: 5 };

/// The port of net 3 with the number 5. With the low hash it has the bucket of port 5.
const NET_3_PORT_5: u64 = 3 * (1 << 32) + 5;

/// What a run is told next, and what is wanted of it.
#[derive(Clone, Copy)]
enum Row<'a> {
    /// An event without an operation.
    Quiet {
        told: Told,
    },
    /// One more caller, where the word of enrolled callers says this.
    Enrolls {
        old: u64,
    },
    /// A caller performs operations, which find these words. The last one may end its call.
    Steps {
        caller: u32,
        lines: &'a [(Op, u64)],
        end: Option<(Asked, Reply)>,
    },
    /// A caller is given a call, which runs to this reply.
    Replies {
        caller: u32,
        asked: Asked,
        reply: Reply,
    },
    /// The call that a caller is in runs to this reply.
    Finishes {
        caller: u32,
        asked: Asked,
        reply: Reply,
    },
    /// The last call of the first caller has shown these pairs, in this order.
    Shows {
        pairs: &'a [(u64, u32)],
    },
}

fn enrolls(old: u64) -> Row<'static> {
    Row::Enrolls { old }
}

fn begins(caller: u32, asked: Asked) -> Row<'static> {
    let told = Told::Begin { caller, asked };
    Row::Quiet { told }
}

fn idles(caller: u32) -> Row<'static> {
    let told = Told::Step { caller };
    Row::Quiet { told }
}

fn steps<'a>(caller: u32, lines: &'a [(Op, u64)]) -> Row<'a> {
    let end = None;
    Row::Steps { caller, lines, end }
}

fn ends<'a>(caller: u32, lines: &'a [(Op, u64)], asked: Asked, reply: Reply) -> Row<'a> {
    let end = Some((asked, reply));
    Row::Steps { caller, lines, end }
}

fn replies(asked: Asked, reply: Reply) -> Row<'static> {
    replies_to(0, asked, reply)
}

fn replies_to(caller: u32, asked: Asked, reply: Reply) -> Row<'static> {
    Row::Replies {
        caller,
        asked,
        reply,
    }
}

fn finishes(caller: u32, asked: Asked, reply: Reply) -> Row<'static> {
    Row::Finishes {
        caller,
        asked,
        reply,
    }
}

fn shows<'a>(pairs: &'a [(u64, u32)]) -> Row<'a> {
    Row::Shows { pairs }
}

fn bind(port: u64, owner: u32) -> Asked {
    Asked::Bind {
        port,
        owner,
        once: false,
    }
}

fn release(port: u64, owner: u32) -> Asked {
    Asked::Release { port, owner }
}

fn rebind(port: u64, owner: u32, new: u32) -> Asked {
    Asked::Rebind { port, owner, new }
}

/// A table of 8 nodes and 4 pages for one caller, with the low hash.
fn small() -> Config {
    Config {
        nodes: 8,
        pages: 4,
        hash: Hash::Low,
        ..Config::plain()
    }
}

/// The same for two callers.
fn for_two() -> Config {
    Config {
        callers: 2,
        ..small()
    }
}

/// The steps of a bind before its read section: of these free nodes it takes this one.
fn filled(free: u64, node: usize, port: u64, owner: u64) -> [(Op, u64); 5]
    requires { node < 8 }
{
    let start = 282 + 4 * node;
    [
        (Op::load(280), free),
        (Op::and(280, !(1 << node)), free),
        (Op::store(start + 1, port), 0),
        (Op::store(start + 2, owner), 0),
        (Op::store(start + 3, 0), 0),
    ]
}

/// The caller opens its read section, the word of which was this, and loads the current table.
fn opened(caller: usize, section: u64) -> [(Op, u64); 2]
    requires { caller < 16 }
{
    [(Op::add(8 + caller, 1), section), (Op::load(0), 0)]
}

/// The loads of the first table's shape and of its seed. It has 64 buckets.
fn located(seed: u64) -> [(Op, u64); 2] {
    [(Op::load(24), 6), (Op::load(25), seed)]
}

/// The steps of the first caller's first bind, which links node 0 into the empty bucket of port 5, in an
/// empty table, and closes its read section.
fn linked() -> [(Op, u64); 6] {
    [
        (Op::load(26), 0),
        (Op::load(2), 0),
        (Op::store(282, 639), 0),
        (Op::add(2, 1), 0),
        (Op::store(319, 2), 1),
        (Op::add(8, 1), 1),
    ]
}

/// Asserts that a value is this one.
fn assert_same<T: Copy + Debug + PartialEq>(rt: &impl Abort, found: T, want: T) {
    assert_eq!(rt; found, want);
}

/// A run so far: the table, and the ports that it has bound, with their owners; the one that was
/// bound last is the first.
#[derive(Drop)]
struct Run<M: Mix> {
    state: State<M>,
    geometry: Geometry,
    bound: Vec<(u64, u32)>,
}

/// The owners of the port among these bindings, in their order.
fn owners_in(alloc: Global, bound: &[(u64, u32)], port: u64) -> Result<Vec<u32>, AllocError> {
    let mut owners = Vec::new(alloc);
    for (at, owner) in bound {
        if *at == port {
            owners.push(*owner)?;
        }
    }
    Ok(owners)
}

/// The words stand for these owners of the port.
fn assert_owners(
    rt: &impl Abort,
    alloc: Global,
    geometry: Geometry,
    words: &[u64],
    port: u64,
    want: &[u32],
) -> Result<(), AllocError> {
    assert_eq!(rt; words.len(), geometry.words());
    let owners = owners_of(alloc, geometry, words, port_of(port))?;
    assert_same(rt, (port, owners.as_slice()), (port, want));
    Ok(())
}

/// The words stand for the owners of these ports, which are those of the binds that were made.
fn assert_bound<M: Mix>(rt: &impl Abort, alloc: Global, run: &Run<M>) -> Result<(), Fail> {
    let words = run.state.words();
    for port in [0, 1, 5, 6, 7, 8, 69, NET_3_PORT_5] {
        let want = owners_in(alloc, run.bound.as_slice(), port)?;
        assert_owners(rt, alloc, run.geometry, words, port, want.as_slice())?;
    }
    Ok(())
}

/// The place of the binding that is to go, if it is there.
fn place_in(bound: &[(u64, u32)], gone: (u64, u32)) -> Option<usize>
    ensures { IfSome result (λ at. at < length bound.now) }
{
    for at in 0..bound.len() {
        if bound[at] == gone {
            return Some(at);
        }
    }
    None
}

/// The call has had this reply. A release takes out the latest binding of its port and owner, and a rebind
/// puts another one in its place.
fn ended<M: Mix>(run: &mut Run<M>, asked: Asked, reply: Reply) -> Result<(), AllocError> {
    if let (Asked::Bind { port, owner, .. }, Reply::Bound { .. }) = (asked, reply) {
        run.bound.insert(0, (port, owner))?;
    }
    if let (Asked::Release { port, owner }, Reply::Released { .. }) = (asked, reply) {
        if let Some(at) = place_in(run.bound.as_slice(), (port, owner)) {
            run.bound.remove(at);
        }
    }
    if let (Asked::Rebind { port, owner, new }, Reply::Rebound) = (asked, reply) {
        if let Some(at) = place_in(run.bound.as_slice(), (port, owner)) {
            run.bound[at] = (port, new);
        }
    }
    Ok(())
}

/// What the run is told does this.
fn assert_told<M: Mix>(rt: &impl Abort, state: &mut State<M>, told: Told, want: Stepped)
    ensures { state.new.env ≡ state.old.env }
{
    let stepped = state.step(told.event());
    assert_same(rt, (told, stepped), (told, want));
}

/// What a call was answered, where its last line is this one.
fn end_at(end: Option<(Asked, Reply)>, is_last: bool) -> Option<(Asked, Reply)> {
    if is_last { end } else { None }
}

/// The caller's steps perform these operations, and the last one ends the call, where that is said. A
/// call that changes a binding does so before it closes its read section.
fn assert_steps<M: Mix>(
    rt: &impl Abort,
    alloc: Global,
    run: &mut Run<M>,
    caller: u32,
    lines: &[(Op, u64)],
    end: Option<(Asked, Reply)>,
) -> Result<(), Fail> {
    let mut left = lines.len();
    for line in lines {
        left = left.saturating_sub(1);
        let last = end_at(end, left == 0);
        if let Some((asked, reply)) = last {
            ended(run, asked, reply)?;
        }
        assert_bound(rt, alloc, run)?;
        let want = Stepped {
            did: Some(*line),
            reply: last.map(|(_, reply)| reply),
        };
        assert_told(rt, &mut run.state, Told::Step { caller }, want);
    }
    assert_bound(rt, alloc, run)
}

/// The call that the caller is in runs to this reply.
fn assert_reply<M: Mix>(
    rt: &impl Abort,
    alloc: Global,
    run: &mut Run<M>,
    caller: u32,
    asked: Asked,
    reply: Reply,
) -> Result<(), Fail> {
    for _ in 0..400 {
        let stepped = run.state.step(Event::Step { caller });
        if let Some(found) = stepped.reply {
            assert_same(rt, (asked, found), (asked, reply));
            ended(run, asked, reply)?;
            return assert_bound(rt, alloc, run);
        }
    }
    Err("a call without a reply".into())
}

/// These are the pairs of these ports, in this order.
fn assert_pairs(rt: &impl Abort, found: &[(Port, u32)], want: &[(u64, u32)]) {
    assert_same(rt, found.len(), want.len());
    for i in 0..want.len() {
        assert!(rt; i < found.len());
        let (port, owner) = found[i];
        assert_same(rt, (word_of(port), owner), want[i]);
    }
}

/// A table is opened with this config, and then the rows are as they say.
fn assert_run<M: Mix>(
    rt: &impl Abort,
    alloc: Global,
    config: Config,
    rows: &[Row<'_>],
) -> Result<(), Fail> {
    assert!(rt; config.is_settled());
    let state = State::<M>::open(alloc, config)?;
    assert!(rt; state.local(0).is_idle());
    assert!(rt; state.local(0).owners().is_empty());
    assert!(rt; state.local(0).pairs().is_empty());
    let mut run = Run {
        state,
        geometry: Geometry::new(config.nodes, config.pages, config.callers).ok_or("settled")?,
        bound: Vec::new(alloc),
    };
    for row in rows {
        match *row {
            Row::Quiet { told } => assert_told(rt, &mut run.state, told, NOTHING),
            Row::Enrolls { old } => {
                let did = Some((Op::add(4, 1), old));
                let want = Stepped { did, reply: None };
                assert_told(rt, &mut run.state, Told::Enroll, want);
            }
            Row::Steps { caller, lines, end } => {
                assert_steps(rt, alloc, &mut run, caller, lines, end)?;
            }
            Row::Replies {
                caller,
                asked,
                reply,
            } => {
                let told = Told::Begin { caller, asked };
                assert_told(rt, &mut run.state, told, NOTHING);
                assert_reply(rt, alloc, &mut run, caller, asked, reply)?;
            }
            Row::Finishes {
                caller,
                asked,
                reply,
            } => assert_reply(rt, alloc, &mut run, caller, asked, reply)?,
            Row::Shows { pairs } => assert_pairs(rt, run.state.local(0).pairs(), pairs),
        }
    }
    Ok(())
}

/// A caller is given a call, without an operation.
fn begin<M: Mix>(rt: &impl Abort, state: &mut State<M>, caller: u32, asked: Asked)
    ensures { state.new.env ≡ state.old.env }
{
    assert_told(rt, state, Told::Begin { caller, asked }, NOTHING);
}

/// Performs a caller's next operation, and answers the reply where that ends its call.
fn reply_of_step<M: Mix>(state: &mut State<M>, caller: u32) -> Option<Reply>
    ensures { state.new.env ≡ state.old.env }
{
    state.step(Event::Step { caller }).reply
}

/// Runs a caller's call to its reply.
fn reply_to<M: Mix>(
    rt: &impl Abort,
    state: &mut State<M>,
    caller: u32,
    asked: Asked,
) -> Option<Reply>
    ensures { state.new.env ≡ state.old.env }
{
    begin(rt, state, caller, asked);
    for _ in 0..100 {
        let reply = reply_of_step(state, caller);
        if reply.is_some() {
            return reply;
        }
    }
    None
}
