//! Scripts done on a table. The replies are worked out by hand from what the commands say.

ghost use Rattle.std.specs.Prelude.{◌≡◌, false, IfOk};
ghost use Rattle.rht_model.specs.declared.history.Call.TheVariants.{Bind, Find, Release, Rebind};
ghost use Rattle.rht_policy.specs.Mix.{mix_named, low_mix};
ghost use Rattle.rht_script.specs.Sound.{IsSoundScript};
ghost use Rattle.rht_registry.specs.Outcomes.{IsOutcome};

use crate::asserts::{assert_bound, assert_pairs, assert_same};
use rht_io::{Gate, NoGate};
use rht_model::{Call, Closed, Replies, Reply};
use rht_policy::{Low, Mix};
use rht_registry::{Outcome, run_workers};
use rht_run::Table;
use rht_script::Script;
use rht_words::{Config, Hash, Kind, Port};
use std::alloc::{AllocError, Global};
use std::process::Abort;
use std::sync::atomic::{AtomicU32, Ordering};
use std::test::Fail;

const SMALL: Config = Config {
    kind: Kind::Single,
    nodes: 4,
    pages: 4,
    callers: 1,
    hint: 0,
    min: 4,
    max: 0,
    seed: 1,
    rewalks: 1,
    hash: Hash::Low,
    shrink: false,
};

fn bind(port: u32, owner: u32) -> Call
    ensures { result ≡ Bind port owner false }
{
    Call::Bind {
        port: Port::plain(port),
        owner,
        once: false,
    }
}

fn rebind(port: u32, owner: u32, new: u32) -> Call
    ensures { result ≡ Rebind port owner new }
{
    Call::Rebind {
        port: Port::plain(port),
        owner,
        new,
    }
}

fn release(port: u32, owner: u32) -> Call
    ensures { result ≡ Release port owner }
{
    Call::Release {
        port: Port::plain(port),
        owner,
    }
}

fn find(port: u32) -> Call
    ensures { result ≡ Find port }
{
    Call::Find {
        port: Port::plain(port),
    }
}

/// Binds ports of one bucket and of another, takes one out, gives one another owner, looks ports up,
/// and walks the table.
fn small_script<M: Mix>(alloc: Global) -> Result<Script, AllocError>
    ensures { IfOk result (λ script. low_mix ≡ mix_named script.config) }
{
    let commands = [
        (1, bind(69, 7)),
        (1, bind(5, 9)),
        (1, bind(5, 3)),
        (1, rebind(69, 7, 8)),
        (1, rebind(5, 7, 8)),
        (1, release(5, 9)),
        (1, bind(6, 3)),
        (1, bind(7, 1)),
        (1, rebind(6, 3, 4)),
        (1, find(69)),
        (1, find(5)),
        (1, Call::Count),
        (
            1,
            Call::Walk {
                from: None,
                limit: 4,
            },
        ),
    ];
    Ok(Script {
        config: SMALL,
        auto: false,
        form: 1,
        commands: Vec::from_slice(alloc, &commands)?,
        schedule: Vec::new(alloc),
    })
}

/// The replies, and what is bound once the table is closed.
fn closed<M: Mix>(
    alloc: Global,
    script: &Script,
    outcome: Outcome<M>,
) -> Result<(Vec<Replies>, Closed), AllocError>
    requires sound { IsSoundScript script.now }
    requires mix { M.mix_of ≡ mix_named script.now.config }
    requires outcome { IsOutcome M script.now outcome }
{
    match Table::close(alloc, outcome.table, outcome.passes) {
        Ok(closed) => Ok((outcome.replies, closed)),
        Err(_) => Err(AllocError),
    }
}

/// Counts what it hears, with the numbers that it hears.
#[derive(Drop)]
struct Counting {
    before: AtomicU32,
    after: AtomicU32,
}

/// The worker in hundreds, and the command.
fn numbered(worker: u32, index: u32) -> u32 {
    worker.wrapping_mul(100).wrapping_add(index)
}

impl Gate for Counting {
    fn before(&self, worker: u32, index: u32) {
        self.before
            .fetch_add(numbered(worker, index), Ordering::SeqCst);
    }

    fn after(&self, worker: u32, index: u32) {
        self.after
            .fetch_add(numbered(worker, index), Ordering::SeqCst);
    }
}

/// Asserts that these are the replies.
fn assert_replies(rt: &impl Abort, replies: &Replies, want: &[Reply]) {
    assert_same(rt, replies.len(), want.len());
    for i in 0..want.len() {
        assert!(rt; i < replies.len());
        assert_same(rt, (i, replies.reply(i)), (i, want[i]));
    }
}

#[test]
fn a_script_is_done_on_the_table(rt: HostRuntime) -> Result<(), Fail> {
    let script = small_script::<Low>(rt.alloc())?;
    assert!(rt; script.is_sound());
    let outcome = run_workers::<Low, _, _>(&rt, rt.alloc(), &script, &NoGate)?;
    let (replies, closed) = closed(rt.alloc(), &script, outcome)?;
    // There are four nodes. Before the last bind two were taken out, and two are of bindings: it finds none,
    // tidies, and has one of the two at its second try. The last rebind has the other one.
    let want = [
        Reply::Bound { kick: false },
        Reply::Bound { kick: false },
        Reply::Exists { owner: 9 },
        Reply::Rebound,
        Reply::Absent,
        Reply::Released { kick: false },
        Reply::Bound { kick: false },
        Reply::Bound { kick: false },
        Reply::Rebound,
        Reply::Found { owner: 8 },
        Reply::Missing,
        Reply::Counted { count: 3 },
        Reply::Walked { len: 3, next: None },
    ];
    assert!(rt; replies.len() == 1);
    assert_replies(&rt, &replies[0], &want);
    // Port 69 is in bucket 5.
    assert!(rt; replies[0].len() > 12);
    assert_pairs(&rt, replies[0].pairs(12), &[(69, 8), (6, 4), (7, 1)]);
    assert_pairs(&rt, replies[0].pairs(11), &[]);
    assert_bound(&rt, &closed, 64, &[(6, &[4]), (7, &[1]), (69, &[8])]);
    Ok(())
}

#[test]
fn the_gate_hears_of_each_command(rt: HostRuntime) -> Result<(), Fail> {
    let script = small_script::<Low>(rt.alloc())?;
    assert!(rt; script.is_sound());
    let gate = Counting {
        before: AtomicU32::new(0),
        after: AtomicU32::new(0),
    };
    run_workers::<Low, _, _>(&rt, rt.alloc(), &script, &gate)?;
    // Thirteen commands of worker 1, and the numbers from 1 to 13.
    assert_same(&rt, gate.before.load(Ordering::SeqCst), 1_391);
    assert_same(&rt, gate.after.load(Ordering::SeqCst), 1_391);
    Ok(())
}
