//! The script of a number: what was worked out by hand from the rule by which it is made.

use crate::asserts::assert_same;
use rht_model::Call;
use rht_script::generated;
use rht_words::{Config, Hash, Port};
use std::test::Fail;

/// A worker's bind of a port of its own, of net 0.
fn bind(worker: u32, number: u32) -> (u32, Call) {
    let call = Call::Bind {
        port: Port::plain(number),
        owner: worker,
        once: false,
    };
    (worker, call)
}

/// A worker's look-up.
fn find(worker: u32, number: u32) -> (u32, Call) {
    let port = Port::plain(number);
    (worker, Call::Find { port })
}

/// A worker's release of a port of its own.
fn release(worker: u32, number: u32) -> (u32, Call) {
    let call = Call::Release {
        port: Port::plain(number),
        owner: worker,
    };
    (worker, call)
}

/// How many commands are binds, look-ups and releases.
fn counted(commands: &[(u32, Call)]) -> [u32; 3] {
    let mut counts = [0u32, 0, 0];
    for (_, call) in commands {
        match call {
            Call::Bind { .. } => counts[0] = counts[0].wrapping_add(1),
            Call::Find { .. } => counts[1] = counts[1].wrapping_add(1),
            Call::Release { .. } => counts[2] = counts[2].wrapping_add(1),
            _ => {}
        }
    }
    counts
}

#[test]
fn makes_the_script_of_number_7(rt: HostRuntime) -> Result<(), Fail> {
    let script = generated(rt.alloc(), 7)?;
    let config = Config {
        nodes: 8_192,
        pages: 256,
        callers: 8,
        hint: 1_536,
        seed: 7,
        hash: Hash::Low,
        ..Config::plain()
    };
    assert_same(&rt, &script.config, &config, 7);
    assert_same(&rt, &script.config.starting_size(), &2_048, 7);
    let flags = (script.auto, script.schedule.is_empty(), script.is_sound());
    assert_same(&rt, &flags, &(true, true, true), 7);
    assert_same(&rt, &script.form, &1, 7);
    // Round 0 of worker 1, whose port is 10,000 + 7 + 0, and then round 1.
    let first = [
        bind(1, 10_007),
        find(1, 10_007),
        bind(1, 10_007),
        find(1, 10_007),
        find(1, 15_007),
        bind(1, 10_008),
        find(1, 10_008),
        release(1, 10_008),
        find(1, 10_008),
        find(1, 15_008),
    ];
    // Round 499 of worker 1 is odd, and so is that of worker 8: 80,000 + 7 + 499.
    let last = [
        bind(8, 80_506),
        find(8, 80_506),
        release(8, 80_506),
        find(8, 80_506),
        find(8, 85_506),
    ];
    assert!(rt; script.commands.len() == 20_000);
    assert_same(&rt, &&script.commands[..10], &first.as_slice(), "first");
    let middle = [find(1, 15_506), bind(2, 20_007)];
    assert_same(
        &rt,
        &&script.commands[2_499..2_501],
        &middle.as_slice(),
        "middle",
    );
    assert_same(&rt, &&script.commands[19_995..], &last.as_slice(), "last");
    Ok(())
}

#[test]
fn has_so_many_calls_of_each_kind(rt: HostRuntime) -> Result<(), Fail> {
    // For each of 8 workers 500 first binds and 250 more, 1,500 look-ups, and 250 releases. Of the
    // number 1,000,003 the last three digits are added to each port, and of 4,294,967,295 too.
    for (number, port) in [(7, 10_007), (1_000_003, 10_003), (4_294_967_295, 10_295)] {
        let script = generated(rt.alloc(), number)?;
        assert!(rt; script.commands.len() == 20_000);
        assert_same(&rt, &script.commands[0], &bind(1, port), number);
        let counts = counted(&script.commands);
        assert_same(&rt, &counts, &[6_000, 12_000, 2_000], number);
        assert_same(&rt, &script.config.seed, &number, number);
    }
    Ok(())
}
