//! Scripts that can be run and scripts that can't, made by hand.

use crate::asserts::assert_same;
use rht_model::{Call, Cursor};
use rht_script::{Sched, Script};
use rht_words::{Config, Kind, Port};
use std::alloc::{AllocError, Global};
use std::test::Fail;

/// A cursor, which no script's walk has.
const CURSOR: Cursor = Cursor {
    serial: 0,
    bucket: 0,
};

/// A script of this form, of one command and one line of a schedule.
fn script_of(
    alloc: Global,
    form: u32,
    config: Config,
    command: (u32, Call),
    line: Sched,
) -> Result<Script, AllocError> {
    Ok(Script {
        config,
        auto: true,
        form,
        commands: vec![in alloc; command]?,
        schedule: vec![in alloc; line]?,
    })
}

/// A look-up of port 80 of this net.
fn find_in(net: u16) -> Call {
    Call::Find {
        port: Port { net, number: 80 },
    }
}

/// A look-up of port 80.
fn find() -> Call {
    find_in(0)
}

/// A rebind of port 80.
fn rebind() -> Call {
    Call::Rebind {
        port: Port::plain(80),
        owner: 1,
        new: 2,
    }
}

#[test]
fn tells_scripts_that_can_be_run(rt: HostRuntime) -> Result<(), Fail> {
    let config = Config {
        nodes: 16,
        pages: 4,
        callers: 2,
        ..Config::plain()
    };
    let listed = Config {
        kind: Kind::Listed,
        ..config
    };
    let last = Sched::Finish {
        worker: 2,
        number: 1_000_000,
    };
    let cases = [
        (config, (2, find()), last, true),
        // The config isn't settled: 5 is no power of two, and 4 pages have 256 buckets.
        (Config { min: 5, ..config }, (2, find()), last, false),
        (
            Config {
                hint: 300,
                ..config
            },
            (2, find()),
            last,
            false,
        ),
        // Workers are counted from 1, and there are two.
        (config, (0, find()), last, false),
        (config, (3, find()), last, false),
        (
            config,
            (2, find()),
            Sched::Step {
                worker: 0,
                number: 1,
            },
            false,
        ),
        (
            config,
            (2, find()),
            Sched::Skip {
                worker: 3,
                number: 1,
            },
            false,
        ),
        (
            config,
            (2, find()),
            Sched::Step {
                worker: 1,
                number: 0,
            },
            false,
        ),
        (
            config,
            (2, find()),
            Sched::Skip {
                worker: 1,
                number: 1_000_001,
            },
            false,
        ),
        // A bind is tried until it ends, a rebind is in tables of both kinds, and a walk goes over all.
        (
            config,
            (
                1,
                Call::Bind {
                    port: Port::plain(80),
                    owner: 1,
                    once: true,
                },
            ),
            last,
            false,
        ),
        (config, (1, rebind()), last, true),
        (listed, (1, rebind()), last, true),
        (
            config,
            (
                1,
                Call::Walk {
                    from: None,
                    limit: 16,
                },
            ),
            last,
            true,
        ),
        (
            config,
            (
                1,
                Call::Walk {
                    from: None,
                    limit: 15,
                },
            ),
            last,
            false,
        ),
        (
            config,
            (
                1,
                Call::Walk {
                    from: Some(CURSOR),
                    limit: 16,
                },
            ),
            last,
            false,
        ),
    ];
    for (config, command, line, sound) in cases {
        let script = script_of(rt.alloc(), 1, config, command, line)?;
        assert_same(&rt, &script.is_sound(), &sound, &script);
    }
    Ok(())
}

#[test]
fn tells_ports_that_a_form_can_name(rt: HostRuntime) -> Result<(), Fail> {
    // the form, the net of the port, and whether the script can be run
    let cases = [
        (1, 0, true),
        (2, 0, true),
        (1, 1, false),
        (1, 65_535, false),
        (2, 1, true),
        (2, 65_535, true),
        (0, 0, false),
        (3, 0, false),
        (3, 1, false),
    ];
    let line = Sched::Step {
        worker: 1,
        number: 1,
    };
    for (form, net, sound) in cases {
        let command = (1, find_in(net));
        let script = script_of(rt.alloc(), form, Config::plain(), command, line)?;
        assert_same(&rt, &script.is_sound(), &sound, (form, net));
    }
    Ok(())
}
