//! The script that is made from a number. Each of its workers has ports of its own, so how these are
//! bound in the end doesn't depend on how the workers run beside each other.
//!
//! Stands on `rht_model` and `rht_words`. Read `specs/Generated.antt` first.

ghost use Rattle.std.specs.Prelude.{◌≡◌, ◌<◌, ◌≤◌, ◌++◌, ◌==◌, IfOk, OnOk, false};
ghost use Rattle.rht_words.specs.Settled.{IsSettled};
ghost use Rattle.rht_script.specs.Generated.{generated_said, generated_config, worker_commands, round_commands, middle_call};
ghost use Rattle.rht_script.specs.Reading.{said_by};
ghost use Rattle.rht_script.specs.Sound.{IsSoundScript};

use crate::script::{ONE_NUMBER, Script};
use rht_model::Call;
use rht_words::{Config, Hash, Port};
use std::alloc::{AllocError, Global};

/// How many workers the script has.
const WORKERS: u32 = 8;

/// How many rounds of five commands each of them goes.
const ROUNDS: u32 = 500;

/// Makes the script of this number: 20,000 commands, 2,500 of each of 8 workers, and no schedule. Its
/// last three digits are added to each port, and all of it is the table's seed. Each port is of net
/// 0, and the script is of form 1.
///
/// Memory is taken for the commands alone.
pub fn generated(alloc: Global, number: u32) -> Result<Script, AllocError>
    ensures script { IfOk result (λ script. said_by script ≡ generated_said number) }
    ensures sound { IfOk result IsSoundScript }
{
    let mut commands = Vec::new(alloc);
    for i in 0..WORKERS {
        add_worker(&mut commands, number % 1_000, i + 1)?;
    }
    Ok(Script {
        config: config(number),
        auto: true,
        form: ONE_NUMBER,
        commands,
        schedule: Vec::new(alloc),
    })
}

/// What the table is opened with. It has 2,048 buckets.
fn config(number: u32) -> Config
    ensures { result ≡ generated_config number }
{
    Config {
        nodes: 8_192,
        pages: 256,
        callers: WORKERS,
        hint: 1_536,
        seed: number,
        hash: Hash::Low,
        ..Config::plain()
    }
}

/// Adds the commands of a worker behind those of the workers before it. The worker's number tells
/// the ten thousands of its ports, which begin this far behind them.
fn add_worker(commands: &mut Vec<(u32, Call)>, offset: u32, worker: u32) -> Result<(), AllocError>
    requires offset { offset < 1000 }
    requires worker { worker ≤ 8 }
    ensures { OnOk result (commands.new.items ≡ commands.old.items ++ worker_commands offset worker) }
{
    for round in 0..ROUNDS {
        let port = 10_000 * worker + offset + round;
        add_round(commands, worker, port, round % 2 == 0)?;
    }
    Ok(())
}

/// Adds the commands of a worker's round: all but the last ask about the port of the round, which
/// has this number in net 0.
fn add_round(
    commands: &mut Vec<(u32, Call)>,
    worker: u32,
    port: u32,
    even: bool,
) -> Result<(), AllocError>
    requires { port < 100000 }
    ensures { OnOk result (commands.new.items ≡ commands.old.items ++ round_commands worker port even) }
{
    let other = Port::plain(port + 5_000);
    let port = Port::plain(port);
    let bind = Call::Bind {
        port,
        owner: worker,
        once: false,
    };
    let middle = middle(worker, port, even);
    commands.extend_from_slice(&[
        (worker, bind),
        (worker, Call::Find { port }),
        (worker, middle),
        (worker, Call::Find { port }),
        (worker, Call::Find { port: other }),
    ])
}

/// What a worker asks of its port in the middle of a round.
fn middle(worker: u32, port: Port, even: bool) -> Call
    ensures { result ≡ middle_call worker port even }
{
    if even {
        Call::Bind {
            port,
            owner: worker,
            once: false,
        }
    } else {
        Call::Release {
            port,
            owner: worker,
        }
    }
}
