//! `rht_bench` measures the calls of a table. It is no part of the product.
//!
//! Stands on `rht_run`, and uses only its public calls. Standard output has how many calls had the
//! reply that they must have, which no schedule of the threads changes; standard error has the
//! nanoseconds a call, and behind them how often the table was resized beside the calls and the longest
//! look-up. Its words are the scale, the name of a row, a number of threads and the net of the ports; without
//! them it measures little, or all rows, on ports of net 0. `tools/dev bench` runs it beside
//! `bench/floor.c`, which does the same in C and has the same rows, and these words but for the net.
//! Read `src/rows.rt` first, which says what a row is, and then `src/loops.rt`, which has what is
//! timed.
#![tactic(auto)]

mod clock;
mod gate;
mod loops;
mod measure;
mod resizing;
mod rows;

use measure::measure;
use rht_policy::{Lookup3, Low};
use rht_words::Hash;
use rows::{Row, Scale, WORKLOADS, Workload};
use std::alloc::Global;
use std::rt::Clock;
use std::sync::Wait;
use std::thread::Threads;
use std::{env, io};

fn main(rt: HostRuntime) -> io::Result<()> {
    let mut args = env::args(&rt)?.skip(1);
    let times = args.next();
    let name = args.next();
    let threads = match args.next() {
        Some(threads) => Some(number_of(&threads)?),
        None => None,
    };
    let net = match args.next() {
        Some(net) => net_of(&net)?,
        None => 0,
    };
    let scale = match times {
        Some(times) => Scale::large(number_of(&times)?, net),
        None => Scale::small(),
    };
    let wanted = Wanted { name, threads };
    for workload in WORKLOADS {
        print_workload(&rt, rt.alloc(), scale, workload, &wanted)?;
    }
    Ok(())
}

/// A word as a number. One that is none is refused.
fn number_of(word: &str) -> io::Result<u32> {
    match word.parse::<u32>() {
        Ok(number) => Ok(number),
        Err(_) => Err(io::Error::from(io::ErrorKind::InvalidInput)),
    }
}

/// A word as a net. One that is none is refused.
fn net_of(word: &str) -> io::Result<u16> {
    match word.parse::<u16>() {
        Ok(net) => Ok(net),
        Err(_) => Err(io::Error::from(io::ErrorKind::InvalidInput)),
    }
}

/// Which rows are measured: those of this name, where one is given that isn't empty, and of so many
/// threads, where they are given.
#[derive(Drop)]
struct Wanted {
    name: Option<String>,
    threads: Option<u32>,
}

impl Wanted {
    /// Whether the row of this name is one.
    fn has(&self, name: &str, threads: u32) -> bool {
        let named = match &self.name {
            Some(wanted) => wanted.is_empty() || wanted.as_str() == name,
            None => true,
        };
        named && self.threads.unwrap_or(threads) == threads
    }
}

/// Measures the rows of a workload that are wanted, and prints a line of each.
fn print_workload<R: Threads + Wait + Sync + Clock + Print + Eprint>(
    rt: &R,
    alloc: Global,
    scale: Scale,
    workload: Workload,
    wanted: &Wanted,
) -> io::Result<()> {
    for ports in [scale.few, scale.many] {
        let name = format!(in alloc; "{}_of_{ports}", workload.name())?;
        for threads in workload.threads() {
            if wanted.has(name.as_str(), threads) {
                print_row(
                    rt,
                    alloc,
                    name.as_str(),
                    scale.row(workload, ports, threads),
                )?;
            }
        }
    }
    Ok(())
}

/// Measures a row, and prints its name, its threads and its calls, and beside that their time.
fn print_row<R: Threads + Wait + Sync + Clock + Print + Eprint>(
    rt: &R,
    alloc: Global,
    name: &str,
    row: Row,
) -> io::Result<()> {
    let measured = match row.config.hash {
        Hash::Mix => measure::<Lookup3, R>(rt, alloc, row)?,
        Hash::Low => measure::<Low, R>(rt, alloc, row)?,
    };
    let threads = row.threads;
    println!(rt; "{name} {threads} {}", measured.calls)?;
    let hundredths = measured.hundredths_a_call();
    eprintln!(rt;
        "{name} {threads} {}.{:02} {} {}",
        hundredths / 100,
        hundredths % 100,
        measured.moved,
        measured.longest
    )
}
