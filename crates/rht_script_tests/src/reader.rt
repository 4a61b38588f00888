//! Inputs that are scripts and inputs that are none. What is wanted of each was worked out by hand
//! from the rules of scripts, and stands beside it.

mod faulty_inputs;

use crate::asserts::assert_same;
use faulty_inputs::FAULTS;
use rht_model::Call;
use rht_script::{ReadError, Sched, ScriptFault, read};
use rht_words::{Config, Hash, Kind, Port};
use std::alloc::{AllocError, Global};
use std::process::Abort;
use std::test::Fail;

/// Asserts that this is the first fault of the bytes.
fn assert_fault(rt: &impl Abort, alloc: Global, bytes: &[u8], line: u32, cause: u8) {
    assert_fault_at(rt, alloc, "a long input", bytes, line, cause);
}

/// The same, and names the input.
fn assert_fault_at(rt: &impl Abort, alloc: Global, at: &str, bytes: &[u8], line: u32, cause: u8) {
    let fault = Some(ReadError::Fault(ScriptFault { line, cause }));
    assert_same(rt, &read(alloc, bytes).err(), &fault, at);
}

/// Asserts that the bytes are a script of so many commands.
fn assert_commands(
    rt: &impl Abort,
    alloc: Global,
    bytes: &[u8],
    commands: usize,
) -> Result<(), Fail> {
    let script = read(alloc, bytes)?;
    assert!(rt; script.commands.len() == commands);
    Ok(())
}

/// Asserts that each text has this first fault.
fn assert_faults(rt: &impl Abort, alloc: Global, faults: &[(&str, u32, u8)]) {
    for (text, line, cause) in faults {
        assert_fault_at(rt, alloc, text, text.as_bytes(), *line, *cause);
    }
}

#[test]
fn finds_the_first_fault(rt: HostRuntime) {
    assert_faults(&rt, rt.alloc(), FAULTS);
}

/// Asserts that the text is a script with this config and these commands.
fn assert_script(
    rt: &impl Abort,
    alloc: Global,
    text: &str,
    config: Config,
    commands: &[(u32, Call)],
) -> Result<(), Fail> {
    let script = read(alloc, text.as_bytes())?;
    assert_same(rt, &script.config, &config, text);
    assert_same(rt, &script.commands.as_slice(), &commands, text);
    let others = (script.auto, script.form, script.schedule.len());
    assert_same(rt, &others, &(true, 1, 0), text);
    assert_same(rt, &script.is_sound(), &true, text);
    Ok(())
}

/// Asserts that each text is such a script.
fn assert_scripts(
    rt: &impl Abort,
    alloc: Global,
    scripts: &[(&str, Config, &[(u32, Call)])],
) -> Result<(), Fail> {
    for (text, config, commands) in scripts {
        assert_script(rt, alloc, text, *config, commands)?;
    }
    Ok(())
}

#[test]
fn reads_scripts(rt: HostRuntime) -> Result<(), Fail> {
    let plain = Config::plain();
    // the input, the config that it stands for, and its commands
    let scripts: [(&str, Config, &[(u32, Call)]); 31] = [
        ("table single", plain, &[]),
        ("table single\n", plain, &[]),
        ("\n# a\n \t\r\n\ttable  single \r\n#b\n\n", plain, &[]),
        ("  # caf\u{e9}\ntable single\n#", plain, &[]),
        ("table single hint 96\n", Config { hint: 96, ..plain }, &[]),
        ("table single min 1\n", plain, &[]),
        ("table single min 3\n", plain, &[]),
        ("table single min 5\n", Config { min: 8, ..plain }, &[]),
        ("table single min 128\n", Config { min: 128, ..plain }, &[]),
        ("table single min 129\n", Config { min: 256, ..plain }, &[]),
        ("table single hash mix\n", plain, &[]),
        (
            "table single hash low rewalks 0 seed 0 pages 4\n",
            Config {
                hash: Hash::Low,
                rewalks: 0,
                seed: 0,
                pages: 4,
                ..plain
            },
            &[],
        ),
        // The first table has 131,072 buckets, which is 2,048 pages.
        (
            "table single seed 4294967295 hint 65536 rewalks 255 min 65536 pages 2048\n",
            Config {
                seed: 4294967295,
                hint: 65536,
                rewalks: 255,
                min: 65536,
                pages: 2048,
                ..plain
            },
            &[],
        ),
        (
            "table listed\n",
            Config {
                kind: Kind::Listed,
                ..plain
            },
            &[],
        ),
        (
            "table single shrink on\n",
            Config {
                shrink: true,
                ..plain
            },
            &[],
        ),
        ("table single shrink off\n", plain, &[]),
        (
            "table single work auto\n1 work\n",
            plain,
            &[(1, Call::Work)],
        ),
        (
            "table single workers 1\n1 find 0\n",
            plain,
            &[(
                1,
                Call::Find {
                    port: Port::plain(0),
                },
            )],
        ),
        (
            "table single workers 2\n2 find 0\n1 count\n2 work\n1 tidy\n2 walk\n",
            Config {
                callers: 2,
                ..plain
            },
            &[
                (
                    2,
                    Call::Find {
                        port: Port::plain(0),
                    },
                ),
                (1, Call::Count),
                (2, Call::Work),
                (1, Call::Tidy),
                (
                    2,
                    Call::Walk {
                        from: None,
                        limit: 4096,
                    },
                ),
            ],
        ),
        (
            "table listed workers 16 nodes 7\n16 find 0\n2 rebind 0 1 1\n1 walk\n",
            Config {
                kind: Kind::Listed,
                callers: 16,
                nodes: 7,
                ..plain
            },
            &[
                (
                    16,
                    Call::Find {
                        port: Port::plain(0),
                    },
                ),
                (
                    2,
                    Call::Rebind {
                        port: Port::plain(0),
                        owner: 1,
                        new: 1,
                    },
                ),
                (
                    1,
                    Call::Walk {
                        from: None,
                        limit: 7,
                    },
                ),
            ],
        ),
        ("table single nodes 1\n", Config { nodes: 1, ..plain }, &[]),
        (
            "table listed nodes 65536\n",
            Config {
                kind: Kind::Listed,
                nodes: 65536,
                ..plain
            },
            &[],
        ),
        // The greatest size is rounded down.
        ("table single max 4\n", Config { max: 4, ..plain }, &[]),
        ("table single max 7\n", Config { max: 4, ..plain }, &[]),
        ("table single max 8\n", Config { max: 8, ..plain }, &[]),
        (
            "table single max 131072 min 65536 hint 65536 pages 2048\n",
            Config {
                max: 131072,
                min: 65536,
                hint: 65536,
                pages: 2048,
                ..plain
            },
            &[],
        ),
        // 131,072 buckets would be wished for; 256 of them have room in 4 pages.
        (
            "table single hint 65536 pages 4 max 511 min 129\n",
            Config {
                hint: 65536,
                pages: 4,
                max: 256,
                min: 256,
                ..plain
            },
            &[],
        ),
        // 192 * 4 / 3 = 256 buckets have room in 4 pages.
        (
            "table single pages 00004 hint 192 min 256\n",
            Config {
                pages: 4,
                hint: 192,
                min: 256,
                ..plain
            },
            &[],
        ),
        (
            "table single\n1 bind 80 100\n1 find 80\n1 release 80 100",
            plain,
            &[
                (
                    1,
                    Call::Bind {
                        port: Port::plain(80),
                        owner: 100,
                        once: false,
                    },
                ),
                (
                    1,
                    Call::Find {
                        port: Port::plain(80),
                    },
                ),
                (
                    1,
                    Call::Release {
                        port: Port::plain(80),
                        owner: 100,
                    },
                ),
            ],
        ),
        (
            "table single\n1 all 80\n1 rebind 80 100 4294967295\n1 count\n",
            plain,
            &[
                (
                    1,
                    Call::All {
                        port: Port::plain(80),
                    },
                ),
                (
                    1,
                    Call::Rebind {
                        port: Port::plain(80),
                        owner: 100,
                        new: 4294967295,
                    },
                ),
                (1, Call::Count),
            ],
        ),
        (
            "table single\r\n\r\n\t1 find\t0 \r\n# b\n00000000000000000001 find 00000000004294967295\n\n",
            plain,
            &[
                (
                    1,
                    Call::Find {
                        port: Port::plain(0),
                    },
                ),
                (
                    1,
                    Call::Find {
                        port: Port::plain(4294967295),
                    },
                ),
            ],
        ),
    ];
    assert_scripts(&rt, rt.alloc(), &scripts)
}

/// Asserts that the text is a script with so many commands and this schedule.
fn assert_schedule(
    rt: &impl Abort,
    alloc: Global,
    text: &str,
    commands: usize,
    schedule: &[Sched],
) -> Result<(), Fail> {
    let script = read(alloc, text.as_bytes())?;
    assert_same(rt, &script.commands.len(), &commands, text);
    assert_same(rt, &script.schedule.as_slice(), &schedule, text);
    assert_same(rt, &script.is_sound(), &true, text);
    Ok(())
}

#[test]
fn reads_schedules(rt: HostRuntime) -> Result<(), Fail> {
    let one_step = Sched::Step {
        worker: 1,
        number: 1,
    };
    let one_skip = Sched::Skip {
        worker: 1,
        number: 1,
    };
    let one_finish = Sched::Finish {
        worker: 1,
        number: 1,
    };
    // the input, the number of its commands, and its schedule
    let scripts: [(&str, usize, &[Sched]); 6] = [
        ("table single\nstep 1 1\n", 0, &[one_step]),
        ("table single\nskip 1 1", 0, &[one_skip]),
        ("table listed\n\tfinish  01 001\r\n", 0, &[one_finish]),
        // Lines of the schedule keep their order, and so do commands, wherever they stand.
        (
            "table single\nfinish 1 1\n1 find 80\nstep 1 1\n# b\n1 count\n1 work\nskip 1 1\n",
            3,
            &[one_finish, one_step, one_skip],
        ),
        (
            "table single\n1 find 80\nstep 1 1\nstep 1 1\n",
            1,
            &[one_step, one_step],
        ),
        (
            "table single workers 16\nstep 16 1000000\nskip 2 999999\nfinish 3 20\n",
            0,
            &[
                Sched::Step {
                    worker: 16,
                    number: 1_000_000,
                },
                Sched::Skip {
                    worker: 2,
                    number: 999_999,
                },
                Sched::Finish {
                    worker: 3,
                    number: 20,
                },
            ],
        ),
    ];
    for (text, commands, schedule) in scripts {
        assert_schedule(&rt, rt.alloc(), text, commands, schedule)?;
    }
    Ok(())
}

#[test]
fn reads_who_runs_the_work(rt: HostRuntime) -> Result<(), Fail> {
    let scripts = [
        ("table single\n", true),
        ("table single work auto\n", true),
        ("table listed work manual\n1 work\n", false),
        ("table single shrink on work manual hash low\n", false),
    ];
    for (text, auto) in scripts {
        let script = read(rt.alloc(), text.as_bytes())?;
        assert_same(&rt, &(script.auto, script.is_sound()), &(auto, true), text);
    }
    Ok(())
}

#[test]
fn reads_forms(rt: HostRuntime) -> Result<(), Fail> {
    // the input, its form, and the net of the port of its first command
    let scripts = [
        ("table single\n1 find 80\n", 1, 0),
        ("table single form 1\n1 find 80\n", 1, 0),
        ("table single form 2\n1 find 80\n", 2, 0),
        ("table single form 2\n1 find 0.80\n", 2, 0),
        ("table listed workers 2 form 002\n2 find 3.080\n", 2, 3),
        ("table single form 2 seed 1\n1 find 65535.80", 2, 65_535),
    ];
    for (text, form, net) in scripts {
        let script = read(rt.alloc(), text.as_bytes())?;
        assert_same(&rt, &(script.form, script.is_sound()), &(form, true), text);
        let find = Call::Find {
            port: Port { net, number: 80 },
        };
        assert!(rt; script.commands.len() == 1);
        assert_same(&rt, &script.commands[0].1, &find, text);
    }
    Ok(())
}

/// Such a byte so many times, and then the text.
fn padded(alloc: Global, byte: u8, count: usize, text: &str) -> Result<Vec<u8>, AllocError> {
    let mut bytes = vec![in alloc; byte; count]?;
    bytes.extend_from_slice(text.as_bytes())?;
    Ok(bytes)
}

#[test]
fn reads_lines_of_256_bytes(rt: HostRuntime) -> Result<(), Fail> {
    let alloc = rt.alloc();
    // The text has 12 bytes.
    let table = padded(alloc, b' ', 244, "table single\n")?;
    assert_commands(&rt, alloc, &table, 0)?;
    let cases = [
        (b' ', 245, "table single\n", 1, 6),
        // A line that is too long is so before anything else that is wrong with it, or skips it.
        (b'x', 257, "\ntable single\n", 1, 6),
        (b'#', 257, "", 1, 6),
        (b'#', 256, "\ntable single\n1 lookup\n", 3, 2),
    ];
    for (byte, count, text, line, cause) in cases {
        assert_fault(&rt, alloc, &padded(alloc, byte, count, text)?, line, cause);
    }
    Ok(())
}

/// The table line, then so many lines, and then the text.
fn repeated(alloc: Global, line: &str, count: usize, text: &str) -> Result<Vec<u8>, AllocError> {
    let mut bytes = "table single\n".as_bytes().to_vec(alloc)?;
    bytes.extend_from_slice(line.repeat(alloc, count)?.as_bytes())?;
    bytes.extend_from_slice(text.as_bytes())?;
    Ok(bytes)
}

#[test]
fn reads_a_million_lines(rt: HostRuntime) -> Result<(), Fail> {
    let alloc = rt.alloc();
    let mut bytes = repeated(alloc, "1 bind 80 5\n", 999_999, "")?;
    assert_commands(&rt, alloc, &bytes, 999_999)?;
    // One line more, also where it is blank.
    bytes.push(b'\n')?;
    assert_fault(&rt, alloc, &bytes, 1_000_001, 5);
    // A line that is too long besides is one too many first.
    bytes.extend_from_slice(&padded(alloc, b'x', 257, "")?)?;
    assert_fault(&rt, alloc, &bytes, 1_000_001, 5);
    // Blank lines alone: a million of them, and one more.
    for (text, cause) in [("", 1), ("\n", 5)] {
        let blank = padded(alloc, b'\n', 1_000_000, text)?;
        assert_fault(&rt, alloc, &blank, 1_000_001, cause);
    }
    // A fault in an earlier line comes first.
    let faulty = repeated(alloc, "\n", 999_998, "1 find x\n1 lookup\n")?;
    assert_fault(&rt, alloc, &faulty, 1_000_000, 3);
    Ok(())
}

#[test]
fn reads_sixteen_mebibytes(rt: HostRuntime) -> Result<(), Fail> {
    let alloc = rt.alloc();
    // The table line has 13 bytes, each line 28, and the last one 23: 16,777,216 in all.
    let line = "1 find 00000000000000000080\n";
    let mut bytes = repeated(alloc, line, 599_185, "1 find 000000000000080\n")?;
    assert!(rt; bytes.len() == 16_777_216);
    assert_commands(&rt, alloc, &bytes, 599_186)?;
    // One byte more stands behind 599,187 line feeds.
    bytes.push(b'\n')?;
    assert_fault(&rt, alloc, &bytes, 599_188, 9);
    // Too many bytes come before any other fault, as no table line and a line that is too long.
    for (count, cause) in [(16_777_217, 9), (16_777_216, 6)] {
        assert_fault(&rt, alloc, &padded(alloc, b'x', count, "")?, 1, cause);
    }
    Ok(())
}
