//! Tables that grow and shrink: what each script prints, by hand from the thresholds.

use crate::asserts::{WHOLE, add_lines, assert_left, run_on};
use std::alloc::Global;
use std::process::Abort;
use std::sync::Wait;
use std::test::Fail;
use std::thread::Threads;

/// A part of a text: lines so many times, or a line for each of so many ports, or for each such a line that
/// has its port once more at its end.
#[derive(Clone, Copy)]
enum Part {
    Lines(u32, &'static str),
    Each(&'static str, Ports, &'static str),
    Pairs(&'static str, Ports, &'static str),
}

/// Ports from the first one on, each so much greater than the one before, and how many.
#[derive(Clone, Copy)]
struct Ports(u32, u32, u32);

/// The text of these parts.
fn written(alloc: Global, parts: &[Part]) -> Result<String, Fail> {
    let mut text = String::new(alloc);
    for part in parts {
        match *part {
            Part::Lines(count, lines) => add_lines(&mut text, count, lines)?,
            Part::Each(before, ports, after) => {
                add_each(alloc, &mut text, before, ports, after, false)?;
            }
            Part::Pairs(before, ports, between) => {
                add_each(alloc, &mut text, before, ports, between, true)?;
            }
        }
    }
    Ok(text)
}

fn add_each(
    alloc: Global,
    text: &mut String,
    before: &str,
    ports: Ports,
    after: &str,
    twice: bool,
) -> Result<(), Fail> {
    let Ports(first, step, count) = ports;
    let mut port = first;
    for _ in 0..count {
        text.push_str(&format!(in alloc; "{before}{port}{after}")?)?;
        if twice {
            text.push_str(&format!(in alloc; "{port}\n")?)?;
        }
        port = port.wrapping_add(step);
    }
    Ok(())
}

/// Asserts that the script of the first parts is answered by the text of the others.
fn assert_written<R: Threads + Wait + Sync + Abort>(
    rt: &R,
    alloc: Global,
    script: &[Part],
    text: &[Part],
) -> Result<(), Fail> {
    let script = written(alloc, script)?;
    let text = written(alloc, text)?;
    let left = run_on(rt, alloc, &["run"], &script, WHOLE)?;
    assert_left(rt, &left, 0, &text, "", &script);
    Ok(())
}

/// Asserts that of each script and text.
fn assert_cases<R: Threads + Wait + Sync + Abort>(
    rt: &R,
    alloc: Global,
    cases: &[(&[Part], &[Part])],
) -> Result<(), Fail> {
    for (script, text) in cases {
        assert_written(rt, alloc, script, text)?;
    }
    Ok(())
}

#[test]
fn tables_grow_and_shrink(rt: HostRuntime) -> Result<(), Fail> {
    use Part::{Each, Lines};
    // Each script, and its text.
    let cases: [(&[Part], &[Part]); 8] = [
        // Of 64 buckets 48 are three quarters, and 49 are more.
        (
            &[
                Lines(1, "table single hash low work manual\n"),
                Each("1 bind ", Ports(0, 1, 48), " 1\n"),
                Lines(1, "1 work\n1 bind 48 1\n1 work\n"),
            ],
            &[
                Lines(48, "1: bound\n"),
                Lines(1, "1: idle\n1: bound\n1: moved\n"),
                Each("port ", Ports(0, 1, 49), ": 1\n"),
                Lines(1, "size 128 keys 49\n"),
            ],
        ),
        // A worker does that by itself, but where the script says manual.
        (
            &[
                Lines(1, "table single hash low\n"),
                Each("1 bind ", Ports(0, 1, 49), " 1\n"),
                Lines(1, "1 work\n"),
            ],
            &[
                Lines(49, "1: bound\n"),
                Lines(1, "1: idle\n"),
                Each("port ", Ports(0, 1, 49), ": 1\n"),
                Lines(1, "size 128 keys 49\n"),
            ],
        ),
        // Of 128 buckets 38 are three tenths, and 37 are fewer: 37 * 3 / 2 = 55, which takes 64.
        (
            &[
                Lines(1, "table single hint 96 shrink on hash low work manual\n"),
                Each("1 bind ", Ports(0, 1, 38), " 1\n"),
                Lines(1, "1 work\n1 release 37 1\n1 work\n"),
            ],
            &[
                Lines(38, "1: bound\n"),
                Lines(1, "1: idle\n1: released\n1: moved\n"),
                Each("port ", Ports(0, 1, 37), ": 1\n"),
                Lines(1, "size 64 keys 37\n"),
            ],
        ),
        // By itself too, and not at all where shrinking is off.
        (
            &[
                Lines(1, "table listed work auto hint 96 hash low shrink on\n"),
                Each("1 bind ", Ports(0, 1, 38), " 1\n"),
                Lines(1, "1 release 37 1\n1 work\n"),
            ],
            &[
                Lines(38, "1: bound\n"),
                Lines(1, "1: released\n1: idle\n"),
                Each("port ", Ports(0, 1, 37), ": 1\n"),
                Lines(1, "size 64 keys 37\n"),
            ],
        ),
        (
            &[
                Lines(1, "table single hint 96 shrink off hash low\n"),
                Each("1 bind ", Ports(0, 1, 38), " 1\n"),
                Lines(1, "1 release 37 1\n1 work\n"),
            ],
            &[
                Lines(38, "1: bound\n"),
                Lines(1, "1: released\n1: idle\n"),
                Each("port ", Ports(0, 1, 37), ": 1\n"),
                Lines(1, "size 128 keys 37\n"),
            ],
        ),
        // Ports of one chain: the seventeenth finds 16 there and attaches a table, and the thirty-third
        // finds 16 there too, while the first table is still the current one.
        (
            &[
                Lines(1, "table single hash low work manual\n"),
                Each("1 bind ", Ports(0, 64, 32), " 1\n"),
                Lines(1, "1 bind 2048 1\n1 work\n1 find 2048\n"),
            ],
            &[
                Lines(32, "1: bound\n"),
                Lines(1, "1: busy 0 1\n1: moved\n1: missing\n"),
                Each("port ", Ports(0, 64, 32), ": 1\n"),
                Lines(1, "size 64 keys 32\n"),
            ],
        ),
        // The table of 256 behind the first is nested, since two pages are left: its top page and one page of
        // buckets. No page is left for the bucket of 130, in whose page the bucket of 133 isn't.
        (
            &[
                Lines(1, "table single pages 4 hint 96 hash low work manual\n"),
                Each("1 bind ", Ports(0, 1, 130), " 1\n"),
                Lines(
                    1,
                    "1 bind 130 1\n1 bind 133 1\n1 find 130\n1 find 129\n1 work\n",
                ),
            ],
            &[
                Lines(130, "1: bound\n"),
                Lines(
                    1,
                    "1: notable 256\n1: bound\n1: missing\n1: found 1\n1: notable 256\n",
                ),
                Each("port ", Ports(0, 1, 130), ": 1\n"),
                Lines(1, "port 133: 1\nsize 128 keys 131\n"),
            ],
        ),
        // With two levels of entries: four pages are left. The bind of 1 enters the last of them as a page of
        // entries, and finds none for the buckets behind it.
        (
            &[
                Lines(
                    1,
                    "table single nodes 32 pages 132 hint 6144 hash low work manual\n",
                ),
                Each("1 bind ", Ports(0, 8192, 17), " 1\n"),
                Lines(
                    1,
                    "1 bind 1 1\n1 find 1\n1 bind 2 1\n1 bind 128 1\n1 find 128\n1 find 131072\n1 rebind 128 1 2\n1 release 131072 1\n1 find 131072\n1 work\n",
                ),
            ],
            &[
                Lines(17, "1: bound\n"),
                Lines(
                    1,
                    "1: notable 8192\n1: missing\n1: notable 8192\n1: bound\n1: found 1\n1: found 1\n1: rebound\n1: released\n1: missing\n1: notable 8192\n",
                ),
                Lines(1, "port 0: 1\nport 128: 2\n"),
                Each("port ", Ports(8192, 8192, 15), ": 1\n"),
                Lines(1, "size 8192 keys 17\n"),
            ],
        ),
    ];
    assert_cases(&rt, rt.alloc(), &cases)
}

#[test]
fn tables_come_back(rt: HostRuntime) -> Result<(), Fail> {
    use Part::{Each, Lines};
    let alloc = rt.alloc();
    // Eight times a table is left behind, and there are eight in all. Each work gives the one back that
    // the work before it retired.
    let ports = Ports(1, 1, 3);
    let [binds, releases] = ["1 bind ", "1 release "].map(|word| Each(word, ports, " 10\n"));
    let work = Lines(1, "1 work\n");
    let script = [
        Lines(
            1,
            "table single hint 1 shrink on hash low work manual\n1 bind 0 10\n",
        ),
        binds,
        work,
        releases,
        work,
        binds,
        work,
        releases,
        work,
        binds,
        work,
        releases,
        work,
        binds,
        work,
        releases,
        work,
    ];
    let text = [
        Lines(1, "1: bound\n"),
        Lines(
            4,
            "1: bound\n1: bound\n1: bound\n1: moved\n1: released\n1: released\n1: released\n1: moved\n",
        ),
        Lines(1, "port 0: 10\nsize 4 keys 1\n"),
    ];
    assert_written(&rt, alloc, &script, &text)?;
    let cases: [(&[Part], &[Part]); 2] = [
        // Ports of one chain. By itself the worker moves all of them behind each bind from the seventeenth
        // on, that is nine times.
        (
            &[
                Lines(1, "table single hash low\n"),
                Each("1 bind ", Ports(0, 64, 25), " 1\n"),
                Lines(1, "1 count\n"),
            ],
            &[
                Lines(25, "1: bound\n"),
                Lines(1, "1: count 25\n"),
                Each("port ", Ports(0, 64, 25), ": 1\n"),
                Lines(1, "size 64 keys 25\n"),
            ],
        ),
        // Ports of one chain in any table that there may be. The last bind finds 48 ports in 64 buckets,
        // attaches a table of the same size, and binds the 49th port in that. So one of 128 is due.
        (
            &[
                Lines(1, "table single nodes 64 hash low\n"),
                Each("1 bind ", Ports(0, 262_144, 49), " 1\n"),
            ],
            &[
                Lines(49, "1: bound\n"),
                Each("port ", Ports(0, 262_144, 49), ": 1\n"),
                Lines(1, "size 128 keys 49\n"),
            ],
        ),
    ];
    assert_cases(&rt, alloc, &cases)
}

/// In a table of 256 buckets, in the pages 0 to 3 of seven, 40 ports are bound, and a work moves them to one
/// of 64, in page 4. The first one comes back with the next work, so its pages stay taken when 26 further
/// ports are bound. The bind of port 65 attaches a table of 128, which is nested for that: its top page is
/// page 5, and its page for the odd buckets page 6.
const BEGUN: [Part; 4] = [
    Part::Lines(
        1,
        "table single pages 7 hint 192 shrink on hash low work manual\n",
    ),
    Part::Pairs("1 bind ", Ports(0, 1, 40), " "),
    Part::Lines(1, "1 work\n"),
    Part::Pairs("1 bind ", Ports(40, 1, 26), " "),
];

const BEGUN_TEXT: [Part; 3] = [
    Part::Lines(40, "1: bound\n"),
    Part::Lines(1, "1: moved\n"),
    Part::Lines(26, "1: bound\n"),
];

/// Asserts that the script which begins so, and has the rest behind that, is answered by the text of the rest
/// behind that of the beginning.
fn assert_begun<R: Threads + Wait + Sync + Abort>(
    rt: &R,
    alloc: Global,
    rest: &[Part],
    text_of_rest: &[Part],
) -> Result<(), Fail> {
    let mut script = written(alloc, &BEGUN)?;
    script.push_str(&written(alloc, rest)?)?;
    let mut text = written(alloc, &BEGUN_TEXT)?;
    text.push_str(&written(alloc, text_of_rest)?)?;
    let left = run_on(rt, alloc, &["run"], &script, WHOLE)?;
    assert_left(rt, &left, 0, &text, "", &script);
    Ok(())
}

#[test]
fn nested_tables_come_back(rt: HostRuntime) -> Result<(), Fail> {
    use Part::{Lines, Pairs};
    let alloc = rt.alloc();
    // No page is left for the bucket of 66, which is even. The first work puts a flat table of 128 behind
    // the nested one, in the pages 0 and 1, and the second one empties that.
    assert_begun(
        &rt,
        alloc,
        &[Lines(
            1,
            "1 bind 66 66\n1 find 66\n1 work\n1 work\n1 work\n1 find 65\n1 bind 66 66\n",
        )],
        &[
            Lines(
                1,
                "1: notable 128\n1: missing\n1: moved again\n1: moved\n1: idle\n1: found 65\n1: bound\n",
            ),
            Pairs("port ", Ports(0, 1, 67), ": "),
            Lines(1, "size 128 keys 67\n"),
        ],
    )?;
    // With 37 ports left the table of 128 is to shrink, once it is the current one: of its buckets 38 are
    // three tenths, and 37 * 3 / 2 = 55.
    assert_begun(
        &rt,
        alloc,
        &[
            Pairs("1 release ", Ports(0, 1, 29), " "),
            Lines(4, "1 work\n"),
        ],
        &[
            Lines(29, "1: released\n"),
            Lines(1, "1: moved again\n1: moved again\n1: moved\n1: idle\n"),
            Pairs("port ", Ports(29, 1, 37), ": "),
            Lines(1, "size 64 keys 37\n"),
        ],
    )
}
