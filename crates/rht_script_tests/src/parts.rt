//! The parts of scripts, read one by one, and numbers and ports that are written. What is wanted of
//! each was worked out by hand from the rules of scripts.

use crate::asserts::{assert_same, assert_text};
use rht_io::MemSink;
use rht_model::{Bindings, Call};
use rht_script::{
    TableLine, command_line, line_end, number_of, port_word, table_line, word_at, write_number,
    write_port, write_ports,
};
use rht_words::{Config, Kind, Port};
use std::test::Fail;

#[test]
fn finds_lines_and_words_and_reads_numbers(rt: HostRuntime) {
    // the second line ends behind `cd`
    assert_same(&rt, &line_end(b"ab\ncd\n", 3), &5, "the end of a line");
    // two spaces, `ab`, a tab, and `c` at 5
    let word = word_at(b"  ab\tc ", 4);
    assert_same(&rt, &word, &Some((5, 6)), "a word");
    let number = number_of(b"00000000000000000007", 7, 7);
    assert_same(&rt, &number, &Ok(7), "a number of 20 digits");
}

#[test]
fn reads_ports(rt: HostRuntime) {
    // in form 1, and in form 2, where a word has one meaning in both: its net is 0
    let plain = [
        ("0", Ok(0)),
        ("0080", Ok(80)),
        ("00000000000000000080", Ok(80)),
        ("4294967295", Ok(u32::MAX)),
        ("4294967296", Err(4)),
        ("18446744073709551696", Err(4)),
        ("000000000000000000080", Err(3)),
        ("", Err(3)),
        ("-1", Err(3)),
    ];
    for (word, read) in plain {
        for form in [1, 2] {
            let found = port_word(word.as_bytes(), form);
            assert_same(&rt, &found, &read.map(Port::plain), (word, form));
        }
    }
}

#[test]
fn reads_ports_of_nets(rt: HostRuntime) {
    // the word, and its net and its number in form 2; in form 1 it is no number
    let cases = [
        ("3.80", Ok((3, 80))),
        ("0.80", Ok((0, 80))),
        ("007.080", Ok((7, 80))),
        ("65535.0", Ok((65_535, 0))),
        ("65535.4294967295", Ok((65_535, u32::MAX))),
        ("00000000000000000003.00000000000000000080", Ok((3, 80))),
        ("000000000000000000003.80", Err(3)),
        ("3.000000000000000000080", Err(3)),
        ("3.", Err(3)),
        (".3", Err(3)),
        (".", Err(3)),
        ("1.2.3", Err(3)),
        ("3.x", Err(3)),
        ("x.3", Err(3)),
        ("3.+80", Err(3)),
        ("x.4294967296", Err(3)),
        ("65536.1", Err(4)),
        ("3.4294967296", Err(4)),
        // 2^64 + 3.
        ("18446744073709551619.80", Err(4)),
        ("65536.x", Err(4)),
        ("65536.1.2", Err(4)),
        ("65536.", Err(4)),
    ];
    for (word, read) in cases {
        let port = read.map(|(net, number)| Port { net, number });
        assert_same(&rt, &port_word(word.as_bytes(), 2), &port, word);
        assert_same(&rt, &port_word(word.as_bytes(), 1), &Err(3), word);
    }
}

#[test]
fn reads_table_lines(rt: HostRuntime) {
    let plain = TableLine {
        config: Config::plain(),
        auto: true,
        form: 1,
    };
    let listed = Config {
        kind: Kind::Listed,
        callers: 2,
        ..plain.config
    };
    let manual = TableLine {
        config: listed,
        auto: false,
        ..plain
    };
    let nets = TableLine { form: 2, ..plain };
    let cases = [
        ("table single", Ok(plain)),
        ("table single form 1", Ok(plain)),
        ("table single form 02", Ok(nets)),
        (" table\tsingle seed 01\r", Ok(plain)),
        ("table listed work manual workers 2", Ok(manual)),
        ("", Err(1)),
        (" \t", Err(1)),
        ("# a", Err(1)),
        ("1 find 80", Err(1)),
        ("table", Err(2)),
        ("table single nodes", Err(2)),
        ("table single form", Err(2)),
        ("table single forms 1", Err(2)),
        ("table single form x", Err(3)),
        ("table single form 1.2", Err(3)),
        ("table single nodes x form 3", Err(3)),
        ("table single form 0", Err(4)),
        ("table single form 3", Err(4)),
        ("table single form 3 nodes x", Err(4)),
        ("table single form 1 form 2", Err(8)),
        ("table single workers 0", Err(4)),
        ("table single min 8 min 8", Err(8)),
        ("table single hint 2 hint 2 seed x", Err(3)),
    ];
    for (line, read) in cases {
        assert_same(&rt, &table_line(line.as_bytes()), &read, line);
    }
}

#[test]
fn reads_command_lines(rt: HostRuntime) -> Result<(), Fail> {
    let single = table_line(b"table single workers 2 nodes 16")?;
    let bind = Call::Bind {
        port: Port::plain(80),
        owner: 100,
        once: false,
    };
    let walk = Call::Walk {
        from: None,
        limit: 16,
    };
    let cases = [
        (" 1 bind\t80 100", Ok((1, bind))),
        (
            "02 find 80",
            Ok((
                2,
                Call::Find {
                    port: Port::plain(80),
                },
            )),
        ),
        ("1 work", Ok((1, Call::Work))),
        ("2 walk\r", Ok((2, walk))),
        ("1 walk 16", Err(2)),
        ("", Err(2)),
        ("\r", Err(2)),
        ("step 1 1", Err(2)),
        ("skip 1 1", Err(2)),
        ("finish", Err(2)),
        ("1", Err(2)),
        ("1 bind 80", Err(2)),
        ("1 find 80 80", Err(2)),
        ("# 1 find 80", Err(3)),
        ("one find 80", Err(3)),
        ("1 find x 80", Err(3)),
        ("3 found 80", Err(4)),
        ("1 all 4294967296", Err(4)),
        ("1 find 3.80", Err(3)),
    ];
    for (line, read) in cases {
        let found = command_line(line.as_bytes(), &single);
        assert_same(&rt, &found, &read, line);
    }
    Ok(())
}

#[test]
fn reads_command_lines_with_nets(rt: HostRuntime) -> Result<(), Fail> {
    let nets = table_line(b"table single form 2")?;
    let port = Port { net: 3, number: 80 };
    let bind = Call::Bind {
        port,
        owner: 200,
        once: false,
    };
    let release = Call::Release { port, owner: 200 };
    let rebind = Call::Rebind {
        port,
        owner: 200,
        new: 7,
    };
    let cases = [
        ("1 bind 3.80 200", Ok((1, bind))),
        ("1 find 3.80", Ok((1, Call::Find { port }))),
        ("1 all 03.080", Ok((1, Call::All { port }))),
        ("1 release 3.80 200", Ok((1, release))),
        ("1 rebind 3.80 200 7", Ok((1, rebind))),
        ("1 bind 3.80 3.200", Err(3)),
        ("1.0 find 3.80", Err(3)),
        ("1 find 3. 80", Err(3)),
        ("1 bind 65536.80", Err(4)),
        ("1 find 3.80 80", Err(2)),
    ];
    for (line, read) in cases {
        let found = command_line(line.as_bytes(), &nets);
        assert_same(&rt, &found, &read, line);
    }
    Ok(())
}

#[test]
fn reads_rebinds_in_tables_of_lists(rt: HostRuntime) -> Result<(), Fail> {
    let listed = table_line(b"table listed")?;
    let rebind = Call::Rebind {
        port: Port::plain(80),
        owner: 1,
        new: 2,
    };
    let cases = [
        ("1 rebind 80 1 2", Ok((1, rebind))),
        ("1 rebind 3.80 1 2", Err(3)),
        ("1 rebind 80 1 x", Err(3)),
        ("1 rebind 80 1 2 3", Err(2)),
    ];
    for (line, read) in cases {
        let found = command_line(line.as_bytes(), &listed);
        assert_same(&rt, &found, &read, line);
    }
    Ok(())
}

#[test]
fn writes_numbers_and_ports(rt: HostRuntime) -> Result<(), Fail> {
    let alloc = rt.alloc();
    let mut bindings = Bindings::with_room(alloc, 3)?;
    bindings.add(Port::plain(7), 5);
    bindings.add(Port::plain(7), 4);
    bindings.add(Port { net: 3, number: 0 }, 1);
    let mut sink = MemSink::new(alloc, 128, vec![in alloc; 3]?)?;
    let number = write_number(&mut sink, u64::MAX);
    let ports = write_ports(&mut sink, &bindings);
    let failed = write_number(&mut sink, 1);
    let port = write_port(&mut sink, Port::plain(0));
    let ends = [number.is_ok(), ports.is_ok(), failed.is_ok(), port.is_ok()];
    assert_same(&rt, &ends, &[true, true, false, true], "the third put");
    assert_text(
        &rt,
        &sink,
        "18446744073709551615port 7: 5 4\nport 3.0: 1\n0",
    );
    Ok(())
}

#[test]
fn writes_ports_as_they_are_read(rt: HostRuntime) -> Result<(), Fail> {
    let cases = [
        (0, 0, "0"),
        (0, 80, "80"),
        (0, u32::MAX, "4294967295"),
        (1, 0, "1.0"),
        (3, 80, "3.80"),
        (10, 10, "10.10"),
        (65_535, u32::MAX, "65535.4294967295"),
    ];
    for (net, number, text) in cases {
        let port = Port { net, number };
        let mut sink = MemSink::new(rt.alloc(), 64, Vec::new(rt.alloc()))?;
        assert_same(&rt, &write_port(&mut sink, port), &Ok(()), text);
        assert_text(&rt, &sink, text);
        assert_same(&rt, &port_word(sink.bytes(), 2), &Ok(port), text);
    }
    Ok(())
}
