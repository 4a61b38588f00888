//! Numbers worked out by hand from the layout and the formulas.

use rht_words::{
    Config, Env, Geometry, Op, Port, Shape, apply, entry_of, future_of, head_of, is_locked,
    link_of, marker_of, node_of, opening_word, page_of, places, plain_of, port_of, rounded_down,
    rounded_up, slot_of, starting_size, unlocked, word_of,
};
use std::fmt::Debug;
use std::process::Abort;
use std::test::Fail;

/// Asserts that a value is this one.
fn assert_same<T: Copy + Debug + PartialEq>(rt: &impl Abort, found: T, want: T) {
    assert_eq!(rt; found, want);
}

/// Asserts that a value is this one in this row of a table.
fn assert_row<R, T>(rt: &impl Abort, row: R, found: T, want: T)
where
    R: Copy + Debug,
    T: Copy + Debug + PartialEq,
{
    assert_eq!(rt; found, want, "at {row:?}");
}

#[test]
fn a_geometry_is_within_its_limits(rt: HostRuntime) {
    let cases = [
        (1, 4, 1, true),
        (65_536, 4_096, 16, true),
        (0, 4, 1, false),
        (65_537, 4, 1, false),
        (1, 3, 1, false),
        (1, 4_097, 1, false),
        (1, 4, 0, false),
        (1, 4, 17, false),
    ];
    for (nodes, pages, callers, want) in cases {
        let geometry = Geometry::new(nodes, pages, callers);
        assert_row(&rt, (nodes, pages, callers), geometry.is_some(), want);
    }
}

#[test]
fn places_of_the_smallest_geometry(rt: HostRuntime) -> Result<(), Fail> {
    let g = Geometry::new(1, 4, 1).ok_or("within limits")?;
    assert_same(&rt, (g.nodes, g.pages, g.callers), (1, 4, 1));
    assert_same(&rt, (g.node_map_words(), g.page_map_words()), (1, 1));
    assert_same(&rt, (g.node_map(0), g.page_map(0)), (280, 281));
    assert_same(
        &rt,
        (g.chain_link(0), g.key(0), g.owner(0), g.list_link(0)),
        (282, 283, 284, 285),
    );
    assert_same(
        &rt,
        (g.page_word(0, 0), g.page_word(1, 5), g.page_word(3, 63)),
        (286, 355, 541),
    );
    assert_same(&rt, g.words(), 542);
    Ok(())
}

#[test]
fn places_of_the_greatest_geometry(rt: HostRuntime) -> Result<(), Fail> {
    let g = Geometry::new(65_536, 4_096, 16).ok_or("within limits")?;
    assert_same(&rt, (g.node_map_words(), g.page_map_words()), (1_024, 64));
    assert_same(
        &rt,
        (g.node_map(1_023), g.page_map(0), g.page_map(63)),
        (1_303, 1_304, 1_367),
    );
    assert_same(
        &rt,
        (g.chain_link(0), g.list_link(65_535)),
        (1_368, 263_511),
    );
    assert_same(
        &rt,
        (g.page_word(0, 0), g.page_word(4_095, 63)),
        (263_512, 525_655),
    );
    assert_same(&rt, g.words(), 525_656);
    Ok(())
}

#[test]
fn maps_take_a_word_for_each_64_bits_begun(rt: HostRuntime) -> Result<(), Fail> {
    let cases = [
        (64, 64, 1, 1, 282),
        (65, 64, 2, 1, 283),
        (128, 129, 2, 3, 285),
    ];
    for (nodes, pages, node_words, page_words, first_node) in cases {
        let g = Geometry::new(nodes, pages, 1).ok_or("within limits")?;
        let found = (g.node_map_words(), g.page_map_words(), g.chain_link(0));
        assert_row(
            &rt,
            (nodes, pages),
            found,
            (node_words, page_words, first_node),
        );
    }
    Ok(())
}

#[test]
fn places_that_no_geometry_moves(rt: HostRuntime) {
    assert_same(
        &rt,
        (
            places::current_table(),
            places::work_lock(),
            places::port_count(),
        ),
        (0, 1, 2),
    );
    assert_same(
        &rt,
        (places::next_serial(), places::enrolled_callers()),
        (3, 4),
    );
    assert_same(&rt, (places::section(0), places::section(15)), (8, 23));
    assert_same(
        &rt,
        (places::shape(0), places::seed(0), places::future(0)),
        (24, 25, 26),
    );
    assert_same(&rt, (places::serial(0), places::state(0)), (27, 28));
    assert_same(&rt, (places::shape(7), places::future(7)), (248, 250));
    assert_same(
        &rt,
        (places::loaded_section(0, 0), places::loaded_section(7, 15)),
        (32, 271),
    );
}

#[test]
fn each_operation_answers_the_word_before(rt: HostRuntime) {
    let top = 18_446_744_073_709_551_615;
    let cases = [
        (12, Op::load(1), 12),
        (12, Op::store(1, 5), 5),
        (12, Op::exchange(1, 12, 5), 5),
        (12, Op::exchange(1, 11, 5), 12),
        (12, Op::add(1, 3), 15),
        (top, Op::add(1, 3), 2),
        (12, Op::sub(1, 3), 9),
        (2, Op::sub(1, 3), top),
        (12, Op::sub(1, 0), 12),
        (12, Op::and(1, 10), 8),
        (12, Op::or(1, 10), 14),
    ];
    for (before, op, after) in cases {
        let mut words = [70, before, 90];
        let found = (op.place(), apply(&mut words, op), words);
        assert_row(&rt, op, found, (1, before, [70, after, 90]));
    }
}

#[test]
fn links_name_nodes_and_markers_name_none(rt: HostRuntime) {
    assert_same(
        &rt,
        (link_of(0), link_of(1), link_of(65_535)),
        (2, 4, 131_072),
    );
    assert_same(
        &rt,
        (marker_of(0), marker_of(319), marker_of(525_655)),
        (1, 639, 1_051_311),
    );
    let cases = [
        (0, None),
        (1, None),
        (2, Some(0)),
        (3, None),
        (4, Some(1)),
        (16, Some(7)),
        (18, None),
        (639, None),
        (18_446_744_073_709_551_614, None),
        (18_446_744_073_709_551_615, None),
    ];
    for (link, want) in cases {
        assert_row(&rt, link, node_of(8, link), want);
    }
}

#[test]
fn bucket_words_and_heads_come_back(rt: HostRuntime) {
    // the word of the bucket at place 319, whether it is locked, the word without its lock, and
    // the first link of the chain
    let cases = [
        (0, false, 0, 639),
        (1, true, 0, 639),
        (6, false, 6, 6),
        (7, true, 6, 6),
    ];
    for (word, locked, plain, head) in cases {
        let found = (unlocked(word), head_of(319, word), plain_of(319, head));
        assert_row(
            &rt,
            word,
            (is_locked(word), found),
            (locked, (plain, head, plain)),
        );
    }
    assert_same(&rt, plain_of(319, 641), 641);
}

#[test]
fn futures_name_slots_and_entries_name_pages(rt: HostRuntime) {
    assert_same(
        &rt,
        (future_of(0), future_of(7), entry_of(0), entry_of(4_095)),
        (1, 8, 1, 4_096),
    );
    for (future, want) in [(0, None), (1, Some(0)), (8, Some(7)), (9, None)] {
        assert_row(&rt, future, slot_of(future), want);
    }
    for (entry, want) in [(0, None), (1, Some(0)), (4, Some(3)), (5, None)] {
        assert_row(&rt, entry, page_of(4, entry), want);
    }
}

#[test]
fn shapes_come_back_from_their_words(rt: HostRuntime) {
    let cases = [
        (2, 0, 0, 2, 4),
        (6, 0, 0, 6, 64),
        (7, 1, 5, 5_159, 128),
        (17, 5, 4_095, 4_193_457, 131_072),
    ];
    for (exponent, nest, page, word, size) in cases {
        let shape = Shape {
            exponent,
            nest,
            page,
        };
        let found = (u64::from(shape), Shape::from(word), shape.size());
        assert_row(&rt, word, found, (word, shape, size));
    }
    // exponents that no table has
    assert_same(
        &rt,
        (Shape::from(0).size(), Shape::from(31).size()),
        (4, 262_144),
    );
}

#[test]
fn ports_come_back_from_their_words(rt: HostRuntime) {
    for net in [0, 1, 3, 65_535] {
        for number in [0, 1, 8_080, 4_294_967_295] {
            let port = Port { net, number };
            assert_same(&rt, port_of(word_of(port)), port);
        }
    }
    assert_same(&rt, word_of(Port::plain(8_080)), 8_080);
    // 3 * 2^32 + 80.
    let third = Port { net: 3, number: 80 };
    assert_same(&rt, word_of(third), 12_884_901_968);
    assert_same(&rt, third > Port { net: 2, number: 81 }, true);
    assert_same(&rt, third > Port { net: 3, number: 79 }, true);
    // A word past 48 bits is no port's.
    assert_same(&rt, port_of(1 << 48), Port::plain(0));
}

#[test]
fn numbers_round_to_powers_of_two(rt: HostRuntime) {
    let cases = [
        (0, 1, 0),
        (1, 1, 1),
        (2, 2, 2),
        (3, 4, 2),
        (4, 4, 4),
        (5, 8, 4),
        (127, 128, 64),
        (128, 128, 128),
        (129, 256, 128),
        (65_535, 65_536, 32_768),
        (65_537, 131_072, 65_536),
        (2_147_483_648, 2_147_483_648, 2_147_483_648),
    ];
    for (number, up, down) in cases {
        assert!(rt; number <= 2_147_483_648);
        let found = (rounded_up(number), rounded_down(number));
        assert_row(&rt, number, found, (up, down));
    }
    assert_same(&rt, rounded_down(4_294_967_295), 2_147_483_648);
}

#[test]
fn a_table_starts_so_large(rt: HostRuntime) {
    // the hint, the least size, the greatest size, and the size
    let cases = [
        (0, 4, 0, 64),
        (0, 64, 0, 64),
        (0, 128, 0, 128),
        (0, 4, 4, 4),
        (0, 4, 32, 32),
        (0, 4, 128, 64),
        (1, 4, 0, 4),
        (4, 4, 0, 8),
        (96, 4, 0, 128),
        (97, 4, 0, 256),
        (192, 4, 0, 256),
        (193, 4, 0, 512),
        (300, 4, 0, 512),
        (300, 1_024, 0, 1_024),
        (300, 4, 256, 256),
        (65_536, 4, 0, 131_072),
        (65_536, 4, 65_536, 65_536),
    ];
    for (hint, least, greatest, want) in cases {
        assert!(rt; hint <= 65_536);
        let size = starting_size(hint, least, greatest);
        let config = Config {
            hint,
            min: least,
            max: greatest,
            ..Config::plain()
        };
        let row = (hint, least, greatest);
        assert_row(&rt, row, (size, config.starting_size()), (want, want));
    }
}

#[test]
fn configs_are_settled_within_their_limits(rt: HostRuntime) {
    // nodes, pages, callers and repeated walks
    let cases = [
        (1, 4, 1, 0, true),
        (65_536, 4_096, 16, 255, true),
        (0, 4, 1, 0, false),
        (65_537, 4, 1, 0, false),
        (1, 3, 1, 0, false),
        (1, 4_097, 1, 0, false),
        (1, 4, 0, 0, false),
        (1, 4, 17, 0, false),
        (1, 4, 1, 256, false),
    ];
    for (nodes, pages, callers, rewalks, want) in cases {
        let config = Config {
            nodes,
            pages,
            callers,
            rewalks,
            ..Config::plain()
        };
        let row = (nodes, pages, callers, rewalks);
        assert_row(&rt, row, config.is_settled(), want);
    }
}

#[test]
fn configs_are_settled_with_rounded_sizes(rt: HostRuntime) {
    // pages, the hint, the least size and the greatest size
    let cases = [
        (4, 0, 3, 0, false),
        (4, 0, 4, 0, true),
        (4, 0, 5, 0, false),
        (4, 0, 2, 0, false),
        (4, 0, 8, 0, true),
        (1_024, 0, 65_536, 0, true),
        (4_096, 0, 65_535, 0, false),
        (4_096, 0, 131_072, 0, false),
        (4, 0, 4, 2, false),
        (4, 0, 4, 3, false),
        (4, 0, 4, 4, true),
        (4, 0, 4, 5, false),
        (4, 0, 4, 131_072, true),
        (4, 0, 4, 262_144, false),
        (4, 0, 8, 8, true),
        (4, 0, 8, 4, false),
        (4, 1, 4, 0, true),
        (4, 192, 4, 0, true),
        (4, 193, 4, 0, false),
        (7, 193, 4, 0, false),
        (8, 193, 4, 0, true),
        (4, 193, 4, 256, true),
        (4, 0, 512, 0, false),
        (2_047, 65_536, 4, 0, false),
        (2_048, 65_536, 4, 0, true),
        (4_096, 65_537, 4, 0, false),
        (1_024, 65_536, 4, 65_536, true),
    ];
    for (pages, hint, min, max, want) in cases {
        let config = Config {
            pages,
            hint,
            min,
            max,
            ..Config::plain()
        };
        assert_row(&rt, (pages, hint, min, max), config.is_settled(), want);
    }
}

/// The word that the list has for the place; 0 where it has none.
fn word_for(words: &[(usize, u64)], place: usize) -> u64 {
    for &(at, word) in words {
        if at == place {
            return word;
        }
    }
    0
}

#[test]
fn a_table_opens_with_one_empty_table(rt: HostRuntime) {
    // Nodes, pages, the hint, the least size, and each word that isn't 0 with its place. At 3 is
    // the next serial, and at 24, 25 and 28 are the exponent of the size, the seed and the state.
    // From 280 on are a word for each 64 nodes begun, and then one for each 64 pages begun.
    let cases: [(u32, u32, u32, u32, &[(usize, u64)]); 5] = [
        // 64 = 2^6 buckets in page 0: of the bits 1 + 2 + 4 + 8 of four pages are left 2 + 4 + 8
        (
            8,
            4,
            0,
            4,
            &[(3, 1), (24, 6), (25, 77), (28, 1), (280, 255), (281, 14)],
        ),
        // 4 = 2^2 buckets take a whole page
        (
            1,
            4,
            1,
            4,
            &[(3, 1), (24, 2), (25, 77), (28, 1), (280, 1), (281, 14)],
        ),
        // 2,048 = 2^11 buckets in pages 0 to 31: of the first 64 bits are left those from 32 on,
        // 2^64 - 2^32, and pages 64 to 69 are six bits of the next word. Node 64 is alone in its word
        (
            65,
            70,
            1_536,
            4,
            &[
                (3, 1),
                (24, 11),
                (25, 77),
                (28, 1),
                (280, 18_446_744_073_709_551_615),
                (281, 1),
                (282, 18_446_744_069_414_584_320),
                (283, 63),
            ],
        ),
        // 4,096 = 2^12 buckets in pages 0 to 63, which are all bits of the first word
        (
            64,
            70,
            0,
            4_096,
            &[
                (3, 1),
                (24, 12),
                (25, 77),
                (28, 1),
                (280, 18_446_744_073_709_551_615),
                (282, 63),
            ],
        ),
        // 8,192 = 2^13 buckets in pages 0 to 127, so that pages 128 and 129 are free
        (
            65,
            130,
            0,
            8_192,
            &[
                (3, 1),
                (24, 13),
                (25, 77),
                (28, 1),
                (280, 18_446_744_073_709_551_615),
                (281, 1),
                (284, 3),
            ],
        ),
    ];
    for (nodes, pages, hint, min, words) in cases {
        let config = Config {
            nodes,
            pages,
            hint,
            min,
            seed: 77,
            ..Config::plain()
        };
        assert!(rt; config.is_settled());
        let env = Env::new(config);
        for place in 0..env.geometry.words() {
            let want = word_for(words, place);
            assert_row(&rt, (place, nodes, pages), opening_word(env, place), want);
        }
    }
}
