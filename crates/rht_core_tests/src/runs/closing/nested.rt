//! A closing of a nested table, and what hand-made words of nested tables stand for. With 8 nodes and 4
//! pages node n stands from 282 + 4 * n on and page p from 314 + 64 * p on; slot 0 is from 24 on and slot 1
//! from 56 on. A nested table of 128 buckets or of 8,192 has two entries in its top page: bucket b is behind
//! entry b % 2.

use super::super::asked::Asked;
use super::super::{assert_owners, bind, small};
use super::{assert_closed, closed_after, words_with};
use rht_words::{Config, Geometry};
use std::alloc::Global;
use std::process::Abort;
use std::test::Fail;

/// What a test sets of the words: places and their words.
type Part<'a> = &'a [(usize, u64)];

/// The words, the key word of a port, and its owners.
type OwnersCase<'a> = ([Part<'a>; 4], u64, &'a [u32]);

/// In slot 0 a nested table of 128 buckets, with one level of entries, whose top page is page 0.
const ONE_LEVEL: [(usize, u64); 1] = [(24, 7 + 32)];

/// The same of 8,192 buckets, with two levels.
const TWO_LEVELS: [(usize, u64); 1] = [(24, 13 + 32)];

/// A flat table of 64 buckets in page 1.
const FLAT: [(usize, u64); 1] = [(24, 6 + 1_024)];

/// Entry 0 leads to page 1, and entry 1 to none.
const ONE_PAGE: [(usize, u64); 1] = [(314, 2)];

/// Entry 1 leads to page 1, whose entry 3 leads to page 2. All other pages are missing.
const TWO_PAGES: [(usize, u64); 2] = [(315, 2), (381, 3)];

/// Node 0 stands in word 3 of page 1, at 381, which is bucket 6 where that page is behind entry 0.
const NODE_0: [(usize, u64); 4] = [(381, 2), (282, 763), (283, 6), (284, 9)];

/// Port 6 of net 3.
const NET_3_PORT_6: u64 = 3 * (1 << 32) + 6;

/// The same with the key of that port.
const NODE_0_OF_NET_3: [(usize, u64); 4] = [(381, 2), (282, 763), (283, NET_3_PORT_6), (284, 9)];

/// Node 2 stands in word 5 of page 2, at 447, and node 1 is behind it on its list. The bucket is 647, which is
/// 1 + 2 * (3 + 64 * 5).
const NODE_2: [(usize, u64); 6] = [
    (447, 6),
    (290, 895),
    (291, 647),
    (292, 4),
    (293, 4),
    (288, 8),
];

/// A flat table of four buckets in page 3 is behind: node 3 stands in its bucket 1, at 507.
const BEHIND: [(usize, u64); 6] = [
    (26, 2),
    (56, 2 + 3_072),
    (507, 8),
    (294, 1_015),
    (295, 5),
    (296, 7),
];

/// Nodes 4 and 5 stand in the first word of page 1, at 378, and in its last one, at 441: buckets 0 and 126.
const EDGES: [(usize, u64); 8] = [
    (378, 10),
    (298, 757),
    (299, 0),
    (300, 1),
    (441, 12),
    (302, 883),
    (303, 126),
    (304, 2),
];

/// Node 6 stands in the last word of page 2, at 505: bucket 8,071, which is 1 + 2 * (3 + 64 * 63).
const NODE_6: [(usize, u64); 4] = [(505, 14), (306, 1_011), (307, 8_071), (308, 3)];

/// Node 7 stands in word 5 of page 1, at 383.
const NODE_7: [(usize, u64); 4] = [(383, 16), (310, 767), (311, 5), (312, 6)];

const CASES: [OwnersCase<'static>; 18] = [
    ([&ONE_LEVEL, &ONE_PAGE, &NODE_0, &[]], 6, &[9]),
    ([&ONE_LEVEL, &ONE_PAGE, &NODE_0, &[]], 5, &[]),
    // the net counts as the number does
    ([&ONE_LEVEL, &ONE_PAGE, &NODE_0_OF_NET_3, &[]], 6, &[]),
    (
        [&ONE_LEVEL, &ONE_PAGE, &NODE_0_OF_NET_3, &[]],
        NET_3_PORT_6,
        &[9],
    ),
    // where the page of its bucket is missing the node isn't met, nor where the entry leads past the last page
    ([&ONE_LEVEL, &[], &NODE_0, &[]], 6, &[]),
    ([&ONE_LEVEL, &[(314, 5)], &NODE_0, &[]], 6, &[]),
    // the node behind the other entry is met in bucket 7, whatever its key is
    ([&ONE_LEVEL, &[(315, 2)], &NODE_0, &[]], 6, &[9]),
    // what is behind is met too
    ([&ONE_LEVEL, &ONE_PAGE, &NODE_0, &BEHIND], 6, &[9]),
    ([&ONE_LEVEL, &ONE_PAGE, &NODE_0, &BEHIND], 5, &[7]),
    ([&ONE_LEVEL, &[], &NODE_0, &BEHIND], 6, &[]),
    // the first bucket of a page, and the last one
    ([&ONE_LEVEL, &ONE_PAGE, &EDGES, &[]], 0, &[1]),
    ([&ONE_LEVEL, &ONE_PAGE, &EDGES, &[]], 126, &[2]),
    ([&TWO_LEVELS, &TWO_PAGES, &NODE_2, &[]], 647, &[4, 8]),
    ([&TWO_LEVELS, &TWO_PAGES, &NODE_2, &NODE_6], 8_071, &[3]),
    ([&TWO_LEVELS, &TWO_PAGES, &NODE_2, &[]], 646, &[]),
    // the upper page is missing, or the lower one
    ([&TWO_LEVELS, &[(381, 3)], &NODE_2, &[]], 647, &[]),
    ([&TWO_LEVELS, &[(315, 2)], &NODE_2, &BEHIND], 647, &[]),
    // a flat table has no entries
    ([&FLAT, &TWO_PAGES, &NODE_7, &[]], 5, &[6]),
];

/// The words stand for these owners.
fn assert_stands(rt: &impl Abort, alloc: Global, cases: &[OwnersCase]) -> Result<(), Fail> {
    let geometry = Geometry::new(8, 4, 1).ok_or("within limits")?;
    for (parts, port, want) in cases {
        let words = words_with(alloc, geometry, parts)?;
        assert_owners(rt, alloc, geometry, words.as_slice(), *port, want)?;
    }
    Ok(())
}

#[test]
fn a_missing_page_binds_nothing(rt: HostRuntime) -> Result<(), Fail> {
    assert_stands(&rt, rt.alloc(), &CASES)
}

/// What is bound at the closing of the nested table below.
const BOUND_AT_LAST: [(u64, &[u32]); 18] = [
    (0, &[1]),
    (1, &[3]),
    (256, &[1]),
    (512, &[1]),
    (768, &[1]),
    (1_024, &[1]),
    (1_280, &[1]),
    (1_536, &[1]),
    (1_792, &[1]),
    (2_048, &[1]),
    (2_304, &[1]),
    (2_560, &[1]),
    (2_816, &[1]),
    (3_072, &[1]),
    (3_328, &[1]),
    (3_584, &[1]),
    (3_840, &[1]),
    (4_096, &[2]),
];

#[test]
fn a_nested_table_is_closed(rt: HostRuntime) -> Result<(), Fail> {
    // A table of 256 buckets in pages 0 to 3 gets sixteen ports into bucket 0. The bind of a further one finds
    // no four pages in a row, and attaches a nested table of the same size, whose top page is page 4, with four
    // entries. Tried again, that port goes there behind the first entry, and port 1 behind the second one. The
    // pages of the others are missing.
    let config = Config {
        nodes: 32,
        pages: 7,
        hint: 192,
        ..small()
    };
    let mut calls = Vec::new(rt.alloc());
    for i in 0..16 {
        calls.push(bind(256 * i, 1))?;
    }
    let once = Asked::Bind {
        port: 4_096,
        owner: 2,
        once: true,
    };
    calls.extend_from_slice(&[once, once, bind(1, 3)])?;
    // 8 + 32 * 2 + 1024 * 4
    let closed = closed_after(&rt, rt.alloc(), config, calls.as_slice(), 4_168)?;
    assert_closed(&rt, &closed, (256, 18), &BOUND_AT_LAST);
    Ok(())
}
