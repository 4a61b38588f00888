//! The formulas at and beside their thresholds, worked out by hand, and the mix against vectors
//! from outside.

ghost use Rattle.rht_words.specs.Sizes.{IsLeastSize, IsGreatestSize};
ghost use Rattle.rht_words.specs.Sizes.{IsSizeUpTo};

use super::*;
use crate::mix::round;
use rht_words::{Port, rounded_down, rounded_up};
use std::fmt::Debug;
use std::process::Abort;

/// Asserts that a value is this one.
fn assert_same<T: Copy + Debug + PartialEq>(rt: &impl Abort, found: T, want: T) {
    assert_eq!(rt; found, want);
}

/// Asserts that a value is this one in this row of a table.
fn assert_row<R, T>(rt: &impl Abort, row: R, found: T, want: T)
where
    R: Copy + Debug,
    T: Copy + Debug + PartialEq,
{
    assert_eq!(rt; found, want, "at {row:?}");
}

/// The size, if it is a power of two from 4 to the bound. Else the test ends.
fn checked_size(rt: &impl Abort, size: u32, bound: u32) -> u32
    ensures { IsSizeUpTo bound result }
{
    assert!(rt; 4 <= size && size <= bound && bound <= 1 << 18);
    let power = size.next_power_of_two();
    assert!(rt; power == size, "size {size}");
    power
}

/// Ends the test unless this can be the least size of a table.
fn assert_least(rt: &impl Abort, min: u32)
    ensures { IsLeastSize min }
{
    assert!(rt; 4 <= min && min <= 65_536);
    assert!(rt; rounded_up(min) == min, "min {min}");
}

/// Ends the test unless this can be the greatest size of a table, or is none.
fn assert_greatest(rt: &impl Abort, max: u32)
    ensures { IsGreatestSize max }
{
    assert!(rt; max == 0 || 4 <= max && max <= 131_072);
    assert!(rt; rounded_down(max) == max, "max {max}");
}

#[test]
fn each_size_has_its_thresholds(rt: HostRuntime) {
    // The size; a quarter of it, times 3; three times it, a tenth of that.
    let sizes = [
        (4, 3, 1), // 12 / 10
        (8, 6, 2), // 24 / 10
        (16, 12, 4), // 48 / 10
        (32, 24, 9), // 96 / 10
        (64, 48, 19), // 192 / 10
        (128, 96, 38), // 384 / 10
        (256, 192, 76), // 768 / 10
        (512, 384, 153), // 1536 / 10
        (1024, 768, 307), // 3072 / 10
        (2048, 1536, 614), // 6144 / 10
        (4096, 3072, 1228), // 12288 / 10
        (8192, 6144, 2457), // 24576 / 10
        (16384, 12288, 4915), // 49152 / 10
        (32768, 24576, 9830), // 98304 / 10
        (65536, 49152, 19660), // 196608 / 10
        (131072, 98304, 39321), // 393216 / 10
    ];
    let least = 4;
    assert_least(&rt, least);
    let greatest = 0;
    assert_greatest(&rt, greatest);
    for (size, quarters, tenths) in sizes {
        let size = checked_size(&rt, size, 131_072);
        assert!(rt; quarters < size && 0 < tenths);
        for count in [tenths - 1, tenths, quarters, quarters + 1, size, size + 1] {
            let ports = u64::from(count);
            if ports <= 65_536 {
                let above = (
                    above_75(ports, size, greatest),
                    above_100(ports, size, greatest),
                );
                // A table of the least size doesn't shrink.
                let below = count < tenths && size > least;
                assert_row(
                    &rt,
                    (count, size),
                    (above, below_30(ports, size, least)),
                    ((count > quarters, count > size), below),
                );
            }
        }
    }
}

#[test]
fn a_table_grows_up_to_the_greatest_size(rt: HostRuntime) {
    // The ports, the size and the greatest size; whether the ports are above 75 and
    // above 100 in a hundred and the table may grow.
    let cases = [
        (48, 64, 0, false, false),
        (49, 64, 0, true, false),
        (49, 64, 128, true, false),
        (49, 64, 64, false, false),
        (65, 64, 128, true, true),
        (65, 64, 64, false, false),
        (65, 64, 32, false, false),
        (3, 4, 0, false, false),
        (4, 4, 0, true, false),
        (5, 4, 8, true, true),
        (5, 4, 4, false, false),
        (49_152, 65_536, 0, false, false),
        (49_153, 65_536, 131_072, true, false),
        (65_536, 65_536, 0, true, false),
        (65_536, 32_768, 0, true, true),
        (65_536, 131_072, 0, false, false), // 98,304 is three quarters
        (65_536, 262_144, 0, false, false),
    ];
    for (count, size, max, three_quarters, whole) in cases {
        assert!(rt; count <= 65_536);
        let size = checked_size(&rt, size, 262_144);
        assert_greatest(&rt, max);
        let above = (above_75(count, size, max), above_100(count, size, max));
        assert_row(&rt, (count, size, max), above, (three_quarters, whole));
    }
}

#[test]
fn a_table_shrinks_down_to_the_least_size(rt: HostRuntime) {
    // The ports, the size and the least size; whether the ports are below 30 in a
    // hundred and the table may shrink.
    let cases = [
        (37, 128, 4, true),
        (38, 128, 4, false), // 384 / 10 is 38
        (0, 4, 4, false),
        (0, 8, 4, true),
        (1, 8, 4, true),
        (2, 8, 4, false), // 24 / 10 is 2
        (37, 128, 64, true),
        (37, 128, 128, false),
        (37, 128, 256, false),
        (19_659, 65_536, 32_768, true),
        (19_660, 65_536, 32_768, false), // 196,608 / 10 is 19,660
        (39_320, 131_072, 65_536, true),
        (39_321, 131_072, 65_536, false), // 393,216 / 10 is 39,321
        (65_536, 262_144, 4, true), // 786,432 / 10 is 78,643
    ];
    for (count, size, min, below) in cases {
        assert!(rt; count <= 65_536);
        let size = checked_size(&rt, size, 262_144);
        assert_least(&rt, min);
        assert_row(&rt, (count, size, min), below_30(count, size, min), below);
    }
}

#[test]
fn a_table_holds_twice_the_greatest_size(rt: HostRuntime) {
    // The greatest size, and how many ports a table may hold.
    let cases = [
        (0, 2_147_483_648), // 2^31
        (4, 8),
        (8, 16),
        (32_768, 65_536),
        (131_072, 262_144),
    ];
    for (max, ports) in cases {
        assert_greatest(&rt, max);
        assert_row(&rt, max, max_elems(max), ports);
        // The ports, which are at most 65,536; a table of these many is full.
        for count in [0, 7, 8, 9, 15, 16, 17, 65_535, 65_536] {
            assert!(rt; count <= 65_536);
            assert_row(&rt, (count, max), above_max(count, max), count >= ports);
        }
    }
}

#[test]
fn a_smaller_table_has_room_for_half_as_many_more(rt: HostRuntime) {
    // The ports, the least size and the size of the smaller table.
    let cases = [
        (0, 4, 4),
        (0, 64, 64),
        (1, 4, 4), // 1
        (2, 4, 4), // 3
        (3, 4, 4), // 4
        (4, 4, 8), // 6
        (5, 4, 8), // 7
        (6, 4, 16), // 9
        (37, 4, 64), // 55
        (37, 64, 64),
        (37, 128, 128),
        (42, 4, 64), // 63
        (43, 4, 64), // 64
        (44, 4, 128), // 66
        (65_536, 4, 131_072), // 98,304
        (21_845, 4, 32_768), // 32,767
        (21_846, 4, 65_536), // 32,769
        (10, 65_536, 65_536),
    ];
    for (count, min, size) in cases {
        assert!(rt; count <= 65_536);
        assert_least(&rt, min);
        assert_row(&rt, (count, min), shrunk(count, min), size);
    }
}

#[test]
fn the_first_table_has_room_for_the_hint(rt: HostRuntime) {
    // The hint, the least size, the greatest size and the size of the first table.
    let cases = [
        (0, 4, 0, 64),
        (0, 64, 0, 64),
        (0, 128, 0, 128),
        (0, 4, 32, 32),
        (0, 65_536, 4, 4),
        (1, 4, 0, 4), // 1
        (3, 4, 0, 4), // 4
        (4, 4, 0, 8), // 5
        (96, 4, 0, 128), // 128
        (97, 4, 0, 256), // 129
        (192, 4, 0, 256), // 256
        (300, 4, 0, 512), // 400
        (300, 4, 128, 128),
        (300, 1024, 0, 1024),
        (1536, 4, 0, 2048), // 2,048
        (65_536, 4, 0, 131_072), // 87,381
        (65_536, 4, 131_072, 131_072),
        (65_536, 4, 65_536, 65_536),
    ];
    for (hint, min, max, size) in cases {
        assert!(rt; hint <= 65_536);
        assert_least(&rt, min);
        assert_greatest(&rt, max);
        assert_row(&rt, (hint, min, max), starting(hint, min, max), size);
    }
}

#[test]
fn seven_rounds_mix_the_port_1(rt: HostRuntime) {
    // The word, the other one, the bits of the rotation, and the word after the round.
    let rounds = [
        (0, 0, 14, 0),
        (1, 0, 11, 1),
        (0, 1, 25, 0xFE00_0001),
        (0, 0xFE00_0001, 16, 0xFDFE_0201),
        (1, 0xFDFE_0201, 4, 0x1E1D_E1E1),
        (0xFE00_0001, 0x1E1D_E1E1, 14, 0x67A5_9A59),
        (0xFDFE_0201, 0x67A5_9A59, 24, 0x40F3_F2BE),
    ];
    for (word, other, by, after) in rounds {
        assert!(rt; 0 < by && by < 32);
        assert_row(&rt, (word, other), round(word, other, by), after);
    }
    let mixed = Lookup3::mix(1, 0, 0);
    assert_same(&rt, (mixed, mixed % 64), (0x40F3_F2BE, 62));
    assert_same(&rt, mixed, 1_089_729_214);
}

#[test]
fn ports_nets_and_seeds_are_mixed(rt: HostRuntime) {
    // These were worked out by two programs of the published mix outside of the repository, one in
    // C and one in Python.
    let vectors = [
        (0, 0, 0, 0),
        (80, 0, 1, 0x534D_4FF2),
        (80, 0, 4_294_967_295, 0xDEB5_58A1),
        (4_294_967_295, 0, 1, 0x17C2_353D),
        (443, 7, 7, 0x9150_B813),
        (0xDEAD_BEEF, 0x1234, 0xCAFE_BABE, 0x6736_A7D2),
    ];
    for (number, net, seed, mixed) in vectors {
        let row = (number, net, seed);
        let found = (Lookup3::mix(number, net, seed), Low::mix(number, net, seed));
        assert_row(&rt, row, found, (mixed, number));
        // The hash of a port mixes its number, its net and the seed.
        let port = Port {
            net: net as u16,
            number,
        };
        assert_row(&rt, row, hash_of::<Lookup3>(port, seed), mixed);
        let again = Port {
            net: net as u16,
            number,
        };
        assert_row(&rt, row, hash_of::<Low>(again, seed), number);
    }
}
