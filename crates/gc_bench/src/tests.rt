//! The checksums of the loops, worked out apart from this program: of cells by a heap of the free ones a class.

use crate::loops::{bumps, cells, steps};
use std::test::Fail;

#[test]
fn the_last_word_is_reached_so_often(rt: HostRuntime) -> Result<(), Fail> {
    for (count, sum) in [(0, 0), (179_778, 0), (179_779, 1), (1_000_000, 5)] {
        assert_eq!(rt; steps(rt.alloc(), count)?, sum, "after {count}");
    }
    Ok(())
}

#[test]
fn the_addresses_of_bumps_are_added_up(rt: HostRuntime) -> Result<(), Fail> {
    for (count, sum) in [
        (0, 0),
        (1, 17),
        (3, 58),
        (20_000, 1_100_057_873),
        (40_000, 2_280_950_453),
    ] {
        assert_eq!(rt; bumps(rt.alloc(), count)?, sum, "after {count}");
    }
    Ok(())
}

#[test]
fn the_offsets_of_cells_are_added_up(rt: HostRuntime) -> Result<(), Fail> {
    for (count, sum) in [
        (0, 0),
        (256, 0),
        (257, 12_328),
        (1000, 36_748_708),
        (10_000, 561_132_832),
    ] {
        assert_eq!(rt; cells(rt.alloc(), count)?, sum, "after {count}");
    }
    Ok(())
}
