//! Rows worked out by hand: which cell is given next, and the counts after it; and each number of pages and each size.

use crate::{Gen2, class_of};
use std::test::Fail;

#[test]
fn one_page_has_sixteen_cells_of_64_words(rt: HostRuntime) -> Result<(), Fail> {
    let mut gen2 = Gen2::make(rt.alloc(), 1)?;
    for number in 0..16 {
        assert_eq!(rt; gen2.take_cell(64), Some(64 * number));
    }
    assert_eq!(rt; gen2.take_cell(64), None);
    assert_eq!(rt; gen2.take_cell(4), None);
    assert!(rt; gen2.is_used(0));
    gen2.give_cell(0);
    assert_eq!(rt; gen2.take_cell(64), Some(0));
    Ok(())
}

#[test]
fn the_counts_follow_each_cell(rt: HostRuntime) -> Result<(), Fail> {
    let mut gen2 = Gen2::make(rt.alloc(), 3)?;
    assert_eq!(rt;
        (gen2.used_cells(), gen2.free_cells(8), gen2.free_pages()),
        (0, 0, 3)
    );
    assert_eq!(rt; gen2.take_cell(8), Some(0));
    assert_eq!(rt;
        (gen2.used_cells(), gen2.free_cells(8), gen2.free_pages()),
        (1, 127, 2)
    );
    assert_eq!(rt; gen2.take_cell(64), Some(1024));
    assert_eq!(rt;
        (gen2.used_cells(), gen2.free_cells(64), gen2.free_pages()),
        (2, 15, 1)
    );
    assert!(rt; gen2.is_used(0));
    gen2.give_cell(0);
    assert_eq!(rt;
        (gen2.used_cells(), gen2.free_cells(8), gen2.free_pages()),
        (1, 128, 1)
    );
    Ok(())
}

#[test]
fn the_last_cell_of_the_last_page(rt: HostRuntime) -> Result<(), Fail> {
    let mut gen2 = Gen2::make(rt.alloc(), 128)?;
    for number in 0..2048 {
        assert_eq!(rt; gen2.take_cell(64), Some(64 * number));
    }
    assert_eq!(rt; gen2.take_cell(64), None);
    assert_eq!(rt;
        (gen2.used_cells(), gen2.free_cells(64), gen2.free_pages()),
        (2048, 0, 0)
    );
    assert!(rt; gen2.is_used(131_008));
    gen2.give_cell(131_008);
    assert_eq!(rt; gen2.take_cell(4), None);
    assert_eq!(rt; gen2.take_cell(64), Some(131_008));
    Ok(())
}

#[test]
fn a_full_class_stands_beside_one_with_room(rt: HostRuntime) -> Result<(), Fail> {
    let mut gen2 = Gen2::make(rt.alloc(), 2)?;
    assert_eq!(rt; gen2.take_cell(64), Some(0));
    assert_eq!(rt; gen2.take_cell(4), Some(1024));
    for number in 1..16 {
        assert_eq!(rt; gen2.take_cell(64), Some(64 * number));
    }
    assert_eq!(rt; gen2.take_cell(64), None);
    assert_eq!(rt; gen2.take_cell(4), Some(1028));
    assert_eq!(rt; (gen2.free_cells(64), gen2.free_cells(4)), (0, 254));
    Ok(())
}

#[test]
fn a_cell_that_was_given_back_comes_before_a_later_one(rt: HostRuntime) -> Result<(), Fail> {
    let mut gen2 = Gen2::make(rt.alloc(), 2)?;
    for number in 0..17 {
        assert_eq!(rt; gen2.take_cell(64), Some(64 * number));
    }
    assert!(rt; gen2.is_used(1024));
    gen2.give_cell(1024);
    assert!(rt; gen2.is_used(320));
    gen2.give_cell(320);
    assert_eq!(rt; gen2.peek_cell(64), Some(320));
    assert_eq!(rt; gen2.take_cell(64), Some(320));
    assert_eq!(rt; gen2.take_cell(64), Some(1024));
    assert_eq!(rt; gen2.take_cell(64), Some(1088));
    Ok(())
}

#[test]
fn a_page_has_85_cells_of_12_words(rt: HostRuntime) -> Result<(), Fail> {
    let mut gen2 = Gen2::make(rt.alloc(), 2)?;
    for number in 0..85 {
        assert_eq!(rt; gen2.take_cell(12), Some(12 * number));
    }
    assert!(rt; gen2.is_used(1008));
    assert!(rt; !gen2.is_used(1020));
    assert!(rt; !gen2.is_used(6));
    assert_eq!(rt; gen2.take_cell(12), Some(1024));
    assert!(rt; gen2.is_used(1024));
    assert!(rt; !gen2.is_used(1036));
    assert!(rt; !gen2.is_used(2048));
    assert_eq!(rt; gen2.free_cells(12), 84);
    Ok(())
}

#[test]
fn a_page_keeps_its_class(rt: HostRuntime) -> Result<(), Fail> {
    let mut gen2 = Gen2::make(rt.alloc(), 2)?;
    assert_eq!(rt; gen2.page_count(), 2);
    assert_eq!(rt; gen2.page_class(0), None);
    assert_eq!(rt; gen2.take_cell(20), Some(0));
    assert!(rt; gen2.is_used(0));
    gen2.give_cell(0);
    assert_eq!(rt; gen2.page_count(), 2);
    assert_eq!(rt; (gen2.page_class(0), gen2.page_class(1)), (Some(20), None));
    assert_eq!(rt; gen2.take_cell(24), Some(1024));
    Ok(())
}

#[test]
fn a_class_is_a_multiple_of_four(rt: HostRuntime) {
    assert_eq!(rt; (class_of(2), class_of(4), class_of(5)), (4, 4, 8));
    assert_eq!(rt; (class_of(60), class_of(61), class_of(64)), (60, 64, 64));
}

#[test]
fn each_size_has_its_class(rt: HostRuntime) {
    let mut class: u8 = 4;
    for size in 2..=64u64 {
        if size > u64::from(class) {
            class = class.saturating_add(4);
        }
        assert_eq!(rt; class_of(size), class, "at {size}");
    }
}

#[test]
fn each_number_of_pages_is_made(rt: HostRuntime) -> Result<(), Fail> {
    for pages in 1..=128u16 {
        let mut gen2 = Gen2::make(rt.alloc(), pages)?;
        assert_eq!(rt; gen2.page_count(), pages);
        assert_eq!(rt; (gen2.used_cells(), gen2.free_pages()), (0, pages));
        assert_eq!(rt; gen2.take_cell(64), Some(0), "with {pages} pages");
    }
    Ok(())
}
