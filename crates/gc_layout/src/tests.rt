//! Worked values of shapes, types, headers and places.

use crate::{AddFault, FIRST_SLOT, FORWARDING_WORD, Head, Part, Places, Shape, TypeNo, Types};
use std::test::Fail;

/// The shape of objects with so many slots and number fields.
fn shape(slots: u8, numbers: u8) -> Shape {
    Shape { slots, numbers }
}

/// A word of half 0 or 1.
fn half(half: u8, offset: u32) -> Part {
    Part::Half { half, offset }
}

/// A word of a page.
fn page(page: u16, offset: u32) -> Part {
    Part::Page { page, offset }
}

#[test]
fn a_new_table_has_the_common_objects_type(rt: HostRuntime) -> Result<(), Fail> {
    let types = Types::make(rt.alloc())?;
    assert_eq!(rt; types.count(), 1);
    assert_eq!(rt; types.shape(TypeNo(0)), Some(shape(16, 0)));
    assert_eq!(rt; types.shape(TypeNo(1)), None);
    Ok(())
}

#[test]
fn too_wide_comes_before_too_many(rt: HostRuntime) -> Result<(), Fail> {
    let mut types = Types::make(rt.alloc())?;
    assert_eq!(rt; types.add(shape(62, 1)), Err(AddFault::TooWide));
    for added in 1..=255 {
        assert_eq!(rt; types.add(shape(0, 62)), Ok(TypeNo(added)));
    }
    assert_eq!(rt; types.add(shape(0, 0)), Err(AddFault::TooMany));
    assert_eq!(rt; types.add(shape(62, 1)), Err(AddFault::TooWide));
    assert_eq!(rt; types.count(), 256);
    assert_eq!(rt; types.shape(TypeNo(255)), Some(shape(0, 62)));
    Ok(())
}

#[test]
fn the_size_has_two_words_more_than_the_fields(rt: HostRuntime) {
    assert_eq!(rt; shape(62, 0).size(), 64);
    assert_eq!(rt; shape(0, 0).size(), 2);
}

#[test]
fn the_numbers_stand_behind_the_slots(rt: HostRuntime) {
    assert_eq!(rt; FORWARDING_WORD, 1);
    assert_eq!(rt; FIRST_SLOT, 2);
    assert_eq!(rt; shape(0, 3).first_number(), 2);
    assert_eq!(rt; Shape::COMMON.first_number(), 18);
}

#[test]
fn a_header_word_is_read_back(rt: HostRuntime) {
    let remembered = Head {
        remembered: true,
        ..Head::fresh(TypeNo(0), true)
    };
    let young = Head::fresh(TypeNo(3), false);
    for (head, word) in [(young, 4099), (remembered, 5376)] {
        assert_eq!(rt; head.word(), word);
        assert_eq!(rt; Head::of_word(word), Some(head));
    }
}

#[test]
fn other_words_are_no_headers(rt: HostRuntime) {
    for word in [0, 8192, 4096 + 8192] {
        assert_eq!(rt; Head::of_word(word), None, "at {word}");
    }
}

#[test]
fn each_address_has_one_owner_and_one_part(rt: HostRuntime) -> Result<(), Fail> {
    let places = Places::make(2, 64, 1).ok_or("no places")?;
    assert_eq!(rt; places.words(), 2336);
    for (address, owner, part) in [
        (1, 0, Part::Root { reg: 0 }),
        (16, 0, Part::Root { reg: 15 }),
        (17, 0, half(0, 0)),
        (144, 0, half(1, 63)),
        (145, 0, page(0, 0)),
        (1168, 0, page(0, 1023)),
        (1169, 1, Part::Root { reg: 0 }),
        (1185, 1, half(0, 0)),
        (1249, 1, half(1, 0)),
        (2336, 1, page(0, 1023)),
    ] {
        assert_eq!(rt; places.owner(address), Some(owner), "at {address}");
        assert_eq!(rt; places.part(address), Some(part), "at {address}");
    }
    for address in [0, 2337, u64::MAX] {
        assert_eq!(rt; places.owner(address), None, "at {address}");
        assert_eq!(rt; places.part(address), None, "at {address}");
    }
    Ok(())
}

#[test]
fn each_part_begins_at_its_address(rt: HostRuntime) -> Result<(), Fail> {
    let places = Places::make(8, 65_536, 128).ok_or("no places")?;
    assert_eq!(rt; places.words(), 2_097_280);
    assert_eq!(rt; places.root(0), 1);
    assert_eq!(rt; places.root(7), 1_835_121);
    assert_eq!(rt; places.half_start(7, 1), 1_900_673);
    assert_eq!(rt; places.page_start(7, 127), 2_096_257);
    Ok(())
}

#[test]
fn the_owner_is_exact_at_each_regions_edges(rt: HostRuntime) -> Result<(), Fail> {
    for (nursery, pages, region) in [
        (64, 1, 1168),
        (65, 1, 1170),
        (4096, 8, 16_400),
        (65_535, 127, 261_134),
        (65_536, 128, 262_160),
    ] {
        let places = Places::make(8, nursery, pages).ok_or("no places")?;
        let mut before: u64 = 0;
        for owner in 0..8 {
            let first = before.saturating_add(1);
            let last = before.saturating_add(region);
            assert_eq!(rt; places.owner(first), Some(owner), "at {first}");
            assert_eq!(rt; places.owner(last), Some(owner), "at {last}");
            assert_eq!(rt; places.part(first), Some(Part::Root { reg: 0 }));
            before = last;
        }
        assert_eq!(rt; places.words(), before);
        assert_eq!(rt; places.owner(before.saturating_add(1)), None);
    }
    Ok(())
}

#[test]
fn halves_and_pages_are_told_apart(rt: HostRuntime) -> Result<(), Fail> {
    let places = Places::make(2, 64, 1).ok_or("no places")?;
    assert!(rt; places.mutators() == 2);
    for (address, first, second, paged) in [
        (1184, false, false, false),
        (1185, true, false, false),
        (1248, true, false, false),
        (1249, false, true, false),
        (1312, false, true, false),
        (1313, false, false, true),
        (2336, false, false, true),
        (2337, false, false, false),
        (17, false, false, false),
    ] {
        assert_eq!(rt; places.is_in_half(1, 0, address), first, "at {address}");
        assert_eq!(rt; places.is_in_half(1, 1, address), second, "at {address}");
        assert_eq!(rt; places.is_in_pages(1, address), paged, "at {address}");
    }
    Ok(())
}

#[test]
fn a_cell_is_named_by_the_words_before_it(rt: HostRuntime) -> Result<(), Fail> {
    let places = Places::make(2, 64, 2).ok_or("no places")?;
    assert!(rt; places.mutators() == 2 && places.pages() == 2);
    assert_eq!(rt; places.cell_address(0, 0), 145);
    assert_eq!(rt; places.cell_address(1, 2044), 4381);
    assert!(rt; places.is_in_pages(1, 4381));
    assert_eq!(rt; places.cell_offset(1, 4381), 2044);
    Ok(())
}

#[test]
fn the_limits_themselves_are_let_in(rt: HostRuntime) -> Result<(), Fail> {
    for (mutators, nursery, pages) in [(1, 64, 1), (8, 65_536, 128)] {
        let places = Places::make(mutators, nursery, pages).ok_or("no places")?;
        assert_eq!(rt; places.mutators(), mutators);
        assert_eq!(rt; places.nursery(), nursery);
        assert_eq!(rt; places.pages(), pages);
    }
    for (mutators, nursery, pages) in [
        (0, 64, 1),
        (9, 64, 1),
        (1, 63, 1),
        (1, 65_537, 1),
        (1, 64, 0),
        (1, 64, 129),
    ] {
        assert_eq!(rt; Places::make(mutators, nursery, pages), None);
    }
    Ok(())
}
