//! Worked rows on a bay: its registers, halves and cells, each list and a batch filled to their room, and the tally.

ghost use Rattle.std.specs.Prelude.{◌≡◌, ◌≤◌, [], length};
ghost use Rattle.gc_bay.specs.Room.{batch_room, grey_room, remembered_room};

use crate::{Batch, Bay};
use gc_layout::Places;
use std::process::Abort;
use std::test::Fail;

/// The bay of a mutator in a heap of so many mutators, words of a half, and pages.
fn bay_in(rt: &impl AllocGlobal, heap: (u8, u32, u16), m: u8) -> Result<Bay, Fail> {
    let places = Places::make(heap.0, heap.1, heap.2).ok_or("no places")?;
    if m < places.mutators() {
        Ok(Bay::make(rt.alloc(), places, m)?)
    } else {
        Err(Fail::from("no such mutator"))
    }
}

#[test]
fn registers_are_nothing_and_then_what_was_put(rt: HostRuntime) -> Result<(), Fail> {
    let mut bay = bay_in(&rt, (2, 64, 1), 1)?;
    for r in 0..16 {
        assert_eq!(rt; bay.reg(r), 0);
    }
    bay.set_reg(15, 1185);
    assert_eq!(rt; bay.reg(15), 1185);
    assert_eq!(rt; bay.reg(14), 0);
    bay.set_reg(15, 0);
    assert_eq!(rt; bay.reg(15), 0);
    Ok(())
}

#[test]
fn a_half_is_used_to_its_last_word(rt: HostRuntime) -> Result<(), Fail> {
    let mut bay = bay_in(&rt, (1, 64, 1), 0)?;
    assert_eq!(rt; bay.bump(60), Some(17));
    assert_eq!(rt; bay.bump(5), None);
    assert_eq!(rt; bay.peek_bump(4), Some(77));
    assert_eq!(rt; bay.bump(4), Some(77));
    assert_eq!(rt; bay.used(), 64);
    assert_eq!(rt; bay.peek_bump(1), None);
    assert_eq!(rt; bay.bump(u64::MAX), None);
    Ok(())
}

#[test]
fn a_flip_leaves_nothing_used(rt: HostRuntime) -> Result<(), Fail> {
    let mut bay = bay_in(&rt, (2, 64, 1), 1)?;
    bay.flip();
    assert_eq!(rt; bay.half(), 1);
    assert_eq!(rt; bay.used(), 0);
    assert_eq!(rt; bay.bump(64), Some(1249));
    bay.flip();
    assert_eq!(rt; bay.half(), 0);
    assert_eq!(rt; bay.used(), 0);
    assert_eq!(rt; bay.bump(2), Some(1185));
    Ok(())
}

#[test]
fn a_cell_that_was_given_back_is_taken_again(rt: HostRuntime) -> Result<(), Fail> {
    let mut bay = bay_in(&rt, (1, 64, 1), 0)?;
    assert_eq!(rt; bay.peek_cell(64), Some(145));
    assert_eq!(rt; bay.cell(64), Some(145));
    assert_eq!(rt; bay.given(), 1);
    for n in 1..16 {
        assert_eq!(rt; bay.cell(61), Some(145 + 64 * n));
    }
    assert_eq!(rt; bay.peek_cell(64), None);
    assert_eq!(rt; bay.cell(64), None);
    assert_eq!(rt; bay.cell(2), None);
    assert_eq!(rt; bay.gen2().used_cells(), 16);
    bay.reset_given();
    assert_eq!(rt; bay.given(), 0);
    Ok(())
}

#[test]
fn the_last_cell_of_the_last_page_is_taken(rt: HostRuntime) -> Result<(), Fail> {
    let mut bay = bay_in(&rt, (8, 65_536, 128), 7)?;
    let mut last = None;
    for _ in 0..2048 {
        last = bay.cell(64);
    }
    assert_eq!(rt; last, Some(2_097_217));
    assert_eq!(rt; bay.cell(64), None);
    assert_eq!(rt; bay.given(), 128);
    Ok(())
}

#[test]
fn the_tally_counts_objects_and_words(rt: HostRuntime) -> Result<(), Fail> {
    let mut bay = bay_in(&rt, (1, 64, 1), 0)?;
    assert_eq!(rt; bay.tally(), (0, 0));
    bay.clear_tally();
    bay.count_kept(18);
    bay.count_kept(3);
    assert_eq!(rt; bay.tally(), (2, 21));
    bay.clear_tally();
    assert_eq!(rt; bay.tally(), (0, 0));
    Ok(())
}

/// Puts the addresses 1 to the room of the grey list on it.
fn fill_grey(bay: &mut Bay, room: u64)
    requires empty { bay.old.grey ≡ [] }
    requires room { room ≤ grey_room bay.old.layout }
    ensures { length bay.new.grey ≡ room }
{
    for a in 0..room {
        bay.grey(a + 1);
    }
}

/// Puts the addresses 1 to the room of the remembered list on it.
fn fill_remembered(bay: &mut Bay, room: u64)
    requires empty { bay.old.remembered ≡ [] }
    requires room { room ≤ remembered_room bay.old.layout }
    ensures { length bay.new.remembered ≡ room }
{
    for a in 0..room {
        bay.remember(a + 1);
    }
}

/// Puts 62 addresses into an empty batch.
fn fill_batch(batch: &mut Batch)
    requires { batch.old ≡ [] }
    ensures { length batch.new ≡ batch_room }
{
    for a in 0..62 {
        batch.push(a + 1);
    }
}

#[test]
fn the_grey_list_is_filled_and_emptied(rt: HostRuntime) -> Result<(), Fail> {
    let places = Places::make(1, 64, 1).ok_or("no places")?;
    let mut bay = Bay::make(rt.alloc(), places, 0)?;
    assert_eq!(rt; bay.peek_grey(), None);
    assert_eq!(rt; bay.next_grey(), None);
    fill_grey(&mut bay, 288);
    assert_eq!(rt; bay.peek_grey(), Some(288));
    let mut count = 0;
    while let Some(a) = bay.next_grey() {
        assert_eq!(rt; a, 288_u64.wrapping_sub(count));
        count = count.wrapping_add(1);
    }
    assert_eq!(rt; count, 288);
    Ok(())
}

#[test]
fn the_remembered_list_is_filled_and_dropped_from(rt: HostRuntime) -> Result<(), Fail> {
    let places = Places::make(2, 64, 1).ok_or("no places")?;
    let mut bay = Bay::make(rt.alloc(), places, 0)?;
    assert_eq!(rt; bay.remembered(0), None);
    fill_remembered(&mut bay, 512);
    assert_eq!(rt; bay.remembered(511), Some(512));
    assert_eq!(rt; bay.remembered(512), None);
    bay.drop_remembered(1);
    assert_eq!(rt; bay.remembered(0), Some(1));
    assert_eq!(rt; bay.remembered(1), Some(512));
    assert_eq!(rt; bay.remembered(510), Some(511));
    assert_eq!(rt; bay.remembered(511), None);
    bay.forget_all();
    assert_eq!(rt; bay.remembered(0), None);
    Ok(())
}

#[test]
fn a_batch_is_filled_to_62(rt: HostRuntime) -> Result<(), Fail> {
    let places = Places::make(3, 64, 1).ok_or("no places")?;
    let mut bay = Bay::make(rt.alloc(), places, 0)?;
    let batch = bay.batch(2);
    fill_batch(batch);
    assert!(rt; batch.is_full());
    assert_eq!(rt; batch.len(), 62);
    assert_eq!(rt; batch.at(61), Some(62));
    assert_eq!(rt; batch.at(62), None);
    assert_eq!(rt; bay.peek_batch(1).len(), 0);
    assert_eq!(rt; bay.peek_batch(2).len(), 62);
    bay.batch(2).clear();
    assert!(rt; bay.peek_batch(2).is_empty());
    Ok(())
}

/// Takes a whole half, a word of the other one, and a cell, of a bay that was just made, and looks at its batches.
/// The mutator's region begins at a start.
fn try_bay(rt: &impl Abort, bay: &mut Bay, start: u64, half: u64) -> Result<(), Fail> {
    let first = start.saturating_add(16);
    let second = first.saturating_add(half);
    assert_eq!(rt; bay.bump(half), Some(first));
    assert_eq!(rt; bay.bump(1), None);
    bay.flip();
    assert_eq!(rt; bay.bump(1), Some(second));
    assert_eq!(rt; bay.cell(64), Some(second.saturating_add(half)));
    assert_eq!(rt; bay.reg(15), 0);
    let places = bay.places();
    for owner in 0..places.mutators() {
        assert!(rt; bay.peek_batch(owner).is_empty());
    }
    Ok(())
}

#[test]
fn each_bay_is_made(rt: HostRuntime) -> Result<(), Fail> {
    for mutators in 1..=8u8 {
        for half in [64, 65, 4096, 65_535, 65_536u32] {
            for pages in [1, 2, 8, 127, 128u16] {
                let region = 16 + 2 * u64::from(half) + 1024 * u64::from(pages);
                let places = Places::make(mutators, half, pages).ok_or("no places")?;
                for m in 0..mutators {
                    let mut bay = Bay::make(rt.alloc(), places, m)?;
                    try_bay(&rt, &mut bay, 1 + u64::from(m) * region, u64::from(half))?;
                }
            }
        }
    }
    Ok(())
}

#[test]
fn a_bay_is_made_for_each_half_and_each_number_of_pages(rt: HostRuntime) -> Result<(), Fail> {
    for half in 64..=65_536u32 {
        let places = Places::make(1, half, 1).ok_or("no places")?;
        let bay = Bay::make(rt.alloc(), places, 0)?;
        assert_eq!(rt; bay.used(), 0);
    }
    for pages in 1..=128u16 {
        let places = Places::make(8, 64, pages).ok_or("no places")?;
        let bay = Bay::make(rt.alloc(), places, 7)?;
        assert_eq!(rt; bay.gen2().free_pages(), pages);
    }
    Ok(())
}

#[test]
fn the_lists_are_filled_for_each_number_of_mutators(rt: HostRuntime) -> Result<(), Fail> {
    for mutators in 1..=8u8 {
        let places = Places::make(mutators, 65, 2).ok_or("no places")?;
        let mut bay = Bay::make(rt.alloc(), places, 0)?;
        fill_grey(&mut bay, 544);
        assert_eq!(rt; bay.peek_grey(), Some(544));
        let mut bay = Bay::make(rt.alloc(), places, 0)?;
        fill_remembered(&mut bay, 512 * u64::from(mutators));
        assert_eq!(rt; bay.remembered(511), Some(512));
        assert!(rt; bay.remembered(512).is_some() == (mutators > 1));
    }
    Ok(())
}
