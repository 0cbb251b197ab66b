//! A heap of one thread by its calls, one call a line: a box, a half that is filled to its last word, an object that two
//! mutators share, collections, which of them a call brings and what survives them, and the room for reports.
ghost use Rattle.std.specs.Prelude.{◌≡◌, ◌<◌, ◌≤◌, ◌+◌, length, IfOk};
ghost use Rattle.gc_model.specs.Answer.{IsFit};
ghost use Rattle.gc_solo.specs.Kept.{IsSameHeap};

use crate::Solo;
use gc_layout::{NoMemory, Places, Shape, TypeNo, Types};
use gc_model::Reply::{Done, Full, Nil, NilBase, Number, Range};
use gc_model::{Call, Reg, Reply, RunKind, RunReport};
use std::alloc::Global;
use std::process::Abort;
use std::test::Fail;

/// The type of a box: 4 words, with one slot and one number.
const BOX: TypeNo = TypeNo(1);

#[test]
fn a_number_that_was_set_is_asked_for(rt: HostRuntime) -> Result<(), Fail> {
    let mut solo = solo(rt.alloc(), 1, 1, 8)?;
    assert_eq!(rt; call(&rt, &mut solo, 0, ask(0, 0)), NilBase);
    assert_eq!(rt; call(&rt, &mut solo, 0, new(0)), Done);
    assert_eq!(rt; call(&rt, &mut solo, 0, ask(0, 0)), Number(0));
    assert_eq!(rt; call(&rt, &mut solo, 0, set(0, 0, 7)), Done);
    assert_eq!(rt; call(&rt, &mut solo, 0, ask(0, 0)), Number(7));
    assert_eq!(rt; call(&rt, &mut solo, 0, ask(0, 1)), Range);
    Ok(())
}

/// A half of 64 words has 16 boxes of 4 words. They are named, so the two collections that the next one brings keep them;
/// they have no room in a page either, since the only page of mutator 0 has the class of the common object.
#[test]
fn a_half_is_full_at_its_last_word(rt: HostRuntime) -> Result<(), Fail> {
    let mut solo = solo(rt.alloc(), 2, 1, 8)?;
    make_boxes(&rt, &mut solo, 16);
    assert_eq!(rt; solo.reports_left(), 8);
    assert_eq!(rt; call(&rt, &mut solo, 0, new(0)), Full);
    assert_eq!(rt; solo.reports_left(), 6);
    assert_eq!(rt; solo.run(0), Some(RunReport::Minor));
    assert_eq!(rt;
        solo.run(1),
        Some(RunReport::Full {
            objects: 17,
            words: 82
        })
    );

    // Another mutator has a half of its own, and where one of the boxes is dropped its words come back.
    assert_eq!(rt; call(&rt, &mut solo, 1, new(0)), Done);
    assert_eq!(rt; solo.reports_left(), 6);
    assert_eq!(rt; call(&rt, &mut solo, 0, clear(5)), Done);
    assert_eq!(rt; call(&rt, &mut solo, 0, new(5)), Done);
    assert_eq!(rt; solo.reports_left(), 5);
    assert_eq!(rt; call(&rt, &mut solo, 0, new(5)), Full);
    assert_eq!(rt; solo.reports_left(), 3);
    Ok(())
}

/// The second collection promotes the first box, and so gives one of four pages a class: a full one is due. The next New that
/// doesn't fit the half brings it, and finds a free cell in that page. Behind it none is due.
#[test]
fn a_full_collection_is_made_where_it_is_due(rt: HostRuntime) -> Result<(), Fail> {
    let mut solo = solo(rt.alloc(), 1, 4, 8)?;
    assert_eq!(rt; call(&rt, &mut solo, 0, new(0)), Done);
    collect(&rt, &mut solo);
    collect(&rt, &mut solo);
    make_boxes(&rt, &mut solo, 16);
    assert_eq!(rt; solo.reports_left(), 6);
    assert_eq!(rt; call(&rt, &mut solo, 0, new(0)), Done);
    assert_eq!(rt; solo.reports_left(), 5);
    assert_eq!(rt;
        solo.run(2),
        Some(RunReport::Full {
            objects: 17,
            words: 82
        })
    );
    assert_eq!(rt; call(&rt, &mut solo, 0, new(0)), Done);
    assert_eq!(rt; solo.reports_left(), 4);
    assert_eq!(rt; solo.run(3), Some(RunReport::Minor));
    Ok(())
}

/// The two boxes that are named stay, and the third is given back.
#[test]
fn a_collect_brings_a_full_collection(rt: HostRuntime) -> Result<(), Fail> {
    let mut solo = solo(rt.alloc(), 1, 8, 8)?;
    make_boxes(&rt, &mut solo, 3);
    assert_eq!(rt; call(&rt, &mut solo, 0, clear(1)), Done);
    assert_eq!(rt; call(&rt, &mut solo, 0, Call::Collect), Done);
    assert_eq!(rt; solo.reports_left(), 7);
    assert_eq!(rt;
        solo.run(0),
        Some(RunReport::Full {
            objects: 3,
            words: 26
        })
    );
    assert_eq!(rt; call(&rt, &mut solo, 0, ask(2, 0)), Number(0));
    Ok(())
}

#[test]
fn two_mutators_share_an_object(rt: HostRuntime) -> Result<(), Fail> {
    let mut solo = solo(rt.alloc(), 2, 1, 8)?;
    assert_eq!(rt; call(&rt, &mut solo, 1, take(2, 15)), Nil);
    assert_eq!(rt; call(&rt, &mut solo, 0, new(0)), Done);
    assert_eq!(rt; call(&rt, &mut solo, 0, share(15, 0)), Done);
    assert_eq!(rt; call(&rt, &mut solo, 1, take(2, 15)), Done);
    assert_eq!(rt; call(&rt, &mut solo, 1, set(2, 0, 7)), Done);
    assert_eq!(rt; call(&rt, &mut solo, 0, ask(0, 0)), Number(7));
    Ok(())
}

/// The second collection promotes the first box. The second box is young, and the old one names it.
#[test]
fn an_old_object_keeps_a_young_one(rt: HostRuntime) -> Result<(), Fail> {
    let mut solo = solo(rt.alloc(), 1, 8, 8)?;
    assert_eq!(rt; call(&rt, &mut solo, 0, new(0)), Done);
    collect(&rt, &mut solo);
    collect(&rt, &mut solo);
    assert_eq!(rt; call(&rt, &mut solo, 0, new(1)), Done);
    assert_eq!(rt; call(&rt, &mut solo, 0, set(1, 0, 7)), Done);
    assert_eq!(rt; call(&rt, &mut solo, 0, put(0, 0, 1)), Done);
    assert_eq!(rt; call(&rt, &mut solo, 0, clear(1)), Done);
    collect(&rt, &mut solo);
    assert_eq!(rt; call(&rt, &mut solo, 0, get(1, 0, 0)), Done);
    assert_eq!(rt; call(&rt, &mut solo, 0, ask(1, 0)), Number(7));
    Ok(())
}

/// The same calls, the collections behind all of them: both boxes are promoted by the second one.
#[test]
fn a_young_object_keeps_a_young_one(rt: HostRuntime) -> Result<(), Fail> {
    let mut solo = solo(rt.alloc(), 1, 8, 8)?;
    assert_eq!(rt; call(&rt, &mut solo, 0, new(0)), Done);
    assert_eq!(rt; call(&rt, &mut solo, 0, new(1)), Done);
    assert_eq!(rt; call(&rt, &mut solo, 0, set(1, 0, 7)), Done);
    assert_eq!(rt; call(&rt, &mut solo, 0, put(0, 0, 1)), Done);
    assert_eq!(rt; call(&rt, &mut solo, 0, clear(1)), Done);
    collect(&rt, &mut solo);
    collect(&rt, &mut solo);
    collect(&rt, &mut solo);
    assert_eq!(rt; call(&rt, &mut solo, 0, get(1, 0, 0)), Done);
    assert_eq!(rt; call(&rt, &mut solo, 0, ask(1, 0)), Number(7));
    Ok(())
}

#[test]
fn there_is_room_for_reports_and_no_report(rt: HostRuntime) -> Result<(), Fail> {
    let solo = solo(rt.alloc(), 1, 1, 2)?;
    assert_eq!(rt; solo.reports_left(), 2);
    assert_eq!(rt; solo.run(0), None);
    assert!(rt; solo.reports().is_empty());
    Ok(())
}

/// With so many report places so many collections are made, and each of them is told as minor.
#[test]
fn each_report_place_has_a_collection(rt: HostRuntime) -> Result<(), Fail> {
    for places in [0u32, 1, 2, 3, 100] {
        let mut solo = solo(rt.alloc(), 1, 1, places)?;
        for made in 0..places {
            assert_eq!(rt; solo.reports_left(), places - made);
            assert_eq!(rt; solo.run(made as usize), None);
            collect(&rt, &mut solo);
            assert_eq!(rt; solo.run(made as usize), Some(RunReport::Minor));
        }
        assert_eq!(rt; solo.reports_left(), 0);
        for told in 0..places {
            assert_eq!(rt; solo.run(told as usize), Some(RunReport::Minor));
        }
        assert_eq!(rt; solo.run(places as usize), None);
        assert_eq!(rt; solo.reports().len(), places as usize);
    }
    Ok(())
}

/// Makes so many boxes, which the first registers of mutator 0 come to name.
fn make_boxes<R: Abort>(rt: &R, solo: &mut Solo, count: u8)
    requires types { length solo.old.types ≡ 2 }
    requires some { 1 ≤ solo.old.layout.mutators }
    requires registers { count ≤ 16 }
    ensures same { IsSameHeap solo.old solo.new }
{
    for into in 0..count {
        assert_eq!(rt; call(rt, solo, 0, new(into)), Done);
    }
}

/// A heap of so many mutators, with halves of 64 words, so many pages each, the type of a box, and room for so many
/// reports.
fn solo(alloc: Global, mutators: u8, pages: u16, reports: u32) -> Result<Solo, NoMemory>
    requires some { 1 ≤ mutators }
    requires few { mutators ≤ 8 }
    requires pages { 1 ≤ pages }
    requires few_pages { pages ≤ 128 }
    ensures types { IfOk result (λ made. length made.types ≡ 2) }
    ensures mutators { IfOk result (λ made. made.layout.mutators ≡ mutators) }
    ensures room { IfOk result (λ made. made.room ≡ reports) }
{
    let mut types = Types::make(alloc)?;
    let shape = Shape {
        slots: 1,
        numbers: 1,
    };
    match (types.add(shape), Places::make(mutators, 64, pages)) {
        (Ok(_), Some(places)) => Solo::make(alloc, places, &types, reports),
        _ => unreachable!(),
    }
}

/// What a mutator is answered, where there is room for two reports.
fn call<R: Abort>(rt: &R, solo: &mut Solo, t: u8, call: Call) -> Reply
    requires fit { IsFit solo.old.types solo.old.layout.mutators t call }
    ensures same { IsSameHeap solo.old solo.new }
{
    assert!(rt; solo.reports_left() >= 2);
    solo.call(t, &call)
}

/// Makes a collection, where there is room for its report.
fn collect<R: Abort>(rt: &R, solo: &mut Solo)
    ensures same { IsSameHeap solo.old solo.new }
    ensures room { solo.new.room + 1 ≡ solo.old.room }
{
    assert!(rt; solo.reports_left() >= 1);
    assert_eq!(rt; solo.collect(RunKind::Minor), RunReport::Minor);
}

/// The register of a number.
fn reg(number: u8) -> Reg
    requires { number < 16 }
    ensures { result ≡ number }
{
    match Reg::make(number) {
        Some(reg) => reg,
        None => unreachable!(),
    }
}

/// A New of a box.
fn new(into: u8) -> Call
    requires { into < 16 }
    ensures { result ≡ Call.New into BOX }
{
    Call::New {
        into: reg(into),
        ty: BOX,
    }
}

/// An Ask.
fn ask(base: u8, place: u8) -> Call
    requires { base < 16 }
    ensures { result ≡ Call.Ask base place }
{
    Call::Ask {
        base: reg(base),
        place,
    }
}

/// A Set.
fn set(base: u8, place: u8, number: u64) -> Call
    requires { base < 16 }
    ensures { result ≡ Call.Set base place number }
{
    Call::Set {
        base: reg(base),
        place,
        number,
    }
}

/// A Share.
fn share(place: u8, value: u8) -> Call
    requires { value < 16 }
    ensures { result ≡ Call.Share place value }
{
    Call::Share {
        place,
        value: reg(value),
    }
}

/// A Take.
fn take(into: u8, place: u8) -> Call
    requires { into < 16 }
    ensures { result ≡ Call.Take into place }
{
    Call::Take {
        into: reg(into),
        place,
    }
}

/// A Get.
fn get(into: u8, base: u8, place: u8) -> Call
    requires into { into < 16 }
    requires base { base < 16 }
    ensures { result ≡ Call.Get into base place }
{
    Call::Get {
        into: reg(into),
        base: reg(base),
        place,
    }
}

/// A Put.
fn put(base: u8, place: u8, value: u8) -> Call
    requires base { base < 16 }
    requires value { value < 16 }
    ensures { result ≡ Call.Put base place value }
{
    Call::Put {
        base: reg(base),
        place,
        value: reg(value),
    }
}

/// A ClearReg.
fn clear(number: u8) -> Call
    requires { number < 16 }
    ensures { result ≡ Call.ClearReg number }
{
    Call::ClearReg { reg: reg(number) }
}
