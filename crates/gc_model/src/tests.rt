//! The plain graph on small scripts, one call a line; on each number of mutators; on thousands of objects; and on the
//! widest types.
ghost use Rattle.std.specs.Prelude.{◌≡◌, ◌+◌, ◌<◌, ◌≤◌, ◌∷◌, [], length, IfOk};
ghost use Rattle.gc_layout.specs.Shape.{common_shape};
ghost use Rattle.gc_model.specs.Answer.{IsFit};
ghost use Rattle.gc_model.specs.World.{first_world};

use crate::Reply::{Blocked, Done, Found, Full, Nil, NilBase, No, NotBlocked, Number, Range, Yes};
use crate::{Call, Live, Reg, Reply, World};
use gc_layout::{NoMemory, Shape, TypeNo, Types};
use std::alloc::Global;
use std::test::Fail;

/// The type that a test adds.
const ADDED: TypeNo = TypeNo(1);

/// What is live where nothing names an object: the common object.
const ALONE: Live = Live {
    objects: 1,
    words: 18,
};

#[test]
fn registers_are_numbered_from_0_to_15(rt: HostRuntime) {
    assert_eq!(rt; Reg::make(15).map(|reg| reg.index()), Some(15));
    assert_eq!(rt; Reg::make(16), None);
}

#[test]
fn a_number_that_was_set_is_asked_for(rt: HostRuntime) -> Result<(), Fail> {
    let alloc = rt.alloc();
    let mut world = world_with(alloc, 0, 1, 1)?;
    assert_eq!(rt; call(&mut world, alloc, 0, new(0))?, Done);
    assert_eq!(rt; call(&mut world, alloc, 0, ask(0, 0))?, Number(0));
    assert_eq!(rt; call(&mut world, alloc, 0, set(0, 0, u64::MAX))?, Done);
    assert_eq!(rt; call(&mut world, alloc, 0, ask(0, 0))?, Number(u64::MAX));
    Ok(())
}

#[test]
fn refusals_come_in_their_order(rt: HostRuntime) -> Result<(), Fail> {
    let alloc = rt.alloc();
    let mut world = world_with(alloc, 0, 1, 1)?;
    assert_eq!(rt; world.answer(alloc, 0, &new(15), false)?, Full);
    assert_eq!(rt; call(&mut world, alloc, 0, ask(15, 1))?, NilBase);
    assert_eq!(rt; call(&mut world, alloc, 0, set(15, 1, 7))?, NilBase);
    assert_eq!(rt; call(&mut world, alloc, 0, new(15))?, Done);
    assert_eq!(rt; call(&mut world, alloc, 0, ask(15, 1))?, Range);
    assert_eq!(rt; call(&mut world, alloc, 0, set(15, 1, 7))?, Range);
    assert_eq!(rt; call(&mut world, alloc, 0, get(0, 15, 0))?, Range);
    Ok(())
}

#[test]
fn what_was_put_into_a_slot_is_loaded(rt: HostRuntime) -> Result<(), Fail> {
    let alloc = rt.alloc();
    let mut world = world_with(alloc, 2, 1, 1)?;
    assert_eq!(rt; call(&mut world, alloc, 0, new(0))?, Done);
    assert_eq!(rt; call(&mut world, alloc, 0, get(1, 0, 2))?, Range);
    assert_eq!(rt; call(&mut world, alloc, 0, get(1, 0, 1))?, Nil);
    assert_eq!(rt; call(&mut world, alloc, 0, same(0, 1))?, No);
    assert_eq!(rt; call(&mut world, alloc, 0, put(0, 1, 0))?, Done);
    assert_eq!(rt; call(&mut world, alloc, 0, get(1, 0, 1))?, Done);
    assert_eq!(rt; call(&mut world, alloc, 0, same(0, 1))?, Yes);
    assert_eq!(rt; call(&mut world, alloc, 0, clear(0))?, Done);
    assert_eq!(rt; call(&mut world, alloc, 0, put(0, 1, 0))?, NilBase);
    Ok(())
}

#[test]
fn only_the_expected_number_is_swapped(rt: HostRuntime) -> Result<(), Fail> {
    let alloc = rt.alloc();
    let mut world = world_with(alloc, 2, 1, 1)?;
    assert_eq!(rt; call(&mut world, alloc, 0, new(0))?, Done);
    assert_eq!(rt; call(&mut world, alloc, 0, swap_if(0, 0, 5, 6))?, Found(0));
    assert_eq!(rt; call(&mut world, alloc, 0, swap_if(0, 0, 0, 6))?, Yes);
    assert_eq!(rt; call(&mut world, alloc, 0, swap_if(0, 0, 0, 6))?, Found(6));
    Ok(())
}

#[test]
fn a_blocked_mutator_may_only_unblock_or_end(rt: HostRuntime) -> Result<(), Fail> {
    let alloc = rt.alloc();
    let mut world = world_with(alloc, 2, 1, 1)?;
    assert_eq!(rt; call(&mut world, alloc, 0, new(0))?, Done);
    assert_eq!(rt; call(&mut world, alloc, 0, Call::Unblock)?, NotBlocked);
    assert_eq!(rt; call(&mut world, alloc, 0, Call::Block)?, Done);
    assert_eq!(rt; call(&mut world, alloc, 0, ask(0, 0))?, Blocked);
    assert_eq!(rt; call(&mut world, alloc, 0, Call::Unblock)?, Done);
    assert_eq!(rt; call(&mut world, alloc, 0, ask(0, 0))?, Number(0));
    assert_eq!(rt; call(&mut world, alloc, 0, Call::End)?, Done);
    assert_eq!(rt; call(&mut world, alloc, 0, Call::Safepoint)?, Blocked);
    assert_eq!(rt; call(&mut world, alloc, 0, Call::End)?, Done);
    assert_eq!(rt; call(&mut world, alloc, 0, Call::Unblock)?, Done);
    assert_eq!(rt; call(&mut world, alloc, 0, ask(0, 0))?, NilBase);
    Ok(())
}

#[test]
fn what_was_shared_is_taken(rt: HostRuntime) -> Result<(), Fail> {
    let alloc = rt.alloc();
    let mut world = world_with(alloc, 2, 1, 1)?;
    assert_eq!(rt; call(&mut world, alloc, 0, take(1, 15))?, Nil);
    assert_eq!(rt; call(&mut world, alloc, 0, new(0))?, Done);
    assert_eq!(rt; call(&mut world, alloc, 0, share(15, 0))?, Done);
    assert_eq!(rt; call(&mut world, alloc, 0, take(1, 15))?, Done);
    assert_eq!(rt; call(&mut world, alloc, 0, same(0, 1))?, Yes);
    assert_eq!(rt; call(&mut world, alloc, 0, wait(1, 14))?, Nil);
    Ok(())
}

#[test]
fn the_common_object_and_what_registers_name_are_live(rt: HostRuntime) -> Result<(), Fail> {
    let alloc = rt.alloc();
    let mut world = world_with(alloc, 0, 1, 1)?;
    assert_eq!(rt; world.count_live(alloc)?, ALONE);
    assert_eq!(rt; call(&mut world, alloc, 0, new(15))?, Done);
    assert_eq!(rt; world.count_live(alloc)?, live(2, 21));
    assert_eq!(rt; call(&mut world, alloc, 0, Call::Block)?, Done);
    assert_eq!(rt; world.count_live(alloc)?, live(2, 21));
    assert_eq!(rt; call(&mut world, alloc, 0, Call::Unblock)?, Done);
    assert_eq!(rt; call(&mut world, alloc, 0, clear(15))?, Done);
    assert_eq!(rt; world.count_live(alloc)?, ALONE);
    Ok(())
}

/// The last slot of the first object alone names the second.
#[test]
fn what_live_objects_name_is_live(rt: HostRuntime) -> Result<(), Fail> {
    let alloc = rt.alloc();
    let mut world = world_with(alloc, 2, 0, 1)?;
    assert_eq!(rt; call(&mut world, alloc, 0, new(0))?, Done);
    assert_eq!(rt; call(&mut world, alloc, 0, new(1))?, Done);
    assert_eq!(rt; call(&mut world, alloc, 0, put(0, 1, 1))?, Done);
    assert_eq!(rt; call(&mut world, alloc, 0, clear(1))?, Done);
    assert_eq!(rt; world.count_live(alloc)?, live(3, 26));
    assert_eq!(rt; call(&mut world, alloc, 0, share(15, 0))?, Done);
    assert_eq!(rt; call(&mut world, alloc, 0, Call::End)?, Done);
    assert_eq!(rt; world.count_live(alloc)?, live(3, 26));
    Ok(())
}

#[test]
fn a_cycle_that_nothing_names_is_not_live(rt: HostRuntime) -> Result<(), Fail> {
    let alloc = rt.alloc();
    let mut world = world_with(alloc, 2, 0, 1)?;
    assert_eq!(rt; call(&mut world, alloc, 0, new(0))?, Done);
    assert_eq!(rt; call(&mut world, alloc, 0, new(1))?, Done);
    assert_eq!(rt; call(&mut world, alloc, 0, put(0, 0, 1))?, Done);
    assert_eq!(rt; call(&mut world, alloc, 0, put(1, 1, 0))?, Done);
    assert_eq!(rt; call(&mut world, alloc, 0, clear(1))?, Done);
    assert_eq!(rt; world.count_live(alloc)?, live(3, 26));
    assert_eq!(rt; call(&mut world, alloc, 0, clear(0))?, Done);
    assert_eq!(rt; world.count_live(alloc)?, ALONE);
    Ok(())
}

#[test]
fn an_object_may_have_62_slots(rt: HostRuntime) -> Result<(), Fail> {
    let alloc = rt.alloc();
    let mut world = world_with(alloc, 62, 0, 1)?;
    assert_eq!(rt; call(&mut world, alloc, 0, new(0))?, Done);
    assert_eq!(rt; call(&mut world, alloc, 0, get(1, 0, 62))?, Range);
    assert_eq!(rt; call(&mut world, alloc, 0, get(1, 0, 61))?, Nil);
    assert_eq!(rt; call(&mut world, alloc, 0, put(0, 61, 0))?, Done);
    assert_eq!(rt; call(&mut world, alloc, 0, get(1, 0, 61))?, Done);
    assert_eq!(rt; call(&mut world, alloc, 0, same(0, 1))?, Yes);
    assert_eq!(rt; call(&mut world, alloc, 0, get(1, 0, 60))?, Nil);
    assert_eq!(rt; world.count_live(alloc)?, live(2, 82));
    Ok(())
}

#[test]
fn an_object_may_have_62_numbers(rt: HostRuntime) -> Result<(), Fail> {
    let alloc = rt.alloc();
    let mut world = world_with(alloc, 0, 62, 1)?;
    assert_eq!(rt; call(&mut world, alloc, 0, new(0))?, Done);
    assert_eq!(rt; call(&mut world, alloc, 0, set(0, 62, 7))?, Range);
    assert_eq!(rt; call(&mut world, alloc, 0, set(0, 61, 7))?, Done);
    assert_eq!(rt; call(&mut world, alloc, 0, ask(0, 61))?, Number(7));
    assert_eq!(rt; call(&mut world, alloc, 0, ask(0, 60))?, Number(0));
    assert_eq!(rt; world.count_live(alloc)?, live(2, 82));
    Ok(())
}

#[test]
fn each_of_up_to_8_mutators_makes_objects(rt: HostRuntime) -> Result<(), Fail> {
    let alloc = rt.alloc();
    for mutators in 1..=8u8 {
        let made = u64::from(mutators);
        assert_eq!(rt;
            live_of_each(alloc, mutators)?,
            live(1 + made, 18 + 3 * made),
            "at {mutators} mutators"
        );
    }
    Ok(())
}

#[test]
fn an_object_has_each_shape(rt: HostRuntime) -> Result<(), Fail> {
    let alloc = rt.alloc();
    for slots in 0..63u8 {
        for numbers in 0..63 - slots {
            let mut world = world_with(alloc, slots, numbers, 1)?;
            assert_eq!(rt;
                call(&mut world, alloc, 0, new(0))?,
                Done,
                "at {slots} and {numbers}"
            );
            let words = 20 + u64::from(slots) + u64::from(numbers);
            assert_eq!(rt;
                world.count_live(alloc)?,
                live(2, words),
                "at {slots} and {numbers}"
            );
        }
    }
    Ok(())
}

#[test]
fn each_register_names_an_object(rt: HostRuntime) -> Result<(), Fail> {
    let alloc = rt.alloc();
    for into in 0..16u8 {
        let mut world = world_with(alloc, 0, 1, 1)?;
        assert_eq!(rt;
            call(&mut world, alloc, 0, new(into))?,
            Done,
            "at register {into}"
        );
        assert_eq!(rt; world.count_live(alloc)?, live(2, 21), "at register {into}");
    }
    Ok(())
}

/// With each number of types an object of the last one is made.
#[test]
fn there_may_be_each_number_of_types(rt: HostRuntime) -> Result<(), Fail> {
    let alloc = rt.alloc();
    let mut types = Types::make(alloc)?;
    assert_eq!(rt; live_of_one(alloc, &types, TypeNo(0))?, live(2, 36));
    for _ in 0..255u8 {
        let shape = Shape {
            slots: 1,
            numbers: 0,
        };
        let Ok(ty) = types.add(shape) else {
            break;
        };
        assert_eq!(rt; live_of_one(alloc, &types, ty)?, live(2, 21), "at {ty:?}");
    }
    assert_eq!(rt; types.count(), 256);
    Ok(())
}

#[test]
fn each_number_of_objects_is_counted(rt: HostRuntime) -> Result<(), Fail> {
    let alloc = rt.alloc();
    for made in 0..150u16 {
        let count = u64::from(made);
        assert_eq!(rt;
            live_of_chain(alloc, made)?,
            live(1 + count, 18 + 4 * count),
            "at {made} objects"
        );
    }
    Ok(())
}

#[test]
fn more_than_65_536_objects_are_counted(rt: HostRuntime) -> Result<(), Fail> {
    let alloc = rt.alloc();
    let mut world = world_with(alloc, 2, 0, 8)?;
    link(&mut world, alloc, 25_000)?;
    assert_eq!(rt; world.count_live(alloc)?, live(25_001, 100_018));
    link(&mut world, alloc, 41_000)?;
    assert_eq!(rt; world.count_live(alloc)?, live(66_001, 264_018));
    Ok(())
}

#[test]
fn thousands_of_objects_are_counted(rt: HostRuntime) -> Result<(), Fail> {
    let alloc = rt.alloc();
    let mut world = world_with(alloc, 2, 0, 8)?;
    link(&mut world, alloc, 3000)?;
    assert_eq!(rt; world.count_live(alloc)?, live(3001, 12018));
    assert_eq!(rt; call(&mut world, alloc, 7, clear(1))?, Done);
    assert_eq!(rt; world.count_live(alloc)?, live(3001, 12018));
    assert_eq!(rt; call(&mut world, alloc, 7, get(0, 0, 1))?, Done);
    assert_eq!(rt; world.count_live(alloc)?, live(3000, 12014));
    assert_eq!(rt; call(&mut world, alloc, 7, Call::End)?, Done);
    assert_eq!(rt; world.count_live(alloc)?, ALONE);
    Ok(())
}

/// What is live once each of so many mutators has made an object of 3 words.
fn live_of_each(alloc: Global, mutators: u8) -> Result<Live, NoMemory>
    requires some { 0 < mutators }
    requires few { mutators ≤ 8 }
{
    let mut world = world_with(alloc, 0, 1, mutators)?;
    for t in 0..mutators {
        call(&mut world, alloc, t, new(0))?;
    }
    world.count_live(alloc)
}

/// What is live once mutator 7 has made so many objects, each of which names the one before.
fn live_of_chain(alloc: Global, count: u16) -> Result<Live, NoMemory> {
    let mut world = world_with(alloc, 2, 0, 8)?;
    link(&mut world, alloc, count)?;
    world.count_live(alloc)
}

/// What is live in a world of these types once its one mutator has made an object of this type.
fn live_of_one(alloc: Global, types: &Types, ty: TypeNo) -> Result<Live, NoMemory>
    requires { ty.0 < length types.now }
{
    let mut world = World::make(alloc, types, 1)?;
    let into = reg(0);
    call(&mut world, alloc, 0, Call::New { into, ty })?;
    world.count_live(alloc)
}

/// Mutator 7 makes so many objects, each of which names the one before in its slot 1. Its registers 0 and 1 name
/// the last one.
fn link(world: &mut World, alloc: Global, count: u16) -> Result<(), NoMemory>
    requires types { length world.old.types ≡ 2 }
    requires mutators { length world.old.world.mutators ≡ 8 }
    ensures types { length world.new.types ≡ 2 }
    ensures mutators { length world.new.world.mutators ≡ 8 }
{
    for _ in 0..count {
        call(world, alloc, 7, new(0))?;
        call(world, alloc, 7, put(0, 1, 1))?;
        call(world, alloc, 7, copy(1, 0))?;
    }
    Ok(())
}

/// The first world of so many mutators, with a type of so many slots and numbers.
fn world_with(alloc: Global, slots: u8, numbers: u8, mutators: u8) -> Result<World, NoMemory>
    requires size { slots + numbers ≤ 62 }
    requires some { 0 < mutators }
    requires few { mutators ≤ 8 }
    ensures { IfOk result (λ made. made ≡ record {
      types = common_shape ∷ record { slots = slots; numbers = numbers } ∷ [];
      world = first_world mutators;
    }) }
{
    let mut types = Types::make(alloc)?;
    match types.add(Shape { slots, numbers }) {
        Ok(_) => World::make(alloc, &types, mutators),
        Err(_) => unreachable!(),
    }
}

/// What a mutator is answered where there is room.
fn call(world: &mut World, alloc: Global, t: u8, call: Call) -> Result<Reply, NoMemory>
    requires { IsFit world.old.types (length world.old.world.mutators) t call }
    ensures types { world.new.types ≡ world.old.types }
    ensures mutators { length world.new.world.mutators ≡ length world.old.world.mutators }
{
    world.answer(alloc, t, &call, true)
}

/// So many objects, and so many words of them.
fn live(objects: u64, words: u64) -> Live {
    Live { objects, words }
}

/// The register of a number.
fn reg(number: u8) -> Reg
    requires { number < 16 }
    ensures { result ≡ number }
{
    match Reg::make(number) {
        Some(reg) => reg,
        None => unreachable!(),
    }
}

/// A New of the type that a test adds.
fn new(into: u8) -> Call
    requires { into < 16 }
    ensures { result ≡ Call.New into ADDED }
{
    Call::New {
        into: reg(into),
        ty: ADDED,
    }
}

/// A Get.
fn get(into: u8, base: u8, place: u8) -> Call
    requires into { into < 16 }
    requires base { base < 16 }
    ensures { result ≡ Call.Get into base place }
{
    Call::Get {
        into: reg(into),
        base: reg(base),
        place,
    }
}

/// A Put.
fn put(base: u8, place: u8, value: u8) -> Call
    requires base { base < 16 }
    requires value { value < 16 }
    ensures { result ≡ Call.Put base place value }
{
    Call::Put {
        base: reg(base),
        place,
        value: reg(value),
    }
}

/// An Ask.
fn ask(base: u8, place: u8) -> Call
    requires { base < 16 }
    ensures { result ≡ Call.Ask base place }
{
    Call::Ask {
        base: reg(base),
        place,
    }
}

/// A Set.
fn set(base: u8, place: u8, number: u64) -> Call
    requires { base < 16 }
    ensures { result ≡ Call.Set base place number }
{
    Call::Set {
        base: reg(base),
        place,
        number,
    }
}

/// A SwapIf.
fn swap_if(base: u8, place: u8, expected: u64, replacement: u64) -> Call
    requires { base < 16 }
    ensures { result ≡ Call.SwapIf base place expected replacement }
{
    Call::SwapIf {
        base: reg(base),
        place,
        expected,
        replacement,
    }
}

/// A Same.
fn same(left: u8, right: u8) -> Call
    requires left { left < 16 }
    requires right { right < 16 }
    ensures { result ≡ Call.Same left right }
{
    Call::Same {
        left: reg(left),
        right: reg(right),
    }
}

/// A CopyReg.
fn copy(into: u8, source: u8) -> Call
    requires into { into < 16 }
    requires source { source < 16 }
    ensures { result ≡ Call.CopyReg into source }
{
    Call::CopyReg {
        into: reg(into),
        source: reg(source),
    }
}

/// A ClearReg.
fn clear(cleared: u8) -> Call
    requires { cleared < 16 }
    ensures { result ≡ Call.ClearReg cleared }
{
    Call::ClearReg { reg: reg(cleared) }
}

/// A Share.
fn share(place: u8, value: u8) -> Call
    requires { value < 16 }
    ensures { result ≡ Call.Share place value }
{
    Call::Share {
        place,
        value: reg(value),
    }
}

/// A Take.
fn take(into: u8, place: u8) -> Call
    requires { into < 16 }
    ensures { result ≡ Call.Take into place }
{
    Call::Take {
        into: reg(into),
        place,
    }
}

/// An Await.
fn wait(into: u8, place: u8) -> Call
    requires { into < 16 }
    ensures { result ≡ Call.Await into place }
{
    Call::Await {
        into: reg(into),
        place,
    }
}
