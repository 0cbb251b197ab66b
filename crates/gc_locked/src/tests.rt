//! Calls by step: of one mutator and of two in turn; an Await that finds nothing; and the collections that
//! calls bring.
ghost use Rattle.std.specs.Prelude.{◌≡◌, ◌<◌, ◌≤◌, All, length, IfOk};
ghost use Rattle.gc_model.specs.Answer.{Suits};
ghost use Rattle.gc_model.specs.History.{calls_in};
ghost use Rattle.gc_locked.specs.Locked.{AreFirstPasses, IsPassOf};
ghost use Rattle.gc_locked.specs.Setup.{lines_of, mutators_of};

use crate::{Journal, Locked, Pass};
use gc_layout::{NoMemory, Places, Shape, TypeNo, Types};
use gc_model::Reply::{Done, Nil, NilBase, Number, Yes};
use gc_model::{Call, Entry, Line, Reg, Reply, RunReport};
use std::alloc::{AllocError, Global};
use std::process::Abort;
use std::sync::Wait;
use std::test::Fail;

/// The type of a box: 3 words, with no slot and one number.
const BOX: TypeNo = TypeNo(1);

#[test]
fn a_box_is_played_by_step(rt: HostRuntime) -> Result<(), Fail> {
    let lines = [
        line(0, new(0)),
        line(0, set(0, 0, 42)),
        line(0, ask(0, 0)),
        line(0, same(0, 0)),
        line(0, ask(1, 0)),
    ];
    let wanted = [
        made(0, new(0), Done),
        made(0, set(0, 0, 42), Done),
        made(0, ask(0, 0), Number(42)),
        made(0, same(0, 0), Yes),
        made(0, ask(1, 0), NilBase),
        made(0, Call::End, Done),
    ];
    let journal = play_alone(&rt, rt.alloc(), &lines)?;
    assert_entries(&rt, &journal, &wanted);
    Ok(())
}

/// The lines of mutator 0 stand before those of mutator 1. They are played in turn, and so the journal has them.
#[test]
fn two_mutators_step_in_turn(rt: HostRuntime) -> Result<(), Fail> {
    let lines = [
        line(0, new(0)),
        line(0, share(3, 0)),
        line(0, set(0, 0, 7)),
        line(1, take(2, 3)),
        line(1, take(2, 3)),
        line(1, ask(2, 0)),
    ];
    let wanted = [
        made(0, new(0), Done),
        made(1, take(2, 3), Nil),
        made(0, share(3, 0), Done),
        made(1, take(2, 3), Done),
        made(0, set(0, 0, 7), Done),
        made(1, ask(2, 0), Number(7)),
        made(0, Call::End, Done),
        made(1, Call::End, Done),
    ];
    let (locked, mut first, mut second) = pair(rt.alloc(), &lines)?;
    assert_eq!(rt; (first.mutator(), first.made()), (0, 0));
    assert_eq!(rt; (second.mutator(), second.made()), (1, 0));
    step_both(&rt, &locked, &mut first, &mut second, &lines);
    assert_eq!(rt; (first.made(), second.made()), (1, 1));
    step_both(&rt, &locked, &mut first, &mut second, &lines);
    assert_eq!(rt; (first.made(), second.made()), (2, 2));
    step_both(&rt, &locked, &mut first, &mut second, &lines);
    assert_eq!(rt; (first.made(), second.made()), (3, 3));
    step_both(&rt, &locked, &mut first, &mut second, &lines);
    assert_eq!(rt; (first.made(), second.made()), (4, 4));
    assert_eq!(rt; (first.mutator(), second.mutator()), (0, 1));
    let journal = finish_pair(rt.alloc(), locked, first, second)?;
    assert_entries(&rt, &journal, &wanted);
    assert_replies(&rt, &journal, &[Done, Done, Done, Nil, Done, Number(7)]);
    Ok(())
}

/// The plan is played only in part: mutator 0 makes one call of two, and mutator 1 none.
#[test]
fn a_heap_is_finished_in_the_middle(rt: HostRuntime) -> Result<(), Fail> {
    let lines = [line(1, new(1)), line(0, new(0))];
    let (locked, mut first, second) = pair(rt.alloc(), &lines)?;
    step(&rt, &locked, &mut first, &lines);
    let journal = finish_pair(rt.alloc(), locked, first, second)?;
    assert_entries(&rt, &journal, &[made(0, new(0), Done)]);
    Ok(())
}

/// It is asked 1,000,000 times, and stands in the journal once.
#[test]
fn an_await_that_finds_nothing_is_nil(rt: HostRuntime) -> Result<(), Fail> {
    let lines = [line(0, wait_for(0, 5))];
    let wanted = [made(0, wait_for(0, 5), Nil), made(0, Call::End, Done)];
    let journal = play_alone(&rt, rt.alloc(), &lines)?;
    assert_entries(&rt, &journal, &wanted);
    Ok(())
}

#[test]
fn an_await_finds_what_another_shared(rt: HostRuntime) -> Result<(), Fail> {
    let lines = [
        line(0, new(0)),
        line(0, share(15, 0)),
        line(1, wait_for(4, 15)),
        line(1, ask(4, 0)),
    ];
    let wanted = [
        made(0, new(0), Done),
        made(0, share(15, 0), Done),
        made(0, Call::End, Done),
        made(1, wait_for(4, 15), Done),
        made(1, ask(4, 0), Number(0)),
        made(1, Call::End, Done),
    ];
    let (locked, first, second) = pair(rt.alloc(), &lines)?;
    let first = play(&rt, &locked, first, &lines);
    let second = play(&rt, &locked, second, &lines);
    let journal = finish_pair(rt.alloc(), locked, first, second)?;
    assert_entries(&rt, &journal, &wanted);
    Ok(())
}

/// The common object has 18 words, and a box 3. The box that no register names isn't counted.
#[test]
fn a_collection_stands_before_its_collect(rt: HostRuntime) -> Result<(), Fail> {
    let lines = [
        line(0, Call::Collect),
        line(0, new(0)),
        line(0, new(0)),
        line(0, Call::Collect),
    ];
    let wanted = [
        full(1, 18),
        made(0, Call::Collect, Done),
        made(0, new(0), Done),
        made(0, new(0), Done),
        full(2, 21),
        made(0, Call::Collect, Done),
        made(0, Call::End, Done),
    ];
    let journal = play_alone(&rt, rt.alloc(), &lines)?;
    assert_entries(&rt, &journal, &wanted);
    assert_replies(&rt, &journal, &[Done; 4]);
    assert_eq!(rt; journal.reports().len(), 2);
    Ok(())
}

/// The journal of one mutator that makes all calls of its plan.
fn play_alone<R: Abort + Wait>(rt: &R, alloc: Global, lines: &[Line]) -> Result<Journal, NoMemory>
    requires fit { All (λ line. (line.mutator < 1) × Suits 2 line.call) lines.now }
    requires few { length lines.now < 1000 }
{
    let (locked, mut passes) = make(alloc, 1, lines)?;
    let Some(pass) = passes.pop() else {
        unreachable!()
    };
    let pass = play(rt, &locked, pass, lines);
    passes.push_reserved(pass);
    Ok(locked.finish(passes))
}

/// A heap of two mutators, on which these lines are to be played, and the pass of each.
fn pair(alloc: Global, lines: &[Line]) -> Result<(Locked, Pass, Pass), NoMemory>
    requires fit { All (λ line. (line.mutator < 2) × Suits 2 line.call) lines.now }
    requires few { length lines.now < 1000 }
    ensures mutators { IfOk result (λ made. mutators_of made.0.setup ≡ 2) }
    ensures lines { IfOk result (λ made. lines_of made.0.setup ≡ lines.now) }
    ensures first { IfOk result (λ made. IsPassOf made.0 made.1 × (made.1.mutator ≡ 0)) }
    ensures second { IfOk result (λ made. IsPassOf made.0 made.2 × (made.2.mutator ≡ 1)) }
{
    let (locked, mut passes) = make(alloc, 2, lines)?;
    match (passes.pop(), passes.pop()) {
        (Some(second), Some(first)) => Ok((locked, first, second)),
        _ => unreachable!(),
    }
}

/// The journal of a heap of two mutators.
fn finish_pair(
    alloc: Global,
    locked: Locked,
    first: Pass,
    second: Pass,
) -> Result<Journal, AllocError>
    requires mutators { mutators_of locked.setup ≡ 2 }
    requires first { IsPassOf locked first × (first.mutator ≡ 0) }
    requires second { IsPassOf locked second × (second.mutator ≡ 1) }
{
    let mut passes = Vec::with_capacity(alloc, 2)?;
    passes.push_reserved(first);
    passes.push_reserved(second);
    Ok(locked.finish(passes))
}

/// A heap of so many mutators, with halves of 64 words, a page each and the type of a box, on which these lines are
/// to be played.
fn make(alloc: Global, mutators: u8, lines: &[Line]) -> Result<(Locked, Vec<Pass>), NoMemory>
    requires some { 1 ≤ mutators }
    requires most { mutators ≤ 2 }
    requires fit { All (λ line. (line.mutator < mutators) × Suits 2 line.call) lines.now }
    requires few { length lines.now < 1000 }
    ensures mutators { IfOk result (λ made. mutators_of made.0.setup ≡ mutators) }
    ensures lines { IfOk result (λ made. lines_of made.0.setup ≡ lines.now) }
    ensures passes { IfOk result (λ made. AreFirstPasses made.0 made.1.items) }
{
    let mut types = Types::make(alloc)?;
    let shape = Shape {
        slots: 0,
        numbers: 1,
    };
    let Ok(lines) = Vec::from_slice(alloc, lines) else {
        return Err(NoMemory);
    };
    match (types.add(shape), Places::make(mutators, 64, 1)) {
        (Ok(_), Some(places)) => Locked::make(alloc, places, &types, lines),
        _ => unreachable!(),
    }
}

/// Makes all calls of a mutator's plan that it didn't make yet.
fn play<R: Abort + Wait>(rt: &R, locked: &Locked, mut pass: Pass, lines: &[Line]) -> Pass
    requires own { IsPassOf locked.now pass }
    requires lines { lines_of locked.now.setup ≡ lines.now }
    ensures own { IsPassOf locked.now result }
    ensures mutator { result.mutator ≡ pass.mutator }
{
    for _ in 0..calls_of(lines, pass.mutator()) + 1 {
        step(rt, locked, &mut pass, lines);
    }
    pass
}

/// Makes the next call of the first pass's mutator, and then that of the second's.
fn step_both<R: Abort + Wait>(
    rt: &R,
    locked: &Locked,
    first: &mut Pass,
    second: &mut Pass,
    lines: &[Line],
)
    requires lines { lines_of locked.now.setup ≡ lines.now }
    requires first { IsPassOf locked.now first.old }
    requires second { IsPassOf locked.now second.old }
    ensures first { IsPassOf locked.now first.new × (first.new.mutator ≡ first.old.mutator) }
    ensures second { IsPassOf locked.now second.new × (second.new.mutator ≡ second.old.mutator) }
{
    step(rt, locked, first, lines);
    step(rt, locked, second, lines);
}

/// Makes the next call of a pass's mutator, where it has one left.
fn step<R: Abort + Wait>(rt: &R, locked: &Locked, pass: &mut Pass, lines: &[Line])
    requires own { IsPassOf locked.now pass.old }
    requires lines { lines_of locked.now.setup ≡ lines.now }
    ensures own { IsPassOf locked.now pass.new }
    ensures mutator { pass.new.mutator ≡ pass.old.mutator }
{
    assert!(rt; pass.made() as usize <= calls_of(lines, pass.mutator()));
    locked.step(rt, pass);
}

/// How many lines a mutator has.
fn calls_of(lines: &[Line], t: u8) -> usize
    ensures count { result ≡ length (calls_in t lines.now) }
    ensures most { result ≤ length lines.now }
{
    let mut count = 0;
    for index in 0..lines.len() {
        if lines[index].mutator == t {
            count += 1;
        }
    }
    count
}

/// Tests that the journal has these replies to the lines, in their order.
fn assert_replies<R: Abort>(rt: &R, journal: &Journal, wanted: &[Reply]) {
    assert_eq!(rt; journal.replies().len(), wanted.len());
    for number in 0..wanted.len() {
        assert_eq!(rt; journal.replies()[number], wanted[number], "line {number}");
    }
}

/// Tests that the journal has these entries and no more.
fn assert_entries<R: Abort>(rt: &R, journal: &Journal, wanted: &[Entry]) {
    assert_eq!(rt; journal.count(), wanted.len());
    for (index, entry) in wanted.iter().enumerate() {
        assert_eq!(rt; journal.entry(index), Some(*entry), "at {index}");
    }
    assert_eq!(rt; journal.entry(wanted.len()), None);
}

/// The entry of a call.
fn made(mutator: u8, call: Call, reply: Reply) -> Entry {
    Entry::Made {
        mutator,
        call,
        reply,
    }
}

/// The entry of a full collection.
fn full(objects: u64, words: u64) -> Entry {
    Entry::Run(RunReport::Full { objects, words })
}

/// A mutator's line.
fn line(mutator: u8, call: Call) -> Line
    ensures mutator { result.mutator ≡ mutator }
    ensures call { result.call ≡ call }
{
    Line { mutator, call }
}

/// The register of a number.
fn reg(number: u8) -> Reg
    requires { number < 16 }
    ensures { result ≡ number }
{
    match Reg::make(number) {
        Some(reg) => reg,
        None => unreachable!(),
    }
}

/// A New of a box.
fn new(into: u8) -> Call
    requires { into < 16 }
    ensures { result ≡ Call.New into BOX }
{
    Call::New {
        into: reg(into),
        ty: BOX,
    }
}

/// A Set.
fn set(base: u8, place: u8, number: u64) -> Call
    requires { base < 16 }
    ensures { result ≡ Call.Set base place number }
{
    Call::Set {
        base: reg(base),
        place,
        number,
    }
}

/// An Ask.
fn ask(base: u8, place: u8) -> Call
    requires { base < 16 }
    ensures { result ≡ Call.Ask base place }
{
    Call::Ask {
        base: reg(base),
        place,
    }
}

/// A Same.
fn same(left: u8, right: u8) -> Call
    requires left { left < 16 }
    requires right { right < 16 }
    ensures { result ≡ Call.Same left right }
{
    Call::Same {
        left: reg(left),
        right: reg(right),
    }
}

/// A Share.
fn share(place: u8, value: u8) -> Call
    requires { value < 16 }
    ensures { result ≡ Call.Share place value }
{
    Call::Share {
        place,
        value: reg(value),
    }
}

/// A Take.
fn take(into: u8, place: u8) -> Call
    requires { into < 16 }
    ensures { result ≡ Call.Take into place }
{
    Call::Take {
        into: reg(into),
        place,
    }
}

/// An Await.
fn wait_for(into: u8, place: u8) -> Call
    requires { into < 16 }
    ensures { result ≡ Call.Await into place }
{
    Call::Await {
        into: reg(into),
        place,
    }
}
