//! Scripts that are run by a worker for each mutator: an object that is shared, a mutator that is blocked under
//! collections, two lines that meet, two swaps of which one wins, and eight mutators that name one object. Gates hold lines
//! back, so that what is printed is the same in every schedule, or one of two texts. All values are worked out by hand.

use crate::row::{ONE_BOX, ONE_BOX_OUTPUT, RUN_REPORTS, Row};
use gc_io::Hold;
use std::alloc::{AllocError, Global};
use std::fmt::Write;
use std::test::Fail;

#[test]
fn one_worker_answers_as_one_thread(rt: HostRuntime) -> Result<(), Fail> {
    Row::runs("one box", ONE_BOX, ONE_BOX_OUTPUT).check(&rt)
}

/// Mutator 1 waits for the object until it was shared, and so finds it, whatever the collection did meanwhile.
#[test]
fn a_shared_object_is_found(rt: HostRuntime) -> Result<(), Fail> {
    let row = Row::plays(
        "an object is shared",
        "moar-gc 1\n\
         mutators 2\n\
         type box 0 1\n\
         0 new r0 box\n\
         0 set r0 0 9\n\
         0 share 3 r0\n\
         0 clear r0\n\
         0 collect\n\
         1 await r0 3\n\
         1 ask r0 0\n",
        "4 done\n\
         5 done\n\
         6 done\n\
         7 done\n\
         8 done\n\
         9 done\n\
         10 9\n\
         run 1 full objects 2 words 21\n",
    );
    row.with_words(RUN_REPORTS)
        .check_held(&rt, &[hold(1, 9, 6)])
}

/// The collections begin when mutator 1 is blocked, and it takes the heap up again behind the last one.
#[test]
fn a_blocked_mutator_keeps_its_object(rt: HostRuntime) -> Result<(), Fail> {
    let row = Row::plays(
        "collections beside a blocked mutator",
        "moar-gc 1\n\
         mutators 2\n\
         type box 0 1\n\
         1 new r0 box\n\
         1 set r0 0 5\n\
         1 block\n\
         0 collect\n\
         0 collect\n\
         0 collect\n\
         1 unblock\n\
         1 ask r0 0\n",
        "4 done\n\
         5 done\n\
         6 done\n\
         7 done\n\
         8 done\n\
         9 done\n\
         10 done\n\
         11 5\n\
         run 1 full objects 2 words 21\n\
         run 2 full objects 2 words 21\n\
         run 3 full objects 2 words 21\n",
    );
    row.with_words(RUN_REPORTS)
        .check_held(&rt, &[hold(0, 7, 6), hold(1, 10, 9)])
}

/// Each line waits for the other to come, which the gate sees only where two workers are at it at once: a body that makes all
/// calls on one thread turns until the gate gives up.
#[test]
fn two_lines_meet(rt: HostRuntime) -> Result<(), Fail> {
    let row = Row::runs(
        "two lines meet",
        "moar-gc 1\n\
         mutators 2\n\
         0 clear r0\n\
         1 clear r0\n",
        "3 done\n\
         4 done\n",
    );
    row.check_meeting(&rt, &[hold(0, 3, 4), hold(1, 4, 3)])
}

/// Both swap the same number from 0 to 1, one behind the other: the first of them wins.
#[test]
fn one_of_two_swaps_wins(rt: HostRuntime) -> Result<(), Fail> {
    let row = Row::runs(
        "two swaps",
        "moar-gc 1\n\
         mutators 2\n\
         type box 0 1\n\
         0 new r0 box\n\
         0 share 0 r0\n\
         0 swap r0 0 0 1\n\
         1 await r0 0\n\
         1 swap r0 0 0 1\n",
        "4 done\n\
         5 done\n\
         6 yes\n\
         7 done\n\
         8 no 1\n",
    );
    let row = row.or_prints(
        "4 done\n\
         5 done\n\
         6 no 1\n\
         7 done\n\
         8 yes\n",
    );
    for _ in 0..50 {
        row.check_held(&rt, &[hold(1, 7, 5)])?;
    }
    Ok(())
}

/// A mutator that waits for an object that nobody shares gives it up, and the others go on meanwhile.
#[test]
fn an_object_is_awaited_in_vain(rt: HostRuntime) -> Result<(), Fail> {
    let row = Row::runs(
        "an empty place",
        "moar-gc 1\n\
         mutators 2\n\
         type box 0 1\n\
         1 await r0 3\n\
         0 new r0 box\n\
         0 set r0 0 7\n\
         0 ask r0 0\n\
         1 ask r0 0\n",
        "4 nil\n\
         5 done\n\
         6 done\n\
         7 7\n\
         8 nil base\n",
    );
    row.check(&rt)
}

/// Mutator 0 shares a box. Each of seven others waits for it, names it by the 62 slots of an object and by the one slot of
/// another, and finds it behind a collection that begins when all have done so. Reachable are then the common object, the
/// box and two objects of each of the seven, of 64 and of 3 words: 16 objects of 18 + 3 + 7 * 67 words.
#[test]
fn eight_mutators_name_one_object(rt: HostRuntime) -> Result<(), Fail> {
    let alloc = rt.alloc();
    let script = fans(alloc)?;
    let output = fans_output(alloc)?;
    Row::plays("63 slots of each", script.as_str(), output.as_str())
        .with_words(RUN_REPORTS)
        .check_held(&rt, &fan_holds())
}

/// The script of these: of each of the seven 69 lines, from line 9 on, and the collection in line 492.
fn fans(alloc: Global) -> Result<String, AllocError> {
    let mut text = String::new(alloc);
    text.push_str("moar-gc 1\nmutators 8\ntype box 0 1\ntype fan 62 0\ntype one 1 0\n")?;
    text.push_str("0 new r0 box\n0 set r0 0 77\n0 share 0 r0\n")?;
    for t in 1..8 {
        writeln!(text, "{t} await r0 0\n{t} new r1 fan")?;
        for place in 0..62 {
            writeln!(text, "{t} put r1 {place} r0")?;
        }
        writeln!(text, "{t} new r2 one\n{t} put r2 0 r0\n{t} clear r0")?;
        writeln!(text, "{t} get r3 r1 61\n{t} ask r3 0")?;
    }
    text.push_str("0 collect\n")?;
    Ok(text)
}

/// What it prints: the last of the 69 lines of each asks for the number, and each other line is done.
fn fans_output(alloc: Global) -> Result<String, AllocError> {
    let mut text = String::new(alloc);
    for number in 6..9 {
        writeln!(text, "{number} done")?;
    }
    for t in 0..7u32 {
        let first = 9 + 69 * t;
        for place in 0..68 {
            writeln!(text, "{} done", first + place)?;
        }
        writeln!(text, "{} 77", first + 68)?;
    }
    text.push_str("492 done\nrun 1 full objects 16 words 490\n")?;
    Ok(text)
}

/// Each of the seven waits until the box is shared, the collection until all have named it, and each asks behind that.
fn fan_holds() -> [Hold; 21] {
    let mut holds = [hold(0, 492, 8); 21];
    for t in 1..8u8 {
        let first = 9 + 69 * (u32::from(t) - 1);
        let place = 3 * (t as usize - 1);
        holds[place] = hold(t, first, 8);
        holds[place + 1] = hold(0, 492, first + 66);
        holds[place + 2] = hold(t, first + 67, 492);
    }
    holds
}

/// A line of a mutator is held until another.
fn hold(mutator: u8, line: u32, until: u32) -> Hold {
    Hold {
        mutator,
        line,
        until,
    }
}
