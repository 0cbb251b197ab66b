//! A walk over all that a mutator can reach, on a heap and on the graph. What its registers and the common object name is
//! found first, and then what the slots of each object name that was found; an object is new where it is the same as none
//! that was found before. So the objects are numbered in the order in which they are found. Each call is made on both, and
//! each reply is compared: what a register or a slot names, whether two objects are the same, and each number.
//!
//! A walk uses registers that scripts leave alone, and clears them at its end. It stores nothing into any object, so nothing
//! is remembered, and later collections are as they would have been.

use crate::pair::Pair;
use gc_model::{Call, Reg, Reply};
use std::alloc::{AllocError, Global};
use std::process::Abort;
use std::test::Fail;

/// The registers that scripts use: those below this number.
const USED: u8 = 4;

/// How many of the objects that were found first a walk holds in registers, one each behind those that scripts use. So the
/// ways to most objects are short.
const HELD: usize = 10;

/// The register that goes along a way.
const HAND: u8 = 14;

/// The register that names an object while others are compared with it.
const MET: u8 = 15;

/// The slots of the common object.
const COMMON_SLOTS: u8 = 16;

/// No object has this place.
const NO_PLACE: u8 = 62;

/// The most objects that a walk goes on from.
const MOST_OBJECTS: usize = 4096;

/// Where a way begins: at a register, or at a slot of the common object.
#[derive(Clone, Copy)]
enum Root {
    Register(Reg),
    Common(u8),
}

/// A way to an object: where it begins, and the slots that lead on.
#[derive(Drop)]
struct Way {
    root: Root,
    slots: Vec<u8>,
}

impl Way {
    /// The way that leads no further.
    fn make(alloc: Global, root: Root) -> Way {
        Way {
            root,
            slots: Vec::new(alloc),
        }
    }

    /// The same way.
    fn copy(&self, alloc: Global) -> Result<Way, AllocError> {
        Ok(Way {
            root: self.root,
            slots: self.slots.as_slice().to_vec(alloc)?,
        })
    }

    /// The way that leads on by a slot.
    fn on(&self, alloc: Global, place: u8) -> Result<Way, AllocError> {
        let mut way = self.copy(alloc)?;
        way.slots.push(place)?;
        Ok(way)
    }
}

/// Walks over all that each mutator can reach. The common object is reachable too, and no walk counts it.
pub fn walk_all<R: Abort + AllocGlobal>(rt: &R, pair: &mut Pair) -> Result<(), Fail> {
    let mutators = pair.mutators();
    let live = pair.live_objects(rt.alloc())?;
    for t in 0..mutators {
        let found = walk(rt, pair, t)? as u64;
        assert!(rt; found < live);
        assert!(rt; mutators > 1 || found == live - 1);
    }
    Ok(())
}

/// Walks over all that a mutator can reach, and tells how many objects that are. A blocked mutator is unblocked for that.
fn walk<R: Abort + AllocGlobal>(rt: &R, pair: &mut Pair, t: u8) -> Result<usize, Fail> {
    let was_blocked = pair.call(rt, t, &Call::Unblock)? == Reply::Done;
    let mut found = Vec::new(rt.alloc());
    find_roots(rt, pair, t, &mut found)?;
    for index in 0..MOST_OBJECTS {
        let Some(way) = found.get(index) else {
            break;
        };
        let way = way.copy(rt.alloc())?;
        ask_numbers(rt, pair, t, &way)?;
        find_named(rt, pair, t, &way, &mut found)?;
    }
    assert!(rt; found.len() < MOST_OBJECTS);
    for number in USED..=MET {
        let reg = register(rt, number);
        pair.call(rt, t, &Call::ClearReg { reg })?;
    }
    if was_blocked {
        pair.call(rt, t, &Call::Block)?;
    }
    Ok(found.len())
}

/// Finds what the registers and the common object name.
fn find_roots<R: Abort + AllocGlobal>(
    rt: &R,
    pair: &mut Pair,
    t: u8,
    found: &mut Vec<Way>,
) -> Result<(), Fail> {
    let into = register(rt, MET);
    for number in 0..USED {
        let source = register(rt, number);
        pair.call(rt, t, &Call::CopyReg { into, source })?;
        let base = into;
        let asked = Call::Ask { base, place: 0 };
        if pair.call(rt, t, &asked)? != Reply::NilBase {
            let way = Way::make(rt.alloc(), Root::Register(source));
            note(rt, pair, t, way, found)?;
        }
    }
    for place in 0..COMMON_SLOTS {
        if pair.call(rt, t, &Call::Take { into, place })? == Reply::Done {
            let way = Way::make(rt.alloc(), Root::Common(place));
            note(rt, pair, t, way, found)?;
        }
    }
    Ok(())
}

/// Asks each number of the object to which a way leads.
fn ask_numbers<R: Abort + AllocGlobal>(
    rt: &R,
    pair: &mut Pair,
    t: u8,
    way: &Way,
) -> Result<(), Fail> {
    reach(rt, pair, t, way)?;
    let base = register(rt, HAND);
    for place in 0..=NO_PLACE {
        if pair.call(rt, t, &Call::Ask { base, place })? == Reply::Range {
            break;
        }
    }
    Ok(())
}

/// Finds what the slots of the object name to which a way leads.
fn find_named<R: Abort + AllocGlobal>(
    rt: &R,
    pair: &mut Pair,
    t: u8,
    way: &Way,
    found: &mut Vec<Way>,
) -> Result<(), Fail> {
    let (into, base) = (register(rt, MET), register(rt, HAND));
    for place in 0..=NO_PLACE {
        reach(rt, pair, t, way)?;
        match pair.call(rt, t, &Call::Get { into, base, place })? {
            Reply::Done => note(rt, pair, t, way.on(rt.alloc(), place)?, found)?,
            Reply::Nil => {}
            _ => break,
        }
    }
    Ok(())
}

/// Notes the way to the object that was met, where that is none of those that were found before; the shortest way to one
/// that is held is its register.
fn note<R: Abort + AllocGlobal>(
    rt: &R,
    pair: &mut Pair,
    t: u8,
    way: Way,
    found: &mut Vec<Way>,
) -> Result<(), Fail> {
    let (left, right) = (register(rt, HAND), register(rt, MET));
    for known in found.iter() {
        reach(rt, pair, t, known)?;
        if pair.call(rt, t, &Call::Same { left, right })? == Reply::Yes {
            return Ok(());
        }
    }
    let count = found.len();
    if count < HELD {
        let into = register(rt, USED + count as u8);
        pair.call(
            rt,
            t,
            &Call::CopyReg {
                into,
                source: right,
            },
        )?;
        found.push(Way::make(rt.alloc(), Root::Register(into)))?;
    } else {
        found.push(way)?;
    }
    Ok(())
}

/// Goes along a way, so that a register names the object to which it leads.
fn reach<R: Abort + AllocGlobal>(rt: &R, pair: &mut Pair, t: u8, way: &Way) -> Result<(), Fail> {
    let into = register(rt, HAND);
    let first = match way.root {
        Root::Register(source) => pair.call(rt, t, &Call::CopyReg { into, source })?,
        Root::Common(place) => {
            assert!(rt; place < COMMON_SLOTS);
            pair.call(rt, t, &Call::Take { into, place })?
        }
    };
    assert_eq!(rt; first, Reply::Done);
    let base = into;
    for place in way.slots.iter() {
        let place = *place;
        let reply = pair.call(rt, t, &Call::Get { into, base, place })?;
        assert_eq!(rt; reply, Reply::Done);
    }
    Ok(())
}

/// The register of a number below 16.
fn register<R: Abort>(rt: &R, number: u8) -> Reg {
    Reg::make(number).expect(rt, "a register")
}
