//! Scripts that are played by a worker for each mutator: one box, two lines that meet, and eight workers at once. More stand
//! among the rows of the top call, under gates that hold lines back.
use crate::play_script;
use gc_io::{Gate, Hold, MeetGate, OpenGate};
use gc_layout::{NoMemory, Places};
use gc_locked::Journal;
use gc_model::Reply::{Done, Nil, Number};
use gc_model::{Entry, Reply, RunReport};
use gc_script::read_script;
use std::alloc::Global;
use std::process::Abort;
use std::sync::Wait;
use std::test::Fail;
use std::thread::Threads;

#[test]
fn one_worker_plays_a_script(rt: HostRuntime) -> Result<(), Fail> {
    let text = "moar-gc 1\n\
         mutators 1\n\
         type box 0 1\n\
         0 new r0 box\n\
         0 set r0 0 42\n\
         0 ask r0 0\n";
    let journal = play(&rt, rt.alloc(), text, &OpenGate)?;
    assert_replies(&rt, &journal, 0, &[Done, Done, Number(42), Done]);
    assert_runs(&rt, &journal, &[]);
    Ok(())
}

/// Each line waits for the other to come, which a gate sees only where two workers are at it at once.
#[test]
fn two_lines_meet(rt: HostRuntime) -> Result<(), Fail> {
    let text = "moar-gc 1\n\
         mutators 2\n\
         0 clear r0\n\
         1 clear r0\n";
    let gate = MeetGate::make(rt.alloc(), &[hold(0, 3, 4), hold(1, 4, 3)], 1_000_000_000)?;
    let journal = play(&rt, rt.alloc(), text, &gate)?;
    assert!(rt; !gate.gave_up());
    assert_replies(&rt, &journal, 0, &[Done, Done]);
    assert_replies(&rt, &journal, 1, &[Done, Done]);
    Ok(())
}

/// Eight workers have each an object of its own, of which the one that is asked for is the one that was set.
#[test]
fn eight_workers_play_at_once(rt: HostRuntime) -> Result<(), Fail> {
    let text = "moar-gc 1\n\
         mutators 8\n\
         type box 0 1\n\
         0 new r0 box\n1 new r0 box\n2 new r0 box\n3 new r0 box\n\
         4 new r0 box\n5 new r0 box\n6 new r0 box\n7 new r0 box\n\
         0 set r0 0 10\n1 set r0 0 11\n2 set r0 0 12\n3 set r0 0 13\n\
         4 set r0 0 14\n5 set r0 0 15\n6 set r0 0 16\n7 set r0 0 17\n\
         0 ask r0 0\n1 ask r0 0\n2 ask r0 0\n3 ask r0 0\n\
         4 ask r0 0\n5 ask r0 0\n6 ask r0 0\n7 ask r0 0\n\
         0 take r1 0\n";
    let journal = play(&rt, rt.alloc(), text, &OpenGate)?;
    assert_replies(&rt, &journal, 0, &[Done, Done, Number(10), Nil, Done]);
    for t in 1..8 {
        let number = 10 + u64::from(t);
        assert_replies(&rt, &journal, t, &[Done, Done, Number(number), Done]);
    }
    Ok(())
}

/// A line of a mutator is held until another.
fn hold(mutator: u8, line: u32, until: u32) -> Hold {
    Hold {
        mutator,
        line,
        until,
    }
}

/// Plays a script on halves of 4,096 words and 8 pages.
fn play<R: Abort + Threads + Wait + Sync, G: Gate + Sync>(
    rt: &R,
    alloc: Global,
    text: &str,
    gate: &G,
) -> Result<Journal, NoMemory> {
    let Ok(script) = read_script(alloc, text.as_bytes()) else {
        panic!(rt; "the text is a script")
    };
    let places = Places::make(script.mutators(), 4096, 8).unwrap();
    let (journal, _) = play_script(rt, alloc, places, script, gate)?;
    Ok(journal)
}

/// The reply to a call of a mutator, counted from 0.
fn reply_of(journal: &Journal, mutator: u8, number: usize) -> Option<Reply> {
    let mut before = number;
    for index in 0..journal.count() {
        if let Some(
            Entry::Made {
                mutator: own,
                reply,
                ..
            },
        ) = journal.entry(index)
            && own == mutator
        {
            if before == 0 {
                return Some(reply);
            }
            before -= 1;
        }
    }
    None
}

/// The replies to a mutator's calls are these, that to its End among them.
fn assert_replies<R: Abort>(rt: &R, journal: &Journal, mutator: u8, wanted: &[Reply]) {
    for number in 0..wanted.len() {
        assert_eq!(rt;
            reply_of(journal, mutator, number),
            Some(wanted[number]),
            "call {number} of {mutator}"
        );
    }
    assert_eq!(rt; reply_of(journal, mutator, wanted.len()), None);
}

/// The reports of the collections are these.
fn assert_runs<R: Abort>(rt: &R, journal: &Journal, wanted: &[RunReport]) {
    assert_eq!(rt; journal.reports().len(), wanted.len());
    for number in 0..wanted.len() {
        assert_eq!(rt;
            journal.reports()[number],
            wanted[number],
            "collection {number}"
        );
    }
}
