//! The generated script, against texts and counts that are worked out by hand from the table of its lines.

use crate::{Script, make_script, read_script, write_script};
use gc_io::{MemorySink, Put};
use gc_model::{Call, Line, Reg};
use std::alloc::Global;
use std::test::Fail;

/// More bytes than the scripts that are written here have.
const ROOM: usize = 1_000_000;

/// What stands before the rounds.
const BEGINNING: &str = "moar-gc 1\n\
    mutators 4\n\
    type node 2 1\n\
    type table 8 1\n\
    0 new r15 table\n\
    0 share 0 r15\n\
    1 new r15 table\n\
    1 share 1 r15\n\
    2 new r15 table\n\
    2 share 2 r15\n\
    3 new r15 table\n\
    3 share 3 r15\n";

/// Round 0: mutator 0, whose neighbour is mutator 1.
const FIRST_ROUND: &str = "0 new r0 node\n\
    0 set r0 0 0\n\
    0 new r1 node\n\
    0 put r0 0 r1\n\
    0 put r1 0 r15\n\
    0 put r15 0 r0\n\
    0 take r2 1\n\
    0 get r3 r2 0\n\
    0 ask r3 0\n\
    0 swap r15 0 0 1\n";

/// Round 6 is mutator 2's in group 1, and its neighbour is mutator 3.
const SEVENTH_ROUND: &str = "2 new r0 node\n\
    2 set r0 0 6\n\
    2 new r1 node\n\
    2 put r0 0 r1\n\
    2 put r1 0 r15\n\
    2 put r15 1 r0\n\
    2 take r2 3\n\
    2 get r3 r2 1\n\
    2 ask r3 0\n\
    2 swap r15 0 1 2\n";

/// Round 63 is mutator 3's in group 15, at place 7; its neighbour is mutator 0, and it is the first that collects.
const COLLECTING_ROUND: &str = "3 new r0 node\n\
    3 set r0 0 63\n\
    3 new r1 node\n\
    3 put r0 0 r1\n\
    3 put r1 0 r15\n\
    3 put r15 7 r0\n\
    3 take r2 0\n\
    3 get r3 r2 7\n\
    3 ask r3 0\n\
    3 swap r15 0 15 16\n\
    3 collect\n";

/// Round 64 is mutator 0's in group 16, at place 0 again.
const ROUND_BEHIND: &str = "3 collect\n\
    0 new r0 node\n\
    0 set r0 0 64\n\
    0 new r1 node\n\
    0 put r0 0 r1\n\
    0 put r1 0 r15\n\
    0 put r15 0 r0\n\
    0 take r2 1\n\
    0 get r3 r2 0\n\
    0 ask r3 0\n\
    0 swap r15 0 16 17\n";

/// What a script is written as, where it is at most so many bytes.
fn written(alloc: Global, script: &Script) -> Result<MemorySink, Fail> {
    let mut sink = MemorySink::make(alloc, ROOM, Vec::new(alloc))?;
    match write_script(script, &mut sink) {
        Put::All => Ok(sink),
        Put::Failed => Err("too long")?,
    }
}

/// How many lines ask for a collection.
fn collections(script: &Script) -> usize {
    let mut count: usize = 0;
    for i in 0..script.count() {
        if let Some(
            Line {
                call: Call::Collect,
                ..
            },
        ) = script.line(i)
        {
            count = count.saturating_add(1);
        }
    }
    count
}

#[test]
fn one_round_is_written_as_the_table_says(rt: HostRuntime) -> Result<(), Fail> {
    let script = make_script(rt.alloc(), 1)?;
    let sink = written(rt.alloc(), &script)?;
    let text = format!(in rt.alloc(); "{BEGINNING}{FIRST_ROUND}")?;
    assert!(rt; sink.bytes() == text.as_bytes());
    Ok(())
}

#[test]
fn later_rounds_are_written_as_the_table_says(rt: HostRuntime) -> Result<(), Fail> {
    for (rounds, end) in [
        (1, FIRST_ROUND),
        (7, SEVENTH_ROUND),
        (64, COLLECTING_ROUND),
        (65, ROUND_BEHIND),
    ] {
        assert!(rt; 1 <= rounds && rounds <= 100_000);
        let script = make_script(rt.alloc(), rounds)?;
        let sink = written(rt.alloc(), &script)?;
        assert!(rt;
            sink.bytes().starts_with(BEGINNING.as_bytes()),
            "at {rounds}"
        );
        assert!(rt; sink.bytes().ends_with(end.as_bytes()), "at {rounds}");
    }
    Ok(())
}

// 8 lines, 10 for each round, and one for each 64.
#[test]
fn each_64th_round_collects(rt: HostRuntime) -> Result<(), Fail> {
    for (rounds, lines, collects) in [
        (1, 18, 0),
        (2, 28, 0),
        (4, 48, 0),
        (63, 638, 0),
        (64, 649, 1),
        (65, 659, 1),
        (127, 1_279, 1),
        (128, 1_290, 2),
        (100_000, 1_001_570, 1_562),
    ] {
        assert!(rt; 1 <= rounds && rounds <= 100_000);
        let script = make_script(rt.alloc(), rounds)?;
        assert_eq!(rt; script.count(), lines, "at {rounds}");
        assert_eq!(rt; collections(&script), collects, "at {rounds}");
    }
    Ok(())
}

/// Mutator 3 writes a number into the node in r0.
fn set(base: Reg, number: u64) -> Line {
    let call = Call::Set {
        base,
        place: 0,
        number,
    };
    Line { mutator: 3, call }
}

/// Mutator 3 counts its table's number up.
fn swap(base: Reg, expected: u64, replacement: u64) -> Line {
    let call = Call::SwapIf {
        base,
        place: 0,
        expected,
        replacement,
    };
    Line { mutator: 3, call }
}

// Round 63 begins at call line 8 + 63 * 10, counted from 0, and round 99,999 at 8 + 99,999 * 10 + 1,562.
#[test]
fn the_last_rounds_of_64_and_of_100_000(rt: HostRuntime) -> Result<(), Fail> {
    let r0 = Reg::make(0).ok_or("no register")?;
    let r15 = Reg::make(15).ok_or("no register")?;
    let few = make_script(rt.alloc(), 64)?;
    for (index, line) in [(639, set(r0, 63)), (647, swap(r15, 15, 16))] {
        assert_eq!(rt; few.line(index), Some(line), "at call line {index}");
    }
    let most = make_script(rt.alloc(), 100_000)?;
    for (index, line) in [
        (1_001_561, set(r0, 99_999)),
        (1_001_569, swap(r15, 24_999, 25_000)),
    ] {
        assert_eq!(rt; most.line(index), Some(line), "at call line {index}");
    }
    Ok(())
}

// The first call line stands behind four lines, and nothing stands behind the last.
#[test]
fn the_call_lines_are_numbered(rt: HostRuntime) -> Result<(), Fail> {
    let script = make_script(rt.alloc(), 64)?;
    let collect = Line {
        mutator: 3,
        call: Call::Collect,
    };
    assert_eq!(rt; script.line_number(0), Some(5));
    assert_eq!(rt; script.line_number(648), Some(653));
    assert_eq!(rt; script.line(648), Some(collect));
    assert_eq!(rt; script.line(649), None);
    Ok(())
}

#[test]
fn what_is_written_is_read_as_the_same_lines(rt: HostRuntime) -> Result<(), Fail> {
    for rounds in [1, 64, 1_000] {
        assert!(rt; 1 <= rounds && rounds <= 100_000);
        let script = make_script(rt.alloc(), rounds)?;
        let sink = written(rt.alloc(), &script)?;
        let read = read_script(rt.alloc(), sink.bytes())?;
        assert_eq!(rt; read.mutators(), script.mutators());
        assert_eq!(rt; read.types().as_slice(), script.types().as_slice());
        assert_eq!(rt; read.count(), script.count(), "at {rounds}");
        for i in 0..script.count() {
            assert_eq!(rt;
                read.line(i),
                script.line(i),
                "at call line {i} of {rounds}"
            );
        }
    }
    Ok(())
}
