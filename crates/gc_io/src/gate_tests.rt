//! What the gates for tests hold back, and when they give up.

use crate::{Gate, Hold, HoldGate, MeetGate};
use std::test::Fail;
use std::thread::join;

const TWO_OF_ONE_LINE: [Hold; 2] = [
    Hold {
        mutator: 1,
        line: 9,
        until: 4,
    },
    Hold {
        mutator: 1,
        line: 9,
        until: 6,
    },
];

const EACH_OTHER: [Hold; 2] = [
    Hold {
        mutator: 0,
        line: 3,
        until: 4,
    },
    Hold {
        mutator: 1,
        line: 4,
        until: 3,
    },
];

#[test]
fn held_line_waits_for_every_line_that_its_holds_name(rt: HostRuntime) -> Result<(), Fail> {
    let gate = HoldGate::make(rt.alloc(), &TWO_OF_ONE_LINE, 100)?;
    for (answered, passes) in [(5, false), (4, false), (5, false), (6, true)] {
        gate.after(0, answered);
        assert_eq!(rt; gate.before(1, 9), passes, "after {answered}");
        assert!(rt; gate.before(1, 8), "another line");
        assert!(rt; gate.before(0, 9), "another mutator");
    }
    assert!(rt; !gate.gave_up());
    Ok(())
}

#[test]
fn hold_gate_gives_up_after_its_refusals(rt: HostRuntime) -> Result<(), Fail> {
    let gate = HoldGate::make(rt.alloc(), &EACH_OTHER, 3)?;
    for (mutator, line) in [(0, 3), (1, 4), (0, 3)] {
        assert!(rt; !gate.gave_up());
        assert!(rt; gate.before(0, 5), "a line that isn't held");
        assert!(rt; !gate.before(mutator, line), "line {line}");
    }
    assert!(rt; gate.gave_up());
    for (mutator, line) in [(0, 3), (1, 4), (0, 3)] {
        assert!(rt; gate.before(mutator, line), "line {line}");
    }
    Ok(())
}

#[test]
fn hold_gate_of_no_refusals_holds_nothing(rt: HostRuntime) -> Result<(), Fail> {
    let gate = HoldGate::make(rt.alloc(), &EACH_OTHER, 0)?;
    assert!(rt; gate.before(0, 3));
    assert!(rt; gate.gave_up());
    Ok(())
}

#[test]
fn all_holds_are_told_apart(rt: HostRuntime) -> Result<(), Fail> {
    let mut holds = [TWO_OF_ONE_LINE[0]; 32];
    for (line, hold) in holds.iter_mut().enumerate() {
        let line = line as u32;
        *hold = Hold {
            mutator: 0,
            line,
            until: line + 100,
        };
    }
    let gate = HoldGate::make(rt.alloc(), &holds, 1000)?;
    for line in 0..32 {
        assert!(rt; !gate.before(0, line), "line {line}");
        gate.after(0, line + 100);
        assert!(rt; gate.before(0, line), "line {line}");
    }
    assert!(rt; !gate.gave_up());
    Ok(())
}

#[test]
fn meet_gate_gives_up_where_nobody_comes(rt: HostRuntime) -> Result<(), Fail> {
    let gate = MeetGate::make(rt.alloc(), &EACH_OTHER, 1000)?;
    assert!(rt; gate.before(0, 5), "a line that isn't held");
    assert!(rt; !gate.gave_up());
    assert!(rt; gate.before(0, 3));
    assert!(rt; gate.gave_up());
    Ok(())
}

#[test]
fn meet_gate_lets_a_line_pass_whose_lines_came(rt: HostRuntime) -> Result<(), Fail> {
    let gate = MeetGate::make(rt.alloc(), &TWO_OF_ONE_LINE, 1000)?;
    assert!(rt; gate.before(0, 4));
    assert!(rt; gate.before(0, 6));
    assert!(rt; gate.before(1, 9));
    assert!(rt; !gate.gave_up());
    Ok(())
}

#[test]
fn two_lines_meet_where_two_callers_ask(rt: HostRuntime) -> Result<(), Fail> {
    let gate = MeetGate::make(rt.alloc(), &EACH_OTHER, 1_000_000_000)?;
    let (left, right) = join(&rt, || gate.before(0, 3), || gate.before(1, 4));
    assert!(rt; left && right);
    assert!(rt; !gate.gave_up());
    Ok(())
}

#[test]
fn two_callers_share_a_hold_gate(rt: HostRuntime) -> Result<(), Fail> {
    let gate = HoldGate::make(rt.alloc(), &EACH_OTHER, 1)?;
    let (left, right) = join(&rt, || gate.before(0, 3), || gate.before(1, 4));
    assert!(rt; left != right, "one refusal in all");
    assert!(rt; gate.gave_up());
    Ok(())
}
