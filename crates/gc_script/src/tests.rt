//! Scripts that are read, and what is read of them.

use crate::faulty::{VERSION, bad, read, type_name};
use crate::{ScriptFault, read_script};
use gc_layout::TypeNo;
use gc_model::{Call, Line, Reg};
use std::mem::size_of;
use std::test::Fail;

/// A script of one mutator, with one type.
const BOX: &str = "moar-gc 1\n\
    mutators 1\n\
    type box 0 1\n\
    0 new r0 box\n\
    0 set r0 0 42\n\
    0 ask r0 0\n";

/// A script with a line of each call word, all of the last of eight mutators.
const EACH_CALL_WORD: &str = "moar-gc 1\n\
    mutators 8\n\
    type pair 2 0\n\
    7 new r1 pair\n\
    7 get r1 r2 3\n\
    7 put r1 3 r2\n\
    7 ask r1 3\n\
    7 set r1 3 4\n\
    7 swap r1 3 4 5\n\
    7 same r1 r2\n\
    7 copy r1 r2\n\
    7 clear r1\n\
    7 share 3 r1\n\
    7 take r1 3\n\
    7 await r1 3\n\
    7 safepoint\n\
    7 collect\n\
    7 block\n\
    7 unblock\n";

/// Types whose names are words of the language.
const WORDS_AS_NAMES: &str = "moar-gc 1\n\
    mutators 1\n\
    type type 0 0\n\
    type new 0 0\n\
    0 new r0 new\n";

#[test]
fn texts_are_read_by_the_grammar(rt: HostRuntime) {
    for (text, count) in [
        (BOX, 3),
        // The last newline may be left out.
        (BOX.trim_end(), 3),
        ("moar-gc 1\nmutators 2", 0),
        ("moar-gc 1\nmutators 2\n", 0),
        ("moar-gc 1\nmutators 8\n7 clear r15\n", 1),
        (EACH_CALL_WORD, 16),
        ("moar-gc 1\nmutators 1\n0 clear r0\n", 1),
        ("moar-gc 1\nmutators 1\n0 share 15 r0\n", 1),
        ("moar-gc 1\nmutators 1\ntype wide 62 0\n", 0),
        ("moar-gc 1\nmutators 1\ntype wide 0 62\n", 0),
        // The longest name, and names that are words of the language.
        ("moar-gc 1\nmutators 1\ntype abcdefghijklmnop 0 0\n", 0),
        (WORDS_AS_NAMES, 1),
    ] {
        assert_eq!(rt; read(rt.alloc(), text.as_bytes()), Ok(count), "at {text:?}");
    }
}

#[test]
fn a_script_is_what_was_read(rt: HostRuntime) -> Result<(), Fail> {
    let script = read_script(rt.alloc(), BOX.as_bytes())?;
    assert_eq!(rt; script.mutators(), 1);
    assert_eq!(rt; script.types().count(), 2);
    assert_eq!(rt; script.count(), 3);
    let set = Call::Set {
        base: Reg::make(0).ok_or("no register")?,
        place: 0,
        number: 42,
    };
    assert_eq!(rt;
        script.line(1),
        Some(Line {
            mutator: 0,
            call: set
        })
    );
    assert_eq!(rt; script.line_number(0), Some(4));
    assert_eq!(rt; script.line_number(3), None);
    Ok(())
}

#[test]
fn each_call_word_reads_as_its_call(rt: HostRuntime) -> Result<(), Fail> {
    let one = Reg::make(1).ok_or("no register")?;
    let two = Reg::make(2).ok_or("no register")?;
    let calls = [
        Call::New {
            into: one,
            ty: TypeNo(1),
        },
        Call::Get {
            into: one,
            base: two,
            place: 3,
        },
        Call::Put {
            base: one,
            place: 3,
            value: two,
        },
        Call::Ask {
            base: one,
            place: 3,
        },
        Call::Set {
            base: one,
            place: 3,
            number: 4,
        },
        Call::SwapIf {
            base: one,
            place: 3,
            expected: 4,
            replacement: 5,
        },
        Call::Same {
            left: one,
            right: two,
        },
        Call::CopyReg {
            into: one,
            source: two,
        },
        Call::ClearReg { reg: one },
        Call::Share {
            place: 3,
            value: one,
        },
        Call::Take {
            into: one,
            place: 3,
        },
        Call::Await {
            into: one,
            place: 3,
        },
        Call::Safepoint,
        Call::Collect,
        Call::Block,
        Call::Unblock,
    ];
    let script = read_script(rt.alloc(), EACH_CALL_WORD.as_bytes())?;
    assert_eq!(rt; script.mutators(), 8);
    assert_eq!(rt; script.count(), 16);
    for (i, call) in calls.iter().enumerate() {
        let line = Line {
            mutator: 7,
            call: *call,
        };
        assert_eq!(rt; script.line(i), Some(line), "at call line {i}");
    }
    Ok(())
}

#[test]
fn each_of_255_types_is_known_by_its_name(rt: HostRuntime) -> Result<(), Fail> {
    let mut text = String::from_str(rt.alloc(), "moar-gc 1\nmutators 1\n")?;
    for index in 0..255 {
        let name = type_name(rt.alloc(), index)?;
        writeln!(text, "type {name} 0 0")?;
    }
    for index in 0..255 {
        let name = type_name(rt.alloc(), index)?;
        writeln!(text, "0 new r0 {name}")?;
    }
    let script = read_script(rt.alloc(), text.as_bytes())?;
    assert_eq!(rt; script.types().count(), 256);
    assert_eq!(rt; script.count(), 255);
    let into = Reg::make(0).ok_or("no register")?;
    for index in 0..255 {
        let call = Call::New {
            into,
            ty: TypeNo(index + 1),
        };
        let line = Line { mutator: 0, call };
        assert_eq!(rt;
            script.line(usize::from(index)),
            Some(line),
            "at type {index}"
        );
    }
    Ok(())
}

// Lines are most of what a script takes.
#[test]
fn a_line_takes_at_most_40_bytes(rt: HostRuntime) {
    assert!(rt; size_of::<Line>() <= 40);
}

#[test]
fn a_text_past_the_limit_is_too_long(rt: HostRuntime) -> Result<(), Fail> {
    let text = vec![in rt.alloc(); b'a'; 16_777_217]?;
    assert_eq!(rt; read(rt.alloc(), &text), Err(ScriptFault::Long));
    assert_eq!(rt; read(rt.alloc(), &text[1..]), bad(1, VERSION));
    Ok(())
}
