//! Faulty scripts. The line and the cause of each are worked out by hand from the rules of the language.

use crate::{ScriptFault, read_script};
use std::alloc::{AllocError, AllocGlobal, Global};
use std::process::Abort;
use std::test::Fail;

// The numbers of the causes.
pub(crate) const VERSION: u8 = 1;

const WORD: u8 = 2;

const NUMBER: u8 = 3;

const REGISTER: u8 = 4;

const TYPE: u8 = 5;

const MUTATOR: u8 = 6;

const DUPLICATE: u8 = 7;

/// How many call lines are read, or the fault.
pub(crate) fn read(alloc: Global, text: &[u8]) -> Result<usize, ScriptFault> {
    let script = read_script(alloc, text)?;
    Ok(script.count())
}

/// What a text with this first bad line is read as.
pub(crate) fn bad(line: u32, cause: u8) -> Result<usize, ScriptFault> {
    Err(ScriptFault::Bad { line, cause })
}

/// Sees that this is the first bad line of the text, with this cause.
fn see_fault<R: Abort + AllocGlobal>(rt: &R, text: &str, line: u32, cause: u8) {
    let outcome = read(rt.alloc(), text.as_bytes());
    assert_eq!(rt; outcome, bad(line, cause), "at {text:?}");
}

/// The same, where these lines stand behind three good ones, with two mutators and the type `box`.
fn see_fault_behind<R: Abort + AllocGlobal>(
    rt: &R,
    lines: &str,
    line: u32,
    cause: u8,
) -> Result<(), AllocError> {
    let text = format!(in rt.alloc(); "moar-gc 1\nmutators 2\ntype box 0 1\n{lines}\n")?;
    see_fault(rt, &text, line, cause);
    Ok(())
}

/// The name of the type of this index.
pub(crate) fn type_name(alloc: Global, index: u8) -> Result<String, AllocError> {
    let first = char::from(b'a' + index / 26);
    let second = char::from(b'a' + index % 26);
    format!(in alloc; "{first}{second}")
}

#[test]
fn the_version_line(rt: HostRuntime) {
    for text in [
        "",
        "\n",
        "moar-gc\n",
        "moar-gc 2\n",
        "moar-gc 11\n",
        "moar-gc\n1\n",
        "MOAR-GC 1\nmutators 1\n",
        "mutators 1\n",
        // No space is left out, and none is added.
        "moar-gc1\nmutators 1\n",
        "moar-gc  1\nmutators 1\n",
        "moar-gc 1 \nmutators 1\n",
        " moar-gc 1\nmutators 1\n",
        // A tab and a carriage return are bytes like others.
        "moar-gc\t1\nmutators 1\n",
        "moar-gc 1\r\nmutators 1\r\n",
        // It goes before line 2.
        "\nmoar-gc 1\nmutators 1\n",
        "moar-gc 2\nmutators 9\n",
    ] {
        see_fault(&rt, text, 1, VERSION);
    }
}

#[test]
fn the_line_of_the_mutators(rt: HostRuntime) {
    for (text, cause) in [
        // There is a line 2.
        ("moar-gc 1", WORD),
        ("moar-gc 1\n", WORD),
        // It has two words.
        ("moar-gc 1\n\n", WORD),
        ("moar-gc 1\nmutators\n", WORD),
        ("moar-gc 1\nmutators 1 1\n", WORD),
        ("moar-gc 1\nmutators 1 \n", WORD),
        ("moar-gc 1\nmutators  1\n", WORD),
        ("moar-gc 1\n mutators 1\n", WORD),
        ("moar-gc 1\nmutators\t1\n", WORD),
        // The first is `mutators`.
        ("moar-gc 1\nmutator 1\n", WORD),
        ("moar-gc 1\nMutators 1\n", WORD),
        ("moar-gc 1\n 1\n", WORD),
        ("moar-gc 1\ntype box\n", WORD),
        // The second is a number.
        ("moar-gc 1\nmutators x\n", NUMBER),
        ("moar-gc 1\nmutators \n", NUMBER),
        ("moar-gc 1\nmutators 01\n", NUMBER),
        ("moar-gc 1\nmutators +1\n", NUMBER),
        ("moar-gc 1\nmutators -1\n", NUMBER),
        ("moar-gc 1\nmutators 1\t\n", NUMBER),
        ("moar-gc 1\nmutators 1\r\n", NUMBER),
        ("moar-gc 1\nmutators 18446744073709551616\n", NUMBER),
        // It is 1 to 8.
        ("moar-gc 1\nmutators 0\n", MUTATOR),
        ("moar-gc 1\nmutators 9\n", MUTATOR),
        ("moar-gc 1\nmutators 256\n", MUTATOR),
        ("moar-gc 1\nmutators 257\n", MUTATOR),
        ("moar-gc 1\nmutators 18446744073709551615\n", MUTATOR),
        // Of two tests that fail the earlier is told.
        ("moar-gc 1\nmutators x 1\n", WORD),
        ("moar-gc 1\nmutators 9 1\n", WORD),
        ("moar-gc 1\nmutator x\n", WORD),
        ("moar-gc 1\nmutator 9\n", WORD),
        ("moar-gc 1\nmutators 00\n", NUMBER),
        // Line 2 goes before line 3.
        ("moar-gc 1\nmutators 9\n0 jump\n", MUTATOR),
        ("moar-gc 1\nmutators x\ntype A 1\n", NUMBER),
    ] {
        see_fault(&rt, text, 2, cause);
    }
}

#[test]
fn type_lines(rt: HostRuntime) -> Result<(), Fail> {
    for (line, cause) in [
        // There are four words.
        ("type", WORD),
        ("type a", WORD),
        ("type a 1", WORD),
        ("type a 1 1 1", WORD),
        ("type a 1 1 ", WORD),
        ("type  a 1 1", WORD),
        ("type a\t1 1", WORD),
        ("type a 1 1 1 1 1 1 1 1", WORD),
        // The name is 1 to 16 letters.
        ("type  1 1", TYPE),
        ("type abcdefghijklmnopq 1 1", TYPE),
        ("type A 1 1", TYPE),
        ("type Common 1 1", TYPE),
        ("type a1 1 1", TYPE),
        ("type a_b 1 1", TYPE),
        ("type a` 1 1", TYPE),
        ("type a{ 1 1", TYPE),
        ("type \ta 1 1", TYPE),
        ("type é 1 1", TYPE),
        // The name is free.
        ("type common 1 1", DUPLICATE),
        ("type box 0 1", DUPLICATE),
        // The slots are small.
        ("type a x 1", NUMBER),
        ("type a  1", NUMBER),
        ("type a 256 0", NUMBER),
        ("type a 01 0", NUMBER),
        ("type a -1 0", NUMBER),
        ("type a 1\t 0", NUMBER),
        // The numbers are small.
        ("type a 0 x", NUMBER),
        ("type a 0 ", NUMBER),
        ("type a 0 256", NUMBER),
        ("type a 0 00", NUMBER),
        ("type a 0 1\r", NUMBER),
        ("type a 0 18446744073709551616", NUMBER),
        // An object has at most 64 words.
        ("type a 62 1", TYPE),
        ("type a 63 0", TYPE),
        ("type a 0 63", TYPE),
        ("type a 255 0", TYPE),
        ("type a 255 255", TYPE),
    ] {
        see_fault_behind(&rt, line, 4, cause)?;
    }
    Ok(())
}

#[test]
fn the_earlier_test_of_a_type_line_is_told(rt: HostRuntime) -> Result<(), Fail> {
    for (line, cause) in [
        // The number of words, before each other.
        ("type A 1", WORD),
        ("type box 1", WORD),
        ("type common 1 1 1", WORD),
        ("type a x", WORD),
        ("type a 255", WORD),
        // The name, before its numbers.
        ("type A x 1", TYPE),
        ("type Common x x", TYPE),
        ("type abcdefghijklmnopq 256 0", TYPE),
        // A name that is in use, before what stands behind it.
        ("type common x x", DUPLICATE),
        ("type box x 1", DUPLICATE),
        ("type box 1 x", DUPLICATE),
        ("type box 256 0", DUPLICATE),
        ("type box 255 0", DUPLICATE),
        // The numbers, before the size.
        ("type a 256 255", NUMBER),
        ("type a 255 256", NUMBER),
        ("type a 255 x", NUMBER),
        // It is a type line, whatever stands behind `type`.
        ("type new r0 box", NUMBER),
        ("type 0 clear r0", TYPE),
    ] {
        see_fault_behind(&rt, line, 4, cause)?;
    }
    Ok(())
}

#[test]
fn the_256th_declared_type(rt: HostRuntime) -> Result<(), Fail> {
    let mut full = String::from_str(rt.alloc(), "moar-gc 1\nmutators 1\n")?;
    for index in 0..255 {
        let name = type_name(rt.alloc(), index)?;
        writeln!(full, "type {name} 0 0")?;
    }
    for (line, cause) in [
        ("type zz 0 0", TYPE),
        ("type zz 62 0", TYPE),
        ("type zz 62 1", TYPE),
        // The tests before the last one come first.
        ("type zz 0", WORD),
        ("type common 0 0", DUPLICATE),
        ("type aa 0 0", DUPLICATE),
        ("type zz 256 0", NUMBER),
        ("type zz 0 256", NUMBER),
    ] {
        let text = format!(in rt.alloc(); "{full}{line}\n")?;
        see_fault(&rt, &text, 258, cause);
    }
    Ok(())
}

#[test]
fn the_words_of_a_call_line_are_counted(rt: HostRuntime) -> Result<(), Fail> {
    for line in [
        // There is a second word.
        "",
        "0",
        "x",
        "clear",
        "0\tclear\tr0",
        // It is a call word.
        "0 ",
        "0 jump r0 0",
        "0 New r0 box",
        "0 newer r0 box",
        "0 ne r0 box",
        "0 end",
        "0 collects",
        "0 Collect",
        "0  clear r0",
        " 0 clear r0",
        "0 new\tr0 box",
        "0 safepoint\r",
        "types a 1 1",
        // The number of words is that of the call word.
        "0 new r0",
        "0 new r0 box 1",
        "0 get r0 r1",
        "0 get r0 r1 0 0",
        "0 put r0 0",
        "0 put r0 0 r1 r1",
        "0 ask r0",
        "0 ask r0 0 0",
        "0 set r0 0",
        "0 set r0 0 1 1",
        "0 swap r0 0 1",
        "0 swap r0 0 1 2 3",
        "0 swap r0 0 1 2 3 4 5 6",
        "0 same r0",
        "0 same r0 r1 r2",
        "0 copy r0",
        "0 copy r0 r1 r2",
        "0 clear",
        "0 clear r0 r1",
        "0 clear r0 ",
        "0 clear  r0",
        "0 share 0",
        "0 share 0 r0 r1",
        "0 take r0",
        "0 take r0 0 0",
        "0 await r0",
        "0 await r0 0 0",
        "0 safepoint 0",
        "0 safepoint ",
        "0 collect 0",
        "0 collect ",
        "0 block 0",
        "0 unblock 0",
        // Of two tests that fail the earlier is told.
        "9 jump r0",
        "9 clear",
        "x clear r0 r1",
        "0 clear r16 r16",
        "0 new r16",
        "0 share 16",
        "0 set r0 256",
    ] {
        see_fault_behind(&rt, line, 4, WORD)?;
    }
    Ok(())
}

#[test]
fn each_word_of_a_call_line_has_its_kind(rt: HostRuntime) -> Result<(), Fail> {
    for (line, cause) in [
        // The mutator is a number below 2.
        ("2 clear r0", MUTATOR),
        ("256 clear r0", MUTATOR),
        ("18446744073709551616 clear r0", MUTATOR),
        ("x clear r0", MUTATOR),
        ("00 clear r0", MUTATOR),
        ("-1 clear r0", MUTATOR),
        ("r0 clear r0", MUTATOR),
        ("\t0 clear r0", MUTATOR),
        (" clear r0", MUTATOR),
        ("typ new r0 box", MUTATOR),
        // A register is `r` and a number below 16.
        ("0 clear r16", REGISTER),
        ("0 clear r256", REGISTER),
        ("0 clear r", REGISTER),
        ("0 clear r00", REGISTER),
        ("0 clear r01", REGISTER),
        ("0 clear rr0", REGISTER),
        ("0 clear R0", REGISTER),
        ("0 clear s0", REGISTER),
        ("0 clear 0", REGISTER),
        ("0 clear ", REGISTER),
        ("0 clear r0\t", REGISTER),
        ("0 clear r0\r", REGISTER),
        // What stands behind each call word.
        ("0 new r16 box", REGISTER),
        ("0 new box r0", REGISTER),
        ("0 new r0 pair", TYPE),
        ("0 new r0 common", TYPE),
        ("0 new r0 Box", TYPE),
        ("0 new r0 bo", TYPE),
        ("0 new r0 boxes", TYPE),
        ("0 new r0 ", TYPE),
        ("0 new r0 0", TYPE),
        ("0 get r16 r0 0", REGISTER),
        ("0 get r0 r16 0", REGISTER),
        ("0 get r0 r0 256", NUMBER),
        ("0 put r16 0 r0", REGISTER),
        ("0 put r0 256 r0", NUMBER),
        ("0 put r0 0 r16", REGISTER),
        ("0 ask r16 0", REGISTER),
        ("0 ask r0 256", NUMBER),
        ("0 ask r0 r0", NUMBER),
        ("0 set r16 0 0", REGISTER),
        ("0 set r0 256 0", NUMBER),
        ("0 set r0 0 18446744073709551616", NUMBER),
        ("0 set r0 0 00", NUMBER),
        ("0 set r0 0 1x", NUMBER),
        ("0 swap r16 0 0 0", REGISTER),
        ("0 swap r0 256 0 0", NUMBER),
        ("0 swap r0 0 x 0", NUMBER),
        ("0 swap r0 0 0 x", NUMBER),
        ("0 same r16 r0", REGISTER),
        ("0 same r0 r16", REGISTER),
        ("0 copy r16 r0", REGISTER),
        ("0 copy r0 r16", REGISTER),
        ("0 share 16 r0", NUMBER),
        ("0 share r0 0", NUMBER),
        ("0 share 0 r16", REGISTER),
        ("0 take r16 0", REGISTER),
        ("0 take r0 16", NUMBER),
        ("0 await r16 0", REGISTER),
        ("0 await r0 16", NUMBER),
    ] {
        see_fault_behind(&rt, line, 4, cause)?;
    }
    Ok(())
}

#[test]
fn the_leftmost_bad_word_of_a_call_line_is_told(rt: HostRuntime) -> Result<(), Fail> {
    for (line, cause) in [
        ("9 clear r16", MUTATOR),
        ("9 share 16 r0", MUTATOR),
        ("9 new r0 pair", MUTATOR),
        ("0 new r16 pair", REGISTER),
        ("0 get r16 r0 256", REGISTER),
        ("0 get r0 r16 256", REGISTER),
        ("0 put r16 256 r0", REGISTER),
        ("0 put r0 256 r16", NUMBER),
        ("0 ask r16 256", REGISTER),
        ("0 set r16 256 x", REGISTER),
        ("0 set r16 0 x", REGISTER),
        ("0 swap r16 256 x x", REGISTER),
        ("0 swap r16 0 0 x", REGISTER),
        ("0 share 16 r16", NUMBER),
        ("0 take r16 16", REGISTER),
        ("0 await r16 16", REGISTER),
    ] {
        see_fault_behind(&rt, line, 4, cause)?;
    }
    Ok(())
}

#[test]
fn the_first_bad_line_is_told(rt: HostRuntime) -> Result<(), Fail> {
    for (lines, line, cause) in [
        // Two bad lines.
        ("type a 256 0\ntype A 1 1", 4, NUMBER),
        ("type A 1 1\ntype a 256 0", 4, TYPE),
        ("type a 256 0\n0 jump", 4, NUMBER),
        ("0 jump\n0 clear r16", 4, WORD),
        ("0 clear r16\n0 jump", 4, REGISTER),
        ("2 clear r0\n0 clear r16\n0 jump", 4, MUTATOR),
        // Good lines before the bad one.
        ("type a 1 1\ntype a 1 1", 5, DUPLICATE),
        ("type a 1 1\ntype b 1 1\ntype a 0 0", 6, DUPLICATE),
        ("type a 1 1\n0 new r0 b", 5, TYPE),
        ("0 clear r0\n1 clear r15\n2 clear r0", 6, MUTATOR),
        // An empty line is no end.
        ("\n0 clear r16", 4, WORD),
        ("0 clear r0\n\n0 clear r16", 5, WORD),
        ("0 clear r0\n", 5, WORD),
        ("type a 1 1\n", 5, WORD),
        // Behind a call line there are no type lines.
        ("0 clear r0\ntype a 1 1", 5, WORD),
        ("0 clear r0\ntype", 5, WORD),
        ("0 clear r0\ntype new r0 box", 5, MUTATOR),
        ("0 clear r0\ntype new r0 a", 5, MUTATOR),
        ("0 clear r0\ntype clear r16", 5, MUTATOR),
        ("0 new r0 a\ntype a 1 1", 4, TYPE),
    ] {
        see_fault_behind(&rt, lines, line, cause)?;
    }
    // A last line without its newline.
    for (text, line, cause) in [
        ("moar-gc 1\nmutators 9", 2, MUTATOR),
        ("moar-gc 1\nmutators 1\ntype a 1", 3, WORD),
        (
            "moar-gc 1\nmutators 1\n0 clear r0\n0 clear r16",
            4,
            REGISTER,
        ),
    ] {
        see_fault(&rt, text, line, cause);
    }
    Ok(())
}
