//! Each size that may be asked for: the mutators, the pages, the halves, and the bytes of a script.

ghost use Rattle.std.specs.Prelude.{◌≡◌, ◌<◌, ◌≤◌};
ghost use Rattle.gc_cli.specs.Played.{AreAllowed};

use crate::row::printed;
use crate::run_in_memory;
use gc_cli::{Opts, Status};
use gc_io::{MemorySink, MemorySource, OpenGate};
use std::alloc::{AllocError, Global};
use std::fmt::Write;
use std::process::Abort;
use std::sync::Wait;
use std::test::Fail;
use std::thread::Threads;

/// The most bytes of a script.
const MOST_BYTES: usize = 16_777_216;

/// The options that ask for halves of so many words and so many pages.
fn heap(nursery: u32, pages: u16) -> Opts
    requires least { 64 ≤ nursery }
    requires most { nursery ≤ 65536 }
    requires some { 1 ≤ pages }
    requires few { pages ≤ 128 }
    ensures { AreAllowed result }
{
    Opts {
        nursery,
        pages,
        ..Opts::DEFAULT
    }
}

/// A script in which each mutator makes a box, sets it and shares it, and then asks its neighbour's; and what it
/// prints.
fn neighbours(alloc: Global, mutators: u64) -> Result<(String, String), AllocError>
    requires { 0 < mutators }
{
    let mut script = String::new(alloc);
    let mut output = String::new(alloc);
    writeln!(script, "moar-gc 1\nmutators {mutators}\ntype box 0 1")?;
    let mut number = 4u64;
    for t in 0..mutators {
        writeln!(script, "{t} new r0 box\n{t} set r0 0 {t}\n{t} share {t} r0")?;
        for _ in 0..3 {
            writeln!(output, "{number} done")?;
            number = number.saturating_add(1);
        }
    }
    for t in 0..mutators {
        let neighbour = t.saturating_add(1) % mutators;
        writeln!(script, "{t} take r1 {neighbour}\n{t} ask r1 0")?;
        writeln!(output, "{number} done")?;
        number = number.saturating_add(1);
        writeln!(output, "{number} {neighbour}")?;
        number = number.saturating_add(1);
    }
    Ok((script, output))
}

#[test]
fn each_size_is_played(rt: HostRuntime) -> Result<(), Fail> {
    for mutators in 1..=8u64 {
        let (script, output) = neighbours(rt.alloc(), mutators)?;
        for half in [64, 65, 1000, 4096, 65_536] {
            for pages in [1, 2, 8, 127, 128] {
                assert!(rt; 64 <= half && half <= 65_536 && 1 <= pages && pages <= 128);
                let name = format!(in rt.alloc();
                    "{mutators} with {half} words and {pages} pages"
                )?;
                let out = printed(&rt, name.as_str(), script.as_bytes(), &heap(half, pages))?;
                assert_eq!(rt; out.bytes(), output.as_bytes(), "{name}");
            }
        }
    }
    Ok(())
}

/// Plays a script of one mutator on halves of so many words and so many pages.
fn check_heap<R: Abort + AllocGlobal>(rt: &R, half: u32, pages: u16) -> Result<(), Fail> {
    let (script, output) = neighbours(rt.alloc(), 1)?;
    assert!(rt; 64 <= half && half <= 65_536 && 1 <= pages && pages <= 128);
    let name = format!(in rt.alloc(); "{half} words and {pages} pages")?;
    let out = printed(rt, name.as_str(), script.as_bytes(), &heap(half, pages))?;
    assert_eq!(rt; out.bytes(), output.as_bytes(), "{name}");
    Ok(())
}

#[test]
fn each_number_of_pages_is_played(rt: HostRuntime) -> Result<(), Fail> {
    for pages in 1..=128 {
        check_heap(&rt, 64, pages)?;
    }
    Ok(())
}

#[test]
fn each_smaller_half_is_played_and_some_larger_ones(rt: HostRuntime) -> Result<(), Fail> {
    for half in 64..=600 {
        check_heap(&rt, half, 1)?;
    }
    for thousands in 1..=65 {
        check_heap(&rt, thousands * 1000, 8)?;
        check_heap(&rt, thousands * 1000 + 500, 8)?;
    }
    Ok(())
}

/// How many objects of 64 words there is room for in the greatest heap, of each mutator: 1,024 in a half of 65,536
/// words, and 16 in each of 128 pages. The first page of mutator 0 has the class of the common object.
const GREATEST_ROOM: [u32; 8] = [3056, 3072, 3072, 3072, 3072, 3072, 3072, 3072];

/// A script in which each mutator chains objects of 64 words until it is told that it is full, and then one more; and
/// what it prints. Last mutator 7 walks its chain.
fn greatest_chains(alloc: Global) -> Result<(String, String), AllocError> {
    let mut script = String::new(alloc);
    let mut output = String::new(alloc);
    script.push_str("moar-gc 1\nmutators 8\ntype wide 1 61\n")?;
    let mut number = 4u32;
    for object in 0..3074u32 {
        for (t, room) in GREATEST_ROOM.iter().enumerate() {
            if object < *room {
                writeln!(
                    script,
                    "{t} new r1 wide\n{t} set r1 60 {object}\n{t} put r1 0 r0\n{t} copy r0 r1"
                )?;
                for _ in 0..4 {
                    writeln!(output, "{number} done")?;
                    number = number.saturating_add(1);
                }
            } else if object < room.saturating_add(2) {
                writeln!(script, "{t} new r1 wide")?;
                writeln!(output, "{number} full")?;
                number = number.saturating_add(1);
            }
        }
    }
    for object in 1..=3072u32 {
        writeln!(script, "7 ask r0 60\n7 get r0 r0 0")?;
        writeln!(output, "{number} {}", 3072u32.saturating_sub(object))?;
        let reply = if object < 3072 { "done" } else { "nil" };
        writeln!(output, "{} {reply}", number.saturating_add(1))?;
        number = number.saturating_add(2);
    }
    Ok((script, output))
}

#[test]
fn the_greatest_heap_is_filled(rt: HostRuntime) -> Result<(), Fail> {
    let (script, output) = greatest_chains(rt.alloc())?;
    let name = "the greatest heap";
    let out = printed(&rt, name, script.as_bytes(), &heap(65_536, 128))?;
    assert!(rt; out.bytes() == output.as_bytes());
    Ok(())
}

/// Behind the collections that a new object brings, its mutator's half has no room for it, and no page has.
#[test]
fn a_full_half_is_told(rt: HostRuntime) -> Result<(), Fail> {
    for (script, output) in [
        // The wide object takes 63 of the half's 64 words, so nothing else fits; and the only page has class 20.
        (
            "moar-gc 1\n\
             mutators 1\n\
             type wide 61 0\n\
             type none 0 0\n\
             0 new r0 wide\n\
             0 new r1 none\n\
             0 new r1 wide\n\
             0 ask r1 0\n",
            "5 done\n\
             6 full\n\
             7 full\n\
             8 nil base\n",
        ),
        // Each mutator has a half of its own, and a page of its own. That of mutator 1 gets class 64: the full collection
        // that the least object brings promotes the wide one, so the half has room. Another wide one gets a cell.
        (
            "moar-gc 1\n\
             mutators 2\n\
             type wide 61 0\n\
             type none 0 0\n\
             0 new r0 wide\n\
             0 new r1 none\n\
             1 new r0 wide\n\
             1 new r1 none\n\
             0 same r0 r1\n\
             1 same r0 r1\n\
             1 new r1 wide\n\
             0 new r1 none\n",
            "5 done\n\
             6 full\n\
             7 done\n\
             8 done\n\
             9 no\n\
             10 no\n\
             11 done\n\
             12 full\n",
        ),
        // Two collections promote the least object to the page of mutator 1, which gets class 4. The wide object stays in
        // the half, so there is no cell for another one; but there is one for another least object.
        (
            "moar-gc 1\n\
             mutators 2\n\
             type wide 61 0\n\
             type none 0 0\n\
             1 new r0 none\n\
             0 collect\n\
             0 collect\n\
             1 new r1 wide\n\
             1 new r2 wide\n\
             1 new r3 none\n\
             1 ask r2 0\n\
             1 same r0 r3\n",
            "5 done\n\
             6 done\n\
             7 done\n\
             8 done\n\
             9 full\n\
             10 done\n\
             11 nil base\n\
             12 no\n",
        ),
        // The two take 62 and 2 words, so they fill the half to its last word. The third brings a full collection, which
        // promotes the wide one, so the page gets class 64. Then there is no cell for the least object; it stays in the
        // half, and the third and the last one fit behind it. A second wide one doesn't, and gets a cell.
        (
            "moar-gc 1\n\
             mutators 8\n\
             type wide 60 0\n\
             type none 0 0\n\
             7 new r0 wide\n\
             7 new r1 none\n\
             7 new r2 none\n\
             7 new r3 wide\n\
             7 new r3 none\n\
             6 new r2 none\n\
             7 same r2 r3\n",
            "5 done\n\
             6 done\n\
             7 done\n\
             8 done\n\
             9 done\n\
             10 done\n\
             11 no\n",
        ),
        // What is full leaves the register as it was, and a smaller object may still have its place.
        (
            "moar-gc 1\n\
             mutators 1\n\
             type wide 40 18\n\
             type pair 2 0\n\
             0 new r0 wide\n\
             0 set r0 17 3\n\
             0 new r0 wide\n\
             0 new r1 pair\n\
             0 ask r0 17\n\
             0 put r0 39 r1\n\
             0 get r2 r0 39\n\
             0 same r1 r2\n\
             0 new r1 pair\n\
             0 same r1 r2\n",
            "5 done\n\
             6 done\n\
             7 full\n\
             8 done\n\
             9 3\n\
             10 done\n\
             11 done\n\
             12 yes\n\
             13 full\n\
             14 yes\n",
        ),
    ] {
        let out = printed(&rt, script, script.as_bytes(), &heap(64, 1))?;
        assert_eq!(rt; out.bytes(), output.as_bytes(), "at {script:?}");
    }
    Ok(())
}

/// The text of so many bytes, which is no script: the status it ends with, and its line.
fn refused<R: Abort + AllocGlobal + Threads + Wait + Sync>(
    rt: &R,
    count: usize,
) -> Result<(Status, MemorySink), Fail> {
    let alloc = rt.alloc();
    let mut words = Vec::new(alloc);
    words.push("play".to_string(alloc)?)?;
    let text = vec![in alloc; b'a'; count]?;
    let mut src = MemorySource::make(text, 100_000, Vec::new(alloc));
    let mut out = MemorySink::make(alloc, 64, Vec::new(alloc))?;
    let mut err = MemorySink::make(alloc, 64, Vec::new(alloc))?;
    let outcome = run_in_memory(
        rt,
        alloc,
        words.as_slice(),
        &mut src,
        &mut out,
        &mut err,
        &OpenGate,
    );
    assert_eq!(rt; out.bytes().len(), 0);
    Ok((outcome.status, err))
}

#[test]
fn a_script_that_is_too_long_is_told(rt: HostRuntime) -> Result<(), Fail> {
    for (count, status, line) in [
        (
            MOST_BYTES,
            Status::Bad { line: 1, cause: 1 },
            "moar_gc: line 1: version\n",
        ),
        (MOST_BYTES + 1, Status::Long, "moar_gc: script too long\n"),
        (
            MOST_BYTES + 200_000,
            Status::Long,
            "moar_gc: script too long\n",
        ),
    ] {
        let (ended, err) = refused(&rt, count)?;
        assert_eq!(rt; ended, status);
        assert_eq!(rt; err.bytes(), line.as_bytes());
    }
    Ok(())
}

#[test]
fn a_faulty_text_of_each_length_is_told(rt: HostRuntime) -> Result<(), Fail> {
    for count in (0..=300).chain(65_530..=65_540).chain(131_070..=131_074) {
        let (ended, err) = refused(&rt, count)?;
        assert_eq!(rt; ended, Status::Bad { line: 1, cause: 1 }, "{count} bytes");
        assert_eq!(rt; err.bytes(), b"moar_gc: line 1: version\n".as_slice());
    }
    Ok(())
}

/// A script of so many lines that clear a register, and what it prints.
fn clears(alloc: Global, lines: u32) -> Result<(String, String), AllocError> {
    let mut script = String::new(alloc);
    let mut output = String::new(alloc);
    script.push_str("moar-gc 1\nmutators 1\n")?;
    for number in 0..lines {
        script.push_str("0 clear r0\n")?;
        writeln!(output, "{} done", number.saturating_add(3))?;
    }
    Ok((script, output))
}

#[test]
fn each_number_of_lines_is_played_and_a_fault_behind_them_is_told(
    rt: HostRuntime,
) -> Result<(), Fail> {
    let alloc = rt.alloc();
    let mut words = Vec::new(alloc);
    words.push("play".to_string(alloc)?)?;
    for lines in 0..=150u32 {
        let (mut script, output) = clears(alloc, lines)?;
        let out = printed(&rt, "clears", script.as_bytes(), &heap(64, 1))?;
        assert_eq!(rt; out.bytes(), output.as_bytes(), "{lines} lines");

        script.push_str("1 clear r0\n")?;
        let text = script.as_bytes().to_vec(alloc)?;
        let mut src = MemorySource::make(text, 100, Vec::new(alloc));
        let mut out = MemorySink::make(alloc, 64, Vec::new(alloc))?;
        let mut err = MemorySink::make(alloc, 64, Vec::new(alloc))?;
        let outcome = run_in_memory(
            &rt,
            alloc,
            words.as_slice(),
            &mut src,
            &mut out,
            &mut err,
            &OpenGate,
        );
        let line = lines.saturating_add(3);
        assert_eq!(rt; outcome.status, Status::Bad { line, cause: 6 });
    }
    Ok(())
}

#[test]
fn each_number_of_types_is_played(rt: HostRuntime) -> Result<(), Fail> {
    let alloc = rt.alloc();
    let mut types = String::new(alloc);
    let mut declared = 0u32;
    for first in b'a'..=b'j' {
        for second in b'a'..=b'y' {
            let name = format!(in alloc; "{}{}", char::from(first), char::from(second))?;
            writeln!(types, "type {name} 1 1")?;
            declared = declared.saturating_add(1);
            let script = format!(in alloc; "moar-gc 1\nmutators 1\n{types}0 new r0 {name}\n")?;
            let output = format!(in alloc; "{} done\n", declared.saturating_add(3))?;
            let out = printed(&rt, name.as_str(), script.as_bytes(), &heap(64, 1))?;
            assert_eq!(rt; out.bytes(), output.as_bytes(), "{declared} types");
        }
    }
    Ok(())
}
