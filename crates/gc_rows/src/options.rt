//! The options of `play`: which are refused, and what those that are taken do. A half of so many words has room for
//! so many objects, and the next one brings a collection; a heap of such halves and of so many pages has room for so
//! many objects that are all needed, and the next one is told that it is full.

use crate::row::{ONE_BOX, ONE_BOX_OUTPUT, Row};
use crate::run_in_memory;
use gc_cli::Status;
use gc_io::{MemorySink, MemorySource, OpenGate};
use std::alloc::{AllocError, Global};
use std::fmt::Write;
use std::process::Abort;
use std::sync::Wait;
use std::test::Fail;
use std::thread::Threads;

#[test]
fn options_are_refused(rt: HostRuntime) -> Result<(), Fail> {
    for row in [
        Row::misuses("two dashes", &["play", "--"], ONE_BOX),
        Row::misuses("an empty word", &["play", ""], ONE_BOX),
        Row::misuses("a number alone", &["play", "64"], ONE_BOX),
        Row::misuses("one dash", &["play", "-reports"], ONE_BOX),
        Row::misuses("an option in capitals", &["play", "--REPORTS"], ONE_BOX),
        Row::misuses("an option and more", &["play", "--reports "], ONE_BOX),
        Row::misuses(
            "the reports twice",
            &["play", "--reports", "--reports"],
            ONE_BOX,
        ),
        Row::misuses(
            "the reports with a value",
            &["play", "--reports", "1"],
            ONE_BOX,
        ),
        Row::misuses(
            "the mode behind an option",
            &["play", "--reports", "play"],
            ONE_BOX,
        ),
    ] {
        row.check(&rt)?;
    }
    Ok(())
}

#[test]
fn halves_are_refused(rt: HostRuntime) -> Result<(), Fail> {
    for row in [
        Row::misuses("no value", &["play", "--nursery"], ONE_BOX),
        Row::misuses("an empty value", &["play", "--nursery", ""], ONE_BOX),
        Row::misuses("63 words", &["play", "--nursery", "63"], ONE_BOX),
        Row::misuses("65537 words", &["play", "--nursery", "65537"], ONE_BOX),
        Row::misuses("no words", &["play", "--nursery", "0"], ONE_BOX),
        Row::misuses("a leading zero", &["play", "--nursery", "064"], ONE_BOX),
        Row::misuses("a sign", &["play", "--nursery", "+64"], ONE_BOX),
        Row::misuses("below 0", &["play", "--nursery", "-64"], ONE_BOX),
        Row::misuses("a space", &["play", "--nursery", "64 "], ONE_BOX),
        Row::misuses("a letter", &["play", "--nursery", "64k"], ONE_BOX),
        Row::misuses("a point", &["play", "--nursery", "64.0"], ONE_BOX),
        Row::misuses(
            "2 ^ 32 and 64",
            &["play", "--nursery", "4294967360"],
            ONE_BOX,
        ),
        Row::misuses(
            "a value of 20 digits",
            &["play", "--nursery", "18446744073709551615"],
            ONE_BOX,
        ),
        Row::misuses(
            "a value above 64 bits",
            &["play", "--nursery", "18446744073709551680"],
            ONE_BOX,
        ),
        Row::misuses(
            "an option for the value",
            &["play", "--nursery", "--pages", "1"],
            ONE_BOX,
        ),
        Row::misuses(
            "twice",
            &["play", "--nursery", "64", "--nursery", "64"],
            ONE_BOX,
        ),
        Row::misuses("two values", &["play", "--nursery", "64", "64"], ONE_BOX),
    ] {
        row.check(&rt)?;
    }
    Ok(())
}

#[test]
fn pages_are_refused(rt: HostRuntime) -> Result<(), Fail> {
    for row in [
        Row::misuses("no value", &["play", "--pages"], ONE_BOX),
        Row::misuses(
            "no value behind another option",
            &["play", "--reports", "--pages"],
            ONE_BOX,
        ),
        Row::misuses("an empty value", &["play", "--pages", ""], ONE_BOX),
        Row::misuses("no pages", &["play", "--pages", "0"], ONE_BOX),
        Row::misuses("129 pages", &["play", "--pages", "129"], ONE_BOX),
        Row::misuses("a leading zero", &["play", "--pages", "01"], ONE_BOX),
        Row::misuses("a sign", &["play", "--pages", "+1"], ONE_BOX),
        Row::misuses("2 ^ 16 and 1", &["play", "--pages", "65537"], ONE_BOX),
        Row::misuses(
            "a value above 64 bits",
            &["play", "--pages", "18446744073709551617"],
            ONE_BOX,
        ),
        Row::misuses(
            "twice, another option between them",
            &["play", "--pages", "1", "--reports", "--pages", "2"],
            ONE_BOX,
        ),
        Row::misuses(
            "four options",
            &[
                "play",
                "--pages",
                "1",
                "--reports",
                "--nursery",
                "64",
                "--reports",
            ],
            ONE_BOX,
        ),
    ] {
        row.check(&rt)?;
    }
    Ok(())
}

#[test]
fn options_are_played(rt: HostRuntime) -> Result<(), Fail> {
    let row = Row::plays("one box", ONE_BOX, ONE_BOX_OUTPUT);
    for words in [
        row.with_words(&["play", "--reports"]),
        row.with_words(&["play", "--nursery", "64"]),
        row.with_words(&["play", "--nursery", "65536"]),
        row.with_words(&["play", "--pages", "1"]),
        row.with_words(&["play", "--pages", "128"]),
    ] {
        words.check(&rt)?;
    }
    Ok(())
}

/// Words, and a number of objects of 4 words.
#[derive(Clone, Copy)]
struct Room {
    words: &'static [&'static str],
    objects: u32,
}

impl Room {
    fn new(words: &'static [&'static str], objects: u32) -> Room {
        Room { words, objects }
    }

    /// Plays a script with the words, and compares what it prints.
    fn check<R: Abort + AllocGlobal + Threads + Wait + Sync>(
        &self,
        rt: &R,
        script: &str,
        output: &str,
    ) -> Result<(), Fail> {
        let alloc = rt.alloc();
        let mut words = Vec::new(alloc);
        for word in self.words {
            words.push(word.to_string(alloc)?)?;
        }
        let mut src = MemorySource::make(script.as_bytes().to_vec(alloc)?, 4096, Vec::new(alloc));
        let mut out = MemorySink::make(alloc, 4_194_304, Vec::new(alloc))?;
        let mut err = MemorySink::make(alloc, 64, Vec::new(alloc))?;
        let outcome = run_in_memory(
            rt,
            alloc,
            words.as_slice(),
            &mut src,
            &mut out,
            &mut err,
            &OpenGate,
        );
        assert_eq!(rt; outcome.status, Status::Done, "with {:?}", self.words);
        assert!(rt; out.bytes() == output.as_bytes(), "with {:?}", self.words);
        Ok(())
    }

    /// The words ask for reports, and a half has room for so many objects: they bring no collection, and the next
    /// one brings the first.
    fn check_half<R: Abort + AllocGlobal + Threads + Wait + Sync>(
        &self,
        rt: &R,
    ) -> Result<(), Fail> {
        let (mut script, mut output) = dropped_pairs(rt.alloc(), self.objects)?;
        self.check(rt, script.as_str(), output.as_str())?;
        script.push_str("0 new r0 pair\n")?;
        write!(
            output,
            "{} done\nrun 1 minor\n",
            self.objects.saturating_add(4)
        )?;
        self.check(rt, script.as_str(), output.as_str())
    }

    /// The words ask for no reports, and the heap has room for so many objects that are all needed, and no more.
    fn check_heap<R: Abort + AllocGlobal + Threads + Wait + Sync>(
        &self,
        rt: &R,
    ) -> Result<(), Fail> {
        let (mut script, mut output) = chained_pairs(rt.alloc(), self.objects)?;
        script.push_str("0 new r1 pair\n")?;
        let last = self.objects.saturating_mul(3).saturating_add(4);
        writeln!(output, "{last} full")?;
        self.check(rt, script.as_str(), output.as_str())
    }
}

/// A script of so many pairs of 4 words, of which each is dropped by the next, and what it prints.
fn dropped_pairs(alloc: Global, objects: u32) -> Result<(String, String), AllocError> {
    let mut script = String::new(alloc);
    let mut output = String::new(alloc);
    script.push_str("moar-gc 1\nmutators 1\ntype pair 2 0\n")?;
    for object in 0..objects {
        script.push_str("0 new r0 pair\n")?;
        writeln!(output, "{} done", object.saturating_add(4))?;
    }
    Ok((script, output))
}

/// A script of a chain of so many pairs of 4 words, which a register names, and what it prints.
fn chained_pairs(alloc: Global, objects: u32) -> Result<(String, String), AllocError> {
    let mut script = String::new(alloc);
    let mut output = String::new(alloc);
    script.push_str("moar-gc 1\nmutators 1\ntype pair 2 0\n")?;
    for object in 0..objects {
        script.push_str("0 new r1 pair\n0 put r1 0 r0\n0 copy r0 r1\n")?;
        let number = object.saturating_mul(3).saturating_add(4);
        writeln!(output, "{number} done")?;
        writeln!(output, "{} done", number.saturating_add(1))?;
        writeln!(output, "{} done", number.saturating_add(2))?;
    }
    Ok((script, output))
}

#[test]
fn a_half_has_the_words_that_are_asked_for(rt: HostRuntime) -> Result<(), Fail> {
    for room in [
        Room::new(&["play", "--reports"], 1024),
        Room::new(&["play", "--pages", "64", "--reports"], 1024),
        Room::new(&["play", "--nursery", "64", "--reports"], 16),
        Room::new(&["play", "--nursery", "67", "--reports"], 16),
        Room::new(&["play", "--nursery", "68", "--reports"], 17),
        Room::new(&["play", "--nursery", "4095", "--reports"], 1023),
        Room::new(&["play", "--nursery", "65535", "--reports"], 16_383),
        Room::new(&["play", "--nursery", "65536", "--reports"], 16_384),
    ] {
        room.check_half(&rt)?;
    }
    Ok(())
}

/// A pair is in a half or in a cell of class 4, of which a page has 256. The first page has the class of the common
/// object. All pairs are needed, so the last one is full exactly where the half has no 4 words left behind the
/// collections that it brings, and all cells are used.
#[test]
fn a_heap_has_the_halves_and_pages_that_are_asked_for(rt: HostRuntime) -> Result<(), Fail> {
    for room in [
        // 1,024 in the half of 4,096 words, and 7 * 256 = 1,792 in pages.
        Room::new(&["play"], 2816),
        // The half and no page.
        Room::new(&["play", "--pages", "1"], 1024),
        Room::new(&["play", "--pages", "1", "--nursery", "64"], 16),
        Room::new(&["play", "--pages", "1", "--nursery", "67"], 16),
        Room::new(&["play", "--pages", "1", "--nursery", "68"], 17),
        // 16 or 17 and a page, and 16 and 7 pages.
        Room::new(&["play", "--pages", "2", "--nursery", "67"], 272),
        Room::new(&["play", "--nursery", "68", "--pages", "2"], 273),
        Room::new(&["play", "--nursery", "64"], 1808),
        // 1,023 and 2 * 256 = 512.
        Room::new(&["play", "--nursery", "4095", "--pages", "3"], 1535),
        // 256 and 127 * 256 = 32,512.
        Room::new(&["play", "--nursery", "1024", "--pages", "128"], 32_768),
        // 16,384 and 2 pages.
        Room::new(&["play", "--nursery", "65536", "--pages", "3"], 16_896),
    ] {
        room.check_heap(&rt)?;
    }
    Ok(())
}

#[test]
fn options_stand_in_any_order(rt: HostRuntime) -> Result<(), Fail> {
    for room in [
        Room::new(
            &["play", "--nursery", "64", "--pages", "128", "--reports"],
            16,
        ),
        Room::new(
            &["play", "--nursery", "64", "--reports", "--pages", "128"],
            16,
        ),
        Room::new(
            &["play", "--pages", "128", "--nursery", "64", "--reports"],
            16,
        ),
        Room::new(
            &["play", "--pages", "128", "--reports", "--nursery", "64"],
            16,
        ),
        Room::new(
            &["play", "--reports", "--nursery", "64", "--pages", "128"],
            16,
        ),
        Room::new(
            &["play", "--reports", "--pages", "128", "--nursery", "64"],
            16,
        ),
    ] {
        room.check_half(&rt)?;
    }
    Ok(())
}
