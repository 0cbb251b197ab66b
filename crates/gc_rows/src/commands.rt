//! Command lines: which are refused, and what those that are taken write. The generated script of few rounds is written
//! out by hand, and so are the summaries of what is played of it.

use crate::row::{ONE_BOX, Row};
use crate::run_in_memory;
use gc_cli::Status;
use gc_io::{MemorySink, MemorySource, OpenGate};
use std::test::Fail;

/// The generated script of one round.
const ONE_ROUND: &str = "moar-gc 1\n\
     mutators 4\n\
     type node 2 1\n\
     type table 8 1\n\
     0 new r15 table\n\
     0 share 0 r15\n\
     1 new r15 table\n\
     1 share 1 r15\n\
     2 new r15 table\n\
     2 share 2 r15\n\
     3 new r15 table\n\
     3 share 3 r15\n\
     0 new r0 node\n\
     0 set r0 0 0\n\
     0 new r1 node\n\
     0 put r0 0 r1\n\
     0 put r1 0 r15\n\
     0 put r15 0 r0\n\
     0 take r2 1\n\
     0 get r3 r2 0\n\
     0 ask r3 0\n\
     0 swap r15 0 0 1\n";

/// Its summary: the neighbour has no node yet, so that two calls find nothing.
const ONE_ROUND_PLAYED: &str = "calls 18 done 15 full 0 numbers 0 sum 0 yes 1 no 0 refused 2\n";

/// The summary of four rounds: mutator 3 finds the node of round 0, whose number is 0, and the others find none.
const FOUR_ROUNDS_PLAYED: &str = "calls 48 done 37 full 0 numbers 1 sum 0 yes 4 no 0 refused 6\n";

/// The summary of eight: mutator 3 finds the node of round 4 too.
const EIGHT_ROUNDS_PLAYED: &str = "calls 88 done 66 full 0 numbers 2 sum 4 yes 8 no 0 refused 12\n";

/// The summary and the report of 64 rounds. In each of the 16 groups of four mutator 3 reads the node of mutator 0 of its
/// own group, of which the numbers are 0, 4 and so on up to 60: their sum is 480. From the ninth group on the others read
/// the node that their neighbour stored eight groups before: of the groups 0 to 7 the nodes 4g + 1, 4g + 2 and 4g + 3, of
/// which the sum is 384. Before that they find nothing, twice a round: 48 times. What is reachable at the one collection is
/// the common object, four tables, 64 nodes in the tables, for each of which eight slots stand, and 6 that a register alone
/// names or keeps: 1 * 18 + 4 * 11 + 70 * 5 = 412 words.
const SIXTY_FOUR_ROUNDS_PLAYED: &str =
    "calls 649 done 497 full 0 numbers 40 sum 864 yes 64 no 0 refused 48\n\
     run 1 full objects 75 words 412\n";

#[test]
fn command_lines_are_refused(rt: HostRuntime) -> Result<(), Fail> {
    for words in [
        &["--reports"] as &[&str],
        &["--", "play"],
        &["-"],
        &["help"],
        &["--help"],
        &["--version"],
        &["play", "--help"],
        &["play", "-h"],
        &["play", "--version"],
        &["play", "-V"],
        &["play", "help"],
        &["play", "--", "--reports"],
        &["play", "--reports", "--"],
        &["play", "--nursery", "--", "64"],
        &["play", "--summary", "--summary"],
        &["play", "--summary=1"],
        &["play", "--reports="],
        &["play", "--nursery="],
        &["play", "--nursery=63"],
        &["play", "--nursery=65537"],
        &["play", "--nursery=064"],
        &["play", "--nursery==64"],
        &["play", "--nursery=64", "--nursery", "64"],
        &["play", "--nurser=64"],
        &["play", "--nursery64"],
        &["play", "-nursery=64"],
        &["play", "--pages=129"],
        &["play", "--pages=0"],
        &["play", "--pages=1", "--pages=1"],
        &["play", "--rounds", "1"],
        &["play", "1"],
        &["run", "1"],
        &["run", "run"],
        &["run", "play"],
        &["run", "--"],
        &["run", "--help"],
        &["run", "--nursery=63"],
        &["run", "--pages", "129"],
        &["run", "--reports", "--reports"],
        &["Run"],
        &["make"],
        &["make", ""],
        &["make", "0"],
        &["make", "064"],
        &["make", "+64"],
        &["make", "-64"],
        &["make", "100001"],
        &["make", "4294967297"],
        &["make", "18446744073709551617"],
        &["make", "1", "1"],
        &["make", "1", "--reports"],
        &["make", "--summary", "1"],
        &["make", "1", "--nursery", "64"],
        &["make", "1", "--pages=1"],
        &["make", "--"],
        &["make", "1", "--"],
        &["make", "one"],
        &["drill"],
        &["drill", "--reports"],
        &["drill", "0"],
        &["drill", "01"],
        &["drill", "100001"],
        &["drill", "64", "64"],
        &["drill", "--nursery", "64"],
        &["drill", "--nursery", "64", "--nursery", "64", "1"],
        &["drill", "1", "--reports", "--reports"],
        &["drill", "1", "--", "--reports"],
        &["drill", "64", "play"],
        &["drill", "-1"],
        &["drill", "1", "--pages", "129"],
    ] {
        Row::misuses("words that are no command", words, ONE_BOX).check(&rt)?;
    }
    Ok(())
}

#[test]
fn command_lines_are_taken(rt: HostRuntime) -> Result<(), Fail> {
    for row in [
        Row::writes("one round is made", &["make", "1"], ONE_ROUND),
        Row::writes("a round is played", &["drill", "1"], ONE_ROUND_PLAYED),
        Row::writes("four are", &["drill", "4"], FOUR_ROUNDS_PLAYED),
        Row::writes("eight are", &["drill", "8"], EIGHT_ROUNDS_PLAYED),
        Row::writes(
            "with a summary that is asked for",
            &["drill", "8", "--summary"],
            EIGHT_ROUNDS_PLAYED,
        ),
        Row::writes(
            "with reports, of which there is none",
            &["drill", "8", "--reports"],
            EIGHT_ROUNDS_PLAYED,
        ),
        Row::writes(
            "the number behind an option",
            &["drill", "--reports", "8"],
            EIGHT_ROUNDS_PLAYED,
        ),
        Row::writes(
            "the number between options",
            &["drill", "--nursery", "100", "8", "--pages=1", "--summary"],
            EIGHT_ROUNDS_PLAYED,
        ),
        Row::writes(
            "64 rounds",
            &["drill", "64", "--reports"],
            SIXTY_FOUR_ROUNDS_PLAYED,
        ),
        Row::writes(
            "64 rounds, the number last",
            &["drill", "--reports", "--nursery=65536", "--pages=128", "64"],
            SIXTY_FOUR_ROUNDS_PLAYED,
        ),
    ] {
        row.check(&rt)?;
    }
    Ok(())
}

/// A script that brings each reply.
const EACH_REPLY: &str = "moar-gc 1\n\
     mutators 1\n\
     type box 0 1\n\
     type whole 0 62\n\
     0 new r0 box\n\
     0 set r0 0 18446744073709551615\n\
     0 ask r0 0\n\
     0 swap r0 0 0 1\n\
     0 swap r0 0 18446744073709551615 2\n\
     0 ask r0 0\n\
     0 same r0 r1\n\
     0 same r1 r2\n\
     0 take r1 3\n\
     0 ask r1 0\n\
     0 ask r0 1\n\
     0 unblock\n\
     0 block\n\
     0 clear r0\n\
     0 unblock\n\
     0 new r2 whole\n";

/// Of 16 calls 4 are done: the box is made and set, and the mutator is blocked and not blocked again. The widest object has
/// no place in a half that has the box too. The two numbers, 2 ^ 64 - 1 and 2, are together 1 modulo 2 ^ 64. A swap and a
/// comparison are yes; and so many are no, of which one tells the number. Refused are what finds an empty slot, no base, no
/// such place, a mutator that isn't blocked, and one that is.
const EACH_REPLY_COUNTED: &str = "calls 16 done 4 full 1 numbers 2 sum 1 yes 2 no 2 refused 5\n";

/// Those, and the two collections that the widest object brought: the box and the common object, of 3 and 18 words.
const EACH_REPLY_REPORTED: &str = "calls 16 done 4 full 1 numbers 2 sum 1 yes 2 no 2 refused 5\n\
     run 1 minor\n\
     run 2 full objects 2 words 21\n";

#[test]
fn replies_are_counted(rt: HostRuntime) -> Result<(), Fail> {
    let counted = Row::plays("each reply", EACH_REPLY, EACH_REPLY_COUNTED);
    let reported = Row::plays("each reply", EACH_REPLY, EACH_REPLY_REPORTED);
    for row in [
        counted.with_words(&["play", "--summary", "--nursery", "64", "--pages", "1"]),
        counted.with_words(&["play", "--nursery=64", "--pages=1", "--summary"]),
        reported.with_words(&[
            "play",
            "--reports",
            "--nursery=64",
            "--summary",
            "--pages",
            "1",
        ]),
        reported.with_words(&[
            "play",
            "--summary",
            "--pages=1",
            "--reports",
            "--nursery",
            "64",
        ]),
        Row::plays(
            "nothing to count",
            "moar-gc 1\nmutators 8\n",
            "calls 0 done 0 full 0 numbers 0 sum 0 yes 0 no 0 refused 0\n",
        )
        .with_words(&["play", "--summary"]),
    ] {
        row.check(&rt)?;
    }
    Ok(())
}

#[test]
fn what_is_made_is_played_as_it_is_drilled(rt: HostRuntime) -> Result<(), Fail> {
    let alloc = rt.alloc();
    let mut words = Vec::new(alloc);
    words.push("make".to_string(alloc)?)?;
    words.push("64".to_string(alloc)?)?;
    let mut src = MemorySource::make(Vec::new(alloc), 1, vec![in alloc; 1]?);
    let mut out = MemorySink::make(alloc, 65_536, Vec::new(alloc))?;
    let mut err = MemorySink::make(alloc, 256, Vec::new(alloc))?;
    let made = run_in_memory(
        &rt,
        alloc,
        words.as_slice(),
        &mut src,
        &mut out,
        &mut err,
        &OpenGate,
    );
    assert_eq!(&rt; made.status, Status::Done);

    let mut words = Vec::new(alloc);
    for word in ["play", "--summary", "--reports"] {
        words.push(word.to_string(alloc)?)?;
    }
    let mut src = MemorySource::make(out.bytes().to_vec(alloc)?, 4096, Vec::new(alloc));
    let mut played = MemorySink::make(alloc, 256, Vec::new(alloc))?;
    let outcome = run_in_memory(
        &rt,
        alloc,
        words.as_slice(),
        &mut src,
        &mut played,
        &mut err,
        &OpenGate,
    );
    assert_eq!(&rt; outcome.status, Status::Done);
    assert!(&rt; played.bytes() == SIXTY_FOUR_ROUNDS_PLAYED.as_bytes());
    Ok(())
}
