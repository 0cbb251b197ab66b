//! Scripts that are played, and what is printed: a table for each group of calls. All values are worked out by hand.

use crate::row::{ONE_BOX, ONE_BOX_OUTPUT, Row};
use std::test::Fail;

#[test]
fn scripts_are_played(rt: HostRuntime) -> Result<(), Fail> {
    for row in [
        Row::plays("one box", ONE_BOX, ONE_BOX_OUTPUT),
        Row::plays("one box, a byte a read", ONE_BOX, ONE_BOX_OUTPUT).with_step(1),
        Row::plays(
            "the last line without its newline",
            "moar-gc 1\n\
             mutators 1\n\
             type box 0 1\n\
             0 new r0 box",
            "4 done\n",
        ),
        Row::plays(
            "the largest number is set and asked",
            "moar-gc 1\n\
             mutators 1\n\
             type box 0 1\n\
             0 new r0 box\n\
             0 set r0 0 18446744073709551615\n\
             0 ask r0 0\n",
            "4 done\n\
             5 done\n\
             6 18446744073709551615\n",
        ),
        Row::plays(
            "nothing after line 2",
            "moar-gc 1\n\
             mutators 1\n",
            "",
        ),
        Row::plays(
            "the widest type",
            "moar-gc 1\n\
             mutators 1\n\
             type wide 62 0\n",
            "",
        ),
        Row::plays(
            "an empty register, and places out of range",
            "moar-gc 1\n\
             mutators 1\n\
             type pair 2 1\n\
             0 ask r1 0\n\
             0 new r1 pair\n\
             0 ask r1 0\n\
             0 ask r1 1\n\
             0 set r1 1 5\n\
             0 set r2 0 5\n",
            "4 nil base\n\
             5 done\n\
             6 0\n\
             7 range\n\
             8 range\n\
             9 nil base\n",
        ),
        Row::plays(
            "a set changes its object alone",
            "moar-gc 1\n\
             mutators 1\n\
             type two 1 2\n\
             0 new r0 two\n\
             0 new r15 two\n\
             0 set r15 1 7\n\
             0 set r0 0 6\n\
             0 ask r0 0\n\
             0 ask r0 1\n\
             0 ask r15 0\n\
             0 ask r15 1\n",
            "4 done\n\
             5 done\n\
             6 done\n\
             7 done\n\
             8 6\n\
             9 0\n\
             10 0\n\
             11 7\n",
        ),
    ] {
        row.check_small_too(&rt)?;
    }
    Ok(())
}

#[test]
fn slots_are_loaded_and_stored(rt: HostRuntime) -> Result<(), Fail> {
    for row in [
        Row::plays(
            "an empty register as base",
            "moar-gc 1\n\
             mutators 1\n\
             0 get r1 r0 0\n",
            "3 nil base\n",
        ),
        Row::plays(
            "an empty slot, and a slot out of range",
            "moar-gc 1\n\
             mutators 1\n\
             type pair 2 0\n\
             0 new r0 pair\n\
             0 get r1 r0 2\n\
             0 get r1 r0 1\n",
            "4 done\n\
             5 range\n\
             6 nil\n",
        ),
        Row::plays(
            "a cycle, and an object that names itself",
            "moar-gc 1\n\
             mutators 1\n\
             type pair 2 0\n\
             0 new r0 pair\n\
             0 new r1 pair\n\
             0 put r0 0 r1\n\
             0 put r1 1 r0\n\
             0 get r2 r0 0\n\
             0 get r2 r2 1\n\
             0 same r2 r0\n\
             0 put r0 1 r0\n\
             0 get r3 r0 1\n\
             0 same r3 r0\n",
            "4 done\n\
             5 done\n\
             6 done\n\
             7 done\n\
             8 done\n\
             9 done\n\
             10 yes\n\
             11 done\n\
             12 done\n\
             13 yes\n",
        ),
        Row::plays(
            "a put over another",
            "moar-gc 1\n\
             mutators 1\n\
             type pair 2 0\n\
             0 new r0 pair\n\
             0 new r1 pair\n\
             0 new r2 pair\n\
             0 put r0 0 r1\n\
             0 put r0 1 r1\n\
             0 put r0 0 r2\n\
             0 get r3 r0 0\n\
             0 same r3 r2\n\
             0 get r3 r0 1\n\
             0 same r3 r1\n",
            "4 done\n\
             5 done\n\
             6 done\n\
             7 done\n\
             8 done\n\
             9 done\n\
             10 done\n\
             11 yes\n\
             12 done\n\
             13 yes\n",
        ),
        Row::plays(
            "an empty register is put, and puts that are refused",
            "moar-gc 1\n\
             mutators 1\n\
             type pair 2 0\n\
             0 new r0 pair\n\
             0 put r0 0 r0\n\
             0 get r3 r0 0\n\
             0 put r0 0 r15\n\
             0 get r3 r0 0\n\
             0 same r3 r0\n\
             0 put r0 2 r0\n\
             0 put r9 0 r0\n",
            "4 done\n\
             5 done\n\
             6 done\n\
             7 done\n\
             8 nil\n\
             9 yes\n\
             10 range\n\
             11 nil base\n",
        ),
        Row::plays(
            "slots and numbers are counted apart",
            "moar-gc 1\n\
             mutators 1\n\
             type both 1 1\n\
             0 new r0 both\n\
             0 set r0 0 5\n\
             0 get r1 r0 0\n\
             0 put r0 0 r0\n\
             0 ask r0 0\n\
             0 get r1 r0 0\n\
             0 same r0 r1\n\
             0 ask r0 1\n\
             0 get r1 r0 1\n",
            "4 done\n\
             5 done\n\
             6 nil\n\
             7 done\n\
             8 5\n\
             9 done\n\
             10 yes\n\
             11 range\n\
             12 range\n",
        ),
    ] {
        row.check_small_too(&rt)?;
    }
    Ok(())
}

#[test]
fn numbers_are_swapped(rt: HostRuntime) -> Result<(), Fail> {
    for row in [
        Row::plays(
            "only the expected number is swapped",
            "moar-gc 1\n\
             mutators 1\n\
             type box 0 1\n\
             0 new r0 box\n\
             0 swap r0 0 5 6\n\
             0 swap r0 0 0 6\n\
             0 ask r0 0\n\
             0 set r0 1 1\n",
            "4 done\n\
             5 no 0\n\
             6 yes\n\
             7 6\n\
             8 range\n",
        ),
        Row::plays(
            "the largest number is found, and swaps that are refused",
            "moar-gc 1\n\
             mutators 1\n\
             type box 0 1\n\
             0 swap r0 0 0 1\n\
             0 new r0 box\n\
             0 swap r0 1 0 1\n\
             0 swap r0 0 0 18446744073709551615\n\
             0 swap r0 0 1 2\n\
             0 swap r0 0 18446744073709551615 0\n\
             0 ask r0 0\n",
            "4 nil base\n\
             5 done\n\
             6 range\n\
             7 yes\n\
             8 no 18446744073709551615\n\
             9 yes\n\
             10 0\n",
        ),
    ] {
        row.check_small_too(&rt)?;
    }
    Ok(())
}

#[test]
fn registers_are_compared_and_copied(rt: HostRuntime) -> Result<(), Fail> {
    for row in [
        Row::plays(
            "the last line is a clear without its newline",
            "moar-gc 1\n\
             mutators 1\n\
             0 clear r0",
            "3 done\n",
        ),
        Row::plays(
            "the same object, another one, and two empty registers",
            "moar-gc 1\n\
             mutators 1\n\
             type pair 2 0\n\
             0 new r0 pair\n\
             0 copy r1 r0\n\
             0 new r2 pair\n\
             0 same r0 r1\n\
             0 same r0 r2\n\
             0 same r3 r4\n\
             0 same r0 r3\n\
             0 same r3 r0\n",
            "4 done\n\
             5 done\n\
             6 done\n\
             7 yes\n\
             8 no\n\
             9 yes\n\
             10 no\n\
             11 no\n",
        ),
        Row::plays(
            "a copy stays when its source is cleared, and an empty register is copied",
            "moar-gc 1\n\
             mutators 1\n\
             type box 0 1\n\
             0 new r0 box\n\
             0 set r0 0 4\n\
             0 copy r15 r0\n\
             0 clear r0\n\
             0 ask r15 0\n\
             0 ask r0 0\n\
             0 copy r15 r0\n\
             0 ask r15 0\n\
             0 same r0 r15\n",
            "4 done\n\
             5 done\n\
             6 done\n\
             7 done\n\
             8 4\n\
             9 nil base\n\
             10 done\n\
             11 nil base\n\
             12 yes\n",
        ),
    ] {
        row.check_small_too(&rt)?;
    }
    Ok(())
}

#[test]
fn the_common_object_is_shared(rt: HostRuntime) -> Result<(), Fail> {
    for row in [
        Row::plays(
            "nothing to await at the last place",
            "moar-gc 1\n\
             mutators 1\n\
             0 await r0 15\n",
            "3 nil\n",
        ),
        Row::plays(
            "what one mutator shares another takes, until the place is emptied",
            "moar-gc 1\n\
             mutators 2\n\
             type box 0 1\n\
             0 new r0 box\n\
             0 set r0 0 7\n\
             1 take r2 3\n\
             0 share 3 r0\n\
             1 take r2 3\n\
             1 ask r2 0\n\
             1 set r2 0 8\n\
             0 ask r0 0\n\
             0 share 3 r1\n\
             1 take r2 3\n\
             1 ask r2 0\n",
            "4 done\n\
             5 done\n\
             6 nil\n\
             7 done\n\
             8 done\n\
             9 7\n\
             10 done\n\
             11 8\n\
             12 done\n\
             13 nil\n\
             14 8\n",
        ),
        Row::plays(
            "each place is one of its own, and an await loads what is there",
            "moar-gc 1\n\
             mutators 2\n\
             type box 0 1\n\
             0 new r0 box\n\
             0 share 15 r0\n\
             1 await r0 14\n\
             1 await r0 15\n\
             1 set r0 0 3\n\
             0 ask r0 0\n\
             0 take r1 0\n",
            "4 done\n\
             5 done\n\
             6 nil\n\
             7 done\n\
             8 done\n\
             9 3\n\
             10 nil\n",
        ),
        Row::plays(
            "another mutator shares over a place",
            "moar-gc 1\n\
             mutators 2\n\
             type box 0 1\n\
             0 new r0 box\n\
             1 new r0 box\n\
             1 set r0 0 3\n\
             0 share 0 r0\n\
             1 share 0 r0\n\
             0 take r1 0\n\
             0 ask r1 0\n\
             0 same r0 r1\n",
            "4 done\n\
             5 done\n\
             6 done\n\
             7 done\n\
             8 done\n\
             9 done\n\
             10 3\n\
             11 no\n",
        ),
    ] {
        row.check_small_too(&rt)?;
    }
    Ok(())
}

#[test]
fn a_blocked_mutator_is_refused(rt: HostRuntime) -> Result<(), Fail> {
    for row in [
        Row::plays(
            "a block, and unblocks",
            "moar-gc 1\n\
             mutators 1\n\
             0 block\n\
             0 clear r0\n\
             0 block\n\
             0 unblock\n\
             0 unblock\n",
            "3 done\n\
             4 blocked\n\
             5 blocked\n\
             6 done\n\
             7 not blocked\n",
        ),
        Row::plays(
            "a block stands against its own mutator alone",
            "moar-gc 1\n\
             mutators 2\n\
             0 block\n\
             1 clear r0\n\
             1 unblock\n\
             0 safepoint\n\
             1 safepoint\n\
             0 unblock\n\
             0 safepoint\n",
            "3 done\n\
             4 done\n\
             5 not blocked\n\
             6 blocked\n\
             7 done\n\
             8 done\n\
             9 done\n",
        ),
        Row::plays(
            "what a blocked mutator asked for isn't done, and being blocked is looked at first",
            "moar-gc 1\n\
             mutators 1\n\
             type box 0 1\n\
             0 new r0 box\n\
             0 block\n\
             0 set r0 0 5\n\
             0 ask r0 9\n\
             0 ask r1 0\n\
             0 clear r0\n\
             0 share 0 r0\n\
             0 new r0 box\n\
             0 unblock\n\
             0 ask r0 0\n\
             0 take r0 0\n",
            "4 done\n\
             5 done\n\
             6 blocked\n\
             7 blocked\n\
             8 blocked\n\
             9 blocked\n\
             10 blocked\n\
             11 blocked\n\
             12 done\n\
             13 0\n\
             14 nil\n",
        ),
    ] {
        row.check_small_too(&rt)?;
    }
    Ok(())
}

#[test]
fn mutators_have_registers_of_their_own(rt: HostRuntime) -> Result<(), Fail> {
    for row in [
        Row::plays(
            "two mutators and no line",
            "moar-gc 1\n\
             mutators 2\n",
            "",
        ),
        Row::plays(
            "one register of two mutators",
            "moar-gc 1\n\
             mutators 2\n\
             type box 0 1\n\
             0 new r0 box\n\
             1 ask r0 0\n\
             1 new r0 box\n\
             0 set r0 0 1\n\
             1 set r0 0 2\n\
             0 ask r0 0\n\
             1 ask r0 0\n\
             1 clear r0\n\
             0 ask r0 0\n",
            "4 done\n\
             5 nil base\n\
             6 done\n\
             7 done\n\
             8 done\n\
             9 1\n\
             10 2\n\
             11 done\n\
             12 1\n",
        ),
        Row::plays(
            "objects of two mutators name one another",
            "moar-gc 1\n\
             mutators 2\n\
             type node 1 1\n\
             0 new r0 node\n\
             1 new r1 node\n\
             1 set r1 0 6\n\
             0 share 0 r0\n\
             1 take r0 0\n\
             1 put r0 0 r1\n\
             1 put r1 0 r0\n\
             0 get r1 r0 0\n\
             0 ask r1 0\n\
             0 get r2 r1 0\n\
             0 same r0 r2\n",
            "4 done\n\
             5 done\n\
             6 done\n\
             7 done\n\
             8 done\n\
             9 done\n\
             10 done\n\
             11 done\n\
             12 6\n\
             13 done\n\
             14 yes\n",
        ),
        Row::plays(
            "eight mutators",
            "moar-gc 1\n\
             mutators 8\n\
             type box 0 1\n\
             7 new r15 box\n\
             7 set r15 0 5\n\
             7 share 15 r15\n\
             0 take r0 15\n\
             0 swap r0 0 5 9\n\
             3 await r3 15\n\
             3 ask r3 0\n\
             6 take r0 14\n\
             7 ask r15 0\n",
            "4 done\n\
             5 done\n\
             6 done\n\
             7 done\n\
             8 yes\n\
             9 done\n\
             10 9\n\
             11 nil\n\
             12 9\n",
        ),
    ] {
        row.check_small_too(&rt)?;
    }
    Ok(())
}
