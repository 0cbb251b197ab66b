//! Objects that are kept because others name them: slots, other mutators, the common object, and old objects. All values are
//! worked out by hand, as in the other scripts that bring collections.

use crate::row::{ONE_PAGE, Row, TWO_PAGES};
use std::process::Abort;
use std::sync::Wait;
use std::test::Fail;
use std::thread::Threads;

/// An object of 62 slots, which names itself and two boxes.
const SLOTS: &str = "moar-gc 1\n\
     mutators 1\n\
     type slots 62 0\n\
     type box 0 1\n\
     type big 0 56\n\
     0 new r0 slots\n\
     0 new r1 box\n\
     0 new r2 box\n\
     0 set r1 0 5\n\
     0 set r2 0 6\n\
     0 put r0 0 r1\n\
     0 put r0 1 r2\n\
     0 put r0 60 r0\n\
     0 put r0 61 r1\n\
     0 clear r1\n\
     0 clear r2\n\
     0 new r3 big\n\
     0 clear r3\n\
     0 new r3 big\n\
     0 get r1 r0 0\n\
     0 ask r1 0\n\
     0 get r2 r0 1\n\
     0 ask r2 0\n\
     0 get r4 r0 61\n\
     0 same r1 r4\n\
     0 get r4 r0 60\n\
     0 same r0 r4\n\
     0 get r5 r0 2\n\
     0 clear r3\n\
     0 new r3 big\n\
     0 get r6 r0 1\n\
     0 same r6 r2\n\
     0 get r6 r0 0\n\
     0 same r6 r1\n\
     0 ask r6 0\n\
     0 get r6 r0 62\n\
     0 clear r1\n\
     0 clear r2\n\
     0 clear r6\n\
     0 clear r3\n\
     0 new r3 big\n\
     0 clear r3\n\
     0 new r3 big\n\
     0 get r1 r0 0\n\
     0 ask r1 0\n\
     0 get r2 r0 1\n\
     0 ask r2 0\n\
     0 same r1 r2\n";

/// What it prints before the reports.
const SLOTS_REPLIES: &str = "6 done\n\
     7 done\n\
     8 done\n\
     9 done\n\
     10 done\n\
     11 done\n\
     12 done\n\
     13 done\n\
     14 done\n\
     15 done\n\
     16 done\n\
     17 done\n\
     18 done\n\
     19 done\n\
     20 done\n\
     21 5\n\
     22 done\n\
     23 6\n\
     24 done\n\
     25 yes\n\
     26 done\n\
     27 yes\n\
     28 nil\n\
     29 done\n\
     30 done\n\
     31 done\n\
     32 yes\n\
     33 done\n\
     34 yes\n\
     35 5\n\
     36 range\n\
     37 done\n\
     38 done\n\
     39 done\n\
     40 done\n\
     41 done\n\
     42 done\n\
     43 done\n\
     44 done\n\
     45 5\n\
     46 done\n\
     47 6\n\
     48 no\n";

/// Plays the script of the object of 62 slots with so many pages.
fn check_slots<R: Abort + AllocGlobal + Threads + Wait + Sync>(
    rt: &R,
    pages: &str,
    reports: &str,
) -> Result<(), Fail> {
    let output = format!(in rt.alloc(); "{SLOTS_REPLIES}{reports}")?;
    Row::plays("62 slots", SLOTS, output.as_str())
        .with_words(&["play", "--nursery", "128", "--pages", pages, "--reports"])
        .check(rt)
}

/// The object of 62 slots has 64 words, the boxes have 3 and the big object 58, together 128. With one page each other big
/// object brings a collection, and none is due. With two pages the second collection promotes the object of 62 slots,
/// which gets the page and is remembered, and the boxes stay in the half; so the half has room for a big object more, and
/// the third collection comes with the next one. It is due, and finds 4 objects of 18 + 64 + 3 + 3 words.
#[test]
fn the_slots_of_the_widest_object_survive(rt: HostRuntime) -> Result<(), Fail> {
    check_slots(
        &rt,
        "1",
        "run 1 minor\nrun 2 minor\nrun 3 minor\nrun 4 minor\n",
    )?;
    check_slots(
        &rt,
        "2",
        "run 1 minor\nrun 2 minor\nrun 3 full objects 4 words 88\n",
    )
}

#[test]
fn what_mutators_share_survives(rt: HostRuntime) -> Result<(), Fail> {
    for row in [
        // A cycle over nodes of three mutators, which one register names. The second collection promotes the nodes of
        // mutators 1 and 2, and that of mutator 0 stays in its half, where the one of mutator 2 names it. Two pages of
        // three were given, so the third one is full: 4 objects of 18 + 4 + 4 + 4 words.
        Row::plays(
            "a cycle over three mutators",
            "moar-gc 1\n\
             mutators 3\n\
             type node 1 1\n\
             type big 0 54\n\
             0 new r0 node\n\
             1 new r0 node\n\
             2 new r0 node\n\
             0 set r0 0 10\n\
             1 set r0 0 11\n\
             2 set r0 0 12\n\
             1 share 1 r0\n\
             0 take r1 1\n\
             0 put r0 0 r1\n\
             2 share 2 r0\n\
             1 take r1 2\n\
             1 put r0 0 r1\n\
             0 share 0 r0\n\
             2 take r1 0\n\
             2 put r0 0 r1\n\
             1 share 1 r9\n\
             2 share 2 r9\n\
             0 share 0 r9\n\
             0 clear r1\n\
             1 clear r0\n\
             1 clear r1\n\
             2 clear r0\n\
             2 clear r1\n\
             2 new r5 big\n\
             2 clear r5\n\
             2 new r5 big\n\
             2 clear r5\n\
             2 new r5 big\n\
             2 clear r5\n\
             2 new r5 big\n\
             0 ask r0 0\n\
             0 get r2 r0 0\n\
             0 ask r2 0\n\
             0 get r3 r2 0\n\
             0 ask r3 0\n\
             0 get r4 r3 0\n\
             0 same r4 r0\n",
            "5 done\n\
             6 done\n\
             7 done\n\
             8 done\n\
             9 done\n\
             10 done\n\
             11 done\n\
             12 done\n\
             13 done\n\
             14 done\n\
             15 done\n\
             16 done\n\
             17 done\n\
             18 done\n\
             19 done\n\
             20 done\n\
             21 done\n\
             22 done\n\
             23 done\n\
             24 done\n\
             25 done\n\
             26 done\n\
             27 done\n\
             28 done\n\
             29 done\n\
             30 done\n\
             31 done\n\
             32 done\n\
             33 done\n\
             34 done\n\
             35 10\n\
             36 done\n\
             37 11\n\
             38 done\n\
             39 12\n\
             40 done\n\
             41 yes\n\
             run 1 minor\n\
             run 2 minor\n\
             run 3 full objects 4 words 30\n",
        ),
        // The box of 3 words and the big object of 61 fill the half. Behind the third collection the box is gone, so
        // that another one fits, and not two: the full collection finds 3 objects of 18 + 3 + 61 words.
        Row::plays(
            "what the common object names, and no longer names",
            "moar-gc 1\n\
             mutators 1\n\
             type box 0 1\n\
             type big 0 59\n\
             0 new r0 box\n\
             0 set r0 0 7\n\
             0 share 3 r0\n\
             0 clear r0\n\
             0 new r1 big\n\
             0 clear r1\n\
             0 new r1 big\n\
             0 take r2 3\n\
             0 ask r2 0\n\
             0 clear r2\n\
             0 clear r1\n\
             0 new r1 big\n\
             0 take r2 3\n\
             0 ask r2 0\n\
             0 clear r2\n\
             0 share 3 r9\n\
             0 clear r1\n\
             0 new r1 big\n\
             0 new r2 box\n\
             0 new r3 box\n\
             0 set r2 0 8\n\
             0 share 3 r2\n\
             0 clear r2\n\
             0 clear r1\n\
             0 new r1 big\n\
             0 take r2 3\n\
             0 ask r2 0\n\
             0 take r3 4\n",
            "5 done\n\
             6 done\n\
             7 done\n\
             8 done\n\
             9 done\n\
             10 done\n\
             11 done\n\
             12 done\n\
             13 7\n\
             14 done\n\
             15 done\n\
             16 done\n\
             17 done\n\
             18 7\n\
             19 done\n\
             20 done\n\
             21 done\n\
             22 done\n\
             23 done\n\
             24 full\n\
             25 done\n\
             26 done\n\
             27 done\n\
             28 done\n\
             29 done\n\
             30 done\n\
             31 8\n\
             32 nil\n\
             run 1 minor\n\
             run 2 minor\n\
             run 3 minor\n\
             run 4 minor\n\
             run 5 full objects 3 words 82\n\
             run 6 minor\n",
        ),
        // The box of 3 words and the big object of 61 fill each half. The second collection promotes the box, and the
        // big object of mutator 1 stays for want of a cell. The call that is refused brings no collection.
        Row::plays(
            "what a blocked mutator names",
            "moar-gc 1\n\
             mutators 2\n\
             type box 0 1\n\
             type big 0 59\n\
             1 new r0 box\n\
             1 set r0 0 7\n\
             1 new r1 big\n\
             1 block\n\
             1 new r2 big\n\
             0 new r0 big\n\
             0 clear r0\n\
             0 new r0 big\n\
             0 clear r0\n\
             0 new r0 big\n\
             1 ask r0 0\n\
             1 unblock\n\
             1 ask r0 0\n\
             1 ask r1 58\n\
             1 new r2 box\n",
            "5 done\n\
             6 done\n\
             7 done\n\
             8 done\n\
             9 blocked\n\
             10 done\n\
             11 done\n\
             12 done\n\
             13 done\n\
             14 done\n\
             15 blocked\n\
             16 done\n\
             17 7\n\
             18 0\n\
             19 done\n\
             run 1 minor\n\
             run 2 minor\n",
        ),
        // The box of 3 words stays in the half of its maker as long as the other mutator names it: the full collection finds
        // 3 objects of 18 + 3 + 61 words.
        Row::plays(
            "what another mutator names alone",
            "moar-gc 1\n\
             mutators 2\n\
             type box 0 1\n\
             type big 0 59\n\
             0 new r0 box\n\
             0 set r0 0 7\n\
             0 share 0 r0\n\
             1 take r3 0\n\
             0 share 0 r9\n\
             0 clear r0\n\
             0 new r1 big\n\
             0 clear r1\n\
             0 new r1 big\n\
             1 ask r3 0\n\
             0 new r2 box\n\
             1 clear r3\n\
             0 new r2 box\n\
             0 ask r2 0\n",
            "5 done\n\
             6 done\n\
             7 done\n\
             8 done\n\
             9 done\n\
             10 done\n\
             11 done\n\
             12 done\n\
             13 done\n\
             14 7\n\
             15 full\n\
             16 done\n\
             17 done\n\
             18 0\n\
             run 1 minor\n\
             run 2 minor\n\
             run 3 full objects 3 words 82\n\
             run 4 minor\n",
        ),
    ] {
        row.with_words(ONE_PAGE).check(&rt)?;
    }
    Ok(())
}

/// A node of 4 words and a big object of 60 fill the half. The second collection promotes the first node, to a page that
/// is given then; so the third one is full.
#[test]
fn old_objects_keep_young_ones(rt: HostRuntime) -> Result<(), Fail> {
    for row in [
        // The full collection finds 3 objects of 18 + 4 + 4 words. The second node is promoted by the fourth collection,
        // beside the first one, so none is due. It keeps the third node, until that is dropped. Then the half has room for
        // one node behind the big object, and the next one brings a minor collection and a full one: 5 objects of
        // 18 + 4 + 4 + 4 + 60 words, of which the node in the half is promoted.
        Row::plays(
            "an old object comes to name a young one, and that another one",
            "moar-gc 1\n\
             mutators 1\n\
             type node 1 1\n\
             type big 0 58\n\
             0 new r0 node\n\
             0 new r9 big\n\
             0 clear r9\n\
             0 new r9 big\n\
             0 clear r9\n\
             0 new r9 big\n\
             0 new r1 node\n\
             0 set r1 0 7\n\
             0 put r0 0 r1\n\
             0 clear r1\n\
             0 clear r9\n\
             0 new r9 big\n\
             0 get r1 r0 0\n\
             0 ask r1 0\n\
             0 clear r1\n\
             0 clear r9\n\
             0 new r9 big\n\
             0 get r1 r0 0\n\
             0 ask r1 0\n\
             0 new r2 node\n\
             0 set r2 0 8\n\
             0 put r1 0 r2\n\
             0 clear r1\n\
             0 clear r2\n\
             0 clear r9\n\
             0 new r9 big\n\
             0 get r1 r0 0\n\
             0 get r2 r1 0\n\
             0 ask r2 0\n\
             0 clear r2\n\
             0 put r1 0 r8\n\
             0 clear r9\n\
             0 new r9 big\n\
             0 new r2 node\n\
             0 new r3 node\n\
             0 get r4 r1 0\n",
            "5 done\n\
             6 done\n\
             7 done\n\
             8 done\n\
             9 done\n\
             10 done\n\
             11 done\n\
             12 done\n\
             13 done\n\
             14 done\n\
             15 done\n\
             16 done\n\
             17 done\n\
             18 7\n\
             19 done\n\
             20 done\n\
             21 done\n\
             22 done\n\
             23 7\n\
             24 done\n\
             25 done\n\
             26 done\n\
             27 done\n\
             28 done\n\
             29 done\n\
             30 done\n\
             31 done\n\
             32 done\n\
             33 8\n\
             34 done\n\
             35 done\n\
             36 done\n\
             37 done\n\
             38 done\n\
             39 done\n\
             40 nil\n\
             run 1 minor\n\
             run 2 minor\n\
             run 3 full objects 3 words 26\n\
             run 4 minor\n\
             run 5 minor\n\
             run 6 minor\n\
             run 7 minor\n\
             run 8 full objects 5 words 90\n",
        ),
        // Mutator 1 lets the old node of mutator 0 name a young one of its own. The third collection finds 3 objects of
        // 18 + 4 + 4 words, and the fourth one promotes the young one, to a page of four that is given then. That one comes
        // to name a young one of each mutator, one after the other; so the fifth one is full, and finds 4 objects of
        // 18 + 4 + 4 + 4 words.
        Row::plays(
            "old and young objects of two mutators",
            "moar-gc 1\n\
             mutators 2\n\
             type node 1 1\n\
             type big 0 58\n\
             0 new r0 node\n\
             0 set r0 0 5\n\
             0 new r9 big\n\
             0 clear r9\n\
             0 new r9 big\n\
             0 clear r9\n\
             0 new r9 big\n\
             0 share 0 r0\n\
             1 take r0 0\n\
             1 new r1 node\n\
             1 set r1 0 6\n\
             1 put r0 0 r1\n\
             1 clear r1\n\
             1 clear r0\n\
             0 clear r9\n\
             0 new r9 big\n\
             0 get r1 r0 0\n\
             0 ask r1 0\n\
             0 clear r1\n\
             0 clear r9\n\
             0 new r9 big\n\
             0 get r1 r0 0\n\
             0 ask r1 0\n\
             0 get r2 r1 0\n\
             1 take r5 0\n\
             1 ask r5 0\n\
             1 get r5 r5 0\n\
             1 ask r5 0\n\
             1 new r6 node\n\
             1 set r6 0 9\n\
             1 put r5 0 r6\n\
             0 new r3 node\n\
             0 set r3 0 4\n\
             0 put r1 0 r3\n\
             1 clear r6\n\
             0 clear r3\n\
             0 clear r9\n\
             0 new r9 big\n\
             1 get r7 r5 0\n\
             1 ask r7 0\n",
            "5 done\n\
             6 done\n\
             7 done\n\
             8 done\n\
             9 done\n\
             10 done\n\
             11 done\n\
             12 done\n\
             13 done\n\
             14 done\n\
             15 done\n\
             16 done\n\
             17 done\n\
             18 done\n\
             19 done\n\
             20 done\n\
             21 done\n\
             22 6\n\
             23 done\n\
             24 done\n\
             25 done\n\
             26 done\n\
             27 6\n\
             28 nil\n\
             29 done\n\
             30 5\n\
             31 done\n\
             32 6\n\
             33 done\n\
             34 done\n\
             35 done\n\
             36 done\n\
             37 done\n\
             38 done\n\
             39 done\n\
             40 done\n\
             41 done\n\
             42 done\n\
             43 done\n\
             44 4\n\
             run 1 minor\n\
             run 2 minor\n\
             run 3 full objects 3 words 26\n\
             run 4 minor\n\
             run 5 full objects 4 words 30\n",
        ),
    ] {
        row.with_words(TWO_PAGES).check(&rt)?;
    }
    Ok(())
}
