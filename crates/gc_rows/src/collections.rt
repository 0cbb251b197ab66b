//! Scripts that bring collections, and what is printed, with the reports behind. All values are worked out by hand.
//!
//! A half has 64 words where nothing else is said. A big object fills it behind the others; where it is dropped, and
//! another one is made, that one brings a collection. With one page mutator 0 has no cells but those of the common
//! object's class, so its objects stay in its half; with two, the first class that is asked for gets the other page. Then
//! a page of two was given, so at the end of a minor collection a full one is due.
//!
//! What a full collection reports has the common object in it: one object, of 18 words.

use crate::row::{ONE_PAGE, Row, THREE_PAGES, TWO_PAGES};
use std::alloc::{AllocError, Global};
use std::fmt::Write;
use std::test::Fail;

#[test]
fn dropped_objects_make_room(rt: HostRuntime) -> Result<(), Fail> {
    for row in [
        // The last object needs all of the half.
        Row::plays(
            "a dropped cycle",
            "moar-gc 1\n\
             mutators 1\n\
             type pair 2 0\n\
             type whole 0 62\n\
             0 new r0 pair\n\
             0 new r1 pair\n\
             0 put r0 0 r1\n\
             0 put r1 0 r0\n\
             0 clear r0\n\
             0 clear r1\n\
             0 new r2 whole\n",
            "5 done\n\
             6 done\n\
             7 done\n\
             8 done\n\
             9 done\n\
             10 done\n\
             11 done\n\
             run 1 minor\n",
        ),
        // Both pairs are needed, so neither collection leaves 64 words in the half: 3 objects of 18 + 4 + 4 words.
        Row::plays(
            "a cycle of which one is named",
            "moar-gc 1\n\
             mutators 1\n\
             type pair 2 0\n\
             type whole 0 62\n\
             0 new r0 pair\n\
             0 new r1 pair\n\
             0 put r0 0 r1\n\
             0 put r1 0 r0\n\
             0 clear r1\n\
             0 new r2 whole\n",
            "5 done\n\
             6 done\n\
             7 done\n\
             8 done\n\
             9 done\n\
             10 full\n\
             run 1 minor\n\
             run 2 full objects 3 words 26\n",
        ),
        // The register names the old object until the new one is made: 2 objects of 18 + 64 words. Once it is cleared, a
        // minor collection is enough, for none was due.
        Row::plays(
            "an object in the place of another",
            "moar-gc 1\n\
             mutators 1\n\
             type whole 0 62\n\
             0 new r0 whole\n\
             0 set r0 61 4\n\
             0 new r0 whole\n\
             0 ask r0 61\n\
             0 clear r0\n\
             0 new r0 whole\n\
             0 ask r0 61\n",
            "4 done\n\
             5 done\n\
             6 full\n\
             7 4\n\
             8 done\n\
             9 done\n\
             10 0\n\
             run 1 minor\n\
             run 2 full objects 2 words 82\n\
             run 3 minor\n",
        ),
        // The third object lies where the first one lay.
        Row::plays(
            "words of another object",
            "moar-gc 1\n\
             mutators 1\n\
             type whole 31 31\n\
             0 new r0 whole\n\
             0 set r0 30 9\n\
             0 put r0 0 r0\n\
             0 clear r0\n\
             0 new r0 whole\n\
             0 clear r0\n\
             0 new r0 whole\n\
             0 ask r0 30\n\
             0 get r1 r0 0\n",
            "4 done\n\
             5 done\n\
             6 done\n\
             7 done\n\
             8 done\n\
             9 done\n\
             10 done\n\
             11 0\n\
             12 nil\n\
             run 1 minor\n\
             run 2 minor\n",
        ),
    ] {
        row.with_words(ONE_PAGE).check(&rt)?;
    }
    Ok(())
}

/// With two pages the small objects are promoted by the second collection.
#[test]
fn objects_survive_in_halves_and_in_pages(rt: HostRuntime) -> Result<(), Fail> {
    for row in [
        // The pairs of 5 words and the big object of 54 fill the half.
        Row::plays(
            "a cycle survives two collections",
            "moar-gc 1\n\
             mutators 1\n\
             type pair 2 1\n\
             type big 0 52\n\
             0 new r0 pair\n\
             0 new r1 pair\n\
             0 put r0 0 r1\n\
             0 put r1 1 r0\n\
             0 set r0 0 11\n\
             0 set r1 0 22\n\
             0 clear r1\n\
             0 new r2 big\n\
             0 clear r2\n\
             0 new r2 big\n\
             0 clear r2\n\
             0 new r2 big\n\
             0 get r1 r0 0\n\
             0 ask r1 0\n\
             0 get r3 r1 1\n\
             0 same r0 r3\n\
             0 get r4 r1 0\n\
             0 ask r3 0\n",
            "5 done\n\
             6 done\n\
             7 done\n\
             8 done\n\
             9 done\n\
             10 done\n\
             11 done\n\
             12 done\n\
             13 done\n\
             14 done\n\
             15 done\n\
             16 done\n\
             17 done\n\
             18 22\n\
             19 done\n\
             20 yes\n\
             21 nil\n\
             22 11\n\
             run 1 minor\n\
             run 2 minor\n",
        ),
        // The pairs of 4 words and the big object of 56 fill the half.
        Row::plays(
            "two registers and a slot that name one object, and another object",
            "moar-gc 1\n\
             mutators 1\n\
             type pair 2 0\n\
             type big 0 54\n\
             0 new r0 pair\n\
             0 copy r1 r0\n\
             0 new r2 pair\n\
             0 put r2 1 r0\n\
             0 new r3 big\n\
             0 clear r3\n\
             0 new r3 big\n\
             0 same r0 r1\n\
             0 same r0 r2\n\
             0 clear r3\n\
             0 new r3 big\n\
             0 same r0 r1\n\
             0 same r0 r2\n\
             0 get r4 r2 1\n\
             0 same r4 r1\n\
             0 put r0 0 r2\n\
             0 get r5 r1 0\n\
             0 same r5 r2\n",
            "5 done\n\
             6 done\n\
             7 done\n\
             8 done\n\
             9 done\n\
             10 done\n\
             11 done\n\
             12 yes\n\
             13 no\n\
             14 done\n\
             15 done\n\
             16 yes\n\
             17 no\n\
             18 done\n\
             19 yes\n\
             20 done\n\
             21 done\n\
             22 yes\n\
             run 1 minor\n\
             run 2 minor\n",
        ),
        // The objects of 2 words and the big one of 60 fill the half.
        Row::plays(
            "objects without slots and numbers",
            "moar-gc 1\n\
             mutators 1\n\
             type least 0 0\n\
             type big 0 58\n\
             0 new r0 least\n\
             0 new r1 least\n\
             0 new r2 big\n\
             0 clear r2\n\
             0 new r2 big\n\
             0 same r0 r1\n\
             0 ask r0 0\n\
             0 get r3 r1 0\n\
             0 clear r2\n\
             0 new r2 big\n\
             0 same r0 r1\n\
             0 ask r1 0\n\
             0 ask r2 57\n",
            "5 done\n\
             6 done\n\
             7 done\n\
             8 done\n\
             9 done\n\
             10 no\n\
             11 range\n\
             12 range\n\
             13 done\n\
             14 done\n\
             15 no\n\
             16 range\n\
             17 0\n\
             run 1 minor\n\
             run 2 minor\n",
        ),
    ] {
        row.with_words(ONE_PAGE).check(&rt)?;
        row.with_words(TWO_PAGES).check(&rt)?;
    }
    Ok(())
}

/// A row of an object of 64 words that survives, with what comes of the two objects of 2 words that are made beside it.
fn widest<'a>(name: &'a str, output: &'a str) -> Row<'a> {
    Row::plays(
        name,
        "moar-gc 1\n\
         mutators 1\n\
         type whole 31 31\n\
         type least 0 0\n\
         0 new r0 whole\n\
         0 set r0 0 1\n\
         0 set r0 30 2\n\
         0 put r0 0 r0\n\
         0 put r0 30 r0\n\
         0 new r1 least\n\
         0 ask r0 0\n\
         0 ask r0 30\n\
         0 get r1 r0 0\n\
         0 same r0 r1\n\
         0 get r1 r0 30\n\
         0 same r0 r1\n\
         0 get r2 r0 15\n\
         0 ask r0 15\n\
         0 clear r1\n\
         0 new r2 least\n\
         0 ask r0 0\n\
         0 ask r0 30\n\
         0 get r3 r0 30\n\
         0 same r0 r3\n",
        output,
    )
}

#[test]
fn the_widest_objects_survive(rt: HostRuntime) -> Result<(), Fail> {
    // Each least object brings a minor collection and a full one, of 18 + 64 words, and has no place behind them.
    widest(
        "an object that fills its half",
        "5 done\n\
         6 done\n\
         7 done\n\
         8 done\n\
         9 done\n\
         10 full\n\
         11 1\n\
         12 2\n\
         13 done\n\
         14 yes\n\
         15 done\n\
         16 yes\n\
         17 nil\n\
         18 0\n\
         19 done\n\
         20 full\n\
         21 1\n\
         22 2\n\
         23 done\n\
         24 yes\n\
         run 1 minor\n\
         run 2 full objects 2 words 82\n\
         run 3 minor\n\
         run 4 full objects 2 words 82\n",
    )
    .with_words(ONE_PAGE)
    .check(&rt)?;

    // The first least object brings a minor collection, and then a full one: that promotes the wide object, which leaves
    // the half. So both least objects have room there.
    let row = widest(
        "an object that fills its half beside others in a page",
        "5 done\n\
         6 done\n\
         7 done\n\
         8 done\n\
         9 done\n\
         10 done\n\
         11 1\n\
         12 2\n\
         13 done\n\
         14 yes\n\
         15 done\n\
         16 yes\n\
         17 nil\n\
         18 0\n\
         19 done\n\
         20 done\n\
         21 1\n\
         22 2\n\
         23 done\n\
         24 yes\n\
         run 1 minor\n\
         run 2 full objects 2 words 82\n",
    );
    row.with_words(TWO_PAGES).check(&rt)?;
    row.with_words(THREE_PAGES).check(&rt)
}

/// A row of a box of 3 words that survives with big objects of 61 words, with what comes behind line 15.
fn kept_box<'a>(name: &'a str, output: &'a str) -> Row<'a> {
    Row::plays(
        name,
        "moar-gc 1\n\
         mutators 1\n\
         type box 0 1\n\
         type big 0 59\n\
         type least 0 0\n\
         0 new r0 box\n\
         0 set r0 0 7\n\
         0 new r1 big\n\
         0 clear r1\n\
         0 new r1 big\n\
         0 clear r1\n\
         0 new r1 big\n\
         0 clear r1\n\
         0 new r1 big\n\
         0 ask r0 0\n\
         0 new r2 least\n\
         0 ask r0 0\n",
        output,
    )
}

#[test]
fn what_survives_twice_leaves_the_half_where_a_cell_is_there(rt: HostRuntime) -> Result<(), Fail> {
    // The box is still in the half, so the least object of 2 words has no room behind the big one, nor behind the full
    // collection, which finds 3 objects of 18 + 3 + 61 words.
    kept_box(
        "no cell",
        "6 done\n\
         7 done\n\
         8 done\n\
         9 done\n\
         10 done\n\
         11 done\n\
         12 done\n\
         13 done\n\
         14 done\n\
         15 7\n\
         16 full\n\
         17 7\n\
         run 1 minor\n\
         run 2 minor\n\
         run 3 minor\n\
         run 4 minor\n\
         run 5 full objects 3 words 82\n",
    )
    .with_words(ONE_PAGE)
    .check(&rt)?;

    // The second collection promotes the box, which gets the second page. So a full one is due for the fourth big object,
    // and finds the box and the common object, 18 + 3 words. The least object has room behind the big one.
    kept_box(
        "a cell",
        "6 done\n\
         7 done\n\
         8 done\n\
         9 done\n\
         10 done\n\
         11 done\n\
         12 done\n\
         13 done\n\
         14 done\n\
         15 7\n\
         16 done\n\
         17 7\n\
         run 1 minor\n\
         run 2 minor\n\
         run 3 full objects 2 words 21\n",
    )
    .with_words(TWO_PAGES)
    .check(&rt)
}

/// A mate has 20 words, as the common object's cells. The second collection promotes the first one to the common
/// object's page. The least object of line 18 brings a minor collection, which leaves the big object of 44 words and the
/// second mate in the half; and then a full one, of 18 + 20 + 20 + 44 words, which promotes that mate. The big object of
/// line 23 brings the fifth collection, and fits behind the least object of 2 words. These two leave 18 words, and the
/// third mate needs 20: so it brings a minor collection and a full one, of 18 + 20 + 20 + 2 + 44 words, and then it gets
/// a cell beside the other mates.
#[test]
fn the_common_objects_page_takes_objects_of_its_class(rt: HostRuntime) -> Result<(), Fail> {
    Row::plays(
        "mates of the common object",
        "moar-gc 1\n\
         mutators 1\n\
         type mate 1 17\n\
         type big 0 42\n\
         type least 0 0\n\
         0 new r0 mate\n\
         0 set r0 16 7\n\
         0 put r0 0 r0\n\
         0 new r1 big\n\
         0 clear r1\n\
         0 new r1 big\n\
         0 clear r1\n\
         0 new r1 big\n\
         0 new r2 mate\n\
         0 put r0 0 r2\n\
         0 set r2 16 8\n\
         0 clear r2\n\
         0 new r3 least\n\
         0 get r2 r0 0\n\
         0 ask r2 16\n\
         0 ask r0 16\n\
         0 clear r1\n\
         0 new r1 big\n\
         0 ask r2 16\n\
         0 new r4 mate\n\
         0 take r5 0\n",
        "6 done\n\
         7 done\n\
         8 done\n\
         9 done\n\
         10 done\n\
         11 done\n\
         12 done\n\
         13 done\n\
         14 done\n\
         15 done\n\
         16 done\n\
         17 done\n\
         18 done\n\
         19 done\n\
         20 8\n\
         21 7\n\
         22 done\n\
         23 done\n\
         24 8\n\
         25 done\n\
         26 nil\n\
         run 1 minor\n\
         run 2 minor\n\
         run 3 minor\n\
         run 4 full objects 4 words 102\n\
         run 5 minor\n\
         run 6 minor\n\
         run 7 full objects 5 words 104\n",
    )
    .with_words(ONE_PAGE)
    .check(&rt)
}

#[test]
fn collections_are_tried_before_a_cell_and_before_full(rt: HostRuntime) -> Result<(), Fail> {
    for row in [
        // 16 pairs of 4 words fill the half, and each is named: 17 objects of 18 + 64 words. A new one has room where one of
        // them was dropped.
        Row::plays(
            "a half of objects that are needed",
            "moar-gc 1\n\
             mutators 1\n\
             type pair 2 0\n\
             0 new r0 pair\n0 new r1 pair\n0 new r2 pair\n0 new r3 pair\n\
             0 new r4 pair\n0 new r5 pair\n0 new r6 pair\n0 new r7 pair\n\
             0 new r8 pair\n0 new r9 pair\n0 new r10 pair\n0 new r11 pair\n\
             0 new r12 pair\n0 new r13 pair\n0 new r14 pair\n0 new r15 pair\n\
             0 new r0 pair\n\
             0 new r15 pair\n\
             0 same r0 r15\n\
             0 clear r3\n\
             0 new r3 pair\n\
             0 new r3 pair\n\
             0 get r0 r3 0\n",
            "4 done\n5 done\n6 done\n7 done\n\
             8 done\n9 done\n10 done\n11 done\n\
             12 done\n13 done\n14 done\n15 done\n\
             16 done\n17 done\n18 done\n19 done\n\
             20 full\n\
             21 full\n\
             22 no\n\
             23 done\n\
             24 done\n\
             25 full\n\
             26 nil\n\
             run 1 minor\n\
             run 2 full objects 17 words 82\n\
             run 3 minor\n\
             run 4 full objects 17 words 82\n\
             run 5 minor\n\
             run 6 minor\n\
             run 7 full objects 17 words 82\n",
        ),
        // The pair of line 20 brings a minor collection, which leaves the 16 pairs in the half, and then a full one, which
        // promotes them; so the half has room for the 16 pairs of lines 20 to 35. That of line 36 finds these 16 in the
        // registers, so it brings two collections again, and the full one gives back the cells of the first 16.
        Row::plays(
            "cells where the half is full",
            "moar-gc 1\n\
             mutators 2\n\
             type pair 2 0\n\
             1 new r0 pair\n1 new r1 pair\n1 new r2 pair\n1 new r3 pair\n\
             1 new r4 pair\n1 new r5 pair\n1 new r6 pair\n1 new r7 pair\n\
             1 new r8 pair\n1 new r9 pair\n1 new r10 pair\n1 new r11 pair\n\
             1 new r12 pair\n1 new r13 pair\n1 new r14 pair\n1 new r15 pair\n\
             1 new r0 pair\n\
             1 new r1 pair\n\
             1 new r2 pair\n1 new r3 pair\n1 new r4 pair\n1 new r5 pair\n\
             1 new r6 pair\n1 new r7 pair\n1 new r8 pair\n1 new r9 pair\n\
             1 new r10 pair\n1 new r11 pair\n1 new r12 pair\n1 new r13 pair\n\
             1 new r14 pair\n1 new r15 pair\n\
             1 new r1 pair\n\
             1 new r0 pair\n\
             1 new r0 pair\n",
            "4 done\n5 done\n6 done\n7 done\n\
             8 done\n9 done\n10 done\n11 done\n\
             12 done\n13 done\n14 done\n15 done\n\
             16 done\n17 done\n18 done\n19 done\n\
             20 done\n\
             21 done\n\
             22 done\n23 done\n24 done\n25 done\n\
             26 done\n27 done\n28 done\n29 done\n\
             30 done\n31 done\n32 done\n33 done\n\
             34 done\n35 done\n\
             36 done\n\
             37 done\n\
             38 done\n\
             run 1 minor\n\
             run 2 full objects 17 words 82\n\
             run 3 minor\n\
             run 4 full objects 17 words 82\n",
        ),
        // The second collection promotes the wide object of mutator 1, of 18 + 64 words with the common one, and its page
        // gets the class. So the pair of line 6 stays in the half, and the fourth one, of 18 + 64 + 4 words, leaves no room
        // there for the wide object of line 7, which gets a cell. It is dropped, and mutator 1 has two pairs. The sixth
        // one comes with the pair of mutator 0, which has no place: 18 + 64 + 4 + 4 + 64 words. At last the first wide
        // object is dropped, too: the eighth one finds the pairs and the wide object of mutator 0, 18 + 4 + 4 + 64 words.
        Row::plays(
            "cells of the widest class alone",
            "moar-gc 1\n\
             mutators 2\n\
             type pair 2 0\n\
             type whole 0 62\n\
             1 new r0 whole\n\
             1 new r1 pair\n\
             1 new r2 whole\n\
             1 new r2 pair\n\
             1 same r1 r2\n\
             0 new r0 whole\n\
             0 new r1 pair\n\
             1 clear r0\n\
             1 new r0 whole\n",
            "5 done\n\
             6 done\n\
             7 done\n\
             8 done\n\
             9 no\n\
             10 done\n\
             11 full\n\
             12 done\n\
             13 done\n\
             run 1 minor\n\
             run 2 full objects 2 words 82\n\
             run 3 minor\n\
             run 4 full objects 3 words 86\n\
             run 5 minor\n\
             run 6 full objects 5 words 154\n\
             run 7 minor\n\
             run 8 full objects 4 words 90\n",
        ),
    ] {
        row.with_words(ONE_PAGE).check(&rt)?;
    }
    Ok(())
}

/// A script of an object of so many slots and numbers, 64 words in all, which survives four collections; and what it
/// prints. Each of its numbers is set before and asked behind each. The object fills the half, and the one page, so far
/// as it has a class, has another one; so each other object that is made brings a minor collection and a full one, which
/// finds 2 objects of 18 + 64 words, and is full.
fn numbered(alloc: Global, slots: u64, numbers: u64) -> Result<(String, String), AllocError> {
    let mut script = String::new(alloc);
    let mut output = String::new(alloc);
    writeln!(
        script,
        "moar-gc 1\nmutators 1\ntype whole {slots} {numbers}\ntype least 0 0\n0 new r0 whole"
    )?;
    writeln!(output, "5 done")?;
    let mut number = 6u64;
    for place in 0..numbers {
        writeln!(script, "0 set r0 {place} {}", u64::MAX - place)?;
        writeln!(output, "{number} done")?;
        number = number.saturating_add(1);
    }
    for _ in 0..2 {
        writeln!(script, "0 new r1 least")?;
        writeln!(output, "{number} full")?;
        number = number.saturating_add(1);
        for place in 0..numbers {
            writeln!(script, "0 ask r0 {place}")?;
            writeln!(output, "{number} {}", u64::MAX - place)?;
            number = number.saturating_add(1);
        }
    }
    output.push_str(
        "run 1 minor\n\
         run 2 full objects 2 words 82\n\
         run 3 minor\n\
         run 4 full objects 2 words 82\n",
    )?;
    Ok((script, output))
}

#[test]
fn each_number_of_an_object_survives(rt: HostRuntime) -> Result<(), Fail> {
    for slots in 0..=62 {
        let (script, output) = numbered(rt.alloc(), slots, 62 - slots)?;
        let name = format!(in rt.alloc(); "numbers beside {slots} slots")?;
        Row::plays(name.as_str(), script.as_str(), output.as_str())
            .with_words(ONE_PAGE)
            .check(&rt)?;
    }
    Ok(())
}
