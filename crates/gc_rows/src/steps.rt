//! The five steps of an allocation, each seen by the collections that it brings, and when a full one is due. All values are
//! worked out by hand.
//!
//! A new object takes words of its mutator's half. Else a collection comes, which is full where that is due; and else, where
//! that was minor, a full one. Else it takes a cell, and else it is full. At the end of a minor collection a full one is due
//! where four times the pages that were given a class since the last full one are at least all pages.

use crate::built::{Built, Calls};
use crate::row::{THREE_PAGES, TWO_PAGES};
use std::process::Abort;
use std::sync::Wait;
use std::test::Fail;
use std::thread::Threads;

/// The words for halves of 64 words and eight pages, with reports.
const EIGHT_PAGES: &[&str] = &["play", "--nursery", "64", "--pages", "8", "--reports"];

/// Nodes of 4 words, and big objects of 60.
const NODES_AND_BIG: &str = "moar-gc 1\nmutators 1\ntype node 1 1\ntype big 0 58\n";

/// A big object is made and dropped.
const DROPPED: &[(&str, &str)] = &[("0 new r9 big", "done"), ("0 clear r9", "done")];

/// The second collection promotes the node of r0, so a page of two is given a class, and a full one is due. Then the big
/// object and the node of r1 fill the half.
const DUE: &[(&str, &str)] = &[
    ("0 new r0 node", "done"),
    ("0 new r9 big", "done"),
    ("0 clear r9", "done"),
    ("0 new r9 big", "done"),
    ("0 clear r9", "done"),
    ("0 new r9 big", "done"),
    ("0 new r1 node", "done"),
];

#[test]
fn each_step_of_an_allocation_is_seen(rt: HostRuntime) -> Result<(), Fail> {
    for row in [
        Built {
            name: "the half has room",
            words: TWO_PAGES,
            head: NODES_AND_BIG,
            calls: &[(16, &[("0 new r0 node", "done")])],
            reports: "",
        },
        Built {
            name: "a minor collection makes room",
            words: TWO_PAGES,
            head: NODES_AND_BIG,
            calls: &[(17, &[("0 new r0 node", "done")])],
            reports: "run 1 minor\n",
        },
        // The big object survives both, and the second one promotes it.
        Built {
            name: "a full collection behind it makes room",
            words: TWO_PAGES,
            head: NODES_AND_BIG,
            calls: &[(1, &[("0 new r0 big", "done"), ("0 new r1 big", "done")])],
            reports: "run 1 minor\n\
                      run 2 full objects 2 words 78\n",
        },
        // The big object is dropped, so 2 nodes are left.
        Built {
            name: "a full collection that is due makes room",
            words: TWO_PAGES,
            head: NODES_AND_BIG,
            calls: &[
                (1, DUE),
                (1, &[("0 clear r9", "done"), ("0 new r2 node", "done")]),
            ],
            reports: "run 1 minor\n\
                      run 2 minor\n\
                      run 3 full objects 3 words 26\n",
        },
        // The big object and the node of r1 survive their first collection, so they are still in the half: 4 objects of
        // 18 + 4 + 60 + 4 words. No second one is made. The nodes' page has a free cell.
        Built {
            name: "a full collection that is due, and a cell",
            words: TWO_PAGES,
            head: NODES_AND_BIG,
            calls: &[
                (1, DUE),
                (1, &[("0 new r2 node", "done"), ("0 same r1 r2", "no")]),
            ],
            reports: "run 1 minor\n\
                      run 2 minor\n\
                      run 3 full objects 4 words 86\n",
        },
        // The same, but no page has the big objects' class, and each page has another one.
        Built {
            name: "a full collection that is due, and no cell",
            words: TWO_PAGES,
            head: NODES_AND_BIG,
            calls: &[
                (1, DUE),
                (1, &[("0 new r2 big", "full"), ("0 same r2 r3", "yes")]),
            ],
            reports: "run 1 minor\n\
                      run 2 minor\n\
                      run 3 full objects 4 words 86\n",
        },
        // The second collection promotes the node, so there is no page for the big object of 62 words: it stays in the half.
        // The next node gets a cell. The big object behind it gets none.
        Built {
            name: "a minor and a full collection, and a cell; and then none",
            words: TWO_PAGES,
            head: "moar-gc 1\nmutators 1\ntype node 1 1\ntype big 0 60\n",
            calls: &[(
                1,
                &[
                    ("0 new r0 node", "done"),
                    ("0 collect", "done"),
                    ("0 collect", "done"),
                    ("0 new r1 big", "done"),
                    ("0 new r2 node", "done"),
                    ("0 new r3 big", "full"),
                    ("0 same r0 r2", "no"),
                ],
            )],
            reports: "run 1 full objects 2 words 22\n\
                      run 2 full objects 2 words 22\n\
                      run 3 minor\n\
                      run 4 full objects 3 words 84\n\
                      run 5 minor\n\
                      run 6 full objects 4 words 88\n",
        },
    ] {
        row.check(&rt)?;
    }
    Ok(())
}

/// What mutator 0 does with a node and big objects: each big one but the first brings a collection, the second of which
/// promotes the node.
const BY_ZERO: &[(u32, &[(&str, &str)])] = &[(1, &[("0 new r0 node", "done")]), (5, DROPPED)];

/// The same of mutator 1.
const BY_ONE: &[(u32, &[(&str, &str)])] = &[
    (1, &[("1 new r0 node", "done")]),
    (5, &[("1 new r9 big", "done"), ("1 clear r9", "done")]),
];

/// The same of mutator 0, with a mate of another class beside the node, which is promoted too.
const WITH_A_MATE: &[(u32, &[(&str, &str)])] = &[
    (1, &[("0 new r0 node", "done"), ("0 new r1 mate", "done")]),
    (5, DROPPED),
];

/// Nodes of 4 words, mates of 6, and big objects of 54.
const NODES_AND_MATES: &str =
    "moar-gc 1\nmutators 1\ntype node 1 1\ntype mate 0 4\ntype big 0 52\n";

/// Plays calls that bring four collections, of which the third is full where that is due, and no other.
fn check_third<R: Abort + AllocGlobal + Threads + Wait + Sync>(
    rt: &R,
    head: &str,
    calls: &[Calls],
    pages: &str,
    third: &str,
) -> Result<(), Fail> {
    let reports = format!(in rt.alloc(); "run 1 minor\nrun 2 minor\nrun 3 {third}\nrun 4 minor\n")?;
    Built {
        name: pages,
        words: &["play", "--nursery", "64", "--pages", pages, "--reports"],
        head,
        calls,
        reports: reports.as_str(),
    }
    .check(rt)
}

/// A full collection is due from the moment on at which a quarter of all pages was given a class, and no longer behind it.
#[test]
fn a_full_collection_is_due_at_a_quarter_of_all_pages(rt: HostRuntime) -> Result<(), Fail> {
    // One page is given, where the mutator has one without a class: the common object's doesn't count.
    for (pages, third) in [
        ("1", "minor"),
        ("2", "full objects 2 words 22"),
        ("3", "full objects 2 words 22"),
        ("4", "full objects 2 words 22"),
        ("5", "minor"),
        ("128", "minor"),
    ] {
        check_third(&rt, NODES_AND_BIG, BY_ZERO, pages, third)?;
    }

    // One page is given, and all pages are those of all mutators.
    for (head, pages, third) in [
        ("moar-gc 1\nmutators 2\n", "1", "full objects 2 words 22"),
        ("moar-gc 1\nmutators 2\n", "2", "full objects 2 words 22"),
        ("moar-gc 1\nmutators 2\n", "3", "minor"),
        ("moar-gc 1\nmutators 3\n", "1", "full objects 2 words 22"),
        ("moar-gc 1\nmutators 4\n", "1", "full objects 2 words 22"),
        ("moar-gc 1\nmutators 4\n", "2", "minor"),
        ("moar-gc 1\nmutators 5\n", "1", "minor"),
        ("moar-gc 1\nmutators 8\n", "1", "minor"),
    ] {
        let head = format!(in rt.alloc(); "{head}type node 1 1\ntype big 0 58\n")?;
        check_third(&rt, head.as_str(), BY_ONE, pages, third)?;
    }

    // Two pages are given.
    for (pages, third) in [
        ("3", "full objects 3 words 28"),
        ("7", "full objects 3 words 28"),
        ("8", "full objects 3 words 28"),
        ("9", "minor"),
        ("128", "minor"),
    ] {
        check_third(&rt, NODES_AND_MATES, WITH_A_MATE, pages, third)?;
    }
    Ok(())
}

#[test]
fn pages_are_counted_since_the_last_full_collection(rt: HostRuntime) -> Result<(), Fail> {
    for row in [
        // The second collection promotes the node, and the fourth the mate: two pages of eight.
        Built {
            name: "pages that were given one after the other",
            words: EIGHT_PAGES,
            head: NODES_AND_MATES,
            calls: &[
                (1, &[("0 new r0 node", "done")]),
                (2, DROPPED),
                (
                    1,
                    &[
                        ("0 new r9 big", "done"),
                        ("0 new r1 mate", "done"),
                        ("0 clear r9", "done"),
                    ],
                ),
                (4, DROPPED),
            ],
            reports: "run 1 minor\n\
                      run 2 minor\n\
                      run 3 minor\n\
                      run 4 minor\n\
                      run 5 full objects 3 words 28\n\
                      run 6 minor\n",
        },
        Built {
            name: "a page that a full collection gave doesn't count",
            words: TWO_PAGES,
            head: NODES_AND_BIG,
            calls: &[
                (
                    1,
                    &[
                        ("0 new r0 node", "done"),
                        ("0 collect", "done"),
                        ("0 collect", "done"),
                    ],
                ),
                (3, DROPPED),
            ],
            reports: "run 1 full objects 2 words 22\n\
                      run 2 full objects 2 words 22\n\
                      run 3 minor\n\
                      run 4 minor\n",
        },
        Built {
            name: "a collect in place of the one that is due",
            words: TWO_PAGES,
            head: NODES_AND_BIG,
            calls: &[
                (1, &[("0 new r0 node", "done")]),
                (3, DROPPED),
                (1, &[("0 collect", "done")]),
                (2, DROPPED),
            ],
            reports: "run 1 minor\n\
                      run 2 minor\n\
                      run 3 full objects 2 words 22\n\
                      run 4 minor\n",
        },
        // The third collection is due, and leaves the big object and the node of r1 in the half. So the mate takes a cell, of
        // a page that had no class: one of three pages. The fourth collection promotes the node of r1.
        Built {
            name: "a page that a new object was given counts",
            words: THREE_PAGES,
            head: "moar-gc 1\nmutators 1\ntype node 1 1\ntype mate 0 6\ntype big 0 58\n",
            calls: &[
                (1, DUE),
                (1, &[("0 new r2 mate", "done"), ("0 clear r9", "done")]),
                (2, DROPPED),
            ],
            reports: "run 1 minor\n\
                      run 2 minor\n\
                      run 3 full objects 4 words 86\n\
                      run 4 minor\n\
                      run 5 full objects 4 words 34\n",
        },
    ] {
        row.check(&rt)?;
    }
    Ok(())
}
