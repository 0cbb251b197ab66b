//! Full collections, and what is left of a heap behind them. All values are worked out by hand.
//!
//! A full collection counts the common object too: one object, of 18 words. With one page mutator 0 has no cells but those
//! of the common object's class. What survives a second collection is promoted, where a cell of its class is free or a page
//! has no class yet. Cells are given back at the end of a full collection, when all is copied.

use crate::built::Built;
use crate::row::{ONE_PAGE, TWO_PAGES};
use std::test::Fail;

/// The words for halves of 64 words, with reports.
const SMALL_HALVES: &[&str] = &["play", "--nursery", "64", "--reports"];

/// One mutator, and pairs of 4 words.
const PAIRS: &str = "moar-gc 1\nmutators 1\ntype pair 2 0\n";

/// Two mutators, and pairs of 4 words.
const PAIRS_OF_TWO: &str = "moar-gc 1\nmutators 2\ntype pair 2 0\n";

/// Nodes of 4 words.
const NODES: &str = "moar-gc 1\nmutators 1\ntype node 1 1\n";

/// Nodes of 4 words, and big objects of 60.
const NODES_AND_BIG: &str = "moar-gc 1\nmutators 1\ntype node 1 1\ntype big 0 58\n";

/// Mutator 0 chains a pair to the others.
const CHAIN: &[(&str, &str)] = &[
    ("0 new r1 pair", "done"),
    ("0 put r1 0 r0", "done"),
    ("0 copy r0 r1", "done"),
];

/// Mutator 1 chains a pair to the others.
const CHAIN_OF_ONE: &[(&str, &str)] = &[
    ("1 new r1 pair", "done"),
    ("1 put r1 0 r0", "done"),
    ("1 copy r0 r1", "done"),
];

/// 16 pairs fill a half of 64 words.
#[test]
fn a_full_half_is_collected(rt: HostRuntime) -> Result<(), Fail> {
    for row in [
        // All pairs are needed, and the one page has the common object's class.
        Built {
            name: "a chain that fills the half",
            words: ONE_PAGE,
            head: PAIRS,
            calls: &[(16, CHAIN), (1, &[("0 new r1 pair", "full")])],
            reports: "run 1 minor\n\
                      run 2 full objects 17 words 82\n",
        },
        Built {
            name: "a dropped chain",
            words: ONE_PAGE,
            head: PAIRS,
            calls: &[
                (16, CHAIN),
                (
                    1,
                    &[
                        ("0 clear r0", "done"),
                        ("0 clear r1", "done"),
                        ("0 new r1 pair", "done"),
                    ],
                ),
            ],
            reports: "run 1 minor\n",
        },
        // None is due behind the full collection, and the third one leaves the half empty.
        Built {
            name: "full, and space again",
            words: ONE_PAGE,
            head: PAIRS,
            calls: &[
                (16, CHAIN),
                (
                    1,
                    &[
                        ("0 new r1 pair", "full"),
                        ("0 same r0 r1", "yes"),
                        ("0 clear r0", "done"),
                        ("0 clear r1", "done"),
                    ],
                ),
                (16, CHAIN),
                (1, &[("0 new r1 pair", "full")]),
            ],
            reports: "run 1 minor\n\
                      run 2 full objects 17 words 82\n\
                      run 3 minor\n\
                      run 4 minor\n\
                      run 5 full objects 17 words 82\n",
        },
        // The full collection promotes the pairs to mutator 1's page.
        Built {
            name: "a chain of mutator 1",
            words: ONE_PAGE,
            head: PAIRS_OF_TWO,
            calls: &[(16, CHAIN_OF_ONE), (1, &[("1 new r1 pair", "done")])],
            reports: "run 1 minor\n\
                      run 2 full objects 17 words 82\n",
        },
        // The lines 20, 34 and 49 find 64 words used. The second collection promotes the first pair, so one of two pages
        // was given, and a full one is due: it finds that pair, and the one that r1 names.
        Built {
            name: "a collection that is due",
            words: ONE_PAGE,
            head: PAIRS_OF_TWO,
            calls: &[
                (1, &[("1 new r0 pair", "done")]),
                (45, &[("1 new r1 pair", "done")]),
            ],
            reports: "run 1 minor\n\
                      run 2 minor\n\
                      run 3 full objects 3 words 26\n",
        },
    ] {
        row.check(&rt)?;
    }
    Ok(())
}

/// A node is promoted by two collections, and then names another one, which no register names.
const OLD_NAMES_YOUNG: &[(&str, &str)] = &[
    ("0 new r0 node", "done"),
    ("0 collect", "done"),
    ("0 collect", "done"),
    ("0 new r1 node", "done"),
    ("0 set r1 0 7", "done"),
    ("0 put r0 0 r1", "done"),
    ("0 clear r1", "done"),
];

#[test]
fn a_full_collection_keeps_what_is_reachable(rt: HostRuntime) -> Result<(), Fail> {
    for row in [
        Built {
            name: "a dropped cycle",
            words: &["play", "--reports"],
            head: PAIRS,
            calls: &[(
                1,
                &[
                    ("0 new r0 pair", "done"),
                    ("0 new r1 pair", "done"),
                    ("0 put r0 0 r1", "done"),
                    ("0 put r1 0 r0", "done"),
                    ("0 clear r0", "done"),
                    ("0 clear r1", "done"),
                    ("0 collect", "done"),
                ],
            )],
            reports: "run 1 full objects 1 words 18\n",
        },
        // The last of the 16 nodes finds 64 words used.
        Built {
            name: "an old object keeps a young one",
            words: SMALL_HALVES,
            head: NODES,
            calls: &[
                (1, OLD_NAMES_YOUNG),
                (16, &[("0 new r2 node", "done")]),
                (1, &[("0 get r1 r0 0", "done"), ("0 ask r1 0", "7")]),
            ],
            reports: "run 1 full objects 2 words 22\n\
                      run 2 full objects 2 words 22\n\
                      run 3 minor\n",
        },
        // The fourth collection promotes the second node, and the fifth one gives its cell back.
        Built {
            name: "an old object that is dropped",
            words: SMALL_HALVES,
            head: NODES,
            calls: &[
                (1, OLD_NAMES_YOUNG),
                (
                    1,
                    &[
                        ("0 collect", "done"),
                        ("0 collect", "done"),
                        ("0 put r0 0 r2", "done"),
                        ("0 collect", "done"),
                    ],
                ),
            ],
            reports: "run 1 full objects 2 words 22\n\
                      run 2 full objects 2 words 22\n\
                      run 3 full objects 3 words 26\n\
                      run 4 full objects 3 words 26\n\
                      run 5 full objects 2 words 22\n",
        },
        Built {
            name: "the same object, another one, and nothing",
            words: &["play"],
            head: PAIRS,
            calls: &[(
                1,
                &[
                    ("0 new r0 pair", "done"),
                    ("0 copy r1 r0", "done"),
                    ("0 new r2 pair", "done"),
                    ("0 collect", "done"),
                    ("0 same r0 r1", "yes"),
                    ("0 same r0 r2", "no"),
                    ("0 same r3 r4", "yes"),
                ],
            )],
            reports: "",
        },
        // The registers of a blocked mutator count, and a collect of its own is refused.
        Built {
            name: "blocked mutators",
            words: &["play", "--reports"],
            head: "moar-gc 1\nmutators 3\ntype box 0 1\n",
            calls: &[(
                1,
                &[
                    ("1 new r0 box", "done"),
                    ("1 set r0 0 5", "done"),
                    ("1 block", "done"),
                    ("2 block", "done"),
                    ("0 collect", "done"),
                    ("0 collect", "done"),
                    ("1 ask r0 0", "blocked"),
                    ("1 unblock", "done"),
                    ("1 ask r0 0", "5"),
                    ("1 clear r0", "done"),
                    ("1 block", "done"),
                    ("0 collect", "done"),
                    ("1 collect", "blocked"),
                    ("2 unblock", "done"),
                    ("2 collect", "done"),
                ],
            )],
            reports: "run 1 full objects 2 words 21\n\
                      run 2 full objects 2 words 21\n\
                      run 3 full objects 1 words 18\n\
                      run 4 full objects 1 words 18\n",
        },
        // The node of mutator 0 is promoted by the fourth collection. Only that of mutator 1 names it, until that is dropped.
        Built {
            name: "what another mutator's old object names alone",
            words: TWO_PAGES,
            head: "moar-gc 1\nmutators 2\ntype node 1 1\n",
            calls: &[(
                1,
                &[
                    ("1 new r0 node", "done"),
                    ("0 collect", "done"),
                    ("0 collect", "done"),
                    ("0 new r0 node", "done"),
                    ("0 set r0 0 7", "done"),
                    ("0 share 3 r0", "done"),
                    ("1 take r1 3", "done"),
                    ("1 put r0 0 r1", "done"),
                    ("1 clear r1", "done"),
                    ("0 share 3 r9", "done"),
                    ("0 clear r0", "done"),
                    ("0 collect", "done"),
                    ("1 get r1 r0 0", "done"),
                    ("1 ask r1 0", "7"),
                    ("1 clear r1", "done"),
                    ("0 collect", "done"),
                    ("1 get r1 r0 0", "done"),
                    ("1 ask r1 0", "7"),
                    ("1 clear r1", "done"),
                    ("1 clear r0", "done"),
                    ("0 collect", "done"),
                ],
            )],
            reports: "run 1 full objects 2 words 22\n\
                      run 2 full objects 2 words 22\n\
                      run 3 full objects 3 words 26\n\
                      run 4 full objects 3 words 26\n\
                      run 5 full objects 1 words 18\n",
        },
    ] {
        row.check(&rt)?;
    }
    Ok(())
}

/// A node in a page is dropped while it names one in a half, so it is remembered.
#[test]
fn what_garbage_names_goes_with_it(rt: HostRuntime) -> Result<(), Fail> {
    for row in [
        // The third collection is minor, so it keeps what the garbage names, and with that the big object fills the half. So
        // the node of r3 brings the fourth one, which promotes what the garbage names. The fifth one keeps the big object
        // and the node of r3: 3 objects of 18 + 60 + 4 words.
        Built {
            name: "minor collections, and a full one",
            words: TWO_PAGES,
            head: NODES_AND_BIG,
            calls: &[
                (1, OLD_NAMES_YOUNG),
                (
                    1,
                    &[
                        ("0 clear r0", "done"),
                        ("0 new r2 big", "done"),
                        ("0 clear r2", "done"),
                        ("0 new r2 big", "done"),
                        ("0 new r3 node", "done"),
                        ("0 collect", "done"),
                    ],
                ),
            ],
            reports: "run 1 full objects 2 words 22\n\
                      run 2 full objects 2 words 22\n\
                      run 3 minor\n\
                      run 4 minor\n\
                      run 5 full objects 3 words 82\n",
        },
        // The third collection keeps neither. The fifth one promotes another node into the cell of the garbage; that comes to
        // name a young one, which the sixth one keeps.
        Built {
            name: "a full collection, and a cell that is used again",
            words: TWO_PAGES,
            head: NODES,
            calls: &[
                (1, OLD_NAMES_YOUNG),
                (
                    1,
                    &[
                        ("0 clear r0", "done"),
                        ("0 collect", "done"),
                        ("0 new r0 node", "done"),
                        ("0 set r0 0 5", "done"),
                        ("0 collect", "done"),
                        ("0 collect", "done"),
                        ("0 get r1 r0 0", "nil"),
                        ("0 ask r0 0", "5"),
                        ("0 new r1 node", "done"),
                        ("0 put r0 0 r1", "done"),
                        ("0 collect", "done"),
                        ("0 get r2 r0 0", "done"),
                        ("0 same r1 r2", "yes"),
                    ],
                ),
            ],
            reports: "run 1 full objects 2 words 22\n\
                      run 2 full objects 2 words 22\n\
                      run 3 full objects 1 words 18\n\
                      run 4 full objects 2 words 22\n\
                      run 5 full objects 2 words 22\n\
                      run 6 full objects 3 words 26\n",
        },
    ] {
        row.check(&rt)?;
    }
    Ok(())
}

/// Mutator 1 chains an object of 64 words to the others.
const CHAIN_OF_LINKS: &[(&str, &str)] = &[
    ("1 new r1 link", "done"),
    ("1 put r1 0 r0", "done"),
    ("1 copy r0 r1", "done"),
];

/// A page has 16 cells for objects of 64 words.
#[test]
fn the_greatest_objects_are_kept_and_given_back(rt: HostRuntime) -> Result<(), Fail> {
    for row in [
        // An object fills the half. The second and the fourth collection promote one, and leave the half empty. The last two
        // come with the object of r5, which has no room beside that of r4; the full one promotes that.
        Built {
            name: "the greatest objects in the smallest half",
            words: TWO_PAGES,
            head: "moar-gc 1\nmutators 1\ntype whole 31 31\n",
            calls: &[(
                1,
                &[
                    ("0 new r0 whole", "done"),
                    ("0 set r0 30 9", "done"),
                    ("0 put r0 30 r0", "done"),
                    ("0 collect", "done"),
                    ("0 ask r0 30", "9"),
                    ("0 collect", "done"),
                    ("0 new r1 whole", "done"),
                    ("0 put r0 0 r1", "done"),
                    ("0 put r1 0 r0", "done"),
                    ("0 clear r1", "done"),
                    ("0 collect", "done"),
                    ("0 get r2 r0 0", "done"),
                    ("0 get r3 r2 0", "done"),
                    ("0 same r3 r0", "yes"),
                    ("0 get r3 r0 30", "done"),
                    ("0 same r3 r0", "yes"),
                    ("0 ask r3 30", "9"),
                    ("0 collect", "done"),
                    ("0 new r4 whole", "done"),
                    ("0 new r5 whole", "done"),
                ],
            )],
            reports: "run 1 full objects 2 words 82\n\
                      run 2 full objects 2 words 82\n\
                      run 3 full objects 3 words 146\n\
                      run 4 full objects 3 words 146\n\
                      run 5 minor\n\
                      run 6 full objects 4 words 210\n",
        },
        // A half and a page of mutator 1 have room for 17 of them. Once they are dropped there is room again: in the half,
        // and in the page behind the first full collection.
        Built {
            name: "a full half and a full page, and space again",
            words: &["play", "--nursery", "64", "--pages", "1"],
            head: "moar-gc 1\nmutators 2\ntype link 1 61\n",
            calls: &[
                (17, CHAIN_OF_LINKS),
                (
                    1,
                    &[
                        ("1 new r1 link", "full"),
                        ("1 clear r0", "done"),
                        ("1 clear r1", "done"),
                    ],
                ),
                (17, CHAIN_OF_LINKS),
                (1, &[("1 new r1 link", "full")]),
            ],
            reports: "",
        },
        // The half has room for 16. The second collection promotes the chain of 16, so the page is full, and the object of
        // r2 stays in the half: the last of 16 more brings the fifth collection. The sixth one gives the cells back when all
        // is copied, so the object of r2 is still in the half: the last of 16 more brings the seventh, which promotes it. Then
        // the half has room for 16 more.
        Built {
            name: "a survivor that isn't promoted until a cell is given back",
            words: &["play", "--nursery", "1024", "--pages", "1", "--reports"],
            head: "moar-gc 1\nmutators 2\ntype link 1 61\n",
            calls: &[
                (16, CHAIN_OF_LINKS),
                (
                    1,
                    &[
                        ("1 clear r1", "done"),
                        ("0 collect", "done"),
                        ("0 collect", "done"),
                        ("1 new r2 link", "done"),
                        ("1 set r2 0 7", "done"),
                        ("0 collect", "done"),
                        ("0 collect", "done"),
                    ],
                ),
                (16, &[("1 new r3 link", "done")]),
                (
                    1,
                    &[
                        ("1 clear r0", "done"),
                        ("1 clear r3", "done"),
                        ("0 collect", "done"),
                    ],
                ),
                (16, &[("1 new r3 link", "done")]),
                (1, &[("1 clear r3", "done"), ("0 collect", "done")]),
                (16, &[("1 new r3 link", "done")]),
                (1, &[("1 ask r2 0", "7"), ("1 ask r3 0", "0")]),
            ],
            reports: "run 1 full objects 17 words 1042\n\
                      run 2 full objects 17 words 1042\n\
                      run 3 full objects 18 words 1106\n\
                      run 4 full objects 18 words 1106\n\
                      run 5 minor\n\
                      run 6 full objects 2 words 82\n\
                      run 7 minor\n\
                      run 8 full objects 2 words 82\n",
        },
    ] {
        row.check(&rt)?;
    }
    Ok(())
}
