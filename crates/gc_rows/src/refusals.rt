//! Scripts that are refused, and words that are no command.

use crate::row::{ONE_BOX, Row};
use std::test::Fail;

#[test]
fn scripts_are_refused(rt: HostRuntime) -> Result<(), Fail> {
    for row in [
        Row::refuses("an empty input", "", "moar_gc: line 1: version\n"),
        Row::refuses(
            "the version line alone",
            "moar-gc 1\n",
            "moar_gc: line 2: word\n",
        ),
        Row::refuses(
            "a type that is too wide",
            "moar-gc 1\n\
             mutators 1\n\
             type wide 62 1\n",
            "moar_gc: line 3: type\n",
        ),
        Row::refuses(
            "a number that is too large",
            "moar-gc 1\n\
             mutators 1\n\
             type box 0 1\n\
             0 new r0 box\n\
             0 set r0 0 18446744073709551616\n\
             0 ask r0 0\n",
            "moar_gc: line 5: number\n",
        ),
        Row::refuses(
            "a register without a number",
            "moar-gc 1\n\
             mutators 1\n\
             0 ask r 0\n",
            "moar_gc: line 3: register\n",
        ),
        Row::refuses(
            "a type that isn't declared",
            "moar-gc 1\n\
             mutators 1\n\
             0 new r0 pair\n",
            "moar_gc: line 3: type\n",
        ),
        Row::refuses(
            "a type declared twice",
            "moar-gc 1\n\
             mutators 1\n\
             type pair 2 0\n\
             type pair 1 0\n",
            "moar_gc: line 4: duplicate\n",
        ),
        Row::refuses(
            "a mutator that isn't there",
            "moar-gc 1\n\
             mutators 1\n\
             1 ask r0 0\n",
            "moar_gc: line 3: mutator\n",
        ),
        Row::refuses(
            "another mutator than the one that is there",
            "moar-gc 1\n\
             mutators 1\n\
             1 clear r0\n",
            "moar_gc: line 3: mutator\n",
        ),
        Row::refuses(
            "a clear without its register",
            "moar-gc 1\n\
             mutators 1\n\
             0 clear\n",
            "moar_gc: line 3: word\n",
        ),
        Row::refuses(
            "a place that the common object hasn't",
            "moar-gc 1\n\
             mutators 1\n\
             0 await r0 16\n",
            "moar_gc: line 3: number\n",
        ),
        Row::refuses(
            "the fault after other lines",
            "moar-gc 1\n\
             mutators 2\n\
             0 clear r0\n\
             1 clear r0\n\
             2 clear r0\n",
            "moar_gc: line 5: mutator\n",
        ),
        Row::refuses(
            "a call word that there isn't",
            "moar-gc 1\n\
             mutators 1\n\
             0 collect\n\
             0 collects\n",
            "moar_gc: line 4: word\n",
        ),
        Row::refuses(
            "a collection of a word more",
            "moar-gc 1\n\
             mutators 1\n\
             0 collect\n\
             0 collect full\n",
            "moar_gc: line 4: word\n",
        ),
        Row::refuses(
            "a collection of a mutator that there isn't",
            "moar-gc 1\n\
             mutators 1\n\
             0 collect\n\
             1 collect\n",
            "moar_gc: line 4: mutator\n",
        ),
    ] {
        row.check(&rt)?;
    }
    Ok(())
}

#[test]
fn words_are_refused(rt: HostRuntime) -> Result<(), Fail> {
    for row in [
        Row::misuses("no words", &[], ONE_BOX),
        Row::misuses("an unknown word", &["runs"], ONE_BOX),
        Row::misuses("an empty word", &[""], ONE_BOX),
        Row::misuses("a word more", &["play", "play"], ONE_BOX),
        Row::misuses("a mode in capitals", &["Play"], ONE_BOX),
        Row::misuses("an option before the mode", &["--reports", "play"], ONE_BOX),
    ] {
        row.check(&rt)?;
    }
    Ok(())
}
