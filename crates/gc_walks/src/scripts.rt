//! Scripts whose replies are too many to work out by hand: some written down, and some drawn or counted out.

ghost use Rattle.std.specs.Prelude.{◌<◌};

use std::alloc::{AllocError, Global};
use std::fmt::Write;

/// All call words of one mutator.
pub const ONE: &str = "moar-gc 1\n\
    mutators 1\n\
    type node 2 1\n\
    type wide 40 20\n\
    0 ask r0 0\n\
    0 set r0 0 1\n\
    0 swap r0 0 1 2\n\
    0 get r1 r0 0\n\
    0 put r0 0 r1\n\
    0 same r0 r1\n\
    0 new r0 node\n\
    0 new r1 node\n\
    0 put r0 0 r1\n\
    0 put r0 1 r0\n\
    0 put r0 2 r1\n\
    0 get r2 r0 0\n\
    0 get r3 r0 2\n\
    0 get r4 r1 0\n\
    0 same r1 r2\n\
    0 same r0 r2\n\
    0 set r2 0 9\n\
    0 set r2 1 9\n\
    0 ask r1 0\n\
    0 ask r1 1\n\
    0 swap r1 0 8 7\n\
    0 swap r1 0 9 7\n\
    0 swap r1 1 9 7\n\
    0 ask r2 0\n\
    0 copy r5 r0\n\
    0 clear r0\n\
    0 same r0 r6\n\
    0 get r6 r5 1\n\
    0 same r5 r6\n\
    0 share 15 r5\n\
    0 take r0 15\n\
    0 await r7 15\n\
    0 same r0 r7\n\
    0 take r7 14\n\
    0 await r7 14\n\
    0 same r0 r7\n\
    0 share 15 r9\n\
    0 take r0 15\n\
    0 safepoint\n\
    0 unblock\n\
    0 block\n\
    0 block\n\
    0 safepoint\n\
    0 new r8 node\n\
    0 ask r1 0\n\
    0 unblock\n\
    0 unblock\n\
    0 new r8 wide\n\
    0 new r9 wide\n\
    0 same r8 r9\n\
    0 new r9 node\n\
    0 ask r8 19\n\
    0 ask r8 20\n\
    0 get r9 r8 39\n\
    0 get r9 r8 40\n\
    0 put r8 39 r8\n\
    0 get r9 r8 39\n\
    0 same r8 r9\n";

/// What two mutators share.
pub const TWO: &str = "moar-gc 1\n\
    mutators 2\n\
    type node 1 1\n\
    0 take r0 0\n\
    1 await r0 0\n\
    0 new r0 node\n\
    0 set r0 0 5\n\
    0 share 0 r0\n\
    1 await r0 0\n\
    1 ask r0 0\n\
    1 new r1 node\n\
    1 set r1 0 6\n\
    1 put r0 0 r1\n\
    0 get r1 r0 0\n\
    0 ask r1 0\n\
    0 swap r1 0 6 7\n\
    1 ask r1 0\n\
    1 swap r1 0 6 8\n\
    1 share 0 r1\n\
    0 take r2 0\n\
    0 same r1 r2\n\
    0 clear r0\n\
    1 clear r0\n\
    0 block\n\
    1 put r1 0 r1\n\
    0 ask r2 0\n\
    1 get r2 r1 0\n\
    1 same r1 r2\n\
    1 unblock\n\
    0 unblock\n\
    0 get r3 r2 0\n\
    0 same r2 r3\n\
    1 share 0 r9\n\
    0 take r2 0\n\
    0 same r2 r3\n";

/// Three mutators, one of them blocked for a while.
pub const THREE: &str = "moar-gc 1\n\
    mutators 3\n\
    type box 0 1\n\
    type pair 2 0\n\
    0 new r0 box\n\
    1 new r0 box\n\
    2 new r0 pair\n\
    0 share 0 r0\n\
    1 share 1 r0\n\
    2 take r1 0\n\
    2 take r2 1\n\
    2 put r0 0 r1\n\
    2 put r0 1 r2\n\
    2 share 2 r0\n\
    0 await r1 2\n\
    1 await r1 2\n\
    0 get r2 r1 1\n\
    1 get r2 r1 0\n\
    0 set r2 0 1\n\
    1 set r2 0 2\n\
    0 ask r0 0\n\
    1 ask r0 0\n\
    0 share 0 r2\n\
    2 take r3 0\n\
    2 same r2 r3\n\
    2 same r1 r3\n\
    1 block\n\
    0 put r1 0 r0\n\
    1 put r1 0 r0\n\
    2 get r4 r0 0\n\
    2 ask r4 0\n\
    1 unblock\n\
    1 put r1 0 r1\n\
    2 get r4 r0 0\n\
    2 ask r4 0\n\
    2 same r4 r0\n";

/// Eight mutators.
pub const EIGHT: &str = "moar-gc 1\n\
    mutators 8\n\
    type box 0 1\n\
    type fan 8 0\n\
    0 new r0 box\n\
    1 new r1 box\n\
    2 new r2 box\n\
    3 new r3 box\n\
    4 new r4 box\n\
    5 new r5 box\n\
    6 new r6 box\n\
    7 new r7 fan\n\
    7 share 7 r7\n\
    0 take r15 7\n\
    0 put r15 0 r0\n\
    1 take r15 7\n\
    1 put r15 1 r1\n\
    2 take r15 7\n\
    2 put r15 2 r2\n\
    3 await r15 7\n\
    3 put r15 3 r3\n\
    4 await r15 7\n\
    4 put r15 4 r4\n\
    5 take r15 7\n\
    5 put r15 5 r5\n\
    6 take r15 7\n\
    6 put r15 6 r6\n\
    6 set r6 0 66\n\
    3 set r3 0 33\n\
    7 get r0 r7 6\n\
    7 ask r0 0\n\
    7 get r0 r7 3\n\
    7 ask r0 0\n\
    7 get r0 r7 7\n\
    7 get r0 r7 8\n\
    0 get r1 r15 6\n\
    0 swap r1 0 66 1\n\
    6 ask r6 0\n\
    6 block\n\
    6 ask r6 0\n\
    0 ask r1 0\n\
    7 block\n\
    7 unblock\n\
    6 unblock\n\
    5 unblock\n\
    1 same r1 r2\n\
    1 copy r2 r1\n\
    1 same r1 r2\n";

/// A script of so many mutators, with all call words: so many times a call is drawn, or a few that go together. It uses the registers 0 to 3.
pub fn drawn_script(alloc: Global, mutators: u64, draws: u32) -> Result<String, AllocError>
    requires { 0 < mutators }
{
    let mut text = String::new(alloc);
    writeln!(text, "moar-gc 1\nmutators {mutators}")?;
    text.push_str(
        "type none 0 0\n\
         type box 0 1\n\
         type pair 2 0\n\
         type node 4 4\n",
    )?;
    let mut drawn = Drawn::make(1);
    for _ in 0..draws {
        let t = drawn.below(mutators);
        match drawn.below(50) {
            0 => writeln!(text, "{t} collect")?,
            1..=4 => push_link(&mut text, &mut drawn, t)?,
            5..=30 => push_field_call(&mut text, &mut drawn, t)?,
            _ => push_other_call(&mut text, &mut drawn, t)?,
        }
    }
    Ok(text)
}

/// A chain of each of three mutators, so many objects long, which the first then walks back to its end.
pub fn chains(alloc: Global, objects: u64) -> Result<String, AllocError> {
    let mut text = String::new(alloc);
    text.push_str(
        "moar-gc 1\n\
         mutators 3\n\
         type node 2 1\n",
    )?;
    for i in 0..objects {
        for t in 0..3u8 {
            writeln!(text, "{t} new r1 node")?;
            writeln!(text, "{t} set r1 0 {i}")?;
            writeln!(text, "{t} put r1 1 r0")?;
            writeln!(text, "{t} copy r0 r1")?;
        }
    }
    text.push_str("0 clear r1\n")?;
    for _ in 0..objects {
        writeln!(text, "0 ask r0 0")?;
        writeln!(text, "0 get r0 r0 1")?;
    }
    Ok(text)
}

/// Objects of the widest types, so many times one of each of eight mutators: every second has 62 slots, and the
/// others 62 numbers. Each slot is stored and loaded, and each number set and asked, by turns.
pub fn wide_objects(alloc: Global, rounds: u64) -> Result<String, AllocError> {
    let mut text = String::new(alloc);
    text.push_str(
        "moar-gc 1\n\
         mutators 8\n\
         type slots 62 0\n\
         type numbers 0 62\n",
    )?;
    for i in 0..rounds {
        let k = i % 62;
        for t in 0..8u64 {
            if (i % 2) == (t % 2) {
                writeln!(text, "{t} new r0 slots")?;
                writeln!(text, "{t} put r0 {k} r1")?;
                writeln!(text, "{t} get r2 r0 {k}")?;
                writeln!(text, "{t} same r1 r2")?;
            } else {
                writeln!(text, "{t} new r1 numbers")?;
                writeln!(text, "{t} set r1 {k} {i}")?;
                writeln!(text, "{t} share {t} r1")?;
                writeln!(text, "{t} take r3 {}", (t + 1) % 8)?;
                writeln!(text, "{t} ask r3 {k}")?;
            }
        }
    }
    Ok(text)
}

/// An object of 62 slots, which name 62 objects of 62 slots, of which each names an object of 62 numbers.
pub fn fan(alloc: Global) -> Result<String, AllocError> {
    let mut text = String::new(alloc);
    text.push_str(
        "moar-gc 1\n\
         mutators 1\n\
         type slots 62 0\n\
         type numbers 0 62\n\
         0 new r0 slots\n",
    )?;
    for i in 0..62u8 {
        writeln!(text, "0 new r1 slots\n0 put r0 {i} r1")?;
        for k in 0..62u8 {
            writeln!(text, "0 new r2 numbers\n0 put r1 {k} r2")?;
        }
    }
    Ok(text)
}

/// The numbers of a fixed sequence, which look as if they were drawn.
#[derive(Drop)]
pub struct Drawn {
    state: u64,
}

impl Drawn {
    /// The sequence that begins with this number.
    pub fn make(state: u64) -> Drawn {
        Drawn { state }
    }

    /// The next number below a bound.
    pub fn below(&mut self, bound: u64) -> u64
        requires { 0 < bound }
        ensures { result < bound }
    {
        self.state = self
            .state
            .wrapping_mul(6_364_136_223_846_793_005)
            .wrapping_add(1_442_695_040_888_963_407);
        (self.state >> 33) % bound
    }
}

/// A drawn name of a type; every second is a node.
fn drawn_type(drawn: &mut Drawn) -> &'static str {
    match drawn.below(6) {
        0 => "none",
        1 => "box",
        2 => "pair",
        _ => "node",
    }
}

/// Puts calls of this mutator behind a script that make a node, which names what a register names, and comes into its place.
/// So what is reachable grows.
fn push_link(text: &mut String, drawn: &mut Drawn, t: u64) -> Result<(), AllocError> {
    let (a, b, k) = (drawn.below(4), drawn.below(4), drawn.below(4));
    writeln!(
        text,
        "{t} new r{a} node\n{t} put r{a} {k} r{b}\n{t} copy r{b} r{a}"
    )
}

/// Puts a call of this mutator on an object behind a script: registers, a place and numbers are drawn.
fn push_field_call(text: &mut String, drawn: &mut Drawn, t: u64) -> Result<(), AllocError> {
    let (a, b) = (drawn.below(4), drawn.below(4));
    let (k, v, w) = (drawn.below(4), drawn.below(3), drawn.below(3));
    match drawn.below(6) {
        0 => writeln!(text, "{t} new r{a} {}", drawn_type(drawn)),
        1 => writeln!(text, "{t} get r{a} r{b} {k}"),
        2 => writeln!(text, "{t} put r{a} {k} r{b}"),
        3 => writeln!(text, "{t} ask r{a} {k}"),
        4 => writeln!(text, "{t} set r{a} {k} {v}"),
        _ => writeln!(text, "{t} swap r{a} {k} {v} {w}"),
    }
}

/// Puts a call of this mutator on registers or on the common object behind a script. Four draws of twelve
/// unblock, so that no mutator stays blocked for long.
fn push_other_call(text: &mut String, drawn: &mut Drawn, t: u64) -> Result<(), AllocError> {
    let (a, b, k) = (drawn.below(4), drawn.below(4), drawn.below(4));
    match drawn.below(12) {
        0 => writeln!(text, "{t} same r{a} r{b}"),
        1 => writeln!(text, "{t} copy r{a} r{b}"),
        2 => writeln!(text, "{t} clear r{a}"),
        3 => writeln!(text, "{t} share {k} r{a}"),
        4 => writeln!(text, "{t} take r{a} {k}"),
        5 => writeln!(text, "{t} await r{a} {k}"),
        6 => writeln!(text, "{t} safepoint"),
        7 => writeln!(text, "{t} block"),
        _ => writeln!(text, "{t} unblock"),
    }
}
