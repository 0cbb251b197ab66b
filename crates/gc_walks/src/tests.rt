//! Scripts that are played on the graph and on the program, and drawn ones that are played on the heap, too, and walked. The
//! graph has room for each object, so where its replies alone are looked at the heaps are such that the program has it, too.

ghost use Rattle.std.specs.Prelude.{◌≤◌};
ghost use Rattle.gc_cli.specs.Played.{AreAllowed};

use crate::graph::Graph;
use crate::pair::Pair;
use crate::scripts::{EIGHT, ONE, THREE, TWO, chains, drawn_script, fan, wide_objects};
use crate::walk::walk_all;
use gc_cli::{Opts, Status, play_bytes};
use gc_io::{MemorySink, SteadySource};
use gc_model::{Call, Live, Reply, RunReport};
use gc_script::read_script;
use std::alloc::{AllocError, Global};
use std::fmt::Write;
use std::process::Abort;
use std::test::Fail;

/// The most bytes that a script prints here.
const MOST_PRINTED: usize = 4_194_304;

/// The greatest heap.
const GREATEST: Opts = Opts {
    nursery: 65_536,
    pages: 128,
    ..Opts::DEFAULT
};

/// The words of the halves on which scripts are played: the fewest, in which collections come often, some more, and as
/// many as there are where no option says otherwise.
const HALVES: [u32; 4] = [64, 65, 100, 4096];

/// How often calls are drawn for a script.
const DRAWS: u32 = 2000;

/// The options that ask for halves of so many words, and for 64 pages. An object takes at most one cell. A written script
/// makes few objects of at most two types, which have room in 2 pages. A drawn one makes at most 2,000: as many cells of
/// class 4 are 8 pages, and of class 12 they are 24. So no object is refused.
fn roomy(nursery: u32) -> Opts
    requires least { 64 ≤ nursery }
    requires most { nursery ≤ 65536 }
    ensures { AreAllowed result }
{
    Opts {
        nursery,
        pages: 64,
        reports: false,
        ..Opts::DEFAULT
    }
}

/// What a script that is played to its end prints.
fn printed<R: Abort + AllocGlobal>(rt: &R, script: &[u8], opts: &Opts) -> Result<MemorySink, Fail>
    requires { AreAllowed opts.now }
{
    let alloc = rt.alloc();
    let mut src = SteadySource::make(script.to_vec(alloc)?);
    let mut out = MemorySink::make(alloc, MOST_PRINTED, Vec::new(alloc))?;
    let outcome = play_bytes(alloc, opts, &mut src, &mut out);
    assert_eq!(rt; outcome.status, Status::Done);
    Ok(out)
}

/// Puts the printed line of a reply behind a text.
fn push_reply(text: &mut String, number: u32, reply: Reply) -> Result<(), AllocError> {
    match reply {
        Reply::Done => writeln!(text, "{number} done"),
        Reply::Full => writeln!(text, "{number} full"),
        Reply::Number(there) => writeln!(text, "{number} {there}"),
        Reply::Yes => writeln!(text, "{number} yes"),
        Reply::No => writeln!(text, "{number} no"),
        Reply::Found(there) => writeln!(text, "{number} no {there}"),
        Reply::Nil => writeln!(text, "{number} nil"),
        Reply::NilBase => writeln!(text, "{number} nil base"),
        Reply::Range => writeln!(text, "{number} range"),
        Reply::Blocked => writeln!(text, "{number} blocked"),
        Reply::NotBlocked => writeln!(text, "{number} not blocked"),
    }
}

/// Puts the printed line of a report, counted from 1, behind a text.
fn push_report(text: &mut String, number: usize, report: RunReport) -> Result<(), AllocError> {
    match report {
        RunReport::Minor => writeln!(text, "run {number} minor"),
        RunReport::Full { objects, words } => {
            writeln!(text, "run {number} full objects {objects} words {words}")
        }
    }
}

/// What the graph replies to a script, as it is to be printed, where each new object has room; and what is reachable
/// behind it.
fn graph_text(alloc: Global, script: &[u8]) -> Result<(String, Live), Fail> {
    let script = read_script(alloc, script)?;
    let mut graph = Graph::make(alloc, &script)?;
    let mut text = String::new(alloc);
    for index in 0..script.count() {
        let number = script.line_number(index);
        if let (Some(number), Some(reply)) = (number, graph.reply_to_line(alloc, index)?) {
            push_reply(&mut text, number, reply)?;
        }
    }
    Ok((text, graph.live(alloc)?))
}

/// Plays a script on the program, on the heap that these options ask for, and on the graph.
fn check<R: Abort + AllocGlobal>(rt: &R, name: &str, script: &str, opts: &Opts) -> Result<(), Fail>
    requires { AreAllowed opts.now }
{
    let out = printed(rt, script.as_bytes(), opts)?;
    let (text, _) = graph_text(rt.alloc(), script.as_bytes())?;
    let half = opts.nursery;
    assert!(rt;
        out.bytes() == text.as_bytes(),
        "{name}, with halves of {half} words"
    );
    Ok(())
}

/// Plays a script on the program, with halves of each of some numbers of words, and on the graph.
fn check_halves<R: Abort + AllocGlobal>(rt: &R, name: &str, script: &str) -> Result<(), Fail> {
    for half in HALVES {
        assert!(rt; 64 <= half && half <= 65_536);
        check(rt, name, script, &roomy(half))?;
    }
    Ok(())
}

/// The replies of the heap and of the graph to a script, which are the same, and then the heap's reports, as they are to be
/// printed. Both are walked after each call that brought a collection.
fn walked_text<R: Abort + AllocGlobal>(rt: &R, script: &[u8], opts: &Opts) -> Result<String, Fail>
    requires { AreAllowed opts.now }
{
    let alloc = rt.alloc();
    let script = read_script(alloc, script)?;
    let mut pair = Pair::make(alloc, &script, opts)?;
    let mut text = String::new(alloc);
    for index in 0..script.count() {
        let before = pair.reports().len();
        let number = script.line_number(index);
        if let (Some(number), Some(reply)) = (number, pair.play_line(rt, index)?) {
            push_reply(&mut text, number, reply)?;
        }
        if pair.reports().len() > before {
            walk_all(rt, &mut pair)?;
        }
    }
    assert!(rt; !pair.reports().is_empty());
    for (index, report) in pair.reports().iter().enumerate() {
        push_report(&mut text, index.saturating_add(1), *report)?;
    }
    Ok(text)
}

#[test]
fn the_graph_replies_as_the_program_prints(rt: HostRuntime) -> Result<(), Fail> {
    for (name, script) in [
        ("nothing", "moar-gc 1\nmutators 8\n"),
        ("one mutator", ONE),
        ("two mutators", TWO),
        ("three mutators", THREE),
        ("eight mutators", EIGHT),
    ] {
        check_halves(&rt, name, script)?;
    }
    Ok(())
}

/// Plays drawn scripts of each number of mutators. With 64 pages the graph has room for each object. With fewer it is told
/// where the heap has room, and both are walked.
fn check_drawn<R: Abort + AllocGlobal>(rt: &R, nursery: u32, pages: u16) -> Result<(), Fail>
    requires least { 64 ≤ nursery }
    requires most { nursery ≤ 65536 }
    requires some { 1 ≤ pages }
    requires few { pages ≤ 128 }
{
    for mutators in 1..=8u64 {
        let script = drawn_script(rt.alloc(), mutators, DRAWS)?;
        let name = format!(in rt.alloc(); "a drawn script of {mutators}")?;
        check(rt, name.as_str(), script.as_str(), &roomy(nursery))?;
        let opts = Opts {
            nursery,
            pages,
            reports: true,
            ..Opts::DEFAULT
        };
        let text = walked_text(rt, script.as_bytes(), &opts)?;
        let out = printed(rt, script.as_bytes(), &opts)?;
        assert!(rt;
            out.bytes() == text.as_bytes(),
            "{name}, with halves of {nursery} words"
        );
    }
    Ok(())
}

/// With one free page of a mutator the two classes of objects contend for it, so that some find no place.
#[test]
fn drawn_scripts_are_walked_with_the_smallest_halves(rt: HostRuntime) -> Result<(), Fail> {
    check_drawn(&rt, 64, 2)
}

#[test]
fn drawn_scripts_are_walked_with_halves_of_65_words(rt: HostRuntime) -> Result<(), Fail> {
    check_drawn(&rt, 65, 3)
}

#[test]
fn drawn_scripts_are_walked_with_halves_of_100_words(rt: HostRuntime) -> Result<(), Fail> {
    check_drawn(&rt, 100, 64)
}

/// Such a half is never full here, so that all collections are those that are asked for.
#[test]
fn drawn_scripts_are_walked_with_halves_of_4096_words(rt: HostRuntime) -> Result<(), Fail> {
    check_drawn(&rt, 4096, 2)
}

/// Mutator 0 names two boxes of 3 words, of which mutator 1 names one, too, and one more; mutator 2 names another one. Once
/// mutator 1 has ended, and while mutator 2 is blocked, three boxes are reachable, and the common object. The second collection
/// promotes them.
#[test]
fn what_an_ended_mutator_named_goes_and_what_a_blocked_one_names_stays(
    rt: HostRuntime,
) -> Result<(), Fail> {
    let script = "moar-gc 1\nmutators 3\ntype box 0 1\n\
        0 new r0 box\n1 new r0 box\n1 new r1 box\n1 share 0 r1\n0 take r1 0\n0 share 0 r9\n\
        2 new r0 box\n2 set r0 0 5\n2 block\n";
    let script = read_script(rt.alloc(), script.as_bytes())?;
    let mut pair = Pair::make(rt.alloc(), &script, &roomy(64))?;
    for index in 0..script.count() {
        pair.play_line(&rt, index)?;
    }
    pair.call(&rt, 1, &Call::End)?;
    for _ in 0..3 {
        pair.call(&rt, 0, &Call::Collect)?;
        let counted = RunReport::Full {
            objects: 4,
            words: 27,
        };
        assert_eq!(rt; pair.reports().last().copied(), Some(counted));
        walk_all(&rt, &mut pair)?;
    }
    Ok(())
}

#[test]
fn the_graph_replies_as_the_program_prints_of_thousands_of_objects(
    rt: HostRuntime,
) -> Result<(), Fail> {
    // A chain has 25,000 words, so it has room in the greatest half.
    let script = chains(rt.alloc(), 5000)?;
    check(&rt, "three chains", script.as_str(), &GREATEST)?;

    // Each of these has 5,000 words, so it is collected, in the smallest half some hundred times. As many cells of
    // class 8 as it has nodes are 8 pages.
    let script = chains(rt.alloc(), 1000)?;
    check_halves(&rt, "three chains", script.as_str())
}

#[test]
fn the_graph_replies_as_the_program_prints_of_the_widest_objects(
    rt: HostRuntime,
) -> Result<(), Fail> {
    // A half has room for 1,024 of them, so the last rounds come behind a collection. In halves of 4,096 words, which
    // have room for 64, most do. All that is needed was made in the last 8 rounds, and a mutator makes one object a
    // round. So a collection leaves at most 8 of them in a half, and no object is refused.
    let script = wide_objects(rt.alloc(), 1030)?;
    check(&rt, "wide objects", script.as_str(), &GREATEST)?;
    check(&rt, "wide objects", script.as_str(), &roomy(4096))
}

#[test]
fn a_drawn_script_brings_each_reply(rt: HostRuntime) -> Result<(), Fail> {
    let script = drawn_script(rt.alloc(), 4, DRAWS)?;
    let (text, _) = graph_text(rt.alloc(), script.as_bytes())?;
    for reply in [
        " done\n",
        " 2\n",
        " yes\n",
        " no\n",
        " no 2\n",
        " nil\n",
        " nil base\n",
        " range\n",
        " blocked\n",
        " not blocked\n",
    ] {
        assert!(rt; text.contains(reply), "no reply{reply:?}");
    }
    Ok(())
}

#[test]
fn thousands_of_objects_are_counted(rt: HostRuntime) -> Result<(), Fail> {
    // Two chains are reachable, and of the one that was walked back its last node; a node has 5 words, and the
    // common object 18.
    let (_, live) = graph_text(rt.alloc(), chains(rt.alloc(), 5000)?.as_bytes())?;
    assert_eq!(rt; live.objects, 10_002);
    assert_eq!(rt; live.words, 50_023);

    // One, 62 and 3,844 objects of 64 words each.
    let (_, live) = graph_text(rt.alloc(), fan(rt.alloc())?.as_bytes())?;
    assert_eq!(rt; live.objects, 3908);
    assert_eq!(rt; live.words, 250_066);
    Ok(())
}
