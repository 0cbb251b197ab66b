//! Plays a script: each line's call in the order of the text, and then the End of each mutator.
ghost use Rattle.std.specs.Prelude.{◌≡◌, ◌+◌, ◌<◌, ◌≤◌, [], length, sum_by, take, IfOk, slice_get, Some};
ghost use Rattle.gc_model.specs.History.{History, allowance_of, ends_of, replies_by_line};
ghost use Rattle.gc_model.specs.declared.call.Line.{Line as CallLine};
ghost use Rattle.gc_solo.specs.Kept.{IsSameHeap};
ghost use Rattle.gc_solo.specs.Stands.{HasCalled, StandsFor};
ghost use Rattle.gc_cli.specs.Played.{AreAllowed, HasMade, HasPlayed, IsHeapOf, IsHistoryOf, IsInOrder, heap_for};

use crate::opts::Opts;
use crate::replies::Replies;
use gc_layout::{NoMemory, Places};
use gc_model::{Call, Line, Reply};
use gc_script::Script;
use gc_solo::Solo;
use std::alloc::Global;

/// A script that was played: the heap on which it was, and the replies to its lines.
#[derive(Drop)]
pub(crate) struct Played {
    pub(crate) solo: Solo,
    pub(crate) replies: Replies,
}

/// Plays a script on a heap of its own. All memory is taken before the first line is played.
pub(crate) fn play(alloc: Global, opts: &Opts, script: &Script) -> Result<Played, NoMemory>
    requires { AreAllowed opts.now }
    ensures played { IfOk result (λ played. (history : History) × IsHistoryOf opts.now script.now history
        × IsHeapOf played.solo (heap_for opts.now script.now) history
        × IsInOrder script.now history
        × (played.replies.list ≡ replies_by_line history [] script.now.lines)) }
    ensures answered { IfOk result (λ played. length played.replies.list ≡ length script.now.lines) }
{
    let places = Places::make(script.mutators(), opts.nursery, opts.pages).unwrap();
    let mut solo = Solo::make(alloc, places, script.types(), allowance(script))?;
    let mut replies = Replies::make(alloc, script.count())?;
    play_lines(&mut solo, script, &mut replies);
    Ok(Played { solo, replies })
}

/// How many collections the lines of a script may bring: two for each New, and one for each Collect.
fn allowance(script: &Script) -> u32
    ensures { result ≡ sum_by (λ line. allowance_of line.call) script.now.lines }
{
    let mut sum = 0;
    for index in 0..script.count() {
        // Taken apart, since the prover has to be shown the type of the call here.
        let Line { call, .. } = script.line(index).unwrap();
        sum += call.allowance();
    }
    sum
}

/// Makes each line's call in the order of the text and appends its reply, and then makes the End of each mutator
/// in order of number. Whatever history the heap stood for, it stands afterwards for that one and these calls, with
/// the collections that they brought. It takes no memory: there are report places for all collections that the
/// lines may bring, and room for their replies.
pub fn play_lines(solo: &mut Solo, script: &Script, replies: &mut Replies)
    requires types { solo.old.types ≡ script.now.preamble.types }
    requires mutators { solo.old.layout.mutators ≡ script.now.preamble.mutators }
    requires reports { sum_by (λ line. allowance_of line.call) script.now.lines ≤ solo.old.room }
    requires empty { replies.old.list ≡ [] }
    requires room { length script.now.lines ≤ replies.old.room }
    ensures played { (history : History) → StandsFor solo.old history
        → (more : History) × HasPlayed solo.new script.now replies.new.list history more }
    ensures same { IsSameHeap solo.old solo.new }
    ensures answered { length replies.new.list ≡ length script.now.lines }
{
    for index in 0..script.count() {
        replies.push(play_line(solo, script, index));
    }
    end_all(solo, script.mutators());
}

/// Plays a line of the script, counted from 0.
fn play_line(solo: &mut Solo, script: &Script, index: usize) -> Reply
    requires types { solo.old.types ≡ script.now.preamble.types }
    requires mutators { solo.old.layout.mutators ≡ script.now.preamble.mutators }
    requires there { index < length script.now.lines }
    requires reports { (line : CallLine) → slice_get script.now.lines index ≡ Some line → allowance_of line.call ≤ solo.old.room }
    ensures stands { (history : History) (line : CallLine) → StandsFor solo.old history
        → slice_get script.now.lines index ≡ Some line
        → HasCalled solo.old solo.new history line.mutator line.call result }
    ensures same { IsSameHeap solo.old solo.new }
    ensures room { (line : CallLine) → slice_get script.now.lines index ≡ Some line
        → solo.old.room ≤ solo.new.room + allowance_of line.call }
{
    // Taken apart, since the prover has to be shown the type of the call here.
    let Line { mutator, call } = script.line(index).unwrap();
    solo.call(mutator, &call)
}

/// Makes the End of each mutator, in order of number.
fn end_all(solo: &mut Solo, mutators: u8)
    requires mutators { solo.old.layout.mutators ≡ mutators }
    ensures ended { (history : History) → StandsFor solo.old history
        → (more : History) × HasMade solo.new history more (ends_of mutators) }
    ensures same { IsSameHeap solo.old solo.new }
{
    for mutator in 0..mutators {
        solo.call(mutator, &Call::End);
    }
}
