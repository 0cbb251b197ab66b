//! The summary of the replies: one line that says how many there are of each kind.

ghost use Rattle.std.specs.Prelude.{◌≡◌, ◌+◌, ◌≤◌, ◌++◌, length, decimal};
ghost use Rattle.gc_cli.specs.Summary.{tally_of, tally_text, summary_text};

use crate::text::{push, push_number};
use arrayvec::ArrayString;
use gc_model::Reply;

/// The most bytes of a summary: eight numbers of 20 digits, and 51 for the words beside them and the line's end.
const LONGEST_SUMMARY: usize = 211;

/// The line of a summary.
pub(crate) type SummaryLine = ArrayString<LONGEST_SUMMARY>;

/// How many replies there are, and how many of each kind: done, full, a number, yes, no with or without a number,
/// and a refusal; and the sum of the numbers modulo 2^64.
#[derive(Clone, Copy, Debug, PartialEq, Eq)]
pub(crate) struct Tally {
    calls: u64,
    done: u64,
    full: u64,
    numbers: u64,
    sum: u64,
    yes: u64,
    no: u64,
    refused: u64,
}

impl Tally {
    /// Of no reply.
    const EMPTY: Tally = Tally {
        calls: 0,
        done: 0,
        full: 0,
        numbers: 0,
        sum: 0,
        yes: 0,
        no: 0,
        refused: 0,
    };

    /// Of these replies, in one pass over them.
    fn of(replies: &[Reply]) -> Tally
        ensures { result ≡ tally_of replies.now }
    {
        let mut tally = Tally::EMPTY;
        for reply in replies {
            tally.calls += 1;
            match reply {
                Reply::Done => tally.done += 1,
                Reply::Full => tally.full += 1,
                Reply::Number(number) => {
                    tally.numbers += 1;
                    tally.sum = tally.sum.wrapping_add(*number);
                }
                Reply::Yes => tally.yes += 1,
                Reply::No | Reply::Found(_) => tally.no += 1,
                Reply::Nil | Reply::NilBase | Reply::Range | Reply::Blocked | Reply::NotBlocked =>
                    tally.refused += 1,
            }
        }
        tally
    }

    /// Its line: each number behind its word.
    fn line(&self) -> SummaryLine
        ensures { result.bytes ≡ tally_text self.now }
    {
        let mut line = ArrayString::new();
        push_count(&mut line, "calls ", self.calls);
        push_count(&mut line, " done ", self.done);
        push_count(&mut line, " full ", self.full);
        push_count(&mut line, " numbers ", self.numbers);
        push_count(&mut line, " sum ", self.sum);
        push_count(&mut line, " yes ", self.yes);
        push_count(&mut line, " no ", self.no);
        push_count(&mut line, " refused ", self.refused);
        push(&mut line, "\n");
        line
    }
}

/// The line that stands in place of the replies. It takes no memory.
pub(crate) fn summary_line(replies: &[Reply]) -> SummaryLine
    ensures { result.bytes ≡ summary_text replies.now }
{
    Tally::of(replies).line()
}

/// A number behind its word, behind what stands there.
fn push_count(line: &mut SummaryLine, word: &str, number: u64)
    requires { length line.old.bytes + length word.now + 20 ≤ 211 }
    ensures text { line.new.bytes ≡ line.old.bytes ++ word.now ++ decimal number }
    ensures short { length line.new.bytes ≤ length line.old.bytes + length word.now + 20 }
{
    push(line, word);
    push_number(line, number);
}
