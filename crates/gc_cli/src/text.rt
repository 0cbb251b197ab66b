//! The text of a line: of a reply, of a collection's report, and of a status. A line is made whole before it is
//! written.

ghost use Rattle.std.specs.Prelude.{◌≡◌, [], ◌+◌, ◌≤◌, ◌++◌, length, decimal};
ghost use Rattle.gc_cli.specs.Text.{reply_text, reply_line, report_text, report_line};
ghost use Rattle.gc_cli.specs.Command.{status_line, cause_text};
ghost use Rattle.gc_cli.specs.declared.status.Status.TheVariants.{Bad};

use crate::status::Status;
use arrayvec::ArrayString;
use gc_model::{Reply, RunReport};
use itoa::Buffer;

/// The most bytes of a line: more than three numbers of 20 digits and the words beside them take.
const LONGEST_LINE: usize = 96;

/// A line of the output.
pub(crate) type TextLine = ArrayString<LONGEST_LINE>;

/// A line of the output: the line's number, a space, the reply's text.
pub(crate) fn reply_line(number: u32, reply: &Reply) -> TextLine
    ensures { result.bytes ≡ reply_line number reply.now }
{
    let mut line = ArrayString::new();
    push_number(&mut line, u64::from(number));
    push(&mut line, " ");
    push_reply(&mut line, reply);
    push(&mut line, "\n");
    line
}

/// The text of a reply, behind what stands there.
fn push_reply(line: &mut TextLine, reply: &Reply)
    requires { length line.old.bytes ≤ 32 }
    ensures text { line.new.bytes ≡ line.old.bytes ++ reply_text reply.now }
    ensures short { length line.new.bytes ≤ length line.old.bytes + 23 }
{
    match reply {
        Reply::Done => push(line, "done"),
        Reply::Full => push(line, "full"),
        Reply::Number(number) => push_number(line, *number),
        Reply::Yes => push(line, "yes"),
        Reply::No => push(line, "no"),
        Reply::Found(number) => {
            push(line, "no ");
            push_number(line, *number);
        }
        Reply::Nil => push(line, "nil"),
        Reply::NilBase => push(line, "nil base"),
        Reply::Range => push(line, "range"),
        Reply::Blocked => push(line, "blocked"),
        Reply::NotBlocked => push(line, "not blocked"),
    }
}

/// A line of the reports: `run`, the collection's number, a space, the report's text.
pub(crate) fn report_line(number: u64, report: &RunReport) -> TextLine
    ensures { result.bytes ≡ report_line number report.now }
{
    let mut line = ArrayString::new();
    push(&mut line, "run ");
    push_number(&mut line, number);
    push(&mut line, " ");
    push_report(&mut line, report);
    push(&mut line, "\n");
    line
}

/// The text of a collection's report, behind what stands there.
fn push_report(line: &mut TextLine, report: &RunReport)
    requires { length line.old.bytes ≤ 32 }
    ensures text { line.new.bytes ≡ line.old.bytes ++ report_text report.now }
    ensures short { length line.new.bytes ≤ length line.old.bytes + 60 }
{
    match report {
        RunReport::Minor => push(line, "minor"),
        RunReport::Full { objects, words } => {
            push(line, "full objects ");
            push_number(line, *objects);
            push(line, " words ");
            push_number(line, *words);
        }
    }
}

/// The line of a status on standard error; nothing for Done.
pub(crate) fn status_line(status: Status) -> TextLine
    ensures { result.bytes ≡ status_line status }
{
    let mut line = ArrayString::new();
    match status {
        Status::Done => {}
        Status::Usage => push(&mut line, "moar_gc: usage\n"),
        Status::Bad {
            line: number,
            cause,
        } => push_bad(&mut line, number, cause),
        Status::Long => push(&mut line, "moar_gc: script too long\n"),
        Status::ReadFault => push(&mut line, "moar_gc: read fault\n"),
        Status::WriteFault => push(&mut line, "moar_gc: write fault\n"),
        Status::NoMemory => push(&mut line, "moar_gc: no memory\n"),
    }
    line
}

/// The first bad line and the cause of its first failing test, on an empty line.
fn push_bad(line: &mut TextLine, number: u32, cause: u8)
    requires { line.old.bytes ≡ [] }
    ensures { line.new.bytes ≡ status_line (Bad number cause) }
{
    push(line, "moar_gc: line ");
    push_number(line, u64::from(number));
    push(line, ": ");
    push(line, cause_text(cause));
    push(line, "\n");
}

/// The word of a cause, by its number.
fn cause_text(cause: u8) -> &'static str
    ensures text { result.now ≡ cause_text cause }
    ensures short { length result.now ≤ 9 }
{
    match cause {
        1 => "version",
        2 => "word",
        3 => "number",
        4 => "register",
        5 => "type",
        6 => "mutator",
        _ => "duplicate",
    }
}

/// A number in decimal, behind what stands there.
pub(crate) fn push_number<const CAP: usize>(line: &mut ArrayString<CAP>, number: u64)
    requires { length line.old.bytes + 20 ≤ CAP }
    ensures text { line.new.bytes ≡ line.old.bytes ++ decimal number }
    ensures short { length (decimal number) ≤ 20 }
{
    let mut buffer = Buffer::new();
    push(line, buffer.format(number));
}

/// A text, behind what stands there.
pub(crate) fn push<const CAP: usize>(line: &mut ArrayString<CAP>, text: &str)
    requires { length line.old.bytes + length text.now ≤ CAP }
    ensures { line.new.bytes ≡ line.old.bytes ++ text.now }
{
    let _ = line.try_push_str(text);
}
