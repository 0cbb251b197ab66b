//! Writing the replies or their summary, and behind them the reports where they are asked for, one piece a line.

ghost use Rattle.std.specs.Prelude.{◌≡◌, ◌+◌, ◌<◌, ◌≤◌, length, slice_get, Some};
ghost use Rattle.gc_io.specs.Faults.{HasRisen};
ghost use Rattle.gc_io.specs.Streams.{Appends, AppendsPrefix};
ghost use Rattle.gc_model.specs.declared.entry.RunReport.{RunReport as Report};
ghost use Rattle.gc_model.specs.declared.reply.Reply.{Reply as GraphReply};
ghost use Rattle.gc_script.specs.Script.{number_of_line};
ghost use Rattle.gc_script.specs.Text.{most_bytes};
ghost use Rattle.gc_cli.specs.Summary.{summary_text};
ghost use Rattle.gc_cli.specs.Text.{printed_text, replies_text, reply_line, report_line, reports_text, summary_or_replies};

use crate::opts::Opts;
use crate::summary::summary_line;
use crate::text::{reply_line, report_line};
use gc_io::{Put, Sink};
use gc_model::{Reply, RunReport};
use gc_script::Heading;

/// Writes the replies to the lines of a script, or their summary where the options ask for it, and, where the
/// options ask for them, the reports of the collections behind them, one piece a line, and stops at the first fault.
/// It takes no memory.
#[tactic(auto, unfolding(crate::specs::Text::printed_text))]
pub(crate) fn write_text<K: Sink>(
    opts: &Opts,
    heading: &Heading,
    replies: &[Reply],
    reports: &[RunReport],
    out: &mut K,
) -> Put
    requires { length replies.now ≤ most_bytes }
    ensures all { result ≡ Put.All → Appends (K.written out.old) (K.written out.new)
        (printed_text opts.now heading.now replies.now reports.now) }
    ensures quiet { result ≡ Put.All → K.faults out.new ≡ K.faults out.old }
    ensures failed { result ≡ Put.Failed → HasRisen (K.faults out.old) (K.faults out.new) }
    ensures part { result ≡ Put.Failed → AppendsPrefix (K.written out.old) (K.written out.new)
        (printed_text opts.now heading.now replies.now reports.now) }
    ensures never_falls { K.faults out.old ≤ K.faults out.new }
{
    match write_summary_or_replies(opts, heading, replies, out) {
        Put::All if opts.reports => write_reports(reports, out),
        put => put,
    }
}

/// Writes the summary of the replies where the options ask for it, or the replies to the lines of a script.
fn write_summary_or_replies<K: Sink>(
    opts: &Opts,
    heading: &Heading,
    replies: &[Reply],
    out: &mut K,
) -> Put
    requires { length replies.now ≤ most_bytes }
    ensures all { result ≡ Put.All
        → Appends (K.written out.old) (K.written out.new) (summary_or_replies opts.now heading.now replies.now) }
    ensures quiet { result ≡ Put.All → K.faults out.new ≡ K.faults out.old }
    ensures failed { result ≡ Put.Failed → HasRisen (K.faults out.old) (K.faults out.new) }
    ensures part { result ≡ Put.Failed
        → AppendsPrefix (K.written out.old) (K.written out.new) (summary_or_replies opts.now heading.now replies.now) }
    ensures never_falls { K.faults out.old ≤ K.faults out.new }
{
    if opts.summary {
        write_summary(replies, out)
    } else {
        write_replies(heading, replies, out)
    }
}

/// Writes the summary of the replies as one piece. It takes no memory.
fn write_summary<K: Sink>(replies: &[Reply], out: &mut K) -> Put
    ensures all { result ≡ Put.All
        → Appends (K.written out.old) (K.written out.new) (summary_text replies.now) }
    ensures quiet { result ≡ Put.All → K.faults out.new ≡ K.faults out.old }
    ensures failed { result ≡ Put.Failed → HasRisen (K.faults out.old) (K.faults out.new) }
    ensures part { result ≡ Put.Failed
        → AppendsPrefix (K.written out.old) (K.written out.new) (summary_text replies.now) }
    ensures never_falls { K.faults out.old ≤ K.faults out.new }
{
    let line = summary_line(replies);
    out.put(line.as_bytes())
}

/// Writes the replies to the lines of a script, one piece a line, and stops at the first fault. It takes
/// no memory.
fn write_replies<K: Sink>(heading: &Heading, replies: &[Reply], out: &mut K) -> Put
    requires { length replies.now ≤ most_bytes }
    ensures all { result ≡ Put.All
        → Appends (K.written out.old) (K.written out.new) (replies_text heading.now replies.now) }
    ensures quiet { result ≡ Put.All → K.faults out.new ≡ K.faults out.old }
    ensures failed { result ≡ Put.Failed → HasRisen (K.faults out.old) (K.faults out.new) }
    ensures part { result ≡ Put.Failed
        → AppendsPrefix (K.written out.old) (K.written out.new) (replies_text heading.now replies.now) }
    ensures never_falls { K.faults out.old ≤ K.faults out.new }
{
    for index in 0..replies.len() {
        match write_reply(heading, replies, index, out) {
            Put::All => {}
            Put::Failed => return Put::Failed,
        }
    }
    Put::All
}

/// Writes the reply to a line, counted from 0.
fn write_reply<K: Sink>(heading: &Heading, replies: &[Reply], index: usize, out: &mut K) -> Put
    requires there { index < length replies.now }
    requires few { length replies.now ≤ most_bytes }
    ensures all { (reply : GraphReply) → slice_get replies.now index ≡ Some reply → result ≡ Put.All
        → Appends (K.written out.old) (K.written out.new) (reply_line (number_of_line heading.now index) reply) }
    ensures quiet { result ≡ Put.All → K.faults out.new ≡ K.faults out.old }
    ensures failed { result ≡ Put.Failed → HasRisen (K.faults out.old) (K.faults out.new) }
    ensures part { (reply : GraphReply) → slice_get replies.now index ≡ Some reply → result ≡ Put.Failed
        → AppendsPrefix (K.written out.old) (K.written out.new) (reply_line (number_of_line heading.now index) reply) }
    ensures never_falls { K.faults out.old ≤ K.faults out.new }
{
    let number = heading.first_line() + index as u32;
    let line = reply_line(number, &replies[index]);
    out.put(line.as_bytes())
}

/// Writes the reports of collections, which are counted from 1, one piece a line, and stops at the first fault. It
/// takes no memory.
pub fn write_reports<K: Sink>(reports: &[RunReport], out: &mut K) -> Put
    ensures all { result ≡ Put.All
        → Appends (K.written out.old) (K.written out.new) (reports_text reports.now) }
    ensures quiet { result ≡ Put.All → K.faults out.new ≡ K.faults out.old }
    ensures failed { result ≡ Put.Failed → HasRisen (K.faults out.old) (K.faults out.new) }
    ensures part { result ≡ Put.Failed
        → AppendsPrefix (K.written out.old) (K.written out.new) (reports_text reports.now) }
    ensures never_falls { K.faults out.old ≤ K.faults out.new }
{
    for index in 0..reports.len() {
        match write_report(reports, index, out) {
            Put::All => {}
            Put::Failed => return Put::Failed,
        }
    }
    Put::All
}

/// Writes a report by its place, counted from 0. The number that is printed is counted from 1.
fn write_report<K: Sink>(reports: &[RunReport], index: usize, out: &mut K) -> Put
    requires { index < length reports.now }
    ensures all { (report : Report) → slice_get reports.now index ≡ Some report → result ≡ Put.All
        → Appends (K.written out.old) (K.written out.new) (report_line (index + 1) report) }
    ensures quiet { result ≡ Put.All → K.faults out.new ≡ K.faults out.old }
    ensures failed { result ≡ Put.Failed → HasRisen (K.faults out.old) (K.faults out.new) }
    ensures part { (report : Report) → slice_get reports.now index ≡ Some report → result ≡ Put.Failed
        → AppendsPrefix (K.written out.old) (K.written out.new) (report_line (index + 1) report) }
    ensures never_falls { K.faults out.old ≤ K.faults out.new }
{
    let line = report_line(index as u64 + 1, &reports[index]);
    out.put(line.as_bytes())
}
