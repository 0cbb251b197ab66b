//! Writing a script in its one spelling, a line a piece: the version line, the line of the mutators, the type lines,
//! and the call lines. What stays true in each loop is that the sink got the lines so far, and that they and the text
//! of those that are left are the whole text.

ghost use Rattle.std.specs.Prelude.{◌≡◌, ◌+◌, ◌<◌, ◌≤◌, [], length, flat_map, slice_get, slice_index_or, IfSome};
ghost use Rattle.gc_io.specs.Faults.{HasRisen};
ghost use Rattle.gc_io.specs.Streams.{Appends, AppendsPrefix};
ghost use Rattle.gc_layout.specs.Shape.{common_shape};
ghost use Rattle.gc_script.specs.Laws.{IsReadBack};
ghost use Rattle.gc_script.specs.Written.{written, preamble_text, head_text, types_text, type_text, call_text, declared_shapes};

use crate::preamble::Preamble;
use crate::script::Script;
use crate::spelling::{SpelledLine, call_text, mutators_text, type_text};
use gc_io::{Put, Sink};
use gc_model::Line;

/// Writes a script in its one spelling: single spaces, no needless zeros, and a newline behind each line.
/// What is written is read as the script. Each line is one piece, and the first fault ends the writing. It takes no
/// memory.
pub fn write_script<K: Sink>(s: &Script, out: &mut K) -> Put
    ensures all { result ≡ Put.All → Appends (K.written out.old) (K.written out.new) (written s.now) }
    ensures failed { result ≡ Put.Failed → HasRisen (K.faults out.old) (K.faults out.new) }
    ensures part { result ≡ Put.Failed → AppendsPrefix (K.written out.old) (K.written out.new) (written s.now) }
    ensures read_back { IsReadBack s.now }
    ensures quiet { result ≡ Put.All → K.faults out.new ≡ K.faults out.old }
    ensures never_falls { K.faults out.old ≤ K.faults out.new }
{
    match write_preamble(s.preamble(), out) {
        Put::All => write_calls(s, out),
        Put::Failed => Put::Failed,
    }
}

/// Writes what stands before the call lines.
fn write_preamble<K: Sink>(preamble: &Preamble, out: &mut K) -> Put
    ensures all { result ≡ Put.All
        → Appends (K.written out.old) (K.written out.new) (preamble_text preamble.now) }
    ensures failed { result ≡ Put.Failed → HasRisen (K.faults out.old) (K.faults out.new) }
    ensures part { result ≡ Put.Failed
        → AppendsPrefix (K.written out.old) (K.written out.new) (preamble_text preamble.now) }
    ensures quiet { result ≡ Put.All → K.faults out.new ≡ K.faults out.old }
    ensures never_falls { K.faults out.old ≤ K.faults out.new }
{
    match write_head(preamble.mutators(), out) {
        Put::All => write_types(preamble, out),
        Put::Failed => Put::Failed,
    }
}

/// Writes the version line and the line of the mutators.
fn write_head<K: Sink>(mutators: u8, out: &mut K) -> Put
    ensures all { result ≡ Put.All
        → Appends (K.written out.old) (K.written out.new) (head_text mutators) }
    ensures failed { result ≡ Put.Failed → HasRisen (K.faults out.old) (K.faults out.new) }
    ensures part { result ≡ Put.Failed
        → AppendsPrefix (K.written out.old) (K.written out.new) (head_text mutators) }
    ensures quiet { result ≡ Put.All → K.faults out.new ≡ K.faults out.old }
    ensures never_falls { K.faults out.old ≤ K.faults out.new }
{
    match out.put(b"moar-gc 1\n") {
        Put::All => out.put(mutators_text(mutators).as_slice()),
        Put::Failed => Put::Failed,
    }
}

/// Writes the type lines.
fn write_types<K: Sink>(preamble: &Preamble, out: &mut K) -> Put
    ensures all { result ≡ Put.All
        → Appends (K.written out.old) (K.written out.new) (types_text preamble.now.names (declared_shapes preamble.now.types)) }
    ensures failed { result ≡ Put.Failed → HasRisen (K.faults out.old) (K.faults out.new) }
    ensures part { result ≡ Put.Failed
        → AppendsPrefix (K.written out.old) (K.written out.new) (types_text preamble.now.names (declared_shapes preamble.now.types)) }
    ensures quiet { result ≡ Put.All → K.faults out.new ≡ K.faults out.old }
    ensures never_falls { K.faults out.old ≤ K.faults out.new }
{
    for index in 0..preamble.names().len() {
        let line = type_line(preamble, index);
        match out.put(line.as_slice()) {
            Put::All => {}
            Put::Failed => return Put::Failed,
        }
    }
    Put::All
}

/// The line of a declared type, counted from 0.
fn type_line(preamble: &Preamble, index: usize) -> SpelledLine
    requires { index < length preamble.now.names }
    ensures { result.items ≡ type_text (slice_index_or preamble.now.names index []) (slice_index_or preamble.now.types (index + 1) common_shape) }
{
    let names = preamble.names();
    let shapes = preamble.types().as_slice();
    type_text(names.at(index), shapes[index + 1])
}

/// Writes the call lines.
fn write_calls<K: Sink>(s: &Script, out: &mut K) -> Put
    ensures all { result ≡ Put.All
        → Appends (K.written out.old) (K.written out.new) (flat_map (call_text s.now.preamble.names) s.now.lines) }
    ensures failed { result ≡ Put.Failed → HasRisen (K.faults out.old) (K.faults out.new) }
    ensures part { result ≡ Put.Failed
        → AppendsPrefix (K.written out.old) (K.written out.new) (flat_map (call_text s.now.preamble.names) s.now.lines) }
    ensures quiet { result ≡ Put.All → K.faults out.new ≡ K.faults out.old }
    ensures never_falls { K.faults out.old ≤ K.faults out.new }
{
    for index in 0..s.count() {
        let line = call_line(s, index);
        match out.put(line.as_slice()) {
            Put::All => {}
            Put::Failed => return Put::Failed,
        }
    }
    Put::All
}

/// A call line, counted from 0.
fn call_line(s: &Script, index: usize) -> SpelledLine
    requires { index < length s.now.lines }
    ensures { IfSome (slice_get s.now.lines index) (λ line. result.items ≡ call_text s.now.preamble.names line) }
{
    let Line { mutator, call } = s.line(index).unwrap();
    call_text(s.preamble().names(), mutator, &call)
}
