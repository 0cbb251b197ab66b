//! Std's writers as sinks. A fault is whatever isn't an interrupt by a signal.

ghost use Rattle.std.specs.Prelude.{◌≡◌, ◌≢◌, ◌≤◌, [], None, ◌↔◌, IsTrue};
ghost use Rattle.std.specs.Io.KnownBytes.{Appends, Keeps};
ghost use Rattle.gc_io.specs.Adapter.{AppendsFirst};
ghost use Rattle.gc_io.specs.Faults.{HasRisen};
ghost use Rattle.gc_io.specs.declared.sink.Put.TheVariants.{All, Failed};

use crate::{Put, Sink};
use std::io::{ErrorKind, Write};
use std::marker::Model;

/// A writer of std as a sink. It tells no content, and counts its faults.
#[derive(Drop)]
pub struct StdSink<W> {
    writer: W,
    faults: u64,
}

impl<W> Model for StdSink<W> {
    ghost use Rattle.gc_io.specs.Adapter.{Counted};

    ghost Value = { Counted W };

    ghost view = { λ s. record { inner = s.writer; faults = s.faults } };
}

impl<W> StdSink<W> {
    ghost use Rattle.gc_io.specs.Adapter.{Counted};

    /// A sink over this writer, with no fault so far.
    pub fn make(writer: W) -> StdSink<W>
        ensures { result ≡ record { inner = writer; faults = 0 } }
    {
        StdSink { writer, faults: 0 }
    }
}

impl<W: Write + Drop> StdSink<W> {
    ghost use Rattle.gc_io.specs.Store.{faults_after};

    /// Flushes the writer, after the last piece.
    pub fn finish(&mut self) -> Put
        ensures contents { Keeps (W.contents self.old.inner) (W.contents self.new.inner) }
        ensures failed { result ≡ Failed → HasRisen self.old.faults self.new.faults }
        ensures quiet { result ≢ Failed → self.new.faults ≡ self.old.faults }
        ensures never_falls { self.old.faults ≤ self.new.faults }
        ensures count { self.new.faults ≡ faults_after self.old.faults result }
    {
        let flushed = flush_all(&mut self.writer);
        self.noted(flushed)
    }

    /// The answer of a call that did its work or had a fault, which is counted.
    fn noted(&mut self, done: bool) -> Put
        ensures answer { IsTrue done ↔ (result ≡ All) }
        ensures inner { self.new.inner ≡ self.old.inner }
        ensures failed { result ≡ Failed → HasRisen self.old.faults self.new.faults }
        ensures quiet { result ≢ Failed → self.new.faults ≡ self.old.faults }
        ensures never_falls { self.old.faults ≤ self.new.faults }
        ensures count { self.new.faults ≡ faults_after self.old.faults result }
    {
        if done {
            return Put::All;
        }
        self.faults = self.faults.saturating_add(1);
        Put::Failed
    }
}

impl<W: Write + Drop> Sink for StdSink<W> {
    ghost use Rattle.gc_io.specs.Store.{faults_after};

    ghost written = { λ _. None };

    ghost faults = { λ s. s.faults };

    /// Writes the piece, in as many writes as the writer asks for.
    fn put(&mut self, piece: &[u8]) -> Put
        ensures all { result ≡ All
            → Appends (W.contents self.old.inner) (W.contents self.new.inner) piece.now }
        ensures failed { result ≡ Failed → HasRisen self.old.faults self.new.faults }
        ensures first_bytes { result ≡ Failed
            → AppendsFirst (W.contents self.old.inner) (W.contents self.new.inner) piece.now }
        ensures empty { piece.now ≡ [] → result ≡ All }
        ensures quiet { result ≢ Failed → self.new.faults ≡ self.old.faults }
        ensures never_falls { self.old.faults ≤ self.new.faults }

        ensures count { self.new.faults ≡ faults_after self.old.faults result }
    {
        let written = write_whole(&mut self.writer, piece);
        self.noted(written)
    }
}

/// Writes the piece, and says whether all of it was taken. A write that takes nothing is a fault, and one
/// that a signal interrupts is made again.
fn write_whole<W: Write>(writer: &mut W, piece: &[u8]) -> bool
    ensures whole { IsTrue result → Appends (W.contents writer.old) (W.contents writer.new) piece.now }
    ensures first_bytes { AppendsFirst (W.contents writer.old) (W.contents writer.new) piece.now }
    ensures empty { piece.now ≡ [] → IsTrue result }
{
    let mut rest = piece;
    for _ in 0..u64::MAX {
        if rest.is_empty() {
            return true;
        }
        match writer.write(rest) {
            Ok(0) => return false,
            Ok(count) => rest = &rest[count..],
            Err(error) => {
                if error.kind() != ErrorKind::Interrupted {
                    return false;
                }
            }
        }
    }
    rest.is_empty()
}

/// Flushes the writer, again where a signal interrupts it, and says whether it did.
fn flush_all<W: Write>(writer: &mut W) -> bool
    ensures { Keeps (W.contents writer.old) (W.contents writer.new) }
{
    for _ in 0..u64::MAX {
        match writer.flush() {
            Ok(()) => return true,
            Err(error) => {
                if error.kind() != ErrorKind::Interrupted {
                    return false;
                }
            }
        }
    }
    false
}
