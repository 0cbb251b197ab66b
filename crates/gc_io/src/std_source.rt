//! Std's readers as sources. A fault is whatever isn't an interrupt by a signal.

ghost use Rattle.std.specs.Prelude.{◌≡◌, ◌≢◌, ℕ, ◌<◌, ◌≤◌, length, take, Some, None, IfNone, IfSome};
ghost use Rattle.std.specs.Io.KnownBytes.{Keeps, Consumes, IsAtEnd};
ghost use Rattle.gc_io.specs.Faults.{HasRisen};
ghost use Rattle.gc_io.specs.declared.source.Taken.TheVariants.{Bytes, End, Failed};

use crate::{Source, Taken};
use std::io::{ErrorKind, Read};
use std::marker::Model;

/// A reader of std as a source. It tells no content, and counts its faults.
#[derive(Drop)]
pub struct StdSource<R> {
    reader: R,
    faults: u64,
}

impl<R> Model for StdSource<R> {
    ghost use Rattle.gc_io.specs.Adapter.{Counted};

    ghost Value = { Counted R };

    ghost view = { λ s. record { inner = s.reader; faults = s.faults } };
}

impl<R> StdSource<R> {
    ghost use Rattle.gc_io.specs.Adapter.{Counted};

    /// A source over this reader, with no fault so far.
    pub fn make(reader: R) -> StdSource<R>
        ensures { result ≡ record { inner = reader; faults = 0 } }
    {
        StdSource { reader, faults: 0 }
    }
}

impl<R: Read + Drop> Source for StdSource<R> {
    ghost use Rattle.gc_io.specs.Supply.{faults_after};

    ghost rest = { λ _. None };

    ghost faults = { λ s. s.faults };

    /// Makes one read, again where a signal interrupts it.
    fn take(&mut self, room: &mut [u8]) -> Taken
        requires { 0 < length room.old }
        ensures some { (count : ℕ) → result ≡ Bytes count → (0 < count) × (count ≤ length room.new) }
        ensures bytes { (count : ℕ) → result ≡ Bytes count
            → Consumes (R.remaining self.old.inner) (R.remaining self.new.inner) (take count room.new) }
        ensures end { result ≡ End → IsAtEnd (R.remaining self.new.inner) }
        ensures failed { result ≡ Failed → HasRisen self.old.faults self.new.faults }
        ensures failed_stays { result ≡ Failed
            → Keeps (R.remaining self.old.inner) (R.remaining self.new.inner) }
        ensures quiet { result ≢ Failed → self.new.faults ≡ self.old.faults }
        ensures never_falls { self.old.faults ≤ self.new.faults }

        ensures count { self.new.faults ≡ faults_after self.old.faults result }
    {
        match read_once(&mut self.reader, room) {
            Some(0) => Taken::End,
            Some(count) => Taken::Bytes(count),
            None => {
                self.faults = self.faults.saturating_add(1);
                Taken::Failed
            }
        }
    }
}

/// One read, again where a signal interrupts it. None is a fault.
fn read_once<R: Read>(reader: &mut R, room: &mut [u8]) -> Option<usize>
    ensures within { IfSome result (λ count. count ≤ length room.new) }
    ensures bytes { IfSome result (λ count.
        Consumes (R.remaining reader.old) (R.remaining reader.new) (take count room.new)) }
    ensures end { 0 < length room.old → result ≡ Some 0 → IsAtEnd (R.remaining reader.new) }
    ensures failed { IfNone result (Keeps (R.remaining reader.old) (R.remaining reader.new)) }
{
    for _ in 0..u64::MAX {
        match reader.read(room) {
            Ok(count) => return Some(count),
            Err(error) => {
                if error.kind() != ErrorKind::Interrupted {
                    return None;
                }
            }
        }
    }
    None
}
