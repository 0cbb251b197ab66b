//! A sink in memory, which fails at chosen calls and where its room is spent.

ghost use Rattle.std.specs.Prelude.{◌≡◌, ◌≢◌, ◌≤◌, [], Some, IfOk};
ghost use Rattle.gc_io.specs.Faults.{HasRisen};
ghost use Rattle.gc_io.specs.Streams.{Appends, AppendsPrefix};
ghost use Rattle.gc_io.specs.declared.sink.Put.TheVariants.{All, Failed};

use crate::failing::lists;
use crate::{NoMemory, Put, Sink};
use std::alloc::Global;
use std::marker::Model;

/// A sink of bytes in memory that takes at most so many bytes in all and fails at chosen calls.
#[derive(Debug, Drop)]
pub struct MemorySink {
    bytes: Vec<u8>,
    room: usize,
    failing: Vec<u32>,
    calls: u64,
    faults: u64,
}

impl Model for MemorySink {
    ghost use Rattle.std.specs.Prelude.{◌≤◌, vec_len, vec_capacity};
    ghost use Rattle.gc_io.specs.Store.{Store};

    ghost Value = { Store };

    ghost view = { λ s. record {
      written = s.bytes.items;
      room = s.room;
      failing = s.failing.items;
      calls = s.calls;
      faults = s.faults;
    } };

    ghost invariant = { λ s. (vec_len s.bytes ≤ s.room) × (s.room ≤ vec_capacity s.bytes) };
}

impl MemorySink {
    ghost use Rattle.gc_io.specs.Store.{Store};

    /// A sink with room for `room` bytes, all of whose memory is taken here. The calls whose numbers,
    /// counted from 1, are listed fail, unless their piece is empty.
    pub fn make(alloc: Global, room: usize, failing: Vec<u32>) -> Result<MemorySink, NoMemory>
        ensures { IfOk result (λ sink. sink
            ≡ record { written = []; room = room; failing = failing.items; calls = 0; faults = 0 }) }
    {
        let Ok(bytes) = Vec::with_capacity(alloc, room) else {
            return Err(NoMemory);
        };
        Ok(MemorySink {
            bytes,
            room,
            failing,
            calls: 0,
            faults: 0,
        })
    }

    /// The bytes that it has got.
    pub fn bytes(&self) -> &[u8]
        ensures { result.now ≡ self.now.written }
    {
        self.bytes.as_slice()
    }
}

impl Sink for MemorySink {
    ghost use Rattle.gc_io.specs.Store.{next_answer, store_after};

    ghost written = { λ s. Some s.written };

    ghost faults = { λ s. s.faults };

    /// Takes the whole piece or nothing of it. Every call counts for the numbering.
    fn put(&mut self, piece: &[u8]) -> Put
        ensures all { result ≡ All → Appends (Some self.old.written) (Some self.new.written) piece.now }
        ensures failed { result ≡ Failed → HasRisen self.old.faults self.new.faults }
        ensures first_bytes { result ≡ Failed
            → AppendsPrefix (Some self.old.written) (Some self.new.written) piece.now }
        ensures empty { piece.now ≡ [] → result ≡ All }
        ensures quiet { result ≢ Failed → self.new.faults ≡ self.old.faults }
        ensures never_falls { self.old.faults ≤ self.new.faults }

        ensures answer { result ≡ next_answer self.old piece.now }
        ensures store { self.new ≡ store_after self.old piece.now result }
    {
        self.calls = self.calls.saturating_add(1);
        if piece.is_empty() {
            return Put::All;
        }
        let left = self.room - self.bytes.len();
        if lists(&self.failing, self.calls) || left < piece.len() {
            self.faults = self.faults.saturating_add(1);
            return Put::Failed;
        }
        match self.bytes.extend_from_slice(piece) {
            Ok(()) => Put::All,
            Err(_) => unreachable!(),
        }
    }
}
