//! A source and a sink in memory that write down what they were asked, so that tests see the order and the number
//! of the calls. What can't be written down for want of memory is missing, and then a test fails.

ghost use Rattle.std.specs.Prelude.{Some};

use gc_io::{MemorySink, MemorySource, Put, Sink, Source, Taken};
use std::alloc::{AllocError, Global};

/// A source in memory that writes down the room of each call, in bytes.
#[derive(Drop)]
pub struct AskedSource {
    source: MemorySource,
    rooms: Vec<usize>,
}

impl AskedSource {
    /// Nothing was asked so far.
    pub fn make(alloc: Global, source: MemorySource) -> AskedSource {
        AskedSource {
            source,
            rooms: Vec::new(alloc),
        }
    }

    /// The rooms of the calls, in their order.
    pub fn rooms(&self) -> &[usize] {
        self.rooms.as_slice()
    }
}

impl Source for AskedSource {
    ghost rest = { λ s. Some s.source.rest };

    ghost faults = { λ s. s.source.faults };

    fn take(&mut self, room: &mut [u8]) -> Taken {
        let _ = self.rooms.push(room.len());
        self.source.take(room)
    }
}

/// A sink in memory that writes down its pieces: behind one that was taken stands a bar, and behind one that
/// failed an exclamation mark.
#[derive(Drop)]
pub struct PieceSink {
    sink: MemorySink,
    pieces: Vec<u8>,
}

impl PieceSink {
    /// Nothing was put so far.
    pub fn make(alloc: Global, sink: MemorySink) -> PieceSink {
        PieceSink {
            sink,
            pieces: Vec::new(alloc),
        }
    }

    /// The pieces, in their order.
    pub fn pieces(&self) -> &[u8] {
        self.pieces.as_slice()
    }
}

impl Sink for PieceSink {
    ghost written = { λ s. Some s.sink.written };

    ghost faults = { λ s. s.sink.faults };

    fn put(&mut self, piece: &[u8]) -> Put {
        let answer = self.sink.put(piece);
        let _ = write_down(&mut self.pieces, piece, answer);
        answer
    }
}

/// Puts a piece and the sign of its answer behind the pieces before it.
fn write_down(pieces: &mut Vec<u8>, piece: &[u8], answer: Put) -> Result<(), AllocError> {
    pieces.extend_from_slice(piece)?;
    let sign = match answer {
        Put::All => b'|',
        Put::Failed => b'!',
    };
    pieces.push(sign)?;
    Ok(())
}
