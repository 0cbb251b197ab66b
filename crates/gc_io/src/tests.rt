//! Sources and sinks in memory, and the adapters over a device that is interrupted, stuck, not ready or broken.

use crate::{
    Gate, MemorySink, MemorySource, OpenGate, Put, Sink, Source, StdSink, StdSource, SteadySource,
    Taken, TallySink,
};
use std::io;
use std::io::{ErrorKind, Read, Write};
use std::test::Fail;

/// What a device does at one of its calls.
#[derive(Clone, Copy)]
enum Step {
    Moves(usize),
    Interrupted,
    NotReady,
    Broken,
    /// The error of the system with this number.
    System(i32),
}

/// A device that does these steps in turn, and then nothing. It reads the letter x for ever.
#[derive(Drop)]
struct Device<'a> {
    steps: &'a [Step],
}

impl<'a> Device<'a> {
    fn next_count(&mut self) -> io::Result<usize> {
        let Some((step, steps)) = self.steps.split_first() else {
            return Ok(0);
        };
        self.steps = steps;
        match step {
            Step::Moves(count) => Ok(*count),
            Step::Interrupted => Err(io::Error::from(ErrorKind::Interrupted)),
            Step::NotReady => Err(io::Error::from(ErrorKind::WouldBlock)),
            Step::Broken => Err(io::Error::other("broken")),
            Step::System(number) => Err(io::Error::from_raw_os_error(*number)),
        }
    }
}

impl<'a> Read for Device<'a> {
    fn read(&mut self, buf: &mut [u8]) -> io::Result<usize> {
        let count = self.next_count()?.min(buf.len());
        buf[..count].fill(b'x');
        Ok(count)
    }
}

impl<'a> Write for Device<'a> {
    fn write(&mut self, buf: &[u8]) -> io::Result<usize> {
        Ok(self.next_count()?.min(buf.len()))
    }

    fn flush(&mut self) -> io::Result<()> {
        self.next_count()?;
        Ok(())
    }
}

#[test]
fn memory_source_gives_steps_and_fails_at_the_listed_calls(rt: HostRuntime) -> Result<(), Fail> {
    let bytes = Vec::from_slice(rt.alloc(), b"abcde")?;
    let failing = Vec::from_slice(rt.alloc(), &[2, 4])?;
    let mut source = MemorySource::make(bytes, 2, failing);
    let mut room = *b"...";
    for (answer, shown) in [
        (Taken::Bytes(2), b"ab."),
        (Taken::Failed, b"ab."),
        (Taken::Bytes(2), b"cd."),
        (Taken::Failed, b"cd."),
        (Taken::Bytes(1), b"ed."),
        (Taken::End, b"ed."),
    ] {
        assert_eq!(rt; source.take(&mut room), answer);
        assert_eq!(rt; &room, shown);
    }
    Ok(())
}

#[test]
fn steady_source_gives_what_fits(rt: HostRuntime) -> Result<(), Fail> {
    let mut source = SteadySource::make(Vec::from_slice(rt.alloc(), b"abcde")?);
    let mut room = *b"...";
    for (answer, shown) in [
        (Taken::Bytes(3), b"abc"),
        (Taken::Bytes(2), b"dec"),
        (Taken::End, b"dec"),
    ] {
        assert_eq!(rt; source.take(&mut room), answer);
        assert_eq!(rt; &room, shown);
    }
    Ok(())
}

#[test]
fn memory_sink_refuses_listed_calls_and_what_does_not_fit(rt: HostRuntime) -> Result<(), Fail> {
    let failing = Vec::from_slice(rt.alloc(), &[2, 3])?;
    let mut sink = MemorySink::make(rt.alloc(), 4, failing)?;
    for (piece, answer) in [
        ("ab", Put::All),
        ("c", Put::Failed),
        ("", Put::All),
        ("cde", Put::Failed),
        ("cd", Put::All),
        ("e", Put::Failed),
    ] {
        assert_eq!(rt; sink.put(piece.as_bytes()), answer, "at {piece}");
    }
    assert_eq!(rt; sink.bytes(), b"abcd".as_slice());
    Ok(())
}

#[test]
fn tally_sink_counts_the_bytes_of_every_piece(rt: HostRuntime) {
    let mut sink = TallySink::make();
    assert_eq!(rt; sink.count(), 0);
    for (piece, count) in [("", 0), ("abc", 3), ("defgh", 8), ("", 8), ("i", 9)] {
        assert_eq!(rt; sink.put(piece.as_bytes()), Put::All, "at {piece}");
        assert_eq!(rt; sink.count(), count, "at {piece}");
    }
}

#[test]
fn std_source_reads_to_the_end(rt: HostRuntime) {
    let mut source = StdSource::make(b"abc".as_slice());
    let mut room = *b"..";
    for (answer, shown) in [
        (Taken::Bytes(2), b"ab"),
        (Taken::Bytes(1), b"cb"),
        (Taken::End, b"cb"),
    ] {
        assert_eq!(rt; source.take(&mut room), answer);
        assert_eq!(rt; &room, shown);
    }
}

#[test]
fn std_source_reads_again_after_interrupts(rt: HostRuntime) {
    let steps = [
        Step::Interrupted,
        Step::Moves(2),
        Step::Interrupted,
        Step::Interrupted,
        Step::Moves(3),
        Step::Interrupted,
        Step::Interrupted,
        Step::Broken,
        Step::Moves(1),
    ];
    let mut source = StdSource::make(Device { steps: &steps });
    let mut room = [0; 4];
    for answer in [
        Taken::Bytes(2),
        Taken::Bytes(3),
        Taken::Failed,
        Taken::Bytes(1),
        Taken::End,
    ] {
        assert_eq!(rt; source.take(&mut room), answer);
    }
}

#[test]
fn std_source_fails_where_the_reader_is_not_ready(rt: HostRuntime) {
    let steps = [Step::NotReady, Step::Moves(2), Step::NotReady];
    let mut source = StdSource::make(Device { steps: &steps });
    let mut room = [0; 4];
    for answer in [Taken::Failed, Taken::Bytes(2), Taken::Failed, Taken::End] {
        assert_eq!(rt; source.take(&mut room), answer);
    }
}

#[test]
fn std_sink_writes_every_piece(rt: HostRuntime) -> Result<(), Fail> {
    let mut bytes = Vec::new(rt.alloc());
    let mut sink = StdSink::make(&mut bytes);
    for piece in ["ab", "", "cde"] {
        assert_eq!(rt; sink.put(piece.as_bytes()), Put::All);
    }
    assert_eq!(rt; sink.finish(), Put::All);
    assert_eq!(rt; bytes.as_slice(), b"abcde".as_slice());
    Ok(())
}

#[test]
fn std_sink_fails_where_the_writer_does(rt: HostRuntime) {
    let whole = [Step::Moves(1), Step::Interrupted, Step::Moves(2)];
    let interrupted = [
        Step::Interrupted,
        Step::Interrupted,
        Step::Moves(1),
        Step::Interrupted,
        Step::Interrupted,
        Step::Moves(2),
    ];
    let not_ready = [Step::Moves(1), Step::NotReady, Step::Moves(2)];
    let stuck = [Step::Moves(1), Step::Moves(0)];
    let broken = [Step::Moves(1), Step::Broken, Step::Moves(2)];
    for (steps, answer) in [
        (whole.as_slice(), Put::All),
        (interrupted.as_slice(), Put::All),
        (not_ready.as_slice(), Put::Failed),
        (stuck.as_slice(), Put::Failed),
        (broken.as_slice(), Put::Failed),
    ] {
        let mut sink = StdSink::make(Device { steps });
        assert_eq!(rt; sink.put(b"abc"), answer);
    }
}

#[test]
fn std_sink_tells_a_failed_flush(rt: HostRuntime) {
    let steps = [
        Step::Interrupted,
        Step::Moves(0),
        Step::Interrupted,
        Step::Interrupted,
        Step::Moves(0),
        Step::Broken,
        Step::NotReady,
        Step::Interrupted,
        Step::Interrupted,
        Step::Broken,
    ];
    let mut sink = StdSink::make(Device { steps: &steps });
    for answer in [
        Put::All,
        Put::All,
        Put::Failed,
        Put::Failed,
        Put::Failed,
        Put::All,
    ] {
        assert_eq!(rt; sink.finish(), answer);
    }
}

#[test]
fn open_gate_lets_every_line_pass(rt: HostRuntime) {
    let gate = OpenGate;
    assert!(rt; gate.before(0, 1));
    gate.after(0, 1);
}

/// The system's number of an interrupt by a signal, and its greatest number of an error.
const INTERRUPT: i32 = 4;

const LAST_ERROR: i32 = 133;

#[test]
fn each_error_but_an_interrupt_is_a_fault(rt: HostRuntime) {
    let mut room = [0; 4];
    for number in 1..=LAST_ERROR {
        let steps = [Step::System(number), Step::Moves(1)];
        let mut source = StdSource::make(Device { steps: &steps });
        let mut sink = StdSink::make(Device { steps: &steps });
        let mut flushed = StdSink::make(Device { steps: &steps });
        let (taken, put) = if number == INTERRUPT {
            (Taken::Bytes(1), Put::All)
        } else {
            (Taken::Failed, Put::Failed)
        };
        assert_eq!(rt; source.take(&mut room), taken, "error {number}");
        assert_eq!(rt; sink.put(b"x"), put, "error {number}");
        assert_eq!(rt; flushed.finish(), put, "error {number}");
    }
}

#[test]
fn any_number_of_interrupts_is_waited_out(rt: HostRuntime) {
    let mut room = [0; 4];
    let mut steps = [Step::Interrupted; 301];
    steps[300] = Step::Moves(1);
    for first in 0..=300 {
        let steps = &steps[first..];
        assert_eq!(rt;
            StdSource::make(Device { steps }).take(&mut room),
            Taken::Bytes(1)
        );
        assert_eq!(rt; StdSink::make(Device { steps }).put(b"x"), Put::All);
        assert_eq!(rt; StdSink::make(Device { steps }).finish(), Put::All);
    }
}

#[test]
fn any_number_of_faults_is_told_one_by_one(rt: HostRuntime) {
    let mut room = [0; 4];
    let mut steps = [Step::Broken; 31];
    steps[30] = Step::Moves(1);
    for faults in 0..=30 {
        let steps = &steps[30 - faults..];
        let mut source = StdSource::make(Device { steps });
        let mut sink = StdSink::make(Device { steps });
        let mut flushed = StdSink::make(Device { steps });
        for _ in 0..faults {
            assert_eq!(rt; source.take(&mut room), Taken::Failed);
            assert_eq!(rt; sink.put(b"x"), Put::Failed);
            assert_eq!(rt; flushed.finish(), Put::Failed);
        }
        assert_eq!(rt; source.take(&mut room), Taken::Bytes(1));
        assert_eq!(rt; sink.put(b"x"), Put::All);
        assert_eq!(rt; flushed.finish(), Put::All);
    }
}

#[test]
fn rooms_and_pieces_of_each_length_are_moved(rt: HostRuntime) -> Result<(), Fail> {
    for length in (1..=1_100).chain(65_530..=65_540) {
        assert!(rt; length > 0);
        let piece = vec![in rt.alloc(); b'x'; length]?;
        let mut room = vec![in rt.alloc(); b'.'; length]?;
        let mut source = StdSource::make(piece.as_slice());
        assert_eq!(rt; source.take(room.as_mut_slice()), Taken::Bytes(length));
        assert_eq!(rt; source.take(room.as_mut_slice()), Taken::End);

        let mut bytes = Vec::new(rt.alloc());
        assert_eq!(rt; StdSink::make(&mut bytes).put(piece.as_slice()), Put::All);
        assert_eq!(rt; bytes.len(), length);

        let mut sink = MemorySink::make(rt.alloc(), length, Vec::new(rt.alloc()))?;
        assert_eq!(rt; sink.put(piece.as_slice()), Put::All);
        assert_eq!(rt; sink.put(b"x"), Put::Failed);
    }
    Ok(())
}

#[test]
fn a_piece_of_each_length_is_written_a_byte_at_a_time(rt: HostRuntime) -> Result<(), Fail> {
    let one_byte_each = [Step::Moves(1); 301];
    for length in 0..=300 {
        let steps = &one_byte_each[300 - length..];
        let piece = vec![in rt.alloc(); b'x'; length]?;
        let mut sink = StdSink::make(Device { steps });
        assert_eq!(rt; sink.put(piece.as_slice()), Put::All);

        // Nothing else was asked of the device.
        assert_eq!(rt; sink.put(b"x"), Put::All);
        assert_eq!(rt; sink.put(b"x"), Put::Failed);
    }
    Ok(())
}

#[test]
fn memory_sinks_of_no_room_and_of_each_number_of_failing_calls(
    rt: HostRuntime,
) -> Result<(), Fail> {
    let mut empty = MemorySink::make(rt.alloc(), 0, Vec::new(rt.alloc()))?;
    assert_eq!(rt; empty.put(b""), Put::All);
    assert_eq!(rt; empty.put(b"x"), Put::Failed);
    for count in 0..=30u32 {
        let mut failing = Vec::new(rt.alloc());
        for number in 1..=count {
            failing.push(number)?;
        }
        let mut sink = MemorySink::make(rt.alloc(), 4, failing)?;
        for _ in 0..count {
            assert_eq!(rt; sink.put(b"x"), Put::Failed);
        }
        assert_eq!(rt; sink.put(b"x"), Put::All);
    }
    Ok(())
}
