//! What the writer puts into a sink: each line as one piece, and nothing behind a put that failed.

ghost use Rattle.std.specs.Prelude.{None};

use crate::faulty::type_name;
use crate::{read_script, write_script};
use gc_io::{Put, Sink};
use std::alloc::{AllocError, Global};
use std::test::Fail;

/// A script without types and calls.
const BARE: &str = "moar-gc 1\n\
    mutators 1\n";

/// A script of five lines.
const FIVE_LINES: &str = "moar-gc 1\n\
    mutators 1\n\
    type box 0 1\n\
    0 new r0 box\n\
    0 ask r0 0\n";

/// Types alone, in no order of their names.
const TYPES: &str = "moar-gc 1\n\
    mutators 1\n\
    type b 31 0\n\
    type a 0 31\n";

/// A text in its one spelling, with each call word, and the least and the greatest word of each kind.
const EACH_WORD: &str = "moar-gc 1\n\
    mutators 8\n\
    type a 0 0\n\
    type abcdefghijklmnop 62 0\n\
    type zz 0 62\n\
    0 new r0 a\n\
    7 new r15 abcdefghijklmnop\n\
    3 new r10 zz\n\
    7 get r15 r9 255\n\
    7 put r1 0 r14\n\
    7 ask r15 255\n\
    7 set r15 255 18446744073709551615\n\
    0 set r0 0 0\n\
    7 swap r15 255 18446744073709551615 18446744073709551614\n\
    0 swap r0 0 0 10\n\
    7 same r15 r11\n\
    7 copy r12 r13\n\
    7 clear r15\n\
    7 share 15 r0\n\
    0 share 0 r15\n\
    7 take r0 15\n\
    7 await r15 0\n\
    7 safepoint\n\
    7 collect\n\
    7 block\n\
    7 unblock\n";

/// Records each call: its piece and a `|`, or a `!` where it is the call that fails, counted from 1.
#[derive(Drop)]
struct Recorder {
    record: Vec<u8>,
    failing: u64,
    calls: u64,
    faults: u64,
}

impl Sink for Recorder {
    ghost written = { λ _. None };

    ghost faults = { λ r. r.faults };

    fn put(&mut self, piece: &[u8]) -> Put {
        self.calls = self.calls.saturating_add(1);
        if self.calls == self.failing && !piece.is_empty() {
            let _ = self.record.push(b'!');
            self.faults = self.faults.saturating_add(1);
            return Put::Failed;
        }
        let _ = self.record.extend_from_slice(piece);
        let _ = self.record.push(b'|');
        Put::All
    }
}

/// What is recorded where a text's lines are pieces, and this call fails.
fn recorded(alloc: Global, text: &str, failing: u64) -> Result<Vec<u8>, AllocError> {
    let mut record = Vec::new(alloc);
    let mut call: u64 = 1;
    for byte in text.as_bytes() {
        if call == failing {
            record.push(b'!')?;
            break;
        }
        record.push(*byte)?;
        if *byte == b'\n' {
            record.push(b'|')?;
            call = call.saturating_add(1);
        }
    }
    Ok(record)
}

/// How it ends to write the script of a text into a sink of which this call fails, and what the sink recorded.
fn write(alloc: Global, text: &str, failing: u64) -> Result<(Put, Vec<u8>), Fail> {
    let script = read_script(alloc, text.as_bytes())?;
    let mut sink = Recorder {
        record: Vec::new(alloc),
        failing,
        calls: 0,
        faults: 0,
    };
    let put = write_script(&script, &mut sink);
    Ok((put, sink.record))
}

#[test]
fn each_line_is_one_piece(rt: HostRuntime) -> Result<(), Fail> {
    for text in [BARE, TYPES, FIVE_LINES, EACH_WORD] {
        for read in [text, text.trim_end()] {
            let (put, record) = write(rt.alloc(), read, 0)?;
            let all = recorded(rt.alloc(), text, 0)?;
            assert_eq!(rt; put, Put::All, "at {read:?}");
            assert_eq!(rt; record.as_slice(), all.as_slice(), "at {read:?}");
        }
    }
    Ok(())
}

/// A text in its one spelling, of 255 types and 300 lines.
fn long_text(alloc: Global) -> Result<String, AllocError> {
    let mut text = String::from_str(alloc, BARE)?;
    for index in 0..255u8 {
        let name = type_name(alloc, index)?;
        writeln!(text, "type {name} 0 1")?;
    }
    for number in 0..300u16 {
        writeln!(text, "0 set r0 0 {number}")?;
    }
    Ok(text)
}

// Of a long script too, and where a call fails nothing is put behind it.
#[test]
fn each_line_of_a_long_script_is_one_piece(rt: HostRuntime) -> Result<(), Fail> {
    let text = long_text(rt.alloc())?;
    for failing in [0, 1, 2, 3, 128, 257, 258, 400, 557] {
        let (put, record) = write(rt.alloc(), text.as_str(), failing)?;
        let before = recorded(rt.alloc(), text.as_str(), failing)?;
        let end = if failing == 0 { Put::All } else { Put::Failed };
        assert_eq!(rt; put, end, "at call {failing}");
        assert!(rt; record.as_slice() == before.as_slice(), "at call {failing}");
    }
    Ok(())
}

// Each call fails in turn, and then one that isn't made.
#[test]
fn nothing_is_put_behind_a_fault(rt: HostRuntime) -> Result<(), Fail> {
    for (text, lines) in [(BARE, 2), (TYPES, 4), (FIVE_LINES, 5), (EACH_WORD, 26)] {
        for failing in 1..lines + 2 {
            let (put, record) = write(rt.alloc(), text, failing)?;
            let before = recorded(rt.alloc(), text, failing)?;
            let end = if failing <= lines {
                Put::Failed
            } else {
                Put::All
            };
            assert_eq!(rt; put, end, "at call {failing} of {text:?}");
            assert_eq!(rt;
                record.as_slice(),
                before.as_slice(),
                "at call {failing} of {text:?}"
            );
        }
    }
    Ok(())
}
