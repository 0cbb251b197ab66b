//! How the program ends: the status, its exit status, and its line on standard error.

ghost use Rattle.std.specs.Prelude.{◌≡◌, ◌≤◌};
ghost use Rattle.gc_io.specs.Faults.{HasRisen};
ghost use Rattle.gc_io.specs.Streams.{Appends, AppendsPrefix};
ghost use Rattle.gc_cli.specs.Command.{code_of, status_line};

use crate::text::status_line;
use gc_io::Sink;
use gc_locked::Journal;
use gc_solo::Solo;

/// How the program ended.
#[derive(Clone, Copy, Debug, PartialEq, Eq)]
pub enum Status {
    /// The script was read to its end and all was written.
    Done,
    /// The words are no command.
    Usage,
    /// The first bad line, counted from 1, and the cause of its first failing test: 1 version, 2 word,
    /// 3 number, 4 register, 5 type, 6 mutator, 7 duplicate.
    Bad { line: u32, cause: u8 },
    /// The script has more than 16,777,216 bytes.
    Long,
    /// The source had a fault.
    ReadFault,
    /// The sink had a fault.
    WriteFault,
    /// Want of memory.
    NoMemory,
}

impl Status {
    /// The exit status, 0 to 5.
    pub fn code(&self) -> u8
        ensures { result ≡ code_of self.now }
    {
        match self {
            Status::Done => 0,
            Status::Usage => 1,
            Status::Bad { .. } | Status::Long => 2,
            Status::ReadFault => 3,
            Status::WriteFault => 4,
            Status::NoMemory => 5,
        }
    }
}

/// The heap on which the lines were really played: nothing where none were, or where their text wasn't written.
#[derive(Drop)]
pub enum Left {
    Nothing,
    /// The heap of one thread.
    Solo(Solo),
    /// The entries of the history that workers made on a heap of several threads.
    Journal(Journal),
}

/// How the program ended, and the heap on which the lines were played.
#[derive(Drop)]
pub struct Outcome {
    pub status: Status,
    pub left: Left,
}

impl Outcome {
    /// Ended so, with no heap to hand back.
    pub(crate) fn nothing_left(status: Status) -> Outcome
        ensures { result ≡ record { status = status; left = Left.Nothing } }
    {
        Outcome {
            status,
            left: Left::Nothing,
        }
    }

    /// Ended so, with the heap on which one thread played the lines.
    pub(crate) fn solo_left(status: Status, solo: Solo) -> Outcome
        ensures { result ≡ record { status = status; left = Left.Solo solo } }
    {
        Outcome {
            status,
            left: Left::Solo(solo),
        }
    }

    /// Ended so, with the journal of the workers that played the lines.
    pub(crate) fn journal_left(status: Status, journal: Journal) -> Outcome
        ensures { result ≡ record { status = status; left = Left.Journal journal } }
    {
        Outcome {
            status,
            left: Left::Journal(journal),
        }
    }
}

/// Writes the line of a status, as one piece; nothing for Done. Whatever comes of it, the status stays.
pub fn write_status<E: Sink>(status: Status, err: &mut E)
    ensures whole { ¬ HasRisen (E.faults err.old) (E.faults err.new)
        → Appends (E.written err.old) (E.written err.new) (status_line status) }
    ensures part { AppendsPrefix (E.written err.old) (E.written err.new) (status_line status) }
    ensures never_falls { E.faults err.old ≤ E.faults err.new }
{
    if status == Status::Done {
        return;
    }
    let line = status_line(status);
    let _ = err.put(line.as_bytes());
}
