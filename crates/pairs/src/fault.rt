//! Why a run of the language ends early.
ghost use Rattle.std.specs.Prelude.{◌≡◌, ◌≢◌, ◌<◌, ◌↔◌};
ghost use Rattle.gc_model.specs.declared.reply.Reply.TheVariants.{Full as FullReply};
ghost use Rattle.pairs.specs.declared.fault.Fault.TheVariants.{Full, OutOfReports};

use gc_layout::NoMemory;
use gc_model::Reply;
use std::{fmt, io};

/// Why a run of the language ends early.
#[derive(Clone, Copy, Debug, PartialEq, Eq)]
pub(crate) enum Fault {
    /// The word isn't a length.
    Usage,
    /// There isn't enough memory to begin.
    NoMemory,
    /// The output can't be written.
    Output,
    /// The heap has no place for one more value: the language's out of memory.
    Full,
    /// There is no room for the reports of the collections that a call may bring.
    OutOfReports,
    /// A field was asked of nothing.
    OfNothing,
    /// A field was asked of a value that has none such: a number's rest, or the number of a pair.
    OfAnotherKind,
    /// A sum is larger than every number of the language.
    TooLarge,
    /// A reply that the machine's calls don't get.
    Unexpected(Reply),
}

impl Fault {
    /// The exit status.
    pub(crate) fn status(self) -> u8
        ensures { 0 < result }
    {
        match self {
            Fault::Usage => 1,
            Fault::NoMemory | Fault::Output => 2,
            Fault::Full => 3,
            Fault::OutOfReports => 4,
            Fault::OfNothing | Fault::OfAnotherKind | Fault::TooLarge => 5,
            Fault::Unexpected(_) => 6,
        }
    }
}

impl fmt::Display for Fault {
    fn fmt<W: fmt::Write>(&self, f: &mut fmt::Formatter<W>) -> fmt::Result {
        f.write_str(match self {
            Fault::Usage => "usage: pairs LENGTH",
            Fault::NoMemory => "not enough memory",
            Fault::Output => "the output can't be written",
            Fault::Full => "out of memory",
            Fault::OutOfReports => "out of report places",
            Fault::OfNothing => "nothing has no fields",
            Fault::OfAnotherKind => "a value of another kind",
            Fault::TooLarge => "a sum is too large",
            Fault::Unexpected(_) => "an unexpected reply of the heap",
        })
    }
}

impl From<NoMemory> for Fault {
    fn from(_: NoMemory) -> Fault {
        Fault::NoMemory
    }
}

impl From<io::Error> for Fault {
    fn from(_: io::Error) -> Fault {
        Fault::Output
    }
}

impl From<Reply> for Fault {
    ghost from_gives = { λ reply fault. (fault ≡ Full ↔ (reply ≡ FullReply)) × (fault ≢ OutOfReports) };

    /// What a reply means to the language where the call wasn't made.
    fn from(reply: Reply) -> Fault {
        match reply {
            Reply::Full => Fault::Full,
            Reply::NilBase => Fault::OfNothing,
            Reply::Range => Fault::OfAnotherKind,
            _ => Fault::Unexpected(reply),
        }
    }
}
