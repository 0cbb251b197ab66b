//! Why a text is no script: the first bad line, and the cause of its first failing test.

ghost use Rattle.std.specs.Prelude.{◌≡◌};
ghost use Rattle.gc_script.specs.Fault.{located, cause_number};
ghost use Rattle.gc_script.specs.declared.fault.ReadError.TheVariants.{Memory};

use gc_layout::NoMemory;
use std::alloc::{AllocError, AllocFailed};

/// Why a text is no script.
#[derive(Clone, Copy, Debug, PartialEq, Eq)]
pub enum ScriptFault {
    /// The first bad line, counted from 1, and the cause of its first failing test: 1 version, 2 word,
    /// 3 number, 4 register, 5 type, 6 mutator, 7 duplicate.
    Bad { line: u32, cause: u8 },
    /// There are more than 16,777,216 bytes.
    Long,
    /// Want of memory.
    NoMemory,
}

/// The test that fails.
#[derive(Clone, Copy, Debug, PartialEq, Eq)]
pub(crate) enum Cause {
    Version = 1,
    Word = 2,
    Number = 3,
    Register = 4,
    Type = 5,
    Mutator = 6,
    Duplicate = 7,
}

/// A line, counted from 1, and its first failing test.
#[derive(Clone, Copy, Debug, PartialEq, Eq)]
pub(crate) struct Fault {
    pub line: u32,
    pub cause: Cause,
}

/// Why nothing was read: want of memory, or what was refused.
#[derive(Clone, Copy, Debug, PartialEq, Eq)]
pub(crate) enum ReadError<E> {
    Memory,
    Refused(E),
}

impl<E: Drop> From<AllocError> for ReadError<E> {
    ghost from_gives = { λ _ e. e ≡ Memory };

    fn from(_e: AllocError) -> ReadError<E> {
        ReadError::Memory
    }
}

impl<T: Drop, E: Drop> From<AllocFailed<T>> for ReadError<E> {
    ghost from_gives = { λ _ e. e ≡ Memory };

    fn from(_e: AllocFailed<T>) -> ReadError<E> {
        ReadError::Memory
    }
}

/// A failed test, at its line.
pub(crate) fn located(line: u32, error: ReadError<Cause>) -> ReadError<Fault>
    ensures { result ≡ located line error }
{
    match error {
        ReadError::Memory => ReadError::Memory,
        ReadError::Refused(cause) => ReadError::Refused(Fault { line, cause }),
    }
}

impl Cause {
    /// The number of the cause, 1 to 7.
    pub(crate) fn number(self) -> u8
        ensures { result ≡ cause_number self }
    {
        self as u8
    }
}
