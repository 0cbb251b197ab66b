//! Calls that are made in turns, for a caller that waits for nobody.
use crate::Reply;

/// How a turn of a call ended.
#[derive(Clone, Copy, Debug, PartialEq, Eq)]
pub enum CallTurn {
    /// The call is answered.
    Ready(Reply),
    /// A word isn't ready: its index in the table of words, and the value that it had.
    Again { word: u64, value: u64 },
}

/// Makes a call in turns, each of which waits for nobody.
pub trait Turns {
    /// Whether a call was started and isn't answered yet.
    ghost is_under_way: { Self → Type 0 };

    /// Goes on until the call is answered or one word isn't ready.
    fn turn(&mut self) -> CallTurn
        requires { is_under_way self.old };
}
