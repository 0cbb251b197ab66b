//! The replies to calls.
/// What a call answers.
#[derive(Clone, Copy, Debug, PartialEq, Eq)]
pub enum Reply {
    /// The call was made.
    Done,
    /// There is no place for a new object.
    Full,
    /// The number that was asked for.
    Number(u64),
    /// The registers are the same, or the number was swapped.
    Yes,
    /// The registers differ.
    No,
    /// Another number than the expected one stands there.
    Found(u64),
    /// The slot is nothing.
    Nil,
    /// The base register is nothing.
    NilBase,
    /// The object has no such place.
    Range,
    /// The mutator is blocked.
    Blocked,
    /// The mutator isn't blocked.
    NotBlocked,
}
