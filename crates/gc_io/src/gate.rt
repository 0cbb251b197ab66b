//! Gates: they let a worker's lines pass, or hold them back.

ghost use Rattle.std.specs.Prelude.{IsTrue};

/// Lets the lines of a script pass. A worker asks `before` until it is true, then makes the call of its
/// line, then says `after`. Lines are counted from 1, as the script's are.
pub trait Gate {
    /// Whether this line of this mutator may be played now.
    fn before(&self, mutator: u8, line: u32) -> bool;

    /// This line of this mutator was answered.
    fn after(&self, mutator: u8, line: u32);
}

/// The gate that holds nothing back.
#[derive(Clone, Copy, Debug, PartialEq, Eq)]
pub struct OpenGate;

impl Gate for OpenGate {
    fn before(&self, _mutator: u8, _line: u32) -> bool
        ensures { IsTrue result }
    {
        true
    }

    fn after(&self, _mutator: u8, _line: u32) {}
}
