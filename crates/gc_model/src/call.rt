//! The calls of a mutator, and the refusal that comes before any call is made.
ghost use Rattle.std.specs.Prelude.{◌≡◌, ◌≤◌};
ghost use Rattle.gc_model.specs.Answer.{blocked_refusal};
ghost use Rattle.gc_model.specs.History.{allowance_of};

use crate::{Reg, Reply};
use gc_layout::TypeNo;

/// A call of a mutator. Places count the slots, or the number fields, of the object that `base` names;
/// in `Share`, `Take` and `Await` they count the slots of the common object.
#[derive(Clone, Copy, Debug, PartialEq, Eq)]
pub enum Call {
    /// Makes an object, with all slots nothing and all numbers 0.
    New {
        into: Reg,
        ty: TypeNo,
    },
    /// Loads a slot.
    Get {
        into: Reg,
        base: Reg,
        place: u8,
    },
    /// Stores into a slot.
    Put {
        base: Reg,
        place: u8,
        value: Reg,
    },
    /// Reads a number.
    Ask {
        base: Reg,
        place: u8,
    },
    /// Writes a number.
    Set {
        base: Reg,
        place: u8,
        number: u64,
    },
    /// Writes a number where the expected one stands there.
    SwapIf {
        base: Reg,
        place: u8,
        expected: u64,
        replacement: u64,
    },
    /// Asks whether two registers name the same object, or are both nothing.
    Same {
        left: Reg,
        right: Reg,
    },
    /// Copies a register.
    CopyReg {
        into: Reg,
        source: Reg,
    },
    /// Makes a register nothing.
    ClearReg {
        reg: Reg,
    },
    /// Stores into a slot of the common object.
    Share {
        place: u8,
        value: Reg,
    },
    /// Loads a slot of the common object.
    Take {
        into: Reg,
        place: u8,
    },
    /// Loads a slot of the common object, and waits a while for an object there.
    Await {
        into: Reg,
        place: u8,
    },
    /// Lets a collection happen.
    Safepoint,
    /// Says that the mutator won't touch the heap for a while.
    Block,
    /// Takes the heap up again.
    Unblock,
    /// Asks for a full collection.
    Collect,
    /// Ends the mutator.
    End,
}

impl Call {
    /// The refusal of this call by a mutator that is `blocked`, or that isn't; None where being blocked doesn't
    /// stand against it. A blocked mutator may only unblock or end: else Blocked. Only a blocked one may unblock:
    /// else NotBlocked. It comes before all other refusals.
    pub fn refusal(&self, blocked: bool) -> Option<Reply>
        ensures { result ≡ blocked_refusal blocked self.now }
    {
        match (blocked, self) {
            (true, Call::Unblock | Call::End) => None,
            (true, _) => Some(Reply::Blocked),
            (false, Call::Unblock) => Some(Reply::NotBlocked),
            (false, _) => None,
        }
    }

    /// How many collections this call may bring: two for a New, one for a Collect, none for any other.
    pub fn allowance(&self) -> u32
        ensures allowance { result ≡ allowance_of self.now }
        ensures most { result ≤ 2 }
    {
        match self {
            Call::New { .. } => 2,
            Call::Collect => 1,
            _ => 0,
        }
    }
}

/// A line of a script: a mutator's number, and its call.
#[derive(Clone, Copy, Debug, PartialEq, Eq)]
pub struct Line {
    pub mutator: u8,
    pub call: Call,
}
