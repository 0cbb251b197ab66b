//! The header word of an object: its type, and the collector's flags.

ghost use Rattle.std.specs.Prelude.{◌≡◌, ◌<◌, ◌↔◌, ◌/◌, ◌%◌, ℕ, Some, IfSome, IsTrue};
ghost use Rattle.gc_layout.specs.Head.{head_word, flag_value, fresh_head};
ghost use Rattle.gc_layout.specs.declared.head.Head.{Head};

use crate::TypeNo;

/// How many values the type number in the low byte has.
const TYPE_NUMBERS: u64 = 256;

/// The flag of an object that lies in a page.
const OLD: u64 = 256;

/// The flag of an object in a half that survived a collection.
const SEEN: u64 = 512;

/// The flag of an object on a remembered set.
const REMEMBERED: u64 = 1024;

/// The flag of an old object that a full collection has reached.
const MARKED: u64 = 2048;

/// The flag that every header has, above all others.
const HEADER: u64 = 4096;

/// What a header word says: the object's type, and the collector's flags.
#[derive(Clone, Copy, Debug, PartialEq, Eq)]
pub struct Head {
    pub ty: TypeNo,
    pub old: bool,
    pub seen: bool,
    pub remembered: bool,
    pub marked: bool,
}

impl Head {
    /// The header of a new object: all flags are off, but for `old` where it lies in a page.
    pub fn fresh(ty: TypeNo, old: bool) -> Head
        ensures { result ≡ fresh_head ty old }
    {
        Head {
            ty,
            old,
            seen: false,
            remembered: false,
            marked: false,
        }
    }

    /// The header word.
    pub fn word(self) -> u64
        ensures { result ≡ head_word self }
    {
        u64::from(self.ty.0)
            + value_of(self.old, OLD)
            + value_of(self.seen, SEEN)
            + value_of(self.remembered, REMEMBERED)
            + value_of(self.marked, MARKED)
            + HEADER
    }

    /// The header whose word this is. None exactly where it is no header's word.
    pub fn of_word(w: u64) -> Option<Head>
        ensures found { IfSome result (λ head. head_word head ≡ w) }
        ensures exact { (head : Head) → head.ty.0 < 256 → head_word head ≡ w → result ≡ Some head }
    {
        if w / HEADER != 1 {
            return None;
        }
        Some(Head {
            ty: TypeNo((w % TYPE_NUMBERS) as u8),
            old: has(w, OLD),
            seen: has(w, SEEN),
            remembered: has(w, REMEMBERED),
            marked: has(w, MARKED),
        })
    }
}

/// What a flag adds to the word.
fn value_of(on: bool, flag: u64) -> u64
    ensures { result ≡ flag_value on flag }
{
    if on { flag } else { 0 }
}

/// Whether a word has a flag.
fn has(w: u64, flag: u64) -> bool
    requires { 0 < flag }
    ensures { IsTrue result ↔ (w / flag % 2 ≡ 1) }
{
    w / flag % 2 == 1
}
