//! The table of calls: how each call word is spelled, the kinds of the words behind it, from left to right, and the
//! call word and the numbers of each call. The writer goes by it, and the reader knows from it how many words to read.

ghost use Rattle.std.specs.Prelude.{◌≡◌, ◌≤◌, length, None, Some, IfSome, MatchOption};
ghost use Rattle.gc_script.specs.Calls.{call_word, kinds_of, parts_of, spelled_word};

use crate::fault::Cause;
use arrayvec::ArrayVec;
use gc_model::{Call, Reg};

/// The most words behind a call word.
const MOST_ARGUMENTS: usize = 4;

/// The numbers behind a call word, from left to right.
pub(crate) type Numbers = ArrayVec<u64, MOST_ARGUMENTS>;

/// The call words.
#[derive(Clone, Copy, Debug, PartialEq, Eq)]
pub(crate) enum CallWord {
    New,
    Get,
    Put,
    Ask,
    Set,
    Swap,
    Same,
    Copy,
    Clear,
    Share,
    Take,
    Await,
    Safepoint,
    Collect,
    Block,
    Unblock,
}

/// The kinds of words behind a call word: each gives a number.
#[derive(Clone, Copy, Debug, PartialEq, Eq)]
pub(crate) enum Kind {
    /// `r` and a number at most 15.
    Register,
    /// A number at most 255.
    Small,
    /// A number at most 15, a place of the common object.
    CommonPlace,
    /// A number at most 18446744073709551615.
    Number,
    /// The name of a declared type, which gives the type's number.
    TypeName,
}

/// The kinds of the words behind a call word, from left to right.
pub(crate) fn kinds_of(word: CallWord) -> &'static [Kind]
    ensures kinds { result.now ≡ kinds_of word }
    ensures few { length result.now ≤ 4 }
{
    match word {
        CallWord::New => &[Kind::Register, Kind::TypeName],
        CallWord::Get => &[Kind::Register, Kind::Register, Kind::Small],
        CallWord::Put => &[Kind::Register, Kind::Small, Kind::Register],
        CallWord::Ask => &[Kind::Register, Kind::Small],
        CallWord::Set => &[Kind::Register, Kind::Small, Kind::Number],
        CallWord::Swap => &[Kind::Register, Kind::Small, Kind::Number, Kind::Number],
        CallWord::Same | CallWord::Copy => &[Kind::Register, Kind::Register],
        CallWord::Clear => &[Kind::Register],
        CallWord::Share => &[Kind::CommonPlace, Kind::Register],
        CallWord::Take | CallWord::Await => &[Kind::Register, Kind::CommonPlace],
        CallWord::Safepoint | CallWord::Collect | CallWord::Block | CallWord::Unblock => &[],
    }
}

/// How a call word is spelled.
pub(crate) fn spelled_word(word: CallWord) -> &'static [u8]
    ensures word { result.now ≡ spelled_word word }
    ensures short { length result.now ≤ 9 }
{
    match word {
        CallWord::New => b"new",
        CallWord::Get => b"get",
        CallWord::Put => b"put",
        CallWord::Ask => b"ask",
        CallWord::Set => b"set",
        CallWord::Swap => b"swap",
        CallWord::Same => b"same",
        CallWord::Copy => b"copy",
        CallWord::Clear => b"clear",
        CallWord::Share => b"share",
        CallWord::Take => b"take",
        CallWord::Await => b"await",
        CallWord::Safepoint => b"safepoint",
        CallWord::Collect => b"collect",
        CallWord::Block => b"block",
        CallWord::Unblock => b"unblock",
    }
}

/// Which call word this is.
#[tactic(auto, unfolding(crate::specs::Calls::call_word))]
pub(crate) fn call_word(word: &[u8]) -> Result<CallWord, Cause>
    ensures { result ≡ call_word word.now }
{
    match word {
        b"new" => Ok(CallWord::New),
        b"get" => Ok(CallWord::Get),
        b"put" => Ok(CallWord::Put),
        b"ask" => Ok(CallWord::Ask),
        b"set" => Ok(CallWord::Set),
        b"swap" => Ok(CallWord::Swap),
        b"same" => Ok(CallWord::Same),
        b"copy" => Ok(CallWord::Copy),
        b"clear" => Ok(CallWord::Clear),
        b"share" => Ok(CallWord::Share),
        b"take" => Ok(CallWord::Take),
        b"await" => Ok(CallWord::Await),
        b"safepoint" => Ok(CallWord::Safepoint),
        b"collect" => Ok(CallWord::Collect),
        b"block" => Ok(CallWord::Block),
        b"unblock" => Ok(CallWord::Unblock),
        _ => Err(Cause::Word),
    }
}

/// The call word of a call and the numbers behind it. None exactly at End, which no line of a script makes.
pub(crate) fn parts_of(call: &Call) -> Option<(CallWord, Numbers)>
    ensures parts { MatchOption result (parts_of call.now ≡ None)
        (λ parts. parts_of call.now ≡ Some (parts.0, parts.1.items)) }
    ensures count { IfSome result (λ parts. length parts.1.items ≡ length (kinds_of parts.0)) }
{
    Some(match *call {
        Call::New { into, ty } => (CallWord::New, numbers(&[number(into), u64::from(ty.0)])),
        Call::Get { into, base, place } => (
            CallWord::Get,
            numbers(&[number(into), number(base), u64::from(place)]),
        ),
        Call::Put { base, place, value } => (
            CallWord::Put,
            numbers(&[number(base), u64::from(place), number(value)]),
        ),
        Call::Ask { base, place } => { (CallWord::Ask, numbers(&[number(base), u64::from(place)])) }
        Call::Set {
            base,
            place,
            number: value,
        } => (
            CallWord::Set,
            numbers(&[number(base), u64::from(place), value]),
        ),
        Call::SwapIf {
            base,
            place,
            expected,
            replacement,
        } => (
            CallWord::Swap,
            numbers(&[number(base), u64::from(place), expected, replacement]),
        ),
        Call::Same { left, right } => (CallWord::Same, numbers(&[number(left), number(right)])),
        Call::CopyReg { into, source } => {
            (CallWord::Copy, numbers(&[number(into), number(source)]))
        }
        Call::ClearReg { reg } => (CallWord::Clear, numbers(&[number(reg)])),
        Call::Share { place, value } => {
            (CallWord::Share, numbers(&[u64::from(place), number(value)]))
        }
        Call::Take { into, place } => (CallWord::Take, numbers(&[number(into), u64::from(place)])),
        Call::Await { into, place } => {
            (CallWord::Await, numbers(&[number(into), u64::from(place)]))
        }
        Call::Safepoint => (CallWord::Safepoint, numbers(&[])),
        Call::Collect => (CallWord::Collect, numbers(&[])),
        Call::Block => (CallWord::Block, numbers(&[])),
        Call::Unblock => (CallWord::Unblock, numbers(&[])),
        Call::End => return None,
    })
}

/// A register's number.
fn number(reg: Reg) -> u64
    ensures { result ≡ reg }
{
    u64::from(reg.index())
}

/// At most four numbers.
fn numbers(all: &[u64]) -> Numbers
    requires { length all.now ≤ 4 }
    ensures { result.items ≡ all.now }
{
    let mut numbers = ArrayVec::new();
    let _ = numbers.try_extend_from_slice(all);
    numbers
}
