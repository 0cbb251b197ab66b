//! Reading a call line: a mutator, a call word and the words behind it. What a call word reads is what the table of
//! calls says of it; each has a function of its own, since a loop over the kinds of its words takes longer.

ghost use Rattle.std.specs.Prelude.{◌≡◌, ℕ, ◌<◌, List, length, map, MatchResult};
ghost use Rattle.gc_script.specs.Calls.{kinds_of};
ghost use Rattle.gc_script.specs.declared.calls.CallWord.TheVariants.{New, Get, Put, Ask, Set, Swap, Same, Copy, Clear, Share, Take, Await};
ghost use Rattle.gc_script.specs.Grammar.{call_line, counted_word, call_of};

use crate::calls::{CallWord, call_word, kinds_of};
use crate::fault::Cause;
use crate::names::Names;
use crate::preamble::Preamble;
use crate::words::{common_place, mutator_below, number, register, small};
use gc_layout::TypeNo;
use gc_model::{Call, Line};

/// A call line: a mutator, a call word and what stands behind it.
#[tactic(auto, unfolding(crate::specs::Grammar::call_line))]
pub(crate) fn call_line(preamble: &Preamble, words: &[&[u8]]) -> Result<Line, Cause>
    ensures { result ≡ call_line preamble.now (map (λ word. word.now) words.now) }
{
    let [mutator, word, arguments @ ..] = words else {
        return Err(Cause::Word);
    };
    let word = counted_word(word, arguments)?;
    let mutator = mutator_below(preamble.mutators(), mutator)?;
    let call = call_of(preamble.names(), word, arguments)?;
    Ok(Line { mutator, call })
}

/// Which call word this is, where so many words stand behind it as it takes.
#[tactic(auto, unfolding(crate::specs::Grammar::counted_word))]
fn counted_word(word: &[u8], arguments: &[&[u8]]) -> Result<CallWord, Cause>
    ensures word { result ≡ counted_word word.now (map (λ word. word.now) arguments.now) }
    ensures count { MatchResult result (λ word. length arguments.now ≡ length (kinds_of word)) (λ cause. Unit {0}) }
{
    let word = call_word(word)?;
    if arguments.len() == kinds_of(word).len() {
        Ok(word)
    } else {
        Err(Cause::Word)
    }
}

/// The call of a call word and the words behind it, which are as many as it takes.
#[tactic(auto, unfolding(crate::specs::Words::numbers_of))]
fn call_of(names: &Names, word: CallWord, words: &[&[u8]]) -> Result<Call, Cause>
    requires types { length names.now < 256 }
    requires count { length words.now ≡ length (kinds_of word) }
    ensures { result ≡ call_of names.now word (map (λ word. word.now) words.now) }
{
    match word {
        CallWord::New => new_call(names, words),
        CallWord::Get => get_call(words),
        CallWord::Put => put_call(words),
        CallWord::Ask => ask_call(words),
        CallWord::Set => set_call(words),
        CallWord::Swap => swap_call(words),
        CallWord::Same => same_call(words),
        CallWord::Copy => copy_call(words),
        CallWord::Clear => clear_call(words),
        CallWord::Share => share_call(words),
        CallWord::Take => take_call(words),
        CallWord::Await => await_call(words),
        CallWord::Safepoint => Ok(Call::Safepoint),
        CallWord::Collect => Ok(Call::Collect),
        CallWord::Block => Ok(Call::Block),
        CallWord::Unblock => Ok(Call::Unblock),
    }
}

// What stands behind each call word, from left to right.

#[tactic(auto, unfolding(crate::specs::Words::numbers_of))]
fn new_call(names: &Names, words: &[&[u8]]) -> Result<Call, Cause>
    requires types { length names.now < 256 }
    requires count { length words.now ≡ 2 }
    ensures { result ≡ call_of names.now New (map (λ word. word.now) words.now) }
{
    let [into, name] = words else {
        unreachable!();
    };
    Ok(Call::New {
        into: register(into)?,
        ty: TypeNo(names.type_named(name)?),
    })
}

#[tactic(auto, unfolding(crate::specs::Words::numbers_of))]
fn get_call(words: &[&[u8]]) -> Result<Call, Cause>
    requires { length words.now ≡ 3 }
    ensures { (names : List (List ℕ)) → result ≡ call_of names Get (map (λ word. word.now) words.now) }
{
    let [into, base, place] = words else {
        unreachable!();
    };
    Ok(Call::Get {
        into: register(into)?,
        base: register(base)?,
        place: small(place)?,
    })
}

#[tactic(auto, unfolding(crate::specs::Words::numbers_of))]
fn put_call(words: &[&[u8]]) -> Result<Call, Cause>
    requires { length words.now ≡ 3 }
    ensures { (names : List (List ℕ)) → result ≡ call_of names Put (map (λ word. word.now) words.now) }
{
    let [base, place, value] = words else {
        unreachable!();
    };
    Ok(Call::Put {
        base: register(base)?,
        place: small(place)?,
        value: register(value)?,
    })
}

#[tactic(auto, unfolding(crate::specs::Words::numbers_of))]
fn ask_call(words: &[&[u8]]) -> Result<Call, Cause>
    requires { length words.now ≡ 2 }
    ensures { (names : List (List ℕ)) → result ≡ call_of names Ask (map (λ word. word.now) words.now) }
{
    let [base, place] = words else {
        unreachable!();
    };
    Ok(Call::Ask {
        base: register(base)?,
        place: small(place)?,
    })
}

#[tactic(auto, unfolding(crate::specs::Words::numbers_of))]
fn set_call(words: &[&[u8]]) -> Result<Call, Cause>
    requires { length words.now ≡ 3 }
    ensures { (names : List (List ℕ)) → result ≡ call_of names Set (map (λ word. word.now) words.now) }
{
    let [base, place, value] = words else {
        unreachable!();
    };
    Ok(Call::Set {
        base: register(base)?,
        place: small(place)?,
        number: number(value)?,
    })
}

#[tactic(auto, unfolding(crate::specs::Words::numbers_of))]
fn swap_call(words: &[&[u8]]) -> Result<Call, Cause>
    requires { length words.now ≡ 4 }
    ensures { (names : List (List ℕ)) → result ≡ call_of names Swap (map (λ word. word.now) words.now) }
{
    let [base, place, expected, replacement] = words else {
        unreachable!();
    };
    Ok(Call::SwapIf {
        base: register(base)?,
        place: small(place)?,
        expected: number(expected)?,
        replacement: number(replacement)?,
    })
}

#[tactic(auto, unfolding(crate::specs::Words::numbers_of))]
fn same_call(words: &[&[u8]]) -> Result<Call, Cause>
    requires { length words.now ≡ 2 }
    ensures { (names : List (List ℕ)) → result ≡ call_of names Same (map (λ word. word.now) words.now) }
{
    let [left, right] = words else {
        unreachable!();
    };
    Ok(Call::Same {
        left: register(left)?,
        right: register(right)?,
    })
}

#[tactic(auto, unfolding(crate::specs::Words::numbers_of))]
fn copy_call(words: &[&[u8]]) -> Result<Call, Cause>
    requires { length words.now ≡ 2 }
    ensures { (names : List (List ℕ)) → result ≡ call_of names Copy (map (λ word. word.now) words.now) }
{
    let [into, source] = words else {
        unreachable!();
    };
    Ok(Call::CopyReg {
        into: register(into)?,
        source: register(source)?,
    })
}

#[tactic(auto, unfolding(crate::specs::Words::numbers_of))]
fn clear_call(words: &[&[u8]]) -> Result<Call, Cause>
    requires { length words.now ≡ 1 }
    ensures { (names : List (List ℕ)) → result ≡ call_of names Clear (map (λ word. word.now) words.now) }
{
    let [reg] = words else {
        unreachable!();
    };
    Ok(Call::ClearReg {
        reg: register(reg)?,
    })
}

#[tactic(auto, unfolding(crate::specs::Words::numbers_of))]
fn share_call(words: &[&[u8]]) -> Result<Call, Cause>
    requires { length words.now ≡ 2 }
    ensures { (names : List (List ℕ)) → result ≡ call_of names Share (map (λ word. word.now) words.now) }
{
    let [place, value] = words else {
        unreachable!();
    };
    Ok(Call::Share {
        place: common_place(place)?,
        value: register(value)?,
    })
}

#[tactic(auto, unfolding(crate::specs::Words::numbers_of))]
fn take_call(words: &[&[u8]]) -> Result<Call, Cause>
    requires { length words.now ≡ 2 }
    ensures { (names : List (List ℕ)) → result ≡ call_of names Take (map (λ word. word.now) words.now) }
{
    let [into, place] = words else {
        unreachable!();
    };
    Ok(Call::Take {
        into: register(into)?,
        place: common_place(place)?,
    })
}

#[tactic(auto, unfolding(crate::specs::Words::numbers_of))]
fn await_call(words: &[&[u8]]) -> Result<Call, Cause>
    requires { length words.now ≡ 2 }
    ensures { (names : List (List ℕ)) → result ≡ call_of names Await (map (λ word. word.now) words.now) }
{
    let [into, place] = words else {
        unreachable!();
    };
    Ok(Call::Await {
        into: register(into)?,
        place: common_place(place)?,
    })
}
