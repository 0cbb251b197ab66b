//! The one spelling of each line of a script. A line is built word by word in a fixed room, which is more than the
//! longest line takes: each function says how much longer it makes the line.

ghost use Rattle.std.specs.Prelude.{◌≡◌, ◌+◌, ◌*◌, ◌<◌, ◌≤◌, [], ◌∷◌, ◌++◌, length, codes, decimal};
ghost use Rattle.gc_script.specs.Written.{spelled_line, spaced, register_word, word_of, words_of_kinds, call_words, call_text, type_text};

use crate::calls::{Kind, kinds_of, parts_of, spelled_word};
use crate::names::Names;
use arrayvec::ArrayVec;
use gc_layout::Shape;
use gc_model::Call;
use itoa::Buffer;

/// The most bytes of a line with its newline: more than a call word and four numbers take.
const LONGEST_LINE: usize = 128;

/// A line of a script with its newline.
pub(crate) type SpelledLine = ArrayVec<u8, LONGEST_LINE>;

/// Line 2: how many mutators there are.
pub(crate) fn mutators_text(mutators: u8) -> SpelledLine
    ensures { result.items ≡ spelled_line (codes "mutators" ∷ decimal mutators ∷ []) }
{
    let mut line = ArrayVec::new();
    push(&mut line, b"mutators");
    push_number(&mut line, u64::from(mutators));
    push(&mut line, b"\n");
    line
}

/// A type line.
pub(crate) fn type_text(name: &[u8], shape: Shape) -> SpelledLine
    requires { length name.now ≤ 16 }
    ensures { result.items ≡ type_text name.now shape }
{
    let mut line = ArrayVec::new();
    push(&mut line, b"type");
    push_word(&mut line, name);
    push_number(&mut line, u64::from(shape.slots));
    push_number(&mut line, u64::from(shape.numbers));
    push(&mut line, b"\n");
    line
}

/// A mutator's call line, where these are the names of the types.
pub(crate) fn call_text(names: &Names, mutator: u8, call: &Call) -> SpelledLine
    ensures { result.items ≡ call_text names.now (record { mutator = mutator; call = call.now }) }
{
    let mut line = ArrayVec::new();
    let mut buffer = Buffer::new();
    push(&mut line, buffer.format(mutator).as_bytes());
    push_call(&mut line, names, call);
    push(&mut line, b"\n");
    line
}

/// The words of a call, each behind a space.
fn push_call(line: &mut SpelledLine, names: &Names, call: &Call)
    requires { length line.old.items ≤ 3 }
    ensures text { line.new.items ≡ line.old.items ++ spaced (call_words names.now call.now) }
    ensures short { length line.new.items < 128 }
{
    if let Some((word, numbers)) = parts_of(call) {
        push_word(line, spelled_word(word));
        push_words(line, names, kinds_of(word), numbers.as_slice());
    }
}

/// The words of these kinds that give as many numbers, each behind a space.
fn push_words(line: &mut SpelledLine, names: &Names, kinds: &[Kind], numbers: &[u64])
    requires count { length numbers.now ≡ length kinds.now }
    requires few { length numbers.now ≤ 4 }
    requires room { length line.old.items ≤ 16 }
    ensures text { line.new.items ≡ line.old.items ++ spaced (words_of_kinds names.now kinds.now numbers.now) }
    ensures short { length line.new.items ≤ length line.old.items + 22 * length numbers.now }
{
    for (index, number) in numbers.iter().enumerate() {
        push_kind(line, names, kinds[index], *number);
    }
}

/// The word of a kind that gives a number, behind a space.
fn push_kind(line: &mut SpelledLine, names: &Names, kind: Kind, number: u64)
    requires { length line.old.items ≤ 106 }
    ensures text { line.new.items ≡ line.old.items ++ 32 ∷ word_of names.now kind number }
    ensures short { length line.new.items ≤ length line.old.items + 22 }
{
    match kind {
        Kind::Register => push_register(line, number),
        Kind::Small | Kind::CommonPlace | Kind::Number => push_number(line, number),
        Kind::TypeName => push_word(line, names.name_of(number)),
    }
}

/// A register of this number, behind a space.
fn push_register(line: &mut SpelledLine, number: u64)
    requires { length line.old.items ≤ 106 }
    ensures text { line.new.items ≡ line.old.items ++ 32 ∷ register_word number }
    ensures short { length line.new.items ≤ length line.old.items + 22 }
{
    let mut buffer = Buffer::new();
    push(line, b" r");
    push(line, buffer.format(number).as_bytes());
}

/// A number, behind a space.
fn push_number(line: &mut SpelledLine, number: u64)
    requires { length line.old.items ≤ 106 }
    ensures text { line.new.items ≡ line.old.items ++ 32 ∷ decimal number }
    ensures short { length line.new.items ≤ length line.old.items + 21 }
{
    let mut buffer = Buffer::new();
    push_word(line, buffer.format(number).as_bytes());
}

/// A word, behind a space.
fn push_word(line: &mut SpelledLine, word: &[u8])
    requires { length line.old.items + length word.now < 128 }
    ensures text { line.new.items ≡ line.old.items ++ 32 ∷ word.now }
    ensures short { length line.new.items ≡ length line.old.items + length word.now + 1 }
{
    push(line, b" ");
    push(line, word);
}

/// Bytes, behind what stands there.
fn push(line: &mut SpelledLine, bytes: &[u8])
    requires { length line.old.items + length bytes.now ≤ 128 }
    ensures text { line.new.items ≡ line.old.items ++ bytes.now }
    ensures short { length line.new.items ≡ length line.old.items + length bytes.now }
{
    let _ = line.try_extend_from_slice(bytes);
}
