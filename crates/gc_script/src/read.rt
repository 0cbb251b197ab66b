//! Reading a whole text, line by line: the version line, the line of the mutators, the type lines, and the call lines.
//! Each loop reads one line and goes on behind it. What stays true is that the lines behind, read with what was
//! read so far, give what the whole text gives; so the first line that fails a test is the first fault.

ghost use Rattle.std.specs.Prelude.{◌≡◌, ℕ, ◌+◌, ◌^◌, ◌<◌, ◌≤◌, ◌↔◌, ◌⊎◌, length, map, Err, IfOk, IsErrOf, MatchResult};
ghost use Rattle.gc_script.specs.Fault.{Reads, Fails, at_line, located};
ghost use Rattle.gc_script.specs.declared.fault.ReadError.TheVariants.{Refused};
ghost use Rattle.gc_script.specs.Grammar.{IsScript, IsFirstFault, mutators_line, is_type_line, type_line, call_lines, body, after_version, script_of, script_with_calls};
ghost use Rattle.gc_script.specs.Script.{Script};
ghost use Rattle.gc_script.specs.Text.{most_bytes, lines_of};

use crate::call_line::call_line;
use crate::cut::{cut_line, split_line};
use crate::fault::{Cause, Fault, ReadError, ScriptFault, located};
use crate::lines::Lines;
use crate::preamble::Preamble;
use crate::script::Script;
use crate::words::number;
use std::alloc::Global;

/// The most bytes of a script.
const MOST_BYTES: usize = 16_777_216;

/// What the lines of a text say.
struct Parts {
    preamble: Preamble,
    lines: Lines,
}

/// Where the call lines begin: what is declared before them, the number of the first, and the text from
/// there on.
struct CallLines<'a> {
    preamble: Preamble,
    first: u32,
    text: &'a [u8],
}

/// Reads a script of at most 16,777,216 bytes; a longer text is Long. Of a text that is no script, it is the
/// first fault that is told: the least bad line, and the cause of its first failing test.
pub fn read_script(alloc: Global, bytes: &[u8]) -> Result<Script, ScriptFault>
    ensures script { IfOk result (IsScript bytes.now) }
    ensures long { IsErrOf result ScriptFault.Long ↔ (most_bytes < length bytes.now) }
    ensures bad { (line cause : ℕ) → result ≡ Err (ScriptFault.Bad line cause)
        → (length bytes.now ≤ most_bytes) × IsFirstFault bytes.now line cause }
    // The first fault is told, where memory suffices, and a text without one is read.
    ensures bad_is_told { (line cause : ℕ) → length bytes.now ≤ most_bytes → IsFirstFault bytes.now line cause
        → (result ≡ Err (ScriptFault.Bad line cause)) ⊎ (result ≡ Err ScriptFault.NoMemory) }
    ensures complete { (script : Script) → length bytes.now ≤ most_bytes → IsScript bytes.now script
        → MatchResult result (λ read. read ≡ script) (λ fault. fault ≡ ScriptFault.NoMemory) }
{
    if bytes.len() > MOST_BYTES {
        return Err(ScriptFault::Long);
    }
    match script(alloc, bytes) {
        Ok(script) => Ok(script),
        Err(ReadError::Memory) => Err(ScriptFault::NoMemory),
        Err(ReadError::Refused(fault)) => Err(ScriptFault::Bad {
            line: fault.line,
            cause: fault.cause.number(),
        }),
    }
}

/// The script that the text is, or its first fault.
#[tactic(auto, unfolding(crate::specs::Grammar::script_of_lines))]
fn script(alloc: Global, bytes: &[u8]) -> Result<Script, ReadError<Fault>>
    requires { length bytes.now ≤ most_bytes }
    ensures { Reads (λ script. script) result (script_of bytes.now) }
{
    match split_line(bytes) {
        Some((version, rest)) if version == b"moar-gc 1".as_slice() => {
            let Parts { preamble, lines } = after_version(alloc, rest)?;
            Ok(Script::new(preamble, lines))
        }
        _ => Err(refused(1, Cause::Version)),
    }
}

/// What stands behind the version line.
#[tactic(auto, unfolding(crate::specs::Grammar::after_version), using(crate::proofs::TruncationLemmas::truncated))]
fn after_version(alloc: Global, bytes: &[u8]) -> Result<Parts, ReadError<Fault>>
    requires { length bytes.now ≤ most_bytes }
    ensures parts { Reads (λ parts. record { preamble = parts.preamble; lines = parts.lines }) result (after_version (lines_of bytes.now)) }
    ensures few { IfOk result (λ parts. length parts.lines ≤ length bytes.now) }
{
    let Some((words, rest)) = cut_line(bytes) else {
        return Err(refused(2, Cause::Word));
    };
    match mutators_line(words.as_slice()) {
        Ok(mutators) => body(alloc, Preamble::make(alloc, mutators)?, rest),
        Err(cause) => Err(refused(2, cause)),
    }
}

/// Line 2: `mutators M`, with M from 1 to 8.
#[tactic(auto, unfolding(crate::specs::Grammar::mutators_line))]
fn mutators_line(words: &[&[u8]]) -> Result<u8, Cause>
    ensures value { result ≡ mutators_line (map (λ word. word.now) words.now) }
    ensures some { IfOk result (λ mutators. 1 ≤ mutators) }
    ensures few { IfOk result (λ mutators. mutators ≤ 8) }
{
    let [keyword, count] = words else {
        return Err(Cause::Word);
    };
    if *keyword != b"mutators".as_slice() {
        return Err(Cause::Word);
    }
    let mutators = number(count)?;
    if 0 < mutators && mutators <= 8 {
        Ok(mutators as u8)
    } else {
        Err(Cause::Mutator)
    }
}

/// The type lines and the call lines.
fn body(alloc: Global, declared: Preamble, bytes: &[u8]) -> Result<Parts, ReadError<Fault>>
    requires { length bytes.now ≤ most_bytes }
    ensures parts { Reads (λ parts. record { preamble = parts.preamble; lines = parts.lines }) result (body declared 3 (lines_of bytes.now)) }
    ensures few { IfOk result (λ parts. length parts.lines ≤ length bytes.now) }
{
    let CallLines {
        preamble,
        first,
        text,
    } = type_lines(alloc, declared, bytes)?;
    let lines = call_lines(alloc, &preamble, first, text)?;
    Ok(Parts { preamble, lines })
}

/// Reads the type lines, of which the first has the number 3.
#[tactic(auto, unfolding(crate::specs::Grammar::body), using(crate::proofs::TruncationLemmas::truncated))]
fn type_lines(
    alloc: Global,
    declared: Preamble,
    bytes: &[u8],
) -> Result<CallLines<'_>, ReadError<Fault>>
    requires { length bytes.now ≤ most_bytes }
    ensures body { MatchResult result
        (λ calls. script_with_calls calls.preamble calls.first (lines_of calls.text.now) ≡ body declared 3 (lines_of bytes.now))
        (λ error. Fails error (body declared 3 (lines_of bytes.now))) }
    ensures first { IfOk result (λ calls. calls.first + length calls.text.now ≤ 3 + length bytes.now) }
    ensures rest { IfOk result (λ calls. length calls.text.now ≤ length bytes.now) }
{
    let mut preamble = declared;
    let mut number: u32 = 3;
    let mut rest = bytes;
    while let Some((words, behind)) = cut_line(rest) {
        if !is_type_line(words.as_slice()) {
            break;
        }
        preamble = declare(alloc, preamble, number, words.as_slice())?;
        number += 1;
        rest = behind;
    }
    Ok(CallLines {
        preamble,
        first: number,
        text: rest,
    })
}

/// Whether the first word is `type`.
fn is_type_line(words: &[&[u8]]) -> bool
    ensures { result ≡ is_type_line (map (λ word. word.now) words.now) }
{
    match words {
        [keyword, ..] => *keyword == b"type".as_slice(),
        [] => false,
    }
}

/// What is declared once a type line is read, which has this number.
#[tactic(auto, using(crate::proofs::TruncationLemmas::truncated))]
fn declare(
    alloc: Global,
    preamble: Preamble,
    number: u32,
    words: &[&[u8]],
) -> Result<Preamble, ReadError<Fault>>
    ensures { Reads (λ preamble. preamble) result (at_line number (type_line preamble (map (λ word. word.now) words.now))) }
{
    match preamble.with_type_line(alloc, words) {
        Ok(preamble) => Ok(preamble),
        Err(error) => Err(located(number, error)),
    }
}

/// The call lines, of which the first has this number.
#[tactic(auto, unfolding(crate::specs::Grammar::call_lines), using(crate::proofs::TruncationLemmas::truncated))]
fn call_lines(
    alloc: Global,
    preamble: &Preamble,
    first: u32,
    bytes: &[u8],
) -> Result<Lines, ReadError<Fault>>
    requires { first + length bytes.now < 2 ^ 32 }
    ensures lines { Reads (λ lines. lines) result (call_lines preamble.now first (lines_of bytes.now)) }
    ensures few { IfOk result (λ lines. length lines ≤ length bytes.now) }
{
    let mut lines = Lines::new(alloc);
    let mut number = first;
    let mut rest = bytes;
    while let Some((words, behind)) = cut_line(rest) {
        match call_line(preamble, words.as_slice()) {
            Ok(line) => lines.push(line)?,
            Err(cause) => return Err(refused(number, cause)),
        }
        number += 1;
        rest = behind;
    }
    Ok(lines)
}

/// A failed test, at its line.
fn refused(line: u32, cause: Cause) -> ReadError<Fault>
    ensures { result ≡ located line (Refused cause) }
{
    ReadError::Refused(Fault { line, cause })
}
