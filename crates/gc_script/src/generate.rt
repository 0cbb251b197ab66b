//! Making the generated script. The room for all lines is taken first. Then each loop appends the lines of one
//! mutator, or of one round, and what stays true is that the lines are those of the mutators, or rounds, so far.

ghost use Rattle.std.specs.Prelude.{◌≡◌, ◌+◌, ◌*◌, ◌/◌, ◌%◌, ◌<◌, ◌≤◌, ◌++◌, flat_map, IfOk, OnOk};
ghost use Rattle.std.specs.List.{range_with_len};
ghost use Rattle.gc_layout.specs.Sizes.{register_count};
ghost use Rattle.gc_script.specs.Generated.{generated, generated_preamble, lines_by, table_lines, request_calls, round_lines, first_lines};

use crate::fault::ReadError;
use crate::lines::Lines;
use crate::preamble::Preamble;
use crate::script::Script;
use gc_layout::{NoMemory, Shape, TypeNo};
use gc_model::{Call, Line, Reg};
use std::alloc::{AllocError, Global};

/// How many mutators there are.
const MUTATORS: u8 = 4;

/// The type of a request.
const NODE: TypeNo = TypeNo(1);

/// The type of a cache of eight requests.
const TABLE: TypeNo = TypeNo(2);

/// The generated script of 1 to 100,000 rounds: `mutators 4`, the types `node 2 1` and `table 8 1`, eight lines in
/// which each mutator makes a table and shares it, and then for each round the lines of a request. It has
/// 10 lines a round and one more each 64th, 1,001,570 at the most.
pub fn make_script(alloc: Global, rounds: u32) -> Result<Script, NoMemory>
    requires some { 1 ≤ rounds }
    requires few { rounds ≤ 100000 }
    ensures { IfOk result (λ script. script ≡ generated rounds) }
{
    let preamble = preamble(alloc)?;
    match lines(alloc, rounds) {
        Ok(lines) => Ok(Script::new(preamble, lines)),
        Err(AllocError) => Err(NoMemory),
    }
}

/// Four mutators, and the types of nodes and tables.
#[tactic(auto, unfolding(crate::specs::Grammar::with_type))]
fn preamble(alloc: Global) -> Result<Preamble, NoMemory>
    ensures { IfOk result (λ preamble. preamble ≡ generated_preamble) }
{
    let Ok(bare) = Preamble::make(alloc, MUTATORS) else {
        return Err(NoMemory);
    };
    let node = Shape {
        slots: 2,
        numbers: 1,
    };
    let table = Shape {
        slots: 8,
        numbers: 1,
    };
    let Ok(with_node) = bare.with_type(alloc, b"node".as_slice(), node) else {
        return Err(NoMemory);
    };
    let Ok(with_table) = with_node.with_type(alloc, b"table".as_slice(), table) else {
        return Err(NoMemory);
    };
    Ok(with_table)
}

/// All call lines of so many rounds.
fn lines(alloc: Global, rounds: u32) -> Result<Lines, AllocError>
    ensures { IfOk result (λ lines. lines ≡ first_lines ++ flat_map round_lines (range_with_len 0 rounds)) }
{
    let mut lines = Lines::with_capacity(alloc, line_count(rounds))?;
    push_first_lines(&mut lines)?;
    for i in 0..rounds {
        push_round(&mut lines, i)?;
    }
    Ok(lines)
}

/// How many call lines so many rounds have.
fn line_count(rounds: u32) -> usize
    ensures { result ≡ 8 + 10 * rounds + rounds / 64 }
{
    8 + 10 * rounds as usize + rounds as usize / 64
}

/// Each mutator makes its table, and shares it.
fn push_first_lines(lines: &mut Lines) -> Result<(), AllocError>
    ensures { OnOk result (lines.new ≡ lines.old ++ first_lines) }
{
    let r15 = register(15);
    for mutator in 0..MUTATORS {
        push_calls(
            lines,
            mutator,
            &[
                Call::New {
                    into: r15,
                    ty: TABLE,
                },
                Call::Share {
                    place: mutator,
                    value: r15,
                },
            ],
        )?;
    }
    Ok(())
}

/// Round i, counted from 0.
fn push_round(lines: &mut Lines, i: u32) -> Result<(), AllocError>
    ensures { OnOk result (lines.new ≡ lines.old ++ round_lines i) }
{
    let mutator = (i % 4) as u8;
    push_request(lines, mutator, i)?;
    if i % 64 == 63 {
        push_calls(lines, mutator, &[Call::Collect])?;
    }
    Ok(())
}

/// The request of round i, by the mutator whose turn it is.
fn push_request(lines: &mut Lines, mutator: u8, i: u32) -> Result<(), AllocError>
    requires { mutator ≡ i % 4 }
    ensures { OnOk result (lines.new ≡ lines.old ++ lines_by (i % 4) (request_calls i)) }
{
    let group = i / 4;
    let place = (group % 8) as u8;
    let neighbour = (mutator + 1) % MUTATORS;
    let r0 = register(0);
    let r1 = register(1);
    let r2 = register(2);
    let r3 = register(3);
    let r15 = register(15);
    push_calls(
        lines,
        mutator,
        &[
            Call::New { into: r0, ty: NODE },
            Call::Set {
                base: r0,
                place: 0,
                number: u64::from(i),
            },
            Call::New { into: r1, ty: NODE },
            Call::Put {
                base: r0,
                place: 0,
                value: r1,
            },
            Call::Put {
                base: r1,
                place: 0,
                value: r15,
            },
            Call::Put {
                base: r15,
                place,
                value: r0,
            },
            Call::Take {
                into: r2,
                place: neighbour,
            },
            Call::Get {
                into: r3,
                base: r2,
                place,
            },
            Call::Ask { base: r3, place: 0 },
            Call::SwapIf {
                base: r15,
                place: 0,
                expected: u64::from(group),
                replacement: u64::from(group) + 1,
            },
        ],
    )
}

/// Appends calls of a mutator.
fn push_calls(lines: &mut Lines, mutator: u8, calls: &[Call]) -> Result<(), AllocError>
    ensures { OnOk result (lines.new ≡ lines.old ++ lines_by mutator calls.now) }
{
    for call in calls {
        lines.push(Line {
            mutator,
            call: *call,
        })?;
    }
    Ok(())
}

/// The register of a number.
fn register(number: u8) -> Reg
    requires { number < register_count }
    ensures { result ≡ number }
{
    Reg::make(number).unwrap()
}
