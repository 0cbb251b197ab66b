//! Lists of the language: nothing is the empty list, and a pair is an element and the rest.
ghost use Rattle.std.specs.Prelude.{◌<◌};
ghost use Rattle.gc_layout.specs.Sizes.{register_count};

use crate::fault::Fault;
use crate::machine::{AT, ELEMENT, FRESH, LIST, MADE, Machine};

/// Lets the list be that of the numbers 1 to this one. It is made from its end.
pub(crate) fn build(machine: &mut Machine, last: u16) -> Result<(), Fault> {
    machine.clear(LIST)?;
    for number in (1..=last).rev() {
        machine.new_number(ELEMENT, u64::from(number))?;
        push(machine, LIST)?;
    }
    machine.clear(ELEMENT)
}

/// Reverses the list: makes a new one of its elements, and drops each pair of the old one behind it.
pub(crate) fn reverse(machine: &mut Machine) -> Result<(), Fault> {
    machine.clear(MADE)?;
    for _ in 0..u64::MAX {
        if machine.is_nothing(LIST)? {
            break;
        }
        machine.first(ELEMENT, LIST)?;
        machine.rest(LIST, LIST)?;
        push(machine, MADE)?;
    }
    machine.copy(LIST, MADE)?;
    machine.clear(MADE)?;
    machine.clear(ELEMENT)
}

/// The sum of the list's numbers.
pub(crate) fn sum(machine: &mut Machine) -> Result<u64, Fault> {
    let mut sum: u64 = 0;
    machine.copy(AT, LIST)?;
    for _ in 0..u64::MAX {
        if machine.is_nothing(AT)? {
            break;
        }
        machine.first(ELEMENT, AT)?;
        sum = sum
            .checked_add(machine.number(ELEMENT)?)
            .ok_or(Fault::TooLarge)?;
        machine.rest(AT, AT)?;
    }
    machine.clear(ELEMENT)?;
    Ok(sum)
}

/// The list's first number.
pub(crate) fn first_number(machine: &mut Machine) -> Result<u64, Fault> {
    machine.first(ELEMENT, LIST)?;
    machine.number(ELEMENT)
}

/// Puts the element at hand before a list.
fn push(machine: &mut Machine, list: u8) -> Result<(), Fault>
    requires { list < register_count }
{
    machine.new_pair(FRESH)?;
    machine.set_first(FRESH, ELEMENT)?;
    machine.set_rest(FRESH, list)?;
    machine.copy(list, FRESH)?;
    machine.clear(FRESH)
}
