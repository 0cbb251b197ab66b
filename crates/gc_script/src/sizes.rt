//! Each size that a script may have: the mutators, the types, their shapes and the length of their names, the lines.

use crate::faulty::{read, type_name};
use crate::read_script;
use std::alloc::{AllocError, Global};
use std::test::Fail;

/// The lines before the types of a script of one mutator: 21 bytes.
const HEAD: &str = "moar-gc 1\n\
    mutators 1\n";

/// The longest name.
const LONGEST: &str = "abcdefghijklmnop";

/// So many types of one slot.
fn types(alloc: Global, count: u8) -> Result<String, AllocError> {
    let mut text = String::new(alloc);
    for index in 0..count {
        let name = type_name(alloc, index)?;
        writeln!(text, "type {name} 1 0")?;
    }
    Ok(text)
}

#[test]
fn each_number_of_mutators_is_read(rt: HostRuntime) -> Result<(), Fail> {
    for mutators in 1..=8u8 {
        let text = format!(in rt.alloc(); "moar-gc 1\nmutators {mutators}\n")?;
        let script = read_script(rt.alloc(), text.as_bytes())?;
        assert_eq!(rt; script.mutators(), mutators);
    }
    Ok(())
}

#[test]
fn each_number_of_types_is_read(rt: HostRuntime) -> Result<(), Fail> {
    for count in 0..=255u8 {
        let types = types(rt.alloc(), count)?;
        let text = format!(in rt.alloc(); "{HEAD}{types}0 clear r0\n")?;
        let script = read_script(rt.alloc(), text.as_bytes())?;
        assert_eq!(rt; script.types().count(), u16::from(count) + 1);
        assert_eq!(rt; script.count(), 1, "at {count} types");
    }
    Ok(())
}

#[test]
fn each_shape_is_read(rt: HostRuntime) -> Result<(), Fail> {
    for slots in 0..63u8 {
        for numbers in 0..63 - slots {
            let text = format!(in rt.alloc(); "{HEAD}type a {slots} {numbers}\n0 new r0 a\n")?;
            let outcome = read(rt.alloc(), text.as_bytes());
            assert_eq!(rt; outcome, Ok(1), "at {slots} and {numbers}");
        }
    }
    Ok(())
}

#[test]
fn each_length_of_a_name_is_read(rt: HostRuntime) -> Result<(), Fail> {
    for length in 1..=LONGEST.len() {
        if let Some(name) = LONGEST.get(..length) {
            let text = format!(in rt.alloc(); "{HEAD}type {name} 0 0\n0 new r0 {name}\n")?;
            let outcome = read(rt.alloc(), text.as_bytes());
            assert_eq!(rt; outcome, Ok(1), "at {name}");
        }
    }
    Ok(())
}

#[test]
fn each_number_of_lines_is_read(rt: HostRuntime) -> Result<(), Fail> {
    let mut text = String::from_str(rt.alloc(), HEAD)?;
    for count in 0..600usize {
        assert_eq!(rt; read(rt.alloc(), text.as_bytes()), Ok(count));
        text.push_str("0 clear r0\n")?;
    }
    Ok(())
}

// Each number of lines that is a power of two, up to 32,768, and one line more.
#[test]
fn many_lines_are_read(rt: HostRuntime) -> Result<(), Fail> {
    let mut text = String::from_str(rt.alloc(), HEAD)?;
    for count in 0..=32_769usize {
        if 512 < count && (count.is_power_of_two() || (count - 1).is_power_of_two()) {
            assert_eq!(rt; read(rt.alloc(), text.as_bytes()), Ok(count));
        }
        text.push_str("0 block\n")?;
    }
    Ok(())
}
