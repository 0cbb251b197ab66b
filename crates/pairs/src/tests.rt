//! The language on its heap: values worked out by hand.

use crate::fault::Fault;
use crate::list;
use crate::machine::{AT, Counts, ELEMENT, FRESH, LIST, Machine};
use gc_model::Live;
use std::test::Fail;

#[test]
fn a_list_is_reversed_and_summed(rt: HostRuntime) -> Result<(), Fail> {
    let mut machine = Machine::make(rt.alloc(), 100).map_err(|_| "no machine")?;
    assert_eq!(rt; list::build(&mut machine, 5), Ok(()));
    assert_eq!(rt; list::first_number(&mut machine), Ok(1));
    assert_eq!(rt; list::sum(&mut machine), Ok(15));
    assert_eq!(rt; list::reverse(&mut machine), Ok(()));
    assert_eq!(rt; list::first_number(&mut machine), Ok(5));
    assert_eq!(rt; list::sum(&mut machine), Ok(15));
    Ok(())
}

/// The common object of 18 words, 10 numbers of 3 words and 10 pairs of 4 are kept.
#[test]
fn a_full_collection_counts_the_list(rt: HostRuntime) -> Result<(), Fail> {
    let mut machine = Machine::make(rt.alloc(), 100).map_err(|_| "no machine")?;
    assert_eq!(rt; list::build(&mut machine, 10), Ok(()));
    assert_eq!(rt; list::reverse(&mut machine), Ok(()));
    let kept = Live {
        objects: 21,
        words: 88,
    };
    assert_eq!(rt; machine.collect(), Ok(kept));
    assert_eq!(rt; machine.collections(), Counts { minor: 0, full: 1 });
    assert_eq!(rt; list::sum(&mut machine), Ok(55));
    Ok(())
}

#[test]
fn a_field_that_is_nothing_lets_a_register_be_nothing(rt: HostRuntime) -> Result<(), Fail> {
    let mut machine = Machine::make(rt.alloc(), 100).map_err(|_| "no machine")?;
    assert_eq!(rt; list::build(&mut machine, 1), Ok(()));
    assert_eq!(rt; machine.copy(AT, LIST), Ok(()));
    assert_eq!(rt; machine.is_nothing(AT), Ok(false));
    assert_eq!(rt; machine.rest(AT, LIST), Ok(()));
    assert_eq!(rt; machine.is_nothing(AT), Ok(true));
    Ok(())
}

#[test]
fn a_field_of_nothing_or_of_another_kind_is_a_fault(rt: HostRuntime) -> Result<(), Fail> {
    let mut machine = Machine::make(rt.alloc(), 100).map_err(|_| "no machine")?;
    assert_eq!(rt; machine.first(AT, LIST), Err(Fault::OfNothing));
    assert_eq!(rt; machine.new_number(ELEMENT, 7), Ok(()));
    assert_eq!(rt; machine.first(AT, ELEMENT), Err(Fault::OfAnotherKind));
    assert_eq!(rt; machine.set_rest(ELEMENT, LIST), Err(Fault::OfAnotherKind));
    assert_eq!(rt; machine.new_pair(FRESH), Ok(()));
    assert_eq!(rt; machine.number(FRESH), Err(Fault::OfAnotherKind));
    Ok(())
}

/// 3,000 numbers and pairs have 21,000 words, and a half and the pages have 12,000. What is still held afterwards is as it
/// was, and once the list is dropped there is room again.
#[test]
fn too_long_a_list_is_out_of_memory(rt: HostRuntime) -> Result<(), Fail> {
    let mut machine = Machine::make(rt.alloc(), 20_000).map_err(|_| "no machine")?;
    assert_eq!(rt; list::build(&mut machine, 3_000), Err(Fault::Full));
    assert!(rt; list::sum(&mut machine).is_ok());
    assert_eq!(rt; list::build(&mut machine, 1_000), Ok(()));
    assert_eq!(rt; list::sum(&mut machine), Ok(500_500));
    Ok(())
}

#[test]
fn a_new_value_wants_two_report_places(rt: HostRuntime) -> Result<(), Fail> {
    let mut machine = Machine::make(rt.alloc(), 1).map_err(|_| "no machine")?;
    assert_eq!(rt; machine.new_pair(LIST), Err(Fault::OutOfReports));
    let common = Live {
        objects: 1,
        words: 18,
    };
    assert_eq!(rt; machine.collect(), Ok(common));
    assert_eq!(rt; machine.collect(), Err(Fault::OutOfReports));
    Ok(())
}

#[test]
fn a_sum_that_no_number_holds_is_a_fault(rt: HostRuntime) -> Result<(), Fail> {
    let mut machine = Machine::make(rt.alloc(), 100).map_err(|_| "no machine")?;
    assert_eq!(rt; list::build(&mut machine, 2), Ok(()));
    assert_eq!(rt; machine.new_number(ELEMENT, u64::MAX), Ok(()));
    assert_eq!(rt; machine.set_first(LIST, ELEMENT), Ok(()));
    assert_eq!(rt; list::sum(&mut machine), Err(Fault::TooLarge));
    Ok(())
}
