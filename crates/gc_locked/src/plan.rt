//! What each mutator calls: its lines in their order, and one End.
ghost use Rattle.std.specs.Prelude.{◌≡◌, ◌+◌, ◌<◌, ◌≤◌, ◌*◌, ℕ, length, map, slice_get, IfOk, Some};
ghost use Rattle.gc_locked.specs.Setup.{allowance_of_lines, call_at, mutator_at, places_of};

use gc_model::{Call, Line};
use std::alloc::{AllocError, Global};

/// How many collections lines may bring: two for each New, and one for each Collect.
pub(crate) fn allowance(lines: &[Line]) -> u32
    requires few { length lines.now ≤ 16777216 }
    ensures sum { result ≡ allowance_of_lines lines.now }
    ensures most { result ≤ 2 * length lines.now }
{
    let mut sum = 0;
    for index in 0..lines.len() {
        sum += lines[index].call.allowance();
    }
    sum
}

/// The places of each mutator's calls, in the order in which it makes them: of its lines among all of them, and behind all
/// lines of its End.
pub(crate) fn plans(
    alloc: Global,
    lines: &[Line],
    mutators: u8,
) -> Result<Vec<Vec<u32>>, AllocError>
    requires few { length lines.now ≤ 16777216 }
    ensures plans { IfOk result (λ plans. (t : ℕ) → t < mutators
        → slice_get (map (λ plan. plan.items) plans.items) t ≡ Some (places_of lines.now t)) }
{
    let mut plans = Vec::new(alloc);
    for t in 0..mutators {
        plans.push(plan(alloc, lines, t)?)?;
    }
    Ok(plans)
}

/// The places of a mutator's calls.
fn plan(alloc: Global, lines: &[Line], t: u8) -> Result<Vec<u32>, AllocError>
    requires few { length lines.now ≤ 16777216 }
    ensures plan { IfOk result (λ plan. plan.items ≡ places_of lines.now t) }
{
    let mut places = Vec::new(alloc);
    for index in 0..lines.len() {
        if lines[index].mutator == t {
            places.push(index as u32)?;
        }
    }
    places.push(lines.len() as u32 + u32::from(t))?;
    Ok(places)
}

/// The call at a place: that of the line there, or behind the lines an End.
pub(crate) fn call_at(lines: &[Line], place: u32) -> Call
    ensures { result ≡ call_at lines.now place }
{
    match lines.get(place as usize) {
        Some(line) => line.call,
        None => Call::End,
    }
}

/// The mutator whose call stands at a place.
pub(crate) fn mutator_at(lines: &[Line], place: u32) -> u8
    requires { place < length lines.now + 256 }
    ensures { result ≡ mutator_at lines.now place }
{
    match lines.get(place as usize) {
        Some(line) => line.mutator,
        None => (place as usize - lines.len()) as u8,
    }
}
