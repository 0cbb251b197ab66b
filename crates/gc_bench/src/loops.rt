//! What is timed.

ghost use Rattle.std.specs.Prelude.{◌≡◌, ◌<◌, vec_len};

use crate::random::Random;
use gc_bay::Bay;
use gc_gen2::{Gen2, class_of};
use gc_layout::{NoMemory, Places};
use std::alloc::{AllocError, Global};

/// The words of an array of 1 MiB.
const WORDS: usize = 131_072;

/// The pages whose cells are taken and given back.
const PAGES: u16 = 128;

/// How many cells are asked for before the loop begins: so many that none is free afterwards.
const FIRST_CELLS: usize = 40_000;

/// How many cells are free at each moment of the loop, at most.
const FREE_CELLS: usize = 256;

/// Adds one to a word at a pseudo-random place, so many times, and gives the last word's count.
pub(crate) fn steps(alloc: Global, count: u64) -> Result<u64, NoMemory> {
    let Ok(mut words) = vec![in alloc; 0_u64; WORDS] else {
        return Err(NoMemory);
    };
    let mut random = Random::start();
    for _ in 0..count {
        let index = random.next();
        if let Some(word) = words.get_mut(index) {
            *word = word.wrapping_add(1);
        }
    }
    Ok(words.last().copied().unwrap_or(0))
}

/// Takes the next words of a half, 2 to 9, and flips where there are fewer, so many times, and adds up the addresses.
pub(crate) fn bumps(alloc: Global, count: u64) -> Result<u64, NoMemory> {
    let Some(places) = Places::make(1, 65_536, 1) else {
        return Err(NoMemory);
    };
    let mut bay = Bay::make(alloc, places, 0)?;
    let mut sum: u64 = 0;
    for n in 0..count {
        match bay.bump(2 + n % 8) {
            Some(address) => sum = sum.wrapping_add(address),
            None => bay.flip(),
        }
    }
    Ok(sum)
}

/// A cell, and the size that it was taken for.
#[derive(Clone, Copy)]
struct Cell {
    offset: u64,
    size: u64,
}

/// Gives a cell back and takes another one again, in a pseudo-random order, so many times, and adds up the offsets.
pub(crate) fn cells(alloc: Global, count: u64) -> Result<u64, NoMemory> {
    let Ok(mut gen2) = Gen2::make(alloc, PAGES) else {
        return Err(NoMemory);
    };
    let Ok(mut cells) = first_cells(alloc, &mut gen2) else {
        return Err(NoMemory);
    };
    shuffle(cells.as_mut_slice());
    Ok(give_and_take(&mut gen2, cells.as_mut_slice(), count))
}

/// Cells of all classes, up to where there are no more.
fn first_cells(alloc: Global, gen2: &mut Gen2) -> Result<Vec<Cell>, AllocError> {
    let mut cells = Vec::with_capacity(alloc, FIRST_CELLS)?;
    let mut random = Random::start();
    for _ in 0..FIRST_CELLS {
        let size = 2 + random.next() as u64 % 63;
        if let Some(offset) = gen2.take_cell(class_of(size)) {
            cells.push(Cell { offset, size })?;
        }
    }
    Ok(cells)
}

/// Puts the cells into a pseudo-random order.
fn shuffle(cells: &mut [Cell]) {
    let mut random = Random::start();
    for last in (1..cells.len()).rev() {
        let other = random.next() % (last + 1);
        cells.swap(last, other);
    }
}

/// Goes round the cells, gives each back, and takes one for the cell that was given back some cells before.
fn give_and_take(gen2: &mut Gen2, cells: &mut [Cell], count: u64) -> u64 {
    let mut given = 0;
    let mut taken = cells.len().saturating_sub(FREE_CELLS);
    let mut sum: u64 = 0;
    for n in 0..count {
        if let Some(cell) = cells.get(given)
            && gen2.is_used(cell.offset)
        {
            gen2.give_cell(cell.offset);
        }
        if n >= FREE_CELLS as u64
            && let Some(cell) = cells.get_mut(taken)
            && let Some(offset) = gen2.take_cell(class_of(cell.size.clamp(2, 64)))
        {
            cell.offset = offset;
            sum = sum.wrapping_add(offset);
        }
        given = after(given, cells.len());
        taken = after(taken, cells.len());
    }
    sum
}

/// The index behind another one, going round so many.
fn after(index: usize, count: usize) -> usize {
    if index.saturating_add(1) < count {
        index + 1
    } else {
        0
    }
}
