//! Lines that occur once in each of two texts, which guide the search for common lines. No contract depends on them.

use crate::hashed_line::HashedLine;
use std::alloc::{AllocError, Global};

/// Indices of a line in each of two texts.
#[derive(Clone, Copy)]
pub struct Indices {
    pub old: usize,
    pub new: usize,
}

/// The hash of a line, its index, and whether it is in the old text.
#[derive(Clone, Copy)]
struct LineMark {
    hash: u64,
    index: usize,
    is_old: bool,
}

/// The last pair of a run: its index in the new text, and its number among all pairs.
#[derive(Clone, Copy)]
struct RunEnd {
    new: usize,
    number: usize,
}

/// Adds the lines of one text.
fn push_marks(
    marks: &mut Vec<LineMark>,
    lines: &[HashedLine<'_>],
    is_old: bool,
) -> Result<(), AllocError> {
    for (index, line) in lines.iter().enumerate() {
        let hash = line.hash();
        marks.push(LineMark {
            hash,
            index,
            is_old,
        })?;
    }
    Ok(())
}

/// Returns whether the mark with the number is missing or has another hash.
fn lacks(marks: &[LineMark], number: usize, hash: u64) -> bool {
    match marks.get(number) {
        Some(mark) => mark.hash != hash,
        None => true,
    }
}

/// Returns the lines that occur once in each text. The marks are in order of their hashes; of equal hashes, those of
/// the old text come first.
fn pairs(alloc: Global, marks: &[LineMark]) -> Result<Vec<Indices>, AllocError> {
    let mut pairs = Vec::new(alloc);
    for number in 1..marks.len() {
        let left = marks[number - 1];
        let right = marks[number];
        let is_alone = (number < 2 || lacks(marks, number - 2, left.hash))
            && lacks(marks, number.saturating_add(1), left.hash);
        if is_alone && left.hash == right.hash && left.is_old && !right.is_old {
            pairs.push(Indices {
                old: left.index,
                new: right.index,
            })?;
        }
    }
    Ok(pairs)
}

/// Returns a longest run of the pairs that rises in the new text too, the last pair first.
fn rising(alloc: Global, pairs: &[Indices]) -> Result<Vec<Indices>, AllocError> {
    let mut ends: Vec<RunEnd> = Vec::new(alloc);
    let mut before: Vec<usize> = Vec::new(alloc);
    for (number, pair) in pairs.iter().enumerate() {
        let end = RunEnd {
            new: pair.new,
            number,
        };
        let rank = ends.partition_point(|other| other.new < end.new);
        before.push(number_before(&ends, rank))?;
        match ends.get_mut(rank) {
            Some(place) => *place = end,
            None => ends.push(end)?,
        }
    }
    run_back(alloc, pairs, &before, number_before(&ends, ends.len()))
}

/// Returns the number of the pair that ends the run of the rank below, or a number that no pair has if no such run
/// exists.
fn number_before(ends: &[RunEnd], rank: usize) -> usize {
    if rank == 0 {
        return usize::MAX;
    }
    match ends.get(rank - 1) {
        Some(end) => end.number,
        None => usize::MAX,
    }
}

/// Returns the pairs of a run, from the last one back to the first.
fn run_back(
    alloc: Global,
    pairs: &[Indices],
    before: &[usize],
    last: usize,
) -> Result<Vec<Indices>, AllocError> {
    let mut run = Vec::new(alloc);
    let mut number = last;
    for _ in 0..pairs.len() {
        match pairs.get(number) {
            Some(pair) => run.push(*pair)?,
            None => return Ok(run),
        }
        number = match before.get(number) {
            Some(other) => *other,
            None => usize::MAX,
        };
    }
    Ok(run)
}

/// Returns a longest list of lines that occur once in each text and rise in both, the last one first.
pub fn single_lines(
    alloc: Global,
    old: &[HashedLine<'_>],
    new: &[HashedLine<'_>],
) -> Result<Vec<Indices>, AllocError> {
    let mut marks = Vec::new(alloc);
    push_marks(&mut marks, old, true)?;
    push_marks(&mut marks, new, false)?;
    marks.sort_by_key(|mark| mark.hash)?;
    let mut pairs = pairs(alloc, &marks)?;
    pairs.sort_by_key(|pair| pair.old)?;
    rising(alloc, &pairs)
}
