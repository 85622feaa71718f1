//! Judges long lists of rows and a long word between wide layouts. The verdicts go to standard output, the time to standard error.
//!
//! The lists are slow for a look-up that goes through all the rows: every place of the earlier layout follows every other, and where a row
//! of one place is judged, the first row of most followers fails only at the last place of its set.
#![tactic(auto)]

use alphabet::bytes::Bytes;
use containment::judge::judge_rows;
use containment::word::refutes;
use expression::layout::Layout;
use expression::raw::RawNode;
use figures::Figures;
use std::alloc::{AllocError, Global};
use std::io;
use std::time::Instant;

/// How often a list is judged.
const TIMES: usize = 10;

/// Adds the nodes of a star over `letters` letters, joined by ors.
fn push_star(table: &mut Vec<RawNode>, letters: usize) -> Result<(), AllocError> {
    let a = RawNode::Letter(97);
    table.push(a)?;
    for _ in 1..letters {
        table.push(a)?;
        table.push(RawNode::Or)?;
    }
    table.push(RawNode::Star)?;
    Ok(())
}

/// A layout of stars over so many letters each, joined by ors.
fn layout(heap: Global, stars: &[usize]) -> Result<Option<Layout>, AllocError> {
    let mut table = Vec::new(heap);
    for (i, letters) in stars.iter().enumerate() {
        push_star(&mut table, *letters)?;
        if i > 0 {
            table.push(RawNode::Or)?;
        }
    }
    Ok(Layout::new::<Bytes>(heap, &table).ok())
}

/// Adds a row of `count` places from `first` on.
fn push_row(numbers: &mut Vec<u16>, place: u16, first: u16, count: u16) -> Result<(), AllocError> {
    numbers.push(place)?;
    numbers.push(count)?;
    numbers.extend(first..first.saturating_add(count))
}

/// The first row, rows of 65 places for 122 of the places, then 2,734 rows of one place; and a last row of one place.
fn list(heap: Global, last: u16) -> Result<Vec<u16>, AllocError> {
    let mut numbers = Vec::new(heap);
    push_row(&mut numbers, 0, 0, 1)?;
    for place in 1..123 {
        push_row(&mut numbers, place, 1, 65)?;
    }
    for i in 0..2734 {
        push_row(&mut numbers, i % 127 + 1, 1, 1)?;
    }
    push_row(&mut numbers, 127, last, 1)?;
    Ok(numbers)
}

/// The figures of a refusal, or zeros where there is none.
// Kept: three numbers and no Figures, since a line prints them as a tuple.
fn figures<F: Into<Figures>>(refusal: Option<F>) -> (u16, usize, usize) {
    refusal.map_or((0, 0, 0), |fault| {
        let figures = fault.into();
        (figures.number, figures.first, figures.second)
    })
}

/// Judges the list ten times, and tells how often it was accepted and what it was refused for.
fn judge(rt: &HostRuntime, earlier: &Layout, later: &Layout, last: u16) -> io::Result<()> {
    let numbers = list(rt.alloc(), last)?;
    let start = Instant::now(rt)?;
    let mut refused: usize = 0;
    let mut fault = None;
    for _ in 0..TIMES {
        fault = judge_rows(earlier, later, &numbers).err();
        if fault.is_some() {
            refused = refused.saturating_add(1);
        }
    }
    let time = start.elapsed(rt)?;
    let count = numbers.len();
    let accepted = TIMES.saturating_sub(refused);
    let why = figures(fault);
    println!(rt; "{count} numbers: {accepted} accepted, {refused} refused {why:?}")?;
    eprintln!(rt; "ten times {count} numbers: {time:?}")
}

/// Judges a word of 20,000 letters.
fn judge_word(rt: &HostRuntime, earlier: &Layout, later: &Layout) -> io::Result<()> {
    let word = vec![in rt.alloc(); 97u8; 20000]?;
    let start = Instant::now(rt)?;
    let verdict = refutes::<Bytes>(earlier, later, &word);
    let time = start.elapsed(rt)?;
    let count = word.len();
    let why = figures(verdict.err());
    println!(rt; "{count} letters: refused {why:?}")?;
    eprintln!(rt; "{count} letters: {time:?}")
}

fn main(rt: HostRuntime) -> io::Result<()> {
    let heap = rt.alloc();
    // Each of 127 letters follows every other.
    let Some(earlier) = layout(heap, &[127])? else {
        return println!(rt; "no layout");
    };
    // The first 64 letters follow each other, and so do the other 60.
    let Some(later) = layout(heap, &[64, 60])? else {
        return println!(rt; "no layout");
    };
    judge(&rt, &earlier, &later, 1)?;
    judge(&rt, &earlier, &later, 65)?;
    judge_word(&rt, &earlier, &later)
}
