//! Reads long words under large layouts. Standard output has what is answered, standard error how long it took.
#![tactic(auto)]

use alphabet::bytes::Bytes;
use expression::layout::Layout;
use expression::raw::RawNode;
use matching::fault::MatchFault;
use matching::reading::first_tree;
use std::alloc::{AllocError, Global};
use std::io;
use std::iter::{once, repeat_n};
use std::time::Instant;

/// The letters `a`, as many as `letters`, and then `b`, joined from the right by nodes of one kind, and then as many stars as `stars`.
fn table(
    heap: Global,
    letters: usize,
    join: RawNode,
    stars: usize,
) -> Result<Vec<RawNode>, AllocError> {
    repeat_n(RawNode::Letter(97), letters)
        .chain(once(RawNode::Letter(98)))
        .chain(repeat_n(join, letters))
        .chain(repeat_n(RawNode::Star, stars))
        .collect(heap)
}

/// Reads `count` letters `b` under a layout.
fn measure(rt: &HostRuntime, layout: &Layout, count: usize) -> io::Result<()> {
    let heap = rt.alloc();
    let letters = vec![in heap; 98u8; count]?;
    let mut work = vec![in heap; 0u8; 530_000]?;
    let mut turns = vec![in heap; 0u8; 530_000]?;
    let start = Instant::now(rt)?;
    let answer = first_tree::<Bytes>(layout, &letters, &mut work, &mut turns);
    let time = start.elapsed(rt)?;
    let (nodes, places) = (layout.len(), layout.places());
    println!(rt; "{count} letters, {nodes} nodes, {places} places: {answer:?}")?;
    eprintln!(rt; "{count} letters, {nodes} nodes, {places} places: {time:?}")
}

fn main(rt: HostRuntime) -> io::Result<()> {
    let heap = rt.alloc();
    let Ok(pairs) = Layout::new::<Bytes>(heap, &table(heap, 127, RawNode::Pair, 0)?) else {
        return println!(rt; "no layout");
    };
    let Ok(list) = Layout::new::<Bytes>(heap, &table(heap, 126, RawNode::Or, 2)?) else {
        return println!(rt; "no layout");
    };
    for count in [4096, 1024] {
        measure(&rt, &pairs, count)?;
        measure(&rt, &list, count)?;
    }
    Ok(())
}
