//! Spells trees along layouts of bytes. Each line of the input has an expression, children first, and turns:
//! a letter is `a` to `z`, and `.` is the empty word, `&` a pair, `|` an or, `*` a star; no turns are `-`.
#![tactic(auto)]

use alphabet::bytes::Bytes;
use expression::layout::Layout;
use expression::raw::RawNode;
use std::alloc::{AllocError, Global};
use std::io;

/// The node that a byte stands for.
// Kept: both types are of other crates, so a From would need a type of its own here, which is no plainer.
fn node(byte: u8) -> RawNode {
    match byte {
        b'.' => RawNode::Empty,
        b'&' => RawNode::Pair,
        b'|' => RawNode::Or,
        b'*' => RawNode::Star,
        b'a'..=b'z' => RawNode::Letter(u16::from(byte)),
        _ => RawNode::Unknown(byte),
    }
}

/// The table that a text stands for.
fn table(heap: Global, text: &str) -> Result<Vec<RawNode>, AllocError> {
    text.bytes().map(node).collect(heap)
}

/// The turns that a text stands for.
fn turns(heap: Global, text: &str) -> Result<Vec<u8>, AllocError> {
    text.bytes()
        .filter(|byte| *byte != b'-')
        .map(|byte| byte.wrapping_sub(b'0'))
        .collect(heap)
}

/// Prints what the turns spell: how many letters, and the letters.
fn print_letters(rt: &HostRuntime, layout: &Layout, turns: &[u8]) -> io::Result<()> {
    let Some(count) = layout.measure(turns) else {
        return print!(rt; "none");
    };
    print!(rt; "{count} ")?;
    let mut letters = [0; 64];
    match layout.spell::<Bytes>(turns, &mut letters) {
        Ok(n) => {
            for letter in letters.iter().take(n) {
                print!(rt; "{}", char::from(*letter))?;
            }
            Ok(())
        }
        Err(_) => print!(rt; "?"),
    }
}

/// Prints the turns of the first tree without letters.
fn print_empty(rt: &HostRuntime, layout: &Layout) -> io::Result<()> {
    let mut turns = [0; 255];
    let Some(count) = layout.put_empty_tree(layout.root(), &mut turns, 0) else {
        return println!(rt; " none");
    };
    print!(rt; " ({count})")?;
    for turn in turns.iter().take(usize::from(count)) {
        print!(rt; " {turn}")?;
    }
    println!(rt; "")
}

fn main(rt: HostRuntime) -> io::Result<()> {
    for line in rt.lines(rt.alloc()) {
        let line = line?;
        let Some((expression, word)) = line.as_str().split_once(' ') else {
            println!(rt; "no turns")?;
            continue;
        };
        let table = table(rt.alloc(), expression)?;
        let turns = turns(rt.alloc(), word)?;
        match Layout::new::<Bytes>(rt.alloc(), &table) {
            Ok(layout) => {
                print_letters(&rt, &layout, &turns)?;
                print_empty(&rt, &layout)?;
            }
            Err(_) => println!(rt; "no layout")?,
        }
    }
    Ok(())
}
