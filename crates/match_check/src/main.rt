//! Reads cases from standard input, one to a line, and prints the turns of the first tree and the work of each.
//! A case is an expression in postfix, a space and a word. In an expression `1` is the empty word, `.` a pair, `|` an or, `*` a star, and any other byte a letter.
#![tactic(auto)]

use alphabet::bytes::Bytes;
use expression::layout::Layout;
use expression::raw::RawNode;
use matching::fault::MatchFault;
use matching::reading::first_tree;
use std::alloc::{AllocError, Global};
use std::io;

/// The node that a byte stands for.
// Kept: both types are of other crates, so a From would need a type of its own here, which is no plainer.
fn node(byte: u8) -> RawNode {
    match byte {
        b'1' => RawNode::Empty,
        b'.' => RawNode::Pair,
        b'|' => RawNode::Or,
        b'*' => RawNode::Star,
        _ => RawNode::Letter(u16::from(byte)),
    }
}

/// The table of an expression in postfix.
fn table(heap: Global, postfix: &str) -> Result<Vec<RawNode>, AllocError> {
    postfix.bytes().map(node).collect(heap)
}

/// The digit of a byte that is 0 or 1.
fn digit(bit: u8) -> char {
    if bit == 0 { '0' } else { '1' }
}

/// What is answered to a case.
fn answer(heap: Global, table: &[RawNode], word: &[u8]) -> Result<String, AllocError> {
    let mut text = String::new(heap);
    let Ok(layout) = Layout::new::<Bytes>(heap, table) else {
        text.push_str("no layout")?;
        return Ok(text);
    };
    let mut work = [0; 512];
    let mut turns = [0; 128];
    match first_tree::<Bytes>(&layout, word, &mut work, &mut turns) {
        Ok(count) => {
            text.push_str("turns ")?;
            text.extend(turns.iter().take(count).map(|turn| digit(*turn)))?;
        }
        Err(MatchFault::NoWord(_)) => text.push_str("no word")?,
        Err(_) => text.push_str("no room")?,
    }
    text.push_str(", work")?;
    let width = usize::from(layout.places()) + 1;
    for row in work.chunks(width).take(word.len().saturating_add(1)) {
        text.push(' ')?;
        text.extend(row.iter().map(|bit| digit(*bit)))?;
    }
    Ok(text)
}

fn main(rt: HostRuntime) -> io::Result<()> {
    let heap = rt.alloc();
    for line in rt.lines(heap) {
        let line = line?;
        let (postfix, word) = line.split_once(' ').unwrap_or((&line, ""));
        let answer = answer(heap, &table(heap, postfix)?, word.as_bytes())?;
        println!(rt; "{line}: {answer}")?;
    }
    Ok(())
}
