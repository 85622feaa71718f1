//! Marks and bytes that are read, and what is refused.
use crate::fault::MatchFault;
use crate::reading::first_tree;
use alphabet::bytes::Bytes;
use alphabet::mark::Mark;
use alphabet::marks::Marks;
use expression::layout::Layout;
use expression::raw::RawNode;
use std::alloc::Global;
use std::test::Fail;

/// The number of turns that a word of marks has, and a buffer with them at its start.
fn read_marks(heap: Global, table: &[RawNode], classes: &[u16]) -> Result<(usize, [u8; 9]), Fail> {
    let layout = Layout::new::<Marks>(heap, table)?;
    let letters: Vec<Mark> = classes
        .iter()
        .filter_map(|class| Mark::new(100, *class))
        .collect(heap)?;
    let mut work = [9; 64];
    let mut turns = [7; 9];
    let count = first_tree::<Marks>(&layout, &letters, &mut work, &mut turns)?;
    Ok((count, turns))
}

#[test]
fn worked_lines(rt: HostRuntime) -> Result<(), Fail> {
    let heap = rt.alloc();
    let h = RawNode::Letter(401);
    let m = RawNode::Letter(402);
    let none = RawNode::Empty;
    let pair = RawNode::Pair;
    let or = RawNode::Or;
    let star = RawNode::Star;
    let days = [
        m, none, or, h, star, m, none, or, pair, pair, m, none, or, h, star, m, none, or, pair,
        pair, pair,
    ];
    assert_eq!(rt;
        read_marks(heap, &days, &[1, 2, 1])?,
        (8, [1, 0, 1, 0, 1, 0, 1, 1, 7])
    );
    assert_eq!(rt;
        read_marks(heap, &[none, h, or, h, star, pair], &[1])?,
        (2, [1, 1, 7, 7, 7, 7, 7, 7, 7])
    );
    assert_eq!(rt;
        read_marks(heap, &[h, none, or, h, none, or, star, pair], &[1])?,
        (2, [0, 1, 7, 7, 7, 7, 7, 7, 7])
    );
    assert_eq!(rt;
        read_marks(heap, &[h, star, star], &[1, 1])?,
        (5, [0, 0, 0, 1, 1, 7, 7, 7, 7])
    );
    assert_eq!(rt;
        read_marks(heap, &[none, none, or], &[])?,
        (1, [0, 7, 7, 7, 7, 7, 7, 7, 7])
    );
    Ok(())
}

#[test]
fn refusals(rt: HostRuntime) -> Result<(), Fail> {
    let a = RawNode::Letter(97);
    let b = RawNode::Letter(98);
    let layout = Layout::new::<Bytes>(rt.alloc(), &[a, RawNode::Star, b, RawNode::Pair])?;
    let mut work = [9; 13];
    let mut turns = [7; 4];
    assert_eq!(rt;
        first_tree::<Bytes>(&layout, b"aab", &mut work[..11], &mut turns),
        Err(MatchFault::ShortWork(12))
    );
    assert_eq!(rt; work, [9; 13]);
    assert_eq!(rt;
        first_tree::<Bytes>(&layout, b"aa", &mut work, &mut turns),
        Err(MatchFault::NoWord(2))
    );
    assert_eq!(rt; work, [0, 0, 0, 0, 0, 0, 0, 0, 1, 9, 9, 9, 9]);
    assert_eq!(rt;
        first_tree::<Bytes>(&layout, b"aab", &mut work, &mut turns[..2]),
        Err(MatchFault::ShortTurns(3))
    );
    assert_eq!(rt; turns, [7; 4]);
    assert_eq!(rt;
        first_tree::<Bytes>(&layout, b"aab", &mut work, &mut turns[..3]),
        Ok(3)
    );
    assert_eq!(rt; turns, [0, 0, 1, 7]);
    assert_eq!(rt; work, [1, 1, 0, 1, 1, 0, 1, 1, 0, 0, 0, 1, 9]);
    Ok(())
}
