//! Rows and words between small layouts of bytes, and what judging them answers.
use crate::judge::judge_rows;
use crate::word::refutes;
use alphabet::bytes::Bytes;
use expression::layout::Layout;
use expression::raw::RawNode;
use figures::Figures;
use std::alloc::Global;
use std::test::Fail;

const A: RawNode = RawNode::Letter(97);

const B: RawNode = RawNode::Letter(98);

/// What `judge` refuses between two tables, or none if it accepts.
fn refusal<F: Into<Figures>, J: FnOnce(&Layout, &Layout) -> Result<(), F>>(
    heap: Global,
    earlier: &[RawNode],
    later: &[RawNode],
    judge: J,
) -> Option<(u16, usize, usize)>
    requires { J.IsAlwaysCallable judge }
{
    let earlier = Layout::new::<Bytes>(heap, earlier).ok()?;
    let later = Layout::new::<Bytes>(heap, later).ok()?;
    let figures = judge(&earlier, &later).err()?.into();
    Some((figures.number, figures.first, figures.second))
}

/// The refusal of rows between two tables, or none if they are accepted.
fn rows(
    heap: Global,
    earlier: &[RawNode],
    later: &[RawNode],
    rows: &[u16],
) -> Option<(u16, usize, usize)> {
    refusal(
        heap,
        earlier,
        later,
        |earlier, later| judge_rows(earlier, later, rows),
    )
}

/// The refusal of a word between two tables, or none if it is accepted.
fn word(
    heap: Global,
    earlier: &[RawNode],
    later: &[RawNode],
    word: &[u8],
) -> Option<(u16, usize, usize)> {
    refusal(
        heap,
        earlier,
        later,
        |earlier, later| refutes::<Bytes>(earlier, later, word),
    )
}

#[test]
fn rules(rt: HostRuntime) {
    let heap = rt.alloc();
    let star = [A, RawNode::Star];
    let two = [A, RawNode::Star, A, RawNode::Star, RawNode::Pair];
    let some = [A, A, RawNode::Star, RawNode::Pair];
    // Equal, in another order, doubled, with a row for place 0 again.
    assert_eq!(rt; rows(heap, &star, &star, &[0, 1, 0, 1, 1, 1]), None);
    assert_eq!(rt; rows(heap, &star, &two, &[0, 1, 0, 1, 1, 2, 1, 1, 1]), None);
    assert_eq!(rt; rows(heap, &star, &two, &[0, 1, 0, 1, 1, 1, 1, 1, 1]), None);
    assert_eq!(rt;
        rows(heap, &star, &two, &[0, 1, 0, 0, 2, 0, 1, 1, 1, 1]),
        None
    );
    // Included one way only, and apart.
    assert_eq!(rt;
        rows(heap, &some, &star, &[0, 1, 0, 1, 1, 1, 2, 1, 1]),
        None
    );
    assert_eq!(rt;
        rows(heap, &star, &some, &[0, 1, 0, 1, 1, 1]),
        Some((33, 0, 0))
    );
    assert_eq!(rt;
        rows(heap, &[A], &[B], &[0, 1, 0, 1, 1, 1]),
        Some((34, 0, 1))
    );
    // An empty set serves, and then may not end.
    assert_eq!(rt; rows(heap, &star, &two, &[0, 1, 0, 1, 0]), Some((33, 1, 0)));
    assert_eq!(rt;
        rows(heap, &some, &[A], &[0, 1, 0, 1, 1, 1]),
        Some((34, 1, 2))
    );
    assert_eq!(rt;
        rows(heap, &star, &two, &[0, 1, 1, 1, 1, 1]),
        Some((32, 0, 0))
    );
    assert_eq!(rt; rows(heap, &star, &two, &[1, 1, 0]), Some((32, 0, 0)));
}

#[test]
fn order(rt: HostRuntime) -> Result<(), Fail> {
    let heap = rt.alloc();
    let star = [A, RawNode::Star];
    assert_eq!(rt; rows(heap, &star, &star, &[]), Some((31, 0, 0)));
    assert_eq!(rt; rows(heap, &star, &star, &[2, 9]), Some((31, 0, 0)));
    assert_eq!(rt; rows(heap, &star, &star, &[0, 3]), Some((31, 1, 0)));
    assert_eq!(rt; rows(heap, &star, &star, &[0, 1, 2]), Some((31, 2, 0)));
    assert_eq!(rt; rows(heap, &star, &star, &[0, 2, 1, 1]), Some((31, 3, 0)));
    assert_eq!(rt; rows(heap, &star, &star, &[0]), Some((31, 1, 0)));
    assert_eq!(rt; rows(heap, &star, &star, &[0, 2, 0]), Some((31, 3, 0)));
    let mut many = vec![in heap; 0u16; 16384]?;
    assert_eq!(rt; rows(heap, &star, &star, &many), Some((32, 0, 0)));
    many.push(9)?;
    assert_eq!(rt; rows(heap, &star, &star, &many), Some((31, 16384, 0)));
    Ok(())
}

#[test]
fn words(rt: HostRuntime) {
    let heap = rt.alloc();
    let star = [A, RawNode::Star];
    let some = [A, A, RawNode::Star, RawNode::Pair];
    assert_eq!(rt; word(heap, &star, &some, b""), None);
    assert_eq!(rt; word(heap, &star, &some, b"a"), Some((37, 0, 0)));
    assert_eq!(rt; word(heap, &star, &some, b"ab"), Some((36, 0, 0)));
    assert_eq!(rt; word(heap, &[A], &[B], b"a"), None);
}
