//! Tables of bytes and what their check answers.
use crate::fault::TableFault;
use crate::layout::Layout;
use crate::raw::RawNode;
use alphabet::bytes::Bytes;
use std::alloc::Global;
use std::test::Fail;

/// Why a table of bytes is refused, if it is.
fn fault(heap: Global, table: &[RawNode]) -> Option<TableFault> {
    Layout::new::<Bytes>(heap, table).err()
}

#[test]
fn tables(rt: HostRuntime) {
    let a = RawNode::Letter(97);
    let none = RawNode::Letter(256);
    let empty = RawNode::Empty;
    let pair = RawNode::Pair;
    let or = RawNode::Or;
    let star = RawNode::Star;
    let cases: [(&[RawNode], Option<TableFault>); 12] = [
        (&[a], None),
        (&[a, a, pair, star], None),
        (&[a, empty, or], None),
        (&[], Some(TableFault::Empty)),
        (&[star], Some(TableFault::Breaks(0))),
        (&[a, pair], Some(TableFault::Breaks(1))),
        (&[a, RawNode::Unknown(9)], Some(TableFault::Breaks(1))),
        (&[a, none, or], Some(TableFault::Breaks(1))),
        (&[a, pair, none], Some(TableFault::Breaks(1))),
        (&[none, pair], Some(TableFault::Breaks(0))),
        (&[a, a], Some(TableFault::Unfinished(2))),
        (&[a, a, star], Some(TableFault::Unfinished(3))),
    ];
    for (table, answer) in cases {
        assert_eq!(rt; fault(rt.alloc(), table), answer);
    }
}

#[test]
fn limits(rt: HostRuntime) -> Result<(), Fail> {
    let heap = rt.alloc();
    let a = RawNode::Letter(97);
    let mut letters = vec![in heap; a; 128]?;
    assert_eq!(rt; fault(heap, &letters), Some(TableFault::Unfinished(128)));
    letters.push(a)?;
    assert_eq!(rt; fault(heap, &letters), Some(TableFault::Breaks(128)));
    let mut nodes = Vec::new(heap);
    nodes.push(a)?;
    for _ in 0..127 {
        nodes.push(a)?;
        nodes.push(RawNode::Pair)?;
    }
    let layout = Layout::new::<Bytes>(heap, &nodes)?;
    assert_eq!(rt; layout.len(), 255);
    assert_eq!(rt; layout.places(), 128);
    nodes.push(RawNode::Star)?;
    assert_eq!(rt; fault(heap, &nodes), Some(TableFault::TooLong));
    Ok(())
}
