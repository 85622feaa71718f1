//! What turns spell along a few layouts of bytes.
use crate::fault::TableFault;
use crate::layout::Layout;
use crate::raw::RawNode;
use crate::spell_fault::SpellFault;
use alphabet::bytes::Bytes;
use std::alloc::Global;
use std::test::Fail;

/// What the turns spell along a table of bytes.
fn spell(
    heap: Global,
    table: &[RawNode],
    turns: &[u8],
    letters: &mut [u8],
) -> Result<Result<usize, SpellFault>, TableFault> {
    let layout = Layout::new::<Bytes>(heap, table)?;
    Ok(layout.spell::<Bytes>(turns, letters))
}

#[test]
fn turns_spell(rt: HostRuntime) -> Result<(), Fail> {
    let heap = rt.alloc();
    let h = RawNode::Letter(104);
    let m = RawNode::Letter(109);
    let none = RawNode::Empty;
    let or = RawNode::Or;
    let pair = RawNode::Pair;
    let star = RawNode::Star;
    let day = [m, none, or, h, star, m, none, or, pair, pair];
    let empty = [none, star];
    let mut letters = *b"....";
    // worked lines
    assert_eq!(rt; spell(heap, &day, &[1, 0, 1, 0], &mut letters)?, Ok(2));
    assert_eq!(rt; letters, *b"hm..");
    assert_eq!(rt;
        spell(heap, &[h, star, star], &[0, 0, 0, 1, 1], &mut letters)?,
        Ok(2)
    );
    assert_eq!(rt; letters, *b"hh..");
    assert_eq!(rt; spell(heap, &empty, &[1], &mut letters)?, Ok(0));
    // a member without letters; turns missing, left over, of another value
    assert_eq!(rt;
        spell(heap, &empty, &[0, 1], &mut letters)?,
        Err(SpellFault::NoTree)
    );
    assert_eq!(rt;
        spell(heap, &day, &[1, 0, 1], &mut letters)?,
        Err(SpellFault::NoTree)
    );
    assert_eq!(rt;
        spell(heap, &day, &[1, 0, 1, 0, 0], &mut letters)?,
        Err(SpellFault::NoTree)
    );
    assert_eq!(rt;
        spell(heap, &day, &[1, 0, 1, 2], &mut letters)?,
        Err(SpellFault::NoTree)
    );
    assert_eq!(rt;
        spell(heap, &day, &[1, 0, 2, 0], &mut letters)?,
        Err(SpellFault::NoTree)
    );
    // a buffer that is one too short, and one that is just long enough
    assert_eq!(rt;
        spell(heap, &day, &[0, 0, 1, 0], &mut letters[0..2])?,
        Err(SpellFault::TooShort(3))
    );
    assert_eq!(rt; letters, *b"hh..");
    assert_eq!(rt;
        spell(heap, &day, &[0, 0, 1, 0], &mut letters[0..3])?,
        Ok(3)
    );
    assert_eq!(rt; letters, *b"mhm.");
    Ok(())
}

#[test]
fn empty_trees(rt: HostRuntime) -> Result<(), Fail> {
    let h = RawNode::Letter(104);
    let none = RawNode::Empty;
    let table = [h, none, RawNode::Or, h, RawNode::Star, RawNode::Pair];
    let layout = Layout::new::<Bytes>(rt.alloc(), &table)?;
    assert_eq!(rt; layout.measure(&[1, 1]), Some(0));
    let mut turns = *b"....";
    assert_eq!(rt; layout.put_empty_tree(5, &mut turns, 1), Some(2));
    assert_eq!(rt; turns, [46, 1, 1, 46]);
    assert_eq!(rt; layout.put_empty_tree(2, &mut turns, 0), Some(1));
    assert_eq!(rt; layout.put_empty_tree(5, &mut turns, 3), Some(2));
    assert_eq!(rt; turns, [1, 1, 1, 1]);
    assert_eq!(rt; layout.put_empty_tree(5, &mut turns, usize::MAX), Some(2));
    assert_eq!(rt; layout.put_empty_tree(0, &mut turns, 0), None);
    assert_eq!(rt; layout.put_empty_tree(6, &mut turns, 0), None);
    Ok(())
}
