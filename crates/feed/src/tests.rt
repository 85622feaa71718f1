//! Examples of line files, tables, layers and buffers.
use crate::byte_feed::ByteFeed;
use crate::fault::Fault;
use crate::feed::Feed;
use crate::gathering::{Ungathered, gather};
use crate::layers::{Rename, Skip};
use crate::line_feed::LineFeed;
use crate::tables::{LayerFault, Pair, RenameTable, SkipList};
use alphabet::bytes::Bytes;
use alphabet::kind::Kind;
use alphabet::mark::Mark;
use alphabet::marks::Marks;
use std::array;
use std::test::Fail;

/// A fault with this number and these places.
fn fault(number: u8, first: usize, second: usize) -> Fault {
    Fault {
        number,
        first,
        second,
    }
}

/// An answer with a mark's code in the place of the mark.
fn coded(taken: Result<Option<Mark>, Fault>) -> Result<Option<u16>, Fault> {
    Ok(taken?.map(Marks::code))
}

/// The fault of a refused table.
fn refused<T: Drop>(made: Result<T, LayerFault>) -> Option<Fault> {
    made.err().map(Fault::from)
}

/// Renames of the codes from 0 on to the last byte.
fn distinct() -> [Pair; 33] {
    array::from_fn(|i| Pair {
        source: i as u16,
        target: 255,
    })
}

#[test]
fn lines(rt: HostRuntime) {
    // A file, and what the first two takes answer.
    let cases: [(
        &[u8],
        Result<Option<u16>, Fault>,
        Result<Option<u16>, Fault>,
    ); 31] = [
        (b"", Ok(None), Ok(None)),
        (b"\n", Err(fault(21, 1, 1)), Err(fault(21, 1, 1))),
        (b"100|24:00|7", Ok(Some(402)), Ok(None)),
        (b"100|24:00|7\n", Ok(Some(402)), Ok(None)),
        (b"100|\n", Ok(Some(400)), Ok(None)),
        (b"100|\n\n", Ok(Some(400)), Err(fault(21, 2, 1))),
        (b"100|\n101|12:30", Ok(Some(400)), Ok(Some(405))),
        (b"007|\n007|9\n007|", Ok(Some(28)), Err(fault(23, 2, 5))),
        (b"100|24:01", Err(fault(23, 1, 5)), Err(fault(23, 1, 5))),
        (b"10", Err(fault(21, 1, 3)), Err(fault(21, 1, 3))),
        (b"1", Err(fault(21, 1, 2)), Err(fault(21, 1, 2))),
        (b"/00|", Err(fault(21, 1, 1)), Err(fault(21, 1, 1))),
        (b"0:0|", Err(fault(21, 1, 2)), Err(fault(21, 1, 2))),
        (b"00x|", Err(fault(21, 1, 3)), Err(fault(21, 1, 3))),
        (b"000", Err(fault(22, 1, 4)), Err(fault(22, 1, 4))),
        (b"0001|", Err(fault(22, 1, 4)), Err(fault(22, 1, 4))),
        (b"999|", Ok(Some(3996)), Ok(None)),
        (b"007||24:01", Ok(Some(28)), Ok(None)),
        (b"007|23:59", Ok(Some(29)), Ok(None)),
        (b"007|23:59|", Ok(Some(29)), Ok(None)),
        (b"007|23:59x", Err(fault(23, 1, 5)), Err(fault(23, 1, 5))),
        (b"007|00:00", Ok(Some(30)), Ok(None)),
        (b"007|00:01", Ok(Some(29)), Ok(None)),
        (b"007|00:59", Ok(Some(29)), Ok(None)),
        (b"007|00:60", Err(fault(23, 1, 5)), Err(fault(23, 1, 5))),
        (b"007|25:00", Err(fault(23, 1, 5)), Err(fault(23, 1, 5))),
        (b"007|1:00", Err(fault(23, 1, 5)), Err(fault(23, 1, 5))),
        (b"007|10.00", Err(fault(23, 1, 5)), Err(fault(23, 1, 5))),
        (b"007|10:0|", Err(fault(23, 1, 5)), Err(fault(23, 1, 5))),
        (b"007|x", Err(fault(23, 1, 5)), Err(fault(23, 1, 5))),
        (b"007|24:00:00", Err(fault(23, 1, 5)), Err(fault(23, 1, 5))),
    ];
    for (file, first, second) in cases {
        let mut feed = LineFeed::new(file);
        assert!(rt; coded(feed.take()) == first);
        assert!(rt; coded(feed.take()) == second);
    }
}

#[test]
fn tables(rt: HostRuntime) {
    let twice = [Pair {
        source: 0,
        target: 0,
    }; 33];
    assert!(rt; refused(RenameTable::new::<Bytes>(&twice)) == Some(fault(43, 32, 0)));
    assert!(rt; refused(RenameTable::new::<Bytes>(&twice[0..2])) == Some(fault(43, 1, 0)));
    let mut pairs = distinct();
    assert!(rt; refused(RenameTable::new::<Bytes>(&pairs[0..32])) == None);
    assert!(rt; refused(RenameTable::new::<Bytes>(&pairs)) == Some(fault(43, 32, 0)));
    // 255 is the code of record 63 with no such stamp class, and so no mark.
    assert!(rt; refused(RenameTable::new::<Marks>(&pairs[0..32])) == Some(fault(43, 0, 0)));
    pairs[2] = Pair {
        source: 400,
        target: 256,
    };
    assert!(rt; refused(RenameTable::new::<Bytes>(&pairs[0..3])) == Some(fault(43, 2, 0)));
    assert!(rt; refused(RenameTable::new::<Marks>(&pairs[2..3])) == None);
    let codes = [7u16; 33];
    assert!(rt; refused(SkipList::new(&codes[0..32])) == None);
    assert!(rt; refused(SkipList::new(&codes)) == Some(fault(43, 32, 0)));
}

#[test]
fn layers(rt: HostRuntime) -> Result<(), Fail> {
    let Ok(list) = SkipList::new(&[120, 98]) else {
        return Err(Fail::new("no skip list"));
    };
    let Ok(chain) = RenameTable::new::<Bytes>(&[
        Pair {
            source: 97,
            target: 98,
        },
        Pair {
            source: 98,
            target: 99,
        },
    ]) else {
        return Err(Fail::new("no table of bytes"));
    };
    let Ok(marks) = RenameTable::new::<Marks>(&[
        Pair {
            source: 97,
            target: 402,
        },
        Pair {
            source: 98,
            target: 100,
        },
    ]) else {
        return Err(Fail::new("no table of marks"));
    };
    let mut buf = *b".....";
    // Skipping first leaves a, a and c; each letter is renamed once.
    assert!(rt;
        gather(
            &mut Rename::new(Skip::new(ByteFeed::new(b"axbac"), list), chain),
            &mut buf,
        ) == Ok(3)
    );
    assert!(rt; buf == *b"bbc..");
    // Renaming first gives b, x, c, b and c.
    assert!(rt;
        gather(
            &mut Skip::new(Rename::new(ByteFeed::new(b"axbac"), chain), list),
            &mut buf,
        ) == Ok(2)
    );
    assert!(rt; buf == *b"ccc..");
    // No byte has the code 402.
    assert!(rt; gather(&mut Rename::new(ByteFeed::new(b"ab"), marks), &mut buf) == Ok(2));
    assert!(rt; buf == *b"adc..");
    Ok(())
}

#[test]
fn buffers(rt: HostRuntime) -> Result<(), Fail> {
    let mut buf = *b"....";
    let mut feed = ByteFeed::new(b"abcd");
    assert!(rt; gather(&mut feed, &mut buf[0..0]) == Err(Ungathered::Beyond(0)));
    assert!(rt; gather(&mut feed, &mut buf[0..2]) == Err(Ungathered::Beyond(2)));
    assert!(rt; gather(&mut feed, &mut buf[0..0]) == Ok(0));
    assert!(rt; buf == *b"bc..");
    assert!(rt; gather(&mut ByteFeed::new(b"abcd"), &mut buf) == Ok(4));
    assert!(rt; buf == *b"abcd");
    let mut many = [0u8; 4097];
    assert!(rt;
        gather(&mut ByteFeed::new(&[7u8; 4097]), &mut many) == Err(Ungathered::Beyond(4096))
    );
    assert!(rt; many[4095] == 7 && many[4096] == 0);
    let Some(blank) = Mark::new(0, 0) else {
        return Err(Fail::new("no mark"));
    };
    let mut marks = [blank; 2];
    let mut feed = LineFeed::new(b"007|\n007|00:00\n00");
    assert!(rt; gather(&mut feed, &mut marks) == Err(Ungathered::Fault(2, fault(21, 3, 3))));
    assert!(rt; Marks::code(marks[0]) == 28 && Marks::code(marks[1]) == 30);
    assert!(rt; coded(feed.take()) == Err(fault(21, 3, 3)));
    Ok(())
}
