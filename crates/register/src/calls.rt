//! The calls on a register.
ghost use Rattle.std.specs.Prelude.{◌≡◌, [], MatchResult};
ghost use Rattle.expression.specs.Layouts.{table_of};
ghost use Rattle.expression.specs.Verdicts.{gives};
ghost use Rattle.register.specs.Lodging.{Lodged, Refused, Kept, Placed, Crowded};
ghost use Rattle.register.specs.Meaning.{tables};

use crate::refusal::Refusal;
use crate::register::Register;
use alphabet::kind::Kind;
use expression::layout::Layout;
use expression::raw::RawNode;
use std::alloc::Global;
use std::marker::PhantomData;

/// How many layouts a register holds at most.
pub const ROOM: usize = 16;

impl<K: Kind> Register<K> {
    /// A register with no layout.
    pub fn new(heap: Global) -> Register<K>
        ensures { tables result ≡ [] }
    {
        let layouts = Vec::new(heap);
        Register {
            heap,
            layouts,
            kind: PhantomData,
        }
    }

    /// Lodges a table, and answers its number.
    pub fn lodge(&mut self, table: &[RawNode]) -> Result<usize, Refusal>
        ensures answers { MatchResult result (λ n. Lodged (gives K.Kind.lettered) (tables self.old) table.now n (tables self.new)) (λ e. Refused (gives K.Kind.lettered) (tables self.old) table.now e (tables self.new)) }
        ensures keeps { Kept (tables self.old) (tables self.new) }
    {
        let layout = Layout::new::<K>(self.heap, table)?;
        self.place(layout)
    }

    /// Gives a layout the next number, where there is room.
    fn place(&mut self, layout: Layout) -> Result<usize, Refusal>
        ensures answers { MatchResult result (λ n. Placed (tables self.old) (table_of layout) n (tables self.new)) (λ e. Crowded (tables self.old) e × (tables self.new ≡ tables self.old)) }
        ensures keeps { Kept (tables self.old) (tables self.new) }
    {
        let number = self.layouts.len();
        if number >= ROOM {
            return Err(Refusal::Full);
        }
        self.layouts.push(layout)?;
        Ok(number)
    }
}

#[cfg(test)]
mod tests {
    use super::*;
    use alphabet::bytes::Bytes;
    use figures::Figures;
    use std::test::Fail;

    // The answer to a lodging: the number, or the refusal's figures.
    fn lodged(register: &mut Register<Bytes>, table: &[RawNode]) -> Result<usize, Figures> {
        Ok(register.lodge(table)?)
    }

    // A refusal's figures, of which the second value is 0.
    fn refused(number: u16, first: usize) -> Result<usize, Figures> {
        Err(Figures {
            number,
            first,
            second: 0,
        })
    }

    #[test]
    fn lodgings(rt: HostRuntime) -> Result<(), Fail> {
        let heap = rt.alloc();
        let mut register = Register::<Bytes>::new(heap);
        let long = vec![in heap; RawNode::Empty; 256]?;
        let bad = [RawNode::Letter(1), RawNode::Star, RawNode::Pair];
        for number in 0..16usize {
            let table = [RawNode::Letter(255), RawNode::Star];
            assert_eq!(rt; lodged(&mut register, &table), Ok(number));
            assert_eq!(rt; lodged(&mut register, &bad), refused(41, 2));
        }
        assert_eq!(rt; lodged(&mut register, &[RawNode::Empty]), refused(42, 0));
        assert_eq!(rt; lodged(&mut register, &[]), refused(41, 0));
        assert_eq!(rt; lodged(&mut register, &long), refused(41, 255));
        assert_eq!(rt;
            lodged(&mut register, &[RawNode::Letter(256)]),
            refused(41, 0)
        );
        assert_eq!(rt;
            lodged(&mut register, &[RawNode::Empty, RawNode::Unknown(9)]),
            refused(41, 1)
        );
        assert_eq!(rt;
            lodged(
                &mut register,
                &[RawNode::Empty, RawNode::Empty, RawNode::Empty]
            ),
            refused(41, 3)
        );
        Ok(())
    }
}
