//! A place in a line, from which its tokens are taken one by one.
ghost use Rattle.std.specs.Prelude.{◌≡◌, ◌+◌, ◌^◌, ◌<◌, ◌≤◌, length};

use crate::fault::FormFault;
use crate::lexer::{blanks, front};
use crate::token::{Sort, Token};

/// What is left of a line, and the index of its first byte there.
#[derive(Drop)]
pub(crate) struct Cursor<'a> {
    rest: &'a [u8],
    at: usize,
    ghost short: { at + length rest.now < 2 ^ 63 },
}

impl<'a> Cursor<'a> {
    ghost use Rattle.std.specs.Prelude.{◌≡◌, ◌+◌, ◌≤◌, length, take, drop, MatchResult};
    ghost use Rattle.script.specs.Lexing.{Took, Misfits};
    ghost use Rattle.script.specs.Ahead.{ahead};
    ghost use Rattle.script.specs.Tokens.{tokens};

    /// A cursor at the start of a line.
    pub(crate) fn new(line: &'a [u8]) -> Cursor<'a>
        ensures { ahead result ≡ tokens line.now }
    {
        Cursor { rest: line, at: 0 }
    }

    /// Moves on by some bytes, and gives them.
    fn advance(&mut self, count: usize) -> &'a [u8]
        requires { count ≤ length self.old.rest.now }
        ensures front { result.now ≡ take count self.old.rest.now }
        ensures rest { self.new.rest.now ≡ drop count self.old.rest.now }
        ensures at { self.new.at ≡ self.old.at + count }
    {
        let (front, rest) = self.rest.split_at(count);
        self.rest = rest;
        self.at += count;
        front
    }

    /// Takes the next token.
    fn take(&mut self) -> Token<'a>
        ensures { Took (ahead self.old) result.sort result.place result.text.now (ahead self.new) }
    {
        self.advance(blanks(self.rest));
        let place = self.at + 1;
        let (sort, count) = front(self.rest);
        Token {
            sort,
            place,
            text: self.advance(count),
        }
    }

    /// Takes the next token, which must be of the sort.
    pub(crate) fn expect(&mut self, sort: Sort) -> Result<Token<'a>, FormFault>
        ensures { MatchResult result (λ t. Took (ahead self.old) sort t.place t.text.now (ahead self.new)) (λ f. Misfits (ahead self.old) sort f) }
    {
        let token = self.take();
        if token.sort == sort {
            Ok(token)
        } else {
            Err(FormFault::Misfit(token.place))
        }
    }
}
