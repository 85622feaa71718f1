//! Reading an expression.
ghost use Rattle.std.specs.Prelude.{◌≡◌, [], ◌∷◌, ◌++◌, MatchResult};
ghost use Rattle.std.specs.Str.{bytes_eq};
ghost use Rattle.script.specs.Ahead.{ahead};
ghost use Rattle.script.specs.Dialects.{dialect, mark_word, code_named};
ghost use Rattle.script.specs.Faults.{no_memory};
ghost use Rattle.script.specs.Machine.{the, name_of};
ghost use Rattle.script.specs.Reading.{joint_of, Halted, Passed, Numbered, Uncounted, Sealed, Unsealed, Lettered, Unlettered, Headed, Stuck, Read};

use crate::cursor::Cursor;
use crate::fault::{FormFault, TokenFault};
use crate::kind::MARKS;
use crate::lexer::value;
use crate::name::Name;
use crate::token::Sort;
use alphabet::bytes::Bytes;
use alphabet::kind::Kind;
use alphabet::mark::Mark;
use alphabet::marks::Marks;
use expression::raw::RawNode;

/// Whether the text begins a mark of the dialect.
fn is_mark(kind: u8, text: &[u8]) -> bool
    ensures { result ≡ bytes_eq text.now (mark_word (dialect kind)) }
{
    match text {
        b"m" => kind == MARKS,
        b"b" => kind != MARKS,
        _ => false,
    }
}

/// The name of an expression that the text is.
fn name_at(kind: u8, text: &[u8]) -> Option<Name>
    ensures { result ≡ name_of (dialect kind) text.now }
{
    match text {
        b"none" => Some(Name::Nothing),
        b"pair" => Some(Name::Pair),
        b"or" => Some(Name::Or),
        b"star" => Some(Name::Star),
        _ if is_mark(kind, text) => Some(Name::Mark),
        _ => None,
    }
}

/// The code of the mark with a record number and a class.
fn mark_code(number: u16, class: u16) -> Option<u16>
    ensures { result ≡ code_named (dialect 0) (number ∷ (class ∷ [])) }
{
    Mark::new(number, class).map(Marks::code)
}

/// The code of the byte with a value.
fn byte_code(value: u16) -> Option<u16>
    ensures { result ≡ code_named (dialect 1) (value ∷ []) }
{
    Bytes::letter(value).map(Bytes::code)
}

// Kept: names stay bare, as the grammar in specs/ has them, and so the node of a pair or an or is told here, and of no other name.
/// The node of a name with two parts.
fn joint(name: Name) -> RawNode
    ensures { result ≡ joint_of name }
{
    match name {
        Name::Or => RawNode::Or,
        _ => RawNode::Pair,
    }
}

/// Reads a closing bracket.
pub(crate) fn close(line: &mut Cursor) -> Result<(), FormFault>
    ensures { MatchResult result (λ _. Passed (ahead line.old) 41 (ahead line.new)) (λ f. Halted (ahead line.old) (the 41) f) }
{
    line.expect(Sort::Close)?;
    Ok(())
}

/// Reads a number.
fn number(line: &mut Cursor) -> Result<u16, FormFault>
    ensures { MatchResult result (λ n. Numbered (ahead line.old) n (ahead line.new)) (λ f. Uncounted (ahead line.old) f) }
{
    let token = line.expect(Sort::Digits)?;
    Ok(value(token.text).ok_or(TokenFault::TooLarge(token.place))?)
}

/// Reads the bracket that closes a mark, which must have a code.
fn seal(line: &mut Cursor, code: Option<u16>) -> Result<u16, FormFault>
    ensures { MatchResult result (λ c. Sealed (ahead line.old) code c (ahead line.new)) (λ f. Unsealed (ahead line.old) code f) }
{
    let token = line.expect(Sort::Close)?;
    code.ok_or(FormFault::Misfit(token.place))
}

/// Reads the numbers of a mark and its closing bracket, and gives its code.
fn letter(kind: u8, line: &mut Cursor) -> Result<u16, FormFault>
    ensures { MatchResult result (λ c. Lettered (dialect kind) (ahead line.old) c (ahead line.new)) (λ f. Unlettered (dialect kind) (ahead line.old) f) }
{
    let first = number(line)?;
    if kind == MARKS {
        let class = number(line)?;
        seal(line, mark_code(first, class))
    } else {
        seal(line, byte_code(first))
    }
}

/// Reads the bracket and the name of an expression, where another node may open.
fn head(kind: u8, line: &mut Cursor, left: usize) -> Result<Name, FormFault>
    ensures { MatchResult result (λ x. Headed (dialect kind) (ahead line.old) left x (ahead line.new)) (λ f. Stuck (dialect kind) (ahead line.old) left f) }
{
    let bracket = line.expect(Sort::Open)?;
    if left == 0 {
        return Err(FormFault::TooManyNodes(bracket.place));
    }
    let name = line.expect(Sort::Name)?;
    name_at(kind, name.text).ok_or(FormFault::Misfit(name.place))
}

/// Adds a node to the table.
fn put(table: &mut Vec<RawNode>, node: RawNode) -> Result<(), FormFault>
    ensures { MatchResult result (λ _. table.new.items ≡ table.old.items ++ node ∷ []) (λ f. f ≡ no_memory) }
{
    Ok(table.push(node)?)
}

/// Reads an expression of at most `left` nodes, and adds its nodes to the table. Says how many nodes may still open.
// Kept: the kind is a parameter beside the cursor: were both one struct, each reader would also have to promise that the kind stays.
pub(crate) fn expr(
    kind: u8,
    line: &mut Cursor,
    left: usize,
    table: &mut Vec<RawNode>,
) -> Result<usize, FormFault>
    ensures { MatchResult result (λ l. Read (dialect kind) (ahead line.old) left l (ahead line.new) table.old.items table.new.items) (λ f. Stuck (dialect kind) (ahead line.old) left f) }
{
    let name = head(kind, line, left)?;
    match name {
        Name::Mark => {
            let code = letter(kind, line)?;
            put(table, RawNode::Letter(code))?;
            Ok(left - 1)
        }
        Name::Nothing => {
            close(line)?;
            put(table, RawNode::Empty)?;
            Ok(left - 1)
        }
        Name::Pair | Name::Or => {
            let left = expr(kind, line, left - 1, table)?;
            let left = expr(kind, line, left, table)?;
            close(line)?;
            put(table, joint(name))?;
            Ok(left)
        }
        Name::Star => {
            let left = expr(kind, line, left - 1, table)?;
            close(line)?;
            put(table, RawNode::Star)?;
            Ok(left)
        }
    }
}
