//! Reading a line.
ghost use Rattle.std.specs.Prelude.{◌≡◌, length, MatchResult};
ghost use Rattle.script.specs.Ahead.{ahead};
ghost use Rattle.script.specs.Bytes.{Known};
ghost use Rattle.script.specs.Dialects.{dialect};
ghost use Rattle.script.specs.Law.{Accepted, Refusal};
ghost use Rattle.script.specs.Machine.{the, head_of};
ghost use Rattle.script.specs.Reading.{Halted, Ended, Led, Unled, Completed, Broken};
ghost use Rattle.script.specs.declared.name.FormName.TheVariants.{Lodge};

use crate::cursor::Cursor;
use crate::fault::FormFault;
use crate::form::Form;
use crate::lexer::check_bytes;
use crate::name::FormName;
use crate::reader::{close, expr};
use crate::token::Sort;
use std::alloc::Global;

/// How many nodes an expression may have.
const NODES: usize = 255;

/// The name of a form that the text is.
fn form_name(text: &[u8]) -> Option<FormName>
    ensures { result ≡ head_of text.now }
{
    match text {
        b"lodge" => Some(FormName::Lodge),
        _ => None,
    }
}

/// Reads the bracket and the name of a form.
fn lead(line: &mut Cursor) -> Result<FormName, FormFault>
    ensures { MatchResult result (λ x. Led (ahead line.old) x (ahead line.new)) (λ f. Unled (ahead line.old) f) }
{
    line.expect(Sort::Open)?;
    let name = line.expect(Sort::Name)?;
    form_name(name.text).ok_or(FormFault::Misfit(name.place))
}

/// Reads the line's end.
fn end(line: &mut Cursor) -> Result<(), FormFault>
    ensures { MatchResult result (λ _. Ended (ahead line.old)) (λ f. Halted (ahead line.old) (the 10) f) }
{
    line.expect(Sort::End)?;
    Ok(())
}

/// Reads what follows `(lodge`, up to the line's end.
fn lodge(heap: Global, kind: u8, line: &mut Cursor) -> Result<Form, FormFault>
    ensures { MatchResult result (λ f. Completed (dialect kind) Lodge (ahead line.old) f) (λ f. Broken (dialect kind) Lodge (ahead line.old) f) }
{
    let mut table = Vec::new(heap);
    expr(kind, line, NODES, &mut table)?;
    close(line)?;
    end(line)?;
    Ok(Form::Lodge(table))
}

/// Reads a form from a line that holds no bad byte.
fn form(heap: Global, kind: u8, line: &[u8]) -> Result<Form, FormFault>
    requires { Known line.now (length line.now) }
    ensures { MatchResult result (λ f. Accepted (dialect kind) line.now f) (λ f. Refusal (dialect kind) line.now f) }
{
    let mut rest = Cursor::new(line);
    match lead(&mut rest)? {
        FormName::Lodge => lodge(heap, kind, &mut rest),
    }
}

/// Reads a line in the dialect that `kind` tells: the form that it is, or its leftmost fault.
pub fn read_line(heap: Global, kind: u8, line: &[u8]) -> Result<Form, FormFault>
    ensures { MatchResult result (λ f. Accepted (dialect kind) line.now f) (λ f. Refusal (dialect kind) line.now f) }
{
    check_bytes(line)?;
    form(heap, kind, line)
}

#[cfg(test)]
mod tests {
    use super::*;
    use crate::kind::{BYTES, MARKS};

    // A form's count of nodes, or the number and the place of a fault.
    fn told(read: Result<Form, FormFault>) -> Result<usize, (u16, usize)> {
        match read {
            Ok(Form::Lodge(table)) => Ok(table.len()),
            Err(fault) => {
                let figures = fault.figures(1);
                Err((figures.number, figures.second))
            }
        }
    }

    // A line in a dialect, and what is told of it.
    #[derive(Clone, Copy)]
    struct Row<'a> {
        kind: u8,
        line: &'a [u8],
        told: Result<usize, (u16, usize)>,
    }

    #[test]
    fn lines(rt: HostRuntime) {
        let rows = [
            Row {
                kind: BYTES,
                line: b"(lodge (pair (b 1) (none)))",
                told: Ok(3),
            },
            Row {
                kind: 7,
                line: b"(lodge(or(b 0255)(star(none))))  ",
                told: Ok(4),
            },
            Row {
                kind: BYTES,
                line: b"",
                told: Err((52, 1)),
            },
            Row {
                kind: BYTES,
                line: b"lodge ) X",
                told: Err((51, 9)),
            },
            Row {
                kind: BYTES,
                line: b"(lodge (b 300))",
                told: Err((52, 14)),
            },
            Row {
                kind: BYTES,
                line: b"(lodge (b 65536))",
                told: Err((53, 11)),
            },
            Row {
                kind: BYTES,
                line: b"(lodge 99999)",
                told: Err((52, 8)),
            },
            Row {
                kind: BYTES,
                line: b"(lodge (m 1 1))",
                told: Err((52, 9)),
            },
            Row {
                kind: BYTES,
                line: b"(lodge (none)) -",
                told: Err((52, 16)),
            },
            Row {
                kind: BYTES,
                line: b"(lodge (pair (none)",
                told: Err((52, 20)),
            },
            Row {
                kind: MARKS,
                line: b"(lodge (or (m 999 2) (star (m 0 0))))",
                told: Ok(4),
            },
            Row {
                kind: MARKS,
                line: b"(lodge (m 1000 1))",
                told: Err((52, 17)),
            },
            Row {
                kind: MARKS,
                line: b"(lodge (m 100 3))",
                told: Err((52, 16)),
            },
            Row {
                kind: MARKS,
                line: b"(lodge (m 1000 70000))",
                told: Err((53, 16)),
            },
            Row {
                kind: MARKS,
                line: b"(lodge (m 1))",
                told: Err((52, 12)),
            },
            Row {
                kind: MARKS,
                line: b"(lodge (b 1))",
                told: Err((52, 9)),
            },
        ];
        for row in rows {
            assert_eq!(rt; told(read_line(rt.alloc(), row.kind, row.line)), row.told);
        }
    }
}
