//! Running a whole script: each line is read, called on one register, and answered.
ghost use Rattle.std.specs.Prelude.{◌≡◌, ℕ, List, ◌++◌, codes, IfOk, IfSome, MatchResult, OnOk};
ghost use Rattle.expression.specs.Verdicts.{gives};
ghost use Rattle.register.specs.Meaning.{tables};
ghost use Rattle.script.specs.Answers.{excerpt_of, line_figures, refused_text, shown_text};
ghost use Rattle.script.specs.Dialects.{dialect};
ghost use Rattle.script.specs.Lines.{numbered};
ghost use Rattle.text.specs.Lines.{lines};
ghost use Rattle.script.specs.Running.{Calls, Declines, Did, Failed, Responded, Transcript};

use crate::answer::{Answer, LineFault};
use crate::excerpt::excerpt;
use crate::fault::FormFault;
use crate::form::Form;
use crate::kind::Dialect;
use crate::line::read_line;
use crate::source::{Excerpt, Source};
use alphabet::kind::Kind;
use register::refusal::Refusal;
use register::register::Register;
use std::alloc::{AllocError, Global};
use std::fmt;
use text::lines::lines;

/// The longest script, in bytes.
pub const LONGEST: usize = 16_384;

/// What stays the same while a script runs: the texts that a line can be shown from.
#[derive(Clone, Copy)]
struct Setting<'a> {
    heap: Global,
    script: &'a [u8],
    file: &'a [u8],
}

/// Makes the call of a form.
fn call<K: Kind>(register: &mut Register<K>, form: Form) -> Result<Answer, Refusal>
    ensures { MatchResult result (λ a. Calls (gives K.Kind.lettered) form (tables register.old) a (tables register.new)) (λ e. Declines (gives K.Kind.lettered) form (tables register.old) e (tables register.new)) }
{
    match form {
        Form::Lodge(table) => Ok(Answer::Lodged(register.lodge(&table)?)),
    }
}

/// Reads a line and makes its call.
fn answer<K: Dialect>(
    heap: Global,
    register: &mut Register<K>,
    line: &[u8],
) -> Result<Answer, LineFault>
    ensures { MatchResult result (λ a. Did (dialect K.NUMBER) (gives K.Kind.lettered) line.now (tables register.old) a (tables register.new)) (λ f. Failed (dialect K.NUMBER) (gives K.Kind.lettered) line.now (tables register.old) f (tables register.new)) }
{
    let form = read_line(heap, K::NUMBER, line)?;
    Ok(call(register, form)?)
}

/// Adds a text as a line.
fn tell<T: fmt::Display>(heap: Global, text: &T, out: &mut Vec<u8>) -> Result<(), AllocError>
    ensures { OnOk result (IfSome (T.output text.now) (λ bytes. out.new.items ≡ out.old.items ++ (bytes ++ codes "\n"))) }
{
    let line = format!(in heap; "{text}\n")?;
    out.extend_from_slice(line.as_bytes())
}

/// Adds an offending line, as the bytes that it is.
fn show(line: Excerpt, out: &mut Vec<u8>) -> Result<(), AllocError>
    ensures { OnOk result (out.new.items ≡ out.old.items ++ shown_text line.entry.bytes.now) }
{
    out.extend_from_slice(b"> ")?;
    out.extend_from_slice(line.bytes)?;
    out.extend_from_slice(b"\n")
}

/// The excerpt of the line with this number: the first line of the line itself.
// Kept: not looked up again in the script, which would take as many steps as bytes stand before the line.
fn own_excerpt<'a>(setting: Setting<'a>, number: usize, line: &'a [u8]) -> Excerpt<'a>
    requires { line.now ≡ numbered (lines setting.script.now) number }
    ensures { result.bytes.now ≡ numbered (lines setting.entry.script.now) number }
{
    Excerpt {
        line: number,
        ..excerpt(line, setting.file, Source::Script, 1)
    }
}

/// Adds a refusal of the line with this number, and the line itself where it holds no form.
fn refuse(
    setting: Setting,
    number: usize,
    line: &[u8],
    fault: LineFault,
    out: &mut Vec<u8>,
) -> Result<(), AllocError>
    requires { line.now ≡ numbered (lines setting.script.now) number }
    ensures { OnOk result (out.new.items ≡ out.old.items ++ (refused_text (line_figures fault number) ++ excerpt_of fault (numbered (lines setting.entry.script.now) number))) }
{
    tell(setting.heap, &fault.figures(number), out)?;
    match fault {
        LineFault::Form(_) => show(own_excerpt(setting, number, line), out),
        LineFault::Call(_) | LineFault::TooLong => Ok(()),
    }
}

// Kept: register and output stay beside the setting, which is copied and says what stays the same while a script runs.
/// Answers the line with this number.
fn respond<K: Dialect>(
    setting: Setting,
    register: &mut Register<K>,
    number: usize,
    line: &[u8],
    out: &mut Vec<u8>,
) -> Result<(), AllocError>
    requires { line.now ≡ numbered (lines setting.script.now) number }
    ensures { OnOk result ((bytes : List ℕ) × Responded (dialect K.NUMBER) (gives K.Kind.lettered) number line.now (tables register.old) (tables register.new) bytes × (out.new.items ≡ out.old.items ++ bytes)) }
{
    if line.is_empty() {
        return Ok(());
    }
    match answer(setting.heap, register, line) {
        Ok(answer) => tell(setting.heap, &answer, out),
        Err(fault) if fault.is_memory() => Err(AllocError),
        Err(fault) => refuse(setting, number, line, fault, out),
    }
}

/// Runs a script on a new register, and gives all that it prints. `file` is the meter file at hand.
pub fn run<K: Dialect>(heap: Global, script: &[u8], file: &[u8]) -> Result<Vec<u8>, AllocError>
    ensures { IfOk result (λ out. Transcript (dialect K.NUMBER) (gives K.Kind.lettered) script.now out.items) }
{
    let mut out = Vec::new(heap);
    if script.len() > LONGEST {
        tell(heap, &LineFault::TooLong.figures(0), &mut out)?;
        return Ok(out);
    }
    let setting = Setting { heap, script, file };
    let mut register = Register::<K>::new(heap);
    for (index, line) in lines(script).enumerate() {
        respond(setting, &mut register, index + 1, line, &mut out)?;
    }
    Ok(out)
}

#[cfg(test)]
mod tests {
    use super::*;
    use alphabet::bytes::Bytes;
    use std::test::Fail;

    #[test]
    fn long_scripts(rt: HostRuntime) -> Result<(), Fail> {
        let mut script = vec![in rt.alloc(); b' '; LONGEST]?;
        let out = run::<Bytes>(rt.alloc(), &script, b"")?;
        assert!(rt; out.len() == 21 + 2 + LONGEST + 1);
        assert!(rt; out.as_slice().starts_with(b"(refused 52 1 16385)\n>  "));
        script.push(b' ')?;
        let out = run::<Bytes>(rt.alloc(), &script, b"")?;
        assert!(rt; out.as_slice() == b"(refused 54 0 0)\n".as_slice());
        Ok(())
    }
}
