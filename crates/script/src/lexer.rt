//! Cutting a line into tokens.
ghost use Rattle.std.specs.Prelude.{◌≡◌, ◌<◌, ◌≤◌, true, not, ◌∷◌, length, MatchResult, slice_index};
ghost use Rattle.std.specs.List.{prefix_len};
ghost use Rattle.script.specs.Tokens.{known, belongs as in_run, decimal};
ghost use Rattle.script.specs.Lexing.{begins as begins_token, Fronts, valued};
ghost use Rattle.script.specs.Bytes.{Known, Spoils};

use crate::fault::TokenFault;
use crate::token::{Run, Sort};

/// Whether a token begins with the byte.
fn begins(b: u8) -> bool
    ensures { result ≡ begins_token b }
{
    matches!(char::from(b), 'a'..='z' | '0'..='9' | '(' | ')' | '-')
}

/// Whether a line may hold the byte.
fn is_known(b: u8) -> bool
    ensures { result ≡ known b }
{
    begins(b) || char::from(b) == ' '
}

/// Whether the byte goes on in a run.
fn belongs(run: Run, b: u8) -> bool
    ensures { result ≡ in_run run b }
{
    match run {
        Run::Letters => matches!(char::from(b), 'a'..='z'),
        Run::Digits => matches!(char::from(b), '0'..='9'),
    }
}

/// Whether the line holds no byte but those of tokens and spaces.
pub(crate) fn check_bytes(line: &[u8]) -> Result<(), TokenFault>
    ensures { MatchResult result (λ _. Known line.now (length line.now)) (λ f. Spoils line.now f) }
{
    match line.iter().position(|b| !is_known(*b)) {
        Some(index) => Err(TokenFault::BadByte(index + 1)),
        None => Ok(()),
    }
}

/// How many bytes stand before the first that begins a token.
pub(crate) fn blanks(rest: &[u8]) -> usize
    ensures { result ≡ prefix_len (λ b. not (begins_token b)) rest.now }
{
    rest.iter().take_while(|b| !begins(**b)).count()
}

/// How many bytes at the front go on in a run.
fn run_length(run: Run, rest: &[u8]) -> usize
    ensures { result ≡ prefix_len (in_run run) rest.now }
{
    rest.iter().take_while(|b| belongs(run, **b)).count()
}

/// The sort of the token at the front, and how many bytes it has.
pub(crate) fn front(rest: &[u8]) -> (Sort, usize)
    requires { 0 < length rest.now → begins_token (slice_index rest.now 0) ≡ true }
    ensures { Fronts rest.now result.0 result.1 }
{
    let [first, ..] = rest else {
        return (Sort::End, 0);
    };
    match char::from(*first) {
        '(' => (Sort::Open, 1),
        ')' => (Sort::Close, 1),
        'a'..='z' => (Sort::Name, run_length(Run::Letters, rest)),
        '0'..='9' => (Sort::Digits, run_length(Run::Digits, rest)),
        _ => (Sort::Dash, 1),
    }
}

/// The number that digits write, where it is not over 65,535.
pub(crate) fn value(digits: &[u8]) -> Option<u16>
    ensures { result ≡ valued (decimal digits.now) }
{
    let mut value = 0u16;
    for b in digits {
        let digit = u16::from(b.saturating_sub(b'0'));
        value = value.checked_mul(10)?.checked_add(digit)?;
    }
    Some(value)
}
