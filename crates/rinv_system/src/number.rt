//! Numbers: the modulus, and the greatest numbers of pairs and of steps.

ghost use Rattle.std.specs.Prelude.{◌≡◌, ◌≤◌, ◌<◌, ◌^◌, ◌⊎◌, ℕ, IsTrue, IsFalse, MatchOption, IfSome, IfOk, IfErr};
ghost use Rattle.std.specs.List.{list_all};
ghost use Rattle.rinv_defs.specs.Names.{is_digit};
ghost use Rattle.rinv_text.specs.Tokens.{number_of};
ghost use Rattle.rinv_system.specs.declared.keyword.Keyword.TheVariants as keyword;
ghost use Rattle.rinv_system.specs.Entries.{is_numeral};
ghost use Rattle.rinv_system.specs.Drafts.{Draft as Lines};
ghost use Rattle.rinv_system.specs.Forms.{IsRestRefused};
ghost use Rattle.rinv_system.specs.Stops.{IsNumberFor};

use crate::refused::Code;
use rinv_ring::Gf;
use rinv_text::{TextCode, is_digit, number};

// The greatest number of pairs, and of steps.
const MAX_PAIRS: u64 = 1_000_000;

const MAX_STEPS: u64 = 1_000_000_000;

fn are_digits(bytes: &[u8]) -> bool
    ensures { result ≡ list_all is_digit bytes.now }
{
    bytes.iter().all(|b| is_digit(*b))
}

// Whether these are decimal digits, one or more.
fn is_numeral(rest: &[u8]) -> bool
    ensures { result ≡ is_numeral rest.now }
{
    !rest.is_empty() && are_digits(rest)
}

/// The field whose modulus the rest of a line is.
pub(crate) fn field(rest: &[u8]) -> Result<Gf, Code>
    ensures ok { IfOk result (IsNumberFor keyword.Field rest.now) }
    ensures fault { IfErr result (λ code. (d : Lines) → IsRestRefused d rest.now keyword.Field code) }
{
    if !is_numeral(rest) {
        return Err(Code::Text(TextCode::Expression));
    }
    let Some(number) = number(rest) else {
        return Err(Code::Text(TextCode::Limit));
    };
    match Gf::new(u64::try_from(number).unwrap_or(u64::MAX)) {
        Ok(field) => Ok(field),
        Err(fault) => Err(Code::Field(fault)),
    }
}

// The number that the rest of a line is, if it is no greater than the limit.
fn bounded(rest: &[u8], limit: u64) -> Result<u64, TextCode>
    ensures ok { IfOk result (λ n. (n ≡ number_of rest.now) × IsTrue (is_numeral rest.now) × (number_of rest.now ≤ limit)) }
    ensures fault { IfErr result (λ code. ((code ≡ TextCode.Expression) × IsFalse (is_numeral rest.now)) ⊎ ((code ≡ TextCode.Limit) × IsTrue (is_numeral rest.now) × (limit < number_of rest.now))) }
{
    if !is_numeral(rest) {
        return Err(TextCode::Expression);
    }
    match number(rest) {
        Some(number) if number <= u128::from(limit) => Ok(number as u64),
        _ => Err(TextCode::Limit),
    }
}

/// The greatest number of pairs that the rest of a line is.
pub(crate) fn pairs(rest: &[u8]) -> Result<u32, Code>
    ensures ok { IfOk result (IsNumberFor keyword.Pairs rest.now) }
    ensures fault { IfErr result (λ code. (d : Lines) → IsRestRefused d rest.now keyword.Pairs code) }
{
    match bounded(rest, MAX_PAIRS) {
        Ok(number) => Ok(number as u32),
        Err(code) => Err(Code::Text(code)),
    }
}

/// The greatest number of steps that the rest of a line is.
pub(crate) fn steps(rest: &[u8]) -> Result<u64, Code>
    ensures ok { IfOk result (IsNumberFor keyword.Steps rest.now) }
    ensures fault { IfErr result (λ code. (d : Lines) → IsRestRefused d rest.now keyword.Steps code) }
{
    match bounded(rest, MAX_STEPS) {
        Ok(number) => Ok(number),
        Err(code) => Err(Code::Text(code)),
    }
}
