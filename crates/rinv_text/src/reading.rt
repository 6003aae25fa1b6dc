//! From a text to the polynomial that it denotes, or to its first fault.

ghost use Rattle.std.specs.Prelude.{◌≡◌, ◌<◌, ◌-◌, ◌^◌, ℕ, List, length, MatchBool, IfOk, IfErr, nat_lt};
ghost use Rattle.rinv_algebra.specs.Residue.{residue_ops};
ghost use Rattle.rinv_algebra.specs.Normal.{IsNormal};
ghost use Rattle.rinv_text.specs.Faults.{OnFault};
ghost use Rattle.rinv_text.specs.Sightings.{IsRead};
ghost use Rattle.rinv_text.specs.Tokens as Tokens;
ghost use Rattle.rinv_text.specs.Grammar.{Tree};
ghost use Rattle.rinv_text.specs.Stops.{Denotes, IsExpression, IsRefused};

use crate::defs::Defs;
use crate::fault::TextStop;
use crate::names::Names;
use crate::parser::parse;
use crate::refusal::refusal;
use crate::size::size_of;
use crate::step::Step;
use crate::token::Placed;
use crate::tokens::read_tokens;
use crate::value::numerator_of;
use rinv_frac::FracRing;
use rinv_poly::{KPoly, PolyRing};
use rinv_ring::Gf;
use std::alloc::{AllocError as NoMemory, Global};

// The polynomial of an expression, unless it is refused.
fn accepted(
    alloc: Global,
    tokens: &[Placed],
    steps: &[Step],
    names: &Names,
    field: &Gf,
) -> Result<KPoly, TextStop>
    requires { (text : List ℕ) × IsRead field.now names.now (Tokens.tokens text) (length text) tokens.now steps.now }
    ensures normal { IfOk result (IsNormal (residue_ops field.now) (λ c. nat_lt c field.now) (length names.now)) }
    ensures value { (text : List ℕ) → IsRead field.now names.now (Tokens.tokens text) (length text) tokens.now steps.now → IfOk result (Denotes field.now names.now text) }
    ensures fault { (text : List ℕ) → IsRead field.now names.now (Tokens.tokens text) (length text) tokens.now steps.now → IfErr result (OnFault (IsRefused names.now text)) }
{
    let _p = field.modulus(); // a listed one
    let count = names.len();
    let defs = Defs::empty(alloc);
    let size = size_of(alloc, steps, count, &defs)?;
    if let Some(fault) = refusal(count, tokens, size) {
        return Err(TextStop::Fault(fault));
    }
    let field = FracRing::new(PolyRing::new(*field, count));
    let polynomial = numerator_of(alloc, steps, &defs, &field)?;
    Ok(polynomial)
}

/// The polynomial over the field that the bytes of a text denote, in the variables with these names; or the first fault of the text: it is no
/// expression; a name in it is not known; a number is 2^128 or more, or parentheses stand more than 100 deep; an exponent or a formal
/// degree is over 64; a part has more than 1,000,000 formal terms. The place is a number of bytes from the start of the text: that of
/// the first token that no expression has there, of the name, or of the first token.
pub fn read_bytes(alloc: Global, bytes: &[u8], names: &Names, field: &Gf) -> Result<KPoly, TextStop>
    requires { length bytes.now < 2 ^ 32 - 1 }
    ensures normal { IfOk result (IsNormal (residue_ops field.now) (λ c. nat_lt c field.now) (length names.now)) }
    ensures value { IfOk result (Denotes field.now names.now bytes.now) }
    ensures fault { IfErr result (OnFault (IsRefused names.now bytes.now)) }
{
    let tokens = read_tokens(alloc, bytes, names, field, false)?;
    match parse(alloc, &tokens, bytes.len() as u32) {
        Ok(steps) => accepted(alloc, &tokens, &steps, names, field),
        Err(stop) => Err(stop),
    }
}

/// The polynomial that the text denotes, as `read_bytes` reads it.
pub fn read_poly(alloc: Global, text: &str, names: &Names, field: &Gf) -> Result<KPoly, TextStop>
    requires { length text.now < 2 ^ 32 - 1 }
    ensures normal { IfOk result (IsNormal (residue_ops field.now) (λ c. nat_lt c field.now) (length names.now)) }
    ensures value { IfOk result (Denotes field.now names.now text.now) }
    ensures fault { IfErr result (OnFault (IsRefused names.now text.now)) }
{
    read_bytes(alloc, text.as_bytes(), names, field)
}

/// Whether the bytes of a text are an expression, refused or not.
pub fn is_expression(alloc: Global, bytes: &[u8]) -> Result<bool, NoMemory>
    requires { length bytes.now < 2 ^ 32 - 1 }
    ensures { IfOk result (λ b. MatchBool b ((t : Tree) × IsExpression bytes.now t) (¬ ((t : Tree) × IsExpression bytes.now t))) }
{
    let Ok(field) = Gf::new(2) else {
        unreachable!()
    };
    let tokens = read_tokens(alloc, bytes, &Names::empty(alloc), &field, false)?;
    match parse(alloc, &tokens, bytes.len() as u32) {
        Ok(_) => Ok(true),
        Err(TextStop::Fault(_)) => Ok(false),
        Err(TextStop::NoMemory) => Err(NoMemory),
    }
}
