//! Lists of polynomials.

ghost use Rattle.std.specs.Prelude.{◌≡◌, ◌<◌, ◌-◌, ◌^◌, ℕ, List, [], None, length, map, All, Any, MatchBool, IfOk, IfErr, nat_lt};
ghost use Rattle.rinv_algebra.specs.Residue.{residue_ops};
ghost use Rattle.rinv_algebra.specs.Polynomial.{coefficient};
ghost use Rattle.rinv_algebra.specs.Normal.{IsNormal};
ghost use Rattle.rinv_system.specs.Entries.{entries_of};
ghost use Rattle.rinv_system.specs.Drafts.{modulus, names_for, order_fault, length_fault};
ghost use Rattle.rinv_system.specs.Forms.{IsSomeExpression, AreEntries, IsFirstFault, TellsPolynomials, IsRestRefused, IsRestTaken, with_polynomials};
ghost use Rattle.rinv_system.specs.Stops.{OnCode, IsReached, line_stop};

use crate::draft::Draft;
use crate::entries::entries;
use crate::keyword::Keyword;
use crate::refused::{Code, LineStop};
use rinv_poly::{KPoly, PolyRing};
use rinv_ring::Gf;
use rinv_text::{Names, TextCode, TextStop, is_expression, read_bytes};
use std::alloc::{AllocError as NoMemory, Global};

// Whether each entry is an expression.
fn are_expressions(alloc: Global, entries: &[&[u8]]) -> Result<bool, NoMemory>
    requires { All (λ e. length e.now < 2 ^ 32 - 1) entries.now }
    ensures { IfOk result (λ b. MatchBool b (All IsSomeExpression (map (λ e. e.now) entries.now)) (Any (λ e. ¬ (IsSomeExpression e)) (map (λ e. e.now) entries.now))) }
{
    'entries: for entry in entries {
        if !is_expression(alloc, entry)? {
            return Ok(false);
        }
    }
    Ok(true)
}

// The fault of an entry as that of its line.
fn line_stop(stop: TextStop) -> LineStop
    ensures { result ≡ line_stop stop }
{
    match stop {
        TextStop::Fault(fault) => LineStop::Fault(Code::Text(fault.code)),
        TextStop::NoMemory => LineStop::NoMemory,
    }
}

// The polynomials that the entries are.
fn read_entries(
    alloc: Global,
    entries: &[&[u8]],
    names: &Names,
    field: &Gf,
) -> Result<Vec<KPoly>, LineStop>
    requires { All (λ e. length e.now < 2 ^ 32 - 1) entries.now }
    ensures ok { IfOk result (λ fs. AreEntries field.now names.now (map (λ e. e.now) entries.now) fs.items) }
    ensures fault { IfErr result (OnCode (IsFirstFault names.now (map (λ e. e.now) entries.now))) }
{
    let mut found = Vec::new(alloc);
    'entries: for entry in entries {
        match read_bytes(alloc, entry, names, field) {
            Ok(polynomial) => found.push(polynomial)?,
            Err(stop) => return Err(line_stop(stop)),
        }
    }
    Ok(found)
}

// The constant of a polynomial without variables.
fn constant(ring: &PolyRing<Gf>, polynomial: &KPoly) -> u32
    requires normal { IsNormal (residue_ops ring.now.coeffs) (λ c. nat_lt c ring.now.coeffs) 0 polynomial.now }
    ensures { result ≡ coefficient (residue_ops ring.now.coeffs) polynomial.now [] }
{
    if ring.len(polynomial) == 0 {
        0
    } else {
        *ring.coeff(polynomial, 0)
    }
}

/// The constants of polynomials without variables.
pub(crate) fn constants(alloc: Global, field: Gf, list: &[KPoly]) -> Result<Vec<u32>, NoMemory>
    requires { All (IsNormal (residue_ops field) (λ c. nat_lt c field) 0) list.now }
    ensures { IfOk result (λ v. v.items ≡ map (λ f. coefficient (residue_ops field) f []) list.now) }
{
    let ring = PolyRing::new(field, 0);
    let mut found = Vec::new(alloc);
    'list: for polynomial in list {
        found.push(constant(&ring, polynomial))?;
    }
    Ok(found)
}

// The entries on the line of a keyword as polynomials.
fn listed(
    alloc: Global,
    draft: &Draft,
    keyword: Keyword,
    entries: &[&[u8]],
) -> Result<Vec<KPoly>, LineStop>
    requires tells { TellsPolynomials keyword }
    requires order { order_fault draft.now keyword ≡ None }
    requires reached { IsReached draft.now }
    requires short { All (λ e. length e.now < 2 ^ 32 - 1) entries.now }
    ensures length { IfOk result (λ _. length_fault draft.now keyword (length entries.now) ≡ None) }
    ensures entries { IfOk result (λ fs. AreEntries (modulus draft.now) (names_for draft.now keyword) (map (λ e. e.now) entries.now) fs.items) }
    ensures fault { IfErr result (OnCode (λ code. (rest : List ℕ) → map (λ e. e.now) entries.now ≡ entries_of rest → IsRestRefused draft.now rest keyword code)) }
{
    let grammatical = are_expressions(alloc, entries)?;
    if !grammatical {
        return Err(LineStop::Fault(Code::Text(TextCode::Expression)));
    }
    if let Some(code) = draft.length_fault(keyword, entries.len()) {
        return Err(LineStop::Fault(code));
    }
    let names = draft.names_for(alloc, keyword)?;
    let list = read_entries(alloc, entries, &names, &draft.field())?;
    Ok(list)
}

/// The polynomials that the rest of the line of a keyword gives.
pub(crate) fn read(
    alloc: Global,
    draft: &Draft,
    keyword: Keyword,
    rest: &[u8],
) -> Result<Vec<KPoly>, LineStop>
    requires tells { TellsPolynomials keyword }
    requires order { order_fault draft.now keyword ≡ None }
    requires reached { IsReached draft.now }
    requires short { length rest.now < 2 ^ 32 - 1 }
    ensures length { IfOk result (λ _. length_fault draft.now keyword (length (entries_of rest.now)) ≡ None) }
    ensures entries { IfOk result (λ fs. AreEntries (modulus draft.now) (names_for draft.now keyword) (entries_of rest.now) fs.items) }
    ensures fault { IfErr result (OnCode (IsRestRefused draft.now rest.now keyword)) }
{
    let entries = entries(alloc, rest)?;
    let list = listed(alloc, draft, keyword, &entries)?;
    Ok(list)
}
