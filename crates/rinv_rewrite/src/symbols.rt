//! Symbols and the terms in which they stand.

ghost use Rattle.std.specs.Prelude.{◌≡◌, length, All, IfOk};
ghost use Rattle.rinv_algebra.specs.Ring.{IsSame};
ghost use Rattle.rinv_algebra.specs.Residue.{residue_ops};
ghost use Rattle.rinv_algebra.specs.Polynomial.{poly_ops};
ghost use Rattle.rinv_poly.specs.Terms.{IsTerm};
ghost use Rattle.rinv_frac.specs.Fractions.{IsPart};
ghost use Rattle.rinv_soundness.specs.Rewriting.{in_z, symbol_of};
ghost use Rattle.rinv_gens.specs.Symbols.{tied_of};
ghost use Rattle.rinv_rewrite.specs.Symbols.{IsSymbolIn, IsSymbolPart, is_symbolic};
ghost use Rattle.rinv_rewrite.specs.Rewritten.{AreTailTerms, AreTermsOf};

use rinv_gens::Symbol;
use rinv_mono::Mono;
use rinv_poly::{KPoly, Poly, PolyRing};
use rinv_ring::{Gf, NoMemory};
use rinv_text::variable;
use std::alloc::Global;

/// The polynomials in Z over the polynomials in the symbols.
pub(crate) type ZRing = PolyRing<PolyRing<Gf>>;

/// A polynomial in Z whose coefficients are polynomials in the symbols.
pub(crate) type ZPoly = Poly<PolyRing<Gf>>;

// The number, or the symbol of the generator.
fn symbol(ring: &PolyRing<Gf>, alloc: Global, tied: Symbol) -> Result<KPoly, NoMemory>
    requires { IsSymbolIn ring.now.coeffs ring.now.vars (tied_of tied) }
    ensures element { IfOk result (IsPart ring.now.coeffs ring.now.vars) }
    ensures value { IfOk result (λ r. IsSame (poly_ops (residue_ops ring.now.coeffs)) r (symbol_of ring.now.coeffs (tied_of tied))) }
{
    let _count = ring.vars();
    match tied {
        Symbol::Constant(value) => {
            let constant = ring.constant(alloc, value)?;
            Ok(constant)
        }
        Symbol::Generator(number) => {
            let symbol = variable(alloc, (number - 1) as u32, ring)?;
            Ok(symbol)
        }
    }
}

/// The terms of a tail, with symbols.
pub(crate) fn tail_terms(
    ring: &ZRing,
    alloc: Global,
    tail: &[(Mono, Symbol)],
) -> Result<Vec<(Mono, KPoly)>, NoMemory>
    requires { All (λ t. IsSymbolIn ring.now.coeffs.coeffs ring.now.coeffs.vars (tied_of t.1)) tail.now }
    ensures { IfOk result (λ v. AreTailTerms ring.now.coeffs.coeffs ring.now.coeffs.vars tail.now v.items) }
{
    let mut terms = Vec::with_capacity(alloc, tail.len())?;
    'places: for k in 0..tail.len() {
        let (mono, tied) = &tail[k];
        let coefficient = symbol(ring.coeffs(), alloc, *tied)?;
        let mono = mono.copy(alloc)?;
        terms.push((mono, coefficient))?;
    }
    Ok(terms)
}

/// The terms of a polynomial in the space's variables, put in Z.
pub(crate) fn terms_in_z(
    ring: &ZRing,
    alloc: Global,
    f: &KPoly,
) -> Result<Vec<(Mono, KPoly)>, NoMemory>
    requires { IsPart ring.now.coeffs.coeffs ring.now.vars f.now }
    ensures { IfOk result (λ v. AreTermsOf ring.now.coeffs.coeffs ring.now.coeffs.vars (in_z ring.now.coeffs.coeffs f.now) v.items) }
{
    let terms = f.terms();
    let mut out = Vec::with_capacity(alloc, terms.len())?;
    'places: for k in 0..terms.len() {
        let (mono, c) = &terms[k];
        let coefficient = ring.coeffs().constant(alloc, *c)?;
        let mono = mono.copy(alloc)?;
        out.push((mono, coefficient))?;
    }
    Ok(out)
}

/// The sum of the terms.
pub(crate) fn total(
    ring: &ZRing,
    alloc: Global,
    terms: Vec<(Mono, KPoly)>,
) -> Result<ZPoly, NoMemory>
    requires { All (IsTerm (is_symbolic ring.now.coeffs.coeffs ring.now.coeffs.vars) ring.now.vars) terms.items }
    ensures element { IfOk result (IsSymbolPart ring.now.coeffs.coeffs ring.now.coeffs.vars ring.now.vars) }
    ensures value { IfOk result (λ f. IsSame (poly_ops (poly_ops (residue_ops ring.now.coeffs.coeffs))) f terms.items) }
{
    // Sums of polynomials over a field are refused for memory alone.
    let Ok(total) = ring.from_terms(alloc, terms) else {
        return Err(NoMemory);
    };
    Ok(total)
}
