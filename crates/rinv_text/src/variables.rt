//! Variables as polynomials.

ghost use Rattle.std.specs.Prelude.{◌≡◌, ◌<◌, ◌-◌, ◌++◌, [], ◌∷◌, replicate, IfOk};
ghost use Rattle.rinv_algebra.specs.Residue.{residue_ops};
ghost use Rattle.rinv_algebra.specs.Polynomial.{variable};
ghost use Rattle.rinv_text.specs.Values.{IsStored};

use crate::operations::{modulus, want_of_memory};
use rinv_mono::Mono;
use rinv_poly::{KPoly, PolyRing};
use rinv_ring::Gf;
use std::alloc::{AllocError as NoMemory, Global};

// The monomial of the variable at a place.
fn variable_monomial(alloc: Global, k: u32, vars: u32) -> Result<Mono, NoMemory>
    requires { k < vars }
    ensures { IfOk result (λ m. m ≡ replicate k 0 ++ 1 ∷ [] ++ replicate (vars - k - 1) 0) }
{
    let mut exponents = vec![in alloc; 0; k as usize]?;
    exponents.push(1)?;
    let mut rest = vec![in alloc; 0; (vars - k - 1) as usize]?;
    exponents.append(&mut rest)?;
    match Mono::from_exponents(alloc, &exponents)? {
        Some(mono) => Ok(mono),
        None => unreachable!(),
    }
}

/// The variable at a place.
pub fn variable(alloc: Global, k: u32, ring: &PolyRing<Gf>) -> Result<KPoly, NoMemory>
    requires { k < ring.now.vars }
    ensures { IfOk result (IsStored ring.now.coeffs ring.now.vars 1 (variable (residue_ops ring.now.coeffs) k)) }
{
    let _p = modulus(ring);
    let mono = variable_monomial(alloc, k, ring.vars())?;
    let terms = vec![in alloc; (mono, 1)]?;
    match ring.from_terms(alloc, terms) {
        Ok(variable) => Ok(variable),
        Err(fault) => Err(want_of_memory(fault)),
    }
}
