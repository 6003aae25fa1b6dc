//! The numbering of the coefficients of relations: constants are left out, and each value is numbered once, at its first place.

ghost use Rattle.std.specs.Prelude.{◌≡◌, [], All, IfOk, IfErr};
ghost use Rattle.std.specs.List.{AllZip};
ghost use Rattle.rinv_ring.specs.Fault.{DegreesMeet};
ghost use Rattle.rinv_frac.specs.Fractions.{IsStored};
ghost use Rattle.rinv_tails.specs.Stored.{IsStoredRelation};
ghost use Rattle.rinv_coefficients.specs.Coefficients.{coefficients, generators_of};
ghost use Rattle.rinv_coefficients.specs.Ties.{Ties};
ghost use Rattle.rinv_gens.specs.Numbering.{WalkMeets};

use crate::kinds::Relation;
use crate::tying::tied;
use rinv_frac::{Frac, FracRing};
use rinv_ring::RingFault;
use rinv_tails::Monic;
use std::alloc::Global;

/// Relations whose coefficients are tied, and the generators.
#[derive(Drop)]
pub struct Numbered {
    pub relations: Vec<Relation>,
    pub fractions: Vec<Frac>,
}

/// The relations with their coefficients tied, relation by relation, each from its greatest monomial down. Degree comes only where the
/// comparison of a coefficient with an earlier one meets these degrees.
pub fn number_coefficients(
    field: &FracRing,
    alloc: Global,
    monic: &Monic,
) -> Result<Numbered, RingFault>
    requires { All (IsStoredRelation field.now.base.coeffs field.now.base.vars) monic.now }
    ensures fractions { IfOk result (λ n. n.fractions.items ≡ generators_of field.now.base.coeffs monic.now) }
    ensures stored { IfOk result (λ n. All (IsStored field.now.base.coeffs field.now.base.vars) n.fractions.items) }
    ensures relations { IfOk result (λ n. AllZip (Ties field.now.base.coeffs n.fractions.items) n.relations.items monic.now) }
    ensures degree { IfErr result (DegreesMeet (WalkMeets field.now.base.coeffs [] (coefficients monic.now))) }
{
    let relations = &monic.relations;
    let mut fractions = Vec::new(alloc);
    let mut numbered = Vec::with_capacity(alloc, relations.len())?;
    'relations: for k in 0..relations.len() {
        let relation = tied(field, alloc, &relations[k], &mut fractions)?;
        numbered.push(relation)?;
    }
    Ok(Numbered {
        relations: numbered,
        fractions,
    })
}
