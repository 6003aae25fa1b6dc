//! What coefficients are tied to.

ghost use Rattle.std.specs.Prelude.{◌≡◌, ◌<◌, ◌≤◌, ◌^◌, length, IfOk, IfErr, OnOk};
ghost use Rattle.rinv_defs.specs.Certificate.{to_generator};
ghost use Rattle.rinv_ring.specs.Fault.{DegreesMeet};
ghost use Rattle.rinv_cert.specs.Seen.{tied_of};
ghost use Rattle.rinv_gens.specs.Symbols.{tied_of as symbol_of};
ghost use Rattle.rinv_certify.specs.Meets.{TieMeets};
ghost use Rattle.rinv_certify.specs.Parts.{IsInside};
ghost use Rattle.rinv_certify.specs.Terms.{InEach, TieFits};
ghost use Rattle.rinv_certify.specs.InSpace.{IsInSpace};

use rinv_cert::Tied;
use rinv_fits::check_product;
use rinv_frac::FracRing;
use rinv_generators::kinds::Generators;
use rinv_gens::Symbol;
use rinv_poly::{KPoly, PolyRing};
use rinv_ring::RingFault;

/// What a coefficient c/d is tied to. Degree comes only where a product by which that is seen meets these degrees.
pub(crate) fn tied(
    gens: &Generators,
    d: &KPoly,
    c: &KPoly,
    symbol: Symbol,
) -> Result<Tied, RingFault>
    requires few { length gens.now.fractions < 2 ^ 32 }
    requires inside { IsInside (length gens.now.fractions) (symbol_of symbol) }
    requires denominator { IsInSpace gens.now.told.system d.now }
    requires numerator { IsInSpace gens.now.told.system c.now }
    ensures tied { IfOk result (λ t. tied_of t ≡ symbol_of symbol) }
    ensures fits { InEach gens.now (λ whole. OnOk result (TieFits whole d.now c.now (symbol_of symbol))) }
    ensures degree { IfErr result (DegreesMeet (TieMeets gens.now.told.system gens.now.fractions d.now c.now (symbol_of symbol))) }
{
    match symbol {
        Symbol::Constant(v) => Ok(Tied::Constant { v }),
        Symbol::Generator(k) => {
            products_fit(gens, d, c, k)?;
            let Ok(number) = u32::try_from(k) else {
                return Err(RingFault::NoMemory);
            };
            Ok(Tied::Generator { k: number })
        }
    }
}

// Tests the two products by which a coefficient c/d is compared with the generator of a number from 1.
fn products_fit(gens: &Generators, d: &KPoly, c: &KPoly, k: usize) -> Result<(), RingFault>
    requires first { 0 < k }
    requires last { k ≤ length gens.now.fractions }
    requires denominator { IsInSpace gens.now.told.system d.now }
    requires numerator { IsInSpace gens.now.told.system c.now }
    ensures fits { InEach gens.now (λ whole. OnOk result (TieFits whole d.now c.now (to_generator k))) }
    ensures degree { IfErr result (DegreesMeet (TieMeets gens.now.told.system gens.now.fractions d.now c.now (to_generator k))) }
{
    let system = &gens.system;
    let space = PolyRing::new(system.field, system.space.len());
    let field = FracRing::new(PolyRing::new(system.field, system.space.len()));
    let fractions = gens.fractions.as_slice();
    let place = k - 1;
    let generator = &fractions[place];
    let (num, den) = (field.num(generator), field.den(generator));
    check_product(&space, c, den)?;
    check_product(&space, d, num)?;
    Ok(())
}
