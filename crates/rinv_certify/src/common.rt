//! The keys of every certificate: the system without its section, the fractions and their proofs, and the proofs of the laws.

ghost use Rattle.std.specs.Prelude.{◌≡◌, [], map, IfOk};
ghost use Rattle.rinv_cert.specs.Seen.{system_by};
ghost use Rattle.rinv_certify.specs.Parts.{IsCommon};

use rinv_cert::{Items, Name, Plain, System};
use rinv_frac::{Frac, FracRing};
use rinv_generators::kinds::Generators;
use rinv_parts::LawName;
use rinv_plain::{plain, plain_list, plain_lists};
use rinv_poly::{KPoly, PolyRing};
use rinv_ring::NoMemory;
use rinv_text::{Names, System as Acting};
use std::alloc::Global;

/// The system without its section, the fractions with the cofactors of their changes, and the cofactors of the laws.
#[derive(Drop)]
pub(crate) struct Common {
    pub(crate) system: System<Plain>,
    pub(crate) fractions: Items<(Plain, Plain)>,
    pub(crate) invariance: Items<Items<Plain>>,
    pub(crate) laws: Items<Items<Items<Plain>>>,
}

/// Those of the generators.
pub(crate) fn common_part(alloc: Global, gens: &Generators) -> Result<Common, NoMemory>
    ensures { IfOk result (IsCommon gens.now) }
{
    let system = system_part(alloc, &gens.system)?;
    let fractions = fraction_list(alloc, &gens.system, &gens.fractions)?;
    let invariance = plain_lists(alloc, &gens.proofs)?;
    let laws = law_lists(alloc, &gens.laws.cofactors)?;
    Ok(Common {
        system,
        fractions,
        invariance,
        laws,
    })
}

// The system, without its section.
fn system_part(alloc: Global, system: &Acting) -> Result<System<Plain>, NoMemory>
    ensures { IfOk result (λ s. system_by (λ f. f) s ≡ record system.now.system { section = [] }) }
{
    let group = names(alloc, &system.group)?;
    let space = names(alloc, &system.space)?;
    let ideal = plain_list(alloc, &system.ideal)?;
    let unit = system.unit.to_vec(alloc)?;
    let product = plain_list(alloc, &system.product)?;
    let inverse = plain_list(alloc, &system.inverse)?;
    let action = plain_list(alloc, &system.action)?;
    Ok(System {
        field: system.field.modulus(),
        group,
        space,
        ideal,
        unit: Items::new(unit),
        product,
        inverse,
        action,
    })
}

// The names.
fn names(alloc: Global, names: &Names) -> Result<Items<Name>, NoMemory>
    ensures { IfOk result (λ r. r ≡ names.now) }
{
    let mut list = Vec::with_capacity(alloc, names.len() as usize)?;
    'names: for k in 0..names.len() {
        let text = String::from_str(alloc, names.name(k))?;
        list.push(Name::new(text))?;
    }
    Ok(Items::new(list))
}

// The numerators and denominators.
fn fraction_list(
    alloc: Global,
    system: &Acting,
    fractions: &[Frac],
) -> Result<Items<(Plain, Plain)>, NoMemory>
    ensures { IfOk result (λ r. r ≡ fractions.now) }
{
    let field = FracRing::new(PolyRing::new(system.field, system.space.len()));
    let mut list = Vec::with_capacity(alloc, fractions.len())?;
    'fractions: for k in 0..fractions.len() {
        let num = plain(alloc, field.num(&fractions[k]))?;
        let den = plain(alloc, field.den(&fractions[k]))?;
        list.push((num, den))?;
    }
    Ok(Items::new(list))
}

// The cofactors of each law's parts.
fn law_lists(
    alloc: Global,
    laws: &[(LawName, Vec<Vec<KPoly>>)],
) -> Result<Items<Items<Items<Plain>>>, NoMemory>
    ensures { IfOk result (λ r. r ≡ map (λ e. map (λ us. us.items) e.1.items) laws.now) }
{
    let mut list = Vec::with_capacity(alloc, laws.len())?;
    'laws: for k in 0..laws.len() {
        let lists = plain_lists(alloc, &laws[k].1)?;
        list.push(lists)?;
    }
    Ok(Items::new(list))
}
