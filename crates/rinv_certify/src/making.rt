//! The certificate as a whole.

ghost use Rattle.std.specs.Prelude.{◌≡◌, ◌<◌, ◌^◌, [], length, true, false, IfOk, IfErr};
ghost use Rattle.rinv_defs.specs.Accepted.{IsAccepted};
ghost use Rattle.rinv_json.specs.Ranges.{IsWritable};
ghost use Rattle.rinv_cert.specs.Seen.{plain};
ghost use Rattle.rinv_certification.specs.Made.{IsCertificateOf};
ghost use Rattle.rinv_certify.specs.Meets.{CertificateMeets};
ghost use Rattle.rinv_certify.specs.Parts.{IsCommon, LawsFit, ChangesFit};
ghost use Rattle.rinv_certify.specs.Stopped.{StopsAt};

use crate::basis::basis_items;
use crate::changes::changes_fit;
use crate::common::{Common, common_part};
use crate::inputs::rows_of_inputs;
use crate::laws::laws_fit;
use crate::relations::relation_items;
use crate::stop::CertifyStop;
use rinv_at_graph::ground_of;
use rinv_cert::{Certificate, CertificateOf, Items, Kind};
use rinv_generators::kinds::Generators;
use rinv_recording::recorded_pairs;
use std::alloc::Global;

/// The certificate of the generators: of kind `full`, or of kind `sound` where the system has a section. It is accepted, and can be written.
/// Degree comes only where a product by which it is made, or which its conditions multiply, has monomials of these degrees, over the limit.
pub fn certify(alloc: Global, gens: &Generators) -> Result<Certificate, CertifyStop>
    ensures made { IfOk result (λ c. IsCertificateOf gens.now (plain c)) }
    ensures accepted { IfOk result (λ c. IsAccepted (plain c)) }
    ensures writable { IfOk result (λ c. IsWritable (plain c)) }
    ensures degree { IfErr result (StopsAt (CertificateMeets gens.now)) }
{
    let few = are_few(gens);
    if !few {
        return Err(CertifyStop::NoMemory);
    }
    let common = common_part(alloc, gens)?;
    laws_fit(alloc, gens)?;
    changes_fit(alloc, gens)?;
    let on_section = has_section(gens);
    if on_section {
        let certificate = sound(alloc, gens, common);
        return Ok(certificate);
    }
    let certificate = full(alloc, gens, common)?;
    Ok(certificate)
}

// Whether the places of elements and the numbers of generators are 32-bit numbers. Where there are more, that is answered as want of memory.
fn are_few(gens: &Generators) -> bool
    ensures elements { result ≡ true → length gens.now.action.polys < 2 ^ 32 }
    ensures fractions { result ≡ true → length gens.now.fractions < 2 ^ 32 }
{
    let most = u32::MAX as usize;
    gens.action.polys.len() <= most && gens.fractions.len() <= most
}

// Whether the system has a section.
fn has_section(gens: &Generators) -> bool
    ensures some { result ≡ true → ¬ (gens.now.told.system.section ≡ []) }
    ensures none { result ≡ false → gens.now.told.system.section ≡ [] }
{
    let system = &gens.system;
    !system.section.is_empty()
}

// No element.
fn nothing<T>(alloc: Global) -> Items<T>
    ensures { result ≡ [] }
{
    Items::new(Vec::new(alloc))
}

// With the basis, and what shows that it is one, and the relations.
fn full(alloc: Global, gens: &Generators, common: Common) -> Result<Certificate, CertifyStop>
    requires elements { length gens.now.action.polys < 2 ^ 32 }
    requires fractions { length gens.now.fractions < 2 ^ 32 }
    requires section { gens.now.told.system.section ≡ [] }
    requires common { IsCommon gens.now common }
    requires laws { LawsFit gens.now }
    requires changes { ChangesFit gens.now }
    ensures made { IfOk result (λ c. IsCertificateOf gens.now (plain c)) }
    ensures accepted { IfOk result (λ c. IsAccepted (plain c)) }
    ensures degree { IfErr result (StopsAt (CertificateMeets gens.now)) }
{
    let ground = ground_of(alloc, &gens.system, &gens.group)?;
    let basis = basis_items(alloc, gens, &ground)?;
    let inputs = rows_of_inputs(alloc, gens)?;
    let pairs = recorded_pairs(alloc, &gens.system, &gens.action)?;
    let relations = relation_items(alloc, gens, &ground)?;
    let Common {
        system,
        fractions,
        invariance,
        laws,
    } = common;
    Ok(CertificateOf {
        kind: Kind::Full,
        system,
        fractions,
        invariance,
        laws,
        basis,
        inputs,
        pairs,
        relations,
    })
}

// With none of this.
fn sound(alloc: Global, gens: &Generators, common: Common) -> Certificate
    requires section { ¬ (gens.now.told.system.section ≡ []) }
    requires common { IsCommon gens.now common }
    requires laws { LawsFit gens.now }
    requires changes { ChangesFit gens.now }
    ensures made { IsCertificateOf gens.now (plain result) }
    ensures accepted { IsAccepted (plain result) }
{
    let _system = &gens.system;
    let basis = nothing(alloc);
    let inputs = nothing(alloc);
    let pairs = nothing(alloc);
    let relations = nothing(alloc);
    let Common {
        system,
        fractions,
        invariance,
        laws,
    } = common;
    CertificateOf {
        kind: Kind::Sound,
        system,
        fractions,
        invariance,
        laws,
        basis,
        inputs,
        pairs,
        relations,
    }
}
