//! The cofactors of the laws: an object with six keys.

ghost use Rattle.std.specs.Prelude.{◌≡◌, [], ◌∷◌, codes, IfOk, IfErr, MatchOption, None, Some};
ghost use Rattle.serde_json.specs.View.{view, members_view};
ghost use Rattle.serde_json.specs.Find.{as_object};
ghost use Rattle.rinv_json.specs.Reading.{found, or_refuse};
ghost use Rattle.rinv_json.specs.Shapes.{under, list_of, poly};
ghost use Rattle.rinv_json.specs.Certificates.{laws_of};
ghost use Rattle.rinv_cert.specs.Faults.{Refuses};
ghost use Rattle.rinv_cert.specs.Parts.{laws_object, laws_read};

use crate::certificate::Polynomial;
use crate::fault::{CertStop, Part};
use crate::items::Items;
use crate::keys::{KeySet, has_only};
use crate::members::{member, refusal};
use serde_json::Value;
use std::alloc::{AllocError as NoMemory, Global};

type Cofactors = Items<Items<Polynomial>>;

// The cofactors of the law with this name, which has this number.
fn law(alloc: Global, laws: &Value, name: &str, number: u32) -> Result<Cofactors, CertStop>
    ensures ok { IfOk result (λ x. or_refuse (codes "laws") number (under name.now (list_of (list_of poly)) (view laws.now)) ≡ found x) }
    ensures fault { IfErr result (Refuses (or_refuse (codes "laws") number (under name.now (list_of (list_of poly)) (view laws.now)))) }
{
    match member::<Cofactors>(alloc, laws, name)? {
        Some(cofactors) => Ok(cofactors),
        None => Err(refusal(Part::Laws, number)),
    }
}

// A list of six.
fn six(
    alloc: Global,
    l2: Cofactors,
    l3: Cofactors,
    l4: Cofactors,
    l5: Cofactors,
    l6: Cofactors,
    a2: Cofactors,
) -> Result<Items<Cofactors>, NoMemory>
    ensures { IfOk result (λ xs. xs ≡ l2 ∷ l3 ∷ l4 ∷ l5 ∷ l6 ∷ a2 ∷ []) }
{
    let list = vec![in alloc; l2, l3, l4, l5, l6, a2]?;
    Ok(Items::new(list))
}

// The cofactors of each law.
#[tactic(auto, unfolding(rinv_json::specs::Reading::each_from))]
fn each_law(alloc: Global, laws: &Value) -> Result<Items<Cofactors>, CertStop>
    ensures ok { IfOk result (λ xs. laws_read (view laws.now) ≡ found xs) }
    ensures fault { IfErr result (Refuses (laws_read (view laws.now))) }
{
    let l2 = law(alloc, laws, "L2", 1)?;
    let l3 = law(alloc, laws, "L3", 2)?;
    let l4 = law(alloc, laws, "L4", 3)?;
    let l5 = law(alloc, laws, "L5", 4)?;
    let l6 = law(alloc, laws, "L6", 5)?;
    let a2 = law(alloc, laws, "A2", 6)?;
    let list = six(alloc, l2, l3, l4, l5, l6, a2)?;
    Ok(list)
}

// The object under the key.
fn laws_under<'a>(value: &'a Value) -> Option<&'a Value>
    ensures { MatchOption result (laws_object (view value.now) ≡ None) (λ v. laws_object (view value.now) ≡ as_object (view v.now)) }
{
    match value.get("laws") {
        Some(laws) => { if laws.is_object() { Some(laws) } else { None } }
        None => None,
    }
}

/// The cofactors of the laws, in an object with their names alone.
#[tactic(auto, unfolding(rinv_json::specs::Certificates::laws_of))]
pub(crate) fn laws(alloc: Global, value: &Value) -> Result<Items<Cofactors>, CertStop>
    ensures ok { IfOk result (λ xs. laws_of poly (view value.now) ≡ found xs) }
    ensures fault { IfErr result (Refuses (laws_of poly (view value.now))) }
{
    let Some(laws) = laws_under(value) else {
        return Err(refusal(Part::Laws, 0));
    };
    let Some(members) = laws.as_object() else {
        return Err(refusal(Part::Laws, 0));
    };
    let list = each_law(alloc, laws)?;
    if !has_only(KeySet::OfLaws, members) {
        return Err(refusal(Part::Laws, 7));
    }
    Ok(list)
}
