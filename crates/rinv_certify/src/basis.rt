//! The key `basis`: the elements of the action's basis, with the cofactors of their values at Z = g.

ghost use Rattle.std.specs.Prelude.{◌≡◌, ◌<◌, [], length, true, IfOk, IfErr};
ghost use Rattle.rinv_ring.specs.Fault.{DegreesMeet};
ghost use Rattle.rinv_acceptance.specs.Fits.{at_graph_multiplies};
ghost use Rattle.rinv_at_graph.specs.Grounds.{IsGround};
ghost use Rattle.rinv_certify.specs.Meets.{ElementsMeet};
ghost use Rattle.rinv_certify.specs.Parts.{BasisFits, basis_seen};
ghost use Rattle.rinv_certify.specs.Stated.{AreBasisItems, ElementMeets, IsElementItem};

use rinv_at_graph::{Ground, proof_at_graph};
use rinv_cert::{BasisItem, Items, Plain};
use rinv_generators::kinds::Generators;
use rinv_plain::{plain, plain_list};
use rinv_ring::RingFault;
use std::alloc::Global;

// The element at a place.
fn basis_item(
    alloc: Global,
    gens: &Generators,
    ground: &Ground,
    k: usize,
) -> Result<BasisItem<Plain>, RingFault>
    requires section { gens.now.told.system.section ≡ [] }
    requires ground { IsGround gens.now.told.system gens.now.group ground.now }
    requires inside { k < length gens.now.action.polys }
    ensures item { IfOk result (IsElementItem gens.now k) }
    ensures fits { IfOk result (λ b. at_graph_multiplies gens.now.told.system b.0 b.1 ≡ true) }
    ensures degree { IfErr result (DegreesMeet (ElementMeets gens.now k)) }
{
    let action = &gens.action;
    let polys = action.polys.as_slice();
    let h = &polys[k];
    let cofactors = proof_at_graph(alloc, ground, h)?;
    let element = plain(alloc, h)?;
    let list = plain_list(alloc, &cofactors)?;
    Ok(BasisItem {
        h: element,
        cofactors: list,
    })
}

/// The elements in their order. Degree comes only where the cofactors of one of them meet these degrees.
pub(crate) fn basis_items(
    alloc: Global,
    gens: &Generators,
    ground: &Ground,
) -> Result<Items<BasisItem<Plain>>, RingFault>
    requires section { gens.now.told.system.section ≡ [] }
    requires ground { IsGround gens.now.told.system gens.now.group ground.now }
    ensures items { IfOk result (AreBasisItems gens.now) }
    ensures fits { IfOk result (λ bs. BasisFits gens.now.told.system (basis_seen bs)) }
    ensures degree { IfErr result (DegreesMeet (ElementsMeet gens.now)) }
{
    let action = &gens.action;
    let count = action.polys.len();
    let mut items = Vec::with_capacity(alloc, count)?;
    'elements: for k in 0..count {
        let item = basis_item(alloc, gens, ground, k)?;
        items.push(item)?;
    }
    Ok(Items::new(items))
}
