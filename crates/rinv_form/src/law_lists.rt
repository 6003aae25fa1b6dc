//! The cofactors of the laws.

ghost use Rattle.std.specs.Prelude.{◌≡◌, ◌≤◌, [], ◌∷◌, IfOk};
ghost use Rattle.rinv_form.specs.Forms.{kept};
ghost use Rattle.rinv_form.specs.LawShapes.{are_law_lists, action_lists, group_lists};

use crate::lists::cofactors;
use crate::sizes::Sizes;
use rinv_cert::{Items, Polynomial};
use rinv_poly::KPoly;
use rinv_ring::NoMemory;
use std::alloc::Global;

type Plains = Items<Items<Polynomial>>;

type Lists = Items<Items<KPoly>>;

// How many laws have cofactors.
const LAWS: usize = 6;

// A list of six.
fn six(
    alloc: Global,
    l2: Lists,
    l3: Lists,
    l4: Lists,
    l5: Lists,
    l6: Lists,
    a2: Lists,
) -> Result<Items<Lists>, NoMemory>
    ensures { IfOk result (λ xs. xs ≡ l2 ∷ l3 ∷ l4 ∷ l5 ∷ l6 ∷ a2 ∷ []) }
{
    let list = vec![in alloc; l2, l3, l4, l5, l6, a2]?;
    Ok(Items::new(list))
}

// The cofactors of a law that speaks of so many points of the group, for so many parts.
fn law_list(
    alloc: Global,
    sizes: &Sizes,
    points: u32,
    parts: usize,
    lists: &Plains,
) -> Result<Option<Lists>, NoMemory>
    requires points { points ≤ 3 }
    requires few { sizes.now.group ≤ 8 }
    requires ideal { sizes.now.ideal ≤ 64 }
    ensures { IfOk result (λ o. o ≡ group_lists sizes.now points parts lists.now) }
{
    let vars = points * sizes.group;
    let size = points as usize * sizes.ideal;
    let stored = cofactors(alloc, sizes.field, vars, size, parts, lists)?;
    Ok(stored)
}

// The cofactors of the second law of the action.
fn action_list(alloc: Global, sizes: &Sizes, lists: &Plains) -> Result<Option<Lists>, NoMemory>
    requires few_group { sizes.now.group ≤ 8 }
    requires few_space { sizes.now.space ≤ 8 }
    requires ideal { sizes.now.ideal ≤ 64 }
    ensures { IfOk result (λ o. o ≡ action_lists sizes.now lists.now) }
{
    let vars = 2 * sizes.group + sizes.space;
    let size = 2 * sizes.ideal;
    let parts = sizes.space as usize;
    let stored = cofactors(alloc, sizes.field, vars, size, parts, lists)?;
    Ok(stored)
}

/// The cofactors of the laws that have some, where they have their form.
pub(crate) fn law_lists(
    alloc: Global,
    sizes: &Sizes,
    lists: &Items<Plains>,
) -> Result<Option<Items<Lists>>, NoMemory>
    requires few_group { sizes.now.group ≤ 8 }
    requires few_space { sizes.now.space ≤ 8 }
    requires ideal { sizes.now.ideal ≤ 64 }
    ensures { IfOk result (λ o. o ≡ kept (are_law_lists sizes.now lists.now) lists.now) }
{
    let given = lists.as_slice();
    if given.len() != LAWS {
        return Ok(None);
    }
    let coordinates = sizes.group as usize;
    let Some(l2) = law_list(alloc, sizes, 2, sizes.ideal, &given[0])? else {
        return Ok(None);
    };
    let Some(l3) = law_list(alloc, sizes, 1, sizes.ideal, &given[1])? else {
        return Ok(None);
    };
    let Some(l4) = law_list(alloc, sizes, 3, coordinates, &given[2])? else {
        return Ok(None);
    };
    let Some(l5) = law_list(alloc, sizes, 1, 2 * coordinates, &given[3])? else {
        return Ok(None);
    };
    let Some(l6) = law_list(alloc, sizes, 1, 2 * coordinates, &given[4])? else {
        return Ok(None);
    };
    let Some(a2) = action_list(alloc, sizes, &given[5])? else {
        return Ok(None);
    };
    let stored = six(alloc, l2, l3, l4, l5, l6, a2)?;
    Ok(Some(stored))
}
