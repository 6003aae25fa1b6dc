//! The last condition: each fraction is invariant, as its cofactors show.

ghost use Rattle.std.specs.Prelude.{◌≡◌, ◌+◌, ◌<◌, ◌≤◌, ◌^◌, ℕ, List, length, All, IsTrue, None, true, IfOk, IfErr, OnOk, nat_lt};
ghost use Rattle.std.specs.List.{list_all};
ghost use Rattle.rinv_algebra.specs.Normal.{IsNormal};
ghost use Rattle.rinv_ring.specs.Fault.{DegreesMeet};
ghost use Rattle.rinv_defs.specs.Format.{format_failure};
ghost use Rattle.rinv_defs.specs.Conditions.{invariance_failure};
ghost use Rattle.rinv_cert.specs.Seen.{plain};
ghost use Rattle.rinv_form.specs.Forms.{is_stored, are_stored, is_stored_fraction};
ghost use Rattle.rinv_check.specs.Setting.{change_fits, IsUnfit, IsChangeIn, first_unshown, is_shown};

use rinv_cert::{CertificateOf, Items};
use rinv_form::sizes_in;
use rinv_identities::{multiplies_out, widened_ideal};
use rinv_poly::{KPoly, PolyRing};
use rinv_ring::{Gf, NoMemory, Ring, RingFault};
use rinv_sub::substitute_over_field;
use std::alloc::Global;

// The rings of the space, and of the group and the space, over one field.
#[derive(Drop)]
struct Rings {
    group: u32,
    space: PolyRing<Gf>,
    whole: PolyRing<Gf>,
    ghost field: { space.coeffs ≡ whole.coeffs },
    ghost vars: { whole.vars ≡ group + space.vars },
}

// N(g)*D - N*D(g), for the fraction N/D and the action g.
fn change(
    alloc: Global,
    rings: &Rings,
    action: &[KPoly],
    numerator: &KPoly,
    denominator: &KPoly,
) -> Result<KPoly, RingFault>
    requires many { length action.now ≡ rings.now.space.vars }
    requires action { All (λ f. IsTrue (is_stored rings.now.whole.coeffs rings.now.whole.vars f)) action.now }
    requires numerator { IsTrue (is_stored rings.now.whole.coeffs rings.now.space.vars numerator.now) }
    requires denominator { IsTrue (is_stored rings.now.whole.coeffs rings.now.space.vars denominator.now) }
    ensures element { IfOk result (λ r. IsTrue (is_stored rings.now.whole.coeffs rings.now.whole.vars r)) }
    ensures value { IfOk result (IsChangeIn rings.now.whole.coeffs rings.now.group action.now numerator.now denominator.now) }
    ensures fits { OnOk result (change_fits rings.now.whole.coeffs rings.now.group action.now numerator.now denominator.now ≡ true) }
    ensures degree { IfErr result (DegreesMeet (IsUnfit rings.now.whole.coeffs rings.now.group action.now numerator.now denominator.now)) }
{
    let Rings {
        group,
        space,
        whole,
    } = rings;
    // Each of the two is refused before its own products are formed, where these do not fit.
    let moved_numerator = substitute_over_field(space, alloc, numerator, whole, action)?;
    let moved_denominator = substitute_over_field(space, alloc, denominator, whole, action)?;
    let kept_denominator = space.behind(alloc, *group, denominator, whole)?;
    let left = whole.product(alloc, &moved_numerator, &kept_denominator)?;
    let kept_numerator = space.behind(alloc, *group, numerator, whole)?;
    let right = whole.product(alloc, &kept_numerator, &moved_denominator)?;
    whole.sub(alloc, &left, &right)
}

// Whether the fraction's change is the sum of the cofactors times the ideal, and the products fit.
fn is_shown(
    alloc: Global,
    rings: &Rings,
    action: &[KPoly],
    ideal: &[KPoly],
    fraction: &(KPoly, KPoly),
    cofactors: &[KPoly],
) -> Result<bool, NoMemory>
    requires many { length action.now ≡ rings.now.space.vars }
    requires action { All (λ f. IsTrue (is_stored rings.now.whole.coeffs rings.now.whole.vars f)) action.now }
    requires ideal { All (λ f. IsTrue (is_stored rings.now.whole.coeffs rings.now.whole.vars f)) ideal.now }
    requires fraction { IsTrue (is_stored_fraction rings.now.whole.coeffs rings.now.space.vars fraction.now) }
    requires cofactors { IsTrue (are_stored rings.now.whole.coeffs rings.now.whole.vars (length ideal.now) cofactors.now) }
    ensures { IfOk result (λ b. b ≡ is_shown rings.now.whole.coeffs rings.now.group action.now ideal.now fraction.now cofactors.now) }
{
    let (numerator, denominator) = fraction;
    let change = match change(alloc, rings, action, numerator, denominator) {
        Ok(change) => change,
        Err(RingFault::Degree { .. }) => return Ok(false),
        Err(RingFault::NoMemory) => return Err(NoMemory),
    };
    let shown = multiplies_out(alloc, &rings.whole, &change, cofactors, ideal)?;
    Ok(shown)
}

// The number, from 1, of the first fraction that is not shown.
fn first_not_shown(
    alloc: Global,
    rings: &Rings,
    action: &[KPoly],
    ideal: &[KPoly],
    fractions: &[(KPoly, KPoly)],
    cofactors: &[Items<KPoly>],
) -> Result<Option<u32>, NoMemory>
    requires many { length action.now ≡ rings.now.space.vars }
    requires action { All (λ f. IsTrue (is_stored rings.now.whole.coeffs rings.now.whole.vars f)) action.now }
    requires ideal { All (λ f. IsTrue (is_stored rings.now.whole.coeffs rings.now.whole.vars f)) ideal.now }
    requires as_many { length cofactors.now ≡ length fractions.now }
    requires fractions { All (λ f. IsTrue (is_stored_fraction rings.now.whole.coeffs rings.now.space.vars f)) fractions.now }
    requires cofactors { All (λ us. IsTrue (are_stored rings.now.whole.coeffs rings.now.whole.vars (length ideal.now) us)) cofactors.now }
    ensures { IfOk result (λ o. o ≡ first_unshown rings.now.whole.coeffs rings.now.group action.now ideal.now fractions.now cofactors.now) }
{
    'fractions: for k in 0..fractions.len() {
        // Numbers of entries are u32: a longer list is answered as want of memory.
        let Ok(number) = u32::try_from(k + 1) else {
            return Err(NoMemory);
        };
        let list = &cofactors[k];
        if !is_shown(alloc, rings, action, ideal, &fractions[k], list.as_slice())? {
            return Ok(Some(number));
        }
    }
    Ok(None)
}

/// The number, from 1, of the first fraction that the cofactors do not show to be invariant.
pub(crate) fn invariance_failure(
    alloc: Global,
    stored: &CertificateOf<KPoly>,
) -> Result<Option<u32>, NoMemory>
    requires { format_failure (plain stored.now) ≡ None }
    ensures { IfOk result (λ o. o ≡ invariance_failure (plain stored.now)) }
{
    let sizes = sizes_in(stored);
    let rings = Rings {
        group: sizes.group,
        space: PolyRing::new(sizes.field, sizes.space),
        whole: PolyRing::new(sizes.field, sizes.whole),
    };
    let group = PolyRing::new(sizes.field, sizes.group);
    let written = &stored.system;
    let ideal = widened_ideal(alloc, &group, written.ideal.as_slice(), &rings.whole)?;
    let failure = first_not_shown(
        alloc,
        &rings,
        written.action.as_slice(),
        &ideal,
        stored.fractions.as_slice(),
        stored.invariance.as_slice(),
    )?;
    Ok(failure)
}
