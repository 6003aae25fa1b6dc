//! The lists of a system.

ghost use Rattle.std.specs.Prelude.{◌≡◌, ◌==◌, ◌&&◌, ◌≤◌, ◌+◌, length, nat_lt, None, IfOk, IfErr, OnOk};
ghost use Rattle.std.specs.List.{list_all};
ghost use Rattle.rinv_defs.specs.System.{group_count, space_count};
ghost use Rattle.rinv_cert.specs.Seen.{system_by};
ghost use Rattle.rinv_form.specs.Stops.{StopsAt, lists_failure};

use crate::copies::{names_again, numbers_again};
use crate::frame::FormatStop;
use crate::lists::{generators, polynomials};
use crate::sizes::Sizes;
use rinv_cert::{Polynomial, System};
use rinv_poly::KPoly;
use rinv_ring::Gf;
use std::alloc::Global;

fn are_below(p: u32, numbers: &[u32]) -> bool
    ensures { result ≡ list_all (λ x. nat_lt x p) numbers.now }
{
    numbers.iter().all(|x| *x < p)
}

// Whether it is a point with so many coordinates.
fn is_point(field: Gf, count: usize, point: &[u32]) -> bool
    ensures { result ≡ (length point.now == count && list_all (λ x. nat_lt x field) point.now) }
{
    let p = field.modulus();
    point.len() == count && are_below(p, point)
}

/// The system with its lists stored, where they have their form.
pub(crate) fn system_lists(
    alloc: Global,
    sizes: &Sizes,
    system: &System<Polynomial>,
) -> Result<System<KPoly>, FormatStop>
    requires field { sizes.now.field ≡ system.now.field }
    requires group { sizes.now.group ≡ length system.now.group }
    requires space { sizes.now.space ≡ length system.now.space }
    requires few { sizes.now.group ≤ 8 }
    requires whole { sizes.now.whole ≡ sizes.now.group + sizes.now.space }
    ensures same { IfOk result (λ s. s ≡ system.now) }
    ensures form { OnOk result (lists_failure (system_by (λ f. f) system.now) ≡ None) }
    ensures part { IfErr result (StopsAt (lists_failure (system_by (λ f. f) system.now))) }
{
    let field = sizes.field;
    let l = sizes.group as usize;
    let n = sizes.space as usize;
    let Some(ideal) = generators(alloc, field, sizes.group, &system.ideal)? else {
        return Err(FormatStop::Part(6));
    };
    if !is_point(field, l, system.unit.as_slice()) {
        return Err(FormatStop::Part(7));
    }
    let Some(product) = polynomials(alloc, field, 2 * sizes.group, l, &system.product)? else {
        return Err(FormatStop::Part(8));
    };
    let Some(inverse) = polynomials(alloc, field, sizes.group, l, &system.inverse)? else {
        return Err(FormatStop::Part(9));
    };
    let Some(action) = polynomials(alloc, field, sizes.whole, n, &system.action)? else {
        return Err(FormatStop::Part(10));
    };
    let group = names_again(alloc, &system.group)?;
    let space = names_again(alloc, &system.space)?;
    let unit = numbers_again(alloc, &system.unit)?;
    Ok(System {
        field: system.field,
        group,
        space,
        ideal,
        unit,
        product,
        inverse,
        action,
    })
}
